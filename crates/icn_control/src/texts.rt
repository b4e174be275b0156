// Texts of the code.
ghost use Rattle.std.specs.Prelude.{◌≡◌, ◌<◌, ◌^◌, [], Some, length, slice_get, OnErr, OnOk, IfOk};
ghost use Rattle.icn_code.specs.Codes.{Tables};
ghost use Rattle.icn_code.specs.CodeTables.{tables_of};
ghost use Rattle.icn_code.specs.declared.instr.Instr.TheVariants as Instrs;
ghost use Rattle.icn_heap.specs.Extents.{IsText, text_in};
ghost use Rattle.icn_heap.specs.Heaps.{extent_of, heap_of};
ghost use Rattle.icn_vars.specs.Worlds.{KeepsItems, reach_of, world_of};
ghost use Rattle.icn_run.specs.Stacks.{Frames as FramesRead};
ghost use Rattle.icn_run.specs.Step.{Store};
ghost use Rattle.icn_value.specs.declared.item.Item.TheVariants as Items;
ghost use Rattle.icn_value.specs.declared.val.Val.TheVariants as Vals;
ghost use Rattle.icn_frames.specs.Slots.{plain_operand};
ghost use Rattle.icn_frames.specs.Stacks as flat;
ghost use Rattle.icn_control.specs.LiveStacks.{IsLiveStack};
ghost use Rattle.icn_control.specs.StackAndWorld.{RunsWith};
ghost use Rattle.icn_control.specs.StackViews.{instruction_state};

use icn_code::Code;
use icn_frames::{Cell, Frames, Stack};
use icn_profile::NUMBER_LIMIT;
use icn_value::{Span, Val};
use icn_vars::World;
use std::alloc::AllocError;

/// Pushes a text of the code, by its index, which must be there. It is not charged. The error is want of memory.
pub fn push_string<K: Stack<Cell> + Drop>(
    frames: &mut Frames<K>,
    world: &mut World,
    code: &Code,
    index: u32,
) -> Result<(), AllocError>
    requires index { index < length (tables_of code.now).strings }
    requires live { (tables : Tables) × IsLiveStack tables (reach_of world.old []) frames.old.flat }
    ensures step { OnOk result ((st : Store FramesRead) → st.world ≡ world_of world.old
        → RunsWith (instruction_state (extent_of world.old.heap) (tables_of code.now)
        (Instrs.Str index) frames.old.flat st) st world.new frames.new.flat) }
    ensures live { (tables : Tables) → IsLiveStack tables (reach_of world.old []) frames.old.flat
        → OnOk result (IsLiveStack tables (reach_of world.new []) frames.new.flat) }
    ensures kept { KeepsItems (reach_of world.old []) (reach_of world.new []) }
    ensures heap { heap_of world.new.heap ≡ heap_of world.old.heap }
{
    let text = string_at(code, index);
    let span = hold(world, text)?;
    push_text(frames, span)?;
    Ok(())
}

/// Pushes a text. The error is want of memory, and the stack is as it was then.
#[inline(always)]
pub fn push_text<K: Stack<Cell> + Drop>(
    frames: &mut Frames<K>,
    text: Span,
) -> Result<(), AllocError>
    ensures ok { OnOk result (frames.new.flat ≡ flat.push (Items.Val (Vals.Text text)) frames.old.flat) }
    ensures err { OnErr result (frames.new.flat ≡ frames.old.flat) }
{
    if text.len >= NUMBER_LIMIT {
        return frames.push_value(Val::Text(text));
    }
    frames.push_plain(short_text_slot(text))?;
    Ok(())
}

/// The slot of an operand that is a text of fewer than 2^32 bytes.
#[inline(always)]
pub fn short_text_slot(text: Span) -> Cell
    requires { text.len < 2 ^ 32 }
    ensures { plain_operand result ≡ Some (Items.Val (Vals.Text text)) }
{
    Cell::ValText {
        len: text.len as u32,
        start: text.start,
    }
}

// A text of the code.
fn string_at(code: &Code, index: u32) -> &[u8]
    requires { index < length (tables_of code.now).strings }
    ensures { slice_get (tables_of code.now).strings index ≡ Some result.now }
{
    match code.strings.get(index as usize) {
        Some(text) => text.as_slice(),
        None => unreachable!(),
    }
}

/// Keeps a text in the heap of a world, without a charge. `AllocError` is want of memory.
#[tactic(auto, using(icn_vars::proofs::GrowingWorlds::grows))]
pub fn hold(world: &mut World, bytes: &[u8]) -> Result<Span, AllocError>
    ensures live { IfOk result (IsText (extent_of world.new.heap)) }
    ensures bytes { IfOk result (λ span. text_in (extent_of world.new.heap) span ≡ bytes.now) }
    ensures kept { KeepsItems (reach_of world.old []) (reach_of world.new []) }
    ensures world { world_of world.new ≡ world_of world.old }
    ensures heap { heap_of world.new.heap ≡ heap_of world.old.heap }
{
    world.heap.hold(bytes)
}
