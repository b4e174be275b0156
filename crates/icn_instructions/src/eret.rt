// The instruction that gives the value of a result out of its mark.
ghost use Rattle.std.specs.Prelude.{◌≡◌, ◌<◌, [], false, Some, IsSome, IfErr};
ghost use Rattle.icn_value.specs.declared.item.Item.TheVariants as Items;
ghost use Rattle.icn_value.specs.declared.val.Val.{Val};
ghost use Rattle.icn_code.specs.Codes.{Tables};
ghost use Rattle.icn_code.specs.declared.instr.Instr.TheVariants as Instrs;
ghost use Rattle.icn_heap.specs.Extents.{IsLive};
ghost use Rattle.icn_heap.specs.Heaps.{extent_of};
ghost use Rattle.icn_vars.specs.Outcomes.{IsLiveHalt};
ghost use Rattle.icn_vars.specs.Worlds.{reach_of, world_of};
ghost use Rattle.icn_frames.specs.Slots.{plain_operand};
ghost use Rattle.icn_frames.specs.Stacks as flat;
ghost use Rattle.icn_frames.specs.Stacks.{FlatStack};
ghost use Rattle.icn_run.specs.Stacks.{Frames as FramesRead};
ghost use Rattle.icn_run.specs.Step.{Store};
ghost use Rattle.icn_control.specs.LiveStacks.{IsLiveStack};
ghost use Rattle.icn_control.specs.PlainValues.{TakesValue};
ghost use Rattle.icn_control.specs.StackAndWorld.{DoesWith, RunsWith};
ghost use Rattle.icn_control.specs.StackViews.{instruction_state};
ghost use Rattle.icn_instructions.specs.InstructionEffects.{LacksNothingIn};
ghost use Rattle.icn_control.specs.Soundness.{KeepsHeap, UnlessEnded};

use icn_control::{put, put_slot, restore_pair, value_of};
use icn_frames::{Cell, Frames, Stack};
use icn_value::Item;
use icn_vars::{Halt, World};

/// Drops the innermost mark and pushes a value outside, by its slot, beside which nothing may be kept; the operand was taken. It
/// takes no memory.
#[inline(always)]
pub fn give_value_out<K: Stack<Cell> + Drop>(frames: &mut Frames<K>, world: &mut World, value: Cell)
    requires room { 0 < frames.old.spare }
    requires value { IsSome (plain_operand value) }
    requires mark { flat.at_base frames.old.flat ≡ false }
    requires live { (tables : Tables) × IsLiveStack tables (reach_of world.old []) frames.old.flat }
    ensures step { (m : FlatStack) → TakesValue m frames.old.flat value
        → (tables : Tables) (st : Store FramesRead) → st.world ≡ world_of world.old
        → RunsWith (instruction_state (extent_of world.old.heap) tables Instrs.Eret m st) st world.new
        frames.new.flat }
    ensures live { (tables : Tables) (v : Val) → plain_operand value ≡ Some (Items.Val v)
        → IsLive (extent_of world.old.heap) v → IsLiveStack tables (reach_of world.old []) frames.old.flat
        → IsLiveStack tables (reach_of world.new []) frames.new.flat }
    ensures same { KeepsHeap world.old world.new }
{
    let pair = frames.unmark();
    restore_pair(world, pair);
    put_slot(frames, value);
}

/// Drops the innermost mark and pushes the value of its top operand outside. The mark must be there where there is a value.
///
/// The error is that of the value.
pub fn give_out<K: Stack<Cell> + Drop>(
    frames: &mut Frames<K>,
    world: &mut World,
) -> Result<(), Halt>
    requires goes_on { (tables : Tables) × LacksNothingIn tables Instrs.Eret world.old frames.old.flat }
    requires live { (tables : Tables) × IsLiveStack tables (reach_of world.old []) frames.old.flat }
    ensures step { DoesWith Instrs.Eret world.old frames.old.flat world.new frames.new.flat result }
    ensures live { (tables : Tables) → IsLiveStack tables (reach_of world.old []) frames.old.flat
        → UnlessEnded result (IsLiveStack tables (reach_of world.new []) frames.new.flat) }
    ensures halt { IfErr result (IsLiveHalt (reach_of world.new [])) }
    ensures same { KeepsHeap world.old world.new }
{
    let x = frames.pop();
    let v = value_of(frames, world, x)?;
    let pair = frames.unmark();
    restore_pair(world, pair);
    put(frames, Item::Val(v));
    Ok(())
}
