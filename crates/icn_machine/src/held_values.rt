// Values of operands where these stand, whatever variables they are.
ghost use Rattle.std.specs.Prelude.{◌≡◌, ◌+◌, [], IfSome};
ghost use Rattle.icn_heap.specs.Extents.{IsLive};
ghost use Rattle.icn_heap.specs.Heaps.{extent_of};
ghost use Rattle.icn_vars.specs.Worlds.{IsLiveItem, reach_of};
ghost use Rattle.icn_frames.specs.CalledWith.{HasOperands};
ghost use Rattle.icn_frames.specs.Stacks as flat;
ghost use Rattle.icn_code.specs.Codes.{Tables};
ghost use Rattle.icn_control.specs.LiveStacks.{IsLiveStack, with_locals};
ghost use Rattle.icn_machine.specs.HeldValues.{FindsBelow};
ghost use Rattle.icn_machine.specs.ValueOperations.{FindsOperand};

use crate::plain_functions::value_told;
use icn_control::Activation;
use icn_frames::{Cell, CellContent, Frames, Stack};
use icn_value::{Item, Val};
use icn_vars::{World, deref};

// The value of an operand, if it has one.
fn operand_value<K: Stack<Cell> + Drop>(
    frames: &mut Frames<K>,
    world: &World,
    item: Item,
) -> Option<Val>
    requires stack { (tables : Tables) × IsLiveStack tables (reach_of world.now []) frames.old.flat }
    requires item { IsLiveItem (with_locals (flat.local_count frames.old.flat) (reach_of world.now [])) item }
    ensures same { frames.new.flat ≡ frames.old.flat }
    ensures live { IfSome result (IsLive (extent_of world.now.heap)) }
    ensures found { IfSome result (FindsOperand world.now frames.old.flat item) }
{
    frames.local_count();
    let activation = Activation { frames };
    match deref(world, &activation, item) {
        Ok(val) => Some(val),
        Err(_) => None,
    }
}

// The value of the operand below so many others, by the variable that it is.
#[inline(never)]
fn value_read<K: Stack<Cell> + Drop>(
    frames: &mut Frames<K>,
    world: &World,
    count: u32,
) -> Option<Val>
    requires operand { HasOperands (count + 1) frames.old.flat.cells }
    requires live { (tables : Tables) × IsLiveStack tables (reach_of world.now []) frames.old.flat }
    ensures same { frames.new.flat ≡ frames.old.flat }
    ensures live { IfSome result (IsLive (extent_of world.now.heap)) }
    ensures found { IfSome result (FindsBelow world.now frames.old.flat count) }
{
    match frames.content_at(frames.len() - 1 - count as u64) {
        CellContent::Operand(item) => operand_value(frames, world, item),
        CellContent::Nothing => None,
        CellContent::Local(_) => None,
        CellContent::Suspended(_) => None,
    }
}

// The same, and before it where that is told as it stands.
#[inline(always)]
fn value_told_or_read<K: Stack<Cell> + Drop>(
    frames: &mut Frames<K>,
    world: &World,
    count: u32,
) -> Option<Val>
    requires operand { HasOperands (count + 1) frames.old.flat.cells }
    requires live { (tables : Tables) × IsLiveStack tables (reach_of world.now []) frames.old.flat }
    ensures same { frames.new.flat ≡ frames.old.flat }
    ensures live { IfSome result (IsLive (extent_of world.now.heap)) }
    ensures found { IfSome result (FindsBelow world.now frames.old.flat count) }
{
    match value_told(frames, world, count) {
        Some(val) => Some(val),
        None => value_read(frames, world, count),
    }
}

/// The value of the operand below so many others, which must be there, whatever variable it is: if it has one. Nothing changes.
#[inline(always)]
pub fn value_held<K: Stack<Cell> + Drop>(
    frames: &mut Frames<K>,
    world: &World,
    count: u32,
) -> Option<Val>
    requires operand { HasOperands (count + 1) frames.old.flat.cells }
    requires live { (tables : Tables) × IsLiveStack tables (reach_of world.now []) frames.old.flat }
    ensures same { frames.new.flat ≡ frames.old.flat }
    ensures live { IfSome result (IsLive (extent_of world.now.heap)) }
    ensures found { IfSome result (FindsBelow world.now frames.old.flat count) }
{
    match frames.slot_below(count) {
        Cell::VarElement { list, number } => world.heap.item(list, number),
        _ => value_told_or_read(frames, world, count),
    }
}
