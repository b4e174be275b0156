// Lists that are made of operands.
ghost use Rattle.std.specs.Prelude.{◌≡◌, [], IsSome, MatchResult};
ghost use Rattle.std.specs.List.{All};
ghost use Rattle.icn_value.specs.Store.{Outside};
ghost use Rattle.icn_code.specs.Codes.{Tables};
ghost use Rattle.icn_code.specs.declared.instr.Instr.TheVariants as Instrs;
ghost use Rattle.icn_vars.specs.Worlds.{IsLiveItem, reach_of, world_of};
ghost use Rattle.icn_frames.specs.Stacks as flat;
ghost use Rattle.icn_run.specs.Stacks.{Frames as FramesRead};
ghost use Rattle.icn_run.specs.Step.{Store};
ghost use Rattle.icn_control.specs.LiveStacks.{IsLiveStack, with_locals};
ghost use Rattle.icn_control.specs.Machines.{ComesTo, does, stack_of};
ghost use Rattle.icn_control.specs.Soundness.{LeavesWorld, IsRunnable, StaysSound, UnlessEnded};
ghost use Rattle.icn_control.specs.StackAndWorld.{HaltsWith, RunsWith};
ghost use Rattle.icn_control.specs.TakenOperands.{push_list, take_operands};
ghost use Rattle.icn_heap.specs.Heaps.{extent_of};
ghost use Rattle.icn_control.specs.StackViews.{stack_in};

use crate::machine::{Machine, RunState};
use crate::operands::take_operands;
use crate::values::{list_of, values_of};
use icn_frames::{Cell, Frames, Stack};
use icn_value::{Item, Val};
use icn_vars::{Halt, World};

/// Pushes a new list of the values of items, which is charged. The room for values is used again, whatever it holds.
///
/// The error is that of the first item that has no value, 307, or want of memory.
pub fn push_list<K: Stack<Cell> + Drop>(
    frames: &mut Frames<K>,
    world: &mut World,
    items: &[Item],
    vals: &mut Vec<Val>,
) -> Result<(), Halt>
    requires stack { (tables : Tables) × IsLiveStack tables (reach_of world.old []) frames.old.flat }
    requires items { All (IsLiveItem (with_locals (flat.local_count frames.old.flat) (reach_of world.old [])))
        items.now }
    ensures step { (st : Store FramesRead) → st.world ≡ world_of world.old → MatchResult result
        (λ _. RunsWith (push_list world.old frames.old.flat items.now st) st world.new frames.new.flat)
        (HaltsWith (push_list world.old frames.old.flat items.now st) st world.new
        (stack_in (extent_of world.new.heap) frames.new.flat)) }
    ensures live { (tables : Tables) → IsLiveStack tables (reach_of world.old []) frames.old.flat
        → UnlessEnded result (IsLiveStack tables (reach_of world.new []) frames.new.flat) }
    ensures leaves { LeavesWorld world.old world.new result }
{
    values_of(frames, world, items, vals)?;
    let list = list_of(frames, world, vals)?;
    match frames.push(Item::Val(list)) {
        Ok(()) => Ok(()),
        Err(_) => Err(Halt::NoMemory),
    }
}

/// Makes a list of the values of so many operands, which must be there, as a turn; it is charged. The rooms for operands and
/// for values are used again, whatever they hold.
///
/// The error is that of the first operand that has no value, 307, or want of memory.
pub fn make_list<K: Stack<Cell> + Drop>(
    m: &mut Machine<K>,
    items: &mut Vec<Item>,
    vals: &mut Vec<Val>,
    count: u32,
) -> Result<RunState, Halt>
    requires stands { IsRunnable m.old }
    requires operands { IsSome (take_operands count (stack_of m.old)) }
    ensures step { (tables : Tables) (outside : Outside)
        → ComesTo tables outside (does tables outside (Instrs.Llist count) m.old) m.new result }
    ensures keeps { StaysSound m.old m.new result }
{
    let Ok(()) = take_operands(m.stacks.frames(), items, count as usize) else {
        return Err(Halt::NoMemory);
    };
    if m.turns >= m.limits.turns {
        return Ok(RunState::AtBound);
    }
    m.turns += 1;
    push_list(m.stacks.frames(), &mut m.world, items, vals)?;
    Ok(RunState::Running)
}
