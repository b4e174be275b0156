// Transfers between co-expressions.
ghost use Rattle.std.specs.Prelude.{◌≡◌, ◌<◌, ◌+◌, [], true, length, IsSome, IfSome, IfOk, IfErr};
ghost use Rattle.icn_profile.specs.Numbers.{greatest_integer};
ghost use Rattle.icn_value.specs.declared.val.Val.TheVariants.{Coexp as HeldCoexp};
ghost use Rattle.icn_value.specs.Changes.{with_result};
ghost use Rattle.icn_value.specs.Store.{Outside, count_at};
ghost use Rattle.icn_heap.specs.Extents.{IsLive, value_in};
ghost use Rattle.icn_heap.specs.Heaps.{extent_of, heap_of};
ghost use Rattle.icn_vars.specs.Stops.{IsLiveStop};
ghost use Rattle.icn_vars.specs.Worlds.{KeepsItems, reach_of, world_of};
ghost use Rattle.icn_frames.specs.Stacks as flat;
ghost use Rattle.icn_code.specs.Codes.{Tables};
ghost use Rattle.icn_code.specs.declared.instr.Instr.TheVariants as Instrs;
ghost use Rattle.icn_run.specs.Rows.{ACoexp};
ghost use Rattle.icn_run.specs.Stacks.{flat as calls};
ghost use Rattle.icn_run.specs.Step.{activation};
ghost use Rattle.icn_control.specs.ResultCounts.{HasTurn};
ghost use Rattle.icn_control.specs.LiveStacks.{IsLiveStack};
ghost use Rattle.icn_control.specs.Machines.{HasStack, ComesTo, IsSoundMachine, StandsAt, does, extent, stack_of, stack_seen, store_seen};
ghost use Rattle.icn_control.specs.Soundness.{IsRunnable, StaysSound};
ghost use Rattle.icn_control.specs.Operands.{TakesTop, TakesTwo, coexp_number, having_result};

use crate::hops::is_moved;
use crate::machine::{Machine, RunState};
use crate::on_stack::put;
use crate::values::value_of;
use icn_coexp::AfterTransfer;
use icn_frames::{Cell, Frames, Stack};
use icn_heap::live_numbers;
use icn_value::{Item, Val};
use icn_vars::{Halt, Stop, World};

/// Activates the co-expression that is the top operand with the value of the operand below it, as a turn. An exhausted one
/// fails, and the active one gives the value itself. Both operands must be there.
///
/// The error is that of one of the values, the lower one's first, or 118 where the upper one is no co-expression.
pub fn coact<K: Stack<Cell> + Drop>(m: &mut Machine<K>) -> Result<RunState, Halt>
    requires stands { IsRunnable m.old }
    requires upper { IsSome (flat.pop (stack_of m.old)) }
    requires lower { IfSome (flat.pop (stack_of m.old)) (λ popped. IsSome (flat.pop popped.1)) }
    ensures step { (tables : Tables) (outside : Outside)
        → ComesTo tables outside (does tables outside Instrs.Coact m.old) m.new result }
    ensures keeps { StaysSound m.old m.new result }
{
    if m.turns >= m.limits.turns {
        return Ok(RunState::AtBound);
    }
    m.turns += 1;
    let two = take_two_values(m.stacks.frames(), &m.world)?;
    let Some(id) = coexp_of(two.1) else {
        return Err(Halt::Error(118, Some(two.1)));
    };
    live_numbers(&m.world.heap);
    Ok(activate(m, id, two.0))
}

/// The expression of the active co-expression, which must not be `&main`, gives the value of the top operand, as a turn: what
/// entered it last is entered with the value. The operand must be there, and no procedure of its own may run on its stack.
///
/// The error is that of the value.
pub fn coret<K: Stack<Cell> + Drop>(m: &mut Machine<K>) -> Result<RunState, Halt>
    requires stands { IsRunnable m.old }
    requires operand { IsSome (flat.pop (stack_of m.old)) }
    requires base { flat.is_base (stack_of m.old) ≡ true }
    requires other { 0 < m.old.stacks.table.active }
    ensures step { (tables : Tables) (outside : Outside)
        → ComesTo tables outside (does tables outside Instrs.Coret m.old) m.new result }
    ensures keeps { StaysSound m.old m.new result }
{
    if m.turns >= m.limits.turns {
        return Ok(RunState::AtBound);
    }
    m.turns += 1;
    let v = take_value(m.stacks.frames(), &m.world)?;
    let from = m.stacks.active();
    count_result(&mut m.world, from);
    let went = m.stacks.give(v);
    if is_moved(went) {
        Ok(RunState::Running)
    } else {
        Ok(RunState::Hopping)
    }
}

// Enters a co-expression with a value, where a turn was counted. The stack that runs must have room for an operand.
fn activate<K: Stack<Cell> + Drop>(m: &mut Machine<K>, id: u32, v: Val) -> RunState
    requires runs { IsSome m.old.stacks.table.running }
    requires there { id < length m.old.stacks.table.coexps }
    requires room { 0 < m.old.stacks.spare }
    requires value { IsLive (extent m.old) v }
    ensures step { (tables : Tables) (outside : Outside)
        → StandsAt tables outside (activation calls (value_in (extent m.old) v) (ACoexp id) (stack_seen m.old)
        (store_seen tables outside m.old)) m.new result }
    ensures sound { (tables : Tables) → HasTurn m.old → IsSoundMachine tables m.old
        → IsSoundMachine tables m.new }
    ensures world { m.new.world ≡ m.old.world }
    ensures limits { m.new.limits ≡ m.old.limits }
    ensures stack { HasStack m.new result }
{
    m.stacks.active();
    match m.stacks.activate(id, v) {
        AfterTransfer::Same(v) => {
            put(m.stacks.frames(), Item::Val(v));
            RunState::Running
        }
        AfterTransfer::Moved => RunState::Running,
        AfterTransfer::Exhausted => RunState::Failing,
    }
}

/// The number of a co-expression, where a value is one.
pub fn coexp_of(v: Val) -> Option<u32>
    ensures { result ≡ coexp_number v }
{
    match v {
        Val::Coexp(id) => Some(id),
        Val::Null => None,
        Val::Integer(_) => None,
        Val::Text(_) => None,
        Val::Chars(_) => None,
        Val::Std(_) => None,
        Val::Proc(_) => None,
        Val::Rec(_) => None,
        Val::List(_) => None,
        Val::Set(_) => None,
        Val::Table(_) => None,
    }
}

/// Takes the top operand, which must be there, for its value. The errors are those of the value.
pub fn take_value<K: Stack<Cell> + Drop>(frames: &mut Frames<K>, world: &World) -> Result<Val, Stop>
    requires operand { IsSome (flat.pop frames.old.flat) }
    requires stack { (tables : Tables) × IsLiveStack tables (reach_of world.now []) frames.old.flat }
    ensures step { TakesTop world.now frames.old.flat frames.new.flat result }
    ensures live { (tables : Tables) → IsLiveStack tables (reach_of world.now []) frames.old.flat
        → IsLiveStack tables (reach_of world.now []) frames.new.flat }
    ensures value { IfOk result (IsLive (extent_of world.now.heap)) }
    ensures stops { IfErr result (IsLiveStop (extent_of world.now.heap)) }
    ensures room { 0 < frames.new.spare }
{
    let x = frames.pop();
    value_of(frames, world, x)
}

/// Takes the two top operands, which must be there, for their values, the lower one's first. The errors are those of the
/// values.
pub fn take_two_values<K: Stack<Cell> + Drop>(
    frames: &mut Frames<K>,
    world: &World,
) -> Result<(Val, Val), Stop>
    requires upper { IsSome (flat.pop frames.old.flat) }
    requires lower { IfSome (flat.pop frames.old.flat) (λ popped. IsSome (flat.pop popped.1)) }
    requires stack { (tables : Tables) × IsLiveStack tables (reach_of world.now []) frames.old.flat }
    ensures step { TakesTwo world.now frames.old.flat frames.new.flat result }
    ensures live { (tables : Tables) → IsLiveStack tables (reach_of world.now []) frames.old.flat
        → IsLiveStack tables (reach_of world.now []) frames.new.flat }
    ensures lower { IfOk result (λ two. IsLive (extent_of world.now.heap) two.0) }
    ensures upper { IfOk result (λ two. IsLive (extent_of world.now.heap) two.1) }
    ensures stops { IfErr result (IsLiveStop (extent_of world.now.heap)) }
    ensures room { 0 < frames.new.spare }
{
    let upper = frames.pop();
    let lower = frames.pop();
    let first = value_of(frames, world, lower)?;
    let second = value_of(frames, world, upper)?;
    Ok((first, second))
}

// Counts a result of a co-expression. It takes no memory.
#[tactic(auto, using(icn_vars::proofs::GrowingWorlds::grows))]
fn count_result(world: &mut World, id: u32)
    requires live { IsLive (extent_of world.old.heap) (HeldCoexp id) }
    requires few { count_at (heap_of world.old.heap) id < greatest_integer }
    ensures world { world_of world.new ≡ having_result id (world_of world.old) }
    ensures heap { heap_of world.new.heap ≡ with_result id (heap_of world.old.heap) }
    ensures kept { KeepsItems (reach_of world.old []) (reach_of world.new []) }
{
    world.heap.count(id);
}
