// Calls.
ghost use Rattle.std.specs.Prelude.{◌≡◌, ◌<◌, ◌^◌, ◌∷◌, [], Some, suc, length, map, IsSome, IfOk, IfSome};
ghost use Rattle.std.specs.List.{All};
ghost use Rattle.icn_value.specs.Limited.{limits_of};
ghost use Rattle.icn_heap.specs.Extents.{IsLive, value_in};
ghost use Rattle.icn_heap.specs.Heaps.{extent_of, heap_of};
ghost use Rattle.icn_value.specs.Store.{Names as StoreNames};
ghost use Rattle.law_names.specs.NamedSettings.{ItemNamed, ValueNamed};
ghost use Rattle.law_names.specs.RowSizes.{FitSizes};
ghost use Rattle.icn_vars.specs.Worlds.{IsLiveItem, item_in, reach_of};
ghost use Rattle.icn_frames.specs.Stacks as flat;
ghost use Rattle.icn_code.specs.CodeTables.{tables_of};
ghost use Rattle.icn_code.specs.declared.instr.Instr.TheVariants as Instrs;
ghost use Rattle.icn_run.specs.Stacks.{flat as calls};
ghost use Rattle.icn_run.specs.Step.{all_names, applied_to_elements, invoke_value, invoked_with};
ghost use Rattle.law_steps.specs.KeepingSizes.{field_count};
ghost use Rattle.law_steps.specs.StateNames.{CoexpNamed, StackNamed};
ghost use Rattle.icn_control.specs.LiveStacks.{IsLiveStack, with_locals};
ghost use Rattle.icn_control.specs.Machines.{IsSoundMachine, does, stack_of, stack_seen};
ghost use Rattle.icn_control.specs.Soundness.{KeepsLimits, LeavesWorld, IsRunnable, UnlessEnded, HasItsStack};
ghost use Rattle.icn_control.specs.StackViews.{stack_in};
ghost use Rattle.icn_control.specs.TakenOperands.{take_operands};
ghost use Rattle.icn_calls.specs.Calling.{IsGoing, NamesNothing};
ghost use Rattle.icn_machine.specs.DoneInPlace.{DoneInPlace};
ghost use Rattle.icn_machine.specs.Invoking.{PerformsEvent};
ghost use Rattle.icn_machine.specs.Performing.{LeavesNamed, PerformsOn, UnlessOver};
ghost use Rattle.icn_machine.specs.NamedWorlds.{AreNamed, HoldsNamed, MachineNamed, coexps_seen};

use crate::elements::elements_of;
use crate::performing::{perform, perform_function};
use crate::plain_calls::call_in_place;
use crate::plain_functions::function_called;
use icn_apply::Applied;
use icn_calls::{function_of, named_callee};
use icn_code::Code;
use icn_control::{Machine, RunState, take_operands, value_of};
use icn_convert::Names;
use icn_frames::{Cell, Frames, Stack};
use icn_streams::Streams;
use icn_value::{Item, Limits, Val};
use icn_vars::{Halt, World};
use law_steps::{steps_keep_names, steps_keep_sizes};

/// Calls a value with items: a built-in function is performed on them, a procedure entered, a record made, a number
/// chooses one of them, and another text calls what it names. The room for values is used again, whatever it holds.
///
/// # Errors
///
/// Those of a function (`perform`), and of anything else that is called (`icn_calls::invoke`).
pub fn call_value<K: Stack<Cell> + Drop, N: Names, S: Streams>(
    frames: &mut Frames<K>,
    world: &mut World,
    code: &Code,
    limits: &Limits,
    callee: Val,
    items: &[Item],
    vals: &mut Vec<Val>,
    names: &N,
    streams: &mut S,
) -> Result<RunState, Halt>
    requires known { N.known names.now ≡ all_names (tables_of code.now) }
    requires few { length items.now < 2 ^ 63 }
    requires bounds { (heap_of world.old.heap).bounds ≡ limits_of limits.now }
    requires here { HoldsNamed (N.known names.now) world.old frames.old.flat }
    requires callee { IsLive (extent_of world.old.heap) callee }
    requires callee_named { ValueNamed (N.known names.now) (value_in (extent_of world.old.heap) callee) }
    requires given { AreNamed (N.known names.now) world.old frames.old.flat items.now }
    ensures step { PerformsEvent (all_names (tables_of code.now))
        (λ st. invoke_value calls (tables_of code.now)
        (value_in (extent_of world.old.heap) callee) (map (item_in (extent_of world.old.heap)) items.now)
        (stack_in (extent_of world.old.heap) frames.old.flat) st) world.old (S.state streams.old)
        world.new frames.new.flat (S.state streams.new) result }
    ensures live { IsLiveStack (tables_of code.now) (reach_of world.old []) frames.old.flat
        → UnlessEnded result (IsLiveStack (tables_of code.now) (reach_of world.new []) frames.new.flat) }
    ensures leaves { LeavesWorld world.old world.new result }
    ensures going { IfOk result IsGoing }
    ensures named { LeavesNamed (N.known names.now) world.new frames.new.flat result }
    ensures sized { FitSizes (field_count (tables_of code.now)) (heap_of world.old.heap)
        → UnlessOver world.new result (FitSizes (field_count (tables_of code.now)) (heap_of world.new.heap)) }
{
    let callee = named_callee(&world.heap, names, callee);
    call_callee(
        frames, world, code, limits, callee, items, vals, names, streams,
    )
}

// Calls what is called where a text that names something does not stand for it.
fn call_callee<K: Stack<Cell> + Drop, N: Names, S: Streams>(
    frames: &mut Frames<K>,
    world: &mut World,
    code: &Code,
    limits: &Limits,
    callee: Val,
    items: &[Item],
    vals: &mut Vec<Val>,
    names: &N,
    streams: &mut S,
) -> Result<RunState, Halt>
    requires known { N.known names.now ≡ all_names (tables_of code.now) }
    requires few { length items.now < 2 ^ 63 }
    requires bounds { (heap_of world.old.heap).bounds ≡ limits_of limits.now }
    requires here { HoldsNamed (N.known names.now) world.old frames.old.flat }
    requires callee { IsLive (extent_of world.old.heap) callee }
    requires nothing { NamesNothing (N.known names.now) (value_in (extent_of world.old.heap) callee) }
    requires callee_named { ValueNamed (N.known names.now) (value_in (extent_of world.old.heap) callee) }
    requires given { AreNamed (N.known names.now) world.old frames.old.flat items.now }
    ensures step { PerformsEvent (all_names (tables_of code.now))
        (λ st. invoke_value calls (tables_of code.now)
        (value_in (extent_of world.old.heap) callee) (map (item_in (extent_of world.old.heap)) items.now)
        (stack_in (extent_of world.old.heap) frames.old.flat) st) world.old (S.state streams.old)
        world.new frames.new.flat (S.state streams.new) result }
    ensures live { IsLiveStack (tables_of code.now) (reach_of world.old []) frames.old.flat
        → UnlessEnded result (IsLiveStack (tables_of code.now) (reach_of world.new []) frames.new.flat) }
    ensures leaves { LeavesWorld world.old world.new result }
    ensures going { IfOk result IsGoing }
    ensures named { LeavesNamed (N.known names.now) world.new frames.new.flat result }
    ensures sized { FitSizes (field_count (tables_of code.now)) (heap_of world.old.heap)
        → UnlessOver world.new result (FitSizes (field_count (tables_of code.now)) (heap_of world.new.heap)) }
{
    steps_keep_names();
    steps_keep_sizes();
    match function_of(code, callee) {
        Some(func) => perform(frames, world, Applied::Func(func), items, names, streams),
        None => icn_calls::invoke(frames, world, code, limits, callee, items, vals),
    }
}

// Calls the value of the first of some items, which must be there, with the others. The error is also that of the first item.
fn call_first<K: Stack<Cell> + Drop, N: Names, S: Streams>(
    frames: &mut Frames<K>,
    world: &mut World,
    code: &Code,
    limits: &Limits,
    items: &[Item],
    vals: &mut Vec<Val>,
    names: &N,
    streams: &mut S,
) -> Result<RunState, Halt>
    requires known { N.known names.now ≡ all_names (tables_of code.now) }
    requires some { 0 < length items.now }
    requires few { length items.now < 2 ^ 63 }
    requires bounds { (heap_of world.old.heap).bounds ≡ limits_of limits.now }
    requires here { HoldsNamed (N.known names.now) world.old frames.old.flat }
    requires given { AreNamed (N.known names.now) world.old frames.old.flat items.now }
    ensures step { PerformsEvent (all_names (tables_of code.now))
        (λ st. invoked_with calls (tables_of code.now) (map (item_in (extent_of world.old.heap)) items.now)
        (stack_in (extent_of world.old.heap) frames.old.flat) st) world.old (S.state streams.old)
        world.new frames.new.flat (S.state streams.new) result }
    ensures live { IsLiveStack (tables_of code.now) (reach_of world.old []) frames.old.flat
        → UnlessEnded result (IsLiveStack (tables_of code.now) (reach_of world.new []) frames.new.flat) }
    ensures leaves { LeavesWorld world.old world.new result }
    ensures going { IfOk result IsGoing }
    ensures named { LeavesNamed (N.known names.now) world.new frames.new.flat result }
    ensures sized { FitSizes (field_count (tables_of code.now)) (heap_of world.old.heap)
        → UnlessOver world.new result (FitSizes (field_count (tables_of code.now)) (heap_of world.new.heap)) }
{
    steps_keep_names();
    let Some((first, others)) = items.split_first() else {
        unreachable!()
    };
    let callee = value_of(frames, world, *first)?;
    call_value(
        frames, world, code, limits, callee, others, vals, names, streams,
    )
}

/// Calls the operand below so many others with these, as a turn; all of them must be there. A function is called on the values of
/// operands where they stand. The rooms for operands and for values are used again, whatever they hold.
///
/// # Errors
///
/// That of the operand that is called, where it has no value, and those of `call_value`.
pub fn invoke<K: Stack<Cell> + Drop, N: Names, S: Streams>(
    m: &mut Machine<K>,
    code: &Code,
    count: u32,
    items: &mut Vec<Item>,
    vals: &mut Vec<Val>,
    names: &N,
    streams: &mut S,
) -> Result<RunState, Halt>
    requires known { N.known names.now ≡ all_names (tables_of code.now) }
    requires stands { IsRunnable m.old }
    requires operands { IsSome (take_operands (suc count) (stack_of m.old)) }
    requires named { MachineNamed (N.known names.now) m.old }
    ensures step { PerformsOn (tables_of code.now)
        (λ outside. does (tables_of code.now) outside (Instrs.Invoke count) m.old) m.new
        (S.state streams.old)
        (S.state streams.new) result }
    ensures sound { IsSoundMachine (tables_of code.now) m.old
        → UnlessEnded result (IsSoundMachine (tables_of code.now) m.new) }
    ensures within { KeepsLimits m.old m.new result }
    ensures stack { HasItsStack m.new result }
    ensures named { LeavesNamed (N.known names.now) m.new.world (stack_of m.new) result }
    ensures coexps_named { All (CoexpNamed (N.known names.now)) (coexps_seen m.old)
        → All (CoexpNamed (N.known names.now)) (coexps_seen m.new) }
    ensures sized { FitSizes (field_count (tables_of code.now)) (heap_of m.old.world.heap)
        → UnlessOver m.new.world result (FitSizes (field_count (tables_of code.now))
        (heap_of m.new.world.heap)) }
{
    if m.turns >= m.limits.turns {
        return Ok(RunState::AtBound);
    }
    let Some(func) = function_called(m.stacks.frames(), &m.world, code, count, vals) else {
        return invoke_by_value(m, code, count, items, vals, names, streams);
    };
    m.stacks.frames().drop_with(count);
    m.turns += 1;
    perform_function(m.stacks.frames(), &mut m.world, func, vals, names, streams)
}

/// Calls the procedure below so many operands with these, which must be there, as a turn, on the stack alone, where slots tell all
/// and a turn is left. Elsewhere, and for want of memory, nothing changes.
pub fn call_at_once<K: Stack<Cell> + Drop>(
    m: &mut Machine<K>,
    code: &Code,
    count: u32,
) -> Option<RunState>
    requires stands { IsRunnable m.old }
    requires operands { IsSome (take_operands (suc count) (stack_of m.old)) }
    ensures done { DoneInPlace (tables_of code.now) (Instrs.Invoke count) m.old m.new result }
    ensures named { (names : StoreNames) → StackNamed names (stack_seen m.old)
        → IfSome result (λ stage. StackNamed names (stack_seen m.new)) }
    ensures world { m.new.world ≡ m.old.world }
    ensures coexps { m.new.stacks.table.coexps ≡ m.old.stacks.table.coexps }
{
    if m.turns >= m.limits.turns {
        return None;
    }
    if call_in_place(m.stacks.frames(), &m.world, code, &m.limits, count) {
        m.turns += 1;
        return Some(RunState::Running);
    }
    None
}

// Calls it by its value, whatever it is.
#[inline(never)]
fn invoke_by_value<K: Stack<Cell> + Drop, N: Names, S: Streams>(
    m: &mut Machine<K>,
    code: &Code,
    count: u32,
    items: &mut Vec<Item>,
    vals: &mut Vec<Val>,
    names: &N,
    streams: &mut S,
) -> Result<RunState, Halt>
    requires known { N.known names.now ≡ all_names (tables_of code.now) }
    requires stands { IsRunnable m.old }
    requires operands { IsSome (take_operands (suc count) (stack_of m.old)) }
    requires named { MachineNamed (N.known names.now) m.old }
    ensures step { PerformsOn (tables_of code.now)
        (λ outside. does (tables_of code.now) outside (Instrs.Invoke count) m.old) m.new
        (S.state streams.old)
        (S.state streams.new) result }
    ensures sound { IsSoundMachine (tables_of code.now) m.old
        → UnlessEnded result (IsSoundMachine (tables_of code.now) m.new) }
    ensures within { KeepsLimits m.old m.new result }
    ensures stack { HasItsStack m.new result }
    ensures named { LeavesNamed (N.known names.now) m.new.world (stack_of m.new) result }
    ensures coexps_named { All (CoexpNamed (N.known names.now)) (coexps_seen m.old)
        → All (CoexpNamed (N.known names.now)) (coexps_seen m.new) }
    ensures sized { FitSizes (field_count (tables_of code.now)) (heap_of m.old.world.heap)
        → UnlessOver m.new.world result (FitSizes (field_count (tables_of code.now))
        (heap_of m.new.world.heap)) }
{
    let Ok(()) = take_operands(m.stacks.frames(), items, count as usize + 1) else {
        return Err(Halt::NoMemory);
    };
    if m.turns >= m.limits.turns {
        return Ok(RunState::AtBound);
    }
    m.turns += 1;
    call_first(
        m.stacks.frames(),
        &mut m.world,
        code,
        &m.limits,
        items,
        vals,
        names,
        streams,
    )
}

// Calls the value of an item with the elements of the list, or the fields of the record, that another item's value is. The
// errors are also those of the two items, the callee's first, and 126.
fn call_with_elements<K: Stack<Cell> + Drop, N: Names, S: Streams>(
    frames: &mut Frames<K>,
    world: &mut World,
    code: &Code,
    limits: &Limits,
    callee: Item,
    from: Item,
    items: &mut Vec<Item>,
    vals: &mut Vec<Val>,
    names: &N,
    streams: &mut S,
) -> Result<RunState, Halt>
    requires known { N.known names.now ≡ all_names (tables_of code.now) }
    requires bounds { (heap_of world.old.heap).bounds ≡ limits_of limits.now }
    requires here { HoldsNamed (N.known names.now) world.old frames.old.flat }
    requires callee { IsLiveItem (with_locals (flat.local_count frames.old.flat) (reach_of world.old []))
        callee }
    requires from { IsLiveItem (with_locals (flat.local_count frames.old.flat) (reach_of world.old [])) from }
    requires callee_named { ItemNamed (N.known names.now) (item_in (extent_of world.old.heap) callee) }
    requires from_named { ItemNamed (N.known names.now) (item_in (extent_of world.old.heap) from) }
    ensures step { PerformsEvent (all_names (tables_of code.now)) (λ st. applied_to_elements calls
        (tables_of code.now) (item_in (extent_of world.old.heap) callee ∷ item_in (extent_of world.old.heap)
        from ∷ []) (stack_in (extent_of world.old.heap) frames.old.flat) st) world.old
        (S.state streams.old)
        world.new frames.new.flat
        (S.state streams.new) result }
    ensures live { IsLiveStack (tables_of code.now) (reach_of world.old []) frames.old.flat
        → UnlessEnded result (IsLiveStack (tables_of code.now) (reach_of world.new []) frames.new.flat) }
    ensures leaves { LeavesWorld world.old world.new result }
    ensures going { IfOk result IsGoing }
    ensures named { LeavesNamed (N.known names.now) world.new frames.new.flat result }
    ensures sized { FitSizes (field_count (tables_of code.now)) (heap_of world.old.heap)
        → UnlessOver world.new result (FitSizes (field_count (tables_of code.now)) (heap_of world.new.heap)) }
{
    steps_keep_names();
    let callee = value_of(frames, world, callee)?;
    let from = value_of(frames, world, from)?;
    elements_of(world, from, items)?;
    call_value(
        frames, world, code, limits, callee, items, vals, names, streams,
    )
}

/// Calls the operand below the top one with the elements of the list, or the fields of the record, that the top one is, as a turn;
/// both must be there. The rooms for items and for values are used again, whatever they hold.
///
/// # Errors
///
/// That of an operand that has no value, the lower one's first, 126 where the top one is no list and no record, and those of
/// `call_value`.
pub fn appl<K: Stack<Cell> + Drop, N: Names, S: Streams>(
    m: &mut Machine<K>,
    code: &Code,
    items: &mut Vec<Item>,
    vals: &mut Vec<Val>,
    names: &N,
    streams: &mut S,
) -> Result<RunState, Halt>
    requires known { N.known names.now ≡ all_names (tables_of code.now) }
    requires stands { IsRunnable m.old }
    requires operands { IsSome (take_operands 2 (stack_of m.old)) }
    requires named { MachineNamed (N.known names.now) m.old }
    ensures step { PerformsOn (tables_of code.now)
        (λ outside. does (tables_of code.now) outside Instrs.Appl m.old) m.new
        (S.state streams.old)
        (S.state streams.new) result }
    ensures sound { IsSoundMachine (tables_of code.now) m.old
        → UnlessEnded result (IsSoundMachine (tables_of code.now) m.new) }
    ensures within { KeepsLimits m.old m.new result }
    ensures stack { HasItsStack m.new result }
    ensures named { LeavesNamed (N.known names.now) m.new.world (stack_of m.new) result }
    ensures coexps_named { All (CoexpNamed (N.known names.now)) (coexps_seen m.old)
        → All (CoexpNamed (N.known names.now)) (coexps_seen m.new) }
    ensures sized { FitSizes (field_count (tables_of code.now)) (heap_of m.old.world.heap)
        → UnlessOver m.new.world result (FitSizes (field_count (tables_of code.now))
        (heap_of m.new.world.heap)) }
{
    let two = take_two(m.stacks.frames());
    if m.turns >= m.limits.turns {
        return Ok(RunState::AtBound);
    }
    m.turns += 1;
    call_with_elements(
        m.stacks.frames(),
        &mut m.world,
        code,
        &m.limits,
        two.0,
        two.1,
        items,
        vals,
        names,
        streams,
    )
}

// Takes two operands, which must be there; the top one comes last.
fn take_two<K: Stack<Cell> + Drop>(frames: &mut Frames<K>) -> (Item, Item)
    requires { IsSome (take_operands 2 frames.old.flat) }
    ensures { take_operands 2 frames.old.flat ≡ Some (result.0 ∷ result.1 ∷ [], frames.new.flat) }
{
    let upper = frames.pop();
    let lower = frames.pop();
    (lower, upper)
}
