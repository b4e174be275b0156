// Calls of values.
ghost use Rattle.std.specs.Prelude.{◌≡◌, ◌<◌, ◌^◌, [], None, Some, length, map, slice_get, IfOk, MatchResult};
ghost use Rattle.std.specs.List.{All};
ghost use Rattle.icn_value.specs.Limited.{limits_of};
ghost use Rattle.icn_frames.specs.Stacks as flat;
ghost use Rattle.icn_code.specs.Codes.{Proc, RecordType, Tables};
ghost use Rattle.icn_code.specs.CodeTables.{tables_of};
ghost use Rattle.icn_heap.specs.Extents.{IsLive, value_in};
ghost use Rattle.icn_heap.specs.Heaps.{extent_of, heap_of};
ghost use Rattle.icn_vars.specs.Worlds.{IsLiveItem, item_in, reach_of, world_of};
ghost use Rattle.icn_run.specs.Stacks.{Frames as FramesRead, flat as calls};
ghost use Rattle.icn_run.specs.Step.{Store, call_procedure, construct_record, invoke_value};
ghost use Rattle.icn_control.specs.LiveStacks.{IsLiveStack, with_locals};
ghost use Rattle.icn_control.specs.StackAndWorld.{HaltsWith, StandsWith};
ghost use Rattle.icn_control.specs.StackViews.{stack_in};
ghost use Rattle.icn_control.specs.TakenOperands.{with_values_in};
ghost use Rattle.icn_calls.specs.Calling.{IsGoing, NamesNothing, function_in};
ghost use Rattle.icn_control.specs.Soundness.{LeavesWorld, UnlessEnded};

use crate::callees::{Callee, callee_of};
use crate::calling::call_procedure;
use crate::constructors::construct;
use crate::integers::call_integer;
use icn_code::Code;
use icn_control::{RunState, values_of};
use icn_frames::{Cell, Frames, Stack};
use icn_value::{Item, Limits, Val};
use icn_vars::{Halt, World};

// Calls a procedure of the code, which must be there, with the values of items. The errors are those of the items and of
// `call_procedure`.
fn call_with<K: Stack<Cell> + Drop>(
    frames: &mut Frames<K>,
    world: &mut World,
    code: &Code,
    limits: &Limits,
    number: u32,
    items: &[Item],
    vals: &mut Vec<Val>,
) -> Result<RunState, Halt>
    requires there { number < length (tables_of code.now).procs }
    requires bounds { (heap_of world.old.heap).bounds ≡ limits_of limits.now }
    requires stack { (tables : Tables) × IsLiveStack tables (reach_of world.old []) frames.old.flat }
    requires items { All (IsLiveItem (with_locals (flat.local_count frames.old.flat) (reach_of world.old [])))
        items.now }
    ensures step { (entry : Proc) → slice_get (tables_of code.now).procs number ≡ Some entry
        → (st : Store FramesRead) → st.world ≡ world_of world.old
        → MatchResult result (StandsWith (with_values_in world.old frames.old.flat items.now st (λ values.
        call_procedure calls number entry values (stack_in (extent_of world.old.heap) frames.old.flat) st))
        st world.new frames.new.flat)
        (HaltsWith (with_values_in world.old frames.old.flat items.now st (λ values. call_procedure calls
        number entry values (stack_in (extent_of world.old.heap) frames.old.flat) st)) st world.new
        (stack_in (extent_of world.new.heap) frames.new.flat)) }
    ensures live { IsLiveStack (tables_of code.now) (reach_of world.old []) frames.old.flat
        → UnlessEnded result (IsLiveStack (tables_of code.now) (reach_of world.new []) frames.new.flat) }
    ensures leaves { LeavesWorld world.old world.new result }
    ensures going { IfOk result IsGoing }
{
    values_of(frames, world, items, vals)?;
    match call_procedure(frames, world, code, limits, number, vals) {
        Ok(()) => Ok(RunState::Running),
        Err(halt) => Err(halt),
    }
}

// Pushes a new record of a kind of the code, which must be there, with the values of items as its fields. The errors are those
// of the items and of `construct`.
fn construct_with<K: Stack<Cell> + Drop>(
    frames: &mut Frames<K>,
    world: &mut World,
    code: &Code,
    kind: u32,
    items: &[Item],
    vals: &mut Vec<Val>,
) -> Result<RunState, Halt>
    requires there { kind < length (tables_of code.now).records }
    requires stack { (tables : Tables) × IsLiveStack tables (reach_of world.old []) frames.old.flat }
    requires items { All (IsLiveItem (with_locals (flat.local_count frames.old.flat) (reach_of world.old [])))
        items.now }
    ensures step { (entry : RecordType) → slice_get (tables_of code.now).records kind ≡ Some entry
        → (st : Store FramesRead) → st.world ≡ world_of world.old
        → MatchResult result (StandsWith (with_values_in world.old frames.old.flat items.now st (λ values.
        construct_record calls kind entry values (stack_in (extent_of world.old.heap) frames.old.flat) st))
        st world.new frames.new.flat)
        (HaltsWith (with_values_in world.old frames.old.flat items.now st (λ values. construct_record calls
        kind entry values (stack_in (extent_of world.old.heap) frames.old.flat) st)) st world.new
        (stack_in (extent_of world.new.heap) frames.new.flat)) }
    ensures live { (tables : Tables) → IsLiveStack tables (reach_of world.old []) frames.old.flat
        → UnlessEnded result (IsLiveStack tables (reach_of world.new []) frames.new.flat) }
    ensures leaves { LeavesWorld world.old world.new result }
    ensures going { IfOk result IsGoing }
{
    values_of(frames, world, items, vals)?;
    match construct(frames, world, code, kind, vals) {
        Ok(()) => Ok(RunState::Running),
        Err(halt) => Err(halt),
    }
}

/// Calls a value that is no built-in function (`function_of`) with items: a procedure is entered and a record made with their
/// values, and a number chooses one of them. A text that is no number is taken to name nothing (`named_callee`). The room for values is
/// used, whatever it holds.
///
/// The error is that of the first item that has no value, 301 where a call is deeper than the limit, 307, 106 where the value
/// is nothing that can be called, or want of memory.
pub fn invoke<K: Stack<Cell> + Drop>(
    frames: &mut Frames<K>,
    world: &mut World,
    code: &Code,
    limits: &Limits,
    callee: Val,
    items: &[Item],
    vals: &mut Vec<Val>,
) -> Result<RunState, Halt>
    requires function { function_in (tables_of code.now) callee ≡ None }
    requires few { length items.now < 2 ^ 63 }
    requires bounds { (heap_of world.old.heap).bounds ≡ limits_of limits.now }
    requires stack { (tables : Tables) × IsLiveStack tables (reach_of world.old []) frames.old.flat }
    requires callee { IsLive (extent_of world.old.heap) callee }
    requires items { All (IsLiveItem (with_locals (flat.local_count frames.old.flat) (reach_of world.old [])))
        items.now }
    ensures step { (st : Store FramesRead) → st.world ≡ world_of world.old
        → NamesNothing st.names (value_in (extent_of world.old.heap) callee)
        → MatchResult result (StandsWith (invoke_value calls (tables_of code.now)
        (value_in (extent_of world.old.heap) callee) (map (item_in (extent_of world.old.heap)) items.now)
        (stack_in (extent_of world.old.heap) frames.old.flat) st) st world.new frames.new.flat)
        (HaltsWith (invoke_value calls (tables_of code.now)
        (value_in (extent_of world.old.heap) callee) (map (item_in (extent_of world.old.heap)) items.now)
        (stack_in (extent_of world.old.heap) frames.old.flat) st) st world.new
        (stack_in (extent_of world.new.heap) frames.new.flat)) }
    ensures live { IsLiveStack (tables_of code.now) (reach_of world.old []) frames.old.flat
        → UnlessEnded result (IsLiveStack (tables_of code.now) (reach_of world.new []) frames.new.flat) }
    ensures leaves { LeavesWorld world.old world.new result }
    ensures going { IfOk result IsGoing }
{
    let Val::Proc(number) = callee else {
        return call_integer(frames, world, callee, items);
    };
    match callee_of(code, number) {
        Callee::Proc => call_with(frames, world, code, limits, number, items, vals),
        Callee::Rec(kind) => construct_with(frames, world, code, kind, items, vals),
        Callee::Func(_) => unreachable!(),
        Callee::Nothing => Err(Halt::Error(106, Some(callee))),
    }
}
