// Procedures that are called.
ghost use Rattle.std.specs.Prelude.{◌≡◌, ◌+◌, ◌-◌, ◌<◌, ◌^◌, ◌++◌, ◌∷◌, [], Some, true, drop, length, map, replicate, slice_get, IfErr, OnOk, MatchResult};
ghost use Rattle.std.specs.List.{All};
ghost use Rattle.icn_value.specs.Limited.{limits_of};
ghost use Rattle.icn_value.specs.declared.val.Val.TheVariants.{Null};
ghost use Rattle.icn_frames.specs.Stacks as flat;
ghost use Rattle.icn_code.specs.Codes.{Proc, Tables};
ghost use Rattle.icn_code.specs.CodeTables.{tables_of};
ghost use Rattle.icn_heap.specs.Extents.{IsLive, value_in};
ghost use Rattle.icn_heap.specs.Heaps.{extent_of, heap_of};
ghost use Rattle.icn_vars.specs.Stops.{IsLiveStop};
ghost use Rattle.icn_vars.specs.Worlds.{KeepsItems, reach_of, world_of};
ghost use Rattle.icn_run.specs.Stacks.{Frames as FramesRead, flat as calls};
ghost use Rattle.icn_run.specs.Step.{Store, call_procedure};
ghost use Rattle.icn_calls.specs.Calling.{FindsParameters};
ghost use Rattle.icn_control.specs.LiveStacks.{IsLiveStack};
ghost use Rattle.icn_control.specs.StackAndWorld.{HaltsWith, RunsWith};
ghost use Rattle.icn_control.specs.StackViews.{stack_in};
ghost use Rattle.icn_control.specs.TakenOperands.{KeepsCounts, UnlessNoMemory};
ghost use Rattle.icn_control.specs.Soundness.{LeavesWorld, UnlessEnded};

use crate::arguments::{add_nulls, fit};
use icn_code::Code;
use icn_control::list_of;
use icn_frames::{Cell, Frames, Stack};
use icn_value::{Limits, Val};
use icn_vars::{Halt, Stop, World};
use std::alloc::AllocError;

// Puts a value behind values. The error is want of memory.
fn add(vals: &mut Vec<Val>, val: Val) -> Result<(), AllocError>
    ensures { OnOk result (vals.new.items ≡ vals.old.items ++ val ∷ []) }
{
    vals.push(val)?;
    Ok(())
}

// The values from a place on.
fn from_place(vals: &[Val], place: usize) -> &[Val]
    ensures { result.now ≡ drop place vals.now }
{
    if place < vals.len() {
        &vals[place..]
    } else {
        &[]
    }
}

// Makes parameters of arguments, where the last one of so many, of which there is one at least, collects those that are
// left in a list that is charged. The errors are 307 and want of memory.
fn collect<K: Stack<Cell> + Drop>(
    frames: &mut Frames<K>,
    world: &mut World,
    vals: &mut Vec<Val>,
    count: usize,
) -> Result<(), Stop>
    requires count { 0 < count }
    requires stack { (tables : Tables) × IsLiveStack tables (reach_of world.old []) frames.old.flat }
    requires vals { All (IsLive (extent_of world.old.heap)) vals.old.items }
    ensures same { frames.new.flat ≡ frames.old.flat }
    ensures spare { frames.new.spare ≡ frames.old.spare }
    ensures live { OnOk result (All (IsLive (extent_of world.new.heap)) vals.new.items) }
    ensures count { OnOk result (length vals.new.items ≡ count) }
    ensures stops { IfErr result (IsLiveStop (extent_of world.new.heap)) }
    ensures kept { KeepsItems (reach_of world.old []) (reach_of world.new []) }
    ensures counts { UnlessNoMemory result (KeepsCounts world.old world.new) }
    ensures step { FindsParameters true count world.old frames.old.flat vals.old.items world.new
        vals.new.items result }
{
    let list = list_of(frames, world, from_place(vals, count - 1))?;
    fit(vals, count - 1)?;
    add(vals, list)?;
    Ok(())
}

/// Makes parameters of arguments, cut or with nulls behind them. Where the last one collects, of which there must be one then, it
/// gets a list of those that are left, which is charged. The errors are 307 and want of memory.
pub fn take_parameters<K: Stack<Cell> + Drop>(
    frames: &mut Frames<K>,
    world: &mut World,
    vals: &mut Vec<Val>,
    collects: bool,
    count: usize,
) -> Result<(), Stop>
    requires count { collects ≡ true → 0 < count }
    requires stack { (tables : Tables) × IsLiveStack tables (reach_of world.old []) frames.old.flat }
    requires vals { All (IsLive (extent_of world.old.heap)) vals.old.items }
    ensures same { frames.new.flat ≡ frames.old.flat }
    ensures spare { frames.new.spare ≡ frames.old.spare }
    ensures live { OnOk result (All (IsLive (extent_of world.new.heap)) vals.new.items) }
    ensures count { OnOk result (length vals.new.items ≡ count) }
    ensures stops { IfErr result (IsLiveStop (extent_of world.new.heap)) }
    ensures kept { KeepsItems (reach_of world.old []) (reach_of world.new []) }
    ensures counts { UnlessNoMemory result (KeepsCounts world.old world.new) }
    ensures step { FindsParameters collects count world.old frames.old.flat vals.old.items world.new
        vals.new.items result }
{
    if collects {
        return collect(frames, world, vals, count);
    }
    fit(vals, count)?;
    Ok(())
}

// Enters a procedure with these parameters, and nulls for its other locals. The level of the call must be a number of 64
// bits. The error is want of memory.
fn enter<K: Stack<Cell> + Drop>(
    frames: &mut Frames<K>,
    number: u32,
    parameters: &mut Vec<Val>,
    locals: u32,
) -> Result<(), AllocError>
    requires { flat.level frames.old.flat + 1 < 2 ^ 64 }
    ensures { OnOk result (frames.new.flat
        ≡ flat.enter number (parameters.old.items ++ replicate locals Null) 0 frames.old.flat) }
{
    add_nulls(parameters, locals)?;
    frames.enter(number, parameters, 0)?;
    Ok(())
}

/// Calls a procedure of the code, by its number, which must be there, with arguments, whose room is used: they become its
/// parameters, and its other locals are null. A last parameter collects only where there is one.
///
/// The error is 301 where the call is deeper than the limit, 307, or want of memory.
pub fn call_procedure<K: Stack<Cell> + Drop>(
    frames: &mut Frames<K>,
    world: &mut World,
    code: &Code,
    limits: &Limits,
    number: u32,
    vals: &mut Vec<Val>,
) -> Result<(), Halt>
    requires there { number < length (tables_of code.now).procs }
    requires bounds { (heap_of world.old.heap).bounds ≡ limits_of limits.now }
    requires stack { (tables : Tables) × IsLiveStack tables (reach_of world.old []) frames.old.flat }
    requires vals { All (IsLive (extent_of world.old.heap)) vals.old.items }
    ensures step { (entry : Proc) → slice_get (tables_of code.now).procs number ≡ Some entry
        → (st : Store FramesRead) → st.world ≡ world_of world.old → MatchResult result (λ _.
        RunsWith (call_procedure calls number entry (map (value_in (extent_of world.old.heap)) vals.old.items)
        (stack_in (extent_of world.old.heap) frames.old.flat) st) st world.new frames.new.flat)
        (HaltsWith (call_procedure calls number entry (map (value_in (extent_of world.old.heap))
        vals.old.items) (stack_in (extent_of world.old.heap) frames.old.flat) st) st world.new
        (stack_in (extent_of world.new.heap) frames.new.flat)) }
    ensures live { IsLiveStack (tables_of code.now) (reach_of world.old []) frames.old.flat
        → UnlessEnded result (IsLiveStack (tables_of code.now) (reach_of world.new []) frames.new.flat) }
    ensures leaves { LeavesWorld world.old world.new result }
{
    if frames.level() >= limits.levels {
        return Err(Halt::Error(301, None));
    }
    let entry = &code.procs[number as usize];
    take_parameters(
        frames,
        world,
        vals,
        entry.collects,
        entry.parameters as usize,
    )?;
    match enter(frames, number, vals, entry.locals) {
        Ok(()) => Ok(()),
        Err(_) => Err(Halt::NoMemory),
    }
}
