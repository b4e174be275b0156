// Rows that are performed on a stack in a world.
ghost use Rattle.std.specs.Prelude.{◌≡◌, [], IfErr, IfOk, OnOk, map};
ghost use Rattle.std.specs.List.{All};
ghost use Rattle.icn_defs.specs.Applying as rows;
ghost use Rattle.icn_heap.specs.Extents.{Extent, IsLive, value_in};
ghost use Rattle.icn_value.specs.Store.{Names as StoreNames};
ghost use Rattle.icn_vars.specs.declared.outcome.Halt.TheVariants.{NoMemory};
ghost use Rattle.icn_control.specs.StackViews.{stack_in};
ghost use Rattle.law_steps.specs.StateNames.{StackNamed};
ghost use Rattle.icn_machine.specs.Counts.{CountsOn};
ghost use Rattle.icn_defs.specs.StepRows as step_rows;
ghost use Rattle.icn_heap.specs.Heaps.{extent_of};
ghost use Rattle.law_names.specs.NamedSettings.{ResidualNamed, ValueNamed};
ghost use Rattle.icn_vars.specs.Outcomes.{IsLiveResidual, answer_of, residual_in};
ghost use Rattle.icn_vars.specs.Worlds.{item_in, reach_of};
ghost use Rattle.icn_frames.specs.Stacks as flat;
ghost use Rattle.icn_code.specs.Codes.{Tables};
ghost use Rattle.icn_streams.specs.Answers.{call_state};
ghost use Rattle.icn_streams.specs.Applies.{Applies};
ghost use Rattle.icn_apply.specs.AppliedRows.{applied_of};
ghost use Rattle.icn_apply.specs.ResumedFunctions.{GivesOneAtMost};
ghost use Rattle.icn_apply.specs.NamesAfter.{AnswerNamed};
ghost use Rattle.icn_apply.specs.SizesAfter.{AnswerKeepsSizes, WorldsKeepSizes};
ghost use Rattle.icn_control.specs.LiveStacks.{IsLiveStack, StaysLive, with_locals};
ghost use Rattle.icn_machine.specs.Performing.{LeavesNamed, PerformsRow};
ghost use Rattle.icn_control.specs.Soundness.{LeavesWorld, UnlessEnded};
ghost use Rattle.icn_machine.specs.NamedWorlds.{AreNamed, HoldsNamed};

use crate::counts::count_on;
use crate::giving::{give_outcome, give_value};
use crate::own_locals::{Earlier, OwnLocals};
use crate::plain_functions::gives_once;
use icn_apply::{Applied, again, apply, function_answer, function_outcome};
use icn_control::{Activation, RunState};
use icn_convert::Names;
use icn_frames::{Cell, Count, Frames, Stack};
use icn_streams::Streams;
use icn_text::Func;
use icn_value::{Item, Residual, Val};
use icn_vars::{Halt, Outcome, ValueOutcome, World};
use std::marker::{Brand, PhantomData};

/// Performs an operation or a function on items of the activation that runs: pushes what it gives, or fails. The refreshing of a
/// co-expression is no row: it fails here.
///
/// # Errors
///
/// Those of the row: `Error` and `Ends`. `ReadFault` where the input failed, `WriteFault` where an output did, and `FileFault` where
/// the store of files did, `NoMemory` where memory ran out: the run is over then.
pub fn perform<K: Stack<Cell> + Drop, N: Names, S: Streams>(
    frames: &mut Frames<K>,
    world: &mut World,
    what: Applied,
    items: &[Item],
    names: &N,
    streams: &mut S,
) -> Result<RunState, Halt>
    requires here { HoldsNamed (N.known names.now) world.old frames.old.flat }
    requires given { AreNamed (N.known names.now) world.old frames.old.flat items.now }
    ensures row { PerformsRow (step_rows.apply (N.known names.now) (applied_of what)
        (map (item_in (extent_of world.old.heap)) items.now)) world.old frames.old.flat
        (S.state streams.old)
        world.new frames.new.flat
        (S.state streams.new) result }
    ensures live { (tables : Tables) → IsLiveStack tables (reach_of world.old []) frames.old.flat
        → UnlessEnded result (IsLiveStack tables (reach_of world.new []) frames.new.flat) }
    ensures leaves { LeavesWorld world.old world.new result }
    ensures sized { UnlessEnded result (WorldsKeepSizes world.old world.new) }
    ensures named { LeavesNamed (N.known names.now) world.new frames.new.flat result }
{
    let outcome = perform_in(frames, world, what, items, names, streams)?;
    frames.local_count();
    match give_outcome(frames, outcome) {
        Ok(stage) => Ok(stage),
        Err(_) => Err(Halt::NoMemory),
    }
}

// Applies it to items, where the locals of the stack may change.
fn perform_in<K: Stack<Cell> + Drop, N: Names, S: Streams>(
    frames: &mut Frames<K>,
    world: &mut World,
    what: Applied,
    items: &[Item],
    names: &N,
    streams: &mut S,
) -> Result<Outcome, Halt>
    requires here { HoldsNamed (N.known names.now) world.old frames.old.flat }
    requires given { AreNamed (N.known names.now) world.old frames.old.flat items.now }
    ensures applies { Applies (step_rows.apply (N.known names.now)
        (applied_of what) (map (item_in (extent_of world.old.heap)) items.now))
        (call_state world.old (flat.locals frames.old.flat)
        (S.state streams.old))
        (call_state world.new (flat.locals frames.new.flat)
        (S.state streams.new)) result }
    ensures named { AnswerNamed (N.known names.now) world.new (flat.locals frames.new.flat) result }
    ensures sized { AnswerKeepsSizes world.old world.new result }
    ensures stack { flat.set_locals (flat.locals frames.new.flat) frames.old.flat ≡ frames.new.flat }
{
    let (answer, _) = perform_lent::<K, Brand, N, S>(frames, world, what, items, names, streams);
    answer
}

// Applies it to items on a stack that is lent by name, and hands the stack back.
fn perform_lent<'a, K: Stack<Cell> + Drop, B: Earlier, N: Names, S: Streams>(
    frames: &'a mut Frames<K>,
    world: &mut World,
    what: Applied,
    items: &[Item],
    names: &N,
    streams: &mut S,
) -> (Result<Outcome, Halt>, &'a mut Frames<K>)
    requires lent { frames.ghost_name ≡ B.loan }
    requires earlier { B.stack ≡ frames.old.flat }
    requires here { HoldsNamed (N.known names.now) world.old frames.old.flat }
    requires given { AreNamed (N.known names.now) world.old frames.old.flat items.now }
    ensures same_reference { result.1.ghost_name ≡ frames.entry.ghost_name }
    ensures applies { Applies (step_rows.apply (N.known names.now)
        (applied_of what) (map (item_in (extent_of world.old.heap)) items.now))
        (call_state world.old (flat.locals frames.old.flat)
        (S.state streams.old))
        (call_state world.new (flat.locals result.1.now.flat)
        (S.state streams.new)) result.0 }
    ensures named { AnswerNamed (N.known names.now) world.new (flat.locals result.1.now.flat) result.0 }
    ensures sized { AnswerKeepsSizes world.old world.new result.0 }
    ensures stack { flat.set_locals (flat.locals result.1.now.flat) frames.old.flat ≡ result.1.now.flat }
{
    frames.local_count();
    let mut own: OwnLocals<K, B> = OwnLocals {
        frames,
        of: PhantomData,
    };
    let answer = apply(what, items, world, &mut own, names, streams);
    (answer, own.frames)
}

/// Performs a function on values: pushes what it gives, or fails. The errors are those of `perform`.
pub fn perform_function<K: Stack<Cell> + Drop, N: Names, S: Streams>(
    frames: &mut Frames<K>,
    world: &mut World,
    func: Func,
    vals: &[Val],
    names: &N,
    streams: &mut S,
) -> Result<RunState, Halt>
    requires here { HoldsNamed (N.known names.now) world.old frames.old.flat }
    requires live { All (IsLive (extent_of world.old.heap)) vals.now }
    requires named { All (ValueNamed (N.known names.now)) (map (value_in (extent_of world.old.heap)) vals.now) }
    ensures row { PerformsRow (rows.function_of (N.known names.now) func
        (map (value_in (extent_of world.old.heap)) vals.now)) world.old frames.old.flat
        (S.state streams.old)
        world.new frames.new.flat
        (S.state streams.new) result }
    ensures live { (tables : Tables) → IsLiveStack tables (reach_of world.old []) frames.old.flat
        → UnlessEnded result (IsLiveStack tables (reach_of world.new []) frames.new.flat) }
    ensures leaves { LeavesWorld world.old world.new result }
    ensures sized { UnlessEnded result (WorldsKeepSizes world.old world.new) }
    ensures named { LeavesNamed (N.known names.now) world.new frames.new.flat result }
{
    if gives_once(func) {
        return perform_once(frames, world, func, vals, names, streams);
    }
    perform_suspending(frames, world, func, vals, names, streams)
}

// Performs one that gives a value at most.
fn perform_once<K: Stack<Cell> + Drop, N: Names, S: Streams>(
    frames: &mut Frames<K>,
    world: &mut World,
    func: Func,
    vals: &[Val],
    names: &N,
    streams: &mut S,
) -> Result<RunState, Halt>
    requires here { HoldsNamed (N.known names.now) world.old frames.old.flat }
    requires live { All (IsLive (extent_of world.old.heap)) vals.now }
    requires named { All (ValueNamed (N.known names.now)) (map (value_in (extent_of world.old.heap)) vals.now) }
    requires once { GivesOneAtMost func }
    ensures row { PerformsRow (rows.function_of (N.known names.now) func
        (map (value_in (extent_of world.old.heap)) vals.now)) world.old frames.old.flat
        (S.state streams.old)
        world.new frames.new.flat
        (S.state streams.new) result }
    ensures live { (tables : Tables) → IsLiveStack tables (reach_of world.old []) frames.old.flat
        → UnlessEnded result (IsLiveStack tables (reach_of world.new []) frames.new.flat) }
    ensures leaves { LeavesWorld world.old world.new result }
    ensures sized { UnlessEnded result (WorldsKeepSizes world.old world.new) }
    ensures named { LeavesNamed (N.known names.now) world.new frames.new.flat result }
{
    let outcome = answer_in(frames, world, func, vals, names, streams)?;
    frames.local_count();
    match give_value(frames, outcome) {
        Ok(stage) => Ok(stage),
        Err(_) => Err(Halt::NoMemory),
    }
}

// Applies one that gives a value at most to values.
#[inline(always)]
fn answer_in<K: Stack<Cell> + Drop, N: Names, S: Streams>(
    frames: &mut Frames<K>,
    world: &mut World,
    func: Func,
    vals: &[Val],
    names: &N,
    streams: &mut S,
) -> Result<ValueOutcome, Halt>
    requires here { HoldsNamed (N.known names.now) world.old frames.old.flat }
    requires live { All (IsLive (extent_of world.old.heap)) vals.now }
    requires named { All (ValueNamed (N.known names.now)) (map (value_in (extent_of world.old.heap)) vals.now) }
    requires once { GivesOneAtMost func }
    ensures applies { Applies (rows.function_of (N.known names.now) func
        (map (value_in (extent_of world.old.heap)) vals.now))
        (call_state world.old (flat.locals frames.old.flat)
        (S.state streams.old))
        (call_state world.new (flat.locals frames.new.flat)
        (S.state streams.new)) (answer_of result) }
    ensures named { AnswerNamed (N.known names.now) world.new (flat.locals frames.new.flat) (answer_of result) }
    ensures sized { AnswerKeepsSizes world.old world.new (answer_of result) }
    ensures stack { flat.set_locals (flat.locals frames.new.flat) frames.old.flat ≡ frames.new.flat }
{
    frames.local_count();
    let activation = Activation { frames };
    function_answer(func, vals, world, &activation, names, streams)
}

// Performs any function.
fn perform_suspending<K: Stack<Cell> + Drop, N: Names, S: Streams>(
    frames: &mut Frames<K>,
    world: &mut World,
    func: Func,
    vals: &[Val],
    names: &N,
    streams: &mut S,
) -> Result<RunState, Halt>
    requires here { HoldsNamed (N.known names.now) world.old frames.old.flat }
    requires live { All (IsLive (extent_of world.old.heap)) vals.now }
    requires named { All (ValueNamed (N.known names.now)) (map (value_in (extent_of world.old.heap)) vals.now) }
    ensures row { PerformsRow (rows.function_of (N.known names.now) func
        (map (value_in (extent_of world.old.heap)) vals.now)) world.old frames.old.flat
        (S.state streams.old)
        world.new frames.new.flat
        (S.state streams.new) result }
    ensures live { (tables : Tables) → IsLiveStack tables (reach_of world.old []) frames.old.flat
        → UnlessEnded result (IsLiveStack tables (reach_of world.new []) frames.new.flat) }
    ensures leaves { LeavesWorld world.old world.new result }
    ensures sized { UnlessEnded result (WorldsKeepSizes world.old world.new) }
    ensures named { LeavesNamed (N.known names.now) world.new frames.new.flat result }
{
    let outcome = applied_in(frames, world, func, vals, names, streams)?;
    frames.local_count();
    match give_outcome(frames, outcome) {
        Ok(stage) => Ok(stage),
        Err(_) => Err(Halt::NoMemory),
    }
}

// What a function gives on these values, whatever that is.
#[inline(always)]
fn applied_in<K: Stack<Cell> + Drop, N: Names, S: Streams>(
    frames: &mut Frames<K>,
    world: &mut World,
    func: Func,
    vals: &[Val],
    names: &N,
    streams: &mut S,
) -> Result<Outcome, Halt>
    requires here { HoldsNamed (N.known names.now) world.old frames.old.flat }
    requires live { All (IsLive (extent_of world.old.heap)) vals.now }
    requires named { All (ValueNamed (N.known names.now)) (map (value_in (extent_of world.old.heap)) vals.now) }
    ensures applies { Applies (rows.function_of (N.known names.now) func
        (map (value_in (extent_of world.old.heap)) vals.now))
        (call_state world.old (flat.locals frames.old.flat)
        (S.state streams.old))
        (call_state world.new (flat.locals frames.new.flat)
        (S.state streams.new)) result }
    ensures named { AnswerNamed (N.known names.now) world.new (flat.locals frames.new.flat) result }
    ensures sized { AnswerKeepsSizes world.old world.new result }
    ensures stack { flat.set_locals (flat.locals frames.new.flat) frames.old.flat ≡ frames.new.flat }
{
    frames.local_count();
    let activation = Activation { frames };
    function_outcome(func, vals, world, &activation, names, streams)
}

/// Resumes what an operation or a function left on a stack: pushes what it gives next, or fails. The errors are those of `perform`.
pub fn perform_again<K: Stack<Cell> + Drop, N: Names, S: Streams>(
    frames: &mut Frames<K>,
    world: &mut World,
    rest: Residual,
    names: &N,
    streams: &mut S,
) -> Result<RunState, Halt>
    requires here { HoldsNamed (N.known names.now) world.old frames.old.flat }
    requires rest { IsLiveResidual (with_locals (flat.local_count frames.old.flat) (reach_of world.old []))
        rest }
    requires rest_named { ResidualNamed (N.known names.now) (residual_in (extent_of world.old.heap) rest) }
    ensures row { PerformsRow (rows.again (residual_in (extent_of world.old.heap) rest))
        world.old frames.old.flat (S.state streams.old) world.new frames.new.flat
        (S.state streams.new) result }
    ensures live { (tables : Tables) → IsLiveStack tables (reach_of world.old []) frames.old.flat
        → UnlessEnded result (IsLiveStack tables (reach_of world.new []) frames.new.flat) }
    ensures leaves { LeavesWorld world.old world.new result }
    ensures sized { UnlessEnded result (WorldsKeepSizes world.old world.new) }
    ensures named { LeavesNamed (N.known names.now) world.new frames.new.flat result }
{
    if let Residual::Counting { given, last, step } = rest {
        return resume_count(frames, Count { given, last, step });
    }
    let outcome = again_in(frames, world, rest, names, streams)?;
    frames.local_count();
    match give_outcome(frames, outcome) {
        Ok(stage) => Ok(stage),
        Err(_) => Err(Halt::NoMemory),
    }
}

// Resumes a count in place. The error is want of memory.
fn resume_count<K: Stack<Cell> + Drop>(
    frames: &mut Frames<K>,
    count: Count,
) -> Result<RunState, Halt>
    ensures counts { IfOk result (CountsOn count frames.old.flat frames.new.flat) }
    ensures halt { IfErr result (λ halt. halt ≡ NoMemory) }

    // Nothing changed where the locals are set to what they were.
    ensures same { flat.set_locals (flat.locals frames.old.flat) frames.old.flat ≡ frames.old.flat }
    ensures live { OnOk result (StaysLive frames.old.flat frames.new.flat) }
    ensures named { (names : StoreNames) (all : Extent) → StackNamed names (stack_in all frames.old.flat)
        → OnOk result (StackNamed names (stack_in all frames.new.flat)) }
{
    frames.local_count();
    match count_on(frames, count) {
        Ok(stage) => Ok(stage),
        Err(_) => Err(Halt::NoMemory),
    }
}

// Resumes it, where the locals of the stack may change.
fn again_in<K: Stack<Cell> + Drop, N: Names, S: Streams>(
    frames: &mut Frames<K>,
    world: &mut World,
    rest: Residual,
    names: &N,
    streams: &mut S,
) -> Result<Outcome, Halt>
    requires here { HoldsNamed (N.known names.now) world.old frames.old.flat }
    requires rest { IsLiveResidual (with_locals (flat.local_count frames.old.flat) (reach_of world.old []))
        rest }
    requires rest_named { ResidualNamed (N.known names.now) (residual_in (extent_of world.old.heap) rest) }
    ensures applies { Applies (rows.again (residual_in (extent_of world.old.heap) rest))
        (call_state world.old (flat.locals frames.old.flat)
        (S.state streams.old))
        (call_state world.new (flat.locals frames.new.flat)
        (S.state streams.new)) result }
    ensures named { AnswerNamed (N.known names.now) world.new (flat.locals frames.new.flat) result }
    ensures sized { AnswerKeepsSizes world.old world.new result }
    ensures stack { flat.set_locals (flat.locals frames.new.flat) frames.old.flat ≡ frames.new.flat }
{
    let (answer, _) = again_lent::<K, Brand, N, S>(frames, world, rest, names, streams);
    answer
}

// Resumes it on a stack that is lent by name, and hands the stack back.
fn again_lent<'a, K: Stack<Cell> + Drop, B: Earlier, N: Names, S: Streams>(
    frames: &'a mut Frames<K>,
    world: &mut World,
    rest: Residual,
    names: &N,
    streams: &mut S,
) -> (Result<Outcome, Halt>, &'a mut Frames<K>)
    requires lent { frames.ghost_name ≡ B.loan }
    requires earlier { B.stack ≡ frames.old.flat }
    requires here { HoldsNamed (N.known names.now) world.old frames.old.flat }
    requires rest { IsLiveResidual (with_locals (flat.local_count frames.old.flat) (reach_of world.old []))
        rest }
    requires rest_named { ResidualNamed (N.known names.now) (residual_in (extent_of world.old.heap) rest) }
    ensures same_reference { result.1.ghost_name ≡ frames.entry.ghost_name }
    ensures applies { Applies (rows.again (residual_in (extent_of world.old.heap) rest))
        (call_state world.old (flat.locals frames.old.flat)
        (S.state streams.old))
        (call_state world.new (flat.locals result.1.now.flat)
        (S.state streams.new)) result.0 }
    ensures named { AnswerNamed (N.known names.now) world.new (flat.locals result.1.now.flat) result.0 }
    ensures sized { AnswerKeepsSizes world.old world.new result.0 }
    ensures stack { flat.set_locals (flat.locals result.1.now.flat) frames.old.flat ≡ result.1.now.flat }
{
    frames.local_count();
    let mut own: OwnLocals<K, B> = OwnLocals {
        frames,
        of: PhantomData,
    };
    let answer = again(rest, world, &mut own, names, streams);
    (answer, own.frames)
}
