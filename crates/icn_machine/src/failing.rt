// Failing, until the next instruction is due.
ghost use Rattle.std.specs.Prelude.{◌≡◌, false, None, Ok, IfOk, IfSome, IsSome};
ghost use Rattle.icn_code.specs.Codes.{Tables};
ghost use Rattle.icn_value.specs.Store.{Outside};
ghost use Rattle.icn_run.specs.Stacks.{flat as calls};
ghost use Rattle.icn_run.specs.Step.{all_names, fails};
ghost use Rattle.icn_streams.specs.Handed.{CallStreams};
ghost use Rattle.icn_control.specs.FailingMachines.{DueAt};
ghost use Rattle.icn_control.specs.FailingStacks.{due_of};
ghost use Rattle.icn_control.specs.Machines.{IsSoundMachine, stack_seen, store_seen};
ghost use Rattle.icn_control.specs.Soundness.{IsRunnable, KeepsLimits};
ghost use Rattle.icn_control.specs.declared.machine.RunState.TheVariants as RunStates;
ghost use Rattle.icn_machine.specs.AnsweredAtOnce.{FailsAtOnce, FailsOnAtOnce, FailsThroughAtOnce};
ghost use Rattle.icn_machine.specs.Stepping.{Advances, FailsFurther, GoesOn, IsFailing, IsReady, MakesTurn, fails_within, is_failing};

use crate::at_once::{AtOnce, done_at, fails_at_once, fails_in_turn, is_not};
use crate::counts::count_again;
use crate::elements_in_place::resume_in_place;
use crate::errors::settle;
use crate::operations::resume;
use icn_control::{
    AfterFailure, Fallen, Machine, RunState, begin_again, end_failing, fail_once, fall_at_once,
    hop, reenter,
};
use icn_convert::Names;
use icn_frames::{Cell, Stack};
use icn_streams::Streams;
use icn_vars::Halt;
use law_steps::{steps_keep_names, steps_keep_sizes};

// One step of failing, with the turn that it may count. The errors are those of what is resumed.
fn fail_next<K: Stack<Cell> + Drop, N: Names, S: Streams>(
    m: &mut Machine<K>,
    names: &N,
    streams: &mut S,
) -> Result<RunState, Halt>
    requires ready { (tables : Tables)
        × ((all_names tables ≡ N.known names.now) × IsReady tables m.old RunStates.Failing) }
    ensures steps { (tables : Tables) → all_names tables ≡ N.known names.now
        → IsReady tables m.old RunStates.Failing → Advances IsFailing tables m.old RunStates.Failing
        (S.state streams.old) m.new
        (S.state streams.new) result }
    ensures ready { (tables : Tables) → all_names tables ≡ N.known names.now
        → IsReady tables m.old RunStates.Failing → IfOk result (IsReady tables m.new) }
    ensures further { IfOk result (FailsFurther m.old m.new) }
    ensures within { KeepsLimits m.old m.new result }
{
    steps_keep_names();
    steps_keep_sizes();
    match fail_once(m) {
        AfterFailure::Failing => Ok(RunState::Failing),
        AfterFailure::Running => Ok(RunState::Running),
        AfterFailure::Beginning => Ok(begin_again(m)),
        AfterFailure::Resuming(rest) => {
            let answer = resume(m, rest, names, streams);
            settle(m, answer)
        }
        AfterFailure::Reentering => Ok(reenter(m)),
        AfterFailure::Leaving => Ok(end_failing(m)),
    }
}

// Whether failing goes on in the same turn.
fn fails_within(stage: RunState, now: u64, turns: u64) -> bool
    ensures { result ≡ fails_within stage now turns }
{
    match stage {
        RunState::Failing => now == turns,
        RunState::Hopping => false,
        RunState::Running => false,
        RunState::Over => false,
        RunState::AtBound => false,
    }
}

/// Whether failing or a hop is due.
pub fn is_failing(stage: RunState) -> bool
    ensures { result ≡ is_failing stage }
{
    match stage {
        RunState::Failing => true,
        RunState::Hopping => true,
        RunState::Running => false,
        RunState::Over => false,
        RunState::AtBound => false,
    }
}

// Fails until a turn was made, or the code fails no more. The errors are those of `fail_next`.
fn fail_to_turn<K: Stack<Cell> + Drop, N: Names, S: Streams>(
    m: &mut Machine<K>,
    names: &N,
    streams: &mut S,
) -> Result<RunState, Halt>
    requires ready { (tables : Tables)
        × ((all_names tables ≡ N.known names.now) × IsReady tables m.old RunStates.Failing) }
    ensures steps { (tables : Tables) → all_names tables ≡ N.known names.now
        → IsReady tables m.old RunStates.Failing → GoesOn IsFailing tables m.old RunStates.Failing
        (S.state streams.old) m.new
        (S.state streams.new) result }
    ensures ready { (tables : Tables) → all_names tables ≡ N.known names.now
        → IsReady tables m.old RunStates.Failing → IfOk result (IsReady tables m.new) }
    ensures turn { IfOk result (MakesTurn m.old m.new) }
    ensures within { KeepsLimits m.old m.new result }
{
    let turns = m.turns;
    let mut stage = RunState::Failing;
    while fails_within(stage, m.turns, turns) {
        stage = fail_next(m, names, streams)?;
    }
    Ok(stage)
}

// A hop that is due, as a turn.
fn hop_next<K: Stack<Cell> + Drop>(m: &mut Machine<K>) -> RunState
    requires ready { (tables : Tables) × IsReady tables m.old RunStates.Hopping }
    ensures steps { (tables : Tables) (h : CallStreams) → IsReady tables m.old RunStates.Hopping
        → Advances IsFailing tables m.old RunStates.Hopping h m.new h (Ok result) }
    ensures ready { (tables : Tables) → IsReady tables m.old RunStates.Hopping → IsReady tables m.new result }
    ensures turn { MakesTurn m.old m.new result }
    ensures limits { m.new.limits ≡ m.old.limits }
{
    steps_keep_names();
    steps_keep_sizes();
    hop(m)
}

// Fails until a turn was made, or hops, where one of both is due. The errors are those of `fail_next`.
fn fail_turn<K: Stack<Cell> + Drop, N: Names, S: Streams>(
    m: &mut Machine<K>,
    stage: RunState,
    names: &N,
    streams: &mut S,
) -> Result<RunState, Halt>
    requires ready { (tables : Tables)
        × ((all_names tables ≡ N.known names.now) × IsReady tables m.old stage) }
    ensures steps { (tables : Tables) → all_names tables ≡ N.known names.now → IsReady tables m.old stage
        → GoesOn IsFailing tables m.old stage
        (S.state streams.old) m.new
        (S.state streams.new) result }
    ensures ready { (tables : Tables) → all_names tables ≡ N.known names.now → IsReady tables m.old stage
        → IfOk result (IsReady tables m.new) }
    ensures turn { IfOk result (MakesTurn m.old m.new) }
    ensures within { KeepsLimits m.old m.new result }
{
    match stage {
        RunState::Failing => fail_to_turn(m, names, streams),
        RunState::Hopping => Ok(hop_next(m)),
        RunState::Running => Ok(RunState::Running),
        RunState::Over => Ok(RunState::Over),
        RunState::AtBound => Ok(RunState::AtBound),
    }
}

/// Fails, and hops where that is due, until the next instruction is due or the run is over. The room for what is read and put is
/// used again, whatever it holds.
///
/// # Errors
///
/// Those of what is resumed (`resume`). Nothing else of failing takes memory.
pub fn fail_through<K: Stack<Cell> + Drop, N: Names, S: Streams>(
    m: &mut Machine<K>,
    from: RunState,
    names: &N,
    streams: &mut S,
) -> Result<RunState, Halt>
    requires ready { (tables : Tables)
        × ((all_names tables ≡ N.known names.now) × IsReady tables m.old from) }
    ensures steps { (tables : Tables) → all_names tables ≡ N.known names.now → IsReady tables m.old from
        → GoesOn IsFailing tables m.old from
        (S.state streams.old) m.new
        (S.state streams.new) result }
    ensures ready { (tables : Tables) → all_names tables ≡ N.known names.now → IsReady tables m.old from
        → IfOk result (IsReady tables m.new) }
    ensures fails_no_more { IfOk result (λ stage. is_failing stage ≡ false) }
    ensures within { KeepsLimits m.old m.new result }
{
    let mut stage = from;
    while is_failing(stage) {
        stage = fail_turn(m, stage, names, streams)?;
    }
    Ok(stage)
}

// One step of failing, where no operation and no function is resumed, and no scan comes back. Elsewhere nothing changes.
#[inline(always)]
fn fall_here<K: Stack<Cell> + Drop>(m: &mut Machine<K>) -> Option<Fallen>
    requires { IsRunnable m.old }
    ensures due { IfSome result (λ fallen. (tables : Tables) (outside : Outside) → DueAt tables outside
        (fails calls tables (stack_seen m.old) (store_seen tables outside m.old)) m.new (due_of fallen)) }
    ensures sound { IfSome result
        (λ fallen. (tables : Tables) → IsSoundMachine tables m.old → IsSoundMachine tables m.new) }
    ensures runs { IsSome m.new.stacks.table.running }
    ensures limits { m.new.limits ≡ m.old.limits }
    ensures not_done { result ≡ None → m.new ≡ m.old }
{
    fall_at_once(m.stacks.frames())
}

// Goes on with a count that is the newest suspension, as a turn, where one is left. Elsewhere nothing changes.
#[inline(always)]
fn count_at_once<K: Stack<Cell> + Drop>(m: &mut Machine<K>) -> AtOnce
    requires { (tables : Tables) × IsReady tables m.old RunStates.Failing }
    ensures { (tables : Tables) → IsReady tables m.old RunStates.Failing
        → FailsAtOnce tables m.old m.new result }
{
    steps_keep_names();
    steps_keep_sizes();
    if m.turns >= m.limits.turns {
        return AtOnce::Not;
    }
    let done = count_again(m.stacks.frames());
    if is_not(done) {
        return AtOnce::Not;
    }
    m.turns += 1;
    done
}

// Takes an assignment back, or gives the next element of a list, where that is the newest suspension, as a turn, if one is left.
// Elsewhere nothing changes.
#[inline(always)]
fn residual_at_once<K: Stack<Cell> + Drop>(m: &mut Machine<K>) -> AtOnce
    requires { (tables : Tables) × IsReady tables m.old RunStates.Failing }
    ensures { (tables : Tables) → IsReady tables m.old RunStates.Failing
        → FailsAtOnce tables m.old m.new result }
{
    steps_keep_names();
    steps_keep_sizes();
    if m.turns >= m.limits.turns {
        return AtOnce::Not;
    }
    let done = resume_in_place(m.stacks.frames(), &mut m.world);
    if is_not(done) {
        return AtOnce::Not;
    }
    m.turns += 1;
    done
}

// Goes on with a count, with the elements of a list, or takes an assignment back, as a turn. Elsewhere nothing changes.
#[inline(always)]
fn resume_at_once<K: Stack<Cell> + Drop>(m: &mut Machine<K>) -> AtOnce
    requires { (tables : Tables) × IsReady tables m.old RunStates.Failing }
    ensures { (tables : Tables) → IsReady tables m.old RunStates.Failing
        → FailsAtOnce tables m.old m.new result }
{
    let done = count_at_once(m);
    if is_not(done) {
        return residual_at_once(m);
    }
    done
}

// One step of failing with the turn that it may count, done at once; or nothing changes.
#[inline(always)]
fn fail_step_at_once<K: Stack<Cell> + Drop>(m: &mut Machine<K>) -> AtOnce
    requires { (tables : Tables) × IsReady tables m.old RunStates.Failing }
    ensures { (tables : Tables) → IsReady tables m.old RunStates.Failing
        → FailsAtOnce tables m.old m.new result }
{
    steps_keep_names();
    steps_keep_sizes();
    match fall_here(m) {
        Some(Fallen::Failing) => AtOnce::Failing,
        Some(Fallen::Running) => AtOnce::Running,
        Some(Fallen::Beginning) => done_at(begin_again(m)),
        Some(Fallen::Reentering) => done_at(reenter(m)),
        Some(Fallen::Leaving) => done_at(end_failing(m)),
        None => resume_at_once(m),
    }
}

// Fails at once, until a turn was made, the code fails no more, or something else is to be resumed.
#[inline(always)]
fn fail_turn_at_once<K: Stack<Cell> + Drop>(m: &mut Machine<K>) -> AtOnce
    requires { (tables : Tables) × IsReady tables m.old RunStates.Failing }
    ensures { (tables : Tables) → IsReady tables m.old RunStates.Failing
        → FailsOnAtOnce tables m.old m.new result }
{
    let turns = m.turns;
    let mut done = AtOnce::Failing;
    while fails_in_turn(done, m.turns, turns) {
        done = fail_step_at_once(m);
    }
    done
}

/// Fails at once, until the next instruction is due, the run is over, or something else is to be resumed: the code fails then.
#[inline(always)]
pub fn fail_through_at_once<K: Stack<Cell> + Drop>(m: &mut Machine<K>) -> AtOnce
    requires { (tables : Tables) × IsReady tables m.old RunStates.Failing }
    ensures { (tables : Tables) → IsReady tables m.old RunStates.Failing
        → FailsThroughAtOnce tables m.old m.new result }
{
    let mut done = AtOnce::Failing;
    while fails_at_once(done) {
        done = fail_turn_at_once(m);
    }
    if is_not(done) {
        return AtOnce::Failing;
    }
    done
}
