// Steps until a run stops.
ghost use Rattle.std.specs.Prelude.{◌≡◌, ◌≢◌, IfErr, IfOk, IsTrue, Some, false};
ghost use Rattle.icn_code.specs.CodeTables.{tables_of};
ghost use Rattle.icn_vars.specs.Outcomes.{IsLiveHalt};
ghost use Rattle.icn_control.specs.Machines.{world_reach};
ghost use Rattle.icn_control.specs.Soundness.{KeepsLimits};
ghost use Rattle.icn_control.specs.declared.machine.RunState.TheVariants as RunStates;
ghost use Rattle.icn_code.specs.declared.instr.Instr.{Instr as InstrSeen};
ghost use Rattle.icn_instructions.specs.Groups.{group_of};
ghost use Rattle.icn_instructions.specs.declared.groups.InstrGroup.TheVariants as Groups;
ghost use Rattle.icn_run.specs.Stacks.{flat as calls};
ghost use Rattle.icn_run.specs.Step.{instruction_at};
ghost use Rattle.icn_control.specs.Machines.{stack_seen};
ghost use Rattle.icn_machine.specs.AnsweredAtOnce.{Finishes, stepping_at};
ghost use Rattle.icn_machine.specs.declared.at_once.AtOnce.TheVariants as AtOnces;
ghost use Rattle.icn_machine.specs.Stepping.{Advances, GoesOn, IsAny, IsReady};
ghost use Rattle.icn_machine.specs.AfterInstruction.{stage_of, stage_result};
ghost use Rattle.icn_running.specs.WorkLeft.{Lasts, MadeTurn};
ghost use Rattle.icn_running.specs.DueInstructions.{after_of, goes_on, is_on, is_within, step_result};

use crate::collecting::{CollectionBounds, collect_if_due};
use icn_control::Machine;
use icn_frames::{Cell, Stack};
use icn_machine::{AfterStep, AtOnce, Rooms, finish_step, is_unfinished, step_at_once};
use icn_streams::Streams;
use icn_vars::Halt;
use icn_verify::Verified;

/// Where a run stands after a turn, in a byte: why it halts stands beside.
#[derive(Clone, Copy, Debug, PartialEq, Eq)]
pub enum AfterTurn {
    /// The next instruction is due.
    Running,
    /// The starting call is over, and with it the run.
    Over,
    /// One turn more would be past the bound.
    AtBound,
    /// The run halts, as it is said beside.
    Halted,
}

// Whether an instruction is due.
#[inline(always)]
fn goes_on(after: AfterTurn) -> bool
    ensures { result ≡ goes_on after }
{
    match after {
        AfterTurn::Running => true,
        AfterTurn::Over => false,
        AfterTurn::AtBound => false,
        AfterTurn::Halted => false,
    }
}

// Whether one is due, and no turn was made since so many were.
#[inline(always)]
fn is_within(after: AfterTurn, now: u64, turns: u64) -> bool
    ensures { result ≡ is_within after now turns }
{
    match after {
        AfterTurn::Running => now == turns,
        AfterTurn::Over => false,
        AfterTurn::AtBound => false,
        AfterTurn::Halted => false,
    }
}

// What the last step came to, with the halt beside.
fn step_result(after: AfterTurn, halt: Halt) -> Result<AfterStep, Halt>
    ensures { result ≡ step_result after halt }
{
    match after {
        AfterTurn::Running => Ok(AfterStep::Running),
        AfterTurn::Over => Ok(AfterStep::Over),
        AfterTurn::AtBound => Ok(AfterStep::AtBound),
        AfterTurn::Halted => Err(halt),
    }
}

/// Does instructions until the run stops. The errors are those of `step`.
pub fn run_on<K: Stack<Cell> + Drop, S: Streams>(
    m: &mut Machine<K>,
    code: &Verified,
    rooms: &mut Rooms,
    streams: &mut S,
) -> Result<AfterStep, Halt>
    requires ready { IsReady (tables_of code.now.code) m.old RunStates.Running }
    requires lasts { Lasts (tables_of code.now.code) m.old }
    ensures steps { Advances IsAny (tables_of code.now.code) m.old RunStates.Running
        (S.state streams.old) m.new
        (S.state streams.new)
        (stage_result result) }
    ensures stops { IfOk result (λ stepped. is_on stepped ≡ false) }
    ensures halt { IfErr result (IsLiveHalt (world_reach m.new)) }
    ensures limits { m.new.limits ≡ m.old.limits }
{
    let mut halt = Halt::NoMemory;
    let mut after = AfterTurn::Running;
    let mut due = CollectionBounds::first();
    while goes_on(after) {
        collect_if_due(m, &mut due);
        after = run_to_turn(m, code, rooms, streams, &mut halt);
    }
    step_result(after, halt)
}

// Does instructions until a turn was made or the run stops, one at least. Why it halts stands beside.
#[inline(always)]
fn run_to_turn<K: Stack<Cell> + Drop, S: Streams>(
    m: &mut Machine<K>,
    code: &Verified,
    rooms: &mut Rooms,
    streams: &mut S,
    halt: &mut Halt,
) -> AfterTurn
    requires ready { IsReady (tables_of code.now.code) m.old RunStates.Running }
    requires lasts { Lasts (tables_of code.now.code) m.old }
    ensures steps { GoesOn IsAny (tables_of code.now.code) m.old RunStates.Running
        (S.state streams.old) m.new
        (S.state streams.new)
        (stage_result (step_result result halt.new)) }
    ensures ready { IfOk (step_result result halt.new)
        (λ stepped. IsReady (tables_of code.now.code) m.new (stage_of stepped)) }
    ensures lasts { IsTrue (goes_on result) → Lasts (tables_of code.now.code) m.new }
    ensures turn { IsTrue (goes_on result) → MadeTurn m.old m.new }
    ensures halt { IfErr (step_result result halt.new) (IsLiveHalt (world_reach m.new)) }
    ensures limits { m.new.limits ≡ m.old.limits }
{
    let turns = m.turns;
    let mut after = AfterTurn::Running;
    while is_within(after, m.turns, turns) {
        let done = step_at_once(m, code);
        if is_unfinished(done) {
            after = finish(m, done, code, rooms, streams, halt);
        }
    }
    after
}

// Where a run stands after a step.
fn after_of(stepped: AfterStep) -> AfterTurn
    ensures { result ≡ after_of stepped }
{
    match stepped {
        AfterStep::Running => AfterTurn::Running,
        AfterStep::Over => AfterTurn::Over,
        AfterStep::AtBound => AfterTurn::AtBound,
    }
}

// Finishes a step of which so much was done at once. Why it halts stands beside.
#[inline(never)]
fn finish<K: Stack<Cell> + Drop, S: Streams>(
    m: &mut Machine<K>,
    done: AtOnce,
    code: &Verified,
    rooms: &mut Rooms,
    streams: &mut S,
    halt: &mut Halt,
) -> AfterTurn
    requires ready { IfOk (stepping_at done) (IsReady (tables_of code.now.code) m.old) }
    requires off_stack { done ≡ AtOnces.Not → (instr : InstrSeen)
        → instruction_at calls (tables_of code.now.code) (stack_seen m.old) ≡ Some instr
        → group_of instr ≢ Groups.Stack }
    ensures steps { Finishes (tables_of code.now.code) m.old (S.state streams.old) m.new (S.state streams.new)
        (step_result result halt.new) done }
    ensures ready { IfOk (step_result result halt.new)
        (λ stepped. IsReady (tables_of code.now.code) m.new (stage_of stepped)) }
    ensures within { KeepsLimits m.old m.new (step_result result halt.new) }
{
    match finish_step(m, done, code, rooms, streams) {
        Ok(stepped) => after_of(stepped),
        Err(why) => {
            *halt = why;
            AfterTurn::Halted
        }
    }
}
