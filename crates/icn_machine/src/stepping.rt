// One instruction of a run.
ghost use Rattle.std.specs.Prelude.{◌≡◌, ◌≢◌, ◌<◌, false, true, suc, Err, Ok, Some, IfOk, length, slice_get};
ghost use Rattle.icn_value.specs.Store.{Outside};
ghost use Rattle.icn_vars.specs.declared.outcome.Halt.TheVariants.{NoMemory};
ghost use Rattle.icn_code.specs.declared.instr.Instr.{Instr as InstrSeen};
ghost use Rattle.icn_frames.specs.Stacks as flat;
ghost use Rattle.icn_code.specs.CodeTables.{tables_of};
ghost use Rattle.icn_run.specs.Stacks.{flat as calls};
ghost use Rattle.icn_run.specs.Step.{all_names, instruction_at, instrs_of, running, step};
ghost use Rattle.icn_control.specs.Machines.{ComesTo, does, stack_seen, store_seen};
ghost use Rattle.icn_control.specs.Soundness.{KeepsLimits};
ghost use Rattle.icn_control.specs.declared.machine.RunState.TheVariants as RunStates;
ghost use Rattle.icn_instructions.specs.Groups.{group_of};
ghost use Rattle.icn_instructions.specs.declared.groups.InstrGroup.TheVariants as Groups;
ghost use Rattle.icn_machine.specs.AnsweredAtOnce.{Finishes, stepping_at};
ghost use Rattle.icn_machine.specs.declared.at_once.AtOnce.TheVariants as AtOnces;
ghost use Rattle.icn_machine.specs.DoneInPlace.{IsPast};
ghost use Rattle.icn_machine.specs.Performing.{PerformsOn, SettlesOn};
ghost use Rattle.icn_machine.specs.Stepping.{Advances, EndsWhole, GoesOn, IsDoing, IsFailing, IsReady, IsReadyToFail, is_applied, is_failing, is_whole};
ghost use Rattle.icn_machine.specs.AfterInstruction.{stage_of, stage_result};

use crate::at_once::{AtOnce, step_at_once};
use crate::errors::settle;
use crate::failing::{fail_through, is_failing as fails_now};
use crate::fields::field;
use crate::invoking::{appl, invoke};
use crate::operations::operate;
use icn_apply::CodeNames;
use icn_code::{Code, Instr};
use icn_control::{Machine, RunState};
use icn_convert::Names;
use icn_frames::{Cell, Frames, Stack};
use icn_instructions::do_off_stack;
use icn_streams::Streams;
use icn_text::Op;
use icn_value::{Item, Val};
use icn_vars::Halt;
use icn_verify::Verified;
use law_steps::{steps_keep_names, steps_keep_sizes};

/// Where a run stands after an instruction.
#[derive(Clone, Copy, Debug, PartialEq, Eq)]
pub enum AfterStep {
    /// The next instruction is due.
    Running,
    /// The starting call is over, and with it the run.
    Over,
    /// One turn more would be past the bound.
    AtBound,
}

/// Rooms that each instruction uses again, whatever they hold: for operands, and for values.
#[derive(Drop)]
pub struct Rooms {
    pub items: Vec<Item>,
    pub vals: Vec<Val>,
}

// The instructions of a procedure, which must be there.
fn instrs_at(code: &Code, proc: u32) -> &[Instr]
    requires { proc < length (tables_of code.now).procs }
    ensures { result.now ≡ instrs_of (tables_of code.now) proc }
{
    let entry = &code.procs[proc as usize];
    &entry.instrs
}

// The instruction that is due, and the next one is gone to.
fn take_instr<K: Stack<Cell> + Drop>(frames: &mut Frames<K>, code: &Code) -> Instr
    requires there { frames.old.flat.address
        < length (instrs_of (tables_of code.now) (flat.proc frames.old.flat)) }
    ensures instr { slice_get (instrs_of (tables_of code.now) (flat.proc frames.old.flat))
        frames.old.flat.address ≡ Some result }
    ensures flat { frames.new.flat ≡ flat.go (suc frames.old.flat.address) frames.old.flat }
{
    let instrs = instrs_at(code, frames.proc());
    let address = frames.address();
    let instr = instrs[address as usize];
    frames.go(address + 1);
    instr
}

/// The same on the stack that runs. What a step of the run comes to is what the instruction comes to then.
pub fn next_instr<K: Stack<Cell> + Drop>(m: &mut Machine<K>, code: &Code) -> Instr
    requires ready { IsReady (tables_of code.now) m.old RunStates.Running }
    ensures instr { instruction_at calls (tables_of code.now) (stack_seen m.old) ≡ Some result }
    ensures step { (outside : Outside) → step calls (tables_of code.now) (running (stack_seen m.old)
        (store_seen (tables_of code.now) outside m.old)) ≡ does (tables_of code.now) outside result m.new }
    ensures doing { IsDoing (tables_of code.now) m.new result }
    ensures past { IsPast m.old m.new }
    ensures limits { m.new.limits ≡ m.old.limits }
{
    take_instr(m.stacks.frames(), code)
}

// Whether an instruction performs an operation, calls something or takes a field.
fn is_applied(instr: Instr) -> bool
    ensures { result ≡ is_applied instr }
{
    match instr {
        Instr::Op(Op::Refresh) => false,
        Instr::Op(_) => true,
        Instr::Field(_) => true,
        Instr::Invoke(_) => true,
        Instr::Appl => true,
        _ => false,
    }
}

// Performs an operation, calls something or takes a field, as is due. The errors are those of the call.
#[inline(always)]
fn do_applied<K: Stack<Cell> + Drop, N: Names, S: Streams>(
    m: &mut Machine<K>,
    code: &Code,
    instr: Instr,
    names: &N,
    rooms: &mut Rooms,
    streams: &mut S,
) -> Result<RunState, Halt>
    requires applied { is_applied instr ≡ true }
    requires known { N.known names.now ≡ all_names (tables_of code.now) }
    requires doing { IsDoing (tables_of code.now) m.old instr }
    ensures step { PerformsOn (tables_of code.now) (λ outside. does (tables_of code.now) outside instr m.old)
        m.new (S.state streams.old)
        (S.state streams.new) result }
    ensures ready { IfOk result (IsReady (tables_of code.now) m.new) }
    ensures erring { IsReadyToFail (tables_of code.now) m.new result }
    ensures within { KeepsLimits m.old m.new result }
{
    steps_keep_names();
    steps_keep_sizes();
    let items = &mut rooms.items;
    let vals = &mut rooms.vals;
    match instr {
        Instr::Op(op) => operate(m, op, items, names, streams),
        Instr::Field(place) => field(m, code, place),
        Instr::Invoke(count) => invoke(m, code, count, items, vals, names, streams),
        Instr::Appl => appl(m, code, items, vals, names, streams),
        _ => unreachable!(),
    }
}

// Does any other instruction that is due. The errors are those of `do_off_stack`.
#[inline(always)]
fn do_plain<K: Stack<Cell> + Drop>(
    m: &mut Machine<K>,
    code: &Code,
    instr: Instr,
    rooms: &mut Rooms,
) -> Result<RunState, Halt>
    requires applied { is_applied instr ≡ false }
    requires off_stack { group_of instr ≢ Groups.Stack }
    requires doing { IsDoing (tables_of code.now) m.old instr }
    ensures step { (outside : Outside)
        → ComesTo (tables_of code.now) outside (does (tables_of code.now) outside instr m.old) m.new result }
    ensures ready { IfOk result (IsReady (tables_of code.now) m.new) }
    ensures erring { IsReadyToFail (tables_of code.now) m.new result }
    ensures whole { is_whole instr ≡ true → EndsWhole result }
    ensures within { KeepsLimits m.old m.new result }
{
    steps_keep_names();
    steps_keep_sizes();
    do_off_stack(m, code, instr, &mut rooms.items, &mut rooms.vals)
}

// Does an instruction that is due, whatever it takes, but for the failing behind it. The errors are those of the instruction that
// end the run.
#[inline(never)]
fn do_other<K: Stack<Cell> + Drop, N: Names, S: Streams>(
    m: &mut Machine<K>,
    code: &Code,
    instr: Instr,
    names: &N,
    rooms: &mut Rooms,
    streams: &mut S,
) -> Result<RunState, Halt>
    requires known { N.known names.now ≡ all_names (tables_of code.now) }
    requires off_stack { group_of instr ≢ Groups.Stack }
    requires doing { IsDoing (tables_of code.now) m.old instr }
    ensures step { SettlesOn (tables_of code.now) (λ outside. does (tables_of code.now) outside instr m.old)
        m.new (S.state streams.old)
        (S.state streams.new) result }
    ensures ready { IfOk result (IsReady (tables_of code.now) m.new) }
    ensures whole { is_whole instr ≡ true → EndsWhole result }
    ensures within { KeepsLimits m.old m.new result }
{
    if is_applied(instr) {
        let answer = do_applied(m, code, instr, names, rooms, streams);
        return settle(m, answer);
    }
    let answer = do_plain(m, code, instr, rooms);
    settle(m, answer)
}

// Does the instruction that is due, but for the failing behind it. The errors are those of the instruction that end the run.
#[inline(always)]
fn do_next<K: Stack<Cell> + Drop, N: Names, S: Streams>(
    m: &mut Machine<K>,
    code: &Code,
    names: &N,
    rooms: &mut Rooms,
    streams: &mut S,
) -> Result<RunState, Halt>
    requires known { N.known names.now ≡ all_names (tables_of code.now) }
    requires off_stack { (instr : InstrSeen)
        → instruction_at calls (tables_of code.now) (stack_seen m.old) ≡ Some instr
        → group_of instr ≢ Groups.Stack }
    requires ready { IsReady (tables_of code.now) m.old RunStates.Running }
    ensures steps { Advances IsFailing (tables_of code.now) m.old RunStates.Running
        (S.state streams.old) m.new
        (S.state streams.new) result }
    ensures ready { IfOk result (IsReady (tables_of code.now) m.new) }
    ensures whole { (instr : InstrSeen)
        → instruction_at calls (tables_of code.now) (stack_seen m.old) ≡ Some instr → is_whole instr ≡ true
        → EndsWhole result }
    ensures within { KeepsLimits m.old m.new result }
{
    let instr = next_instr(m, code);
    do_other(m, code, instr, names, rooms, streams)
}

// Where the run stands at a stage at which nothing fails.
fn stepped_of(stage: RunState) -> AfterStep
    requires { is_failing stage ≡ false }
    ensures { stage_of result ≡ stage }
{
    match stage {
        RunState::Running => AfterStep::Running,
        RunState::Over => AfterStep::Over,
        RunState::AtBound => AfterStep::AtBound,
        RunState::Failing => unreachable!(),
        RunState::Hopping => unreachable!(),
    }
}

// Fails until the run stands somewhere. The errors are those of `fail_through`.
#[inline(never)]
fn fail_to_next<K: Stack<Cell> + Drop, N: Names, S: Streams>(
    m: &mut Machine<K>,
    from: RunState,
    code: &Code,
    names: &N,
    streams: &mut S,
) -> Result<AfterStep, Halt>
    requires known { N.known names.now ≡ all_names (tables_of code.now) }
    requires ready { IsReady (tables_of code.now) m.old from }
    ensures steps { GoesOn IsFailing (tables_of code.now) m.old from
        (S.state streams.old) m.new
        (S.state streams.new)
        (stage_result result) }
    ensures ready { IfOk result (λ stepped. IsReady (tables_of code.now) m.new (stage_of stepped)) }
    ensures within { KeepsLimits m.old m.new result }
{
    let stage = fail_through(m, from, names, streams)?;
    Ok(stepped_of(stage))
}

// Does one instruction, by the names of the code.
#[inline(always)]
fn step_named<K: Stack<Cell> + Drop, N: Names, S: Streams>(
    m: &mut Machine<K>,
    code: &Code,
    names: &N,
    rooms: &mut Rooms,
    streams: &mut S,
) -> Result<AfterStep, Halt>
    requires known { N.known names.now ≡ all_names (tables_of code.now) }
    requires off_stack { (instr : InstrSeen)
        → instruction_at calls (tables_of code.now) (stack_seen m.old) ≡ Some instr
        → group_of instr ≢ Groups.Stack }
    requires ready { IsReady (tables_of code.now) m.old RunStates.Running }
    ensures steps { Advances IsFailing (tables_of code.now) m.old RunStates.Running
        (S.state streams.old) m.new
        (S.state streams.new)
        (stage_result result) }
    ensures ready { IfOk result (λ stepped. IsReady (tables_of code.now) m.new (stage_of stepped)) }
    ensures no_memory { (instr : InstrSeen)
        → instruction_at calls (tables_of code.now) (stack_seen m.old) ≡ Some instr → is_whole instr ≡ true
        → result ≢ Err NoMemory }
    ensures within { KeepsLimits m.old m.new result }
{
    let stage = do_next(m, code, names, rooms, streams)?;
    if fails_now(stage) {
        return fail_to_next(m, stage, code, names, streams);
    }
    Ok(stepped_of(stage))
}

/// Does one instruction, with all the failing and the hops that follow it, where the machine stands at one. The rooms are used
/// again, whatever they hold.
///
/// # Errors
///
/// `Error` where the run is over by a run-time error, and `Ends` where it ends with a status. `ReadFault` where the input failed,
/// `WriteFault` where an output did, `FileFault` where the store of files did, and `NoMemory` where memory ran out: the run is over
/// then. An instruction that pops, unmarks, sets or goes to a label or asks for `initial` takes no memory.
pub fn step<K: Stack<Cell> + Drop, S: Streams>(
    m: &mut Machine<K>,
    code: &Verified,
    rooms: &mut Rooms,
    streams: &mut S,
) -> Result<AfterStep, Halt>
    requires ready { IsReady (tables_of code.now.code) m.old RunStates.Running }
    ensures steps { Advances IsFailing (tables_of code.now.code) m.old RunStates.Running
        (S.state streams.old) m.new
        (S.state streams.new)
        (stage_result result) }
    ensures ready { IfOk result (λ stepped. IsReady (tables_of code.now.code) m.new (stage_of stepped)) }
    ensures no_memory { (instr : InstrSeen)
        → instruction_at calls (tables_of code.now.code) (stack_seen m.old) ≡ Some instr
        → is_whole instr ≡ true → result ≢ Err NoMemory }
    ensures within { KeepsLimits m.old m.new result }
{
    let done = step_at_once(m, code);
    finish_step(m, done, code, rooms, streams)
}

// The same, by the names of the code.
fn finish_named<K: Stack<Cell> + Drop, N: Names, S: Streams>(
    m: &mut Machine<K>,
    done: AtOnce,
    code: &Code,
    names: &N,
    rooms: &mut Rooms,
    streams: &mut S,
) -> Result<AfterStep, Halt>
    requires known { N.known names.now ≡ all_names (tables_of code.now) }
    requires ready { IfOk (stepping_at done) (IsReady (tables_of code.now) m.old) }
    requires off_stack { done ≡ AtOnces.Not → (instr : InstrSeen)
        → instruction_at calls (tables_of code.now) (stack_seen m.old) ≡ Some instr
        → group_of instr ≢ Groups.Stack }
    ensures steps { Finishes (tables_of code.now) m.old (S.state streams.old) m.new (S.state streams.new)
        result done }
    ensures ready { IfOk result (λ stepped. IsReady (tables_of code.now) m.new (stage_of stepped)) }
    ensures no_memory { done ≡ AtOnces.Not → (instr : InstrSeen)
        → instruction_at calls (tables_of code.now) (stack_seen m.old) ≡ Some instr
        → is_whole instr ≡ true → result ≢ Err NoMemory }
    ensures within { KeepsLimits m.old m.new result }
{
    match done {
        AtOnce::Running => Ok(AfterStep::Running),
        AtOnce::Failing => fail_to_next(m, RunState::Failing, code, names, streams),
        AtOnce::Hopping => fail_to_next(m, RunState::Hopping, code, names, streams),
        AtOnce::Over => Ok(AfterStep::Over),
        AtOnce::AtBound => Ok(AfterStep::AtBound),
        AtOnce::NoMemory => Err(Halt::NoMemory),
        AtOnce::Not => step_named(m, code, names, rooms, streams),
    }
}

/// Finishes a step of which so much was done at once: the failing behind it is done, and what was not done at once. The rooms are
/// used again, whatever they hold. The errors are those of `step`.
pub fn finish_step<K: Stack<Cell> + Drop, S: Streams>(
    m: &mut Machine<K>,
    done: AtOnce,
    code: &Verified,
    rooms: &mut Rooms,
    streams: &mut S,
) -> Result<AfterStep, Halt>
    requires ready { IfOk (stepping_at done) (IsReady (tables_of code.now.code) m.old) }
    requires off_stack { done ≡ AtOnces.Not → (instr : InstrSeen)
        → instruction_at calls (tables_of code.now.code) (stack_seen m.old) ≡ Some instr
        → group_of instr ≢ Groups.Stack }
    ensures steps { Finishes (tables_of code.now.code) m.old (S.state streams.old) m.new (S.state streams.new)
        result done }
    ensures ready { IfOk result (λ stepped. IsReady (tables_of code.now.code) m.new (stage_of stepped)) }
    ensures no_memory { done ≡ AtOnces.Not → (instr : InstrSeen)
        → instruction_at calls (tables_of code.now.code) (stack_seen m.old) ≡ Some instr
        → is_whole instr ≡ true → result ≢ Err NoMemory }
    ensures within { KeepsLimits m.old m.new result }
{
    let code = code.code();
    let names = CodeNames::new(code);
    finish_named(m, done, code, &names, rooms, streams)
}
