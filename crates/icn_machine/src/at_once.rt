// Instructions that are done at once: by slots, without a room, a row or the streams.
ghost use Rattle.std.specs.Prelude.{◌≡◌, ◌≢◌, suc, false, Some, IsTrue};
ghost use Rattle.icn_code.specs.CodeTables.{tables_of};
ghost use Rattle.icn_code.specs.declared.instr.Instr.TheVariants as Instrs;
ghost use Rattle.icn_frames.specs.Stacks as flat;
ghost use Rattle.icn_frames.specs.Stacks.{FlatStack};
ghost use Rattle.icn_control.specs.declared.machine.RunState.TheVariants as RunStates;
ghost use Rattle.icn_instructions.specs.FirstStatics.{AreFirstStatics};
ghost use Rattle.icn_instructions.specs.Groups.{group_of};
ghost use Rattle.icn_instructions.specs.declared.groups.InstrGroup.TheVariants as Groups;
ghost use Rattle.icn_machine.specs.AnsweredAtOnce.{DoneAtOnce, StepsAtOnce, done_at, done_if, fails_at_once, fails_in_turn, is_done_in_world, is_not, is_unfinished};
ghost use Rattle.icn_machine.specs.DoneInPlace.{DoneInPlace};
ghost use Rattle.icn_machine.specs.Stepping.{IsDoing, IsReady};

use crate::failing::fail_through_at_once;
use crate::invoking::call_at_once;
use crate::operations::operate_at_once;
use crate::scanning::open_in_place;
use crate::stepping::next_instr;
use crate::texts_in_place::is_of_texts;
use crate::turns_at_once::{function_at_once, operation_at_once, texts_at_once};
use icn_code::{Code, Instr};
use icn_control::{
    Machine, RunState, go_back, lsusp, push_keyword, push_string, scan_left, unmark,
};
use icn_frames::{Cell, Stack};
use icn_instructions::{InstrGroup, do_stack_instruction, do_world_at_once, group_of};
use icn_text::{Keyword, Op};
use icn_verify::Verified;
use law_steps::{steps_keep_names, steps_keep_sizes};

/// Where a run stands after something was done at once.
#[derive(Clone, Copy, Debug, PartialEq, Eq)]
pub enum AtOnce {
    /// The next instruction is due.
    Running,
    /// The code fails.
    Failing,
    /// An exhausted co-expression was reached, whose hop is due.
    Hopping,
    /// The starting call is over.
    Over,
    /// One turn more would be past the bound.
    AtBound,
    /// Memory was wanting.
    NoMemory,
    /// Nothing was done, and nothing has changed.
    Not,
}

/// Where a run stands, as something that was done.
#[inline(always)]
pub fn done_at(stage: RunState) -> AtOnce
    ensures { result ≡ done_at stage }
{
    match stage {
        RunState::Running => AtOnce::Running,
        RunState::Failing => AtOnce::Failing,
        RunState::Hopping => AtOnce::Hopping,
        RunState::Over => AtOnce::Over,
        RunState::AtBound => AtOnce::AtBound,
    }
}

/// The same, if it was done.
#[inline(always)]
pub fn done_if(stage: Option<RunState>) -> AtOnce
    ensures { result ≡ done_if stage }
{
    match stage {
        Some(stage) => done_at(stage),
        None => AtOnce::Not,
    }
}

/// Whether the code fails.
#[inline(always)]
pub fn fails_at_once(done: AtOnce) -> bool
    ensures { result ≡ fails_at_once done }
{
    match done {
        AtOnce::Running => false,
        AtOnce::Failing => true,
        AtOnce::Hopping => false,
        AtOnce::Over => false,
        AtOnce::AtBound => false,
        AtOnce::NoMemory => false,
        AtOnce::Not => false,
    }
}

/// Whether it fails, and no turn was made since so many were.
#[inline(always)]
pub fn fails_in_turn(done: AtOnce, now: u64, turns: u64) -> bool
    ensures { result ≡ fails_in_turn done now turns }
{
    match done {
        AtOnce::Running => false,
        AtOnce::Failing => now == turns,
        AtOnce::Hopping => false,
        AtOnce::Over => false,
        AtOnce::AtBound => false,
        AtOnce::NoMemory => false,
        AtOnce::Not => false,
    }
}

/// Whether nothing was done.
#[inline(always)]
pub fn is_not(done: AtOnce) -> bool
    ensures { result ≡ is_not done }
{
    match done {
        AtOnce::Running => false,
        AtOnce::Failing => false,
        AtOnce::Hopping => false,
        AtOnce::Over => false,
        AtOnce::AtBound => false,
        AtOnce::NoMemory => false,
        AtOnce::Not => true,
    }
}

/// Whether more is to be done before the next instruction is due.
#[inline(always)]
pub fn is_unfinished(done: AtOnce) -> bool
    ensures { result ≡ is_unfinished done }
{
    match done {
        AtOnce::Running => false,
        AtOnce::Failing => true,
        AtOnce::Hopping => true,
        AtOnce::Over => true,
        AtOnce::AtBound => true,
        AtOnce::NoMemory => true,
        AtOnce::Not => true,
    }
}

// Whether an instruction touches nothing but the stack that runs.
#[inline(always)]
fn is_on_stack(instr: Instr) -> bool
    ensures on { IsTrue result → group_of instr ≡ Groups.Stack }
    ensures off { result ≡ false → group_of instr ≢ Groups.Stack }
{
    match group_of(instr) {
        InstrGroup::Stack => true,
        InstrGroup::World => false,
        InstrGroup::Machine => false,
        InstrGroup::Coexpression => false,
        InstrGroup::Application => false,
    }
}

// Does one that touches nothing but the stack that runs.
#[inline(always)]
fn stack_at_once<K: Stack<Cell> + Drop>(
    m: &mut Machine<K>,
    code: &Code,
    firsts: &[u32],
    instr: Instr,
) -> AtOnce
    requires firsts { AreFirstStatics (tables_of code.now) firsts.now }
    requires group { group_of instr ≡ Groups.Stack }
    requires doing { IsDoing (tables_of code.now) m.old instr }
    ensures { DoneAtOnce (tables_of code.now) instr m.old m.new result }
{
    steps_keep_names();
    steps_keep_sizes();
    match do_stack_instruction(m, code, firsts, instr) {
        Ok(()) => AtOnce::Running,
        Err(_) => AtOnce::NoMemory,
    }
}

// Does one that touches the stack that runs and the world, where slots tell what it takes. Elsewhere nothing changes.
#[inline(always)]
fn world_at_once<K: Stack<Cell> + Drop>(
    m: &mut Machine<K>,
    code: &Code,
    instr: Instr,
) -> Option<RunState>
    requires { IsDoing (tables_of code.now) m.old instr }
    ensures { DoneInPlace (tables_of code.now) instr m.old m.new result }
{
    do_world_at_once(m.stacks.frames(), &mut m.world, instr)
}

// Drops the innermost mark.
#[inline(always)]
fn unmark_at_once<K: Stack<Cell> + Drop>(m: &mut Machine<K>, code: &Code, instr: Instr) -> AtOnce
    requires is { instr ≡ Instrs.Unmark }
    requires doing { IsDoing (tables_of code.now) m.old instr }
    ensures { DoneAtOnce (tables_of code.now) instr m.old m.new result }
{
    steps_keep_names();
    steps_keep_sizes();
    unmark(m);
    AtOnce::Running
}

// Goes back to a label, as a turn.
#[inline(always)]
fn loop_at_once<K: Stack<Cell> + Drop>(
    m: &mut Machine<K>,
    code: &Code,
    instr: Instr,
    label: u32,
) -> AtOnce
    requires is { instr ≡ Instrs.Loop label }
    requires doing { IsDoing (tables_of code.now) m.old instr }
    ensures { DoneAtOnce (tables_of code.now) instr m.old m.new result }
{
    steps_keep_names();
    steps_keep_sizes();
    done_at(go_back(m, label))
}

// Fails.
#[inline(always)]
fn efail_at_once<K: Stack<Cell> + Drop>(m: &mut Machine<K>, code: &Code, instr: Instr) -> AtOnce
    requires is { instr ≡ Instrs.Efail }
    requires doing { IsDoing (tables_of code.now) m.old instr }
    ensures { DoneAtOnce (tables_of code.now) instr m.old m.new result }
{
    steps_keep_names();
    steps_keep_sizes();
    AtOnce::Failing
}

// Counts a result of a limit down.
#[inline(always)]
fn lsusp_at_once<K: Stack<Cell> + Drop>(m: &mut Machine<K>, code: &Code, instr: Instr) -> AtOnce
    requires is { instr ≡ Instrs.Lsusp }
    requires doing { IsDoing (tables_of code.now) m.old instr }
    ensures { DoneAtOnce (tables_of code.now) instr m.old m.new result }
{
    steps_keep_names();
    steps_keep_sizes();
    match lsusp(m) {
        Ok(()) => AtOnce::Running,
        Err(_) => AtOnce::NoMemory,
    }
}

// Pushes a text of the code.
#[inline(always)]
fn string_at_once<K: Stack<Cell> + Drop>(
    m: &mut Machine<K>,
    code: &Code,
    instr: Instr,
    place: u32,
) -> AtOnce
    requires is { instr ≡ Instrs.Str place }
    requires doing { IsDoing (tables_of code.now) m.old instr }
    ensures { DoneAtOnce (tables_of code.now) instr m.old m.new result }
{
    steps_keep_names();
    steps_keep_sizes();
    match push_string(m.stacks.frames(), &mut m.world, code, place) {
        Ok(()) => AtOnce::Running,
        Err(_) => AtOnce::NoMemory,
    }
}

// Pushes what a keyword gives, or fails.
#[inline(always)]
fn keyword_at_once<K: Stack<Cell> + Drop>(
    m: &mut Machine<K>,
    code: &Code,
    instr: Instr,
    word: Keyword,
) -> AtOnce
    requires is { instr ≡ Instrs.Keywd word }
    requires doing { IsDoing (tables_of code.now) m.old instr }
    ensures { DoneAtOnce (tables_of code.now) instr m.old m.new result }
{
    steps_keep_names();
    steps_keep_sizes();
    match push_keyword(m, word) {
        Ok(stage) => done_at(stage),
        Err(_) => AtOnce::NoMemory,
    }
}

// Opens a scan of a text that the top operand is, or that the local or the global holds which it names, where slots tell it. Elsewhere
// nothing changes.
#[inline(always)]
fn scan_opened_at_once<K: Stack<Cell> + Drop>(
    m: &mut Machine<K>,
    code: &Code,
    instr: Instr,
) -> AtOnce
    requires is { instr ≡ Instrs.Bscan }
    requires doing { IsDoing (tables_of code.now) m.old instr }
    ensures { DoneAtOnce (tables_of code.now) instr m.old m.new result }
{
    steps_keep_names();
    steps_keep_sizes();
    open_in_place(m.stacks.frames(), &mut m.world)
}

// Leaves the newest scan.
#[inline(always)]
fn scan_left_at_once<K: Stack<Cell> + Drop>(m: &mut Machine<K>, code: &Code, instr: Instr) -> AtOnce
    requires is { instr ≡ Instrs.Escan }
    requires doing { IsDoing (tables_of code.now) m.old instr }
    ensures { DoneAtOnce (tables_of code.now) instr m.old m.new result }
{
    steps_keep_names();
    steps_keep_sizes();
    match scan_left(m.stacks.frames(), &mut m.world) {
        Ok(()) => AtOnce::Running,
        Err(_) => AtOnce::NoMemory,
    }
}

// Performs an operation on what is on top, where slots tell it.
#[inline(always)]
fn op_at_once<K: Stack<Cell> + Drop>(
    m: &mut Machine<K>,
    code: &Code,
    instr: Instr,
    op: Op,
) -> AtOnce
    requires is { instr ≡ Instrs.Op op }
    requires doing { IsDoing (tables_of code.now) m.old instr }
    ensures { DoneAtOnce (tables_of code.now) instr m.old m.new result }
{
    steps_keep_names();
    steps_keep_sizes();
    if is_of_texts(op) {
        return texts_at_once(m, code, instr, op);
    }
    match operate_at_once(m, op) {
        Some(stage) => done_at(stage),
        None => operation_at_once(m, code, instr, op),
    }
}

// Calls a procedure, where slots tell it and its arguments.
#[inline(always)]
fn invoke_at_once<K: Stack<Cell> + Drop>(
    m: &mut Machine<K>,
    code: &Code,
    instr: Instr,
    count: u32,
) -> AtOnce
    requires is { instr ≡ Instrs.Invoke count }
    requires doing { IsDoing (tables_of code.now) m.old instr }
    ensures { DoneAtOnce (tables_of code.now) instr m.old m.new result }
{
    steps_keep_names();
    steps_keep_sizes();
    match call_at_once(m, code, count) {
        Some(stage) => done_at(stage),
        None => function_at_once(m, code, instr, count),
    }
}

// Whether an instruction may be done on the stack and the world at once: it returns from a procedure, suspends it, ends it, gives
// the value of a result out of its mark, or opens the mark of a limit.
#[inline(always)]
fn is_done_in_world(instr: Instr) -> bool
    ensures { result ≡ is_done_in_world instr }
{
    match instr {
        Instr::Eret => true,
        Instr::Pret => true,
        Instr::Pfail => true,
        Instr::Psusp => true,
        Instr::Limit => true,
        _ => false,
    }
}

// Does any other one that touches more than the stack, if that may be done on the stack and the world.
#[inline(always)]
fn other_at_once<K: Stack<Cell> + Drop>(m: &mut Machine<K>, code: &Code, instr: Instr) -> AtOnce
    requires off_stack { group_of instr ≢ Groups.Stack }
    requires doing { IsDoing (tables_of code.now) m.old instr }
    ensures { DoneAtOnce (tables_of code.now) instr m.old m.new result }
{
    steps_keep_names();
    steps_keep_sizes();
    if is_done_in_world(instr) {
        return done_if(world_at_once(m, code, instr));
    }
    AtOnce::Not
}

// Does an instruction at once, where slots tell what it takes. Elsewhere nothing changes.
#[inline(always)]
fn do_at_once<K: Stack<Cell> + Drop>(
    m: &mut Machine<K>,
    code: &Code,
    firsts: &[u32],
    instr: Instr,
) -> AtOnce
    requires firsts { AreFirstStatics (tables_of code.now) firsts.now }
    requires doing { IsDoing (tables_of code.now) m.old instr }
    ensures { DoneAtOnce (tables_of code.now) instr m.old m.new result }
{
    if is_on_stack(instr) {
        return stack_at_once(m, code, firsts, instr);
    }
    match instr {
        Instr::Op(op) => op_at_once(m, code, instr, op),
        Instr::Invoke(count) => invoke_at_once(m, code, instr, count),
        Instr::Unmark => unmark_at_once(m, code, instr),
        Instr::Efail => efail_at_once(m, code, instr),
        Instr::Loop(label) => loop_at_once(m, code, instr, label),
        Instr::Lsusp => lsusp_at_once(m, code, instr),
        Instr::Str(place) => string_at_once(m, code, instr, place),
        Instr::Keywd(word) => keyword_at_once(m, code, instr, word),
        Instr::Bscan => scan_opened_at_once(m, code, instr),
        Instr::Escan => scan_left_at_once(m, code, instr),
        _ => other_at_once(m, code, instr),
    }
}

// The stack that runs stands again at the address of the instruction that was taken.
#[inline(always)]
fn step_back<K: Stack<Cell> + Drop>(m: &mut Machine<K>)
    requires { (was : FlatStack)
        × (m.old.stacks.table.running ≡ Some (flat.go (suc was.address) was)) }
    ensures table { (was : FlatStack) → m.old.stacks.table.running ≡ Some (flat.go (suc was.address) was)
        → m.new.stacks.table ≡ record m.old.stacks.table { running = Some was } }
    ensures world { m.new.world ≡ m.old.world }
    ensures turns { m.new.turns ≡ m.old.turns }
    ensures begun { m.new.begun.items ≡ m.old.begun.items }
    ensures limits { m.new.limits ≡ m.old.limits }
{
    let frames = m.stacks.frames();
    let next = frames.address();
    frames.go(next - 1);
}

// Does the instruction that is due at once, but for the failing behind it. Where it is not done so, nothing has changed.
#[inline(always)]
fn due_at_once<K: Stack<Cell> + Drop>(m: &mut Machine<K>, code: &Code, firsts: &[u32]) -> AtOnce
    requires firsts { AreFirstStatics (tables_of code.now) firsts.now }
    requires ready { IsReady (tables_of code.now) m.old RunStates.Running }
    ensures { StepsAtOnce (tables_of code.now) m.old m.new result }
{
    let instr = next_instr(m, code);
    let done = do_at_once(m, code, firsts, instr);
    if is_not(done) {
        step_back(m);
        return AtOnce::Not;
    }
    done
}

// The same with all the failing behind it.
#[inline(always)]
fn all_at_once<K: Stack<Cell> + Drop>(m: &mut Machine<K>, code: &Code, firsts: &[u32]) -> AtOnce
    requires firsts { AreFirstStatics (tables_of code.now) firsts.now }
    requires ready { IsReady (tables_of code.now) m.old RunStates.Running }
    ensures { StepsAtOnce (tables_of code.now) m.old m.new result }
{
    let done = due_at_once(m, code, firsts);
    if fails_at_once(done) {
        return fail_through_at_once(m);
    }
    done
}

/// Does the instruction that is due, with all the failing behind it, at once. Where it is not done so, nothing has changed.
#[inline(always)]
pub fn step_at_once<K: Stack<Cell> + Drop>(m: &mut Machine<K>, code: &Verified) -> AtOnce
    requires { IsReady (tables_of code.now.code) m.old RunStates.Running }
    ensures { StepsAtOnce (tables_of code.now.code) m.old m.new result }
{
    let firsts = code.first_statics();
    let code = code.code();
    all_at_once(m, code, firsts)
}
