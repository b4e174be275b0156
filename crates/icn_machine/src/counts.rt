// Counts, which are given and go on, on the stack alone.
ghost use Rattle.std.specs.Prelude.{◌≡◌, ◌≤◌, None, IfOk, IfSome, IsSome, OnErr, OnOk, Some, pos};
ghost use Rattle.std.specs.Ordering.{int_eq};
ghost use Rattle.icn_text.specs.declared.op.Op.TheVariants as Ops;
ghost use Rattle.icn_value.specs.declared.item.Item.{Item};
ghost use Rattle.icn_value.specs.Store.{Names};
ghost use Rattle.icn_defs.specs.Arithmetic.{counts_on};
ghost use Rattle.icn_heap.specs.Extents.{Extent};
ghost use Rattle.icn_frames.specs.Slots.{plain_operand};
ghost use Rattle.icn_frames.specs.Stacks as flat;
ghost use Rattle.icn_control.specs.LiveStacks.{StaysLive};
ghost use Rattle.icn_control.specs.StackViews.{stack_in};
ghost use Rattle.icn_control.specs.TakenOperands.{take_operands};
ghost use Rattle.law_steps.specs.StateNames.{StackNamed};
ghost use Rattle.icn_machine.specs.AnsweredAtOnce.{IfDone};
ghost use Rattle.icn_machine.specs.declared.at_once.AtOnce.TheVariants as AtOnces;
ghost use Rattle.icn_machine.specs.Counts.{CountsOn, FailsAsTurn, HasNoNext, IsNextCount, TellsCount, count_outcome};
ghost use Rattle.icn_machine.specs.Giving.{GivesOutcome};
ghost use Rattle.icn_machine.specs.PlainOperations.{OperatesInPlace, TellsInteger};

use crate::at_once::AtOnce;
use crate::plain_operations::{computed_number, local_integer};
use icn_control::{RunState, put_slot};
use icn_frames::{Cell, Count, Frames, Stack};
use icn_text::add;
use std::alloc::AllocError;

// Whether a count has not passed its end.
#[inline(always)]
fn counts_on(count: Count) -> bool
    ensures { result ≡ counts_on count.step count.last count.given }
{
    if count.step > 0 {
        count.given <= count.last
    } else {
        count.last <= count.given
    }
}

/// Gives the integer of a count, which is suspended, unless that has passed its end. The error is want of memory.
pub fn give_count<K: Stack<Cell> + Drop>(
    frames: &mut Frames<K>,
    count: Count,
) -> Result<RunState, AllocError>
    ensures gives { IfOk result (GivesOutcome (count_outcome count) frames.old.flat frames.new.flat) }
    ensures live { OnOk result (StaysLive frames.old.flat frames.new.flat) }
    ensures named { (names : Names) (all : Extent) → StackNamed names (stack_in all frames.old.flat)
        → OnOk result (StackNamed names (stack_in all frames.new.flat)) }
    ensures err { OnErr result (frames.new.flat ≡ frames.old.flat) }
    ensures spare { OnErr result (frames.old.spare ≤ frames.new.spare) }
{
    if counts_on(count) {
        frames.suspend_count(count)?;
        return Ok(RunState::Running);
    }
    Ok(RunState::Failing)
}

/// Goes on with a count by its step, where 64 bits hold the next integer. The error is want of memory.
pub fn count_on<K: Stack<Cell> + Drop>(
    frames: &mut Frames<K>,
    count: Count,
) -> Result<RunState, AllocError>
    ensures counts { IfOk result (CountsOn count frames.old.flat frames.new.flat) }
    ensures live { OnOk result (StaysLive frames.old.flat frames.new.flat) }
    ensures named { (names : Names) (all : Extent) → StackNamed names (stack_in all frames.old.flat)
        → OnOk result (StackNamed names (stack_in all frames.new.flat)) }
{
    let Some(given) = computed_number(add(count.given, count.step)) else {
        return Ok(RunState::Failing);
    };
    let next = Count {
        given,
        last: count.last,
        step: count.step,
    };
    give_count(frames, next)
}

// The count that comes next, where 64 bits hold its integer and that has not passed the end.
#[inline(always)]
fn next_count(count: Count) -> Option<Count>
    ensures next { IfSome result (IsNextCount count) }
    ensures over { result ≡ None → HasNoNext count }
{
    let Some(given) = computed_number(add(count.given, count.step)) else {
        return None;
    };
    let next = Count {
        given,
        last: count.last,
        step: count.step,
    };
    if counts_on(next) { Some(next) } else { None }
}

/// A step of failing that goes on with a count, where that is the newest suspension and its slot tells so. Elsewhere nothing
/// changes.
#[inline(always)]
pub fn count_again<K: Stack<Cell> + Drop>(frames: &mut Frames<K>) -> AtOnce
    ensures counts { IfDone result (λ answer. IfOk answer (FailsAsTurn frames.old.flat frames.new.flat)) }
    ensures live { IfDone result (λ answer. OnOk answer (StaysLive frames.old.flat frames.new.flat)) }
    ensures not_done { result ≡ AtOnces.Not → frames.new ≡ frames.old }
{
    let Some(count) = frames.newest_count() else {
        return AtOnce::Not;
    };
    let Some(next) = next_count(count) else {
        frames.resume_newest();
        frames.local_count();
        return AtOnce::Failing;
    };
    match frames.count_anew(next) {
        Ok(()) => AtOnce::Running,
        Err(_) => AtOnce::NoMemory,
    }
}

// Whether a step does not count.
fn is_zero(step: i64) -> bool
    ensures { result ≡ int_eq step (pos 0) }
{
    step == 0
}

// The integer that an operand is, or that the local of the procedure that runs holds which it names.
#[inline(always)]
fn bound_in<K: Stack<Cell> + Drop>(frames: &Frames<K>, slot: Cell) -> Option<i64>
    ensures { IfSome result (TellsInteger (flat.locals frames.now.flat) slot) }
{
    match slot {
        Cell::VarLocal(index) => {
            let count = frames.local_count();
            if index as u64 >= count {
                return None;
            }
            local_integer(frames, index)
        }
        Cell::ValInteger(n) => Some(n),
        _ => None,
    }
}

// The count of which three operands tell the first integer, the last one and the step, if that counts.
#[inline(always)]
fn count_told<K: Stack<Cell> + Drop>(
    frames: &Frames<K>,
    first: Cell,
    last: Cell,
    step: Cell,
) -> Option<Count>
    ensures { IfSome result (TellsCount (flat.locals frames.now.flat) first last step) }
{
    let from = bound_in(frames, first)?;
    let to = bound_in(frames, last)?;
    let by = bound_in(frames, step)?;
    if is_zero(by) {
        return None;
    }
    Some(Count {
        given: from,
        last: to,
        step: by,
    })
}

// Puts three operands back on a stack that has room for them, the lowest one first.
fn put_back<K: Stack<Cell> + Drop>(frames: &mut Frames<K>, first: Cell, last: Cell, step: Cell)
    requires room { 3 ≤ frames.old.spare }
    requires first { IsSome (plain_operand first) }
    requires last { IsSome (plain_operand last) }
    requires step { IsSome (plain_operand step) }
    ensures { (x y z : Item) → plain_operand first ≡ Some x → plain_operand last ≡ Some y
        → plain_operand step ≡ Some z
        → frames.new.flat ≡ flat.push z (flat.push y (flat.push x frames.old.flat)) }
{
    put_slot(frames, first);
    put_slot(frames, last);
    put_slot(frames, step);
}

/// Begins a count from the first of three operands to the second by the third, where slots tell that they are integers, and the
/// step is not 0. Elsewhere, and for want of memory, nothing changes.
pub fn count_from<K: Stack<Cell> + Drop>(frames: &mut Frames<K>) -> Option<RunState>
    requires { IsSome (take_operands 3 frames.old.flat) }
    ensures { OperatesInPlace Ops.ToBy frames.old.flat frames.new.flat result }
{
    let first = frames.slot_below(2);
    let last = frames.slot_below(1);
    let step = frames.slot_below(0);
    let count = count_told(frames, first, last, step)?;
    frames.drop_with(2);
    frames.local_count();
    match give_count(frames, count) {
        Ok(stage) => Some(stage),
        Err(_) => {
            put_back(frames, first, last, step);
            None
        }
    }
}
