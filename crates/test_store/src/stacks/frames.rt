// Calls of frames.
ghost use Rattle.std.specs.Bool.{OnTrue};
ghost use Rattle.icn_frames.specs.Stacks.{GoesOn};

use crate::stacks::calls::{Call, pair};
use icn_frames::{Cell, Frames, Stack, Why};
use icn_value::{Item, Val};
use std::alloc::AllocError;

/// What a call answers; `Not` where it may not be made.
#[derive(Clone, Copy, PartialEq)]
pub enum CallResult {
    Done,
    Not,
    Is(bool),
    Number(u64),
    Value(i64),
    Label(Option<u32>),
    Why(Option<Why>),
    Scan(Option<u64>),
}

/// An operand that is an integer.
pub fn item(n: i64) -> Item {
    Item::Val(Val::Integer(n))
}

fn value_of(v: Val) -> CallResult {
    match v {
        Val::Integer(n) => CallResult::Value(n),
        _ => CallResult::Not,
    }
}

fn item_of(x: Item) -> CallResult {
    match x {
        Item::Val(v) => value_of(v),
        _ => CallResult::Not,
    }
}

fn read<K: Stack<Cell> + Drop>(frames: &Frames<K>, call: Call) -> CallResult {
    match call {
        Call::Proc => CallResult::Number(u64::from(frames.proc())),
        Call::Level => CallResult::Number(frames.level()),
        Call::AtBase => CallResult::Is(frames.at_base()),
        Call::Local(index) => {
            if index < frames.local_count() {
                value_of(frames.local(index))
            } else {
                CallResult::Not
            }
        }
        Call::Address => CallResult::Number(u64::from(frames.address())),
        Call::Label => CallResult::Label(frames.label()),
        Call::Relabelled => CallResult::Is(frames.has_new_label()),
        Call::Below => {
            if frames.has_below() {
                item_of(frames.below())
            } else {
                CallResult::Not
            }
        }
        Call::Scanning => CallResult::Is(frames.is_scanning()),
        _ => CallResult::Not,
    }
}

fn drop_or_set<K: Stack<Cell> + Drop>(frames: &mut Frames<K>, call: Call) -> CallResult {
    match call {
        Call::SetLocal(index, n) if index < frames.local_count() => {
            frames.set_local(index, Val::Integer(n));
            CallResult::Done
        }
        Call::Go(address) => {
            frames.go(address);
            CallResult::Done
        }
        Call::Pop if frames.has_operand() => item_of(frames.pop()),
        Call::Relabel(label) if frames.is_plain() => {
            frames.relabel(label);
            CallResult::Done
        }
        Call::CountDown if frames.has_count() => CallResult::Number(frames.count_down()),
        Call::Unmark if !frames.at_base() => {
            CallResult::Scan(frames.unmark().map(|pair| pair.position))
        }
        Call::Resume => CallResult::Why(frames.resume()),
        Call::Swap(oldest, position) if frames.is_scanning() => {
            CallResult::Scan(Some(frames.swap_pair(oldest, pair(position)).position))
        }
        Call::Leave if !frames.is_base() => {
            frames.leave();
            CallResult::Done
        }
        other => read(frames, other),
    }
}

// Whether the mark that goes on after a suspension is there.
fn goes_on<K: Stack<Cell> + Drop>(frames: &Frames<K>, why: Why) -> bool
    ensures { OnTrue result (GoesOn why frames.now.flat) }
{
    match why {
        Why::Alt => !frames.at_base(),
        Why::Proc => !frames.is_base(),
        _ => true,
    }
}

/// Makes the call, if it may be made, and gives its answer. `AllocError` is want of memory.
pub fn answer_of<K: Stack<Cell> + Drop>(
    frames: &mut Frames<K>,
    call: Call,
) -> Result<CallResult, AllocError> {
    match call {
        Call::Push(n) => frames.push(item(n))?,
        Call::Mark(label, count) => frames.mark(label, count)?,
        Call::Suspend(why, given) if goes_on(frames, why) => {
            frames.suspend(why, given.map(item))?
        }
        Call::Enter(proc) if frames.level() < u64::MAX => {
            let locals = [Val::Integer(1), Val::Integer(2), Val::Integer(3)];
            frames.enter(proc, &locals, 0)?
        }
        other => return Ok(drop_or_set(frames, other)),
    }
    Ok(CallResult::Done)
}
