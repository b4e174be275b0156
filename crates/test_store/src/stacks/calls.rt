// A call of frames.
use crate::stacks::words::{index_at, integer_at, number_at, word_at, written_number};
use icn_frames::Why;
use icn_value::{File, Pair, Residual, Span};

/// A call of frames, with integers as what is kept.
#[derive(Clone, Copy)]
pub enum Call {
    Proc,
    Level,
    AtBase,
    Local(u64),
    SetLocal(u64, i64),
    Address,
    Go(u32),
    Push(i64),
    Pop,
    Mark(Option<u32>, Option<u64>),
    Label,
    Relabel(u32),
    Relabelled,
    CountDown,
    Below,
    Unmark,
    Suspend(Why, Option<i64>),
    Resume,
    Scanning,
    Swap(bool, u64),
    Enter(u32),
    Leave,
}

// The count of which the cases suspend.
const COUNTING: Residual = Residual::Counting {
    given: 2,
    last: 3,
    step: 1,
};

/// The call of a name and its words, or none where no call has the name.
pub fn call_of(name: &str, words: &str) -> Option<Call> {
    match name {
        "proc" => Some(Call::Proc),
        "level" => Some(Call::Level),
        "base" => Some(Call::AtBase),
        "local" => Some(Call::Local(index_at(words, 0))),
        "address" => Some(Call::Address),
        "label" => Some(Call::Label),
        "relabelled" => Some(Call::Relabelled),
        "below" => Some(Call::Below),
        "scanning" => Some(Call::Scanning),
        _ => change_of(name, words),
    }
}

// A call that changes the frames.
fn change_of(name: &str, words: &str) -> Option<Call> {
    match name {
        "set" => Some(Call::SetLocal(index_at(words, 0), integer_at(words, 1))),
        "go" => Some(Call::Go(number_at(words, 0))),
        "push" => Some(Call::Push(integer_at(words, 0))),
        "pop" => Some(Call::Pop),
        "enter" => Some(Call::Enter(number_at(words, 0))),
        "leave" => Some(Call::Leave),
        "resume" => Some(Call::Resume),
        "suspend" => suspension(words),
        "oldest" => Some(Call::Swap(true, index_at(words, 0))),
        "newest" => Some(Call::Swap(false, index_at(words, 0))),
        _ => change_of_mark(name, words),
    }
}

// A call that changes marks.
fn change_of_mark(name: &str, words: &str) -> Option<Call> {
    match name {
        "mark" => Some(Call::Mark(written_number(words, 0), None)),
        "limit" => Some(Call::Mark(None, Some(index_at(words, 0)))),
        "relabel" => Some(Call::Relabel(number_at(words, 0))),
        "countdown" => Some(Call::CountDown),
        "unmark" => Some(Call::Unmark),
        _ => None,
    }
}

// A suspension, with what it gives, if it gives something.
fn suspension(words: &str) -> Option<Call> {
    let given = match written_number(words, 1) {
        Some(n) => Some(i64::from(n)),
        None => None,
    };
    match word_at(words, 0) {
        "alt" => Some(Call::Suspend(Why::Alt, given)),
        "count" => Some(Call::Suspend(Why::Op(COUNTING), given)),
        "lines" => Some(Call::Suspend(Why::Op(Residual::FileLines { file: File::Input }), given)),
        "scan" => Some(Call::Suspend(Why::Scan(pair(index_at(words, 1))), None)),
        "escan" => Some(Call::Suspend(Why::Escan, given)),
        "proc" => Some(Call::Suspend(Why::Proc, given)),
        _ => None,
    }
}

/// The pair of a scan of the empty text, known by its position.
pub fn pair(position: u64) -> Pair {
    Pair {
        subject: Span { start: 0, len: 0 },
        position,
    }
}
