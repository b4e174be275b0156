// Cases of frames.
use crate::stacks::calls::call_of;
use crate::stacks::frames::answer_of;
use crate::stacks::nesting::push_nested;
use crate::stacks::showing::push_answer;
use crate::stacks::words::number_at;
use icn_frames::{Cell, Frames, Stack};
use icn_value::Val;
use std::alloc::{AllocError, Global};

/// Makes the calls on frames of a procedure 7 with the locals 10 and 20, which runs from the address 100 on, and appends a line for
/// each with its answer. `AllocError` is want of memory.
pub fn push_frame_calls<K: Stack<Cell> + Drop>(
    alloc: Global,
    text: &mut String,
    calls: &str,
) -> Result<(), AllocError> {
    let mut frames: Frames<K> = new_frames(alloc)?;
    for call in calls.split(';') {
        write!(text, "\n  {call} ->")?;
        push_call(text, &mut frames, call)?;
    }
    Ok(())
}

fn new_frames<K: Stack<Cell> + Drop>(alloc: Global) -> Result<Frames<K>, AllocError> {
    Frames::new(alloc, 7, &[Val::Integer(10), Val::Integer(20)], 100)
}

fn push_call<K: Stack<Cell> + Drop>(
    text: &mut String,
    frames: &mut Frames<K>,
    call: &str,
) -> Result<(), AllocError> {
    let (name, words) = call.split_once(" ").unwrap_or((call, ""));
    if name == "nest" {
        return push_nested(text, frames, number_at(words, 0));
    }
    match call_of(name, words) {
        Some(call) => {
            let answer = answer_of(frames, call)?;
            push_answer(text, answer)
        }
        None => text.push_str(" no call"),
    }
}
