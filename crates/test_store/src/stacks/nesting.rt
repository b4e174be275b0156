// Frames that nest deep, and the way back.
use crate::stacks::calls::Call;
use crate::stacks::frames::{CallResult, answer_of, item};
use crate::stacks::showing::push_label;
use icn_frames::{Cell, Frames, Stack, Why};
use icn_value::{File, Residual};
use std::alloc::AllocError;

/// Puts as many marks as this, each above an operand; suspends as often, with a call each time; and goes all the way back. Appends
/// the innermost label, the level, how many procedures were left and how many operands were taken in the order in which they must
/// come, and whether only the frame is left as a mark. `AllocError` is want of memory.
pub fn push_nested<K: Stack<Cell> + Drop>(
    text: &mut String,
    frames: &mut Frames<K>,
    depth: u32,
) -> Result<(), AllocError> {
    put_marks(frames, depth)?;
    push_label(text, frames.label())?;
    enter_all(frames, depth)?;
    let level = frames.level();
    write!(text, ", level {level}")?;
    let left = leave_all(frames, depth)?;
    write!(text, ", {left} left")?;
    let taken = take_all(frames, depth)?;
    write!(text, ", {taken} taken")?;
    text.push_str(if frames.at_base() {
        ", at the base"
    } else {
        ", in a mark"
    })
}

fn put_marks<K: Stack<Cell> + Drop>(frames: &mut Frames<K>, depth: u32) -> Result<(), AllocError> {
    for label in 0..depth {
        frames.push(item(i64::from(label)))?;
        frames.mark(Some(label), None)?;
    }
    Ok(())
}

fn enter_all<K: Stack<Cell> + Drop>(frames: &mut Frames<K>, depth: u32) -> Result<(), AllocError> {
    for label in 0..depth {
        frames.suspend(Why::Op(Residual::FileLines { file: File::Input }), None)?;
        answer_of(frames, Call::Enter(label))?;
    }
    Ok(())
}

// Leaves so many procedures, and counts those of which each has the number one below the last.
fn leave_all<K: Stack<Cell> + Drop>(frames: &mut Frames<K>, depth: u32) -> Result<u32, AllocError> {
    let mut count = 0u32;
    for behind in 0..depth {
        let is_next = frames.proc() == nth_from_end(depth, behind);
        let answer = answer_of(frames, Call::Leave)?;
        if is_next && answer == CallResult::Done {
            count = count.saturating_add(1);
        }
    }
    Ok(count)
}

// Drops so many marks with the operand below each, and counts those of which each is one less than the last.
fn take_all<K: Stack<Cell> + Drop>(frames: &mut Frames<K>, depth: u32) -> Result<u32, AllocError> {
    let mut count = 0u32;
    for behind in 0..depth {
        let dropped = answer_of(frames, Call::Unmark)?;
        let taken = answer_of(frames, Call::Pop)?;
        let want = CallResult::Value(i64::from(nth_from_end(depth, behind)));
        if dropped == CallResult::Scan(None) && taken == want {
            count = count.saturating_add(1);
        }
    }
    Ok(count)
}

// The number that has so many behind it, of those from 0 on that are below `depth`.
fn nth_from_end(depth: u32, behind: u32) -> u32 {
    depth.saturating_sub(behind).saturating_sub(1)
}
