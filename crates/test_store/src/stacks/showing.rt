// Answers of frames, as text.
use crate::stacks::frames::CallResult;
use icn_frames::Why;
use icn_value::Residual;
use std::alloc::AllocError;

/// Appends an answer. `AllocError` is want of memory.
pub fn push_answer(text: &mut String, answer: CallResult) -> Result<(), AllocError> {
    match answer {
        CallResult::Done => text.push_str(" done"),
        CallResult::Not => text.push_str(" not made"),
        CallResult::Is(is) => text.push_str(if is { " yes" } else { " no" }),
        CallResult::Number(n) => write!(text, " {n}"),
        CallResult::Value(n) => write!(text, " {n}"),
        CallResult::Label(label) => push_label(text, label),
        CallResult::Why(Some(why)) => push_why(text, why),
        CallResult::Why(None) => text.push_str(" none"),
        CallResult::Scan(Some(position)) => write!(text, " scan {position}"),
        CallResult::Scan(None) => text.push_str(" no scan"),
    }
}

/// Appends a label, or that there is none. `AllocError` is want of memory.
pub fn push_label(text: &mut String, label: Option<u32>) -> Result<(), AllocError> {
    match label {
        Some(label) => write!(text, " L{label}"),
        None => text.push_str(" no label"),
    }
}

// Appends why something was suspended, a scan by the place and the length of its text and the position.
fn push_why(text: &mut String, why: Why) -> Result<(), AllocError> {
    match why {
        Why::Alt => text.push_str(" alt"),
        Why::Op(residual) => push_residual(text, residual),
        Why::Scan(pair) => {
            let start = pair.subject.start;
            let len = pair.subject.len;
            let position = pair.position;
            write!(text, " scan {start} {len} {position}")
        }
        Why::Escan => text.push_str(" escan"),
        Why::Proc => text.push_str(" proc"),
    }
}

// Appends what is kept of an operation, of those that the cases suspend.
fn push_residual(text: &mut String, residual: Residual) -> Result<(), AllocError> {
    match residual {
        Residual::Counting { given, last, step } => { write!(text, " count {given} {last} {step}") }
        Residual::FileLines { .. } => text.push_str(" lines"),
        _ => text.push_str(" another"),
    }
}
