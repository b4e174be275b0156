// What calls come to, as text.
use icn_host::{Fault, LineEnd, ReadFailure};
use std::alloc::AllocError;

/// Appends that a call was made, or its fault. `AllocError` is want of memory.
pub fn push_done(text: &mut String, done: Result<(), Fault>) -> Result<(), AllocError> {
    match done {
        Ok(()) => text.push_str("done"),
        Err(fault) => push_fault(text, fault),
    }
}

/// Appends how many bytes were taken, or the fault. `AllocError` is want of memory.
pub fn push_count(text: &mut String, count: Result<u64, Fault>) -> Result<(), AllocError> {
    match count {
        Ok(count) => write!(text, "{count}"),
        Err(fault) => push_fault(text, fault),
    }
}

/// Appends how a line ended, or the fault. `AllocError` is want of memory.
pub fn push_line_end(text: &mut String, end: Result<LineEnd, Fault>) -> Result<(), AllocError> {
    match end {
        Ok(LineEnd::Whole) => text.push_str("whole"),
        Ok(LineEnd::Last) => text.push_str("last"),
        Ok(LineEnd::End) => text.push_str("end"),
        Err(fault) => push_fault(text, fault),
    }
}

/// Appends that a file was read, or why it was not. `AllocError` is want of memory.
pub fn push_read(text: &mut String, read: Result<(), ReadFailure>) -> Result<(), AllocError> {
    match read {
        Ok(()) => text.push_str("read"),
        Err(ReadFailure::NotThere) => text.push_str("not there"),
        Err(ReadFailure::Failed) => text.push_str("failed"),
        Err(ReadFailure::NoMemory) => text.push_str("no memory"),
    }
}

fn push_fault(text: &mut String, fault: Fault) -> Result<(), AllocError> {
    match fault {
        Fault::Failed => text.push_str("failed"),
        Fault::NoMemory => text.push_str("no memory"),
    }
}

/// Appends a line with what an object holds. `AllocError` is want of memory.
pub fn push_held(text: &mut String, name: &str, bytes: &[u8]) -> Result<(), AllocError> {
    write!(text, "\n  {name}:")?;
    push_bytes(text, bytes)
}

/// Appends a blank and bytes in quotes, with a pilcrow as a newline. `AllocError` is want of memory.
pub fn push_bytes(text: &mut String, bytes: &[u8]) -> Result<(), AllocError> {
    text.push_str(" \"")?;
    for byte in bytes {
        text.push(if *byte == b'\n' {
            '¶'
        } else {
            char::from(*byte)
        })?;
    }
    text.push('"')
}

/// Appends the lines of an object that is sure, and those of one over memory, if they differ. `AllocError` is want of memory.
pub fn push_both(text: &mut String, sure: &str, other: &str) -> Result<(), AllocError> {
    text.push_str(sure)?;
    if sure == other {
        return Ok(());
    }
    text.push_str("\ndiffers")?;
    text.push_str(other)
}
