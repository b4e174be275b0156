// Calls of a store of files.
use crate::showing::{push_both, push_bytes, push_done, push_held, push_read};
use crate::words::{failing_calls, text_at, word_at, written_number};
use icn_host::{Files, MemFiles, SureFiles};
use std::alloc::{AllocError, Global};
use std::collections::BTreeMap;

/// Makes the calls on a store without files: on one that is sure and on one over memory, or on one of which a call fails. How many files
/// there are, and what `host` holds, stand behind them. `AllocError` is want of memory.
pub fn push_files(
    alloc: Global,
    text: &mut String,
    words: &str,
    calls: &str,
) -> Result<(), AllocError> {
    let failing = written_number(words, 0);
    let other = memory_text(alloc, failing, calls)?;
    if failing.is_some() {
        return text.push_str(&other);
    }
    let sure = sure_text(alloc, calls)?;
    push_both(text, &sure, &other)
}

fn sure_text(alloc: Global, calls: &str) -> Result<String, AllocError> {
    let mut text = String::new(alloc);
    let mut files = SureFiles::new(alloc, BTreeMap::new(alloc));
    push_file_calls(alloc, &mut text, &mut files, calls)?;
    push_size(&mut text, files.content().len())?;
    if let Some(bytes) = files.content().get("host") {
        push_held(&mut text, "host", bytes.as_slice())?;
    }
    Ok(text)
}

fn memory_text(alloc: Global, failing: Option<u32>, calls: &str) -> Result<String, AllocError> {
    let mut text = String::new(alloc);
    let failing = failing_calls(alloc, failing)?;
    let mut files = MemFiles::new(alloc, BTreeMap::new(alloc), failing);
    push_file_calls(alloc, &mut text, &mut files, calls)?;
    push_size(&mut text, files.content().len())?;
    if let Some(bytes) = files.content().get("host") {
        push_held(&mut text, "host", bytes.as_slice())?;
    }
    Ok(text)
}

fn push_size(text: &mut String, count: usize) -> Result<(), AllocError> {
    write!(text, "\n  files: {count}")
}

fn push_file_calls<F: Files>(
    alloc: Global,
    text: &mut String,
    files: &mut F,
    calls: &str,
) -> Result<(), AllocError> {
    for call in calls.split(';') {
        write!(text, "\n  {call} -> ")?;
        push_file_call(alloc, text, files, word_at(call, 1), call)?;
    }
    Ok(())
}

/// Makes a call on the file of this name, and appends its answer and what was read. `AllocError` is want of memory.
pub fn push_file_call<F: Files>(
    alloc: Global,
    text: &mut String,
    files: &mut F,
    name: &str,
    call: &str,
) -> Result<(), AllocError> {
    if word_at(call, 0) == "read" {
        let mut bytes = Vec::new(alloc);
        let read = files.read(name, greatest_length(call), &mut bytes);
        push_read(text, read)?;
        push_bytes(text, &bytes)
    } else {
        let piece = text_at(alloc, call, 2)?;
        let done = files.write(name, piece.as_bytes());
        push_done(text, done)
    }
}

// The length up to which a call reads: that of its third word, or the greatest one.
fn greatest_length(call: &str) -> u64 {
    match written_number(call, 2) {
        Some(number) => u64::from(number),
        None => u64::MAX,
    }
}
