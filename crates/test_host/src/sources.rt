// Calls of a source.
use crate::showing::{push_both, push_bytes, push_count, push_line_end};
use crate::words::{failing_calls, number_at, text_at, word_at, written_number};
use icn_host::{MemSource, Source, SureSource};
use std::alloc::{AllocError, Global};

/// Makes the calls on a source that has a text: on one that is sure and on one over memory, or on one of which a call fails. What is
/// left stands behind each. `AllocError` is want of memory.
pub fn push_sources(
    alloc: Global,
    text: &mut String,
    words: &str,
    calls: &str,
) -> Result<(), AllocError> {
    let start = text_at(alloc, words, 0)?;
    let failing = written_number(words, 1);
    let other = memory_text(alloc, &start, failing, calls)?;
    if failing.is_some() {
        return text.push_str(&other);
    }
    let sure = sure_text(alloc, &start, calls)?;
    push_both(text, &sure, &other)
}

fn sure_text(alloc: Global, start: &str, calls: &str) -> Result<String, AllocError> {
    let mut text = String::new(alloc);
    let mut source = SureSource::new(start.as_bytes().to_vec(alloc)?);
    for call in calls.split(';') {
        push_source_call(alloc, &mut text, &mut source, call)?;
        push_left(&mut text, source.content())?;
    }
    Ok(text)
}

fn memory_text(
    alloc: Global,
    start: &str,
    failing: Option<u32>,
    calls: &str,
) -> Result<String, AllocError> {
    let mut text = String::new(alloc);
    let mut source = MemSource::new(
        start.as_bytes().to_vec(alloc)?,
        failing_calls(alloc, failing)?,
    );
    for call in calls.split(';') {
        push_source_call(alloc, &mut text, &mut source, call)?;
        push_left(&mut text, source.content())?;
    }
    Ok(text)
}

fn push_left(text: &mut String, bytes: &[u8]) -> Result<(), AllocError> {
    text.push_str(", left")?;
    push_bytes(text, bytes)
}

/// Makes a call on a source, and appends a line with its answer and what it appended. `AllocError` is want of memory.
pub fn push_source_call<S: Source>(
    alloc: Global,
    text: &mut String,
    source: &mut S,
    call: &str,
) -> Result<(), AllocError> {
    write!(text, "\n  {call} -> ")?;
    let mut bytes = Vec::new(alloc);
    push_answer(text, source, call, &mut bytes)?;
    push_bytes(text, &bytes)
}

fn push_answer<S: Source>(
    text: &mut String,
    source: &mut S,
    call: &str,
    bytes: &mut Vec<u8>,
) -> Result<(), AllocError> {
    if word_at(call, 0) == "take" {
        let count = source.take(u64::from(number_at(call, 1)), bytes);
        push_count(text, count)
    } else {
        let end = source.line(bytes);
        push_line_end(text, end)
    }
}
