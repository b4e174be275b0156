// Calls of a sink.
use crate::showing::{push_both, push_done, push_held};
use crate::words::{failing_calls, text_at, word_at, written_number};
use icn_host::{Fault, MemSink, Sink, SureSink};
use std::alloc::{AllocError, Global};

/// Makes the calls on a sink that holds a text: on one that is sure and on one over memory, or on one of which a call fails.
/// `AllocError` is want of memory.
pub fn push_sinks(
    alloc: Global,
    text: &mut String,
    words: &str,
    calls: &str,
) -> Result<(), AllocError> {
    let start = text_at(alloc, words, 0)?;
    let failing = written_number(words, 1);
    let other = memory_text(alloc, &start, failing, calls)?;
    if failing.is_some() {
        return text.push_str(&other);
    }
    let sure = sure_text(alloc, &start, calls)?;
    push_both(text, &sure, &other)
}

fn sure_text(alloc: Global, start: &str, calls: &str) -> Result<String, AllocError> {
    let mut text = String::new(alloc);
    let mut sink = SureSink::new(start.as_bytes().to_vec(alloc)?);
    push_puts(alloc, &mut text, &mut sink, calls)?;
    push_held(&mut text, "content", sink.content())?;
    Ok(text)
}

fn memory_text(
    alloc: Global,
    start: &str,
    failing: Option<u32>,
    calls: &str,
) -> Result<String, AllocError> {
    let mut text = String::new(alloc);
    let mut sink = MemSink::new(
        start.as_bytes().to_vec(alloc)?,
        failing_calls(alloc, failing)?,
    );
    push_puts(alloc, &mut text, &mut sink, calls)?;
    push_held(&mut text, "content", sink.content())?;
    Ok(text)
}

/// Makes the calls on a sink, and appends a line for each. `AllocError` is want of memory.
pub fn push_puts<S: Sink>(
    alloc: Global,
    text: &mut String,
    sink: &mut S,
    calls: &str,
) -> Result<(), AllocError> {
    for call in calls.split(';') {
        write!(text, "\n  {call} -> ")?;
        let piece = text_at(alloc, call, 1)?;
        let done = put_or_flush(sink, word_at(call, 0), &piece);
        push_done(text, done)?;
    }
    Ok(())
}

fn put_or_flush<S: Sink>(sink: &mut S, name: &str, piece: &str) -> Result<(), Fault> {
    if name == "flush" {
        sink.flush()
    } else {
        sink.put(piece.as_bytes())
    }
}
