// What calls read and write.
use crate::apply::showing::push_quoted;
use icn_host::{MemFiles, MemSink, MemSource};
use icn_iofn::HeldStreams;
use std::alloc::{AllocError, Global};
use std::collections::BTreeMap;
use test_values::number;

// Files, an input and two outputs in memory.
pub type TestStreams = HeldStreams<MemFiles, MemSource, MemSink, MemSink>;

/// No files, an input of these bytes and outputs on which nothing was put. A word says which of them fails, and at which call: the
/// files behind @, the input behind <, the output behind >, the error output behind !. `AllocError` is want of memory.
pub fn new_streams(alloc: Global, word: &str, input: &[u8]) -> Result<TestStreams, AllocError> {
    let bytes = Vec::from_slice(alloc, input)?;
    Ok(HeldStreams {
        files: MemFiles::new(
            alloc,
            BTreeMap::new(alloc),
            failing_calls(alloc, word, b'@')?,
        ),
        input: MemSource::new(bytes, failing_calls(alloc, word, b'<')?),
        output: MemSink::new(Vec::new(alloc), failing_calls(alloc, word, b'>')?),
        errors: MemSink::new(Vec::new(alloc), failing_calls(alloc, word, b'!')?),
        buffer: Vec::new(alloc),
    })
}

// The calls at which the object of this mark fails.
fn failing_calls(alloc: Global, word: &str, mark: u8) -> Result<Vec<u64>, AllocError> {
    let mut calls = Vec::new(alloc);
    if let Some((first, digits)) = word.as_bytes().split_first() {
        if *first == mark {
            calls.push(number(digits))?;
        }
    }
    Ok(calls)
}

/// Appends what is left of the input, and what was put on the output and on the error output. `AllocError` is want of memory.
pub fn push_streams(out: &mut String, streams: &TestStreams) -> Result<(), AllocError> {
    push_quoted(out, streams.input.content())?;
    out.push(' ')?;
    push_quoted(out, streams.output.content())?;
    out.push(' ')?;
    push_quoted(out, streams.errors.content())
}
