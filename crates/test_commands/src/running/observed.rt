// What is observed of a run.
use icn_defs::Ending;
use icn_frames::{Cell, Stack};
use icn_host::{MemSink, MemSource, SureFiles};
use icn_running::{RunFault, run};
use icn_value::Limits;
use icn_verify::Verified;
use std::alloc::{AllocError, Global};
use std::collections::BTreeMap;

// An object of the outside.
#[derive(Clone, Copy, PartialEq, Eq)]
pub enum Object {
    Input,
    Output,
    Errors,
}

/// What a run over stacks of one kind puts on its output and its error output, with a slash for the end of each line, and
/// how it ends, where this call of this object fails, if one does; and whether it ended by itself. The error is want of
/// memory.
pub fn observe_run<K: Stack<Cell> + Drop>(
    alloc: Global,
    code: &Verified,
    given: &str,
    failing: Option<(Object, u64)>,
) -> Result<(String, bool), AllocError> {
    let mut input = MemSource::new(
        given.as_bytes().to_vec(alloc)?,
        calls(alloc, failing, Object::Input)?,
    );
    let mut out = MemSink::new(Vec::new(alloc), calls(alloc, failing, Object::Output)?);
    let mut err = MemSink::new(Vec::new(alloc), calls(alloc, failing, Object::Errors)?);
    let mut files = SureFiles::new(alloc, BTreeMap::new(alloc));
    let words = Vec::new(alloc);
    let ended = run::<K, SureFiles, MemSource, MemSink, MemSink>(
        alloc,
        code,
        &words,
        Limits::standard(),
        &mut files,
        &mut input,
        &mut out,
        &mut err,
    );
    let output = slash_bytes(alloc, out.content())?;
    let errors = slash_bytes(alloc, err.content())?;
    let end = ending_text(alloc, ended)?;
    Ok((
        format!(in alloc; "{output}|{errors}| {end}")?,
        ended.is_ok(),
    ))
}

// The calls of an object that fail.
fn calls(
    alloc: Global,
    failing: Option<(Object, u64)>,
    object: Object,
) -> Result<Vec<u64>, AllocError> {
    let mut calls = Vec::new(alloc);
    if let Some((failed, number)) = failing
        && failed == object
    {
        calls.push(number)?;
    }
    Ok(calls)
}

fn slash_bytes(alloc: Global, bytes: &[u8]) -> Result<String, AllocError> {
    let text = String::from_utf8_lossy(alloc, bytes)?;
    text.replace(alloc, "\n", "/ ")
}

fn ending_text(alloc: Global, ended: Result<Ending, RunFault>) -> Result<String, AllocError> {
    match ended {
        Ok(Ending::Done) => String::from_str(alloc, "done"),
        Ok(Ending::Exit(status)) => format!(in alloc; "exit {status}"),
        Ok(Ending::Errored(number)) => format!(in alloc; "error {number}"),
        Ok(Ending::AtBound) => String::from_str(alloc, "at the bound"),
        Err(RunFault::ReadFault) => String::from_str(alloc, "read fault"),
        Err(RunFault::WriteFault) => String::from_str(alloc, "write fault"),
        Err(RunFault::FileFault) => String::from_str(alloc, "file fault"),
        Err(RunFault::NoMemory) => String::from_str(alloc, "no memory"),
    }
}
