// What comes of a command, as a line.
use icn_host::StoredFiles;
use iconx_top::Answer;
use std::alloc::{AllocError, Global};
use std::fmt::Write;

/// What a command answers, puts, leaves of the files and leaves of the input.
#[derive(Drop)]
pub struct CommandResult {
    pub answer: Answer,
    pub output: Vec<u8>,
    pub errors: Vec<u8>,
    pub files: StoredFiles,
    pub left: Vec<u8>,
}

/// The answer with its status, what was put and written, and what is left of this input, if it was read. The error is want of
/// memory.
pub fn shown_outcome(
    alloc: Global,
    outcome: &CommandResult,
    files: &StoredFiles,
    lines: &str,
) -> Result<String, AllocError> {
    let mut shown = String::new(alloc);
    push_answer(&mut shown, &outcome.answer)?;
    let status = outcome.answer.code();
    write!(&mut shown, " {status}")?;
    push_part(alloc, &mut shown, "; output ", &outcome.output)?;
    push_part(alloc, &mut shown, "; errors ", &outcome.errors)?;
    push_written(&mut shown, files, &outcome.files)?;
    if outcome.left.as_slice() != lines.as_bytes() {
        push_left(alloc, &mut shown, &outcome.left)?;
    }
    Ok(shown)
}

/// Whether no output was put, each file holds what it held, and this input is all there. The error is want of memory.
pub fn is_untouched(
    alloc: Global,
    outcome: &CommandResult,
    files: &StoredFiles,
    lines: &str,
) -> Result<bool, AllocError> {
    let mut written = String::new(alloc);
    push_written(&mut written, files, &outcome.files)?;
    Ok(
        written.is_empty()
            && outcome.output.is_empty()
            && outcome.left.as_slice() == lines.as_bytes(),
    )
}

/// The name of an answer, with the ending, the number or the rule that it tells. The error is want of memory.
pub fn push_answer(shown: &mut String, answer: &Answer) -> Result<(), AllocError> {
    match answer {
        Answer::Wrote => shown.push_str("Wrote"),
        Answer::Ran(ending) => write!(shown, "Ran({ending:?})"),
        Answer::Refused { .. } => shown.push_str("Refused"),
        Answer::Command(kind) => write!(shown, "Command({kind})"),
        Answer::Missing(_) => shown.push_str("Missing"),
        Answer::BadUcode { .. } => shown.push_str("BadUcode"),
        Answer::BadImage(rule) => write!(shown, "BadImage({rule:?})"),
        Answer::FileFault => shown.push_str("FileFault"),
        Answer::ReadFault => shown.push_str("ReadFault"),
        Answer::WriteFault => shown.push_str("WriteFault"),
        Answer::NoMemory => shown.push_str("NoMemory"),
    }
}

// Bytes behind a word, with pilcrows for the ends of lines, if there are any.
fn push_part(
    alloc: Global,
    shown: &mut String,
    word: &str,
    bytes: &[u8],
) -> Result<(), AllocError> {
    if bytes.is_empty() {
        return Ok(());
    }
    let text = String::from_utf8_lossy(alloc, bytes)?;
    shown.push_str(word)?;
    shown.push_str(&text.replace(alloc, "\n", "¶")?)
}

// The names of the files that hold other bytes than before, or were not there.
fn push_written(
    shown: &mut String,
    before: &StoredFiles,
    after: &StoredFiles,
) -> Result<(), AllocError> {
    for (name, bytes) in after.iter() {
        let is_same = match before.get(name.as_str()) {
            Some(held) => held.as_slice() == bytes.as_slice(),
            None => false,
        };
        if !is_same {
            write!(shown, "; wrote {name}")?;
        }
    }
    Ok(())
}

// What is left of an input of which something was taken.
fn push_left(alloc: Global, shown: &mut String, left: &[u8]) -> Result<(), AllocError> {
    if left.is_empty() {
        return shown.push_str("; left nothing");
    }
    push_part(alloc, shown, "; left ", left)
}
