// What comes of a command, as a line.
use crate::icont::notation::push_shown;
use icn_host::StoredFiles;
use icont_top::{Answer, Ending};
use std::alloc::{AllocError, Global};
use std::fmt::Write;

/// What a command answers, puts, leaves of the files and leaves of the input.
#[derive(Drop)]
pub struct Outcome {
    pub answer: Answer,
    pub output: Vec<u8>,
    pub errors: Vec<u8>,
    pub files: StoredFiles,
    pub left: Vec<u8>,
}

/// What a case had before a command: its files, its input, and a long output that it tells of the command.
#[derive(Clone, Copy)]
pub struct CommandSetting<'a> {
    pub files: &'a StoredFiles,
    pub input: &'a [u8],
    pub told: &'a [u8],
}

/// The answer with its status, and what was put and written. The error is want of memory.
pub fn shown_outcome(
    alloc: Global,
    outcome: &Outcome,
    setting: CommandSetting,
) -> Result<String, AllocError> {
    let name = name_of(&outcome.answer);
    let status = outcome.answer.code();
    let mut shown = format!(in alloc; "{name} {status}")?;
    if !setting.told.is_empty() && outcome.output.as_slice() == setting.told {
        shown.push_str("; output as told")?;
    } else {
        push_part(&mut shown, "; output ", &outcome.output)?;
    }
    push_part(&mut shown, "; errors ", &outcome.errors)?;
    push_written(&mut shown, setting.files, &outcome.files)?;
    if outcome.left.as_slice() != setting.input {
        push_left(&mut shown, &outcome.left)?;
    }
    Ok(shown)
}

/// The name of an answer.
pub fn name_of(answer: &Answer) -> &'static str {
    match answer {
        Answer::Wrote => "Wrote",
        Answer::Ran(Ending::Done) => "Ran(Done)",
        Answer::Ran(Ending::Exit(_)) => "Ran(Exit)",
        Answer::Ran(Ending::Errored(_)) => "Ran(Errored)",
        Answer::Ran(Ending::AtBound) => "Ran(AtBound)",
        Answer::Refused { .. } => "Refused",
        Answer::Command(_) => "Command",
        Answer::Missing(_) => "Missing",
        Answer::BadUcode { .. } => "BadUcode",
        Answer::BadImage(_) => "BadImage",
        Answer::FileFault => "FileFault",
        Answer::ReadFault => "ReadFault",
        Answer::WriteFault => "WriteFault",
        Answer::NoMemory => "NoMemory",
    }
}

// Bytes behind a word, if there are any.
fn push_part(shown: &mut String, word: &str, bytes: &[u8]) -> Result<(), AllocError> {
    if bytes.is_empty() {
        return Ok(());
    }
    shown.push_str(word)?;
    push_shown(shown, bytes)
}

// The names of the files that hold other bytes than before, or were not there.
fn push_written(
    shown: &mut String,
    before: &StoredFiles,
    after: &StoredFiles,
) -> Result<(), AllocError> {
    for (name, bytes) in after.iter() {
        let is_same = match before.get(name.as_str()) {
            Some(held) => held.as_slice() == bytes.as_slice(),
            None => false,
        };
        if !is_same {
            write!(shown, "; wrote {name}")?;
        }
    }
    Ok(())
}

// What is left of an input of which something was taken.
fn push_left(shown: &mut String, left: &[u8]) -> Result<(), AllocError> {
    if left.is_empty() {
        return shown.push_str("; left nothing");
    }
    push_part(shown, "; left ", left)
}
