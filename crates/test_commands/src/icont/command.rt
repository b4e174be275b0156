// A command of either program.
use crate::icont::failing::{FailingCall, HandedObject, numbers_of};
use crate::icont::outcome::Outcome;
use icn_host::{Files, MemFiles, MemSink, MemSource, Sink, Source, StoredFiles};
use icont_top::{Answer, icont_main};
use iconx_top::iconx_main;
use std::alloc::{AllocError, Global};

/// What comes of a command over these files and this input, where these calls fail. The error is want of memory.
pub fn run(
    alloc: Global,
    command: &str,
    held: &StoredFiles,
    lines: &[u8],
    failing: &[FailingCall],
) -> Result<Outcome, AllocError> {
    let numbers = numbers_of(alloc, failing, HandedObject::Files)?;
    let mut files = MemFiles::new(alloc, held.clone()?, numbers);
    let numbers = numbers_of(alloc, failing, HandedObject::Input)?;
    let mut input = MemSource::new(lines.to_vec(alloc)?, numbers);
    let mut out = MemSink::new(
        Vec::new(alloc),
        numbers_of(alloc, failing, HandedObject::Output)?,
    );
    let mut err = MemSink::new(
        Vec::new(alloc),
        numbers_of(alloc, failing, HandedObject::Errors)?,
    );
    let answer = answer_to(alloc, command, &mut files, &mut input, &mut out, &mut err)?;
    Ok(Outcome {
        answer,
        output: out.content().to_vec(alloc)?,
        errors: err.content().to_vec(alloc)?,
        files: files.content().clone()?,
        left: input.content().to_vec(alloc)?,
    })
}

/// What the program that a command begins with answers over these objects. The error is want of memory for the words.
pub fn answer_to<F: Files, I: Source, O: Sink, E: Sink>(
    alloc: Global,
    command: &str,
    files: &mut F,
    input: &mut I,
    out: &mut O,
    err: &mut E,
) -> Result<Answer, AllocError> {
    let words = words_of(alloc, command)?;
    if command.starts_with("iconx") {
        Ok(iconx_main(alloc, &words, files, input, out, err))
    } else {
        Ok(icont_main(alloc, &words, files, input, out, err))
    }
}

// The words of a command, with a blank between two. Two apostrophes are an empty word.
fn words_of(alloc: Global, command: &str) -> Result<Vec<String>, AllocError> {
    let mut words = Vec::new(alloc);
    if command.is_empty() {
        return Ok(words);
    }
    for word in command.split(' ') {
        if word == "''" {
            words.push(String::new(alloc))?;
        } else {
            words.push(String::from_str(alloc, word)?)?;
        }
    }
    Ok(words)
}
