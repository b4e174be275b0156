// A command of `iconx`.
use crate::failing::FailedCalls;
use crate::outcome::CommandResult;
use icn_host::{MemFiles, MemSink, MemSource, StoredFiles};
use iconx_top::iconx_main;
use std::alloc::{AllocError, Global};

/// What comes of a command over these files and this input, where these calls fail. The error is want of memory.
pub fn run(
    alloc: Global,
    command: &str,
    held: &StoredFiles,
    lines: &str,
    failing: &FailedCalls,
) -> Result<CommandResult, AllocError> {
    let words = words_of(alloc, command)?;
    let mut files = MemFiles::new(alloc, held.clone()?, failing.files.to_vec(alloc)?);
    let mut input = MemSource::new(
        lines.as_bytes().to_vec(alloc)?,
        failing.input.to_vec(alloc)?,
    );
    let mut out = MemSink::new(Vec::new(alloc), failing.output.to_vec(alloc)?);
    let mut err = MemSink::new(Vec::new(alloc), failing.errors.to_vec(alloc)?);
    let answer = iconx_main(alloc, &words, &mut files, &mut input, &mut out, &mut err);
    Ok(CommandResult {
        answer,
        output: out.content().to_vec(alloc)?,
        errors: err.content().to_vec(alloc)?,
        files: files.content().clone()?,
        left: input.content().to_vec(alloc)?,
    })
}

// The words of a command, with a blank between two. Two apostrophes are an empty word.
fn words_of(alloc: Global, command: &str) -> Result<Vec<String>, AllocError> {
    let mut words = Vec::new(alloc);
    for word in command.split(' ') {
        if word == "''" {
            words.push(String::new(alloc))?;
        } else {
            words.push(String::from_str(alloc, word)?)?;
        }
    }
    Ok(words)
}
