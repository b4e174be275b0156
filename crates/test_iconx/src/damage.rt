// Images that are cut or spoiled, each as the only file.
use crate::command::run;
use crate::failing::FailedCalls;
use crate::outcome::{CommandResult, is_untouched, push_answer};
use icn_host::StoredFiles;
use iconx_top::Answer;
use std::alloc::{AllocError, Global};
use std::collections::BTreeMap;
use std::fmt::Write;

// The input of each run.
const LINES: &str = "input\n";

/// What each front of the bytes that is not all of them is answered with, by its length, where that changes. The error is want of
/// memory.
pub fn shown_cuts(alloc: Global, bytes: &[u8]) -> Result<String, AllocError> {
    let mut shown = String::new(alloc);
    let mut last = String::new(alloc);
    for len in 0..bytes.len() {
        let files = only_file(alloc, &bytes[..len])?;
        let outcome = run_image(alloc, &files)?;
        let mut now = String::new(alloc);
        push_answer(&mut now, &outcome.answer)?;
        if !is_untouched(alloc, &outcome, &files, LINES)? {
            now.push_str(" touched")?;
        }
        if now != last {
            write!(&mut shown, " {len}:{now}")?;
        }
        last = now;
    }
    Ok(shown)
}

/// Whether each image with one byte set to 255 runs, or is answered as a bad image and changes nothing; or else the first place of
/// that byte where neither is so. The error is want of memory.
pub fn shown_spoiled(alloc: Global, bytes: &[u8]) -> Result<String, AllocError> {
    for place in 0..bytes.len() {
        let mut spoiled = Vec::from_slice(alloc, bytes)?;
        if let Some(byte) = spoiled.get_mut(place) {
            *byte = 255;
        }
        let files = only_file(alloc, &spoiled)?;
        let outcome = run_image(alloc, &files)?;
        if !is_sound(alloc, &outcome, &files)? {
            return format!(in alloc; "otherwise at {place}");
        }
    }
    let count = bytes.len();
    format!(in alloc; "{count} images run or are refused")
}

// Whether an image runs, or is a bad one and nothing was done with it.
fn is_sound(
    alloc: Global,
    outcome: &CommandResult,
    files: &StoredFiles,
) -> Result<bool, AllocError> {
    match &outcome.answer {
        Answer::Ran(_) => Ok(true),
        Answer::BadImage(_) => is_untouched(alloc, outcome, files, LINES),
        Answer::Wrote
        | Answer::Refused { .. }
        | Answer::Command(_)
        | Answer::Missing(_)
        | Answer::BadUcode { .. }
        | Answer::FileFault
        | Answer::ReadFault
        | Answer::WriteFault
        | Answer::NoMemory => Ok(false),
    }
}

// Files of which `image` is the only one.
fn only_file(alloc: Global, bytes: &[u8]) -> Result<StoredFiles, AllocError> {
    let mut files = BTreeMap::new(alloc);
    files.insert(
        String::from_str(alloc, "image")?,
        Vec::from_slice(alloc, bytes)?,
    )?;
    Ok(files)
}

fn run_image(alloc: Global, files: &StoredFiles) -> Result<CommandResult, AllocError> {
    run(alloc, "iconx image", files, LINES, &FailedCalls::new(alloc))
}
