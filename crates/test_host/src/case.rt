// A case: the object, and its calls.
use crate::disk::{push_disk, push_from_file, push_small, push_to_file};
use crate::files::push_files;
use crate::readers::{push_reader, push_repeated};
use crate::reading::reading_text;
use crate::sinks::push_sinks;
use crate::sources::push_sources;
use crate::words::number_at;
use crate::writers::{push_many, push_writer};
use std::alloc::{AllocError, Global};
use std::{io, rt};

/// What a case is of, and its calls with what comes of each, a line for each. An `Err` is want of memory, or an error of the system beside
/// the calls of a case.
pub fn case_text<R: rt::Files + AllocGlobal + Clone + Drop>(
    runtime: &R,
    line: &str,
) -> io::Result<String> {
    let alloc = runtime.alloc();
    let (object, calls) = line.split_once(";").unwrap_or((line, ""));
    let (name, words) = object.split_once(" ").unwrap_or((object, ""));
    if name == "icont" {
        return command_text(alloc, line);
    }
    let mut text = String::from_str(alloc, object)?;
    match name {
        "disk" => push_disk(runtime, &mut text, calls)?,
        "small" => push_small(runtime, &mut text, words)?,
        "to" => push_to_file(runtime, &mut text, words, calls)?,
        "from" => push_from_file(runtime, &mut text, words, calls)?,
        _ => push_memory(alloc, &mut text, name, words, calls)?,
    }
    Ok(text)
}

// A command, and what its words come to.
fn command_text(alloc: Global, line: &str) -> io::Result<String> {
    let mut text = String::from_str(alloc, line)?;
    text.push_str(" -> ")?;
    text.push_str(&reading_text(alloc, line)?)?;
    Ok(text)
}

// The calls on an object over memory, or over a reader or writer that is slow or broken.
fn push_memory(
    alloc: Global,
    text: &mut String,
    name: &str,
    words: &str,
    calls: &str,
) -> Result<(), AllocError> {
    match name {
        "sink" => push_sinks(alloc, text, words, calls),
        "source" => push_sources(alloc, text, words, calls),
        "files" => push_files(alloc, text, words, calls),
        "reader" => push_reader(alloc, text, words, calls),
        "writer" => push_writer(alloc, text, words, calls),
        "repeated" => push_repeated(alloc, text, u64::from(number_at(words, 0))),
        "many" => push_many(alloc, text, number_at(words, 0), number_at(words, 1)),
        _ => text.push_str(" -> no case"),
    }
}
