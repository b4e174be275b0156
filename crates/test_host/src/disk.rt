// Calls of the real streams and files of the folder in which this runs.
use crate::files::push_file_call;
use crate::showing::{push_bytes, push_done, push_read};
use crate::sinks::push_puts;
use crate::small::SmallSystem;
use crate::sources::push_source_call;
use crate::words::{number_at, word_at};
use icn_host::{DiskFiles, Files, RuntimeFiles, Settling, StdSink, StdSource};
use std::alloc::{AllocError, Global};
use std::fs::Permissions;
use std::io::ErrorKind;
use std::os::unix::fs::{PermissionsExt, symlink};
use std::{fs, io, rt};

/// Makes the calls on the files of the folder, and appends a line for each. An `Err` is an error of a call that is made beside the store.
pub fn push_disk<R: rt::Files + AllocGlobal + Clone + Drop>(
    runtime: &R,
    text: &mut String,
    calls: &str,
) -> io::Result<()> {
    let mut files = DiskFiles::new(runtime.alloc(), RuntimeFiles::new(runtime));
    for call in calls.split(';') {
        write!(text, "\n  {call} -> ")?;
        let name = full_name(runtime.alloc(), word_at(call, 1))?;
        match word_at(call, 0) {
            "read" | "write" => push_file_call(runtime.alloc(), text, &mut files, &name, call)?,
            _ => push_beside(runtime, text, &name, call)?,
        }
    }
    Ok(())
}

// A call that is made beside the store, with its answer.
fn push_beside<R: rt::Files + AllocGlobal + Clone + Drop>(
    runtime: &R,
    text: &mut String,
    name: &str,
    call: &str,
) -> io::Result<()> {
    match word_at(call, 0) {
        "folder" => make_folder(runtime, name)?,
        "gone" => take_away(runtime, name)?,
        "permit" => {
            let mode = u32::from_str_radix(word_at(call, 2), 8).unwrap_or(0);
            fs::set_permissions(runtime, name, Permissions::from_mode(mode))?;
        }
        "link" => symlink(runtime, word_at(call, 2), name)?,
        _ => return push_seen(runtime, text, name, call),
    }
    text.push_str("done")?;
    Ok(())
}

// What is seen of a file or a folder beside the store.
fn push_seen<R: rt::Files + AllocGlobal + Clone + Drop>(
    runtime: &R,
    text: &mut String,
    name: &str,
    call: &str,
) -> io::Result<()> {
    match word_at(call, 0) {
        "mode" => {
            let mode = fs::metadata(runtime, name)?.permissions().mode() & 0o7777;
            write!(text, "{mode:o}")?;
        }
        "kind" => {
            let is_link = fs::symlink_metadata(runtime, name)?.is_symlink();
            text.push_str(if is_link { "link" } else { "no link" })?;
        }
        _ => {
            let count = names_in(runtime, name)?;
            write!(text, "{count}")?;
        }
    }
    Ok(())
}

// An empty folder, also where something had the name.
fn make_folder<R: rt::Files + AllocGlobal>(runtime: &R, name: &str) -> io::Result<()> {
    take_away(runtime, name)?;
    fs::create_dir(runtime, name)
}

// Takes away the file or the folder of a name, if there is one.
fn take_away<R: rt::Files + AllocGlobal>(runtime: &R, name: &str) -> io::Result<()> {
    if !fs::exists(runtime, name)? {
        return Ok(());
    }
    if fs::metadata(runtime, name)?.is_dir() {
        fs::remove_dir_all(runtime, name)
    } else {
        fs::remove_file(runtime, name)
    }
}

// How many names stand in a folder.
fn names_in<R: rt::Files + AllocGlobal + Clone + Drop>(
    runtime: &R,
    folder: &str,
) -> io::Result<usize> {
    let mut count = 0usize;
    for entry in fs::read_dir(runtime, folder)? {
        entry?;
        count = count.saturating_add(1);
    }
    Ok(count)
}

// The name that a word writes. A tilde is a byte 0; behind a star stands how often what is in front of it, up to a slash, is repeated.
fn full_name(alloc: Global, word: &str) -> Result<String, AllocError> {
    let Some((front, count)) = word.split_once("*") else {
        return word.replace(alloc, "~", "\0");
    };
    let mut name = String::new(alloc);
    let (folder, piece) = front.split_once("/").unwrap_or(("", front));
    if !folder.is_empty() {
        name.push_str(folder)?;
        name.push_str("/")?;
    }
    for _ in 0..count.parse::<u32>().unwrap_or(0) {
        name.push_str(piece)?;
    }
    Ok(name)
}

/// Makes the calls on a sink over a new file of this name, which stays. An `Err` is an error of the system, or want of memory.
pub fn push_to_file<R: rt::Files + AllocGlobal>(
    runtime: &R,
    text: &mut String,
    name: &str,
    calls: &str,
) -> io::Result<()> {
    take_away(runtime, name)?;
    let file = fs::create(runtime, name)?;
    let mut sink = StdSink::new(runtime.alloc(), file, Settling::WhenFull);
    push_puts(runtime.alloc(), text, &mut sink, calls)?;
    Ok(())
}

/// Makes the calls on a source over the file of this name, which is taken away then. An `Err` is an error of the system, or want of
/// memory.
pub fn push_from_file<R: rt::Files + AllocGlobal>(
    runtime: &R,
    text: &mut String,
    name: &str,
    calls: &str,
) -> io::Result<()> {
    let mut source = StdSource::new(fs::open(runtime, name)?);
    for call in calls.split(';') {
        push_source_call(runtime.alloc(), text, &mut source, call)?;
    }
    fs::remove_file(runtime, name)
}

fn refusal(word: &str) -> Option<ErrorKind> {
    match word {
        "full" => Some(ErrorKind::StorageFull),
        "denied" => Some(ErrorKind::PermissionDenied),
        "read-only" => Some(ErrorKind::ReadOnlyFilesystem),
        _ => None,
    }
}

/// Writes `whole` to a file that holds `old`, in a folder of its own, over a file system that takes so many bytes more and perhaps makes no
/// new file; and appends the answer, what the file holds then, and how many names the folder has. An `Err` is an error of the system, or
/// want of memory.
pub fn push_small<R: rt::Files + AllocGlobal + Clone + Drop>(
    runtime: &R,
    text: &mut String,
    words: &str,
) -> io::Result<()> {
    make_folder(runtime, "whole")?;
    fs::write(runtime, "whole/file", "old")?;
    let system = SmallSystem {
        system: RuntimeFiles::new(runtime),
        room: number_at(words, 0) as usize,
        refusal: refusal(word_at(words, 1)),
    };
    let mut files = DiskFiles::new(runtime.alloc(), system);
    text.push_str(" -> ")?;
    push_done(text, files.write("whole/file", b"whole"))?;
    let mut bytes = Vec::new(runtime.alloc());
    text.push_str(", ")?;
    push_read(text, files.read("whole/file", 9, &mut bytes))?;
    push_bytes(text, &bytes)?;
    let count = names_in(runtime, "whole")?;
    write!(text, ", names: {count}")?;
    fs::remove_dir_all(runtime, "whole")
}
