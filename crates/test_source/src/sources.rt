// What the preprocessor gives of files.
use crate::bytes::cut;
use crate::notation::{BETWEEN, push_shown};
use icn_host::{Files, MemFiles, SureFiles};
use icn_prep::{Lines, PrepFault, preprocess};
use std::alloc::{AllocError, Global};
use std::collections::BTreeMap;
use std::fmt::Write;

// The file `f` first. Each other begins with its name and a blank. Where there is no other, `g` is a file with one line.
fn files_of(alloc: Global, texts: &[u8]) -> Result<BTreeMap<String, Vec<u8>>, AllocError> {
    let mut files = BTreeMap::new(alloc);
    put(alloc, &mut files, b"g", b"G")?;
    for (i, text) in texts.split(|byte| *byte == BETWEEN).enumerate() {
        if i > 0 {
            let (name, text) = cut(text, b' ');
            put(alloc, &mut files, name, text)?;
        } else {
            put(alloc, &mut files, b"f", text)?;
        }
    }
    Ok(files)
}

fn put(
    alloc: Global,
    files: &mut BTreeMap<String, Vec<u8>>,
    name: &[u8],
    text: &[u8],
) -> Result<(), AllocError> {
    let name = String::from_utf8_lossy(alloc, name)?;
    let text = Vec::from_slice(alloc, text)?;
    files.insert(name, text)?;
    Ok(())
}

/// Each line of the file `f` as `NAME:NUMBER:BYTES`, or the rule that is broken as `NAME:NUMBER RULE`. `AllocError` is want
/// of memory.
pub fn lines(alloc: Global, texts: &[u8]) -> Result<String, AllocError> {
    listed_of(alloc, &mut SureFiles::new(alloc, files_of(alloc, texts)?))
}

/// The same, where one call of the store fails. The case begins with its number, from 0.
pub fn lines_with_failure(alloc: Global, case: &[u8]) -> Result<String, AllocError> {
    let (call, texts) = cut(case, b' ');
    let call = match call {
        [digit] => u64::from(digit.wrapping_sub(b'0')),
        _ => 0,
    };
    let files = files_of(alloc, texts)?;
    listed_of(
        alloc,
        &mut MemFiles::new(alloc, files, vec![in alloc; call]?),
    )
}

/// The same of a store without files. `AllocError` is want of memory.
pub fn absent(alloc: Global) -> Result<String, AllocError> {
    listed_of(alloc, &mut SureFiles::new(alloc, BTreeMap::new(alloc)))
}

/// How many lines the file `f` gives, or the rule that is broken. `AllocError` is want of memory.
pub fn count(alloc: Global, texts: &[u8]) -> Result<String, AllocError> {
    let mut files = SureFiles::new(alloc, files_of(alloc, texts)?);
    match preprocess(alloc, "f", &mut files) {
        Ok(lines) => {
            let count = lines.lines.len();
            format!(in alloc; "{count} lines")
        }
        Err(fault) => show_fault(alloc, &fault),
    }
}

fn listed_of<F: Files>(alloc: Global, files: &mut F) -> Result<String, AllocError> {
    match preprocess(alloc, "f", files) {
        Ok(lines) => list_lines(alloc, &lines),
        Err(fault) => show_fault(alloc, &fault),
    }
}

fn list_lines(alloc: Global, lines: &Lines) -> Result<String, AllocError> {
    let mut text = String::new(alloc);
    for line in &lines.lines {
        if let Some(name) = lines.names.get(line.file as usize) {
            push_shown(&mut text, name.as_slice())?;
        }
        let number = line.number;
        write!(&mut text, ":{number}:")?;
        push_shown(&mut text, line.bytes.as_slice())?;
        text.push_str("¶")?;
    }
    Ok(text)
}

fn show_fault(alloc: Global, fault: &PrepFault) -> Result<String, AllocError> {
    let mut text = String::new(alloc);
    match fault {
        PrepFault::Missing => text.push_str("missing")?,
        PrepFault::FileFault => text.push_str("file fault")?,
        PrepFault::NoMemory => return Err(AllocError),
        PrepFault::Broken { rule, file, line } => {
            push_shown(&mut text, file.as_slice())?;
            write!(&mut text, ":{line} ")?;
            push_shown(&mut text, rule.text())?;
        }
    }
    Ok(text)
}
