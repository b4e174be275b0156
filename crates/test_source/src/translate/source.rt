// The code of a case.
use crate::translate::shown::show_code;
use icn_host::SureFiles;
use icn_lex::tokens;
use icn_parse::parse;
use icn_prep::preprocess;
use icn_translate::proc_codes;
use icn_tree::Lines;
use icn_unit::ProcCode;
use std::alloc::{AllocError, Global};
use std::collections::BTreeMap;

// The text of a case: a pilcrow is the end of a line, and what is no procedure is the body of `main`.
fn text(alloc: Global, case: &[u8]) -> Result<Vec<u8>, AllocError> {
    let mut text = Vec::new(alloc);
    let whole = case.starts_with(b"procedure");
    if !whole {
        text.extend_from_slice(b"procedure main()\n")?;
    }
    for byte in case {
        put_byte(&mut text, *byte)?;
    }
    if !whole {
        text.extend_from_slice(b"\nend\n")?;
    }
    Ok(text)
}

// A pilcrow is two bytes, of which the first is left out.
fn put_byte(text: &mut Vec<u8>, byte: u8) -> Result<(), AllocError> {
    match byte {
        0xc2 => Ok(()),
        0xb6 => Ok(text.push(b'\n')?),
        other => Ok(text.push(other)?),
    }
}

fn lines(alloc: Global, case: &[u8]) -> Result<Option<Lines>, AllocError> {
    let mut files = BTreeMap::new(alloc);
    files.insert(String::from_str(alloc, "f.icn")?, text(alloc, case)?)?;
    Ok(preprocess(alloc, "f.icn", &mut SureFiles::new(alloc, files)).ok())
}

/// The code of the first procedure of a case, or why there is none. `AllocError` is want of memory.
pub fn code(alloc: Global, case: &[u8]) -> Result<String, AllocError> {
    match lines(alloc, case)? {
        Some(lines) => code_of_lines(alloc, &lines),
        None => String::from_str(alloc, "no lines"),
    }
}

fn code_of_lines(alloc: Global, lines: &Lines) -> Result<String, AllocError> {
    let tokens = match tokens(alloc, lines) {
        Ok(tokens) => tokens,
        Err(_) => return String::from_str(alloc, "no tokens"),
    };
    match parse(alloc, "f.icn", &tokens) {
        Ok(file) => first_code(alloc, &proc_codes(alloc, &file.decls)?),
        Err(_) => String::from_str(alloc, "no tree"),
    }
}

fn first_code(alloc: Global, codes: &[ProcCode]) -> Result<String, AllocError> {
    match codes.first() {
        Some(code) => show_code(alloc, code),
        None => String::from_str(alloc, "no procedure"),
    }
}
