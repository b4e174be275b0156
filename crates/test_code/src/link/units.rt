// The units of a case.
use icn_ucode::{UcodeFault, Unit, read_unit};
use std::alloc::{AllocError, Global};
use std::fmt::Write;

/// The units of a case, or none where a text of one breaks a rule. The error is want of memory.
pub fn units(alloc: Global, case: &str) -> Result<Option<Vec<Unit>>, AllocError> {
    let mut units = Vec::new(alloc);
    for part in case.split(" + ") {
        match unit(alloc, part)? {
            Some(unit) => units.push(unit)?,
            None => return Ok(None),
        }
    }
    Ok(Some(units))
}

fn unit(alloc: Global, part: &str) -> Result<Option<Unit>, AllocError> {
    let (name, texts) = part.split_once(":").unwrap_or((part, ""));
    let (procs, decls) = texts.split_once("/").unwrap_or((texts, ""));
    let mut u1 = String::from_str(alloc, "U9.1\n")?;
    put_lines(&mut u1, procs)?;
    let mut u2 = String::from_str(alloc, "U9.2\n")?;
    put_lines(&mut u2, decls)?;
    u2.push_str("end\n")?;
    match read_unit(alloc, name, u1.as_bytes(), u2.as_bytes()) {
        Ok(unit) => Ok(Some(unit)),
        Err(UcodeFault::Broken { .. }) => Ok(None),
        Err(UcodeFault::NoMemory) => Err(AllocError),
    }
}

fn put_lines(text: &mut String, lines: &str) -> Result<(), AllocError> {
    for line in lines.split(",") {
        let line = line.trim();
        if !line.is_empty() {
            put_line(text, line)?;
        }
    }
    Ok(())
}

// A line, or as many as stand behind a star: in each another number stands there, from 0 on.
fn put_line(text: &mut String, line: &str) -> Result<(), AllocError> {
    match line.split_once("*") {
        Some((front, count)) => put_numbered(text, front, count.parse::<u32>().unwrap_or(0)),
        None => put_whole(text, line),
    }
}

fn put_whole(text: &mut String, line: &str) -> Result<(), AllocError> {
    text.push_str(line)?;
    text.push_str("\n")
}

fn put_numbered(text: &mut String, front: &str, count: u32) -> Result<(), AllocError> {
    for number in 0..count {
        text.push_str(front)?;
        put_number(text, front, number)?;
        text.push_str("\n")?;
    }
    Ok(())
}

// A number as what stands behind an instruction's word: of `cset` the places of its bits are the members.
fn put_number(text: &mut String, front: &str, number: u32) -> Result<(), AllocError> {
    match front {
        "str " => write!(text, "{number:08x}"),
        "cset " => put_members(text, number),
        _ => write!(text, "{number}"),
    }
}

fn put_members(text: &mut String, bits: u32) -> Result<(), AllocError> {
    if bits == 0 {
        return text.push_str("-");
    }
    for place in 0..32u32 {
        if (bits >> place) & 1 == 1 {
            write!(text, "{place:02x}")?;
        }
    }
    Ok(())
}
