// What a code holds, as text.
use icn_code::{Code, LinkedProcedure, LinkedRecord};
use icn_value::Cset;
use std::alloc::{AllocError, Global};
use std::fmt::Write;

/// The tables of a code that have entries, and its procedures, with bars between them. The error is want of memory.
pub fn code_listing(alloc: Global, code: &Code) -> Result<String, AllocError> {
    let mut text = String::new(alloc);
    put_strings(&mut text, code)?;
    put_csets(&mut text, &code.csets)?;
    put_integers(&mut text, &code.integers)?;
    put_fields(&mut text, &code.fields)?;
    put_records(&mut text, &code.records)?;
    put_globals(&mut text, code)?;
    put_procs(&mut text, &code.procs)?;
    Ok(text)
}

fn put_strings(text: &mut String, code: &Code) -> Result<(), AllocError> {
    text.push_str("strings")?;
    for string in &code.strings {
        text.push_str(" ")?;
        put_bytes(text, string.as_slice())?;
    }
    Ok(())
}

fn put_bytes(text: &mut String, bytes: &[u8]) -> Result<(), AllocError> {
    for byte in bytes {
        text.push(char::from(*byte))?;
    }
    Ok(())
}

fn put_csets(text: &mut String, csets: &[Cset]) -> Result<(), AllocError> {
    for cset in csets {
        text.push_str(" | cset")?;
        put_members(text, cset)?;
    }
    Ok(())
}

fn put_members(text: &mut String, cset: &Cset) -> Result<(), AllocError> {
    for byte in 0..=u8::MAX {
        if cset.has(byte) {
            write!(text, " {byte}")?;
        }
    }
    Ok(())
}

fn put_integers(text: &mut String, integers: &[i64]) -> Result<(), AllocError> {
    for n in integers {
        write!(text, " | integer {n}")?;
    }
    Ok(())
}

fn put_fields(text: &mut String, fields: &[u32]) -> Result<(), AllocError> {
    for name in fields {
        write!(text, " | field {name}")?;
    }
    Ok(())
}

fn put_records(text: &mut String, records: &[LinkedRecord]) -> Result<(), AllocError> {
    for kind in records {
        put_record(text, kind)?;
    }
    Ok(())
}

fn put_record(text: &mut String, kind: &LinkedRecord) -> Result<(), AllocError> {
    let name = kind.name;
    write!(text, " | record {name}:")?;
    for field in &kind.fields {
        write!(text, " {field}")?;
    }
    Ok(())
}

fn put_globals(text: &mut String, code: &Code) -> Result<(), AllocError> {
    for global in &code.globals {
        let name = global.name;
        let start = &global.start;
        write!(text, " | global {name} {start:?}")?;
    }
    Ok(())
}

fn put_procs(text: &mut String, procs: &[LinkedProcedure]) -> Result<(), AllocError> {
    for proc in procs {
        put_proc(text, proc)?;
    }
    Ok(())
}

// The name, the counts of parameters, other locals and statics, `+` where the last parameter collects, and the instructions.
fn put_proc(text: &mut String, proc: &LinkedProcedure) -> Result<(), AllocError> {
    let name = proc.name;
    let parameters = proc.parameters;
    let sign = if proc.collects { "+" } else { "" };
    let locals = proc.locals;
    let statics = proc.statics;
    write!(
        text,
        " | procedure {name} {parameters}{sign} {locals} {statics}:"
    )?;
    for instr in &proc.instrs {
        write!(text, " {instr:?}")?;
    }
    Ok(())
}
