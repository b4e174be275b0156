// What an image holds, as text.
use icn_code::Code;
use icn_value::Cset;
use std::alloc::{AllocError, Global};
use std::fmt::Write;

/// The tables of a code and its instructions. The error is want of memory.
pub fn code_listing(alloc: Global, code: &Code) -> Result<String, AllocError> {
    let mut text = String::new(alloc);
    push_tables(&mut text, code)?;
    push_globals(&mut text, code)?;
    push_procs(&mut text, code)?;
    Ok(text)
}

fn push_tables(text: &mut String, code: &Code) -> Result<(), AllocError> {
    text.push_str("strings")?;
    for string in &code.strings {
        text.push_str(" ")?;
        for byte in string.as_slice() {
            if byte.is_ascii_graphic() {
                text.push(char::from(*byte))?;
            } else {
                write!(text, "({byte})")?;
            }
        }
    }
    text.push_str(", csets")?;
    for cset in &code.csets {
        push_cset(text, cset)?;
    }
    text.push_str(", integers")?;
    for n in &code.integers {
        write!(text, " {n}")?;
    }
    text.push_str(", fields")?;
    for name in &code.fields {
        write!(text, " {name}")?;
    }
    Ok(())
}

// How many members there are, and the least and the greatest one.
fn push_cset(text: &mut String, cset: &Cset) -> Result<(), AllocError> {
    let mut count = 0u32;
    let mut least = None;
    let mut greatest = None;
    for byte in 0..=u8::MAX {
        if cset.has(byte) {
            count = count.saturating_add(1);
            least = least.or(Some(byte));
            greatest = Some(byte);
        }
    }
    match (least, greatest) {
        (Some(least), Some(greatest)) => write!(text, " {count}({least}..{greatest})"),
        _ => text.push_str(" 0"),
    }
}

fn push_globals(text: &mut String, code: &Code) -> Result<(), AllocError> {
    for kind in &code.records {
        let name = kind.name;
        write!(text, ", record {name}:")?;
        for field in &kind.fields {
            write!(text, " {field}")?;
        }
    }
    for global in &code.globals {
        let name = global.name;
        let start = &global.start;
        write!(text, ", global {name} {start:?}")?;
    }
    Ok(())
}

fn push_procs(text: &mut String, code: &Code) -> Result<(), AllocError> {
    for proc in &code.procs {
        let name = proc.name;
        let parameters = proc.parameters;
        let collects = proc.collects;
        let locals = proc.locals;
        let statics = proc.statics;
        write!(
            text,
            ", procedure {name} {parameters} {collects} {locals} {statics}:"
        )?;
        for instr in &proc.instrs {
            write!(text, " {instr:?}")?;
        }
    }
    Ok(())
}
