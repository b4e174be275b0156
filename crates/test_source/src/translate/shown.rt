// Code as text: names, and behind a bar the instructions as lines of ucode, with commas between them.
use icn_unit::{NameKind, ProcCode, UnitInstr, UnitName};
use std::alloc::{AllocError, Global};
use std::fmt::Write;

/// The text of a procedure's code. `AllocError` is want of memory.
pub fn show_code(alloc: Global, code: &ProcCode) -> Result<String, AllocError> {
    let mut out = String::new(alloc);
    for name in &code.names {
        put_name(&mut out, name)?;
    }
    out.push_str("|")?;
    for (place, instr) in code.instrs.iter().enumerate() {
        out.push_str(if place == 0 { " " } else { ", " })?;
        put_instr(&mut out, instr)?;
    }
    Ok(out)
}

fn put_name(out: &mut String, entry: &UnitName) -> Result<(), AllocError> {
    let kind = match entry.kind {
        NameKind::Parameter => "p ",
        NameKind::Local => "l ",
        NameKind::Static => "s ",
        NameKind::Undeclared => "u ",
    };
    out.push_str(kind)?;
    put_text(out, entry.name.as_slice())?;
    out.push_str(" ")
}

fn put_text(out: &mut String, bytes: &[u8]) -> Result<(), AllocError> {
    for byte in bytes {
        out.push(char::from(*byte))?;
    }
    Ok(())
}

fn put_hexadecimal(out: &mut String, word: &str, bytes: &[u8]) -> Result<(), AllocError> {
    out.push_str(word)?;
    if bytes.is_empty() {
        return out.push_str("-");
    }
    for byte in bytes {
        put_digits(out, *byte)?;
    }
    Ok(())
}

fn put_digits(out: &mut String, byte: u8) -> Result<(), AllocError> {
    write!(out, "{byte:02x}")
}

fn put_field(out: &mut String, name: &[u8]) -> Result<(), AllocError> {
    out.push_str("field ")?;
    put_text(out, name)
}

fn put_instr(out: &mut String, instr: &UnitInstr) -> Result<(), AllocError> {
    match instr {
        UnitInstr::Int(n) => write!(out, "int {n}"),
        UnitInstr::Str(bytes) => put_hexadecimal(out, "str ", bytes.as_slice()),
        UnitInstr::Cset(members) => put_hexadecimal(out, "cset ", members.as_slice()),
        UnitInstr::Var(k) => write!(out, "var {k}"),
        UnitInstr::Keywd(keyword) => put_keyword(out, keyword.name()),
        UnitInstr::Op(op) => {
            let number = *op as u8;
            write!(out, "op {number}")
        }
        UnitInstr::Llist(n) => write!(out, "llist {n}"),
        UnitInstr::Field(name) => put_field(out, name.as_slice()),
        UnitInstr::Invoke(n) => write!(out, "invoke {n}"),
        UnitInstr::Mark(l) => write!(out, "mark L{l}"),
        UnitInstr::Chfail(l) => write!(out, "chfail L{l}"),
        UnitInstr::Goto(l) => write!(out, "goto L{l}"),
        UnitInstr::Loop(l) => write!(out, "loop L{l}"),
        UnitInstr::Init(l) => write!(out, "init L{l}"),
        UnitInstr::Create(l) => write!(out, "create L{l}"),
        UnitInstr::Lab(l) => write!(out, "lab L{l}"),
        UnitInstr::Pnull => out.push_str("pnull"),
        UnitInstr::Pop => out.push_str("pop"),
        UnitInstr::Dup => out.push_str("dup"),
        UnitInstr::Appl => out.push_str("appl"),
        UnitInstr::Mark0 => out.push_str("mark0"),
        UnitInstr::Unmark => out.push_str("unmark"),
        UnitInstr::Eret => out.push_str("eret"),
        UnitInstr::Esusp => out.push_str("esusp"),
        UnitInstr::Limit => out.push_str("limit"),
        UnitInstr::Lsusp => out.push_str("lsusp"),
        UnitInstr::Efail => out.push_str("efail"),
        UnitInstr::Bscan => out.push_str("bscan"),
        UnitInstr::Escan => out.push_str("escan"),
        UnitInstr::Ccase => out.push_str("ccase"),
        UnitInstr::Psusp => out.push_str("psusp"),
        UnitInstr::Pret => out.push_str("pret"),
        UnitInstr::Pfail => out.push_str("pfail"),
        UnitInstr::Coact => out.push_str("coact"),
        UnitInstr::Coret => out.push_str("coret"),
        UnitInstr::Cofail => out.push_str("cofail"),
    }
}

fn put_keyword(out: &mut String, name: &[u8]) -> Result<(), AllocError> {
    out.push_str("keywd ")?;
    put_text(out, name)
}
