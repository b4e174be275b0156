// Writes units.
ghost use Rattle.std.specs.Prelude.{◌≡◌, ◌<◌, ◌^◌, ◌++◌, ◌∷◌, [], map, IfOk, OnOk};
ghost use Rattle.icn_unit.specs.PlainUnits.{Record, params_in};
ghost use Rattle.std.specs.Fmt.{decimal, signed_decimal};
ghost use Rattle.std.specs.List.{flat_map};
ghost use Rattle.icn_unit.specs.UnitViews.{decl_seen, proc_seen};
ghost use Rattle.icn_unit.specs.UnitTexts.{behind_blank, byte_text, bytes_text, decl_text, decls_text, head_text, hexadecimal_digit, instr_text, kind_text, label_text, name_text, operand_text, proc_text, procs_text};

use crate::instr_word::word_of;
use crate::unit::{NameKind, ProcCode, Unit, UnitDecl, UnitInstr, UnitName};
use icn_text::decimal;
use icn_tree::Bytes;
use std::alloc::{AllocError, Global};

/// The two texts of a unit.
#[derive(Debug, Drop)]
pub struct UnitText {
    /// Its procedures.
    pub u1: Vec<u8>,
    /// Its declarations.
    pub u2: Vec<u8>,
}

/// The texts of a unit. An error is want of memory.
pub fn write_unit(alloc: Global, unit: &Unit) -> Result<UnitText, AllocError>
    ensures procedures { IfOk result
        (λ text. text.u1.items ≡ procs_text (map proc_seen unit.now.procs.items)) }
    ensures declarations { IfOk result
        (λ text. text.u2.items ≡ decls_text (map decl_seen unit.now.decls.items)) }
{
    Ok(UnitText {
        u1: write_procs(alloc, &unit.procs)?,
        u2: write_decls(alloc, &unit.decls)?,
    })
}

fn write_procs(alloc: Global, procs: &[ProcCode]) -> Result<Vec<u8>, AllocError>
    ensures { IfOk result (λ text. text.items ≡ procs_text (map proc_seen procs.now)) }
{
    let mut text = Vec::from_slice(alloc, b"U9.1\n")?;
    for proc in procs {
        put_proc(&mut text, proc)?;
    }
    Ok(text)
}

fn write_decls(alloc: Global, decls: &[UnitDecl]) -> Result<Vec<u8>, AllocError>
    ensures { IfOk result (λ text. text.items ≡ decls_text (map decl_seen decls.now)) }
{
    let mut text = Vec::from_slice(alloc, b"U9.2\n")?;
    for decl in decls {
        put_decl(&mut text, decl)?;
    }
    text.extend_from_slice(b"end\n")?;
    Ok(text)
}

fn put_proc(text: &mut Vec<u8>, proc: &ProcCode) -> Result<(), AllocError>
    ensures { OnOk result (text.new.items ≡ text.old.items ++ proc_text (proc_seen proc.now)) }
{
    put_head(text, proc)?;
    put_names(text, &proc.names)?;
    text.extend_from_slice(b"code\n")?;
    put_instrs(text, &proc.instrs)?;
    text.extend_from_slice(b"end\n")
}

fn put_head(text: &mut Vec<u8>, proc: &ProcCode) -> Result<(), AllocError>
    ensures { OnOk result (text.new.items ≡ text.old.items ++ head_text (proc_seen proc.now)) }
{
    text.extend_from_slice(b"proc ")?;
    text.extend_from_slice(proc.name.as_slice())?;
    text.extend_from_slice(b" ")?;
    put_count(text, params_in(&proc.names))?;
    text.extend_from_slice(if proc.collects { b" 1\n" } else { b" 0\n" })
}

/// How many parameters are among the names of a procedure.
pub fn params_in(names: &[UnitName]) -> usize
    ensures { result ≡ params_in names.now }
{
    names
        .iter()
        .filter(|name| matches!(name.kind, NameKind::Parameter))
        .count()
}

fn put_names(text: &mut Vec<u8>, names: &[UnitName]) -> Result<(), AllocError>
    ensures { OnOk result (text.new.items ≡ text.old.items ++ flat_map name_text names.now) }
{
    for name in names {
        put_name(text, name)?;
    }
    Ok(())
}

fn put_name(text: &mut Vec<u8>, name: &UnitName) -> Result<(), AllocError>
    ensures { OnOk result (text.new.items ≡ text.old.items ++ name_text name.now) }
{
    text.extend_from_slice(b"name ")?;
    text.extend_from_slice(kind_text(name.kind))?;
    text.extend_from_slice(b" ")?;
    text.extend_from_slice(name.name.as_slice())?;
    text.extend_from_slice(b"\n")
}

fn kind_text(kind: NameKind) -> &'static [u8]
    ensures { result.now ≡ kind_text kind }
{
    match kind {
        NameKind::Parameter => b"p",
        NameKind::Local => b"l",
        NameKind::Static => b"s",
        NameKind::Undeclared => b"u",
    }
}

fn put_instrs(text: &mut Vec<u8>, instrs: &[UnitInstr]) -> Result<(), AllocError>
    ensures { OnOk result (text.new.items ≡ text.old.items ++ flat_map instr_text instrs.now) }
{
    for instr in instrs {
        put_instr(text, instr)?;
    }
    Ok(())
}

fn put_instr(text: &mut Vec<u8>, instr: &UnitInstr) -> Result<(), AllocError>
    ensures { OnOk result (text.new.items ≡ text.old.items ++ instr_text instr.now) }
{
    text.extend_from_slice(word_of(instr).text())?;
    put_operand(text, instr)?;
    text.extend_from_slice(b"\n")
}

fn put_operand(text: &mut Vec<u8>, instr: &UnitInstr) -> Result<(), AllocError>
    ensures { OnOk result (text.new.items ≡ text.old.items ++ operand_text instr.now) }
{
    match instr {
        UnitInstr::Int(n) => put_integer(text, *n),
        UnitInstr::Str(bytes) => put_bytes(text, bytes.as_slice()),
        UnitInstr::Cset(set) => put_bytes(text, set.as_slice()),
        UnitInstr::Var(n) | UnitInstr::Llist(n) | UnitInstr::Invoke(n) => put_number(text, *n),
        UnitInstr::Keywd(keyword) => put_word(text, keyword.name()),
        UnitInstr::Op(op) => put_number(text, u32::from(op.number())),
        UnitInstr::Field(name) => put_word(text, name.as_slice()),
        UnitInstr::Mark(label)
        | UnitInstr::Chfail(label)
        | UnitInstr::Goto(label)
        | UnitInstr::Loop(label)
        | UnitInstr::Init(label)
        | UnitInstr::Create(label)
        | UnitInstr::Lab(label) => put_label(text, *label),
        _ => Ok(()),
    }
}

// A blank and a word.
fn put_word(text: &mut Vec<u8>, word: &[u8]) -> Result<(), AllocError>
    ensures { OnOk result (text.new.items ≡ text.old.items ++ behind_blank word.now) }
{
    text.extend_from_slice(b" ")?;
    text.extend_from_slice(word)
}

fn put_integer(text: &mut Vec<u8>, n: i64) -> Result<(), AllocError>
    ensures { OnOk result (text.new.items ≡ text.old.items ++ behind_blank (signed_decimal n)) }
{
    put_word(text, decimal(n).as_bytes())
}

fn put_number(text: &mut Vec<u8>, n: u32) -> Result<(), AllocError>
    ensures { OnOk result (text.new.items ≡ text.old.items ++ behind_blank (decimal n)) }
{
    put_word(text, decimal(i64::from(n)).as_bytes())
}

fn put_count(text: &mut Vec<u8>, n: usize) -> Result<(), AllocError>
    requires { n < 2 ^ 63 }
    ensures { OnOk result (text.new.items ≡ text.old.items ++ decimal n) }
{
    text.extend_from_slice(decimal(n as i64).as_bytes())
}

fn put_label(text: &mut Vec<u8>, label: u32) -> Result<(), AllocError>
    ensures { OnOk result (text.new.items ≡ text.old.items ++ behind_blank (label_text label)) }
{
    text.extend_from_slice(b" L")?;
    text.extend_from_slice(decimal(i64::from(label)).as_bytes())
}

// A blank and bytes in hexadecimal.
fn put_bytes(text: &mut Vec<u8>, bytes: &[u8]) -> Result<(), AllocError>
    ensures { OnOk result (text.new.items ≡ text.old.items ++ behind_blank (bytes_text bytes.now)) }
{
    text.extend_from_slice(b" ")?;
    if bytes.is_empty() {
        text.extend_from_slice(b"-")
    } else {
        put_hexadecimal(text, bytes)
    }
}

fn put_hexadecimal(text: &mut Vec<u8>, bytes: &[u8]) -> Result<(), AllocError>
    ensures { OnOk result (text.new.items ≡ text.old.items ++ flat_map byte_text bytes.now) }
{
    for byte in bytes {
        text.extend_from_slice(&[digit(*byte / 16), digit(*byte % 16)])?;
    }
    Ok(())
}

fn digit(n: u8) -> u8
    requires { n < 16 }
    ensures { result ≡ hexadecimal_digit n }
{
    if n < 10 { n + b'0' } else { n + (b'a' - 10) }
}

fn put_decl(text: &mut Vec<u8>, decl: &UnitDecl) -> Result<(), AllocError>
    ensures { OnOk result (text.new.items ≡ text.old.items ++ decl_text (decl_seen decl.now)) }
{
    match decl {
        UnitDecl::Global(name) => put_line(text, b"global", name.as_slice()),
        UnitDecl::Proc(name) => put_line(text, b"proc", name.as_slice()),
        UnitDecl::Link(bytes) => put_bytes_line(text, b"link", bytes.as_slice()),
        UnitDecl::Invocable(bytes) => put_bytes_line(text, b"invocable", bytes.as_slice()),
        UnitDecl::Record(name, fields) => put_record(text, name.as_slice(), fields),
    }
}

// A line of a word and a name.
fn put_line(text: &mut Vec<u8>, word: &[u8], name: &[u8]) -> Result<(), AllocError>
    ensures { OnOk result (text.new.items ≡ text.old.items ++ word.now ++ behind_blank name.now ++ 10 ∷ []) }
{
    text.extend_from_slice(word)?;
    put_word(text, name)?;
    text.extend_from_slice(b"\n")
}

// A line of a word and bytes in hexadecimal.
fn put_bytes_line(text: &mut Vec<u8>, word: &[u8], bytes: &[u8]) -> Result<(), AllocError>
    ensures { OnOk result
        (text.new.items ≡ text.old.items ++ word.now ++ behind_blank (bytes_text bytes.now) ++ 10 ∷ []) }
{
    text.extend_from_slice(word)?;
    put_bytes(text, bytes)?;
    text.extend_from_slice(b"\n")
}

fn put_record(text: &mut Vec<u8>, name: &[u8], fields: &[Bytes]) -> Result<(), AllocError>
    ensures { OnOk result (text.new.items ≡ text.old.items ++ decl_text (Record name.now fields.now)) }
{
    text.extend_from_slice(b"record")?;
    put_word(text, name)?;
    put_fields(text, fields)?;
    text.extend_from_slice(b"\n")
}

fn put_fields(text: &mut Vec<u8>, fields: &[Bytes]) -> Result<(), AllocError>
    ensures { OnOk result (text.new.items ≡ text.old.items ++ flat_map behind_blank fields.now) }
{
    for field in fields {
        put_word(text, field.as_slice())?;
    }
    Ok(())
}
