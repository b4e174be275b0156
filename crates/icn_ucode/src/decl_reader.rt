// Reads the declarations of a unit, line by line.
ghost use Rattle.std.specs.Prelude.{◌≡◌, ◌&&◌, codes, map, not, IfOk};
ghost use Rattle.std.specs.Option.{option_copied, option_map};
ghost use Rattle.icn_unit.specs.PlainUnits.{proc_names};
ghost use Rattle.icn_unit.specs.UnitOperands.{first_field, is_name};
ghost use Rattle.icn_unit.specs.UnitRules.{has_name};
ghost use Rattle.icn_unit.specs.UnitViews.{decl_seen, proc_seen};
ghost use Rattle.icn_ucode.specs.DeclViews.{DeclsAre, LineIs, reading_seen, stage_seen};
ghost use Rattle.icn_ucode.specs.UnitReading.{Declaring, bytes_read, decl_stage_end, decl_stage_line, decls_line, decls_of, ended_line, fields_read, global_read, invocable_read, with_heading, link_read, name_read, or_bad, procedure_read, record_read, with_decl};

use crate::decl_lists::{DeclReading, DeclStage, Decls, RecordFields};
use crate::proc_lists::Procs;
use crate::proc_reader::is_indented;
use icn_tree::{Bytes, Rule};
use icn_unit::{UnitDecl, UnitStop, byte_text, cut, cut_line, is_name};
use std::alloc::{AllocError, Global};

// A name alone.
fn read_name(alloc: Global, operand: Option<&[u8]>) -> Result<Option<Bytes>, AllocError>
    ensures { IfOk result (λ found. found ≡ name_read (option_copied operand.entry)) }
{
    match operand {
        Some(text) if is_name(text) => Ok(Some(Bytes::from_slice(alloc, text)?)),
        _ => Ok(None),
    }
}

fn read_bytes(alloc: Global, operand: Option<&[u8]>) -> Result<Option<Bytes>, AllocError>
    ensures { IfOk result (λ found. found ≡ bytes_read (option_copied operand.entry)) }
{
    let Some(text) = operand else {
        return Ok(None);
    };
    match byte_text(alloc, text)? {
        Some(bytes) => Ok(Some(Bytes::new(bytes))),
        None => Ok(None),
    }
}

// The fields of a record: names with blanks between them, which differ.
fn read_fields(alloc: Global, operand: Option<&[u8]>) -> Result<Option<Vec<Bytes>>, AllocError>
    ensures { IfOk result
        (λ found. option_map (λ v. v.items) found ≡ fields_read (option_copied operand.entry)) }
{
    let mut fields = RecordFields::new(alloc);
    let mut rest = operand;
    while let Some(text) = rest {
        let (name, behind) = cut(text);
        if !is_further(&fields, name) {
            return Ok(None);
        }
        fields = fields.with(alloc, name)?;
        rest = behind;
    }
    Ok(Some(fields.fields))
}

// Whether a word is a name that is not among fields.
fn is_further<'a>(fields: &RecordFields<'a>, name: &'a [u8]) -> bool
    ensures { result ≡ (is_name name.now && not (has_name fields.now.fields.items name.now)) }
{
    is_name(name) && !fields.has(name)
}

// Takes the line of a global name.
fn global_line<'a>(
    alloc: Global,
    decls: Decls<'a>,
    operand: Option<&[u8]>,
) -> Result<DeclReading<'a>, UnitStop>
    ensures { LineIs result (or_bad (global_read (option_copied operand.entry))
        (with_decl (map decl_seen decls.entry.decls.items))) }
{
    let Some(name) = read_name(alloc, operand)? else {
        return Err(UnitStop::Broken(Rule::U3));
    };
    Ok(decls_so_far(decls.with(UnitDecl::Global(name))?))
}

// Takes the line of a link.
fn link_line<'a>(
    alloc: Global,
    decls: Decls<'a>,
    operand: Option<&[u8]>,
) -> Result<DeclReading<'a>, UnitStop>
    ensures { LineIs result (or_bad (link_read (option_copied operand.entry))
        (with_decl (map decl_seen decls.entry.decls.items))) }
{
    let Some(bytes) = read_bytes(alloc, operand)? else {
        return Err(UnitStop::Broken(Rule::U3));
    };
    Ok(decls_so_far(decls.with(UnitDecl::Link(bytes))?))
}

// Takes the line of what may be called by its name.
fn invocable_line<'a>(
    alloc: Global,
    decls: Decls<'a>,
    operand: Option<&[u8]>,
) -> Result<DeclReading<'a>, UnitStop>
    ensures { LineIs result (or_bad (invocable_read (option_copied operand.entry))
        (with_decl (map decl_seen decls.entry.decls.items))) }
{
    let Some(bytes) = read_bytes(alloc, operand)? else {
        return Err(UnitStop::Broken(Rule::U3));
    };
    Ok(decls_so_far(decls.with(UnitDecl::Invocable(bytes))?))
}

// Takes the line of a procedure.
fn proc_line<'a>(
    alloc: Global,
    decls: Decls<'a>,
    operand: Option<&'a [u8]>,
) -> Result<DeclReading<'a>, UnitStop>
    ensures { LineIs result (or_bad (procedure_read (map decl_seen decls.entry.decls.items)
        (option_copied operand.entry)) (with_decl (map decl_seen decls.entry.decls.items))) }
{
    match operand {
        Some(name) if is_name(name) && !decls.has(name) => {
            let decl = UnitDecl::Proc(Bytes::from_slice(alloc, name)?);
            Ok(decls_so_far(decls.with_owner(name, decl)?))
        }
        _ => Err(UnitStop::Broken(Rule::U3)),
    }
}

// Takes the line of a record, `NAME` and its fields. Procedures have other names.
fn record_line<'a>(
    alloc: Global,
    procs: &Procs<'a>,
    decls: Decls<'a>,
    operand: Option<&'a [u8]>,
) -> Result<DeclReading<'a>, UnitStop>
    ensures { LineIs result (or_bad (record_read (proc_names (map proc_seen procs.now.procs.items))
        (map decl_seen decls.entry.decls.items) (option_copied operand.entry))
        (with_decl (map decl_seen decls.entry.decls.items))) }
{
    let Some(text) = operand else {
        return Err(UnitStop::Broken(Rule::U3));
    };
    let (name, rest) = cut(text);
    if !is_name(name) || procs.has(name) || decls.has(name) {
        return Err(UnitStop::Broken(Rule::U3));
    }
    let Some(fields) = read_fields(alloc, rest)? else {
        return Err(UnitStop::Broken(Rule::U3));
    };
    let decl = UnitDecl::Record(Bytes::from_slice(alloc, name)?, fields);
    Ok(decls_so_far(decls.with_owner(name, decl)?))
}

fn decls_so_far(decls: Decls<'_>) -> DeclReading<'_>
    ensures decls { result.decls.decls.items ≡ decls.entry.decls.items }
    ensures stage { stage_seen result.stage ≡ Declaring }
{
    DeclReading {
        decls,
        stage: DeclStage::Declaring,
    }
}

// Takes a line behind the heading.
fn decl_line<'a>(
    alloc: Global,
    procs: &Procs<'a>,
    decls: Decls<'a>,
    line: &'a [u8],
) -> Result<DeclReading<'a>, UnitStop>
    ensures { LineIs result (decl_stage_line (proc_names (map proc_seen procs.now.procs.items))
        (map decl_seen decls.entry.decls.items) Declaring line.now) }
{
    let (word, operand) = cut(line);
    if word == b"global".as_slice() {
        global_line(alloc, decls, operand)
    } else if word == b"proc".as_slice() {
        proc_line(alloc, decls, operand)
    } else if word == b"link".as_slice() {
        link_line(alloc, decls, operand)
    } else if word == b"invocable".as_slice() {
        invocable_line(alloc, decls, operand)
    } else if word == b"record".as_slice() {
        record_line(alloc, procs, decls, operand)
    } else if word == b"end".as_slice() {
        end(decls, operand)
    } else {
        Err(UnitStop::Broken(Rule::U1))
    }
}

fn end<'a>(decls: Decls<'a>, operand: Option<&[u8]>) -> Result<DeclReading<'a>, UnitStop>
    ensures { LineIs result
        (ended_line (map decl_seen decls.entry.decls.items) (option_copied operand.entry)) }
{
    match operand {
        None => Ok(DeclReading {
            decls,
            stage: DeclStage::Ended,
        }),
        Some(_) => Err(UnitStop::Broken(Rule::U3)),
    }
}

fn heading_line<'a>(decls: Decls<'a>, line: &[u8]) -> Result<DeclReading<'a>, UnitStop>
    ensures { LineIs result (with_heading (codes "U9.2") (first_field line.now).0 (first_field line.now).1
        (record { decls = map decl_seen decls.entry.decls.items; stage = Declaring })) }
{
    let (word, operand) = cut(line);
    if word != b"U9.2".as_slice() {
        return Err(UnitStop::Broken(Rule::U1));
    }
    match operand {
        None => Ok(decls_so_far(decls)),
        Some(_) => Err(UnitStop::Broken(Rule::U3)),
    }
}

// Takes a line.
#[tactic(auto, unfolding(crate::specs::UnitReading::decls_line))]
fn take_line<'a>(
    alloc: Global,
    procs: &Procs<'a>,
    reading: DeclReading<'a>,
    line: &'a [u8],
) -> Result<DeclReading<'a>, UnitStop>
    ensures { LineIs result (decls_line (proc_names (map proc_seen procs.now.procs.items))
        (reading_seen reading.entry) line.now) }
{
    if is_indented(line) {
        return Err(UnitStop::Broken(Rule::U3));
    }
    let DeclReading { decls, stage } = reading;
    match stage {
        DeclStage::Heading => heading_line(decls, line),
        DeclStage::Declaring => decl_line(alloc, procs, decls, line),
        DeclStage::Ended => Err(UnitStop::Broken(Rule::U1)),
    }
}

/// The declarations of a text. The error is the first rule that the text breaks, or want of memory.
pub fn read_decls<'a>(
    alloc: Global,
    procs: &Procs<'a>,
    text: &'a [u8],
) -> Result<Vec<UnitDecl>, UnitStop>
    ensures { DeclsAre result (decls_of (proc_names (map proc_seen procs.now.procs.items)) text.now) }
{
    let mut reading = DeclReading {
        decls: Decls::new(alloc),
        stage: DeclStage::Heading,
    };
    let mut rest = text;
    while !rest.is_empty() {
        let (line, behind) = cut_line(rest);
        reading = take_line(alloc, procs, reading, line)?;
        let Some(behind) = behind else {
            return Err(UnitStop::Broken(Rule::U3));
        };
        rest = behind;
    }
    finish(reading)
}

fn finish(reading: DeclReading<'_>) -> Result<Vec<UnitDecl>, UnitStop>
    ensures { DeclsAre result
        (decl_stage_end (map decl_seen reading.entry.decls.decls.items) (stage_seen reading.entry.stage)) }
{
    match reading.stage {
        DeclStage::Heading => Err(UnitStop::Broken(Rule::U1)),
        DeclStage::Declaring => Err(UnitStop::Broken(Rule::U6)),
        DeclStage::Ended => Ok(reading.decls.decls),
    }
}
