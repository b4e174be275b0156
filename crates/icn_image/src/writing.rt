// Writing an image.
ghost use Rattle.std.specs.Prelude.{◌≡◌, ◌∷◌, ◌++◌, IfOk, OnOk, map};
ghost use Rattle.std.specs.List.{flat_map};
ghost use Rattle.std.specs.Int.{to_le_bytes, w32, w64};
ghost use Rattle.icn_code.specs.Codes.{proc_of, procs_of, record_of, records_of};
ghost use Rattle.icn_code.specs.CodeTables.{tables_of};
ghost use Rattle.icn_image.specs.Fronts.{head_of};
ghost use Rattle.icn_image.specs.Spelling.{body, cset, front, front_of, global, head, image_of, instruction, integer, kind_and_number, operand, procs, record_type, string, table};

use crate::operand::{Operand, instr_number, operand_of, operand_value};
use icn_code::{Code, Instr, LinkedProcedure, LinkedRecord, Start};
use icn_tree::Bytes;
use icn_value::Cset;
use std::alloc::{AllocError, Global};

// The head of an image that is written, of the second version: `Icn9img` and the version.
pub const IMAGE_HEAD: [u8; 8] = *b"Icn9img\x02";

// A count, a length, a place in a table, an operand or a label.
fn put_number(out: &mut Vec<u8>, number: usize) -> Result<(), AllocError>
    ensures { OnOk result (out.new.items ≡ out.old.items ++ to_le_bytes w32 number) }
{
    out.extend_from_slice(&number.to_le_bytes()[..4])
}

fn put_strings(out: &mut Vec<u8>, strings: &[Bytes]) -> Result<(), AllocError>
    ensures { OnOk result (out.new.items ≡ out.old.items ++ table w32 (string w32) strings.now) }
{
    put_number(out, strings.len())?;
    for string in strings {
        let text = string.as_slice();
        put_number(out, text.len())?;
        out.extend_from_slice(text)?;
    }
    Ok(())
}

// The bits of a cset, from the least on.
fn put_words(out: &mut Vec<u8>, words: &[u64; 4]) -> Result<(), AllocError>
    ensures { OnOk result (out.new.items ≡ out.old.items ++ flat_map (to_le_bytes w64) words.now) }
{
    for word in words {
        out.extend_from_slice(&word.to_le_bytes())?;
    }
    Ok(())
}

fn put_csets(out: &mut Vec<u8>, csets: &[Cset]) -> Result<(), AllocError>
    ensures { OnOk result (out.new.items ≡ out.old.items ++ table w32 cset csets.now) }
{
    put_number(out, csets.len())?;
    for cset in csets {
        put_words(out, &cset.words)?;
    }
    Ok(())
}

fn put_integers(out: &mut Vec<u8>, integers: &[i64]) -> Result<(), AllocError>
    ensures { OnOk result (out.new.items ≡ out.old.items ++ table w32 integer integers.now) }
{
    put_number(out, integers.len())?;
    for integer in integers {
        out.extend_from_slice(&integer.to_le_bytes())?;
    }
    Ok(())
}

// A table of places.
fn put_places(out: &mut Vec<u8>, places: &[u32]) -> Result<(), AllocError>
    ensures { OnOk result (out.new.items ≡ out.old.items ++ table w32 (to_le_bytes w32) places.now) }
{
    put_number(out, places.len())?;
    for place in places {
        put_number(out, *place as usize)?;
    }
    Ok(())
}

fn put_records(out: &mut Vec<u8>, records: &[LinkedRecord]) -> Result<(), AllocError>
    ensures { OnOk result
        (out.new.items ≡ out.old.items ++ table w32 (record_type w32) (records_of records.now)) }
{
    put_number(out, records.len())?;
    for kind in records {
        put_number(out, kind.name as usize)?;
        put_places(out, &kind.fields)?;
    }
    Ok(())
}

fn put_kind(out: &mut Vec<u8>, kind: u8, number: usize) -> Result<(), AllocError>
    ensures { OnOk result (out.new.items ≡ out.old.items ++ kind ∷ to_le_bytes w32 number) }
{
    out.push(kind)?;
    put_number(out, number)
}

fn put_start(out: &mut Vec<u8>, start: Start) -> Result<(), AllocError>
    ensures { OnOk result (out.new.items ≡ out.old.items ++ kind_and_number w32 start) }
{
    match start {
        Start::Null => put_kind(out, 0, 0),
        Start::Procedure(place) => put_kind(out, 1, place as usize),
        Start::Record(place) => put_kind(out, 2, place as usize),
        Start::Function(func) => put_kind(out, 3, usize::from(func.number())),
    }
}

fn put_globals(out: &mut Vec<u8>, globals: &[icn_code::Global]) -> Result<(), AllocError>
    ensures { OnOk result (out.new.items ≡ out.old.items ++ table w32 (global w32) globals.now) }
{
    put_number(out, globals.len())?;
    for global in globals {
        put_number(out, global.name as usize)?;
        put_start(out, global.start)?;
    }
    Ok(())
}

fn put_head(out: &mut Vec<u8>, proc: &LinkedProcedure) -> Result<(), AllocError>
    ensures { OnOk result (out.new.items ≡ out.old.items ++ head w32 (head_of (proc_of proc.now))) }
{
    put_number(out, proc.name as usize)?;
    put_number(out, proc.parameters as usize)?;
    out.push(u8::from(proc.collects))?;
    put_number(out, proc.locals as usize)?;
    put_number(out, proc.statics as usize)?;
    put_number(out, proc.instrs.len())
}

fn put_heads(out: &mut Vec<u8>, procs: &[LinkedProcedure]) -> Result<(), AllocError>
    ensures { OnOk result
        (out.new.items ≡ out.old.items ++ table w32 (head w32) (map head_of (procs_of procs.now))) }
{
    put_number(out, procs.len())?;
    for proc in procs {
        put_head(out, proc)?;
    }
    Ok(())
}

fn put_instr(out: &mut Vec<u8>, instr: Instr) -> Result<(), AllocError>
    ensures { OnOk result (out.new.items ≡ out.old.items ++ instruction w32 instr) }
{
    let number = instr_number(instr);
    let value = operand_value(instr) as usize;
    out.push(number)?;
    match operand_of(number) {
        Some(Operand::Number | Operand::Label) => put_number(out, value),
        Some(Operand::Nothing) | None => Ok(()),
    }
}

fn put_body(out: &mut Vec<u8>, instrs: &[Instr]) -> Result<(), AllocError>
    ensures { OnOk result (out.new.items ≡ out.old.items ++ flat_map (instruction w32) instrs.now) }
{
    for instr in instrs {
        put_instr(out, *instr)?;
    }
    Ok(())
}

// The instructions of all procedures.
fn put_bodies(out: &mut Vec<u8>, procs: &[LinkedProcedure]) -> Result<(), AllocError>
    ensures { OnOk result (out.new.items ≡ out.old.items ++ flat_map (body w32) (procs_of procs.now)) }
{
    for proc in procs {
        put_body(out, &proc.instrs)?;
    }
    Ok(())
}

/// The image of a code in the second version, byte by byte: `read_image` reads it as the same code. An error is want of memory.
#[tactic(auto, unfolding(crate::specs::Spelling::image_in))]
pub fn write_image(alloc: Global, code: &Code) -> Result<Vec<u8>, AllocError>
    ensures spelled { IfOk result (λ bytes. bytes.items ≡ image_of (tables_of code.now)) }
{
    let mut out = Vec::from_slice(alloc, &IMAGE_HEAD)?;
    put_strings(&mut out, &code.strings)?;
    put_csets(&mut out, &code.csets)?;
    put_integers(&mut out, &code.integers)?;
    put_places(&mut out, &code.fields)?;
    put_records(&mut out, &code.records)?;
    put_globals(&mut out, &code.globals)?;
    put_heads(&mut out, &code.procs)?;
    put_bodies(&mut out, &code.procs)?;
    Ok(out)
}
