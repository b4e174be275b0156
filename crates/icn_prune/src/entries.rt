// The kept procedures, and what their instructions take from each table.
ghost use Rattle.std.specs.Prelude.{◌≡◌, ◌++◌, ◌∷◌, [], length, if◌then◌else◌, IfOk, OnOk};
ghost use Rattle.std.specs.List.{flat_map};
ghost use Rattle.icn_code.specs.Codes.{proc_of};
ghost use Rattle.icn_code.specs.CodeTables.{tables_of};
ghost use Rattle.icn_prune.specs.KeptCode.{global_in, number_in};
ghost use Rattle.icn_prune.specs.PrunedCode.{cset_in, field_in, integer_in, kept_procs, string_in, taken_by};
ghost use Rattle.icn_prune.specs.PlaceViews.{procs_seen, taken_from};

use icn_code::{Code, Instr, LinkedProcedure};
use std::alloc::{AllocError, Global};

/// A table of a code that instructions take entries from.
#[derive(Clone, Copy, Debug, PartialEq, Eq)]
pub enum CodeTable {
    Strings,
    Csets,
    Integers,
    Fields,
    Globals,
}

/// The procedures that are kept, in their order. The error is want of memory.
pub fn kept_procs<'a>(
    alloc: Global,
    code: &'a Code,
    keep: &[bool],
) -> Result<Vec<&'a LinkedProcedure>, AllocError>
    requires as_many { length keep.now ≡ length (tables_of code.now).procs }
    ensures { IfOk result
        (λ procs. procs_seen procs.items ≡ kept_procs keep.now (tables_of code.now).procs) }
{
    let mut procs = Vec::new(alloc);
    for (number, entry) in code.procs.iter().enumerate() {
        push_kept(&mut procs, keep[number], entry)?;
    }
    Ok(procs)
}

// Adds a procedure that is kept.
fn push_kept<'a>(
    procs: &mut Vec<&'a LinkedProcedure>,
    kept: bool,
    entry: &'a LinkedProcedure,
) -> Result<(), AllocError>
    ensures { OnOk result (procs_seen procs.new.items ≡ procs_seen procs.old.items
        ++ (if kept then proc_of entry.now ∷ [] else [])) }
{
    if kept {
        procs.push(entry)?;
    }
    Ok(())
}

/// Adds the places of the entries that procedures take from a table, in the order of their instructions. The error is want of memory.
pub fn push_taken(
    places: &mut Vec<u32>,
    procs: &[&LinkedProcedure],
    table: CodeTable,
) -> Result<(), AllocError>
    ensures { OnOk result
        (places.new.items ≡ places.old.items ++ taken_by (taken_from table) (procs_seen procs.now)) }
{
    for entry in procs {
        push_taken_by(places, &entry.instrs, table)?;
    }
    Ok(())
}

fn push_taken_by(
    places: &mut Vec<u32>,
    instrs: &[Instr],
    table: CodeTable,
) -> Result<(), AllocError>
    ensures { OnOk result (places.new.items ≡ places.old.items ++ flat_map (taken_from table) instrs.now) }
{
    for instr in instrs {
        push_place(places, place_taken(*instr, table))?;
    }
    Ok(())
}

fn push_place(places: &mut Vec<u32>, place: Option<u32>) -> Result<(), AllocError>
    ensures { OnOk result (places.new.items ≡ places.old.items ++ number_in place) }
{
    if let Some(place) = place {
        places.push(place)?;
    }
    Ok(())
}

// The place of the entry that an instruction takes from a table, if it takes one.
fn place_taken(instr: Instr, table: CodeTable) -> Option<u32>
    ensures { number_in result ≡ taken_from table instr }
{
    match table {
        CodeTable::Strings => string_of(instr),
        CodeTable::Csets => cset_of(instr),
        CodeTable::Integers => integer_of(instr),
        CodeTable::Fields => field_of(instr),
        CodeTable::Globals => global_of(instr),
    }
}

fn string_of(instr: Instr) -> Option<u32>
    ensures { number_in result ≡ string_in instr }
{
    if let Instr::Str(place) = instr {
        Some(place)
    } else {
        None
    }
}

fn cset_of(instr: Instr) -> Option<u32>
    ensures { number_in result ≡ cset_in instr }
{
    if let Instr::Cset(place) = instr {
        Some(place)
    } else {
        None
    }
}

fn integer_of(instr: Instr) -> Option<u32>
    ensures { number_in result ≡ integer_in instr }
{
    if let Instr::Int(place) = instr {
        Some(place)
    } else {
        None
    }
}

fn field_of(instr: Instr) -> Option<u32>
    ensures { number_in result ≡ field_in instr }
{
    if let Instr::Field(place) = instr {
        Some(place)
    } else {
        None
    }
}

/// The place of the global that an instruction pushes, if it pushes one.
pub fn global_of(instr: Instr) -> Option<u32>
    ensures { number_in result ≡ global_in instr }
{
    if let Instr::Global(place) = instr {
        Some(place)
    } else {
        None
    }
}
