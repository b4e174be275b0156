// The entries that stay, with their new places.
ghost use Rattle.std.specs.Prelude.{◌≡◌, ◌<◌, length, map, slice_index_or, IfOk, [], pos};
ghost use Rattle.std.specs.List.{All};
ghost use Rattle.icn_code.specs.Codes.{proc_of, procs_of, record_of, records_of};
ghost use Rattle.icn_code.specs.CodeTables.{tables_of};
ghost use Rattle.icn_prune.specs.PrunedCode.{global_at, global_left, instr_left, new_place, no_cset, proc_left, record_left, start_left};
ghost use Rattle.icn_prune.specs.PlaceViews.{procs_seen, survivors_seen};

use crate::surviving::SurvivingPlaces;
use icn_code::{Code, Global as Variable, Instr, LinkedProcedure, LinkedRecord, Start};
use icn_tree::Bytes;
use icn_value::Cset;
use std::alloc::{AllocError, Global};

/// Copies of the strings that stay. The error is want of memory.
pub fn strings_left(
    alloc: Global,
    code: &Code,
    left: &SurvivingPlaces,
) -> Result<Vec<Bytes>, AllocError>
    ensures { IfOk result (λ strings. strings.items
        ≡ map (λ place. slice_index_or (tables_of code.now).strings place []) left.now.strings.left.items) }
{
    let mut strings = Vec::new(alloc);
    for place in &left.strings.left {
        strings.push(string_at(alloc, code, *place)?)?;
    }
    Ok(strings)
}

// A copy of the string at a place; where there is none, an empty one.
fn string_at(alloc: Global, code: &Code, place: u32) -> Result<Bytes, AllocError>
    ensures { IfOk result (λ string. string ≡ slice_index_or (tables_of code.now).strings place []) }
{
    match code.strings.get(place as usize) {
        Some(string) => Bytes::from_slice(alloc, string.as_slice()),
        None => Bytes::from_slice(alloc, &[]),
    }
}

/// The csets that stay. The error is want of memory.
pub fn csets_left(
    alloc: Global,
    code: &Code,
    left: &SurvivingPlaces,
) -> Result<Vec<Cset>, AllocError>
    requires there { All (λ place. place < length (tables_of code.now).csets) left.now.csets.left.items }
    ensures { IfOk result (λ csets. csets.items
        ≡ map (λ place. slice_index_or (tables_of code.now).csets place no_cset) left.now.csets.left.items) }
{
    let mut csets = Vec::new(alloc);
    for place in &left.csets.left {
        csets.push(code.csets[*place as usize])?;
    }
    Ok(csets)
}

/// The integers that stay. The error is want of memory.
pub fn integers_left(
    alloc: Global,
    code: &Code,
    left: &SurvivingPlaces,
) -> Result<Vec<i64>, AllocError>
    requires there { All (λ place. place < length (tables_of code.now).integers)
        left.now.integers.left.items }
    ensures { IfOk result (λ integers. integers.items
        ≡ map (λ place. slice_index_or (tables_of code.now).integers place (pos 0))
        left.now.integers.left.items) }
{
    let mut integers = Vec::new(alloc);
    for place in &left.integers.left {
        integers.push(integer_at(code, *place))?;
    }
    Ok(integers)
}

// The integer at a place.
fn integer_at(code: &Code, place: u32) -> i64
    requires there { place < length (tables_of code.now).integers }
    ensures { result ≡ slice_index_or (tables_of code.now).integers place (pos 0) }
{
    code.integers[place as usize]
}

/// The new places of the names of the fields that stay. The error is want of memory.
pub fn fields_left(
    alloc: Global,
    code: &Code,
    left: &SurvivingPlaces,
) -> Result<Vec<u32>, AllocError>
    requires there { All (λ place. place < length (tables_of code.now).fields) left.now.fields.left.items }
    ensures { IfOk result (λ fields. fields.items ≡ map (λ place. new_place left.now.strings.left.items
        (slice_index_or (tables_of code.now).fields place 0)) left.now.fields.left.items) }
{
    let mut fields = Vec::new(alloc);
    for place in &left.fields.left {
        fields.push(left.strings.new_place(code.fields[*place as usize]))?;
    }
    Ok(fields)
}

/// All record types, with the new places of their names and fields. The error is want of memory.
pub fn records_left(
    alloc: Global,
    code: &Code,
    left: &SurvivingPlaces,
) -> Result<Vec<LinkedRecord>, AllocError>
    ensures { IfOk result (λ records. records_of records.items
        ≡ map (record_left (survivors_seen left.now)) (tables_of code.now).records) }
{
    let mut records = Vec::new(alloc);
    for kind in &code.records {
        records.push(record_left(alloc, kind, left)?)?;
    }
    Ok(records)
}

fn record_left(
    alloc: Global,
    kind: &LinkedRecord,
    left: &SurvivingPlaces,
) -> Result<LinkedRecord, AllocError>
    ensures { IfOk result (λ new.
        record_of new ≡ record_left (survivors_seen left.now) (record_of kind.now)) }
{
    let mut fields = Vec::new(alloc);
    for field in &kind.fields {
        fields.push(left.fields.new_place(*field))?;
    }
    Ok(LinkedRecord {
        name: left.strings.new_place(kind.name),
        fields,
    })
}

/// The globals that stay. The error is want of memory.
pub fn globals_left(
    alloc: Global,
    code: &Code,
    left: &SurvivingPlaces,
) -> Result<Vec<Variable>, AllocError>
    requires there { All (λ place. place < length (tables_of code.now).globals) left.now.globals.left.items }
    ensures { IfOk result (λ globals. globals.items ≡ map (λ place. global_left (survivors_seen left.now)
        (global_at (tables_of code.now) place)) left.now.globals.left.items) }
{
    let mut globals = Vec::new(alloc);
    for place in &left.globals.left {
        globals.push(global_left(&code.globals[*place as usize], left))?;
    }
    Ok(globals)
}

fn global_left(global: &Variable, left: &SurvivingPlaces) -> Variable
    ensures { result ≡ global_left (survivors_seen left.now) global.now }
{
    Variable {
        name: left.strings.new_place(global.name),
        start: start_left(global.start, left),
    }
}

fn start_left(start: Start, left: &SurvivingPlaces) -> Start
    ensures { result ≡ start_left (survivors_seen left.now) start }
{
    match start {
        Start::Null => Start::Null,
        Start::Procedure(number) => Start::Procedure(left.procs.new_place(number)),
        Start::Record(number) => Start::Record(number),
        Start::Function(func) => Start::Function(func),
    }
}

/// The procedures that are kept. The error is want of memory.
pub fn procs_left(
    alloc: Global,
    entries: &[&LinkedProcedure],
    left: &SurvivingPlaces,
) -> Result<Vec<LinkedProcedure>, AllocError>
    ensures { IfOk result (λ procs. procs_of procs.items
        ≡ map (proc_left (survivors_seen left.now)) (procs_seen entries.now)) }
{
    let mut procs = Vec::new(alloc);
    for entry in entries {
        procs.push(proc_left(alloc, entry, left)?)?;
    }
    Ok(procs)
}

fn proc_left(
    alloc: Global,
    entry: &LinkedProcedure,
    left: &SurvivingPlaces,
) -> Result<LinkedProcedure, AllocError>
    ensures { IfOk result (λ new. proc_of new ≡ proc_left (survivors_seen left.now) (proc_of entry.now)) }
{
    let mut instrs = Vec::new(alloc);
    for instr in &entry.instrs {
        instrs.push(instr_left(*instr, left))?;
    }
    Ok(LinkedProcedure {
        name: left.strings.new_place(entry.name),
        parameters: entry.parameters,
        collects: entry.collects,
        locals: entry.locals,
        statics: entry.statics,
        instrs,
    })
}

// An instruction with the new place of what it takes from a table of the code.
fn instr_left(instr: Instr, left: &SurvivingPlaces) -> Instr
    ensures { result ≡ instr_left (survivors_seen left.now) instr }
{
    match instr {
        Instr::Int(place) => Instr::Int(left.integers.new_place(place)),
        Instr::Str(place) => Instr::Str(left.strings.new_place(place)),
        Instr::Cset(place) => Instr::Cset(left.csets.new_place(place)),
        Instr::Global(place) => Instr::Global(left.globals.new_place(place)),
        Instr::Field(place) => Instr::Field(left.fields.new_place(place)),
        other => other,
    }
}
