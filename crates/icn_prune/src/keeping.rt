// Which procedures of a code are kept.
ghost use Rattle.std.specs.Prelude.{◌≡◌, ◌<◌, ◌∷◌, [], length, IfOk, OnOk, codes, find};
ghost use Rattle.std.specs.List.{All, flat_map, range_with_len};
ghost use Rattle.std.specs.Option.{option_copied};
ghost use Rattle.std.specs.Str.{bytes_eq};
ghost use Rattle.icn_code.specs.Codes.{proc_of};
ghost use Rattle.icn_code.specs.CodeTables.{tables_of};
ghost use Rattle.icn_code.specs.MainProcedure.{main_of, procedure_at};
ghost use Rattle.icn_code.specs.Rules.{name_of};
ghost use Rattle.icn_defs.specs.KeptProcedures.{after_rounds};
ghost use Rattle.icn_prune.specs.KeptCode.{global_in, kept_of, mentioned_by, mentioned_in, number_in, own_kept, procedure_of_global};
ghost use Rattle.icn_prune.specs.Marks.{AddsMarks, IsMarked};

use crate::entries::global_of;
use icn_code::{Code, Global as Variable, Instr, LinkedProcedure, Start};
use std::alloc::{AllocError, Global};

// The procedures that are kept as far as that is known: a truth value for each, and their numbers in the order in which they were met.
#[derive(Drop)]
struct Marks {
    keep: Vec<bool>,
    met: Vec<u32>,
    ghost marked: { IsMarked keep.items met.items },
}

/// Which procedures are kept: a truth value for each. Kept are `main` and those of the numbers that are named, or all where that is
/// said, and with each one all that it mentions as globals. It takes time in proportion to the code. An error is want of memory.
pub fn kept(alloc: Global, code: &Code, named: &[u32], all: bool) -> Result<Vec<bool>, AllocError>
    requires named { All (λ number. number < length (tables_of code.now).procs) named.now }
    ensures { IfOk result (λ keep. keep.items ≡ kept_of (tables_of code.now) named.now all) }
{
    let keep = vec![in alloc; false; code.procs.len()]?;
    let met = Vec::new(alloc);
    let mut marks = Marks { keep, met };
    mark_own(&mut marks, code, named, all)?;
    mark_all_mentioned(&mut marks, code)?;
    Ok(marks.keep)
}

// Marks the procedures that are kept for their own sake.
fn mark_own(marks: &mut Marks, code: &Code, named: &[u32], all: bool) -> Result<(), AllocError>
    requires named { All (λ number. number < length (tables_of code.now).procs) named.now }
    requires as_many { length marks.old.keep.items ≡ length (tables_of code.now).procs }
    ensures { OnOk result (AddsMarks marks.old.keep.items marks.old.met.items
        marks.new.keep.items marks.new.met.items
        (own_kept (tables_of code.now) named.now all)) }
{
    if all {
        return mark_each(marks, code);
    }
    mark_main(marks, code)?;
    for number in named {
        mark(marks, *number)?;
    }
    Ok(())
}

// Marks the procedure `main`, if there is one.
fn mark_main(marks: &mut Marks, code: &Code) -> Result<(), AllocError>
    requires as_many { length marks.old.keep.items ≡ length (tables_of code.now).procs }
    ensures { OnOk result (AddsMarks marks.old.keep.items marks.old.met.items
        marks.new.keep.items marks.new.met.items
        (number_in (main_of (tables_of code.now)))) }
{
    match main_of(code) {
        Some(number) => mark(marks, number),
        None => Ok(()),
    }
}

// Marks all procedures.
fn mark_each(marks: &mut Marks, code: &Code) -> Result<(), AllocError>
    requires as_many { length marks.old.keep.items ≡ length (tables_of code.now).procs }
    ensures { OnOk result (AddsMarks marks.old.keep.items marks.old.met.items
        marks.new.keep.items marks.new.met.items
        (range_with_len 0 (length (tables_of code.now).procs))) }
{
    for number in 0..code.procs.len() {
        mark(marks, number as u32)?;
    }
    Ok(())
}

// Marks what those that are marked mention, and what these mention. Each is looked at once.
fn mark_all_mentioned(marks: &mut Marks, code: &Code) -> Result<(), AllocError>
    requires as_many { length marks.old.keep.items ≡ length (tables_of code.now).procs }
    ensures { OnOk result (marks.new.keep.items ≡ after_rounds (length (tables_of code.now).procs)
        (mentioned_by (tables_of code.now)) marks.old.keep.items) }
{
    for place in 0..code.procs.len() {
        if place == marks.met.len() {
            return Ok(());
        }
        let number = marks.met[place];
        let entry = &code.procs[number as usize];
        mark_mentioned(marks, code, entry)?;
    }
    Ok(())
}

// Marks what a procedure mentions.
fn mark_mentioned(marks: &mut Marks, code: &Code, entry: &LinkedProcedure) -> Result<(), AllocError>
    requires as_many { length marks.old.keep.items ≡ length (tables_of code.now).procs }
    ensures { OnOk result (AddsMarks marks.old.keep.items marks.old.met.items
        marks.new.keep.items marks.new.met.items
        (mentioned_in (tables_of code.now) (proc_of entry.now))) }
{
    for instr in &entry.instrs {
        mark_by_instr(marks, code, *instr)?;
    }
    Ok(())
}

// Marks the procedure of a global that an instruction pushes.
fn mark_by_instr(marks: &mut Marks, code: &Code, instr: Instr) -> Result<(), AllocError>
    requires as_many { length marks.old.keep.items ≡ length (tables_of code.now).procs }
    ensures { OnOk result (AddsMarks marks.old.keep.items marks.old.met.items
        marks.new.keep.items marks.new.met.items
        (flat_map (procedure_of_global (tables_of code.now)) (global_in instr))) }
{
    match global_of(instr) {
        Some(place) => mark_global(marks, code, place),
        None => Ok(()),
    }
}

// Marks the procedure that the global at a place begins with.
fn mark_global(marks: &mut Marks, code: &Code, place: u32) -> Result<(), AllocError>
    requires as_many { length marks.old.keep.items ≡ length (tables_of code.now).procs }
    ensures { OnOk result (AddsMarks marks.old.keep.items marks.old.met.items
        marks.new.keep.items marks.new.met.items
        (procedure_of_global (tables_of code.now) place)) }
{
    match code.globals.get(place as usize) {
        Some(global) => mark_start(marks, global.start),
        None => Ok(()),
    }
}

// Marks the procedure that a global begins with.
fn mark_start(marks: &mut Marks, start: Start) -> Result<(), AllocError>
    requires there { All (λ number. number < length marks.old.keep.items) (number_in (procedure_at start)) }
    ensures { OnOk result (AddsMarks marks.old.keep.items marks.old.met.items
        marks.new.keep.items marks.new.met.items
        (number_in (procedure_at start))) }
{
    match start {
        Start::Procedure(number) => mark(marks, number),
        Start::Null => Ok(()),
        Start::Record(_) => Ok(()),
        Start::Function(_) => Ok(()),
    }
}

// Marks a procedure, unless it is marked.
fn mark(marks: &mut Marks, number: u32) -> Result<(), AllocError>
    requires there { number < length marks.old.keep.items }
    ensures { OnOk result (AddsMarks marks.old.keep.items marks.old.met.items
        marks.new.keep.items marks.new.met.items (number ∷ [])) }
{
    if marks.keep[number as usize] {
        return Ok(());
    }
    marks.met.push(number)?;
    marks.keep[number as usize] = true;
    Ok(())
}

// The procedure that the global `main` begins with.
fn main_of(code: &Code) -> Option<u32>
    ensures { result ≡ main_of (tables_of code.now) }
{
    match main_global(code) {
        Some(global) => procedure_at(global.start),
        None => None,
    }
}

// The global `main`.
fn main_global(code: &Code) -> Option<&Variable>
    ensures { option_copied result
        ≡ find (λ global. bytes_eq (name_of (tables_of code.now).strings global) (codes "main"))
        (tables_of code.now).globals }
{
    code.globals.iter().find(|global| is_main(code, global))
}

fn is_main(code: &Code, global: &Variable) -> bool
    ensures { result ≡ bytes_eq (name_of (tables_of code.now).strings global.now) (codes "main") }
{
    match code.strings.get(global.name as usize) {
        Some(name) => name.as_slice() == b"main".as_slice(),
        None => false,
    }
}

fn procedure_at(start: Start) -> Option<u32>
    ensures { result ≡ procedure_at start }
{
    match start {
        Start::Procedure(number) => Some(number),
        Start::Null => None,
        Start::Record(_) => None,
        Start::Function(_) => None,
    }
}
