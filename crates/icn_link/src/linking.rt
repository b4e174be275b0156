// The code of units.
ghost use Rattle.std.specs.Prelude.{◌≡◌, ◌≤◌, ◌-◌, ◌++◌, ◌∷◌, ℕ, List, [], None, Some, if◌then◌else◌, count_by, length, map, nat_le, IfErr, IfOk, OnOk, true};
ghost use Rattle.std.specs.List.{flat_map, list_all, sum_by};
ghost use Rattle.std.specs.Option.{option_or};
ghost use Rattle.std.specs.Str.{bytes_eq};
ghost use Rattle.icn_profile.specs.Numbers.{most_bytes_of_image, most_entries, most_instructions, most_variables};
ghost use Rattle.icn_code.specs.Codes.{proc_of, procs_of, record_of, records_of};
ghost use Rattle.icn_code.specs.CodeTables.{tables_of};
ghost use Rattle.icn_image.specs.Spelling.{image_of};
ghost use Rattle.icn_unit.specs.PlainUnits.{params_in, proc_names};
ghost use Rattle.icn_unit.specs.UnitViews.{decl_seen, proc_seen};
ghost use Rattle.icn_link.specs.FirstMentions.{text_index};
ghost use Rattle.icn_link.specs.Joined.{cset_of, entry_of, global_entry, global_with, is_among, joined_code, joined_of, locals_in, index_of, named_procs, names_all, number_list, proc_entry, record_entry, records_in, start_by, statics_in, tables_with, with_bit, with_bits};
ghost use Rattle.icn_link.specs.JoinableUnits.{is_joinable_decl, is_joinable_proc};
ghost use Rattle.icn_link.specs.LinkFaults.{first_fault, is_instruction, over, size_of, too_large_of, IsFault};
ghost use Rattle.icn_link.specs.Mentions.{function_named, all_mentions, invocable_in, record_name_in, record_names};
ghost use Rattle.icn_link.specs.Units.{units_seen};
ghost use Rattle.icn_link.specs.Views.{decls_seen, gathered_seen, procs_seen, entry_in, texts_seen, AreFew, Joinable};

use crate::fault::LinkFault;
use crate::gathered::{GatheredMentions, function_named, gather, text_index};
use crate::image_size::image_size;
use crate::invocables::{check_invocables, named_procs, names_all};
use crate::labels::labels_of;
use crate::lists::{decls_of, procs_of};
use crate::missing::check_links;
use crate::repeats::check_owners;
use crate::resolve::resolve_instrs;
use crate::sizes::{
    check_all_statics, check_count, check_instrs, check_kinds, check_locals, check_records,
    check_statics, check_tables,
};
use crate::variable::{locals_in, statics_in, variables};
use icn_code::{Code, Global as Variable, Instr, LinkedProcedure, LinkedRecord, Start};
use icn_profile::MOST_BYTES_OF_IMAGE;
use icn_tree::Bytes;
use icn_unit::{ProcCode, Unit, UnitDecl, params_in};
use icn_value::Cset;
use indexmap::{IndexMap, IndexSet};
use std::alloc::{AllocError, Global};

const MOST_BYTES: u64 = MOST_BYTES_OF_IMAGE;

/// What units are linked to.
#[derive(Debug, Drop)]
pub struct Linked {
    /// The code, with all procedures of the units.
    pub code: Code,
    /// The numbers of the procedures that the units say may be called by their names.
    pub named: Vec<u32>,
    /// Whether they say so of all.
    pub all: bool,
}

/// The joined code of units: their procedures, records and globals, with each name resolved over all units.
///
/// # Errors
///
/// The first of these rules that is broken. `K2` where a unit links one that is none of the units: the first such, in the order
/// of the units and of their declarations. `K1` where a name is procedure or record in two units: the first declaration that
/// repeats one. `K4` where a unit says that a name may be called which no procedure and no record of the units and no function
/// has: the first such, in the order of the units and of their declarations. `K3` where the program is too large: the first
/// number above its bound, in the order of all instructions (16777216), the entries of the tables (16777216 each), the statics
/// of all procedures together (4294967295), the fields and the records (65535 each, as all that follow but the last), the
/// fields of a record, the parameters and other locals of a procedure together, its statics, and the bytes of the image
/// (1073741824); a number past 64 bits is told as the greatest number of 64 bits. `NoMemory` where memory ran out.
pub fn link(alloc: Global, units: &[Unit]) -> Result<Linked, LinkFault>
    ensures joined { IfOk result (λ linked. tables_of linked.code ≡ joined_code (units_seen units.now)) }
    ensures named { IfOk result (λ linked. linked.named.items ≡ named_procs (units_seen units.now)) }
    ensures all { IfOk result (λ linked. linked.all ≡ names_all (units_seen units.now)) }
    ensures fits { OnOk result (first_fault (units_seen units.now) ≡ None) }
    ensures fault { IfErr result (IsFault (first_fault (units_seen units.now))) }
{
    check_links(alloc, units)?;
    check_owners(alloc, units)?;
    let decls = decls_of(alloc, units)?;
    check_invocables(alloc, units, &decls)?;
    let procs = procs_of(alloc, units)?;
    let code = join(alloc, &decls, &procs)?;
    let named = numbers_named(alloc, &decls, &procs)?;
    let all = names_all(&decls);
    Ok(Linked { code, named, all })
}

// The numbers of the procedures that declarations say may be called by their names.
fn numbers_named(
    alloc: Global,
    decls: &[&UnitDecl],
    procs: &[&ProcCode],
) -> Result<Vec<u32>, AllocError>
    requires procs { length (proc_names (procs_seen procs.now)) ≤ most_entries }
    ensures { IfOk result (λ numbers. numbers.items
        ≡ flat_map (λ text. number_list (index_of (proc_names (procs_seen procs.now)) text))
        (flat_map invocable_in (decls_seen decls.now))) }
{
    let numbers = first_indices(alloc, &names_of_procs(alloc, procs)?)?;
    named_procs(alloc, &numbers, decls)
}

// The joined code of all declarations and procedures.
fn join(alloc: Global, decls: &[&UnitDecl], procs: &[&ProcCode]) -> Result<Code, LinkFault>
    requires decls { list_all is_joinable_decl (decls_seen decls.now) ≡ true }
    requires procs { list_all is_joinable_proc (procs_seen procs.now) ≡ true }
    ensures joined { IfOk result
        (λ code. tables_of code ≡ joined_of (decls_seen decls.now) (procs_seen procs.now)) }
    ensures fits { OnOk result (too_large_of (decls_seen decls.now) (procs_seen procs.now) ≡ None) }
    ensures fault { IfErr result (IsFault (too_large_of (decls_seen decls.now) (procs_seen procs.now))) }
{
    check_instrs(procs)?;
    let tables = gather(alloc, decls, procs)?;
    join_with(alloc, &tables, decls, procs)
}

// The same, where these are the tables.
fn join_with(
    alloc: Global,
    tables: &GatheredMentions<'_>,
    decls: &[&UnitDecl],
    procs: &[&ProcCode],
) -> Result<Code, LinkFault>
    requires tables { gathered_seen tables.now ≡ all_mentions (decls_seen decls.now) (procs_seen procs.now) }
    requires decls { list_all is_joinable_decl (decls_seen decls.now) ≡ true }
    requires procs { list_all is_joinable_proc (procs_seen procs.now) ≡ true }
    requires instrs { over most_instructions (sum_by size_of (procs_seen procs.now) ∷ []) ≡ None }
    ensures joined { IfOk result
        (λ code. tables_of code ≡ joined_of (decls_seen decls.now) (procs_seen procs.now)) }
    ensures fits { OnOk result (too_large_of (decls_seen decls.now) (procs_seen procs.now) ≡ None) }
    ensures fault { IfErr result (IsFault (too_large_of (decls_seen decls.now) (procs_seen procs.now))) }
{
    check_tables(tables, decls, procs)?;
    check_all_statics(&tables.globals, procs)?;
    check_kinds(tables, decls)?;
    check_records(decls)?;
    check_locals(&tables.globals, procs)?;
    check_statics(&tables.globals, procs)?;
    let code = code_of(alloc, tables, decls, procs)?;
    check_image(&code)?;
    Ok(code)
}

// Refuses a code whose image is too long.
fn check_image(code: &Code) -> Result<(), LinkFault>
    ensures none { OnOk result
        (over most_bytes_of_image (length (image_of (tables_of code.now)) ∷ []) ≡ None) }
    ensures fault { IfErr result
        (λ fault. over most_bytes_of_image (length (image_of (tables_of code.now)) ∷ []) ≡ Some fault) }
{
    check_count(image_size(code), MOST_BYTES)
}

// The code of declarations and procedures that are not too large.
fn code_of(
    alloc: Global,
    tables: &GatheredMentions<'_>,
    decls: &[&UnitDecl],
    procs: &[&ProcCode],
) -> Result<Code, AllocError>
    requires tables { gathered_seen tables.now ≡ all_mentions (decls_seen decls.now) (procs_seen procs.now) }
    requires joinable { Joinable (decls_seen decls.now) (procs_seen procs.now) }
    ensures { IfOk result
        (λ code. tables_of code ≡ joined_of (decls_seen decls.now) (procs_seen procs.now)) }
{
    let strings = copies(alloc, tables.strings.as_slice())?;
    let csets = csets(alloc, tables.sets.as_slice())?;
    let integers = Vec::from_slice(alloc, tables.integers.as_slice())?;
    let fields = text_indices(alloc, &tables.strings, tables.fields.as_slice())?;
    let records = records(alloc, tables, decls)?;
    let globals = globals(alloc, tables, decls, procs)?;
    let procs = entries(alloc, tables, procs)?;
    Ok(Code {
        strings,
        csets,
        integers,
        fields,
        records,
        globals,
        procs,
    })
}

// Copies of texts.
fn copies(alloc: Global, texts: &[&[u8]]) -> Result<Vec<Bytes>, AllocError>
    ensures { IfOk result (λ copies. copies.items ≡ texts_seen texts.now) }
{
    let mut copies = Vec::new(alloc);
    for text in texts {
        copies.push(Bytes::from_slice(alloc, text)?)?;
    }
    Ok(copies)
}

// The csets of these members.
fn csets(alloc: Global, sets: &[&[u8]]) -> Result<Vec<Cset>, AllocError>
    ensures { IfOk result (λ csets. csets.items ≡ map cset_of (texts_seen sets.now)) }
{
    let mut csets = Vec::new(alloc);
    for set in sets {
        csets.push(cset_of(set))?;
    }
    Ok(csets)
}

fn cset_of(members: &[u8]) -> Cset
    ensures { result ≡ cset_of members.now }
{
    let mut words = [0; 4];
    for byte in members {
        put_bit(&mut words, *byte);
    }
    Cset { words }
}

fn put_bit(words: &mut [u64; 4], byte: u8)
    ensures { words.new ≡ with_bit words.old byte }
{
    words[usize::from(byte / 64)] |= 1 << (byte % 64);
}

// Where texts stand in a table.
fn text_indices(
    alloc: Global,
    table: &IndexSet<&[u8]>,
    texts: &[&[u8]],
) -> Result<Vec<u32>, AllocError>
    requires few { length (texts_seen table.now.keys) ≤ most_entries }
    ensures { IfOk result
        (λ indices. indices.items ≡ map (text_index (texts_seen table.now.keys)) (texts_seen texts.now)) }
{
    let mut indices = Vec::new(alloc);
    for text in texts {
        indices.push(text_index(table, text))?;
    }
    Ok(indices)
}

// Records

fn records(
    alloc: Global,
    tables: &GatheredMentions<'_>,
    decls: &[&UnitDecl],
) -> Result<Vec<LinkedRecord>, AllocError>
    requires few { AreFew (gathered_seen tables.now) }
    ensures { IfOk result (λ records. records_of records.items
        ≡ flat_map (records_in (gathered_seen tables.now)) (decls_seen decls.now)) }
{
    let mut records = Vec::new(alloc);
    for decl in decls {
        put_record(&mut records, alloc, tables, decl)?;
    }
    Ok(records)
}

fn put_record(
    records: &mut Vec<LinkedRecord>,
    alloc: Global,
    tables: &GatheredMentions<'_>,
    decl: &UnitDecl,
) -> Result<(), AllocError>
    requires few { AreFew (gathered_seen tables.now) }
    ensures { OnOk result (records_of records.new.items ≡ records_of records.old.items
        ++ records_in (gathered_seen tables.now) (decl_seen decl.now)) }
{
    match decl {
        UnitDecl::Record(name, fields) => {
            records.push(record_with(alloc, tables, name.as_slice(), fields)?)?;
            Ok(())
        }
        UnitDecl::Global(_) => Ok(()),
        UnitDecl::Proc(_) => Ok(()),
        UnitDecl::Link(_) => Ok(()),
        UnitDecl::Invocable(_) => Ok(()),
    }
}

fn record_with(
    alloc: Global,
    tables: &GatheredMentions<'_>,
    name: &[u8],
    fields: &[Bytes],
) -> Result<LinkedRecord, AllocError>
    requires few { AreFew (gathered_seen tables.now) }
    ensures { IfOk result
        (λ kind. record_of kind ≡ record_entry (gathered_seen tables.now) name.now fields.now) }
{
    let indices = field_indices(alloc, &tables.fields, fields)?;
    Ok(LinkedRecord {
        name: text_index(&tables.strings, name),
        fields: indices,
    })
}

fn field_indices(
    alloc: Global,
    table: &IndexSet<&[u8]>,
    fields: &[Bytes],
) -> Result<Vec<u32>, AllocError>
    requires few { length (texts_seen table.now.keys) ≤ most_entries }
    ensures { IfOk result
        (λ indices. indices.items ≡ map (text_index (texts_seen table.now.keys)) fields.now) }
{
    let mut indices = Vec::new(alloc);
    for field in fields {
        indices.push(text_index(table, field.as_slice()))?;
    }
    Ok(indices)
}

// Globals

fn globals(
    alloc: Global,
    tables: &GatheredMentions<'_>,
    decls: &[&UnitDecl],
    procs: &[&ProcCode],
) -> Result<Vec<Variable>, AllocError>
    requires few { AreFew (gathered_seen tables.now) }
    requires records { length (record_names (decls_seen decls.now)) ≤ most_entries }
    requires procs { length (proc_names (procs_seen procs.now)) ≤ most_entries }
    ensures { IfOk result (λ globals. globals.items ≡ map (global_entry (gathered_seen tables.now) (proc_names
        (procs_seen procs.now)) (record_names (decls_seen decls.now))) (gathered_seen tables.now).globals) }
{
    let proc_indices = first_indices(alloc, &names_of_procs(alloc, procs)?)?;
    let record_indices = first_indices(alloc, &names_of_records(alloc, decls)?)?;
    globals_with(alloc, tables, &proc_indices, &record_indices)
}

// The globals, where procedures and records have these numbers.
fn globals_with(
    alloc: Global,
    tables: &GatheredMentions<'_>,
    procs: &IndexMap<&[u8], u32>,
    records: &IndexMap<&[u8], u32>,
) -> Result<Vec<Variable>, AllocError>
    requires few { AreFew (gathered_seen tables.now) }
    ensures { IfOk result (λ globals. globals.items ≡ map (global_with (gathered_seen tables.now)
        (entry_in procs.now) (entry_in records.now)) (gathered_seen tables.now).globals) }
{
    let mut globals = Vec::new(alloc);
    let names = tables.globals.as_slice();
    for name in names {
        globals.push(global(tables, procs, records, name))?;
    }
    Ok(globals)
}

fn global(
    tables: &GatheredMentions<'_>,
    procs: &IndexMap<&[u8], u32>,
    records: &IndexMap<&[u8], u32>,
    name: &[u8],
) -> Variable
    requires few { AreFew (gathered_seen tables.now) }
    ensures { result
        ≡ global_with (gathered_seen tables.now) (entry_in procs.now) (entry_in records.now) name.now }
{
    Variable {
        name: text_index(&tables.strings, name),
        start: start(procs, records, &tables.declared, name),
    }
}

fn names_of_procs<'a>(alloc: Global, procs: &[&'a ProcCode]) -> Result<Vec<&'a [u8]>, AllocError>
    ensures { IfOk result (λ names. texts_seen names.items ≡ proc_names (procs_seen procs.now)) }
{
    let mut names = Vec::new(alloc);
    for proc in procs {
        names.push(proc.name.as_slice())?;
    }
    Ok(names)
}

fn names_of_records<'a>(alloc: Global, decls: &[&'a UnitDecl]) -> Result<Vec<&'a [u8]>, AllocError>
    ensures { IfOk result (λ names. texts_seen names.items ≡ record_names (decls_seen decls.now)) }
{
    let mut names = Vec::new(alloc);
    for decl in decls {
        put_record_name(&mut names, decl)?;
    }
    Ok(names)
}

fn put_record_name<'a>(names: &mut Vec<&'a [u8]>, decl: &'a UnitDecl) -> Result<(), AllocError>
    ensures { OnOk result
        (texts_seen names.new.items ≡ texts_seen names.old.items ++ record_name_in (decl_seen decl.now)) }
{
    match decl {
        UnitDecl::Record(name, _) => {
            names.push(name.as_slice())?;
            Ok(())
        }
        UnitDecl::Global(_) => Ok(()),
        UnitDecl::Proc(_) => Ok(()),
        UnitDecl::Link(_) => Ok(()),
        UnitDecl::Invocable(_) => Ok(()),
    }
}

// Where each name stands first.
fn first_indices<'a>(
    alloc: Global,
    names: &[&'a [u8]],
) -> Result<IndexMap<&'a [u8], u32>, AllocError>
    requires few { length (texts_seen names.now) ≤ most_entries }
    ensures { IfOk result
        (λ indices. (name : List ℕ) → entry_in indices name ≡ index_of (texts_seen names.now) name) }
{
    let mut indices = IndexMap::new(alloc);
    for (index, name) in names.iter().enumerate() {
        put_index(&mut indices, name, index as u32)?;
    }
    Ok(indices)
}

fn put_index<'a>(
    indices: &mut IndexMap<&'a [u8], u32>,
    name: &'a [u8],
    index: u32,
) -> Result<(), AllocError>
    ensures { OnOk result ((other : List ℕ) → entry_in indices.new other
        ≡ option_or (entry_in indices.old other) (if bytes_eq other name.now then Some index else None)) }
{
    if indices.contains_key(name) {
        return Ok(());
    }
    indices.insert(name, index)?;
    Ok(())
}

// What a global begins with.
fn start(
    procs: &IndexMap<&[u8], u32>,
    records: &IndexMap<&[u8], u32>,
    declared: &IndexSet<&[u8]>,
    name: &[u8],
) -> Start
    ensures { result ≡ start_by (entry_in procs.now name.now) (entry_in records.now name.now)
        (is_among (texts_seen declared.now.keys) name.now) (function_named name.now) }
{
    match procs.get(name) {
        Some(index) => Start::Procedure(*index),
        None => match records.get(name) {
            Some(index) => Start::Record(*index),
            None => undeclared_start(declared, name),
        },
    }
}

fn undeclared_start(declared: &IndexSet<&[u8]>, name: &[u8]) -> Start
    ensures { result
        ≡ start_by None None (is_among (texts_seen declared.now.keys) name.now) (function_named name.now) }
{
    if declared.contains(name) {
        return Start::Null;
    }
    match function_named(name) {
        Some(func) => Start::Function(func),
        None => Start::Null,
    }
}

// Procedures

fn entries(
    alloc: Global,
    tables: &GatheredMentions<'_>,
    procs: &[&ProcCode],
) -> Result<Vec<LinkedProcedure>, AllocError>
    requires few { AreFew (gathered_seen tables.now) }
    requires sizes { list_all (λ proc. nat_le (size_of proc) most_instructions) (procs_seen procs.now)
        ≡ true }
    requires locals { list_all (λ proc. nat_le (locals_in (gathered_seen tables.now).globals proc.names)
        most_variables) (procs_seen procs.now) ≡ true }
    requires statics { list_all (λ proc. nat_le (statics_in (gathered_seen tables.now).globals proc.names)
        most_variables) (procs_seen procs.now) ≡ true }
    ensures { IfOk result (λ entries. procs_of entries.items
        ≡ map (proc_entry (gathered_seen tables.now)) (procs_seen procs.now)) }
{
    let mut entries = Vec::new(alloc);
    for proc in procs {
        put_entry(&mut entries, alloc, tables, proc)?;
    }
    Ok(entries)
}

fn put_entry(
    entries: &mut Vec<LinkedProcedure>,
    alloc: Global,
    tables: &GatheredMentions<'_>,
    proc: &ProcCode,
) -> Result<(), AllocError>
    requires few { AreFew (gathered_seen tables.now) }
    requires size { count_by is_instruction proc.now.instrs.items ≤ most_instructions }
    requires locals { locals_in (gathered_seen tables.now).globals proc.now.names.items ≤ most_variables }
    requires statics { statics_in (gathered_seen tables.now).globals proc.now.names.items ≤ most_variables }
    ensures { OnOk result (procs_of entries.new.items ≡ procs_of entries.old.items
        ++ proc_entry (gathered_seen tables.now) (proc_seen proc.now) ∷ []) }
{
    let entry = entry(alloc, tables, proc)?;
    entries.push(entry)?;
    Ok(())
}

fn entry(
    alloc: Global,
    tables: &GatheredMentions<'_>,
    proc: &ProcCode,
) -> Result<LinkedProcedure, AllocError>
    requires few { AreFew (gathered_seen tables.now) }
    requires size { count_by is_instruction proc.now.instrs.items ≤ most_instructions }
    requires locals { locals_in (gathered_seen tables.now).globals proc.now.names.items ≤ most_variables }
    requires statics { statics_in (gathered_seen tables.now).globals proc.now.names.items ≤ most_variables }
    ensures { IfOk result
        (λ entry. proc_of entry ≡ proc_entry (gathered_seen tables.now) (proc_seen proc.now)) }
{
    let names = variables(alloc, &tables.globals, &proc.names)?;
    let labels = labels_of(alloc, &proc.instrs)?;
    let instrs = resolve_instrs(alloc, tables, &names, &labels, &proc.instrs)?;
    let locals = locals_in(&tables.globals, &proc.names);
    let statics = statics_in(&tables.globals, &proc.names);
    Ok(entry_with(tables, proc, locals as u32, statics as u32, instrs))
}

// The entry of a procedure with so many locals, its parameters among them, and so many statics.
fn entry_with(
    tables: &GatheredMentions<'_>,
    proc: &ProcCode,
    locals: u32,
    statics: u32,
    instrs: Vec<Instr>,
) -> LinkedProcedure
    requires few { AreFew (gathered_seen tables.now) }
    requires params { params_in proc.now.names.items ≤ locals }
    ensures { proc_of result
        ≡ entry_of (gathered_seen tables.now) (proc_seen proc.now) locals statics instrs.items }
{
    let parameters = params_in(&proc.names) as u32;
    LinkedProcedure {
        name: text_index(&tables.strings, proc.name.as_slice()),
        parameters,
        collects: proc.collects,
        locals: locals - parameters,
        statics,
        instrs,
    }
}
