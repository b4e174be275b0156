// What units mention, each once.
ghost use Rattle.std.specs.Prelude.{◌≡◌, ◌≤◌, ◌++◌, ◌∷◌, [], List, if◌then◌else◌, is_some, length, map, IfOk, OnOk};
ghost use Rattle.std.specs.List.{flat_map};
ghost use Rattle.icn_profile.specs.Numbers.{most_entries};
ghost use Rattle.icn_unit.specs.declared.unit.UnitInstr.{UnitInstr};
ghost use Rattle.icn_unit.specs.declared.unit.UnitName.{UnitName};
ghost use Rattle.icn_unit.specs.PlainUnits.{PlainDecl, PlainProc, proc_names};
ghost use Rattle.icn_unit.specs.UnitViews.{decl_seen, proc_seen};
ghost use Rattle.icn_link.specs.FirstMentions.{integer_index, text_index, with_integer, with_integers, with_text, with_texts};
ghost use Rattle.icn_link.specs.Mentions.{declared_names, field_in, fields, fields_in, function_at, function_in, function_used, functions_in, function_named, global_in, globals, integer_in, integers, mention_of, all_mentions, mentioned_by, mentioned_in, record_name_in, record_names, set_in, sets, string_mentions, strings, text_in, used_globals};
ghost use Rattle.icn_link.specs.Views.{decls_seen, gathered_seen, procs_seen, texts_seen};

use crate::mention::{Mention, mention_of, name_used};
use icn_text::{Func, func_named};
use icn_tree::Bytes;
use icn_unit::{NameKind, ProcCode, UnitDecl, UnitInstr, UnitName};
use indexmap::IndexSet;
use std::alloc::{AllocError, Global};

/// What the declarations and the instructions of units mention, each once, in the order in which it is first mentioned.
#[derive(Drop)]
pub struct GatheredMentions<'a> {
    /// The names of fields, records, globals and procedures, and the string literals.
    pub strings: IndexSet<&'a [u8]>,
    /// The members of csets.
    pub sets: IndexSet<&'a [u8]>,
    pub integers: IndexSet<i64>,
    /// The names of fields.
    pub fields: IndexSet<&'a [u8]>,
    /// The names that are declared global.
    pub declared: IndexSet<&'a [u8]>,
    /// The names of globals: those, then the functions that instructions use, and then those that are only named.
    pub globals: IndexSet<&'a [u8]>,
}

/// What these declarations and procedures mention. The error is want of memory.
pub fn gather<'a>(
    alloc: Global,
    decls: &[&'a UnitDecl],
    procs: &[&'a ProcCode],
) -> Result<GatheredMentions<'a>, AllocError>
    ensures { IfOk result
        (λ tables. gathered_seen tables ≡ all_mentions (decls_seen decls.now) (procs_seen procs.now)) }
{
    let declared = collect_declared(alloc, decls)?;
    let globals = globals(alloc, decls, procs)?;
    let fields = fields(alloc, decls, procs)?;
    let strings = strings(alloc, &fields, &globals, decls, procs)?;
    let sets = sets(alloc, procs)?;
    let integers = integers(alloc, procs)?;
    Ok(GatheredMentions {
        strings,
        sets,
        integers,
        fields,
        declared,
        globals,
    })
}

// Globals

fn collect_declared<'a>(
    alloc: Global,
    decls: &[&'a UnitDecl],
) -> Result<IndexSet<&'a [u8]>, AllocError>
    ensures { IfOk result (λ names. texts_seen names.keys ≡ declared_names (decls_seen decls.now)) }
{
    let mut names = IndexSet::new(alloc);
    for decl in decls {
        enter_global(&mut names, decl)?;
    }
    Ok(names)
}

fn enter_global<'a>(names: &mut IndexSet<&'a [u8]>, decl: &'a UnitDecl) -> Result<(), AllocError>
    ensures { OnOk result ((rest : List PlainDecl)
        → with_texts (texts_seen names.new.keys) (flat_map global_in rest)
        ≡ with_texts (texts_seen names.old.keys) (flat_map global_in (decl_seen decl.now ∷ rest))) }
{
    match decl {
        UnitDecl::Global(name) => enter(names, name.as_slice()),
        UnitDecl::Proc(name) => enter(names, name.as_slice()),
        UnitDecl::Record(name, _) => enter(names, name.as_slice()),
        UnitDecl::Link(_) => Ok(()),
        UnitDecl::Invocable(_) => Ok(()),
    }
}

fn globals<'a>(
    alloc: Global,
    decls: &[&'a UnitDecl],
    procs: &[&'a ProcCode],
) -> Result<IndexSet<&'a [u8]>, AllocError>
    ensures { IfOk result
        (λ names. texts_seen names.keys ≡ globals (decls_seen decls.now) (procs_seen procs.now)) }
{
    let mut names = used_globals(alloc, decls, procs)?;
    for proc in procs {
        enter_functions(&mut names, &proc.names)?;
    }
    Ok(names)
}

// What is declared, and then the functions that instructions use.
fn used_globals<'a>(
    alloc: Global,
    decls: &[&'a UnitDecl],
    procs: &[&'a ProcCode],
) -> Result<IndexSet<&'a [u8]>, AllocError>
    ensures { IfOk result
        (λ names. texts_seen names.keys ≡ used_globals (decls_seen decls.now) (procs_seen procs.now)) }
{
    let mut names = collect_declared(alloc, decls)?;
    for proc in procs {
        enter_functions_used(&mut names, &proc.names, &proc.instrs)?;
    }
    Ok(names)
}

fn enter_functions_used<'a>(
    names: &mut IndexSet<&'a [u8]>,
    entries: &'a [UnitName],
    instrs: &[UnitInstr],
) -> Result<(), AllocError>
    ensures { OnOk result (texts_seen names.new.keys
        ≡ with_texts (texts_seen names.old.keys) (flat_map (function_used entries.now) instrs.now)) }
{
    for instr in instrs {
        enter_function_used(names, entries, instr)?;
    }
    Ok(())
}

fn enter_function_used<'a>(
    names: &mut IndexSet<&'a [u8]>,
    entries: &'a [UnitName],
    instr: &UnitInstr,
) -> Result<(), AllocError>
    ensures { OnOk result (texts_seen names.new.keys
        ≡ with_texts (texts_seen names.old.keys) (function_used entries.now instr.now)) }
{
    match name_used(instr) {
        Some(place) => enter_function_at(names, entries, place),
        None => Ok(()),
    }
}

fn enter_function_at<'a>(
    names: &mut IndexSet<&'a [u8]>,
    entries: &'a [UnitName],
    place: u32,
) -> Result<(), AllocError>
    ensures { OnOk result (texts_seen names.new.keys
        ≡ with_texts (texts_seen names.old.keys) (function_at entries.now place)) }
{
    match entries.get(place as usize) {
        Some(entry) => enter_named_function(names, entry),
        None => Ok(()),
    }
}

fn enter_named_function<'a>(
    names: &mut IndexSet<&'a [u8]>,
    entry: &'a UnitName,
) -> Result<(), AllocError>
    ensures { OnOk result (texts_seen names.new.keys
        ≡ with_texts (texts_seen names.old.keys) (function_in entry.now)) }
{
    match entry.kind {
        NameKind::Undeclared => enter_undeclared(names, entry.name.as_slice()),
        NameKind::Parameter => Ok(()),
        NameKind::Local => Ok(()),
        NameKind::Static => Ok(()),
    }
}

fn enter_functions<'a>(
    names: &mut IndexSet<&'a [u8]>,
    entries: &'a [UnitName],
) -> Result<(), AllocError>
    ensures { OnOk result (texts_seen names.new.keys
        ≡ with_texts (texts_seen names.old.keys) (flat_map function_in entries.now)) }
{
    for entry in entries {
        enter_function(names, entry)?;
    }
    Ok(())
}

fn enter_function<'a>(names: &mut IndexSet<&'a [u8]>, entry: &'a UnitName) -> Result<(), AllocError>
    ensures { OnOk result ((rest : List UnitName)
        → with_texts (texts_seen names.new.keys) (flat_map function_in rest)
        ≡ with_texts (texts_seen names.old.keys) (flat_map function_in (entry.now ∷ rest))) }
{
    match entry.kind {
        NameKind::Undeclared => enter_undeclared(names, entry.name.as_slice()),
        NameKind::Parameter => Ok(()),
        NameKind::Local => Ok(()),
        NameKind::Static => Ok(()),
    }
}

fn enter_undeclared<'a>(names: &mut IndexSet<&'a [u8]>, name: &'a [u8]) -> Result<(), AllocError>
    ensures { OnOk result (texts_seen names.new.keys ≡ with_texts (texts_seen names.old.keys)
        (if is_some (function_named name.now) then name.now ∷ [] else [])) }
{
    match function_named(name) {
        Some(_) => enter(names, name),
        None => Ok(()),
    }
}

/// The built-in function of a name.
pub fn function_named(name: &[u8]) -> Option<Func>
    ensures { result ≡ function_named name.now }
{
    func_named(name)
}

// Fields

fn fields<'a>(
    alloc: Global,
    decls: &[&'a UnitDecl],
    procs: &[&'a ProcCode],
) -> Result<IndexSet<&'a [u8]>, AllocError>
    ensures { IfOk result
        (λ names. texts_seen names.keys ≡ fields (decls_seen decls.now) (procs_seen procs.now)) }
{
    let mut names = IndexSet::new(alloc);
    enter_record_fields(&mut names, decls)?;
    for proc in procs {
        enter_fields_used(&mut names, &proc.instrs)?;
    }
    Ok(names)
}

fn enter_record_fields<'a>(
    names: &mut IndexSet<&'a [u8]>,
    decls: &[&'a UnitDecl],
) -> Result<(), AllocError>
    ensures { OnOk result (texts_seen names.new.keys
        ≡ with_texts (texts_seen names.old.keys) (flat_map fields_in (decls_seen decls.now))) }
{
    for decl in decls {
        enter_fields(names, decl)?;
    }
    Ok(())
}

fn enter_fields<'a>(names: &mut IndexSet<&'a [u8]>, decl: &'a UnitDecl) -> Result<(), AllocError>
    ensures { OnOk result (texts_seen names.new.keys
        ≡ with_texts (texts_seen names.old.keys) (fields_in (decl_seen decl.now))) }
{
    match decl {
        UnitDecl::Record(_, fields) => enter_all(names, fields),
        UnitDecl::Global(_) => Ok(()),
        UnitDecl::Proc(_) => Ok(()),
        UnitDecl::Link(_) => Ok(()),
        UnitDecl::Invocable(_) => Ok(()),
    }
}

fn enter_all<'a>(names: &mut IndexSet<&'a [u8]>, texts: &'a [Bytes]) -> Result<(), AllocError>
    ensures { OnOk result (texts_seen names.new.keys ≡ with_texts (texts_seen names.old.keys) texts.now) }
{
    for text in texts {
        enter(names, text.as_slice())?;
    }
    Ok(())
}

fn enter_fields_used<'a>(
    names: &mut IndexSet<&'a [u8]>,
    instrs: &'a [UnitInstr],
) -> Result<(), AllocError>
    ensures { OnOk result (texts_seen names.new.keys ≡ with_texts (texts_seen names.old.keys)
        (flat_map (λ instr. field_in (mention_of instr)) instrs.now)) }
{
    for instr in instrs {
        enter_field_used(names, instr)?;
    }
    Ok(())
}

fn enter_field_used<'a>(
    names: &mut IndexSet<&'a [u8]>,
    instr: &'a UnitInstr,
) -> Result<(), AllocError>
    ensures { OnOk result (texts_seen names.new.keys
        ≡ with_texts (texts_seen names.old.keys) (field_in (mention_of instr.now))) }
{
    match mention_of(instr) {
        Mention::Field(name) => enter(names, name),
        Mention::Nothing => Ok(()),
        Mention::Integer(_) => Ok(()),
        Mention::Text(_) => Ok(()),
        Mention::Set(_) => Ok(()),
        Mention::Operands(_) => Ok(()),
    }
}

// Strings

fn strings<'a>(
    alloc: Global,
    fields: &IndexSet<&'a [u8]>,
    globals: &IndexSet<&'a [u8]>,
    decls: &[&'a UnitDecl],
    procs: &[&'a ProcCode],
) -> Result<IndexSet<&'a [u8]>, AllocError>
    ensures { IfOk result (λ texts. texts_seen texts.keys
        ≡ with_texts [] (texts_seen fields.now.keys ++ (record_names (decls_seen decls.now)
        ++ (texts_seen globals.now.keys
        ++ (proc_names (procs_seen procs.now) ++ mentioned_by text_in (procs_seen procs.now)))))) }
{
    let mut texts = IndexSet::new(alloc);
    enter_names(&mut texts, fields.as_slice())?;
    enter_record_names(&mut texts, decls)?;
    enter_names(&mut texts, globals.as_slice())?;
    enter_proc_names(&mut texts, procs)?;
    enter_literals(&mut texts, procs)?;
    Ok(texts)
}

fn enter_names<'a>(texts: &mut IndexSet<&'a [u8]>, names: &[&'a [u8]]) -> Result<(), AllocError>
    ensures { OnOk result
        (texts_seen texts.new.keys ≡ with_texts (texts_seen texts.old.keys) (texts_seen names.now)) }
{
    for name in names {
        enter(texts, name)?;
    }
    Ok(())
}

fn enter_record_names<'a>(
    texts: &mut IndexSet<&'a [u8]>,
    decls: &[&'a UnitDecl],
) -> Result<(), AllocError>
    ensures { OnOk result (texts_seen texts.new.keys
        ≡ with_texts (texts_seen texts.old.keys) (record_names (decls_seen decls.now))) }
{
    for decl in decls {
        enter_record_name(texts, decl)?;
    }
    Ok(())
}

fn enter_record_name<'a>(
    texts: &mut IndexSet<&'a [u8]>,
    decl: &'a UnitDecl,
) -> Result<(), AllocError>
    ensures { OnOk result ((rest : List PlainDecl)
        → with_texts (texts_seen texts.new.keys) (flat_map record_name_in rest)
        ≡ with_texts (texts_seen texts.old.keys) (flat_map record_name_in (decl_seen decl.now ∷ rest))) }
{
    match decl {
        UnitDecl::Record(name, _) => enter(texts, name.as_slice()),
        UnitDecl::Global(_) => Ok(()),
        UnitDecl::Proc(_) => Ok(()),
        UnitDecl::Link(_) => Ok(()),
        UnitDecl::Invocable(_) => Ok(()),
    }
}

fn enter_proc_names<'a>(
    texts: &mut IndexSet<&'a [u8]>,
    procs: &[&'a ProcCode],
) -> Result<(), AllocError>
    ensures { OnOk result (texts_seen texts.new.keys
        ≡ with_texts (texts_seen texts.old.keys) (proc_names (procs_seen procs.now))) }
{
    for proc in procs {
        enter(texts, proc.name.as_slice())?;
    }
    Ok(())
}

fn enter_literals<'a>(
    texts: &mut IndexSet<&'a [u8]>,
    procs: &[&'a ProcCode],
) -> Result<(), AllocError>
    ensures { OnOk result (texts_seen texts.new.keys
        ≡ with_texts (texts_seen texts.old.keys) (mentioned_by text_in (procs_seen procs.now))) }
{
    for proc in procs {
        enter_texts_used(texts, &proc.instrs)?;
    }
    Ok(())
}

fn enter_texts_used<'a>(
    texts: &mut IndexSet<&'a [u8]>,
    instrs: &'a [UnitInstr],
) -> Result<(), AllocError>
    ensures { OnOk result (texts_seen texts.new.keys ≡ with_texts (texts_seen texts.old.keys)
        (flat_map (λ instr. text_in (mention_of instr)) instrs.now)) }
{
    for instr in instrs {
        enter_text_used(texts, instr)?;
    }
    Ok(())
}

fn enter_text_used<'a>(
    texts: &mut IndexSet<&'a [u8]>,
    instr: &'a UnitInstr,
) -> Result<(), AllocError>
    ensures { OnOk result (texts_seen texts.new.keys
        ≡ with_texts (texts_seen texts.old.keys) (text_in (mention_of instr.now))) }
{
    match mention_of(instr) {
        Mention::Text(text) => enter(texts, text),
        Mention::Nothing => Ok(()),
        Mention::Integer(_) => Ok(()),
        Mention::Field(_) => Ok(()),
        Mention::Set(_) => Ok(()),
        Mention::Operands(_) => Ok(()),
    }
}

// Csets and integers

fn sets<'a>(alloc: Global, procs: &[&'a ProcCode]) -> Result<IndexSet<&'a [u8]>, AllocError>
    ensures { IfOk result (λ found. texts_seen found.keys ≡ sets (procs_seen procs.now)) }
{
    let mut found = IndexSet::new(alloc);
    for proc in procs {
        enter_sets_used(&mut found, &proc.instrs)?;
    }
    Ok(found)
}

fn enter_sets_used<'a>(
    found: &mut IndexSet<&'a [u8]>,
    instrs: &'a [UnitInstr],
) -> Result<(), AllocError>
    ensures { OnOk result (texts_seen found.new.keys
        ≡ with_texts (texts_seen found.old.keys) (flat_map (λ instr. set_in (mention_of instr)) instrs.now)) }
{
    for instr in instrs {
        enter_set_used(found, instr)?;
    }
    Ok(())
}

fn enter_set_used<'a>(
    found: &mut IndexSet<&'a [u8]>,
    instr: &'a UnitInstr,
) -> Result<(), AllocError>
    ensures { OnOk result
        (texts_seen found.new.keys ≡ with_texts (texts_seen found.old.keys) (set_in (mention_of instr.now))) }
{
    match mention_of(instr) {
        Mention::Set(members) => enter(found, members),
        Mention::Nothing => Ok(()),
        Mention::Integer(_) => Ok(()),
        Mention::Field(_) => Ok(()),
        Mention::Text(_) => Ok(()),
        Mention::Operands(_) => Ok(()),
    }
}

fn integers(alloc: Global, procs: &[&ProcCode]) -> Result<IndexSet<i64>, AllocError>
    ensures { IfOk result (λ found. found.keys ≡ integers (procs_seen procs.now)) }
{
    let mut found = IndexSet::new(alloc);
    for proc in procs {
        enter_integers_used(&mut found, &proc.instrs)?;
    }
    Ok(found)
}

fn enter_integers_used(found: &mut IndexSet<i64>, instrs: &[UnitInstr]) -> Result<(), AllocError>
    ensures { OnOk result (found.new.keys
        ≡ with_integers found.old.keys (flat_map (λ instr. integer_in (mention_of instr)) instrs.now)) }
{
    for instr in instrs {
        enter_integer_used(found, instr)?;
    }
    Ok(())
}

fn enter_integer_used(found: &mut IndexSet<i64>, instr: &UnitInstr) -> Result<(), AllocError>
    ensures { OnOk result
        (found.new.keys ≡ with_integers found.old.keys (integer_in (mention_of instr.now))) }
{
    match mention_of(instr) {
        Mention::Integer(n) => enter_integer(found, n),
        Mention::Nothing => Ok(()),
        Mention::Text(_) => Ok(()),
        Mention::Field(_) => Ok(()),
        Mention::Set(_) => Ok(()),
        Mention::Operands(_) => Ok(()),
    }
}

// One thing

/// Adds a text, if it is new. The error is want of memory.
pub fn enter<'a>(texts: &mut IndexSet<&'a [u8]>, text: &'a [u8]) -> Result<(), AllocError>
    ensures { OnOk result (texts_seen texts.new.keys ≡ with_text (texts_seen texts.old.keys) text.now) }
{
    texts.insert_full(text)?;
    Ok(())
}

fn enter_integer(found: &mut IndexSet<i64>, n: i64) -> Result<(), AllocError>
    ensures { OnOk result (found.new.keys ≡ with_integer found.old.keys n) }
{
    found.insert_full(n)?;
    Ok(())
}

/// Where a text stands in a table.
pub fn text_index(texts: &IndexSet<&[u8]>, text: &[u8]) -> u32
    requires { length (texts_seen texts.now.keys) ≤ most_entries }
    ensures { result ≡ text_index (texts_seen texts.now.keys) text.now }
{
    match texts.get_index_of(text) {
        Some(index) => index as u32,
        None => texts.len() as u32,
    }
}

/// Where an integer stands in the table of integers.
pub fn integer_index(integers: &IndexSet<i64>, n: i64) -> u32
    requires { length integers.now.keys ≤ most_entries }
    ensures { result ≡ integer_index integers.now.keys n }
{
    match integers.get_index_of(&n) {
        Some(index) => index as u32,
        None => integers.len() as u32,
    }
}
