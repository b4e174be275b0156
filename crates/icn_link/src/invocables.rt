// What may be called by its name.
ghost use Rattle.std.specs.Prelude.{◌≡◌, ◌⊎◌, ◌++◌, ◌||◌, [], codes, is_some, map, None, IfErr, IfOk, OnOk};
ghost use Rattle.std.specs.List.{flat_map, list_any};
ghost use Rattle.std.specs.Option.{option_map};
ghost use Rattle.std.specs.Str.{bytes_eq};
ghost use Rattle.icn_unit.specs.PlainUnits.{owned_name, owned_names};
ghost use Rattle.icn_unit.specs.UnitViews.{decl_seen};
ghost use Rattle.icn_link.specs.declared.fault.LinkFault.TheVariants.{K4, NoMemory};
ghost use Rattle.icn_link.specs.Joined.{number_list};
ghost use Rattle.icn_link.specs.FirstMentions.{with_texts};
ghost use Rattle.icn_link.specs.LinkFaults.{may_be_called, unknown_by, unknown_fault, unknown_from, unknown_in, unknown_name, IsFault};
ghost use Rattle.icn_link.specs.Mentions.{function_named, invocable_in};
ghost use Rattle.icn_link.specs.Units.{all_decls, units_seen};
ghost use Rattle.icn_link.specs.Views.{decls_seen, entry_in, texts_seen};

use crate::fault::LinkFault;
use crate::gathered::{enter, function_named};
use icn_tree::Bytes;
use icn_unit::{Unit, UnitDecl};
use indexmap::{IndexMap, IndexSet};
use std::alloc::{AllocError, Global};

/// Refuses units that say that something may be called by its name which is not there. The error is K4 with the first such name, or
/// want of memory.
pub fn check_invocables(alloc: Global, units: &[Unit], decls: &[&UnitDecl]) -> Result<(), LinkFault>
    requires decls { decls_seen decls.now ≡ all_decls (units_seen units.now) }
    ensures none { OnOk result (unknown_name (units_seen units.now) ≡ None) }
    ensures fault { IfErr result (IsFault (unknown_name (units_seen units.now))) }
{
    let owned = owned_names(alloc, decls)?;
    check_all(alloc, &owned, units)
}

// The names of the procedures and records of all units.
fn owned_names<'a>(alloc: Global, decls: &[&'a UnitDecl]) -> Result<IndexSet<&'a [u8]>, AllocError>
    ensures { IfOk result
        (λ names. texts_seen names.keys ≡ with_texts [] (owned_names (decls_seen decls.now))) }
{
    let mut names = IndexSet::new(alloc);
    for decl in decls {
        enter_owned(&mut names, decl)?;
    }
    Ok(names)
}

fn enter_owned<'a>(names: &mut IndexSet<&'a [u8]>, decl: &'a UnitDecl) -> Result<(), AllocError>
    ensures { OnOk result (texts_seen names.new.keys
        ≡ with_texts (texts_seen names.old.keys) (owned_name (decl_seen decl.now))) }
{
    match decl {
        UnitDecl::Proc(name) => enter(names, name.as_slice()),
        UnitDecl::Record(name, _) => enter(names, name.as_slice()),
        UnitDecl::Global(_) => Ok(()),
        UnitDecl::Link(_) => Ok(()),
        UnitDecl::Invocable(_) => Ok(()),
    }
}

// Refuses units in which a name is said to be called that is not there, where these are procedures and records.
fn check_all(alloc: Global, owned: &IndexSet<&[u8]>, units: &[Unit]) -> Result<(), LinkFault>
    ensures none { OnOk result (unknown_from (texts_seen owned.now.keys) 0 (units_seen units.now) ≡ None) }
    ensures fault { IfErr result
        (IsFault (unknown_from (texts_seen owned.now.keys) 0 (units_seen units.now))) }
{
    for (index, unit) in units.iter().enumerate() {
        check_unit(alloc, owned, index as u64, &unit.decls)?;
    }
    Ok(())
}

// Refuses the unit of this index, of these declarations, where it has such a name.
fn check_unit(
    alloc: Global,
    owned: &IndexSet<&[u8]>,
    index: u64,
    decls: &[UnitDecl],
) -> Result<(), LinkFault>
    ensures none { OnOk result (unknown_in (texts_seen owned.now.keys) (map decl_seen decls.now) ≡ None) }
    ensures fault { IfErr result (IsFault (option_map (unknown_fault index)
        (unknown_in (texts_seen owned.now.keys) (map decl_seen decls.now)))) }
{
    for decl in decls {
        check_decl(alloc, owned, index, decl)?;
    }
    Ok(())
}

fn check_decl(
    alloc: Global,
    owned: &IndexSet<&[u8]>,
    index: u64,
    decl: &UnitDecl,
) -> Result<(), LinkFault>
    ensures none { OnOk result (unknown_by (texts_seen owned.now.keys) (decl_seen decl.now) ≡ None) }
    ensures fault { IfErr result (IsFault (option_map (unknown_fault index)
        (unknown_by (texts_seen owned.now.keys) (decl_seen decl.now)))) }
{
    match decl {
        UnitDecl::Invocable(text) => {
            let name = text.as_slice();
            if may_be_called(owned, name) {
                Ok(())
            } else {
                Err(unknown(alloc, index, name))
            }
        }
        UnitDecl::Global(_) | UnitDecl::Proc(_) | UnitDecl::Link(_) | UnitDecl::Record(_, _) => Ok(
            (),
        ),
    }
}

// Whether a text names all, a procedure, a record or a function.
fn may_be_called(owned: &IndexSet<&[u8]>, text: &[u8]) -> bool
    ensures { result ≡ may_be_called (texts_seen owned.now.keys) text.now }
{
    if text == b"all".as_slice() {
        return true;
    }
    is_there(owned, text)
}

// Whether a procedure, a record or a function has this name.
fn is_there(owned: &IndexSet<&[u8]>, text: &[u8]) -> bool
    ensures { result ≡ (list_any (bytes_eq text.now) (texts_seen owned.now.keys)
        || is_some (function_named text.now)) }
{
    owned.contains(text) || function_named(text).is_some()
}

fn unknown(alloc: Global, index: u64, name: &[u8]) -> LinkFault
    ensures { (result ≡ NoMemory) ⊎ (result ≡ K4 index name.now) }
{
    match Bytes::from_slice(alloc, name) {
        Ok(name) => LinkFault::K4 { unit: index, name },
        Err(AllocError) => LinkFault::NoMemory,
    }
}

/// The numbers of the procedures that may be called by their names, in the order of the declarations, where procedures have these
/// numbers. The error is want of memory.
pub fn named_procs(
    alloc: Global,
    procs: &IndexMap<&[u8], u32>,
    decls: &[&UnitDecl],
) -> Result<Vec<u32>, AllocError>
    ensures { IfOk result (λ numbers. numbers.items ≡ flat_map (λ text. number_list (entry_in procs.now text))
        (flat_map invocable_in (decls_seen decls.now))) }
{
    let mut numbers = Vec::new(alloc);
    for decl in decls {
        push_named(&mut numbers, procs, decl)?;
    }
    Ok(numbers)
}

// Adds the procedure that a declaration names, if it names one.
fn push_named(
    numbers: &mut Vec<u32>,
    procs: &IndexMap<&[u8], u32>,
    decl: &UnitDecl,
) -> Result<(), AllocError>
    ensures { OnOk result (numbers.new.items ≡ numbers.old.items
        ++ flat_map (λ text. number_list (entry_in procs.now text)) (invocable_in (decl_seen decl.now))) }
{
    match decl {
        UnitDecl::Invocable(text) => push_number(numbers, procs, text.as_slice()),
        UnitDecl::Global(_) => Ok(()),
        UnitDecl::Proc(_) => Ok(()),
        UnitDecl::Link(_) => Ok(()),
        UnitDecl::Record(_, _) => Ok(()),
    }
}

// Adds the number of the procedure of this name, if there is one.
fn push_number(
    numbers: &mut Vec<u32>,
    procs: &IndexMap<&[u8], u32>,
    name: &[u8],
) -> Result<(), AllocError>
    ensures { OnOk result
        (numbers.new.items ≡ numbers.old.items ++ number_list (entry_in procs.now name.now)) }
{
    match procs.get(name) {
        Some(number) => {
            numbers.push(*number)?;
            Ok(())
        }
        None => Ok(()),
    }
}

/// Whether all may be called by their names. It takes no memory.
pub fn names_all(decls: &[&UnitDecl]) -> bool
    ensures { result ≡ list_any (bytes_eq (codes "all")) (flat_map invocable_in (decls_seen decls.now)) }
{
    for decl in decls {
        if is_all(decl) {
            return true;
        }
    }
    false
}

fn is_all(decl: &UnitDecl) -> bool
    ensures { result ≡ list_any (bytes_eq (codes "all")) (invocable_in (decl_seen decl.now)) }
{
    match decl {
        UnitDecl::Invocable(text) => text.as_slice() == b"all".as_slice(),
        UnitDecl::Global(_) => false,
        UnitDecl::Proc(_) => false,
        UnitDecl::Link(_) => false,
        UnitDecl::Record(_, _) => false,
    }
}
