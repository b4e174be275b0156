// Units that are linked and not there.
ghost use Rattle.std.specs.Prelude.{◌≡◌, ◌⊎◌, [], map, None, IfErr, IfOk, OnOk};
ghost use Rattle.std.specs.Option.{option_map};
ghost use Rattle.icn_unit.specs.UnitViews.{decl_seen};
ghost use Rattle.icn_link.specs.declared.fault.LinkFault.TheVariants.{K2, NoMemory};
ghost use Rattle.icn_link.specs.FirstMentions.{with_text, with_texts};
ghost use Rattle.icn_link.specs.LinkFaults.{base_of, missing_unit, missing_by, missing_fault, missing_from, missing_in, unit_names, IsFault};
ghost use Rattle.icn_link.specs.Units.{units_seen};
ghost use Rattle.icn_link.specs.Views.{texts_seen};

use crate::fault::LinkFault;
use crate::gathered::enter;
use icn_tree::Bytes;
use icn_unit::{Unit, UnitDecl};
use indexmap::IndexSet;
use std::alloc::{AllocError, Global};

/// Refuses units of which one links a unit that is none of them. The error is K2 with the first such unit and the base name
/// that it links, or want of memory.
pub fn check_links(alloc: Global, units: &[Unit]) -> Result<(), LinkFault>
    ensures none { OnOk result (missing_unit (units_seen units.now) ≡ None) }
    ensures fault { IfErr result (IsFault (missing_unit (units_seen units.now))) }
{
    let names = names_of(alloc, units)?;
    check_all(alloc, &names, units)
}

// The base names of units.
fn names_of<'a>(alloc: Global, units: &'a [Unit]) -> Result<IndexSet<&'a [u8]>, AllocError>
    ensures { IfOk result
        (λ names. texts_seen names.keys ≡ with_texts [] (unit_names (units_seen units.now))) }
{
    let mut names = IndexSet::new(alloc);
    for unit in units {
        enter(&mut names, unit.name.as_slice())?;
    }
    Ok(names)
}

// Refuses units that link one of another name than these.
fn check_all(alloc: Global, names: &IndexSet<&[u8]>, units: &[Unit]) -> Result<(), LinkFault>
    ensures none { OnOk result (missing_from (texts_seen names.now.keys) 0 (units_seen units.now) ≡ None) }
    ensures fault { IfErr result
        (IsFault (missing_from (texts_seen names.now.keys) 0 (units_seen units.now))) }
{
    for (index, unit) in units.iter().enumerate() {
        check_unit(alloc, names, index as u64, &unit.decls)?;
    }
    Ok(())
}

// Refuses the unit of this index, of these declarations, where it links one of another name.
fn check_unit(
    alloc: Global,
    names: &IndexSet<&[u8]>,
    index: u64,
    decls: &[UnitDecl],
) -> Result<(), LinkFault>
    ensures none { OnOk result (missing_in (texts_seen names.now.keys) (map decl_seen decls.now) ≡ None) }
    ensures fault { IfErr result (IsFault (option_map (missing_fault index)
        (missing_in (texts_seen names.now.keys) (map decl_seen decls.now)))) }
{
    for decl in decls {
        check_decl(alloc, names, index, decl)?;
    }
    Ok(())
}

fn check_decl(
    alloc: Global,
    names: &IndexSet<&[u8]>,
    index: u64,
    decl: &UnitDecl,
) -> Result<(), LinkFault>
    ensures none { OnOk result (missing_by (texts_seen names.now.keys) (decl_seen decl.now) ≡ None) }
    ensures fault { IfErr result (IsFault (option_map (missing_fault index)
        (missing_by (texts_seen names.now.keys) (decl_seen decl.now)))) }
{
    match decl {
        UnitDecl::Link(text) => {
            let base = base_of(text.as_slice());
            if names.contains(base) {
                Ok(())
            } else {
                Err(missing_name(alloc, index, base))
            }
        }
        UnitDecl::Global(_) | UnitDecl::Proc(_) | UnitDecl::Invocable(_) | UnitDecl::Record(_, _) =>
            Ok(()),
    }
}

fn missing_name(alloc: Global, index: u64, name: &[u8]) -> LinkFault
    ensures { (result ≡ NoMemory) ⊎ (result ≡ K2 index name.now) }
{
    match Bytes::from_slice(alloc, name) {
        Ok(name) => LinkFault::K2 { unit: index, name },
        Err(AllocError) => LinkFault::NoMemory,
    }
}

/// The base name that a text of `link` names: the text without a suffix `.u1` or `.u2`.
pub fn base_of(text: &[u8]) -> &[u8]
    ensures { result.now ≡ base_of text.now }
{
    match text.strip_suffix(b".u1".as_slice()) {
        Some(base) => base,
        None => match text.strip_suffix(b".u2".as_slice()) {
            Some(base) => base,
            None => text,
        },
    }
}
