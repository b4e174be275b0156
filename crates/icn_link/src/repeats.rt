// Names that are procedure or record in two units.
ghost use Rattle.std.specs.Prelude.{◌≡◌, ◌⊎◌, ◌++◌, [], List, map, None, IfErr, IfOk, OnOk};
ghost use Rattle.icn_unit.specs.PlainUnits.{PlainDecl};
ghost use Rattle.icn_unit.specs.UnitViews.{decl_seen};
ghost use Rattle.icn_link.specs.declared.fault.LinkFault.TheVariants.{K1, NoMemory};
ghost use Rattle.icn_link.specs.LinkFaults.{owner_in, owners_from, owners_in, repeat_of, repeated_name, repeated_from, IsFault, Owner};
ghost use Rattle.icn_link.specs.Units.{units_seen};
ghost use Rattle.icn_link.specs.Views.{owner_seen};

use crate::fault::{DeclPlace, LinkFault};
use icn_tree::Bytes;
use icn_unit::{Unit, UnitDecl};
use indexmap::IndexMap;
use std::alloc::{AllocError, Global};

/// A procedure or a record, with the place of its declaration.
#[derive(Clone, Copy)]
pub struct Owner<'a> {
    pub name: &'a [u8],
    pub place: DeclPlace,
}

/// Refuses units in which a name is procedure or record twice. The error is K1 with the first declaration that repeats a
/// name, or want of memory.
pub fn check_owners(alloc: Global, units: &[Unit]) -> Result<(), LinkFault>
    ensures none { OnOk result (repeated_name (units_seen units.now) ≡ None) }
    ensures fault { IfErr result (IsFault (repeated_name (units_seen units.now))) }
{
    let owners = owners_of(alloc, units)?;
    check_repeats(alloc, &owners)
}

// The procedures and records of units.
fn owners_of<'a>(alloc: Global, units: &'a [Unit]) -> Result<Vec<Owner<'a>>, AllocError>
    ensures { IfOk result
        (λ owners. map owner_seen owners.items ≡ owners_from 0 (units_seen units.now)) }
{
    let mut owners = Vec::new(alloc);
    for (place, unit) in units.iter().enumerate() {
        put_owners(&mut owners, place as u64, &unit.decls)?;
    }
    Ok(owners)
}

// Those of the unit at this place.
fn put_owners<'a>(
    owners: &mut Vec<Owner<'a>>,
    unit: u64,
    decls: &'a [UnitDecl],
) -> Result<(), AllocError>
    ensures { OnOk result (map owner_seen owners.new.items ≡ map owner_seen owners.old.items
        ++ owners_in unit 0 (map decl_seen decls.now)) }
{
    for (place, decl) in decls.iter().enumerate() {
        let place = DeclPlace {
            unit,
            decl: place as u64,
        };
        put_owner(owners, place, decl)?;
    }
    Ok(())
}

fn put_owner<'a>(
    owners: &mut Vec<Owner<'a>>,
    place: DeclPlace,
    decl: &'a UnitDecl,
) -> Result<(), AllocError>
    ensures { OnOk result (map owner_seen owners.new.items ≡ map owner_seen owners.old.items
        ++ owner_in place.unit place.decl (decl_seen decl.now)) }
{
    match decl {
        UnitDecl::Proc(name) => {
            owners.push(Owner {
                name: name.as_slice(),
                place,
            })?;
            Ok(())
        }
        UnitDecl::Record(name, _) => {
            owners.push(Owner {
                name: name.as_slice(),
                place,
            })?;
            Ok(())
        }
        UnitDecl::Global(_) | UnitDecl::Link(_) | UnitDecl::Invocable(_) => Ok(()),
    }
}

// Refuses procedures and records of which two have the same name.
fn check_repeats(alloc: Global, owners: &[Owner<'_>]) -> Result<(), LinkFault>
    ensures none { OnOk result (repeated_from [] (map owner_seen owners.now) ≡ None) }
    ensures fault { IfErr result (IsFault (repeated_from [] (map owner_seen owners.now))) }
{
    let mut places: IndexMap<&[u8], DeclPlace> = IndexMap::new(alloc);
    for owner in owners {
        match places.get(owner.name) {
            Some(first) => return Err(repeat(alloc, owner.name, *first, owner.place)),
            None => {}
        }
        places.insert(owner.name, owner.place)?;
    }
    Ok(())
}

fn repeat(alloc: Global, name: &[u8], first: DeclPlace, second: DeclPlace) -> LinkFault
    ensures { (result ≡ NoMemory) ⊎ (result ≡ K1 second.unit name.now first second) }
{
    match Bytes::from_slice(alloc, name) {
        Ok(name) => LinkFault::K1 {
            unit: second.unit,
            name,
            first,
            second,
        },
        Err(AllocError) => LinkFault::NoMemory,
    }
}
