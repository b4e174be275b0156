// The units that a command links.
ghost use Rattle.std.specs.Prelude.{◌≡◌, ◌<◌, ◌++◌, ◌∷◌, [], ℕ, false, List, not, map, vec_len, IfSome, IfOk, IfErr, OnOk};
ghost use Rattle.std.specs.List.{flat_map, list_any};
ghost use Rattle.std.specs.Str.{bytes_eq};
ghost use Rattle.icn_unit.specs.UnitViews.{decl_seen};
ghost use Rattle.icn_link.specs.FirstMentions.{with_text, with_texts};
ghost use Rattle.icn_link.specs.LinkFaults.{base_of, unit_names};
ghost use Rattle.icn_link.specs.Units.{units_seen};
ghost use Rattle.icn_answer.specs.FilesRead.{ReadsFiles};
ghost use Rattle.icont_units.specs.FetchedFiles.{IsOfLinked};
ghost use Rattle.icont_units.specs.Loading.{AreSought, MembersGrow, IsGathered, IsSought, AreSoundMembers, Knows, HoldsMembers, kept_units, texts_in, links_at};
ghost use Rattle.icont_units.specs.Units.{IsAbsent, Member, link_in, links_in};

use crate::members::{Members, push_ucode};
use crate::ucode::linked_unit;
use icn_answer::Answer;
use icn_host::Files;
use icn_link::base_of;
use icn_unit::{Unit, UnitDecl};
use indexmap::IndexSet;
use std::alloc::{AllocError, Global};

/// Adds the units that are linked and not there yet, in the order in which they are first mentioned; what they link themselves comes
/// behind what was mentioned before. One that is not there is passed over.
///
/// # Errors
///
/// `BadUcode` with the first rule that the texts of a unit break, `FileFault` where the store failed, `NoMemory`.
pub fn gather<F: Files>(alloc: Global, members: &mut Members, files: &mut F) -> Result<(), Answer>
    ensures gathered { IfSome (F.state files.old).held
        (λ held. (before : List Member) → HoldsMembers members.old before
        → IsGathered held before (links_in before) members.new result) }
    ensures sound { AreSoundMembers members.old → OnOk result (AreSoundMembers members.new) }
    ensures absent { OnOk result
        (AreSought (F.state files.old).counts.absences (F.state files.new).counts.absences
        (kept_units members.new).units) }
    ensures others { IfErr result IsOfLinked }
    ensures reads { ReadsFiles result ⊥ (F.state files.old) (F.state files.new) }
{
    let Ok(mut known) = names_of(alloc, &members.units) else {
        return Err(Answer::NoMemory);
    };
    let mut place = 0;
    while place < members.units.len() {
        gather_unit(alloc, place, members, &mut known, files)?;
        place += 1;
    }
    Ok(())
}

// The base names of units.
fn names_of(alloc: Global, units: &[Unit]) -> Result<IndexSet<Vec<u8>>, AllocError>
    ensures { IfOk result (λ known. texts_in known.keys ≡ with_texts [] (unit_names (units_seen units.now))) }
{
    let mut known = IndexSet::new(alloc);
    for unit in units {
        enter(alloc, &mut known, unit.name.as_slice())?;
    }
    Ok(known)
}

// Adds a base, and tells whether it is new.
fn enter(alloc: Global, known: &mut IndexSet<Vec<u8>>, base: &[u8]) -> Result<bool, AllocError>
    ensures new { IfOk result
        (λ is_new. is_new ≡ not (list_any (bytes_eq base.now) (texts_in known.old.keys))) }
    ensures known { OnOk result (texts_in known.new.keys ≡ with_text (texts_in known.old.keys) base.now) }
{
    let copy = Vec::from_slice(alloc, base)?;
    let (_, is_new) = known.insert_full(copy)?;
    Ok(is_new)
}

// Adds the units that the unit at this place links.
fn gather_unit<F: Files>(
    alloc: Global,
    place: usize,
    members: &mut Members,
    known: &mut IndexSet<Vec<u8>>,
    files: &mut F,
) -> Result<(), Answer>
    requires { place < vec_len members.old.units }
    ensures sought { IfSome (F.state files.old).held
        (λ held. Knows (IsAbsent held) (kept_units members.old).units (texts_in known.old.keys)
        → IsSought held members.old members.new (links_at (kept_units members.old).units place)
        (texts_in known.new.keys) result) }
    ensures grows { OnOk result
        (MembersGrow (F.state files.old).counts.absences (F.state files.new).counts.absences members.old
        members.new
        (texts_in known.old.keys) (texts_in known.new.keys) (links_at (kept_units members.old).units place)) }
    ensures others { IfErr result IsOfLinked }
    ensures reads { ReadsFiles result ⊥ (F.state files.old) (F.state files.new) }
{
    let Ok(bases) = linked_bases(alloc, &members.units[place].decls) else {
        return Err(Answer::NoMemory);
    };
    gather_bases(alloc, &bases, members, known, files)
}

// The bases that declarations link. They are copied, since the units grow while they are looked for.
fn linked_bases(alloc: Global, decls: &[UnitDecl]) -> Result<Vec<Vec<u8>>, AllocError>
    ensures { IfOk result (λ bases. texts_in bases.items ≡ flat_map link_in (map decl_seen decls.now)) }
{
    let mut bases = Vec::new(alloc);
    for decl in decls {
        push_link(alloc, &mut bases, decl)?;
    }
    Ok(bases)
}

// Adds the base that a declaration links.
fn push_link(alloc: Global, bases: &mut Vec<Vec<u8>>, decl: &UnitDecl) -> Result<(), AllocError>
    ensures { OnOk result
        (texts_in bases.new.items ≡ texts_in bases.old.items ++ link_in (decl_seen decl.now)) }
{
    match decl {
        UnitDecl::Link(text) => push_base(alloc, bases, base_of(text.as_slice())),
        UnitDecl::Global(_) | UnitDecl::Proc(_) | UnitDecl::Invocable(_) | UnitDecl::Record(_, _) =>
            Ok(()),
    }
}

fn push_base(alloc: Global, bases: &mut Vec<Vec<u8>>, base: &[u8]) -> Result<(), AllocError>
    ensures { OnOk result (texts_in bases.new.items ≡ texts_in bases.old.items ++ base.now ∷ []) }
{
    let copy = Vec::from_slice(alloc, base)?;
    bases.push(copy)?;
    Ok(())
}

// Adds the units of these bases.
fn gather_bases<F: Files>(
    alloc: Global,
    bases: &[Vec<u8>],
    members: &mut Members,
    known: &mut IndexSet<Vec<u8>>,
    files: &mut F,
) -> Result<(), Answer>
    ensures sought { IfSome (F.state files.old).held
        (λ held. Knows (IsAbsent held) (kept_units members.old).units (texts_in known.old.keys)
        → IsSought held members.old members.new (texts_in bases.now) (texts_in known.new.keys) result) }
    ensures grows { OnOk result
        (MembersGrow (F.state files.old).counts.absences (F.state files.new).counts.absences members.old
        members.new
        (texts_in known.old.keys) (texts_in known.new.keys) (texts_in bases.now)) }
    ensures others { IfErr result IsOfLinked }
    ensures reads { ReadsFiles result ⊥ (F.state files.old) (F.state files.new) }
{
    for base in bases {
        gather_base(alloc, base, members, known, files)?;
    }
    Ok(())
}

// Adds the unit of a base, where it is new and its texts are there.
fn gather_base<F: Files>(
    alloc: Global,
    base: &[u8],
    members: &mut Members,
    known: &mut IndexSet<Vec<u8>>,
    files: &mut F,
) -> Result<(), Answer>
    ensures sought { IfSome (F.state files.old).held
        (λ held. Knows (IsAbsent held) (kept_units members.old).units (texts_in known.old.keys)
        → IsSought held members.old members.new (base.now ∷ []) (texts_in known.new.keys) result) }
    ensures grows { OnOk result
        (MembersGrow (F.state files.old).counts.absences (F.state files.new).counts.absences members.old
        members.new
        (texts_in known.old.keys) (texts_in known.new.keys) (base.now ∷ [])) }
    ensures others { IfErr result IsOfLinked }
    ensures reads { ReadsFiles result ⊥ (F.state files.old) (F.state files.new) }
{
    match enter(alloc, known, base) {
        Ok(true) => add_linked(alloc, base, members, files),
        Ok(false) => Ok(()),
        Err(_) => Err(Answer::NoMemory),
    }
}

// Adds the unit of a base that is new, where its texts are there.
fn add_linked<F: Files>(
    alloc: Global,
    base: &[u8],
    members: &mut Members,
    files: &mut F,
) -> Result<(), Answer>
    ensures sought { IfSome (F.state files.old).held
        (λ held. (known : List (List ℕ)) → list_any (bytes_eq base.now) known ≡ false
        → Knows (IsAbsent held) (kept_units members.old).units known
        → IsSought held members.old members.new (base.now ∷ []) (known ++ base.now ∷ []) result) }
    ensures grows { (known : List (List ℕ)) → list_any (bytes_eq base.now) known ≡ false
        → OnOk result
        (MembersGrow (F.state files.old).counts.absences (F.state files.new).counts.absences members.old
        members.new
        known (known ++ base.now ∷ []) (base.now ∷ [])) }
    ensures others { IfErr result IsOfLinked }
    ensures reads { ReadsFiles result ⊥ (F.state files.old) (F.state files.new) }
{
    match linked_unit(alloc, base, files)? {
        Some(unit) => push_ucode(members, unit),
        None => Ok(()),
    }
}
