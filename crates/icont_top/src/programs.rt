// The program of units: its code and its image.
ghost use Rattle.std.specs.Prelude.{◌≡◌, ◌⊎◌, ◌<◌, List, None, Some, length, IfOk, IfErr, OnOk};
ghost use Rattle.std.specs.List.{All};
ghost use Rattle.icn_code.specs.CodeTables.{tables_of};
ghost use Rattle.icn_link.specs.Joined.{joined_code, named_procs, names_all};
ghost use Rattle.icn_link.specs.LinkFaults.{first_fault};
ghost use Rattle.icn_link.specs.Units.{units_seen};
ghost use Rattle.icn_prune.specs.KeptCode.{kept_of};
ghost use Rattle.icn_prune.specs.PrunedCode.{pruned_tables};
ghost use Rattle.icn_verify.specs.Faults.{IsVerified};
ghost use Rattle.icn_answer.specs.declared.answer.Answer.TheVariants.{BadUcode, Refused};
ghost use Rattle.icont_units.specs.Files.{first_name};
ghost use Rattle.icont_units.specs.Loading.{AreSoundMembers, HoldsMembers};
ghost use Rattle.icont_units.specs.Units.{Member, link_answer, unit_named};
ghost use Rattle.icont_top.specs.MadeUnits.{IsOfLink, Makes, RefusesCode, RefusesLink};

use icn_answer::Answer;
use icn_code::Code;
use icn_image::write_image;
use icn_link::{LinkFault, Linked, link};
use icn_prune::{kept, kept_is_least, prune};
use icn_tree::{Bytes, Rule};
use icn_unit::Unit;
use icn_verify::{Verified, VerifyFault, one_fault, verify};
use icont_units::Members;
use law_link::{translations_join, translations_run};
use law_prune::{pruned_code_is_no_longer, pruned_code_is_verified};
use law_verified::joined_code_is_verified;
use std::alloc::{AllocError, Global};

/// The code of a program, and its image.
#[derive(Drop)]
pub struct MadeProgram {
    pub code: Verified,
    pub image: Vec<u8>,
}

/// The code and the image of the program of these units. What is said of it holds of each list of members that the units stand for.
///
/// # Errors
///
/// `Refused` with the first rule of linking that the units break, told of a unit's base name. `BadUcode` with the first rule of
/// verified code that their code breaks, told of the first unit that was read as ucode: code of sources alone breaks none. `NoMemory`
/// where memory ran out.
pub fn make(alloc: Global, members: &Members) -> Result<MadeProgram, Answer>
    requires sound { AreSoundMembers members.now }
    ensures made { (list : List Member) → HoldsMembers members.now list → Makes list result }
    ensures others { IfErr result IsOfLink }
{
    joined_code_is_verified();
    translations_join();
    translations_run();
    kept_is_least();
    pruned_code_is_verified();
    pruned_code_is_no_longer();
    let linked = link_members(alloc, &members.units)?;
    let code = prune_linked(alloc, linked)?;
    let code = verify_linked(alloc, code, members)?;
    match write_image(alloc, code.code()) {
        Ok(image) => Ok(MadeProgram { code, image }),
        Err(_) => Err(Answer::NoMemory),
    }
}

// The linked code of units.
fn link_members(alloc: Global, units: &[Unit]) -> Result<Linked, Answer>
    ensures code { IfOk result (λ linked. tables_of linked.code ≡ joined_code (units_seen units.now)) }
    ensures named { IfOk result (λ linked. linked.named.items ≡ named_procs (units_seen units.now)) }
    ensures all { IfOk result (λ linked. linked.all ≡ names_all (units_seen units.now)) }
    ensures fits { OnOk result (first_fault (units_seen units.now) ≡ None) }
    ensures refused { IfErr result (RefusesLink (units_seen units.now)) }
    ensures others { IfErr result IsOfLink }
{
    match link(alloc, units) {
        Ok(linked) => Ok(linked),
        Err(fault) => Err(not_linked(alloc, units, &fault)),
    }
}

// The code of what was linked, without the procedures that nothing needs. The answer is want of memory.
fn prune_linked(alloc: Global, linked: Linked) -> Result<Code, Answer>
    requires named { All (λ number. number < length (tables_of linked.code).procs) linked.named.items }
    ensures code { IfOk result (λ code. tables_of code ≡ pruned_tables
        (kept_of (tables_of linked.code) linked.named.items linked.all) (tables_of linked.code)) }
    ensures memory { IfErr result (λ answer. answer ≡ Answer.NoMemory) }
{
    kept_is_least();
    let Linked { code, named, all } = linked;
    let Ok(keep) = kept(alloc, &code, &named, all) else {
        return Err(Answer::NoMemory);
    };
    match prune(alloc, code, &keep) {
        Ok(code) => Ok(code),
        Err(_) => Err(Answer::NoMemory),
    }
}

// The answer where linking these units finds this fault: told of the later unit, of the one that links, or of the first.
fn not_linked(alloc: Global, units: &[Unit], fault: &LinkFault) -> Answer
    ensures given { (result ≡ Answer.NoMemory)
        ⊎ (link_answer (units_seen units.now) fault.now ≡ Some result) }
    ensures others { IsOfLink result }
{
    match fault {
        LinkFault::K1 { unit, .. } => link_refusal(alloc, units, *unit, Rule::K1),
        LinkFault::K2 { unit, .. } => link_refusal(alloc, units, *unit, Rule::K2),
        LinkFault::K3 { .. } => link_refusal(alloc, units, 0, Rule::K3),
        LinkFault::K4 { unit, .. } => link_refusal(alloc, units, *unit, Rule::K4),
        LinkFault::NoMemory => Answer::NoMemory,
    }
}

// The answer that a rule of linking refuses the unit at this place.
fn link_refusal(alloc: Global, units: &[Unit], place: u64, rule: Rule) -> Answer
    ensures { (result ≡ Answer.NoMemory)
        ⊎ (result ≡ Refused (unit_named (units_seen units.now) place) 0 rule) }
{
    match Bytes::from_slice(alloc, name_at(units, place as usize)) {
        Ok(file) => Answer::Refused {
            file,
            line: 0,
            rule,
        },
        Err(_) => Answer::NoMemory,
    }
}

// The base name of the unit at this place.
fn name_at(units: &[Unit], place: usize) -> &[u8]
    ensures { result.now ≡ unit_named (units_seen units.now) place }
{
    match units.get(place) {
        Some(unit) => unit.name.as_slice(),
        None => &[],
    }
}

// The code as verified code. Where no unit was read as ucode, it breaks no rule.
fn verify_linked(alloc: Global, code: Code, members: &Members) -> Result<Verified, Answer>
    requires sources { members.now.first_ucode ≡ None → IsVerified (tables_of code) }
    ensures same { IfOk result (λ verified. verified.code ≡ code) }
    ensures verified { OnOk result (IsVerified (tables_of code)) }
    ensures refused { IfErr result
        (RefusesCode (units_seen members.now.units.items) members.now.first_ucode (tables_of code)) }
    ensures others { IfErr result IsOfLink }
{
    one_fault();
    match verify(alloc, code) {
        Ok(verified) => Ok(verified),
        Err(VerifyFault::V { rule, .. }) => match members.first_ucode {
            Some(place) => Err(bad_code(alloc, &members.units, place, rule)),
            None => unreachable!(),
        },
        Err(VerifyFault::NoMemory) => Err(Answer::NoMemory),
    }
}

// The answer that a rule of verified code is broken, told of the unit at this place.
fn bad_code(alloc: Global, units: &[Unit], place: usize, rule: Rule) -> Answer
    ensures { (result ≡ Answer.NoMemory)
        ⊎ (result ≡ BadUcode (first_name (unit_named (units_seen units.now) place)) rule) }
{
    match first_name(alloc, name_at(units, place)) {
        Ok(name) => Answer::BadUcode { name, rule },
        Err(_) => Answer::NoMemory,
    }
}

// The name of the first text of the unit of this base.
fn first_name(alloc: Global, base: &[u8]) -> Result<Bytes, AllocError>
    ensures { IfOk result (λ name. name ≡ first_name base.now) }
{
    let mut name = Vec::from_slice(alloc, base)?;
    name.extend_from_slice(b".u1")?;
    Ok(Bytes::new(name))
}
