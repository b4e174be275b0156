// The units of a command.
ghost use Rattle.std.specs.Prelude.{◌≡◌, List, Err, IfSome, IfOk, IfErr, OnOk};
ghost use Rattle.icn_link.specs.Units.{unit_seen};
ghost use Rattle.icont_units.specs.FetchedFiles.{file_seen, files_seen, IsOfLoading};
ghost use Rattle.icont_units.specs.Files.{source, ucode};
ghost use Rattle.icont_units.specs.Loading.{AreSought, IsCome, IsLoaded, IsRead, AreSoundMembers, HoldsMembers, kept_units, with_source, with_ucode};
ghost use Rattle.icn_answer.specs.Answers.{IsErrOfAbsence};
ghost use Rattle.icn_answer.specs.FilesRead.{ReadsFiles};
ghost use Rattle.icont_units.specs.Units.{Member};

use crate::files::{CommandFile, FileKind};
use crate::members_linked::gather;
use crate::source::checked_source;
use crate::ucode::named_unit;
use icn_answer::Answer;
use icn_host::Files;
use icn_unit::Unit;
use icn_units::unit;
use std::alloc::Global;

/// The units of a command, the named ones first. What each was made of is not kept: the contracts tell of a list of members that the
/// units stand for.
#[derive(Drop)]
pub struct Members {
    pub units: Vec<Unit>,
    /// The place of the first that was read as ucode.
    pub first_ucode: Option<usize>,
}

/// The units of named files, and of those that they link: each base once, and what a unit links behind what was linked before.
///
/// # Errors
///
/// `Missing` where a named file is not there, `Refused` with the first rule that a source breaks, `BadUcode` with the first that the
/// texts of a unit break, `FileFault` where the store failed, `NoMemory`. A linked file that is not there is no error here.
pub fn load<F: Files>(
    alloc: Global,
    named: &[CommandFile<'_>],
    files: &mut F,
) -> Result<Members, Answer>
    ensures loaded { IfSome (F.state files.old).held (λ held. IsLoaded held (files_seen named.now) result) }
    ensures sound { IfOk result AreSoundMembers }
    ensures absent { IfOk result
        (λ members. AreSought (F.state files.old).counts.absences (F.state files.new).counts.absences
        (kept_units members).units) }
    ensures others { IfErr result IsOfLoading }
    ensures reads { ReadsFiles result (IsErrOfAbsence result) (F.state files.old) (F.state files.new) }
{
    let mut members = load_named(alloc, named, files)?;
    gather(alloc, &mut members, files)?;
    Ok(members)
}

/// The units of named files alone, in their order: the first that is refused refuses all.
///
/// # Errors
///
/// Those of `load`.
pub fn load_named<F: Files>(
    alloc: Global,
    named: &[CommandFile<'_>],
    files: &mut F,
) -> Result<Members, Answer>
    ensures come { IfSome (F.state files.old).held (λ held. IsCome held (files_seen named.now) result) }
    ensures sound { IfOk result AreSoundMembers }
    ensures others { IfErr result IsOfLoading }
    ensures reads { ReadsFiles result (IsErrOfAbsence result) (F.state files.old) (F.state files.new) }
{
    let mut members = Members {
        units: Vec::new(alloc),
        first_ucode: None,
    };
    for file in named {
        add_file(alloc, file, &mut members, files)?;
    }
    Ok(members)
}

// Adds the unit of a named file.
fn add_file<F: Files>(
    alloc: Global,
    file: &CommandFile<'_>,
    members: &mut Members,
    files: &mut F,
) -> Result<(), Answer>
    ensures read { IfSome (F.state files.old).held
        (λ held. (before : List Member) → HoldsMembers members.old before
        → IsRead held (file_seen file.now) before members.new result) }
    ensures sound { AreSoundMembers members.old → OnOk result (AreSoundMembers members.new) }
    ensures others { IfErr result IsOfLoading }
    ensures reads { ReadsFiles result (IsErrOfAbsence result) (F.state files.old) (F.state files.new) }
{
    match file.kind {
        FileKind::Source => add_source(alloc, file.base, members, files),
        FileKind::Ucode => add_named(alloc, file.base, members, files),
    }
}

// Adds the unit of the source of this base name.
fn add_source<F: Files>(
    alloc: Global,
    base: &str,
    members: &mut Members,
    files: &mut F,
) -> Result<(), Answer>
    ensures read { IfSome (F.state files.old).held
        (λ held. (before : List Member) → HoldsMembers members.old before
        → IsRead held (source base.now) before members.new result) }
    ensures sound { AreSoundMembers members.old → OnOk result (AreSoundMembers members.new) }
    ensures others { IfErr result IsOfLoading }
    ensures reads { ReadsFiles result (IsErrOfAbsence result) (F.state files.old) (F.state files.new) }
{
    let checked = checked_source(alloc, base, files)?;
    match unit(alloc, base.as_bytes(), &checked) {
        Ok(unit) => push_source(members, unit),
        Err(_) => Err(Answer::NoMemory),
    }
}

// Adds the unit of this base name that is there as ucode.
fn add_named<F: Files>(
    alloc: Global,
    base: &str,
    members: &mut Members,
    files: &mut F,
) -> Result<(), Answer>
    ensures read { IfSome (F.state files.old).held
        (λ held. (before : List Member) → HoldsMembers members.old before
        → IsRead held (ucode base.now) before members.new result) }
    ensures sound { AreSoundMembers members.old → OnOk result (AreSoundMembers members.new) }
    ensures others { IfErr result IsOfLoading }
    ensures reads { ReadsFiles result (IsErrOfAbsence result) (F.state files.old) (F.state files.new) }
{
    let unit = named_unit(alloc, base, files)?;
    push_ucode(members, unit)
}

// Adds the unit of a source.
fn push_source(members: &mut Members, unit: Unit) -> Result<(), Answer>
    ensures added { OnOk result (kept_units members.new ≡ with_source (kept_units members.old) (unit_seen unit)) }
    ensures others { IfErr result (λ answer. answer ≡ Answer.NoMemory) }
{
    match members.units.push(unit) {
        Ok(()) => Ok(()),
        Err(_) => Err(Answer::NoMemory),
    }
}

/// Adds a unit that was read as ucode. An error is want of memory.
pub fn push_ucode(members: &mut Members, unit: Unit) -> Result<(), Answer>
    ensures added { OnOk result (kept_units members.new ≡ with_ucode (kept_units members.old) (unit_seen unit)) }
    ensures others { IfErr result (λ answer. answer ≡ Answer.NoMemory) }
{
    let place = members.first_ucode.unwrap_or(members.units.len());
    members.first_ucode = Some(place);
    match members.units.push(unit) {
        Ok(()) => Ok(()),
        Err(_) => Err(Answer::NoMemory),
    }
}
