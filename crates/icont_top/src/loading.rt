// What is made of the files that the words name.
ghost use Rattle.std.specs.Prelude.{◌≡◌, ⊤, IfErr, IfOk, IfSome, IsErrOf};
ghost use Rattle.icn_answer.specs.Answers.{IsErrOfAbsence};
ghost use Rattle.icn_answer.specs.FilesRead.{ReadsFiles};
ghost use Rattle.icn_host.specs.Counts.{Rose};
ghost use Rattle.icont_units.specs.FetchedFiles.{IsOfLoading, files_seen};
ghost use Rattle.icont_units.specs.Files.{files_named, sources_in};
ghost use Rattle.icont_units.specs.Generated.{GeneratedComes};
ghost use Rattle.icn_text.specs.WordTexts.{texts};
ghost use Rattle.icont_units.specs.Units.{Load};
ghost use Rattle.icont_top.specs.Answered.{TellsLink};
ghost use Rattle.icont_top.specs.Asking.{AreTranslated, IsProgramOf};
ghost use Rattle.icont_top.specs.BaseNames.{first_named};
ghost use Rattle.icont_top.specs.MadeUnits.{IsOfProgram};

use crate::programs::{MadeProgram, make};
use crate::writing::{FileToWrite, ucode_texts};
use icn_answer::Answer;
use icn_host::Files;
use icn_ucode::one_spelling;
use icont_units::{CommandFile, files_named, generate_unit, load, load_named, sources_in};
use std::alloc::{AllocError, Global};

/// A program: its code and its image, and the name of the image where the words say none.
#[derive(Drop)]
pub struct LoadedProgram<'a> {
    pub made: MadeProgram,
    pub base: &'a str,
}

/// The ucode texts of the sources that these names name.
///
/// # Errors
///
/// What refuses the first source that is refused, `FileFault`, or `NoMemory`.
pub fn translate_sources<F: Files>(
    alloc: Global,
    names: &[&str],
    files: &mut F,
) -> Result<Vec<FileToWrite>, Answer>
    ensures translated { IfSome (F.state files.old).held (λ held. AreTranslated held (texts names.now) result) }
    ensures others { IfErr result IsOfLoading }
    ensures reads { ReadsFiles result (IsErrOfAbsence result) (F.state files.old) (F.state files.new) }
{
    one_spelling();
    let Ok(sources) = named_sources(alloc, names) else {
        return Err(Answer::NoMemory);
    };
    match load_named(alloc, &sources, files) {
        Ok(members) => match ucode_texts(alloc, &sources, &members.units) {
            Ok(texts) => Ok(texts),
            Err(_) => Err(Answer::NoMemory),
        },
        Err(answer) => Err(answer),
    }
}

// The sources that these names name.
fn named_sources<'a>(alloc: Global, names: &[&'a str]) -> Result<Vec<CommandFile<'a>>, AllocError>
    ensures { IfOk result (λ found. files_seen found.items ≡ sources_in (files_named (texts names.now))) }
{
    let named = files_named(alloc, names)?;
    sources_in(alloc, &named)
}

/// The program of the files that these names name, and of those that they link.
///
/// # Errors
///
/// What refuses the first file or unit that is refused, the first rule of linking that is broken, the first rule of verified code
/// that is broken where a unit was read as ucode, `FileFault`, or `NoMemory`.
pub fn linked_program<'a, F: Files>(
    alloc: Global,
    names: &[&'a str],
    files: &mut F,
) -> Result<LoadedProgram<'a>, Answer>
    ensures program { IfSome (F.state files.old).held
        (λ held. IsProgramOf (Load held (files_named (texts names.now)))
        (Rose (F.state files.old).counts.absences (F.state files.new).counts.absences) result) }
    ensures missed { IfErr result
        (λ answer. TellsLink answer (F.state files.old).counts.absences (F.state files.new).counts.absences) }
    ensures others { IfErr result IsOfProgram }
    ensures reads { ReadsFiles result (IsErrOfAbsence result) (F.state files.old) (F.state files.new) }
{
    one_spelling();
    let Ok(named) = files_named(alloc, names) else {
        return Err(Answer::NoMemory);
    };
    match load(alloc, &named, files) {
        Ok(members) => match make(alloc, &members) {
            Ok(made) => Ok(LoadedProgram {
                made,
                base: first_base(&named),
            }),
            Err(answer) => Err(answer),
        },
        Err(answer) => Err(answer),
    }
}

// The base name of the first file.
fn first_base<'a>(named: &[CommandFile<'a>]) -> &'a str
    ensures { result.now ≡ first_named (files_seen named.now) }
{
    match named.first() {
        Some(file) => file.base,
        None => "",
    }
}

/// The program of a number.
///
/// # Errors
///
/// A rule that it breaks, or `NoMemory`.
pub fn numbered_program(alloc: Global, number: u16) -> Result<LoadedProgram<'static>, Answer>
    ensures program { IsProgramOf (GeneratedComes number) ⊤ result }
    ensures others { IfErr result IsOfProgram }
    ensures no_file { IsErrOf result Answer.FileFault → ⊥ }
    ensures no_absence { IsErrOfAbsence result → ⊥ }
{
    match generate_unit(alloc, number) {
        Ok(members) => match make(alloc, &members) {
            Ok(made) => Ok(LoadedProgram { made, base: "gen" }),
            Err(answer) => Err(answer),
        },
        Err(answer) => Err(answer),
    }
}
