// Units that are there as ucode.
ghost use Rattle.std.specs.Prelude.{◌≡◌, ◌⊎◌, ◌++◌, IfSome, IfErr};
ghost use Rattle.icn_answer.specs.declared.answer.Answer.TheVariants.{BadUcode};
ghost use Rattle.icont_units.specs.FetchedFiles.{AreTexts, IsJudged, IsLinkedUnit, IsLost, IsNamedUnit, IsOfJudged, IsOfLinked, IsOfNamed, IsOfTexts, IsText, IsUnitOf, IsUnitOfSome};
ghost use Rattle.icn_answer.specs.Answers.{IsErrOfAbsence};
ghost use Rattle.icn_answer.specs.FilesRead.{ReadsFiles};
ghost use Rattle.icont_units.specs.Units.{faulty_name, is_too_long, texts_held};

use crate::files::name_with;
use icn_answer::Answer;
use icn_host::{Files, ReadFailure};
use icn_profile::MOST_BYTES_OF_UCODE;
use icn_tree::{Bytes, Rule};
use icn_ucode::read_unit;
use icn_unit::{UcodeFault, Unit};
use std::alloc::Global;

/// How many bytes a text of a unit may have.
const LONGEST: u64 = MOST_BYTES_OF_UCODE;

/// The two texts of a unit: of each so many bytes that one too many is seen.
#[derive(Drop)]
pub struct UnitTexts {
    pub first: Vec<u8>,
    pub second: Vec<u8>,
}

/// The unit of this base name, which the words of a command name: both texts are fetched before either is judged.
///
/// # Errors
///
/// `Missing` with the name of the first text that is not there, `BadUcode` with that of the first that breaks a rule, `FileFault`
/// where the store failed, `NoMemory` where memory ran out.
pub fn named_unit<F: Files>(alloc: Global, base: &str, files: &mut F) -> Result<Unit, Answer>
    ensures comes { IfSome (F.state files.old).held (λ held. IsNamedUnit held base.now result) }
    ensures name { IsUnitOf base.now result }
    ensures others { IfErr result IsOfNamed }
    ensures reads { ReadsFiles result (IsErrOfAbsence result) (F.state files.old) (F.state files.new) }
{
    match both_texts(alloc, base, files) {
        Ok(texts) => unit_read(alloc, base, &texts),
        Err(answer) => Err(answer),
    }
}

/// The unit of this base name, which another unit links; none where it is no text, or where a text of it is not there.
///
/// # Errors
///
/// `BadUcode` with the name of the first text that breaks a rule, `FileFault` where the store failed, `NoMemory` where memory ran out.
pub fn linked_unit<F: Files>(
    alloc: Global,
    base: &[u8],
    files: &mut F,
) -> Result<Option<Unit>, Answer>
    ensures links { IfSome (F.state files.old).held (λ held. IsLinkedUnit held base.now result) }
    ensures name { IsUnitOfSome base.now result }
    ensures others { IfErr result IsOfLinked }
    ensures reads { ReadsFiles result (IsLost base.now result) (F.state files.old) (F.state files.new) }
{
    let Ok(base) = str::from_utf8(base) else {
        return Ok(None);
    };
    match both_texts(alloc, base, files) {
        Ok(texts) => match unit_read(alloc, base, &texts) {
            Ok(unit) => Ok(Some(unit)),
            Err(answer) => Err(answer),
        },
        Err(Answer::Missing(_)) => Ok(None),
        Err(answer) => Err(answer),
    }
}

// The unit of two texts: whether either is too long is looked at before both are read.
fn unit_read(alloc: Global, base: &str, texts: &UnitTexts) -> Result<Unit, Answer>
    ensures judged { IsJudged base.now texts.now.first.items texts.now.second.items result }
    ensures name { IsUnitOf base.now result }
    ensures others { IfErr result IsOfJudged }
{
    if is_too_long(&texts.first) {
        return Err(bad_ucode(alloc, base, false, Rule::U8));
    }
    if is_too_long(&texts.second) {
        return Err(bad_ucode(alloc, base, true, Rule::U8));
    }
    match read_unit(alloc, base, &texts.first, &texts.second) {
        Ok(unit) => Ok(unit),
        Err(UcodeFault::Broken { rule, second }) => Err(bad_ucode(alloc, base, second, rule)),
        Err(UcodeFault::NoMemory) => Err(Answer::NoMemory),
    }
}

fn is_too_long(text: &[u8]) -> bool
    ensures { result ≡ is_too_long text.now }
{
    text.len() as u64 > LONGEST
}

// The answer that the first or the second text of a unit breaks a rule.
fn bad_ucode(alloc: Global, base: &str, second: bool, rule: Rule) -> Answer
    ensures { (result ≡ BadUcode (faulty_name base.now second) rule) ⊎ (result ≡ Answer.NoMemory) }
{
    let suffix = if second { ".u2" } else { ".u1" };
    match name_with(alloc, base, suffix) {
        Ok(name) => Answer::BadUcode {
            name: Bytes::new(name.into_bytes()),
            rule,
        },
        Err(_) => Answer::NoMemory,
    }
}

// Both texts of the unit of this base name, or the answer that the first that is not there has.
fn both_texts<F: Files>(alloc: Global, base: &str, files: &mut F) -> Result<UnitTexts, Answer>
    ensures texts { IfSome (F.state files.old).held (λ held. AreTexts (texts_held held base.now) result) }
    ensures others { IfErr result IsOfTexts }
    ensures reads { ReadsFiles result (IsErrOfAbsence result) (F.state files.old) (F.state files.new) }
{
    let first = text(alloc, base, ".u1", files)?;
    let second = text(alloc, base, ".u2", files)?;
    Ok(UnitTexts { first, second })
}

// The text of this base name and this suffix.
fn text<F: Files>(alloc: Global, base: &str, suffix: &str, files: &mut F) -> Result<Vec<u8>, Answer>
    ensures text { IfSome (F.state files.old).held
        (λ held. IsText (held (base.now ++ suffix.now)) (base.now ++ suffix.now) result) }
    ensures others { IfErr result IsOfTexts }
    ensures reads { ReadsFiles result (IsErrOfAbsence result) (F.state files.old) (F.state files.new) }
{
    let Ok(name) = name_with(alloc, base, suffix) else {
        return Err(Answer::NoMemory);
    };
    let mut text = Vec::new(alloc);
    match files.read(&name, LONGEST, &mut text) {
        Ok(()) => Ok(text),
        Err(ReadFailure::NotThere) => Err(Answer::Missing(Bytes::new(name.into_bytes()))),
        Err(ReadFailure::Failed) => Err(Answer::FileFault),
        Err(ReadFailure::NoMemory) => Err(Answer::NoMemory),
    }
}
