// The image that is to run.
ghost use Rattle.std.specs.Prelude.{◌≡◌, ◌⊎◌, ℕ, List, IfSome, IfErr};
ghost use Rattle.icn_answer.specs.Answers.{IsErrOfAbsence};
ghost use Rattle.icn_answer.specs.FilesRead.{ReadsFiles};
ghost use Rattle.icn_code.specs.CodeTables.{tables_of};
ghost use Rattle.iconx_top.specs.Loading.{AbsencesOf, IsChecked, IsJudgement, IsLoaded, IsOfImage, IsOfLoading, IsSecondImage, Takes, of_image};

use icn_answer::Answer;
use icn_code::Code;
use icn_host::{Files, ReadFailure};
use icn_image::{ImageFault, read_image, write_image};
use icn_profile::MOST_BYTES_OF_IMAGE;
use icn_tree::{Bytes, Rule};
use icn_verify::{Verified, VerifyFault, verify};
use std::alloc::Global;

// The greatest length of an image.
const LONGEST: u64 = MOST_BYTES_OF_IMAGE;

/// The code of the image of this name, or the answer where there is none. That is `Missing` where the file is not there,
/// `BadImage` with the rule that it breaks, `FileFault` where the files failed, or `NoMemory`.
pub fn load<F: Files>(alloc: Global, name: &str, files: &mut F) -> Result<Verified, Answer>
    ensures loaded { IfSome (F.state files.old).held (λ held. IsLoaded (held name.now) name.now result) }
    ensures others { IfErr result IsOfLoading }
    ensures absences { AbsencesOf result (F.state files.old).counts.absences
        (F.state files.new).counts.absences }
    ensures reads { ReadsFiles result (IsErrOfAbsence result) (F.state files.old) (F.state files.new) }
{
    let mut bytes = Vec::new(alloc);
    match files.read(name, LONGEST, &mut bytes) {
        Ok(()) => judge(alloc, &bytes),
        Err(ReadFailure::NotThere) => Err(missing_image(alloc, name)),
        Err(ReadFailure::Failed) => Err(Answer::FileFault),
        Err(ReadFailure::NoMemory) => Err(Answer::NoMemory),
    }
}

// The answer where the image is not there.
fn missing_image(alloc: Global, name: &str) -> Answer
    ensures { (result ≡ Answer.Missing name.now) ⊎ (result ≡ Answer.NoMemory) }
{
    match Bytes::from_slice(alloc, name.as_bytes()) {
        Ok(name) => Answer::Missing(name),
        Err(_) => Answer::NoMemory,
    }
}

// What the first bytes of an image come to: all of them, or one more than an image may have.
fn judge(alloc: Global, bytes: &[u8]) -> Result<Verified, Answer>
    ensures judged { (all : List ℕ) → Takes bytes.now all → IsJudgement all result }
    ensures others { IfErr result IsOfImage }
{
    if bytes.len() as u64 > LONGEST {
        return Err(Answer::BadImage(Rule::I6));
    }
    match read_image(alloc, bytes) {
        Ok(code) => verify_code(alloc, code),
        Err(fault) => Err(fault_answer(fault)),
    }
}

// The answer where bytes are no image.
fn fault_answer(fault: ImageFault) -> Answer
    ensures { result ≡ of_image fault }
{
    match fault {
        ImageFault::Broken(rule) => Answer::BadImage(rule),
        ImageFault::NoMemory => Answer::NoMemory,
    }
}

// The code, where it is verified.
fn verify_code(alloc: Global, code: Code) -> Result<Verified, Answer>
    ensures checked { IsChecked (tables_of code) result }
    ensures others { IfErr result IsOfImage }
{
    match verify(alloc, code) {
        Ok(verified) => Ok(verified),
        Err(VerifyFault::V { rule, .. }) => Err(Answer::BadImage(rule)),
        Err(VerifyFault::NoMemory) => Err(Answer::NoMemory),
    }
}

/// The image of a verified code in the second version, or the answer where it would be too long, or memory ran out.
pub fn second_image(alloc: Global, code: &Verified) -> Result<Vec<u8>, Answer>
    ensures image { IsSecondImage (tables_of code.now.code) result }
    ensures others { IfErr result IsOfImage }
{
    match write_image(alloc, code.code()) {
        Ok(image) if image.len() as u64 > LONGEST => Err(Answer::BadImage(Rule::I7)),
        Ok(image) => Ok(image),
        Err(_) => Err(Answer::NoMemory),
    }
}
