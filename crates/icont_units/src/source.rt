// What is read of a source: its tokens, and the file that they are.
ghost use Rattle.std.specs.Prelude.{◌≡◌, ◌⊎◌, IfSome, IfOk, IfErr, IsErrOf};
ghost use Rattle.icn_tree.specs.Tokens.{tokens_of};
ghost use Rattle.icn_decls.specs.CheckedTexts.{AreScanned};
ghost use Rattle.icn_answer.specs.declared.answer.Answer.TheVariants.{Missing};
ghost use Rattle.icn_answer.specs.Answers.{IsErrOfAbsence};
ghost use Rattle.icn_answer.specs.FilesRead.{ReadsFiles};
ghost use Rattle.icont_units.specs.FetchedFiles.{AreFile, IsSource};
ghost use Rattle.icont_units.specs.Sources.{name_at, refused_at, tokens_read, fault_answer, scan_of, source_read, IsRead, IsOfRead, IsOfTokens};

use crate::checking::check_tokens;
use crate::files::name_with;
use crate::program_fault::ProgramFault;
use icn_answer::Answer;
use icn_decls::Checked;
use icn_host::Files;
use icn_lex::{LexFault, tokens};
use icn_prep::{PrepFault, preprocess};
use icn_tree::{Bytes, Lines, Place, Rule, Token};
use std::alloc::Global;

/// The tokens of a named file, with the names of the files that they stand in.
#[derive(Drop)]
pub struct SourceTokens {
    /// The names of files, the named one first.
    pub names: Vec<Bytes>,
    /// The tokens in their order.
    pub tokens: Vec<Token>,
}

/// The source of this base name, where it breaks no rule.
///
/// # Errors
///
/// `Missing` where it is not there, `Refused` with the first rule that it breaks, stage by stage, `FileFault` where the store failed,
/// `NoMemory` where memory ran out.
pub fn checked_source<F: Files>(alloc: Global, base: &str, files: &mut F) -> Result<Checked, Answer>
    ensures comes { IfSome (F.state files.old).held (λ held. IsSource held base.now result) }
    ensures others { IfErr result IsOfRead }
    ensures reads { ReadsFiles result (IsErrOfAbsence result) (F.state files.old) (F.state files.new) }
{
    let Ok(name) = name_with(alloc, base, ".icn") else {
        return Err(Answer::NoMemory);
    };
    match source_tokens(alloc, &name, files) {
        Ok(source) => checked_tokens(alloc, base, &source),
        Err(answer) => Err(answer),
    }
}

/// The file of this base name that the tokens are. The error is the answer that refuses them by the first rule that they
/// break, or want of memory.
pub fn checked_tokens(alloc: Global, base: &str, source: &SourceTokens) -> Result<Checked, Answer>
    requires scanned { AreScanned source.now.tokens.items }
    ensures file { AreFile (scan_of source.now) result }
    ensures others { IfErr result IsOfTokens }
{
    match check_tokens(alloc, base, &source.tokens) {
        Ok(file) => Ok(file),
        Err(ProgramFault::Broken { rule, place }) => {
            Err(refused_at(alloc, &source.names, rule, place))
        }
        Err(ProgramFault::NoMemory) => Err(Answer::NoMemory),
    }
}

/// The tokens of the file of this name. The error is the answer where it is missing, breaks a rule or cannot be read, or
/// want of memory.
pub fn source_tokens<F: Files>(
    alloc: Global,
    name: &str,
    files: &mut F,
) -> Result<SourceTokens, Answer>
    ensures read { IfSome (F.state files.old).held (λ held. IsRead (source_read held name.now) result) }
    ensures scanned { IfOk result (λ source. AreScanned source.tokens.items) }
    ensures others { IfErr result IsOfRead }
    ensures reads { ReadsFiles result (IsErrOfAbsence result) (F.state files.old) (F.state files.new) }
{
    match preprocess(alloc, name, files) {
        Ok(lines) => line_tokens(alloc, lines),
        Err(fault) => Err(fault_answer(alloc, name, fault)),
    }
}

/// The tokens of the lines, with the names of the lines, which are dropped. The error is the answer that refuses them by the
/// rule that they break, or want of memory.
pub fn line_tokens(alloc: Global, lines: Lines) -> Result<SourceTokens, Answer>
    ensures read { IsRead (tokens_read lines.names.items (tokens_of lines.lines.items)) result }
    ensures scanned { IfOk result (λ source. AreScanned source.tokens.items) }
    ensures others { IfErr result IsOfRead }
    ensures absence { IsErrOfAbsence result → ⊥ }
    ensures file_fault { IsErrOf result Answer.FileFault → ⊥ }
{
    match tokens(alloc, &lines) {
        Ok(tokens) => Ok(SourceTokens {
            names: lines.names,
            tokens,
        }),
        Err(LexFault::Broken { rule, file, line }) => {
            Err(refused_at(alloc, &lines.names, rule, Place { line, file }))
        }
        Err(LexFault::NoMemory) => Err(Answer::NoMemory),
    }
}

// The answer where the file of this name gives no lines.
fn fault_answer(alloc: Global, name: &str, fault: PrepFault) -> Answer
    ensures given { (result ≡ fault_answer name.now fault) ⊎ (result ≡ Answer.NoMemory) }
    ensures file_fault { fault ≡ PrepFault.FileFault → result ≡ Answer.FileFault }
    ensures wanted { fault ≡ PrepFault.NoMemory → result ≡ Answer.NoMemory }
{
    match fault {
        PrepFault::Missing => missing_source(alloc, name),
        PrepFault::Broken { rule, file, line } => Answer::Refused { file, line, rule },
        PrepFault::FileFault => Answer::FileFault,
        PrepFault::NoMemory => Answer::NoMemory,
    }
}

// The answer that the file of this name is not there.
fn missing_source(alloc: Global, name: &str) -> Answer
    ensures { (result ≡ Missing name.now) ⊎ (result ≡ Answer.NoMemory) }
{
    match Bytes::from_slice(alloc, name.as_bytes()) {
        Ok(name) => Answer::Missing(name),
        Err(_) => Answer::NoMemory,
    }
}

/// The answer that a rule refuses a file at a place, where the names of files are these.
pub fn refused_at(alloc: Global, names: &[Bytes], rule: Rule, place: Place) -> Answer
    ensures { (result ≡ refused_at names.now rule place) ⊎ (result ≡ Answer.NoMemory) }
{
    match Bytes::from_slice(alloc, name_at(names, place.file)) {
        Ok(file) => Answer::Refused {
            file,
            line: place.line,
            rule,
        },
        Err(_) => Answer::NoMemory,
    }
}

// The name of a file by its place among the names.
fn name_at(names: &[Bytes], file: u32) -> &[u8]
    ensures { result.now ≡ name_at names.now file }
{
    match names.get(file as usize) {
        Some(name) => name.as_slice(),
        None => &[],
    }
}
