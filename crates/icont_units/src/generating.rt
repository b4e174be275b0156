// The unit of the program of a number.
ghost use Rattle.std.specs.Prelude.{[], ◌∷◌, IfErr, IfOk};
ghost use Rattle.icn_tree.specs.TreeOf.{declarations_of};
ghost use Rattle.icn_decls.specs.CheckedTexts.{AreScanned};
ghost use Rattle.icont_units.specs.Generated.{generated_base};
ghost use Rattle.icont_units.specs.Generating.{AreMember, IsGenerated, IsOfLines};
ghost use Rattle.icn_answer.specs.Answers.{IsErrOfAbsence};
ghost use Rattle.icont_units.specs.Loading.{AreSoundMembers, HoldsMembers};
ghost use Rattle.icont_units.specs.Sources.{IsOfTokens, scan_of};
ghost use Rattle.icont_units.specs.Units.{FromSource};

use crate::members::Members;
use crate::program_lines::generated_lines;
use crate::source::{SourceTokens, checked_tokens, line_tokens};
use icn_answer::Answer;
use icn_decls::Checked;
use icn_units::unit;
use std::alloc::{AllocError, Global};

// The base name of the lines.
const BASE: &str = "gen";

/// The unit of the program of this number, whose lines are made and not read.
///
/// # Errors
///
/// `NoMemory` where memory ran out, and `Refused` with the first rule that the lines broke, if they broke one.
pub fn generate_unit(alloc: Global, number: u16) -> Result<Members, Answer>
    ensures comes { IsGenerated number result }
    ensures sound { IfOk result AreSoundMembers }
    ensures others { IfErr result IsOfLines }
    ensures absence { IsErrOfAbsence result → ⊥ }
{
    match generated_lines(alloc, number) {
        Ok(lines) => match line_tokens(alloc, lines) {
            Ok(source) => tokens_member(alloc, &source),
            Err(answer) => Err(answer),
        },
        Err(_) => Err(Answer::NoMemory),
    }
}

// The unit of these tokens.
fn tokens_member(alloc: Global, source: &SourceTokens) -> Result<Members, Answer>
    requires scanned { AreScanned source.now.tokens.items }
    ensures are { AreMember (scan_of source.now) result }
    ensures others { IfErr result IsOfTokens }
{
    match checked_tokens(alloc, BASE, source) {
        Ok(file) => match file_member(alloc, &file) {
            Ok(members) => Ok(members),
            Err(_) => Err(Answer::NoMemory),
        },
        Err(answer) => Err(answer),
    }
}

fn file_member(alloc: Global, file: &Checked) -> Result<Members, AllocError>
    ensures { IfOk result
        (λ members. HoldsMembers members (FromSource generated_base (declarations_of file.now.text) ∷ [])) }
{
    let mut units = Vec::new(alloc);
    units.push(unit(alloc, BASE.as_bytes(), file)?)?;
    Ok(Members {
        units,
        first_ucode: None,
    })
}
