// The checked text that tokens are.
ghost use Rattle.std.specs.Prelude.{MatchResult};
ghost use Rattle.icn_decls.specs.CheckedTexts.{AreScanned};
ghost use Rattle.icont_units.specs.Stages.{IsFile, Stops};

use crate::program_fault::ProgramFault;
use icn_decls::{Checked, check};
use icn_parse::parse;
use icn_tree::Token;
use std::alloc::Global;

/// The file of this base name that the tokens are: they have a tree, and it breaks no rule.
///
/// # Errors
///
/// `Broken` with the first rule that is broken, stage by stage. `NoMemory` where memory ran out.
pub fn check_tokens(alloc: Global, name: &str, tokens: &[Token]) -> Result<Checked, ProgramFault>
    requires scanned { AreScanned tokens.now }
    ensures { MatchResult result (IsFile tokens.now) (Stops tokens.now) }
{
    let file = parse(alloc, name, tokens)?;
    let checked = check(alloc, file)?;
    Ok(checked)
}
