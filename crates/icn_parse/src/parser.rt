// The tree of the tokens of a program text.
ghost use Rattle.std.specs.Prelude.{◌≡◌, map, IfOk, MatchResult};
ghost use Rattle.icn_tree.specs.TreeOf.{declaration_of};
ghost use Rattle.icn_parse.specs.Outcomes.{IsOutcome};
ghost use Rattle.icn_parse.specs.Views.{Answers, Breaks, IsLowTree};

use crate::check::check_declarations;
use crate::fault::ParseFault;
use crate::file::read_file;
use crate::pieces::unspelled_place;
use crate::stop::ParseStop;
use icn_tree::{Bytes, Decl, Rule, SourceFile, Token};
use std::alloc::Global;

// Declarations in which no tree is too high.
fn read_declarations(alloc: Global, tokens: &[Token]) -> Result<Vec<Decl>, ParseFault>
    ensures { MatchResult result (λ decls. IsLowTree tokens.now (map declaration_of decls.items))
        (Breaks (IsOutcome tokens.now)) }
{
    match read_file(alloc, tokens) {
        Ok(all) => match all.high {
            Some(place) => Err(ParseFault::at(place, Rule::S2)),
            None => Ok(all.decls),
        },
        Err(ParseStop::NotHere) => {
            let place = unspelled_place(alloc, tokens)?;
            Err(ParseFault::at(place, Rule::S1))
        }
        Err(ParseStop::NoMemory) => Err(ParseFault::NoMemory),
    }
}

/// The tree of the tokens of a program text, as the grammar has it. `name` is the base name of its file.
///
/// # Errors
///
/// `Broken` with S1 where the tokens have no tree, at the first token of the first piece that spells no declaration: a piece
/// begins with the text and with each word that begins a declaration; with S2, at its name, where a procedure has a tree
/// higher than 2000, of which an operand, an element or a part of a clause is one lower; with S3, at the name behind `&`,
/// where a keyword is unknown. S1 comes before S2, S2 before S3, which is told of the first place. `NoMemory` where memory ran out.
pub fn parse(alloc: Global, name: &str, tokens: &[Token]) -> Result<SourceFile, ParseFault>
    ensures exact { Answers (IsOutcome tokens.now) result }
    ensures name { IfOk result (λ file. file.name ≡ name.now) }
{
    let decls = read_declarations(alloc, tokens)?;
    check_declarations(&decls)?;
    Ok(SourceFile {
        name: Bytes::from_slice(alloc, name.as_bytes())?,
        decls,
    })
}
