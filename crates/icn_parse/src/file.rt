// How all declarations are read.
ghost use Rattle.std.specs.Prelude.{◌≡◌, Some, None, [], length, map, IfOk, MatchResult};
ghost use Rattle.std.specs.Option.{option_map};
ghost use Rattle.icn_tree.specs.TreeOf.{declaration_of};
ghost use Rattle.icn_expr.specs.Capped.{builds_with_height};
ghost use Rattle.icn_parse.specs.FileReading.{file_read};
ghost use Rattle.icn_parse.specs.KeptDeclarations.{kept_declarations, high_with, done_with};
ghost use Rattle.icn_parse.specs.Views.{ReadsNothing, finish_of};

use crate::declaration::{Finished, read_declaration};
use crate::stop::ParseStop;
use icn_tree::{Decl, Place, Token};
use std::alloc::{AllocError, Global};

/// What is kept of the declarations of a program text.
#[derive(Drop)]
pub struct KeptDeclarations {
    /// The name of the first procedure that has a tree higher than 2000.
    pub high: Option<Place>,
    /// The declarations that have none.
    pub decls: Vec<Decl>,
}

impl KeptDeclarations {
    // One declaration more.
    fn add(&mut self, finished: Finished) -> Result<(), AllocError>
        ensures high { IfOk result (λ done. self.new.high ≡ high_with self.old.high (finish_of finished)) }
        ensures decls { IfOk result (λ done. map declaration_of self.new.decls.items
            ≡ done_with (map declaration_of self.old.decls.items) (finish_of finished)) }
    {
        match finished {
            Finished::Kept(decl) => self.decls.push(decl)?,
            Finished::TooHigh(place) => {
                if self.high.is_none() {
                    self.high = Some(place);
                }
            }
        }
        Ok(())
    }
}

/// The declarations of a program text. The error is `NotHere` where the text does not go on with a declaration, or want of
/// memory.
pub fn read_file(alloc: Global, tokens: &[Token]) -> Result<KeptDeclarations, ParseStop>
    ensures { let read = file_read builds_with_height (length tokens.now) tokens.now in
        MatchResult result (λ all. option_map (kept_declarations None []) read
        ≡ Some (all.high, map declaration_of all.decls.items)) (ReadsNothing read) }
{
    let mut all = KeptDeclarations {
        high: None,
        decls: Vec::new(alloc),
    };
    let mut rest = tokens;
    while !rest.is_empty() {
        let (finished, others) = read_declaration(alloc, rest)?;
        all.add(finished)?;
        rest = others;
    }
    Ok(all)
}
