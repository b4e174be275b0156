// The pieces of a program text, and the first of them that spells no declaration.
ghost use Rattle.std.specs.Prelude.{◌≡◌, [], ◌∷◌, ◌<◌, ◌≤◌, length, IfOk};
ghost use Rattle.std.specs.List.{prefix_len};
ghost use Rattle.icn_tree.specs.Declarations.{HasTree};
ghost use Rattle.icn_tree.specs.Pieces.{pieces};
ghost use Rattle.icn_parse.specs.Views.{DecidesTree, UnspelledAt, begins_no_declaration};

use crate::file::read_file;
use crate::stop::ParseStop;
use icn_tree::{Kind, Place, Token, Word};
use std::alloc::{AllocError, Global};

// Whether a token is none of the words that stand only at the start of a declaration.
fn begins_no_declaration(token: &Token) -> bool
    ensures { result ≡ begins_no_declaration token.now }
{
    !matches!(
        token.kind,
        Kind::Word(Word::Procedure)
            | Kind::Word(Word::Record)
            | Kind::Word(Word::Global)
            | Kind::Word(Word::Link)
            | Kind::Word(Word::Invocable)
    )
}

// How many of the first tokens begin no declaration.
fn plain_len(tokens: &[Token]) -> usize
    ensures counted { result ≡ prefix_len begins_no_declaration tokens.now }
    ensures within { result ≤ length tokens.now }
{
    let mut count = 0;
    while count < tokens.len() && begins_no_declaration(&tokens[count]) {
        count += 1;
    }
    count
}

// The first piece of some tokens, and the tokens behind it.
fn split_piece<'a>(tokens: &'a [Token]) -> (&'a [Token], &'a [Token])
    requires some { 0 < length tokens.now }
    ensures cut { pieces tokens.now ≡ result.0.now ∷ pieces result.1.now }
    ensures alone { pieces result.0.now ≡ result.0.now ∷ [] }
    ensures kept { 0 < length result.0.now }
    ensures shorter { length result.1.now < length tokens.now }
{
    tokens.split_at(1 + plain_len(&tokens[1..]))
}

// Whether some tokens have a tree, which is let go.
fn has_tree(alloc: Global, tokens: &[Token]) -> Result<bool, AllocError>
    ensures { IfOk result (DecidesTree tokens.now) }
{
    match read_file(alloc, tokens) {
        Ok(_) => Ok(true),
        Err(ParseStop::NotHere) => Ok(false),
        Err(ParseStop::NoMemory) => Err(AllocError),
    }
}

/// Where the first piece begins that spells no declaration, of tokens that have no tree. `AllocError` is want of memory.
pub fn unspelled_place(alloc: Global, tokens: &[Token]) -> Result<Place, AllocError>
    requires none { HasTree tokens.now → ⊥ }
    ensures { IfOk result (UnspelledAt tokens.now) }
{
    let mut rest = tokens;
    'pieces: loop {
        let (piece, others) = split_piece(rest);
        if !has_tree(alloc, piece)? {
            return Ok(Place {
                line: piece[0].line,
                file: piece[0].file,
            });
        }
        rest = others;
    }
}
