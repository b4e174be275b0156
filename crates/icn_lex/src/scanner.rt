// The tokens of lines.
ghost use Rattle.std.specs.Prelude.{◌≡◌, ◌∷◌, ◌⊎◌, true, false, Some, Err};
ghost use Rattle.std.specs.Option.{option_map};
ghost use Rattle.icn_tree.specs.Characters.{is_space, begins_comment};
ghost use Rattle.icn_tree.specs.Tokens.{tokens_of};
ghost use Rattle.icn_lex.specs.Literals.{scan_inside, scan_line, scan_text};
ghost use Rattle.icn_lex.specs.Outcomes.{IsNoLongerNext, LineIs, NextIs, ShortensTo, begins_bare, literal_read, outcome_of};

use crate::fault::LexFault;
use crate::literals::{LiteralEnd, OpenLiteral, Opening, close, read_part};
use crate::semicolons::push;
use crate::token::first_token;
use icn_tree::characters::{begins_comment, blanks_len, is_quote, is_space};
use icn_tree::{Lines, SourceLine, Token};
use std::alloc::Global;

/// The tokens of lines, with the semicolons that ends of lines stand for. Each has the file and line of its first byte. An
/// error is the first fault from the front on, with its rule, file and line, or want of memory.
pub fn tokens(alloc: Global, lines: &Lines) -> Result<Vec<Token>, LexFault>
    // Want of memory, or exactly what the lines spell: their tokens, or the first fault.
    ensures exact { (result ≡ Err LexFault.NoMemory)
        ⊎ (outcome_of result ≡ Some (tokens_of lines.now.lines.items)) }
{
    let mut tokens = Vec::new(alloc);
    let mut begun = None;
    for line in &lines.lines {
        begun = line_tokens(alloc, line, begun, &mut tokens)?;
    }
    match begun {
        Some(literal) => Err(literal.opening.unclosed_fault()),
        None => Ok(tokens),
    }
}

// Adds the tokens of a line, where a literal goes on from the line before or none does, and gives the literal that goes on
// from this one.
fn line_tokens(
    alloc: Global,
    line: &SourceLine,
    begun: Option<OpenLiteral>,
    tokens: &mut Vec<Token>,
) -> Result<Option<OpenLiteral>, LexFault>
    ensures { LineIs tokens.old.items tokens.new.items
        (scan_line line.now (option_map literal_read begun)) result }
{
    let text = line.bytes.as_slice();
    match begun {
        None => text_tokens(alloc, line, true, text, tokens),
        Some(literal) => {
            let text = text.split_at(blanks_len(text)).1;
            match rest_of_literal(alloc, line, literal, text, tokens)? {
                Next::Behind(text) => text_tokens(alloc, line, false, text, tokens),
                Next::Inside(literal) => Ok(Some(literal)),
            }
        }
    }
}

// Adds the tokens of the rest of a line, at which no literal goes on.
fn text_tokens(
    alloc: Global,
    line: &SourceLine,
    is_first: bool,
    text: &[u8],
    tokens: &mut Vec<Token>,
) -> Result<Option<OpenLiteral>, LexFault>
    ensures { LineIs tokens.old.items tokens.new.items (scan_text line.now is_first text.now) result }
{
    let mut is_first = is_first;
    let mut rest = text;
    while let Some((first, others)) = rest.split_first() {
        if is_space(*first) {
            rest = others;
        } else if begins_comment(*first) {
            return Ok(None);
        } else {
            match add_token(alloc, line, is_first, rest, *first, others, tokens)? {
                Next::Behind(behind) => {
                    rest = behind;
                    is_first = false;
                }
                Next::Inside(literal) => return Ok(Some(literal)),
            }
        }
    }
    Ok(None)
}

// What stands behind a token.
enum Next<'a> {
    // The token ends before these bytes.
    Behind(&'a [u8]),
    // It is a literal that goes on on the next line.
    Inside(OpenLiteral),
}

// Adds the token that begins with the first byte.
fn add_token<'a>(
    alloc: Global,
    line: &SourceLine,
    is_first: bool,
    bytes: &'a [u8],
    first: u8,
    others: &'a [u8],
    tokens: &mut Vec<Token>,
) -> Result<Next<'a>, LexFault>
    requires begins { bytes.now ≡ first ∷ others.now }
    requires no_space { is_space first ≡ false }
    requires no_comment { begins_comment first ≡ false }
    ensures exact { NextIs line.now tokens.old.items tokens.new.items
        (scan_text line.now is_first bytes.now) result }
    ensures shorter { ShortensTo result bytes.now }
{
    if is_quote(first) {
        let opening = Opening {
            quote: first,
            line: line.number,
            file: line.file,
            is_first,
        };
        let literal = OpenLiteral {
            opening,
            bytes: Vec::new(alloc),
        };
        rest_of_literal(alloc, line, literal, others, tokens)
    } else {
        bare_token(alloc, line, is_first, bytes, tokens)
    }
}

// Adds a token that is no literal.
fn bare_token<'a>(
    alloc: Global,
    line: &SourceLine,
    is_first: bool,
    bytes: &'a [u8],
    tokens: &mut Vec<Token>,
) -> Result<Next<'a>, LexFault>
    requires { begins_bare bytes.now ≡ true }
    ensures exact { NextIs line.now tokens.old.items tokens.new.items
        (scan_text line.now is_first bytes.now) result }
    ensures shorter { ShortensTo result bytes.now }
{
    let (kind, count) = first_token(alloc, line, bytes)?;
    let token = Token {
        kind,
        line: line.number,
        file: line.file,
    };
    push(tokens, is_first, token)?;
    Ok(Next::Behind(bytes.split_at(count).1))
}

// Reads the rest of a literal on a line, and adds its token where it is closed there.
fn rest_of_literal<'a>(
    alloc: Global,
    line: &SourceLine,
    literal: OpenLiteral,
    text: &'a [u8],
    tokens: &mut Vec<Token>,
) -> Result<Next<'a>, LexFault>
    ensures exact { NextIs line.now tokens.old.items tokens.new.items
        (scan_inside line.now (literal_read literal) text.now) result }
    ensures no_longer { IsNoLongerNext result text.now }
{
    let OpenLiteral { opening, mut bytes } = literal;
    match read_part(opening, &mut bytes, line, text)? {
        LiteralEnd::Closed(behind) => {
            let token = close(alloc, opening, bytes)?;
            push(tokens, opening.is_first, token)?;
            Ok(Next::Behind(behind))
        }
        LiteralEnd::Continued => Ok(Next::Inside(OpenLiteral { opening, bytes })),
    }
}
