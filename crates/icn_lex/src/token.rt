// One token, where no literal begins.
ghost use Rattle.std.specs.Prelude.{◌≡◌, ◌∷◌, IfOk};
ghost use Rattle.icn_lex.specs.Outcomes.{FirstIs};
ghost use Rattle.icn_lex.specs.Reading.{bare_read, dot_read, first_read, name_by, name_read};

use crate::fault::LexFault;
use crate::marks::mark;
use crate::numbers::integer_literal;
use crate::words::reserved_word;
use icn_profile::{FULL_STOP, MOST_BYTES_OF_NAME};
use icn_tree::characters::{begins_identifier, identifier_len, is_digit};
use icn_tree::{Bytes, Kind, Operator, Rule, SourceLine};
use std::alloc::{AllocError, Global};

/// The longest token at the front of what is left of a line, and how many bytes it has. The error is the rule that the bytes
/// break, on this line, or want of memory.
pub fn first_token(
    alloc: Global,
    line: &SourceLine,
    bytes: &[u8],
) -> Result<(Kind, usize), LexFault>
    ensures { FirstIs line.now result (first_read bytes.now) }
{
    let Some((first, rest)) = bytes.split_first() else {
        return Err(LexFault::on(line, Rule::L1));
    };
    if begins_identifier(*first) {
        name(alloc, line, *first, bytes, rest)
    } else {
        locate_fault(line, bare_token(*first, bytes, rest))
    }
}

// A rule that a token breaks, with its place.
fn locate_fault(
    line: &SourceLine,
    found: Result<(Kind, usize), Rule>,
) -> Result<(Kind, usize), LexFault>
    ensures { FirstIs line.now result found }
{
    match found {
        Ok(first) => Ok(first),
        Err(rule) => Err(LexFault::on(line, rule)),
    }
}

// A token that is no word or identifier.
fn bare_token(first: u8, bytes: &[u8], rest: &[u8]) -> Result<(Kind, usize), Rule>
    ensures { result ≡ bare_read first bytes.now rest.now }
{
    if is_digit(first) {
        integer_literal(bytes)
    } else if first == FULL_STOP {
        dot(rest)
    } else {
        mark(first, bytes).ok_or(Rule::L1)
    }
}

// A dot, which with a digit behind it begins a number that is not whole.
fn dot(rest: &[u8]) -> Result<(Kind, usize), Rule>
    ensures { result ≡ dot_read rest.now }
{
    match rest.split_first() {
        Some((next, _)) if is_digit(*next) => Err(Rule::L6),
        _ => Ok((Kind::Operator(Operator::Dot), 1)),
    }
}

// The word or identifier that begins with a byte, before the rest of a line.
fn name(
    alloc: Global,
    line: &SourceLine,
    first: u8,
    bytes: &[u8],
    rest: &[u8],
) -> Result<(Kind, usize), LexFault>
    requires { bytes.now ≡ first ∷ rest.now }
    ensures { FirstIs line.now result (name_read first rest.now) }
{
    let count = identifier_len(rest) + 1;
    if count > MOST_BYTES_OF_NAME as usize {
        return Err(LexFault::on(line, Rule::L7));
    }
    let kind = word_or_identifier(alloc, first, bytes.split_at(count).0)?;
    Ok((kind, count))
}

// The reserved word or identifier that a name is, by its first byte.
fn word_or_identifier(alloc: Global, first: u8, name: &[u8]) -> Result<Kind, AllocError>
    ensures { IfOk result (λ kind. kind ≡ name_by first name.now) }
{
    match reserved_word(first, name) {
        Some(word) => Ok(Kind::Word(word)),
        None => Ok(Kind::Identifier(Bytes::from_slice(alloc, name)?)),
    }
}
