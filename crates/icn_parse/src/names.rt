// Names and items with commas between them.
ghost use Rattle.std.specs.Prelude.{◌≡◌, Some, length, MatchResult};
ghost use Rattle.icn_expr.specs.Automata.{is_close_parenthesis};
ghost use Rattle.icn_tree.specs.Phrases.{next};
ghost use Rattle.icn_parse.specs.FileReading.{name_of as name_at_token, item_of as item_at_token, name_read, some_read, maybe_names as maybe_names_read};
ghost use Rattle.icn_parse.specs.PartReading.{item_read};
ghost use Rattle.icn_parse.specs.Views.{ReadsNothing};

use crate::sign::{close_parenthesis_next, comma_next};
use crate::stop::ParseStop;
use icn_expr::behind;
use icn_tree::{Bytes, DeclItem, Kind, Name, Place, Token};
use std::alloc::Global;

// Where a token stands.
fn place_at(token: &Token) -> Place
    ensures line { result.line ≡ token.now.line }
    ensures file { result.file ≡ token.now.file }
{
    Place {
        line: token.line,
        file: token.file,
    }
}

// The name that a token is.
fn name_of(alloc: Global, token: &Token) -> Result<Name, ParseStop>
    ensures { MatchResult result (λ name. name_at_token token.now ≡ Some name)
        (ReadsNothing (name_at_token token.now)) }
{
    let Kind::Identifier(text) = &token.kind else {
        return Err(ParseStop::NotHere);
    };
    Ok(Name {
        text: Bytes::from_slice(alloc, text.as_slice())?,
        place: place_at(token),
    })
}

// The item that a token is.
fn item_of(alloc: Global, token: &Token) -> Result<DeclItem, ParseStop>
    ensures { MatchResult result (λ item. item_at_token token.now ≡ Some item)
        (ReadsNothing (item_at_token token.now)) }
{
    match &token.kind {
        Kind::Identifier(text) => Ok(DeclItem::Identifier(Name {
            text: Bytes::from_slice(alloc, text.as_slice())?,
            place: place_at(token),
        })),
        Kind::Text(text) => Ok(DeclItem::Text(Name {
            text: Bytes::from_slice(alloc, text.as_slice())?,
            place: place_at(token),
        })),
        _ => Err(ParseStop::NotHere),
    }
}

/// The name that stands next. The error is `NotHere` where none does, or want of memory.
pub fn read_name<'a>(alloc: Global, tokens: &'a [Token]) -> Result<(Name, &'a [Token]), ParseStop>
    ensures { MatchResult result (λ found. name_read tokens.now ≡ Some (found.0, found.1.now))
        (ReadsNothing (name_read tokens.now)) }
{
    let Some((token, rest)) = tokens.split_first() else {
        return Err(ParseStop::NotHere);
    };
    Ok((name_of(alloc, token)?, rest))
}

/// One or more names. The error is `NotHere` where no name stands where one must, or want of memory.
pub fn read_names<'a>(
    alloc: Global,
    tokens: &'a [Token],
) -> Result<(Vec<Name>, &'a [Token]), ParseStop>
    ensures { MatchResult result (λ found. some_read name_at_token tokens.now
        ≡ Some (found.0.items, found.1.now)) (ReadsNothing (some_read name_at_token tokens.now)) }
{
    let (first, mut rest) = read_name(alloc, tokens)?;
    let mut names = Vec::new(alloc);
    names.push(first)?;
    while comma_next(rest) {
        let (further, others) = read_name(alloc, behind(rest))?;
        names.push(further)?;
        rest = others;
    }
    Ok((names, rest))
}

// The item that stands next.
fn read_item<'a>(alloc: Global, tokens: &'a [Token]) -> Result<(DeclItem, &'a [Token]), ParseStop>
    ensures { MatchResult result (λ found. item_read tokens.now ≡ Some (found.0, found.1.now))
        (ReadsNothing (item_read tokens.now)) }
{
    let Some((token, rest)) = tokens.split_first() else {
        return Err(ParseStop::NotHere);
    };
    Ok((item_of(alloc, token)?, rest))
}

/// One or more items. The error is `NotHere` where no item stands where one must, or want of memory.
pub fn read_items<'a>(
    alloc: Global,
    tokens: &'a [Token],
) -> Result<(Vec<DeclItem>, &'a [Token]), ParseStop>
    ensures { MatchResult result (λ found. some_read item_at_token tokens.now
        ≡ Some (found.0.items, found.1.now)) (ReadsNothing (some_read item_at_token tokens.now)) }
{
    let (first, mut rest) = read_item(alloc, tokens)?;
    let mut items = Vec::new(alloc);
    items.push(first)?;
    while comma_next(rest) {
        let (further, others) = read_item(alloc, behind(rest))?;
        items.push(further)?;
        rest = others;
    }
    Ok((items, rest))
}

/// No name where a parenthesis closes, or one or more. The error is `NotHere` where no name stands where one must, or want
/// of memory.
pub fn read_maybe_names<'a>(
    alloc: Global,
    tokens: &'a [Token],
) -> Result<(Vec<Name>, &'a [Token]), ParseStop>
    ensures { MatchResult result (λ found. maybe_names_read tokens.now ≡ Some (found.0.items, found.1.now))
        (ReadsNothing (maybe_names_read tokens.now)) }
{
    if close_parenthesis_next(tokens) {
        return Ok((Vec::new(alloc), tokens));
    }
    read_names(alloc, tokens)
}
