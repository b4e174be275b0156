// How a declaration is read.
ghost use Rattle.std.specs.Prelude.{◌≡◌, Some, MatchResult};
ghost use Rattle.std.specs.Option.{option_map};
ghost use Rattle.icn_tree.specs.Phrases.{next};
ghost use Rattle.icn_tree.specs.TreeOf.{initial_of};
ghost use Rattle.icn_expr.specs.Capped.{builds_with_height};
ghost use Rattle.icn_parse.specs.FileReading.{record_read, declaration_by, declaration_read};
ghost use Rattle.icn_parse.specs.KeptDeclarations.{finish, finish_initial};
ghost use Rattle.icn_parse.specs.Views.{ReadsNothing, first_value, finish_of, finished_read, outline_of};

use crate::names::{read_items, read_maybe_names, read_name, read_names};
use crate::procedure::{InitialExpr, Outline, ProcedureHead, read_procedure};
use crate::sign::{close_parenthesis_next, open_parenthesis_next, sign};
use crate::stop::ParseStop;
use icn_tree::{Decl, Expr, Initial, Kind, LocalDecl, Place, Procedure, Token, Word};
use std::alloc::Global;

/// A declaration that was read.
#[derive(Drop)]
pub enum Finished {
    /// It has no tree higher than 2000.
    Kept(Decl),
    /// It is a procedure that has one; where its name stands.
    TooHigh(Place),
}

// What is too high is let go.
fn discard(
    head: ProcedureHead,
    locals: Vec<LocalDecl>,
    initial: Option<Option<Initial>>,
    body: Option<Vec<Expr>>,
) {
    drop(head);
    drop(locals);
    drop(initial);
    drop(body);
}

// The expression of an `initial`, unless it is too high.
fn finish_first(first: Option<InitialExpr>) -> Option<Option<Initial>>
    ensures { option_map initial_of result ≡ finish_initial (option_map first_value first) }
{
    let Some(first) = first else {
        return Some(None);
    };
    let place = first.place;
    let value = first.value.into_expr()?;
    Some(Some(Initial { place, value }))
}

// A procedure, unless one of its trees is too high.
fn finish_outline(outline: Outline) -> Finished
    ensures { finish_of result ≡ finish (outline_of outline) }
{
    let Outline {
        place,
        head,
        locals,
        initial,
        body,
    } = outline;
    match (finish_first(initial), body.into_exprs()) {
        (Some(initial), Some(body)) => Finished::Kept(Decl::Procedure(Procedure {
            place,
            name: head.name,
            parameters: head.parameters,
            is_variadic: head.is_variadic,
            locals,
            initial,
            body,
        })),
        (initial, body) => {
            let place = head.name.place;
            discard(head, locals, initial, body);
            Finished::TooHigh(place)
        }
    }
}

// A record, behind its word.
fn read_record<'a>(
    alloc: Global,
    place: Place,
    tokens: &'a [Token],
) -> Result<(Finished, &'a [Token]), ParseStop>
    ensures { let read = finished_read (record_read place tokens.now) in
        MatchResult result (λ found. read ≡ Some (finish_of found.0, found.1.now)) (ReadsNothing read) }
{
    let (name, rest) = read_name(alloc, tokens)?;
    let rest = sign(open_parenthesis_next(rest), rest)?;
    let (fields, rest) = read_maybe_names(alloc, rest)?;
    let rest = sign(close_parenthesis_next(rest), rest)?;
    Ok((
        Finished::Kept(Decl::Record {
            place,
            name,
            fields,
        }),
        rest,
    ))
}

// What stands behind the word that begins a declaration.
fn read_behind<'a>(
    alloc: Global,
    kind: &Kind,
    place: Place,
    tokens: &'a [Token],
) -> Result<(Finished, &'a [Token]), ParseStop>
    ensures { let read = finished_read (declaration_by builds_with_height (Some kind.now) place tokens.now) in
        MatchResult result (λ found. read ≡ Some (finish_of found.0, found.1.now)) (ReadsNothing read) }
{
    match kind {
        Kind::Word(Word::Global) => {
            let (names, rest) = read_names(alloc, tokens)?;
            Ok((Finished::Kept(Decl::Global { place, names }), rest))
        }
        Kind::Word(Word::Link) => {
            let (items, rest) = read_items(alloc, tokens)?;
            Ok((Finished::Kept(Decl::Link { place, items }), rest))
        }
        Kind::Word(Word::Invocable) => {
            let (items, rest) = read_items(alloc, tokens)?;
            Ok((Finished::Kept(Decl::Invocable { place, items }), rest))
        }
        Kind::Word(Word::Record) => read_record(alloc, place, tokens),
        Kind::Word(Word::Procedure) => {
            let (outline, rest) = read_procedure(alloc, place, tokens)?;
            Ok((finish_outline(outline), rest))
        }
        _ => Err(ParseStop::NotHere),
    }
}

/// The declaration that stands next. The error is `NotHere` where none stands there, or want of memory.
pub fn read_declaration<'a>(
    alloc: Global,
    tokens: &'a [Token],
) -> Result<(Finished, &'a [Token]), ParseStop>
    ensures { let read = finished_read (declaration_read builds_with_height tokens.now) in
        MatchResult result (λ found. read ≡ Some (finish_of found.0, found.1.now)) (ReadsNothing read) }
{
    let Some((token, rest)) = tokens.split_first() else {
        return Err(ParseStop::NotHere);
    };
    let place = Place {
        line: token.line,
        file: token.file,
    };
    read_behind(alloc, &token.kind, place, rest)
}
