// How a procedure is read.
ghost use Rattle.std.specs.Prelude.{◌≡◌, ◌<◌, Some, suc, length, map, MatchResult};
ghost use Rattle.std.specs.Option.{option_map};
ghost use Rattle.icn_tree.specs.TreeOf.{locals_of};
ghost use Rattle.icn_expr.specs.Capped.{builds_with_height};
ghost use Rattle.icn_expr.specs.Reading.{expression_read};
ghost use Rattle.icn_expr.specs.Views.{capped_of, elements_of};
ghost use Rattle.icn_parse.specs.FileReading.{parameters_read, head_read, locals_read, initial_read, body_read, procedure_read};
ghost use Rattle.icn_parse.specs.PartReading.{locals_one};
ghost use Rattle.icn_parse.specs.Views.{ReadsNothing, first_value, outline_of};

use crate::names::{read_maybe_names, read_name, read_names};
use crate::sign::{
    close_bracket_next, close_parenthesis_next, end_next, initial_next, local_kind,
    open_bracket_next, open_parenthesis_next, semicolon_next, sign,
};
use crate::stop::ParseStop;
use icn_expr::{CappedTree, Elements, behind, expression, place_of};
use icn_tree::{LocalDecl, LocalKind, Name, Place, Token};
use std::alloc::Global;

/// What stands between the word of a procedure and its locals.
#[derive(Drop)]
pub struct ProcedureHead {
    pub name: Name,
    pub parameters: Vec<Name>,
    pub is_variadic: bool,
}

/// The expression of an `initial`, with its height.
#[derive(Drop)]
pub struct InitialExpr {
    pub place: Place,
    pub value: CappedTree,
}

/// A procedure as it was read, its trees with their heights.
#[derive(Drop)]
pub struct Outline {
    pub place: Place,
    pub head: ProcedureHead,
    pub locals: Vec<LocalDecl>,
    pub initial: Option<InitialExpr>,
    pub body: Elements,
}

// An expression of this level.
fn read_value<'a>(
    alloc: Global,
    level: u32,
    tokens: &'a [Token],
) -> Result<(CappedTree, &'a [Token]), ParseStop>
    ensures { MatchResult result (λ found. expression_read builds_with_height level tokens.now
        ≡ Some (capped_of found.0, found.1.now))
        (ReadsNothing (expression_read builds_with_height level tokens.now)) }
{
    match expression(alloc, level, tokens)? {
        Some(found) => Ok(found),
        None => Err(ParseStop::NotHere),
    }
}

// The parameters, and whether the last gets a list of the arguments that are left.
fn read_parameters<'a>(
    alloc: Global,
    tokens: &'a [Token],
) -> Result<(Vec<Name>, bool, &'a [Token]), ParseStop>
    ensures { MatchResult result (λ found. parameters_read tokens.now
        ≡ Some (found.0.items, found.1, found.2.now)) (ReadsNothing (parameters_read tokens.now)) }
{
    let (names, rest) = read_maybe_names(alloc, tokens)?;
    if !open_bracket_next(rest) {
        return Ok((names, false, rest));
    }
    let opened = behind(rest);
    let rest = sign(close_bracket_next(opened), opened)?;
    Ok((names, true, rest))
}

// The head of a procedure, behind its word.
fn read_head<'a>(
    alloc: Global,
    tokens: &'a [Token],
) -> Result<(ProcedureHead, &'a [Token]), ParseStop>
    ensures { MatchResult result (λ found. head_read tokens.now
        ≡ Some (found.0.name, (found.0.parameters.items, found.0.is_variadic), found.1.now))
        (ReadsNothing (head_read tokens.now)) }
{
    let (name, rest) = read_name(alloc, tokens)?;
    let rest = sign(open_parenthesis_next(rest), rest)?;
    let (parameters, is_variadic, rest) = read_parameters(alloc, rest)?;
    let rest = sign(close_parenthesis_next(rest), rest)?;
    let rest = sign(semicolon_next(rest), rest)?;
    let head = ProcedureHead {
        name,
        parameters,
        is_variadic,
    };
    Ok((head, rest))
}

// The names behind one word of names.
fn read_locals<'a>(
    alloc: Global,
    kind: LocalKind,
    tokens: &'a [Token],
) -> Result<(LocalDecl, &'a [Token]), ParseStop>
    ensures { MatchResult result (λ found. locals_one kind tokens.now ≡ Some (locals_of found.0, found.1.now))
        (ReadsNothing (locals_one kind tokens.now)) }
{
    let place = place_of(tokens);
    let (names, rest) = read_names(alloc, behind(tokens))?;
    let rest = sign(semicolon_next(rest), rest)?;
    Ok((LocalDecl { place, kind, names }, rest))
}

// All locals and statics.
fn read_all_locals<'a>(
    alloc: Global,
    tokens: &'a [Token],
) -> Result<(Vec<LocalDecl>, &'a [Token]), ParseStop>
    ensures { MatchResult result (λ found. locals_read (suc (length tokens.now)) tokens.now
        ≡ Some (map locals_of found.0.items, found.1.now))
        (ReadsNothing (locals_read (suc (length tokens.now)) tokens.now)) }
{
    let mut all = Vec::new(alloc);
    let mut rest = tokens;
    while let Some(kind) = local_kind(rest) {
        let (locals, others) = read_locals(alloc, kind, rest)?;
        all.push(locals)?;
        rest = others;
    }
    Ok((all, rest))
}

// What a procedure does in its first call alone.
fn read_initial<'a>(
    alloc: Global,
    tokens: &'a [Token],
) -> Result<(Option<InitialExpr>, &'a [Token]), ParseStop>
    ensures { MatchResult result
        (λ found. initial_read builds_with_height tokens.now
        ≡ Some (option_map first_value found.0, found.1.now))
        (ReadsNothing (initial_read builds_with_height tokens.now)) }
{
    if !initial_next(tokens) {
        return Ok((None, tokens));
    }
    let place = place_of(tokens);
    let (value, rest) = read_value(alloc, 1, behind(tokens))?;
    let rest = sign(semicolon_next(rest), rest)?;
    Ok((Some(InitialExpr { place, value }), rest))
}

// The expressions up to the end of a procedure.
fn read_body<'a>(alloc: Global, tokens: &'a [Token]) -> Result<(Elements, &'a [Token]), ParseStop>
    ensures { MatchResult result (λ found. body_read builds_with_height
        (suc (length tokens.now)) builds_with_height.no_elements tokens.now
        ≡ Some (elements_of found.0, found.1.now))
        (ReadsNothing (body_read builds_with_height
        (suc (length tokens.now)) builds_with_height.no_elements tokens.now)) }
{
    let mut done = Elements::new(alloc);
    let mut rest = tokens;
    while !end_next(rest) {
        let (value, others) = read_value(alloc, 0, rest)?;
        rest = sign(semicolon_next(others), others)?;
        done = done.with(alloc, value)?;
    }
    Ok((done, rest))
}

/// A procedure, behind its word. The error is `NotHere` where no procedure stands there, or want of memory.
pub fn read_procedure<'a>(
    alloc: Global,
    place: Place,
    tokens: &'a [Token],
) -> Result<(Outline, &'a [Token]), ParseStop>
    ensures { MatchResult result (λ found. procedure_read builds_with_height place tokens.now
        ≡ Some (outline_of found.0, found.1.now))
        (ReadsNothing (procedure_read builds_with_height place tokens.now)) }
{
    let (head, rest) = read_head(alloc, tokens)?;
    let (locals, rest) = read_all_locals(alloc, rest)?;
    let (initial, rest) = read_initial(alloc, rest)?;
    let (body, rest) = read_body(alloc, rest)?;
    let rest = sign(end_next(rest), rest)?;
    let outline = Outline {
        place,
        head,
        locals,
        initial,
        body,
    };
    Ok((outline, rest))
}
