// The steps by which an expression is read.
ghost use Rattle.std.specs.Prelude.{◌≡◌, List, ◌∷◌, Some, None, true, IfOk};
ghost use Rattle.icn_tree.specs.declared.token.Token.{Token};
ghost use Rattle.icn_tree.specs.Levels.{prefix_of};
ghost use Rattle.icn_tree.specs.Grammar.{before};
ghost use Rattle.icn_tree.specs.declared.token.Operator.TheVariants.{Dot};
ghost use Rattle.icn_expr.specs.Automata.{Starting, Climbing, Closing, Elements as ElementsHolding, PrefixOperand, frame as frame_at, is_dot, word_step, mark_step, suffix_step, empty_step, operator_step, operand_step, start_step, climb_step, extend_step, plain_step, infix_step};
ghost use Rattle.icn_expr.specs.Capped.{builds_with_height};
ghost use Rattle.icn_expr.specs.Views.{OpenFrame, capped_of, bracket_of, holding_of, stack_of, state_of};

use crate::frame::{Bracket, OpenForm, PartialForm};
use crate::levels::{
    begins, climbing_level, goes_on, infix_level_of, operator_begins, right_level, split,
};
use crate::stack::OpenForms;
use crate::state::ReadingState;
use crate::value::{CappedTree, Elements, discard};
use icn_tree::{
    Bytes, Infix, Kind, Literal, LoopKind, Name, Operator, Place, Punctuation, Token, Word,
};
use std::alloc::{AllocError, Global};

/// A form is open, and a part of it begins. The error is want of memory.
pub fn open_form(
    stack: &mut OpenForms,
    level: u32,
    place: Place,
    holds: PartialForm,
    awaits: u32,
) -> Result<ReadingState, AllocError>
    ensures { IfOk result (λ state. (tokens : List Token) → state_of state (stack_of stack.new) tokens
        ≡ Starting awaits (frame_at level place (holding_of holds) ∷ stack_of stack.old) tokens) }
{
    stack.push(OpenForm {
        level,
        place,
        holds,
    })?;
    Ok(ReadingState::Starting { level: awaits })
}

// A word that begins a form.
fn word_operand(
    stack: &mut OpenForms,
    level: u32,
    place: Place,
    word: Word,
) -> Result<ReadingState, AllocError>
    ensures { IfOk result (λ state. (tokens : List Token) → state_of state (stack_of stack.new) tokens
        ≡ word_step builds_with_height level place word (stack_of stack.old) tokens) }
{
    match word {
        Word::Not => open_form(stack, level, place, PartialForm::NotOperand, 12),
        Word::If => open_form(stack, level, place, PartialForm::Condition, 1),
        Word::Case => open_form(stack, level, place, PartialForm::CaseSubject, 1),
        Word::While => open_form(
            stack,
            level,
            place,
            PartialForm::Control(LoopKind::While),
            1,
        ),
        Word::Until => open_form(
            stack,
            level,
            place,
            PartialForm::Control(LoopKind::Until),
            1,
        ),
        Word::Every => open_form(
            stack,
            level,
            place,
            PartialForm::Control(LoopKind::Every),
            1,
        ),
        Word::Repeat => open_form(stack, level, place, PartialForm::RepeatBody, 1),
        Word::Create => open_form(stack, level, place, PartialForm::CreateBody, 1),
        Word::Break => open_form(stack, level, place, PartialForm::BreakValue, 0),
        Word::Return => open_form(stack, level, place, PartialForm::ReturnValue, 0),
        Word::Suspend => open_form(stack, level, place, PartialForm::SuspendValue, 0),
        Word::Next => Ok(climb_at(level, place, CappedTree::next(place))),
        Word::Fail => Ok(climb_at(level, place, CappedTree::fail(place))),
        _ => Ok(ReadingState::Broken),
    }
}

/// The state at which a tree stands, with which the next token may go on.
pub fn climb_at(level: u32, place: Place, value: CappedTree) -> ReadingState
    ensures { (frames : List OpenFrame) (tokens : List Token)
        → state_of result frames tokens ≡ Climbing level place (capped_of value) frames tokens }
{
    ReadingState::Climbing {
        level,
        place,
        value,
    }
}

// A mark that opens a list.
fn mark_operand(
    stack: &mut OpenForms,
    alloc: Global,
    level: u32,
    place: Place,
    mark: Punctuation,
) -> Result<ReadingState, AllocError>
    ensures { IfOk result (λ state. (tokens : List Token) → state_of state (stack_of stack.new) tokens
        ≡ mark_step builds_with_height level place mark (stack_of stack.old) tokens) }
{
    match mark {
        Punctuation::OpenParenthesis => open_list(stack, alloc, level, place, Bracket::Round),
        Punctuation::OpenBracket => open_list(stack, alloc, level, place, Bracket::Square),
        Punctuation::OpenBrace => open_list(stack, alloc, level, place, Bracket::Curly),
        _ => Ok(ReadingState::Broken),
    }
}

// A list is open, and its first element begins.
fn open_list(
    stack: &mut OpenForms,
    alloc: Global,
    level: u32,
    place: Place,
    bracket: Bracket,
) -> Result<ReadingState, AllocError>
    ensures { IfOk result (λ state. (tokens : List Token) → state_of state (stack_of stack.new) tokens
        ≡ Starting 0
        (frame_at level place (ElementsHolding (bracket_of bracket) builds_with_height.no_elements)
        ∷ stack_of stack.old) tokens) }
{
    open_form(
        stack,
        level,
        place,
        PartialForm::Elements(bracket, Elements::new(alloc)),
        0,
    )
}

// A mark that goes on with a tree.
fn suffix(
    stack: &mut OpenForms,
    alloc: Global,
    level: u32,
    place: Place,
    value: CappedTree,
    mark: Punctuation,
) -> Result<ReadingState, AllocError>
    ensures { IfOk result (λ state. (tokens : List Token) → state_of state (stack_of stack.new) tokens
        ≡ suffix_step builds_with_height level place (capped_of value) mark (stack_of stack.old) tokens) }
{
    match mark {
        Punctuation::OpenParenthesis => open_list(
            stack,
            alloc,
            level,
            place,
            Bracket::Arguments(value),
        ),
        Punctuation::OpenBracket => open_list(
            stack,
            alloc,
            level,
            place,
            Bracket::Subscripts(value),
        ),
        Punctuation::OpenBrace => open_list(
            stack,
            alloc,
            level,
            place,
            Bracket::CoArguments(value),
        ),
        _ => {
            discard(value);
            Ok(ReadingState::Broken)
        }
    }
}

// Nothing stands where an expression may be empty.
fn empty_part(level: u32) -> ReadingState
    ensures { (frames : List OpenFrame) (tokens : List Token)
        → state_of result frames tokens ≡ empty_step builds_with_height level frames tokens }
{
    if level == 0 {
        ReadingState::Closing {
            value: CappedTree::empty(),
            present: false,
        }
    } else {
        ReadingState::Broken
    }
}

// An operator before its operand, or a keyword.
fn operator_operand<'a>(
    stack: &mut OpenForms,
    alloc: Global,
    level: u32,
    place: Place,
    operator: Operator,
    tokens: &'a [Token],
) -> Result<(ReadingState, &'a [Token]), AllocError>
    ensures { IfOk result (λ r. state_of r.0 (stack_of stack.new) r.1.now
        ≡ operator_step builds_with_height level place (prefix_of operator) (stack_of stack.old) tokens.now) }
{
    match split(operator) {
        Some((first, others)) => Ok((begin_prefix(stack, level, place, first, others)?, tokens)),
        None => keyword(alloc, level, place, tokens),
    }
}

// What stands behind an operator before its operand.
fn begin_prefix(
    stack: &mut OpenForms,
    level: u32,
    place: Place,
    first: Operator,
    others: Option<Operator>,
) -> Result<ReadingState, AllocError>
    ensures { IfOk result
        (λ state. (tokens : List Token) → state_of state (stack_of stack.new) tokens ≡ Starting 12
        (frame_at level place (PrefixOperand first) ∷ stack_of stack.old) (before place others tokens)) }
{
    stack.push(OpenForm {
        level,
        place,
        holds: PartialForm::PrefixOperand(first),
    })?;
    match others {
        Some(operator) => Ok(ReadingState::StartingWith { place, operator }),
        None => Ok(ReadingState::Starting { level: 12 }),
    }
}

// The name behind `&`.
fn keyword<'a>(
    alloc: Global,
    level: u32,
    place: Place,
    tokens: &'a [Token],
) -> Result<(ReadingState, &'a [Token]), AllocError>
    ensures { IfOk result (λ r. (frames : List OpenFrame)
        → state_of r.0 frames r.1.now ≡ operator_step builds_with_height level place None frames tokens.now) }
{
    let Some((token, rest)) = tokens.split_first() else {
        return Ok((ReadingState::Broken, tokens));
    };
    let text = match &token.kind {
        Kind::Identifier(text) => Bytes::from_slice(alloc, text.as_slice())?,
        Kind::Word(Word::Fail) => Bytes::from_slice(alloc, b"fail")?,
        _ => return Ok((ReadingState::Broken, tokens)),
    };
    let name = Name {
        text,
        place: Place {
            line: token.line,
            file: token.file,
        },
    };
    Ok((
        climb_at(level, place, CappedTree::keyword(place, name)),
        rest,
    ))
}

// A token that begins an expression.
fn operand<'a>(
    stack: &mut OpenForms,
    alloc: Global,
    level: u32,
    place: Place,
    kind: &Kind,
    tokens: &'a [Token],
) -> Result<(ReadingState, &'a [Token]), AllocError>
    ensures { IfOk result (λ r. state_of r.0 (stack_of stack.new) r.1.now
        ≡ operand_step builds_with_height level place kind.now (stack_of stack.old) tokens.now) }
{
    match kind {
        Kind::Word(word) => Ok((word_operand(stack, level, place, *word)?, tokens)),
        Kind::Operator(operator) => operator_operand(stack, alloc, level, place, *operator, tokens),
        Kind::Punctuation(mark) => Ok((mark_operand(stack, alloc, level, place, *mark)?, tokens)),
        Kind::Augmented(_) => Ok((ReadingState::Broken, tokens)),
        Kind::Identifier(text) => {
            let text = Bytes::from_slice(alloc, text.as_slice())?;
            Ok((
                climb_at(level, place, CappedTree::identifier(Name { text, place })),
                tokens,
            ))
        }
        Kind::Integer(n) => Ok((
            climb_at(
                level,
                place,
                CappedTree::constant(place, Literal::Integer(*n)),
            ),
            tokens,
        )),
        Kind::Text(text) => {
            let text = Bytes::from_slice(alloc, text.as_slice())?;
            Ok((
                climb_at(
                    level,
                    place,
                    CappedTree::constant(place, Literal::Text(text)),
                ),
                tokens,
            ))
        }
        Kind::Cset(set) => {
            let set = set.copy(alloc)?;
            Ok((
                climb_at(
                    level,
                    place,
                    CappedTree::constant(place, Literal::Cset(set)),
                ),
                tokens,
            ))
        }
    }
}

/// An expression begins. The error is want of memory.
pub fn start<'a>(
    stack: &mut OpenForms,
    alloc: Global,
    level: u32,
    tokens: &'a [Token],
) -> Result<(ReadingState, &'a [Token]), AllocError>
    ensures { IfOk result (λ r. state_of r.0 (stack_of stack.new) r.1.now
        ≡ start_step builds_with_height level (stack_of stack.old) tokens.now) }
{
    let Some((token, rest)) = tokens.split_first() else {
        return Ok((empty_part(level), tokens));
    };
    if !begins(&token.kind) {
        return Ok((empty_part(level), tokens));
    }
    let place = Place {
        line: token.line,
        file: token.file,
    };
    operand(
        stack,
        alloc,
        climbing_level(level),
        place,
        &token.kind,
        rest,
    )
}

/// An operand begins with what is left of its operator's token. The error is want of memory.
pub fn start_with<'a>(
    stack: &mut OpenForms,
    alloc: Global,
    place: Place,
    operator: Operator,
    tokens: &'a [Token],
) -> Result<(ReadingState, &'a [Token]), AllocError>
    ensures { IfOk result (λ r. state_of r.0 (stack_of stack.new) r.1.now
        ≡ start_step builds_with_height 12 (stack_of stack.old) (before place (Some operator) tokens.now)) }
{
    if !operator_begins(operator) {
        return Ok((ReadingState::Broken, tokens));
    }
    operator_operand(stack, alloc, 12, place, operator, tokens)
}

fn close_with(value: CappedTree) -> ReadingState
    ensures { (frames : List OpenFrame) (tokens : List Token)
        → state_of result frames tokens ≡ Closing (capped_of value) true frames tokens }
{
    ReadingState::Closing {
        value,
        present: true,
    }
}

/// A tree, with which the next token may go on. The error is want of memory.
pub fn climb<'a>(
    stack: &mut OpenForms,
    alloc: Global,
    level: u32,
    place: Place,
    value: CappedTree,
    tokens: &'a [Token],
) -> Result<(ReadingState, &'a [Token]), AllocError>
    ensures { IfOk result (λ r. state_of r.0 (stack_of stack.new) r.1.now
        ≡ climb_step builds_with_height level place (capped_of value) (stack_of stack.old) tokens.now) }
{
    let Some((token, rest)) = tokens.split_first() else {
        return Ok((close_with(value), tokens));
    };
    if level > goes_on(&token.kind) {
        return Ok((close_with(value), tokens));
    }
    extend(stack, alloc, level, place, value, &token.kind, rest)
}

// What a token makes with the tree before it.
fn extend<'a>(
    stack: &mut OpenForms,
    alloc: Global,
    level: u32,
    place: Place,
    value: CappedTree,
    kind: &Kind,
    tokens: &'a [Token],
) -> Result<(ReadingState, &'a [Token]), AllocError>
    ensures { IfOk result (λ r. state_of r.0 (stack_of stack.new) r.1.now
        ≡ extend_step builds_with_height level place (capped_of value) kind.now
        (stack_of stack.old) tokens.now) }
{
    match kind {
        Kind::Operator(operator) => plain(stack, alloc, level, place, value, *operator, tokens),
        Kind::Augmented(operator) => Ok((
            infix(stack, level, place, value, Infix::Augmented(*operator))?,
            tokens,
        )),
        Kind::Word(_) => Ok((
            open_form(stack, level, place, PartialForm::ToOperand(value), 5)?,
            tokens,
        )),
        Kind::Punctuation(mark) => Ok((suffix(stack, alloc, level, place, value, *mark)?, tokens)),
        _ => {
            discard(value);
            Ok((ReadingState::Broken, tokens))
        }
    }
}

// An operator behind a tree.
fn plain<'a>(
    stack: &mut OpenForms,
    alloc: Global,
    level: u32,
    place: Place,
    value: CappedTree,
    operator: Operator,
    tokens: &'a [Token],
) -> Result<(ReadingState, &'a [Token]), AllocError>
    ensures { IfOk result (λ r. state_of r.0 (stack_of stack.new) r.1.now ≡ plain_step builds_with_height
        (is_dot operator) level place (capped_of value) operator (stack_of stack.old) tokens.now) }
{
    match operator {
        Operator::Dot => field(alloc, level, place, value, tokens),
        _ => Ok((
            infix(stack, level, place, value, Infix::Plain(operator))?,
            tokens,
        )),
    }
}

fn infix(
    stack: &mut OpenForms,
    level: u32,
    place: Place,
    value: CappedTree,
    operator: Infix,
) -> Result<ReadingState, AllocError>
    ensures { IfOk result (λ state. (tokens : List Token) → state_of state (stack_of stack.new) tokens
        ≡ infix_step builds_with_height level place (capped_of value) operator (stack_of stack.old) tokens) }
{
    open_form(
        stack,
        level,
        place,
        PartialForm::RightOperand(operator, value),
        right_level(infix_level_of(operator)),
    )
}

// The name behind a dot.
fn field<'a>(
    alloc: Global,
    level: u32,
    place: Place,
    value: CappedTree,
    tokens: &'a [Token],
) -> Result<(ReadingState, &'a [Token]), AllocError>
    ensures { IfOk result (λ r. (frames : List OpenFrame) → state_of r.0 frames r.1.now
        ≡ plain_step builds_with_height true level place (capped_of value) Dot frames tokens.now) }
{
    let Some((token, rest)) = tokens.split_first() else {
        discard(value);
        return Ok((ReadingState::Broken, tokens));
    };
    let Kind::Identifier(text) = &token.kind else {
        discard(value);
        return Ok((ReadingState::Broken, tokens));
    };
    let name = Name {
        text: Bytes::from_slice(alloc, text.as_slice())?,
        place: Place {
            line: token.line,
            file: token.file,
        },
    };
    Ok((
        climb_at(level, place, CappedTree::field(alloc, place, value, name)?),
        rest,
    ))
}
