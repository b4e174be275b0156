// The steps at which a part is complete.
ghost use Rattle.std.specs.Prelude.{◌≡◌, List, ◌∷◌, Some, None, true, IfOk};
ghost use Rattle.icn_tree.specs.declared.token.Token.{Token};
ghost use Rattle.icn_tree.specs.Phrases.{next};
ghost use Rattle.icn_tree.specs.Grammar.{BySemicolon};
ghost use Rattle.icn_expr.specs.Automata.{behind as behind_first, Elements as ElementsHolding, SectionEnd, ToOperand, Consequence, Condition as ConditionHolding, CaseSubject, ClauseGuard, GuardedValue, DefaultValue, Control, SuspendValue, element_by, section_by, section_subject, separator_of, is_closer, bracket_tree, is_separator, section_kind, clause_by, clause_step, clause_end, part_or, by_or, close_by, close_step, frame as frame_at};
ghost use Rattle.icn_expr.specs.Capped.{builds_with_height};
ghost use Rattle.icn_expr.specs.Views.{OpenFrame, capped_of, elements_of, branches_of, bracket_of, holding_of, stack_of, state_of};

use crate::frame::{Bracket, OpenForm, PartialForm};
use crate::machine::{climb_at, open_form};
use crate::next::{
    behind, by_next, close_brace_next, close_bracket_next, close_parenthesis_next, colon_next,
    comma_next, default_next, do_next, else_next, of_next, open_brace_next, place_of, section_next,
    semicolon_next, then_next,
};
use crate::stack::OpenForms;
use crate::state::ReadingState;
use crate::value::{Branches, CappedTree, Elements, discard, discard_branches, discard_elements};
use icn_tree::{LoopKind, Place, SectionKind, Token};
use std::alloc::{AllocError, Global};

// The condition of an `if`.
fn condition<'a>(
    stack: &mut OpenForms,
    level: u32,
    place: Place,
    value: CappedTree,
    tokens: &'a [Token],
) -> Result<(ReadingState, &'a [Token]), AllocError>
    ensures { IfOk result
        (λ r. state_of r.0 (stack_of stack.new) r.1.now ≡ close_by builds_with_height ConditionHolding
        level place (capped_of value) true (stack_of stack.old) tokens.now) }
{
    if !then_next(tokens) {
        discard(value);
        return Ok((ReadingState::Broken, tokens));
    }
    Ok((
        open_form(stack, level, place, PartialForm::Consequence(value), 1)?,
        behind(tokens),
    ))
}

// What stands behind `then`.
fn consequence<'a>(
    stack: &mut OpenForms,
    alloc: Global,
    level: u32,
    place: Place,
    before: CappedTree,
    value: CappedTree,
    tokens: &'a [Token],
) -> Result<(ReadingState, &'a [Token]), AllocError>
    ensures { IfOk result (λ r. state_of r.0 (stack_of stack.new) r.1.now ≡ close_by builds_with_height
        (Consequence (capped_of before)) level place (capped_of value) true (stack_of stack.old) tokens.now) }
{
    if else_next(tokens) {
        return Ok((
            open_form(
                stack,
                level,
                place,
                PartialForm::Alternative(before, value),
                1,
            )?,
            behind(tokens),
        ));
    }
    Ok((
        climb_at(
            level,
            place,
            CappedTree::if_then(alloc, place, before, value)?,
        ),
        tokens,
    ))
}

// What a `to` goes up to.
fn to_operand<'a>(
    stack: &mut OpenForms,
    alloc: Global,
    level: u32,
    place: Place,
    from: CappedTree,
    value: CappedTree,
    tokens: &'a [Token],
) -> Result<(ReadingState, &'a [Token]), AllocError>
    ensures { IfOk result (λ r. state_of r.0 (stack_of stack.new) r.1.now ≡ close_by builds_with_height
        (ToOperand (capped_of from)) level place (capped_of value) true (stack_of stack.old) tokens.now) }
{
    if by_next(tokens) {
        return Ok((
            open_form(stack, level, place, PartialForm::ByOperand(from, value), 5)?,
            behind(tokens),
        ));
    }
    Ok((
        climb_at(level, place, CappedTree::to(alloc, place, from, value)?),
        tokens,
    ))
}

// The control expression of a loop.
fn control<'a>(
    stack: &mut OpenForms,
    alloc: Global,
    level: u32,
    place: Place,
    kind: LoopKind,
    value: CappedTree,
    tokens: &'a [Token],
) -> Result<(ReadingState, &'a [Token]), AllocError>
    ensures { IfOk result (λ r. state_of r.0 (stack_of stack.new) r.1.now
        ≡ close_by builds_with_height (Control kind) level place (capped_of value) true
        (stack_of stack.old) tokens.now) }
{
    if do_next(tokens) {
        return Ok((
            open_form(stack, level, place, PartialForm::LoopBody(kind, value), 1)?,
            behind(tokens),
        ));
    }
    Ok((
        climb_at(
            level,
            place,
            CappedTree::control(alloc, place, kind, value)?,
        ),
        tokens,
    ))
}

// What a `suspend` gives.
fn close_suspend<'a>(
    stack: &mut OpenForms,
    alloc: Global,
    level: u32,
    place: Place,
    value: CappedTree,
    tokens: &'a [Token],
) -> Result<(ReadingState, &'a [Token]), AllocError>
    ensures { IfOk result (λ r. state_of r.0 (stack_of stack.new) r.1.now
        ≡ close_by builds_with_height SuspendValue level place (capped_of value) true
        (stack_of stack.old) tokens.now) }
{
    if do_next(tokens) {
        return Ok((
            open_form(stack, level, place, PartialForm::SuspendBody(value), 1)?,
            behind(tokens),
        ));
    }
    Ok((
        climb_at(level, place, CappedTree::suspend(alloc, place, value)?),
        tokens,
    ))
}

// The second position of a section.
fn section_end<'a>(
    alloc: Global,
    level: u32,
    place: Place,
    kind: SectionKind,
    subject: CappedTree,
    from: CappedTree,
    value: CappedTree,
    tokens: &'a [Token],
) -> Result<(ReadingState, &'a [Token]), AllocError>
    ensures { IfOk result (λ r. (frames : List OpenFrame) → state_of r.0 frames r.1.now
        ≡ close_by builds_with_height (SectionEnd kind (capped_of subject) (capped_of from)) level place
        (capped_of value) true frames tokens.now) }
{
    if !close_bracket_next(tokens) {
        discard(subject);
        discard(from);
        discard(value);
        return Ok((ReadingState::Broken, tokens));
    }
    Ok((
        climb_at(
            level,
            place,
            CappedTree::section(alloc, place, kind, subject, from, value)?,
        ),
        behind(tokens),
    ))
}

// A clause of a `case` begins.
fn clause<'a>(
    stack: &mut OpenForms,
    level: u32,
    place: Place,
    subject: CappedTree,
    clauses: Branches,
    tokens: &'a [Token],
) -> Result<(ReadingState, &'a [Token]), AllocError>
    ensures { IfOk result
        (λ r. state_of r.0 (stack_of stack.new) r.1.now ≡ clause_step builds_with_height level place
        (capped_of subject) (branches_of clauses) (stack_of stack.old) tokens.now) }
{
    let at = place_of(tokens);
    if !default_next(tokens) {
        return Ok((
            open_form(
                stack,
                level,
                place,
                PartialForm::ClauseGuard(subject, clauses, at),
                1,
            )?,
            tokens,
        ));
    }
    let rest = behind(tokens);
    if !colon_next(rest) {
        discard(subject);
        discard_branches(clauses);
        return Ok((ReadingState::Broken, tokens));
    }
    Ok((
        open_form(
            stack,
            level,
            place,
            PartialForm::DefaultValue(subject, clauses, at),
            1,
        )?,
        behind(rest),
    ))
}

// The subject of a `case`.
fn case_subject<'a>(
    stack: &mut OpenForms,
    alloc: Global,
    level: u32,
    place: Place,
    value: CappedTree,
    tokens: &'a [Token],
) -> Result<(ReadingState, &'a [Token]), AllocError>
    ensures { IfOk result (λ r. state_of r.0 (stack_of stack.new) r.1.now
        ≡ close_by builds_with_height CaseSubject level place (capped_of value) true
        (stack_of stack.old) tokens.now) }
{
    if !of_next(tokens) || !open_brace_next(behind(tokens)) {
        discard(value);
        return Ok((ReadingState::Broken, tokens));
    }
    clause(
        stack,
        level,
        place,
        value,
        Branches::new(alloc),
        behind(behind(tokens)),
    )
}

// What stands before the colon of a clause.
fn clause_guard<'a>(
    stack: &mut OpenForms,
    level: u32,
    place: Place,
    subject: CappedTree,
    clauses: Branches,
    at: Place,
    value: CappedTree,
    tokens: &'a [Token],
) -> Result<(ReadingState, &'a [Token]), AllocError>
    ensures { IfOk result (λ r. state_of r.0 (stack_of stack.new) r.1.now
        ≡ close_by builds_with_height (ClauseGuard (capped_of subject) (branches_of clauses) at) level place
        (capped_of value) true (stack_of stack.old) tokens.now) }
{
    if !colon_next(tokens) {
        discard(subject);
        discard_branches(clauses);
        discard(value);
        return Ok((ReadingState::Broken, tokens));
    }
    Ok((
        open_form(
            stack,
            level,
            place,
            PartialForm::GuardedValue(subject, clauses, at, value),
            1,
        )?,
        behind(tokens),
    ))
}

// A clause is complete.
fn clause_ends<'a>(
    stack: &mut OpenForms,
    alloc: Global,
    level: u32,
    place: Place,
    subject: CappedTree,
    clauses: Branches,
    tokens: &'a [Token],
) -> Result<(ReadingState, &'a [Token]), AllocError>
    ensures { IfOk result (λ r. state_of r.0 (stack_of stack.new) r.1.now
        ≡ clause_end builds_with_height (is_separator BySemicolon (next tokens.now)) level place
        (capped_of subject)
        (branches_of clauses) (stack_of stack.old) tokens.now) }
{
    if semicolon_next(tokens) {
        return clause(stack, level, place, subject, clauses, behind(tokens));
    }
    if !close_brace_next(tokens) {
        discard(subject);
        discard_branches(clauses);
        return Ok((ReadingState::Broken, tokens));
    }
    Ok((
        climb_at(
            level,
            place,
            CappedTree::case(alloc, place, subject, clauses)?,
        ),
        behind(tokens),
    ))
}

// The value of a guarded clause.
fn guarded_value<'a>(
    stack: &mut OpenForms,
    alloc: Global,
    level: u32,
    place: Place,
    subject: CappedTree,
    clauses: Branches,
    at: Place,
    guard: CappedTree,
    value: CappedTree,
    tokens: &'a [Token],
) -> Result<(ReadingState, &'a [Token]), AllocError>
    ensures { IfOk result (λ r. state_of r.0 (stack_of stack.new) r.1.now ≡ close_by builds_with_height
        (GuardedValue (capped_of subject) (branches_of clauses) at (capped_of guard)) level place
        (capped_of value) true (stack_of stack.old) tokens.now) }
{
    let clauses = clauses.with_guarded(alloc, at, guard, value)?;
    clause_ends(stack, alloc, level, place, subject, clauses, tokens)
}

// The value of a default clause.
fn default_value<'a>(
    stack: &mut OpenForms,
    alloc: Global,
    level: u32,
    place: Place,
    subject: CappedTree,
    clauses: Branches,
    at: Place,
    value: CappedTree,
    tokens: &'a [Token],
) -> Result<(ReadingState, &'a [Token]), AllocError>
    ensures { IfOk result (λ r. state_of r.0 (stack_of stack.new) r.1.now
        ≡ close_by builds_with_height (DefaultValue (capped_of subject) (branches_of clauses) at) level place
        (capped_of value) true (stack_of stack.old) tokens.now) }
{
    let clauses = clauses.with_default(alloc, at, value)?;
    clause_ends(stack, alloc, level, place, subject, clauses, tokens)
}

// An element of a list.
fn element<'a>(
    stack: &mut OpenForms,
    alloc: Global,
    level: u32,
    place: Place,
    bracket: Bracket,
    elements: Elements,
    value: CappedTree,
    present: bool,
    tokens: &'a [Token],
) -> Result<(ReadingState, &'a [Token]), AllocError>
    ensures { IfOk result (λ r. state_of r.0 (stack_of stack.new) r.1.now
        ≡ close_by builds_with_height
        (ElementsHolding (bracket_of bracket) (elements_of elements)) level place
        (capped_of value) present (stack_of stack.old) tokens.now) }
{
    if is_separator_next(&bracket, tokens) {
        let elements = elements.with(alloc, value)?;
        return Ok((
            open_form(
                stack,
                level,
                place,
                PartialForm::Elements(bracket, elements),
                0,
            )?,
            behind(tokens),
        ));
    }
    if is_closer_next(&bracket, tokens) {
        let elements = elements.with(alloc, value)?;
        return Ok((
            climb_at(level, place, in_brackets(alloc, bracket, place, elements)?),
            behind(tokens),
        ));
    }
    section(
        stack, level, place, bracket, elements, value, present, tokens,
    )
}

// Whether a further element follows.
fn is_separator_next(bracket: &Bracket, tokens: &[Token]) -> bool
    ensures { result ≡ is_separator (separator_of (bracket_of bracket.now)) (next tokens.now) }
{
    match bracket {
        Bracket::Curly => semicolon_next(tokens),
        _ => comma_next(tokens),
    }
}

// Whether the list is closed.
fn is_closer_next(bracket: &Bracket, tokens: &[Token]) -> bool
    ensures { result ≡ is_closer (bracket_of bracket.now) (next tokens.now) }
{
    match bracket {
        Bracket::Round | Bracket::Arguments(_) => close_parenthesis_next(tokens),
        Bracket::Square | Bracket::Subscripts(_) => close_bracket_next(tokens),
        Bracket::Curly | Bracket::CoArguments(_) => close_brace_next(tokens),
    }
}

// The form that a list is read for.
fn in_brackets(
    alloc: Global,
    bracket: Bracket,
    place: Place,
    elements: Elements,
) -> Result<CappedTree, AllocError>
    ensures { IfOk result
        (λ value. capped_of value
        ≡ bracket_tree builds_with_height (bracket_of bracket) place (elements_of elements)) }
{
    match bracket {
        Bracket::Round => Ok(CappedTree::parentheses(place, elements)),
        Bracket::Square => Ok(CappedTree::list(place, elements)),
        Bracket::Curly => Ok(CappedTree::compound(place, elements)),
        Bracket::Arguments(callee) => CappedTree::call(alloc, place, callee, elements),
        Bracket::CoArguments(callee) => CappedTree::co_call(alloc, place, callee, elements),
        Bracket::Subscripts(subject) => CappedTree::subscript(alloc, place, subject, elements),
    }
}

// The first position of a section, if this is one.
fn section<'a>(
    stack: &mut OpenForms,
    level: u32,
    place: Place,
    bracket: Bracket,
    elements: Elements,
    value: CappedTree,
    present: bool,
    tokens: &'a [Token],
) -> Result<(ReadingState, &'a [Token]), AllocError>
    ensures { IfOk result (λ r. state_of r.0 (stack_of stack.new) r.1.now ≡ section_by builds_with_height
        (section_subject builds_with_height (bracket_of bracket)
        (builds_with_height.has_none (elements_of elements)) present)
        (section_kind (next tokens.now)) level place (capped_of value) (stack_of stack.old)
        (behind_first tokens.now)) }
{
    let first = elements.is_empty();
    discard_elements(elements);
    let kind = section_next(tokens);
    match (bracket, first && present, kind) {
        (Bracket::Subscripts(subject), true, Some(kind)) => Ok((
            open_form(
                stack,
                level,
                place,
                PartialForm::SectionEnd(kind, subject, value),
                1,
            )?,
            behind(tokens),
        )),
        (bracket, _, _) => {
            discard_bracket(bracket);
            discard(value);
            Ok((ReadingState::Broken, tokens))
        }
    }
}

fn discard_bracket(bracket: Bracket) {
    drop(bracket);
}

// A part of an open form is complete.
fn close_frame<'a>(
    stack: &mut OpenForms,
    alloc: Global,
    frame: OpenForm,
    value: CappedTree,
    present: bool,
    tokens: &'a [Token],
) -> Result<(ReadingState, &'a [Token]), AllocError>
    ensures { IfOk result
        (λ r. state_of r.0 (stack_of stack.new) r.1.now
        ≡ close_by builds_with_height (holding_of frame.holds) frame.level
        frame.place (capped_of value) present (stack_of stack.old) tokens.now) }
{
    let OpenForm {
        level,
        place,
        holds,
    } = frame;
    let whole = match holds {
        PartialForm::Elements(bracket, elements) => return element(
            stack, alloc, level, place, bracket, elements, value, present, tokens,
        ),
        PartialForm::SectionEnd(kind, subject, from) => return section_end(
            alloc, level, place, kind, subject, from, value, tokens,
        ),
        PartialForm::ToOperand(from) => return to_operand(
            stack, alloc, level, place, from, value, tokens,
        ),
        PartialForm::Condition => return condition(stack, level, place, value, tokens),
        PartialForm::Consequence(before) => return consequence(
            stack, alloc, level, place, before, value, tokens,
        ),
        PartialForm::CaseSubject => return case_subject(stack, alloc, level, place, value, tokens),
        PartialForm::ClauseGuard(subject, clauses, at) => return clause_guard(
            stack, level, place, subject, clauses, at, value, tokens,
        ),
        PartialForm::GuardedValue(subject, clauses, at, guard) => return guarded_value(
            stack, alloc, level, place, subject, clauses, at, guard, value, tokens,
        ),
        PartialForm::DefaultValue(subject, clauses, at) => return default_value(
            stack, alloc, level, place, subject, clauses, at, value, tokens,
        ),
        PartialForm::Control(kind) => return control(
            stack, alloc, level, place, kind, value, tokens,
        ),
        PartialForm::SuspendValue => return close_suspend(
            stack, alloc, level, place, value, tokens,
        ),
        PartialForm::PrefixOperand(operator) => CappedTree::prefix(alloc, place, operator, value)?,
        PartialForm::NotOperand => CappedTree::not(alloc, place, value)?,
        PartialForm::RightOperand(operator, left) => CappedTree::binary(
            alloc, place, operator, left, value,
        )?,
        PartialForm::ByOperand(from, to) => CappedTree::to_by(alloc, place, from, to, value)?,
        PartialForm::Alternative(before, first) => CappedTree::if_else(
            alloc, place, before, first, value,
        )?,
        PartialForm::LoopBody(kind, control) => CappedTree::control_do(
            alloc, place, kind, control, value,
        )?,
        PartialForm::RepeatBody => CappedTree::repeat(alloc, place, value)?,
        PartialForm::CreateBody => CappedTree::create(alloc, place, value)?,
        PartialForm::BreakValue => CappedTree::break_with(alloc, place, value)?,
        PartialForm::ReturnValue => CappedTree::return_with(alloc, place, value)?,
        PartialForm::SuspendBody(suspended) => CappedTree::suspend_do(
            alloc, place, suspended, value,
        )?,
    };
    Ok((climb_at(level, place, whole), tokens))
}

/// A part is complete. The error is want of memory.
pub fn close<'a>(
    stack: &mut OpenForms,
    alloc: Global,
    value: CappedTree,
    present: bool,
    tokens: &'a [Token],
) -> Result<(ReadingState, &'a [Token]), AllocError>
    ensures { IfOk result (λ r. state_of r.0 (stack_of stack.new) r.1.now
        ≡ close_step builds_with_height (capped_of value) present (stack_of stack.old) tokens.now) }
{
    match stack.pop() {
        Some(frame) => close_frame(stack, alloc, frame, value, present, tokens),
        None => Ok((ReadingState::Finished { value }, tokens)),
    }
}
