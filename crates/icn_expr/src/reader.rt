// How an expression is read.
ghost use Rattle.std.specs.Prelude.{◌≡◌, ◌<◌, IfOk};
ghost use Rattle.std.specs.Option.{option_map};
ghost use Rattle.icn_expr.specs.Capped.{builds_with_height};
ghost use Rattle.icn_expr.specs.Reading.{steps_left, end_of, expression_read};
ghost use Rattle.icn_expr.specs.Views.{capped_of, stack_of, state_of, progress_end, IsGoing};

use crate::closing::close;
use crate::machine::{climb, start, start_with};
use crate::stack::OpenForms;
use crate::state::ReadingState;
use crate::value::CappedTree;
use icn_tree::Token;
use std::alloc::{AllocError, Global};

/// How far the reading of an expression has come.
#[derive(Drop)]
pub enum Progress<'a> {
    /// An expression was read.
    Found(CappedTree, &'a [Token]),
    /// None stands here.
    Nothing,
    /// It goes on.
    Going(ReadingState, &'a [Token]),
}

// One step, or the end.
fn advance<'a>(
    stack: &mut OpenForms,
    alloc: Global,
    state: ReadingState,
    tokens: &'a [Token],
) -> Result<Progress<'a>, AllocError>
    ensures same { IfOk result (λ p. progress_end p (stack_of stack.new)
        ≡ end_of builds_with_height (state_of state (stack_of stack.old) tokens.now)) }
    ensures less { IfOk result (λ p. IsGoing p (λ next rest. steps_left (state_of next
        (stack_of stack.new) rest) < steps_left (state_of state (stack_of stack.old) tokens.now))) }
{
    match state {
        ReadingState::Finished { value } => Ok(Progress::Found(value, tokens)),
        ReadingState::Broken => Ok(Progress::Nothing),
        ReadingState::Starting { level } => {
            let (next, rest) = start(stack, alloc, level, tokens)?;
            Ok(Progress::Going(next, rest))
        }
        ReadingState::StartingWith { place, operator } => {
            let (next, rest) = start_with(stack, alloc, place, operator, tokens)?;
            Ok(Progress::Going(next, rest))
        }
        ReadingState::Climbing {
            level,
            place,
            value,
        } => {
            let (next, rest) = climb(stack, alloc, level, place, value, tokens)?;
            Ok(Progress::Going(next, rest))
        }
        ReadingState::Closing { value, present } => {
            let (next, rest) = close(stack, alloc, value, present, tokens)?;
            Ok(Progress::Going(next, rest))
        }
    }
}

/// The longest expression of this level in front of the tokens, and the tokens behind it; none where none stands there.
/// An error is want of memory.
pub fn expression<'a>(
    alloc: Global,
    level: u32,
    tokens: &'a [Token],
) -> Result<Option<(CappedTree, &'a [Token])>, AllocError>
    ensures { IfOk result (λ found. option_map (λ f. (capped_of f.0, f.1.now)) found
        ≡ expression_read builds_with_height level tokens.now) }
{
    let mut stack = OpenForms::new(alloc);
    let mut state = ReadingState::Starting { level };
    let mut rest = tokens;
    'reading: loop {
        match advance(&mut stack, alloc, state, rest)? {
            Progress::Found(value, rest) => return Ok(Some((value, rest))),
            Progress::Nothing => return Ok(None),
            Progress::Going(next, others) => {
                state = next;
                rest = others;
            }
        }
    }
}
