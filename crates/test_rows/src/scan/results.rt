// All that a case gives.
ghost use Rattle.std.specs.List.{All};
ghost use Rattle.icn_heap.specs.Extents.{IsLive};
ghost use Rattle.icn_heap.specs.Heaps.{extent_of};
ghost use Rattle.icn_vars.specs.Outcomes.{IsLiveAnswer, IsLiveResidual};
ghost use Rattle.icn_vars.specs.Worlds.{reach_of};

use crate::scan::calls::{is_move, resume_residual};
use crate::scan::keywords::assign_keyword;
use icn_heap::{empty_text, short_text};
use icn_value::{KeywordVariable, Residual, Span, Val};
use icn_vars::{Halt, Outcome, World};
use std::alloc::AllocError;
use test_values::{Slots, push_error, push_integer, push_item};

/// Appends a result and those that come after it, up to a number. `AllocError` is want of memory.
pub fn push_results(
    out: &mut String,
    w: &mut World,
    slots: &mut Slots,
    answer: Result<Outcome, Halt>,
    left: u32,
    emptied: bool,
) -> Result<(), AllocError>
    requires answer { IsLiveAnswer (reach_of w.old slots.old.vals.items) answer }
    requires locals { All (IsLive (extent_of w.old.heap)) slots.old.vals.items }
{
    match answer {
        Ok(Outcome::Fails) => out.push_str("fails"),
        Ok(Outcome::Gives(item)) => push_item(out, w, slots, item),
        Ok(Outcome::Suspends(item, rest)) => {
            push_item(out, w, slots, item)?;
            if left == 0 {
                return out.push_str(", and more");
            }
            push_position(out, w, rest)?;
            out.push_str(", ")?;
            let next = resume_function(w, slots, rest, emptied);
            push_results(out, w, slots, next, left - 1, emptied)?;
            push_position(out, w, rest)
        }
        Err(Halt::Error(number, offending)) => push_error(out, w, number, offending),
        Err(Halt::NoMemory) => out.push_str("no memory"),
        Err(_) => out.push_str("a fault"),
    }
}

// What comes when a function is resumed.
fn resume_function(
    w: &mut World,
    slots: &mut Slots,
    rest: Residual,
    emptied: bool,
) -> Result<Outcome, Halt>
    requires rest { IsLiveResidual (reach_of w.old slots.old.vals.items) rest }
    requires locals { All (IsLive (extent_of w.old.heap)) slots.old.vals.items }
    ensures live { IsLiveAnswer (reach_of w.new slots.new.vals.items) result }
    ensures locals { All (IsLive (extent_of w.new.heap)) slots.new.vals.items }
{
    if emptied {
        resume_on_empty(w, slots, rest)
    } else {
        resume_residual(rest, w, slots)
    }
}

// What comes when a function is resumed once the subject is empty.
fn resume_on_empty(w: &mut World, slots: &mut Slots, rest: Residual) -> Result<Outcome, Halt>
    requires rest { IsLiveResidual (reach_of w.old slots.old.vals.items) rest }
    requires locals { All (IsLive (extent_of w.old.heap)) slots.old.vals.items }
    ensures live { IsLiveAnswer (reach_of w.new slots.new.vals.items) result }
    ensures locals { All (IsLive (extent_of w.new.heap)) slots.new.vals.items }
{
    let span = Span { start: 0, len: 0 };
    empty_text(&w.heap, span);
    assign_keyword(w, slots, KeywordVariable::Subject, Val::Text(span));
    resume_residual(rest, w, slots)
}

// Appends the position, where a move is taken back.
fn push_position(out: &mut String, w: &World, rest: Residual) -> Result<(), AllocError> {
    if is_move(rest) {
        out.push_str(" at ")?;
        push_place(out, w)
    } else {
        Ok(())
    }
}

fn push_place(out: &mut String, w: &World) -> Result<(), AllocError> {
    short_text(&w.heap, w.pair.subject);
    push_integer(out, w.pair.position as i64)
}
