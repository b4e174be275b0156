// Counting.
ghost use Rattle.std.specs.Prelude.{pos};
ghost use Rattle.std.specs.Ordering.{int_eq};
ghost use Rattle.icn_value.specs.Store.{Setting};
ghost use Rattle.icn_defs.specs.Arithmetic.{count_from, counting_again, counts_on, to_by_row};
ghost use Rattle.std.specs.Prelude.{◌≡◌};
ghost use Rattle.icn_heap.specs.Extents.{Extent};
ghost use Rattle.icn_heap.specs.Heaps.{extent_of};
ghost use Rattle.icn_vars.specs.Outcomes.{IsLiveAnswer, IsLiveOutcome, outcome_in};
ghost use Rattle.icn_vars.specs.Worlds.{AreLiveThree, Reach, item_in, reach_of};
ghost use Rattle.icn_args.specs.RowWords.{Answers};

use crate::operands::three_integers;
use icn_text::add;
use icn_value::{Item, Residual, Val};
use icn_vars::{Halt, Locals, Outcome, World};

/// `i to j by k`: the first integer, where it has not passed the end; or error 101, or 211 at a step of 0.
pub fn to_by_row<L: Locals>(w: &World, l: &L, x: Item, y: Item, z: Item) -> Result<Outcome, Halt>
    requires live { AreLiveThree w.now (L.items l.now) x y z }
    ensures row { Answers w.now (L.items l.now) w.now (L.items l.now)
        (to_by_row (item_in (extent_of w.now.heap) x) (item_in (extent_of w.now.heap) y)
        (item_in (extent_of w.now.heap) z)) result }
    ensures live { IsLiveAnswer (reach_of w.now (L.items l.now)) result }
{
    let (given, last, step) = three_integers(w, l, x, y, z)?;
    if is_zero(step) {
        return Err(Halt::Error(211, None));
    }
    Ok(count_from(last, step, Some(given)))
}

/// The count goes on by its step, where 64 bits hold the next integer and it has not passed the end.
pub fn counting_again(given: i64, last: i64, step: i64) -> Outcome
    ensures row { (all : Extent) (setting : Setting)
        → counting_again given last step setting ≡ outcome_in all result setting }
    ensures live { (reach : Reach) → IsLiveOutcome reach result }
{
    count_from(last, step, add(given, step).ok())
}

// The next integer of a count, if there is one that has not passed the end.
fn count_from(last: i64, step: i64, next: Option<i64>) -> Outcome
    ensures row { (all : Extent) (setting : Setting)
        → count_from last step next setting ≡ outcome_in all result setting }
    ensures live { (reach : Reach) → IsLiveOutcome reach result }
{
    match next {
        Some(given) if counts_on(step, last, given) => Outcome::Suspends(
            Item::Val(Val::Integer(given)),
            Residual::Counting { given, last, step },
        ),
        _ => Outcome::Fails,
    }
}

// Whether a count with this step has not passed its end.
fn counts_on(step: i64, last: i64, n: i64) -> bool
    ensures { result ≡ counts_on step last n }
{
    if step > 0 { n <= last } else { last <= n }
}

// Whether a step does not count.
fn is_zero(step: i64) -> bool
    ensures { result ≡ int_eq step (pos 0) }
{
    step == 0
}
