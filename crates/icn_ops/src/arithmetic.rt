// Arithmetic.
ghost use Rattle.std.specs.Prelude.{ℤ, Result};
ghost use Rattle.icn_value.specs.Store.{Setting};
ghost use Rattle.icn_defs.specs.Arithmetic.{add_row, divide_row, multiply_row, negate_row, number_row, power_row, remainder_row, subtract_row};
ghost use Rattle.icn_heap.specs.Extents.{Extent};
ghost use Rattle.icn_vars.specs.Outcomes.{ComesToAnswer};
ghost use Rattle.icn_vars.specs.Worlds.{AreLiveTwo, IsLiveOperand, Reach};
ghost use Rattle.icn_ops.specs.Operands.{gives_computed};
ghost use Rattle.icn_heap.specs.Heaps.{extent_of};
ghost use Rattle.icn_vars.specs.Outcomes.{IsLiveAnswer};
ghost use Rattle.icn_vars.specs.Worlds.{item_in, reach_of};
ghost use Rattle.icn_args.specs.RowWords.{Answers};

use crate::operands::two_numbers;
use icn_args::{arith_result, number_of};
use icn_text::{Arith, add, div, mul, power, rem, sub};
use icn_value::{Item, Val};
use icn_vars::{Halt, Locals, Outcome, World, deref};

// The integer that was computed, or the error of its operation.
fn integer_outcome(found: Result<i64, Arith>) -> Result<Outcome, Halt>
    ensures row { (all : Extent) (setting : Setting)
        → ComesToAnswer all (gives_computed found) setting setting result }
    ensures live { (reach : Reach) → IsLiveAnswer reach result }
{
    let n = arith_result(found)?;
    Ok(Outcome::Gives(Item::Val(Val::Integer(n))))
}

/// `+n`: the integer, or error 102.
pub fn number_row<L: Locals>(w: &World, l: &L, x: Item) -> Result<Outcome, Halt>
    requires live { IsLiveOperand w.now (L.items l.now) x }
    ensures row { Answers w.now (L.items l.now) w.now (L.items l.now)
        (number_row (item_in (extent_of w.now.heap) x)) result }
    ensures live { IsLiveAnswer (reach_of w.now (L.items l.now)) result }
{
    let val = deref(w, l, x)?;
    let n = number_of(&w.heap, val)?;
    Ok(Outcome::Gives(Item::Val(Val::Integer(n))))
}

/// `-n`: the integer below 0 by as much as it is above, or error 102; 203 where 64 bits do not hold it.
pub fn negate_row<L: Locals>(w: &World, l: &L, x: Item) -> Result<Outcome, Halt>
    requires live { IsLiveOperand w.now (L.items l.now) x }
    ensures row { Answers w.now (L.items l.now) w.now (L.items l.now)
        (negate_row (item_in (extent_of w.now.heap) x)) result }
    ensures live { IsLiveAnswer (reach_of w.now (L.items l.now)) result }
{
    let val = deref(w, l, x)?;
    let n = number_of(&w.heap, val)?;
    integer_outcome(sub(0, n))
}

/// `m + n`: the sum, or error 102; 203 where 64 bits do not hold it.
pub fn add_row<L: Locals>(w: &World, l: &L, x: Item, y: Item) -> Result<Outcome, Halt>
    requires live { AreLiveTwo w.now (L.items l.now) x y }
    ensures row { Answers w.now (L.items l.now) w.now (L.items l.now)
        (add_row (item_in (extent_of w.now.heap) x) (item_in (extent_of w.now.heap) y)) result }
    ensures live { IsLiveAnswer (reach_of w.now (L.items l.now)) result }
{
    let (m, n) = two_numbers(w, l, x, y)?;
    integer_outcome(add(m, n))
}

/// `m - n`: the difference, or error 102; 203 where 64 bits do not hold it.
pub fn subtract_row<L: Locals>(w: &World, l: &L, x: Item, y: Item) -> Result<Outcome, Halt>
    requires live { AreLiveTwo w.now (L.items l.now) x y }
    ensures row { Answers w.now (L.items l.now) w.now (L.items l.now)
        (subtract_row (item_in (extent_of w.now.heap) x) (item_in (extent_of w.now.heap) y)) result }
    ensures live { IsLiveAnswer (reach_of w.now (L.items l.now)) result }
{
    let (m, n) = two_numbers(w, l, x, y)?;
    integer_outcome(sub(m, n))
}

/// `m * n`: the product, or error 102; 203 where 64 bits do not hold it.
pub fn multiply_row<L: Locals>(w: &World, l: &L, x: Item, y: Item) -> Result<Outcome, Halt>
    requires live { AreLiveTwo w.now (L.items l.now) x y }
    ensures row { Answers w.now (L.items l.now) w.now (L.items l.now)
        (multiply_row (item_in (extent_of w.now.heap) x) (item_in (extent_of w.now.heap) y)) result }
    ensures live { IsLiveAnswer (reach_of w.now (L.items l.now)) result }
{
    let (m, n) = two_numbers(w, l, x, y)?;
    integer_outcome(mul(m, n))
}

/// `m / n`: the quotient, truncated toward 0, or error 102; 201 at the divisor 0, 203 where 64 bits do not hold it.
pub fn divide_row<L: Locals>(w: &World, l: &L, x: Item, y: Item) -> Result<Outcome, Halt>
    requires live { AreLiveTwo w.now (L.items l.now) x y }
    ensures row { Answers w.now (L.items l.now) w.now (L.items l.now)
        (divide_row (item_in (extent_of w.now.heap) x) (item_in (extent_of w.now.heap) y)) result }
    ensures live { IsLiveAnswer (reach_of w.now (L.items l.now)) result }
{
    let (m, n) = two_numbers(w, l, x, y)?;
    integer_outcome(div(m, n))
}

/// `m % n`: the remainder, with the sign of the dividend, or error 102; 202 at the divisor 0.
pub fn remainder_row<L: Locals>(w: &World, l: &L, x: Item, y: Item) -> Result<Outcome, Halt>
    requires live { AreLiveTwo w.now (L.items l.now) x y }
    ensures row { Answers w.now (L.items l.now) w.now (L.items l.now)
        (remainder_row (item_in (extent_of w.now.heap) x) (item_in (extent_of w.now.heap) y)) result }
    ensures live { IsLiveAnswer (reach_of w.now (L.items l.now)) result }
{
    let (m, n) = two_numbers(w, l, x, y)?;
    integer_outcome(rem(m, n))
}

/// `m ^ n`: the power, or error 102; 201 at 0 to an exponent below 0, 203 where 64 bits do not hold it.
pub fn power_row<L: Locals>(w: &World, l: &L, x: Item, y: Item) -> Result<Outcome, Halt>
    requires live { AreLiveTwo w.now (L.items l.now) x y }
    ensures row { Answers w.now (L.items l.now) w.now (L.items l.now)
        (power_row (item_in (extent_of w.now.heap) x) (item_in (extent_of w.now.heap) y)) result }
    ensures live { IsLiveAnswer (reach_of w.now (L.items l.now)) result }
{
    let (m, n) = two_numbers(w, l, x, y)?;
    integer_outcome(power(m, n))
}
