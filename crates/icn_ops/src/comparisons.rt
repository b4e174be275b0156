// Comparisons: they give the value at the right, or fail.
ghost use Rattle.icn_value.specs.Store.{Setting};
ghost use Rattle.icn_defs.specs.Arithmetic.{equal_row, greater_or_equal_row, greater_row, less_or_equal_row, less_row, not_equal_row};
ghost use Rattle.icn_defs.specs.Operations.{equivalent_row, lexically_equal_row, lexically_greater_or_equal_row, lexically_greater_row, lexically_less_or_equal_row, lexically_less_row, lexically_not_equal_row, not_equivalent_row};
ghost use Rattle.icn_heap.specs.Extents.{Extent, IsLive, value_in};
ghost use Rattle.icn_heap.specs.Heaps.{extent_of};
ghost use Rattle.icn_vars.specs.Outcomes.{IsLiveAnswer};
ghost use Rattle.icn_vars.specs.Worlds.{AreLiveTwo, KeepsLive, Reach, item_in, reach_of};
ghost use Rattle.icn_args.specs.RowWords.{Answers};
ghost use Rattle.std.specs.Prelude.{◌≡◌};
ghost use Rattle.icn_defs.specs.Rows.{gives_value, fails_unless};
ghost use Rattle.icn_vars.specs.Outcomes.{IsLiveOutcome, outcome_in};

use crate::operands::{compared_numbers, compared_texts, two_values};
use icn_convert::same;
use icn_value::{Item, Val};
use icn_vars::{Halt, Locals, Outcome, World};

// A value where a test is met; it fails elsewhere.
fn value_if(test: bool, val: Val) -> Outcome
    ensures row { (all : Extent) (setting : Setting)
        → fails_unless test (gives_value (value_in all val)) setting ≡ outcome_in all result setting }
    ensures live { (reach : Reach) → IsLive reach.extent val → IsLiveOutcome reach result }
{
    if test {
        Outcome::Gives(Item::Val(val))
    } else {
        Outcome::Fails
    }
}

/// `m < n`, or error 102.
pub fn less_row<L: Locals>(w: &World, l: &L, x: Item, y: Item) -> Result<Outcome, Halt>
    requires live { AreLiveTwo w.now (L.items l.now) x y }
    ensures row { Answers w.now (L.items l.now) w.now (L.items l.now)
        (less_row (item_in (extent_of w.now.heap) x) (item_in (extent_of w.now.heap) y)) result }
    ensures live { IsLiveAnswer (reach_of w.now (L.items l.now)) result }
{
    let (order, n) = compared_numbers(w, l, x, y)?;
    Ok(value_if(order.is_lt(), Val::Integer(n)))
}

/// `m <= n`, or error 102.
pub fn less_or_equal_row<L: Locals>(w: &World, l: &L, x: Item, y: Item) -> Result<Outcome, Halt>
    requires live { AreLiveTwo w.now (L.items l.now) x y }
    ensures row { Answers w.now (L.items l.now) w.now (L.items l.now)
        (less_or_equal_row (item_in (extent_of w.now.heap) x) (item_in (extent_of w.now.heap) y)) result }
    ensures live { IsLiveAnswer (reach_of w.now (L.items l.now)) result }
{
    let (order, n) = compared_numbers(w, l, x, y)?;
    Ok(value_if(order.is_le(), Val::Integer(n)))
}

/// `m = n`, or error 102.
pub fn equal_row<L: Locals>(w: &World, l: &L, x: Item, y: Item) -> Result<Outcome, Halt>
    requires live { AreLiveTwo w.now (L.items l.now) x y }
    ensures row { Answers w.now (L.items l.now) w.now (L.items l.now)
        (equal_row (item_in (extent_of w.now.heap) x) (item_in (extent_of w.now.heap) y)) result }
    ensures live { IsLiveAnswer (reach_of w.now (L.items l.now)) result }
{
    let (order, n) = compared_numbers(w, l, x, y)?;
    Ok(value_if(order.is_eq(), Val::Integer(n)))
}

/// `m >= n`, or error 102.
pub fn greater_or_equal_row<L: Locals>(w: &World, l: &L, x: Item, y: Item) -> Result<Outcome, Halt>
    requires live { AreLiveTwo w.now (L.items l.now) x y }
    ensures row { Answers w.now (L.items l.now) w.now (L.items l.now)
        (greater_or_equal_row (item_in (extent_of w.now.heap) x) (item_in (extent_of w.now.heap) y)) result }
    ensures live { IsLiveAnswer (reach_of w.now (L.items l.now)) result }
{
    let (order, n) = compared_numbers(w, l, x, y)?;
    Ok(value_if(order.is_ge(), Val::Integer(n)))
}

/// `m > n`, or error 102.
pub fn greater_row<L: Locals>(w: &World, l: &L, x: Item, y: Item) -> Result<Outcome, Halt>
    requires live { AreLiveTwo w.now (L.items l.now) x y }
    ensures row { Answers w.now (L.items l.now) w.now (L.items l.now)
        (greater_row (item_in (extent_of w.now.heap) x) (item_in (extent_of w.now.heap) y)) result }
    ensures live { IsLiveAnswer (reach_of w.now (L.items l.now)) result }
{
    let (order, n) = compared_numbers(w, l, x, y)?;
    Ok(value_if(order.is_gt(), Val::Integer(n)))
}

/// `m ~= n`, or error 102.
pub fn not_equal_row<L: Locals>(w: &World, l: &L, x: Item, y: Item) -> Result<Outcome, Halt>
    requires live { AreLiveTwo w.now (L.items l.now) x y }
    ensures row { Answers w.now (L.items l.now) w.now (L.items l.now)
        (not_equal_row (item_in (extent_of w.now.heap) x) (item_in (extent_of w.now.heap) y)) result }
    ensures live { IsLiveAnswer (reach_of w.now (L.items l.now)) result }
{
    let (order, n) = compared_numbers(w, l, x, y)?;
    Ok(value_if(order.is_ne(), Val::Integer(n)))
}

/// `s << t`, or error 103; 306 where the texts that are made for it pass their limit.
pub fn lexically_less_row<L: Locals>(
    w: &mut World,
    l: &L,
    x: Item,
    y: Item,
) -> Result<Outcome, Halt>
    requires live { AreLiveTwo w.old (L.items l.now) x y }
    ensures row { Answers w.old (L.items l.now) w.new (L.items l.now)
        (lexically_less_row (item_in (extent_of w.old.heap) x) (item_in (extent_of w.old.heap) y)) result }
    ensures live { IsLiveAnswer (reach_of w.new (L.items l.now)) result }
    ensures kept { KeepsLive w.old (L.items l.now) w.new (L.items l.now) }
{
    let (order, text) = compared_texts(w, l, x, y)?;
    Ok(value_if(order.is_lt(), Val::Text(text)))
}

/// `s <<= t`, or error 103; 306 where the texts that are made for it pass their limit.
pub fn lexically_less_or_equal_row<L: Locals>(
    w: &mut World,
    l: &L,
    x: Item,
    y: Item,
) -> Result<Outcome, Halt>
    requires live { AreLiveTwo w.old (L.items l.now) x y }
    ensures row { Answers w.old (L.items l.now) w.new (L.items l.now)
        (lexically_less_or_equal_row (item_in (extent_of w.old.heap) x) (item_in (extent_of w.old.heap) y))
        result }
    ensures live { IsLiveAnswer (reach_of w.new (L.items l.now)) result }
    ensures kept { KeepsLive w.old (L.items l.now) w.new (L.items l.now) }
{
    let (order, text) = compared_texts(w, l, x, y)?;
    Ok(value_if(order.is_le(), Val::Text(text)))
}

/// `s == t`, or error 103; 306 where the texts that are made for it pass their limit.
pub fn lexically_equal_row<L: Locals>(
    w: &mut World,
    l: &L,
    x: Item,
    y: Item,
) -> Result<Outcome, Halt>
    requires live { AreLiveTwo w.old (L.items l.now) x y }
    ensures row { Answers w.old (L.items l.now) w.new (L.items l.now)
        (lexically_equal_row (item_in (extent_of w.old.heap) x) (item_in (extent_of w.old.heap) y)) result }
    ensures live { IsLiveAnswer (reach_of w.new (L.items l.now)) result }
    ensures kept { KeepsLive w.old (L.items l.now) w.new (L.items l.now) }
{
    let (order, text) = compared_texts(w, l, x, y)?;
    Ok(value_if(order.is_eq(), Val::Text(text)))
}

/// `s >>= t`, or error 103; 306 where the texts that are made for it pass their limit.
pub fn lexically_greater_or_equal_row<L: Locals>(
    w: &mut World,
    l: &L,
    x: Item,
    y: Item,
) -> Result<Outcome, Halt>
    requires live { AreLiveTwo w.old (L.items l.now) x y }
    ensures row { Answers w.old (L.items l.now) w.new (L.items l.now)
        (lexically_greater_or_equal_row (item_in (extent_of w.old.heap) x) (item_in (extent_of w.old.heap) y))
        result }
    ensures live { IsLiveAnswer (reach_of w.new (L.items l.now)) result }
    ensures kept { KeepsLive w.old (L.items l.now) w.new (L.items l.now) }
{
    let (order, text) = compared_texts(w, l, x, y)?;
    Ok(value_if(order.is_ge(), Val::Text(text)))
}

/// `s >> t`, or error 103; 306 where the texts that are made for it pass their limit.
pub fn lexically_greater_row<L: Locals>(
    w: &mut World,
    l: &L,
    x: Item,
    y: Item,
) -> Result<Outcome, Halt>
    requires live { AreLiveTwo w.old (L.items l.now) x y }
    ensures row { Answers w.old (L.items l.now) w.new (L.items l.now)
        (lexically_greater_row (item_in (extent_of w.old.heap) x) (item_in (extent_of w.old.heap) y)) result }
    ensures live { IsLiveAnswer (reach_of w.new (L.items l.now)) result }
    ensures kept { KeepsLive w.old (L.items l.now) w.new (L.items l.now) }
{
    let (order, text) = compared_texts(w, l, x, y)?;
    Ok(value_if(order.is_gt(), Val::Text(text)))
}

/// `s ~== t`, or error 103; 306 where the texts that are made for it pass their limit.
pub fn lexically_not_equal_row<L: Locals>(
    w: &mut World,
    l: &L,
    x: Item,
    y: Item,
) -> Result<Outcome, Halt>
    requires live { AreLiveTwo w.old (L.items l.now) x y }
    ensures row { Answers w.old (L.items l.now) w.new (L.items l.now)
        (lexically_not_equal_row (item_in (extent_of w.old.heap) x) (item_in (extent_of w.old.heap) y))
        result }
    ensures live { IsLiveAnswer (reach_of w.new (L.items l.now)) result }
    ensures kept { KeepsLive w.old (L.items l.now) w.new (L.items l.now) }
{
    let (order, text) = compared_texts(w, l, x, y)?;
    Ok(value_if(order.is_ne(), Val::Text(text)))
}

/// `x === y`: the value at the right where both are the same; it fails elsewhere. The error is that of an operand that
/// cannot be read.
pub fn equivalent_row<L: Locals>(w: &World, l: &L, x: Item, y: Item) -> Result<Outcome, Halt>
    requires live { AreLiveTwo w.now (L.items l.now) x y }
    ensures row { Answers w.now (L.items l.now) w.now (L.items l.now)
        (equivalent_row (item_in (extent_of w.now.heap) x) (item_in (extent_of w.now.heap) y)) result }
    ensures live { IsLiveAnswer (reach_of w.now (L.items l.now)) result }
{
    let (a, b) = two_values(w, l, x, y)?;
    Ok(value_if(same(&w.heap, a, b), b))
}

/// `x ~=== y`: the value at the right where both differ; it fails elsewhere. The error is that of an operand that cannot be
/// read.
pub fn not_equivalent_row<L: Locals>(w: &World, l: &L, x: Item, y: Item) -> Result<Outcome, Halt>
    requires live { AreLiveTwo w.now (L.items l.now) x y }
    ensures row { Answers w.now (L.items l.now) w.now (L.items l.now)
        (not_equivalent_row (item_in (extent_of w.now.heap) x) (item_in (extent_of w.now.heap) y)) result }
    ensures live { IsLiveAnswer (reach_of w.now (L.items l.now)) result }
{
    let (a, b) = two_values(w, l, x, y)?;
    Ok(value_if(!same(&w.heap, a, b), b))
}
