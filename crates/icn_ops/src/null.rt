// Null values, sizes, and values of variables.
ghost use Rattle.std.specs.Prelude.{◌≡◌};
ghost use Rattle.icn_value.specs.Store.{Setting};
ghost use Rattle.icn_defs.specs.Rows.{gives, fails_unless};
ghost use Rattle.icn_defs.specs.Operations.{dereference_row, is_not_null_row, is_null_row, size_row};
ghost use Rattle.icn_heap.specs.Extents.{Extent};
ghost use Rattle.icn_heap.specs.Heaps.{extent_of};
ghost use Rattle.icn_vars.specs.Outcomes.{IsLiveAnswer, IsLiveOutcome, outcome_in};
ghost use Rattle.icn_vars.specs.Worlds.{IsLiveOperand, IsLiveItem, Reach, item_in, reach_of};
ghost use Rattle.icn_args.specs.RowWords.{Answers};

use icn_args::is_null;
use icn_value::{Item, Val};
use icn_vars::{Halt, Locals, Outcome, World, deref};

/// An item where a test is met; it fails elsewhere.
pub fn item_if(test: bool, item: Item) -> Outcome
    ensures row { (all : Extent) (setting : Setting)
        → fails_unless test (gives (item_in all item)) setting ≡ outcome_in all result setting }
    ensures live { (reach : Reach) → IsLiveItem reach item → IsLiveOutcome reach result }
{
    if test {
        Outcome::Gives(item)
    } else {
        Outcome::Fails
    }
}

/// `/x`: the item itself where its value is null; it fails elsewhere.
pub fn is_null_row<L: Locals>(w: &World, l: &L, x: Item) -> Result<Outcome, Halt>
    requires live { IsLiveOperand w.now (L.items l.now) x }
    ensures row { Answers w.now (L.items l.now) w.now (L.items l.now)
        (is_null_row (item_in (extent_of w.now.heap) x)) result }
    ensures live { IsLiveAnswer (reach_of w.now (L.items l.now)) result }
{
    let val = deref(w, l, x)?;
    Ok(item_if(is_null(val), x))
}

/// `\x`: the item itself where its value is not null; it fails elsewhere.
pub fn is_not_null_row<L: Locals>(w: &World, l: &L, x: Item) -> Result<Outcome, Halt>
    requires live { IsLiveOperand w.now (L.items l.now) x }
    ensures row { Answers w.now (L.items l.now) w.now (L.items l.now)
        (is_not_null_row (item_in (extent_of w.now.heap) x)) result }
    ensures live { IsLiveAnswer (reach_of w.now (L.items l.now)) result }
{
    let val = deref(w, l, x)?;
    Ok(item_if(!is_null(val), x))
}

/// `.x`: the value. The error is that of an operand that cannot be read.
pub fn dereference_row<L: Locals>(w: &World, l: &L, x: Item) -> Result<Outcome, Halt>
    requires live { IsLiveOperand w.now (L.items l.now) x }
    ensures row { Answers w.now (L.items l.now) w.now (L.items l.now)
        (dereference_row (item_in (extent_of w.now.heap) x)) result }
    ensures live { IsLiveAnswer (reach_of w.now (L.items l.now)) result }
{
    let val = deref(w, l, x)?;
    Ok(Outcome::Gives(Item::Val(val)))
}

/// `*x`: the size, or error 112 about the value.
pub fn size_row<L: Locals>(w: &World, l: &L, x: Item) -> Result<Outcome, Halt>
    requires live { IsLiveOperand w.now (L.items l.now) x }
    ensures row { Answers w.now (L.items l.now) w.now (L.items l.now)
        (size_row (item_in (extent_of w.now.heap) x)) result }
    ensures live { IsLiveAnswer (reach_of w.now (L.items l.now)) result }
{
    let val = deref(w, l, x)?;
    match w.heap.size(val) {
        Some(size) => Ok(Outcome::Gives(Item::Val(Val::Integer(size as i64)))),
        None => Err(Halt::Error(112, Some(val))),
    }
}
