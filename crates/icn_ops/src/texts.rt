// Texts and csets that are put together.
ghost use Rattle.icn_defs.specs.Operations.{complement_row, concatenate_row};
ghost use Rattle.icn_heap.specs.Heaps.{extent_of};
ghost use Rattle.icn_vars.specs.Outcomes.{IsLiveAnswer, answer_of};
ghost use Rattle.icn_vars.specs.Worlds.{AreLiveTwo, IsLiveOperand, KeepsLive, item_in, reach_of};
ghost use Rattle.icn_args.specs.RowWords.{Answers};

use crate::operands::two_texts;
use icn_args::{cset_of, join};
use icn_value::{Item, Val};
use icn_vars::{Halt, Locals, Outcome, ValueOutcome, World, deref};

/// `~c`: the bytes that are no members, or error 104.
pub fn complement_row<L: Locals>(w: &World, l: &L, x: Item) -> Result<Outcome, Halt>
    requires live { IsLiveOperand w.now (L.items l.now) x }
    ensures row { Answers w.now (L.items l.now) w.now (L.items l.now)
        (complement_row (item_in (extent_of w.now.heap) x)) result }
    ensures live { IsLiveAnswer (reach_of w.now (L.items l.now)) result }
{
    let val = deref(w, l, x)?;
    let cset = cset_of(&w.heap, val)?;
    Ok(Outcome::Gives(Item::Val(Val::Chars(cset.other()))))
}

/// `s || t`: the bytes of both, or error 103; 306 where the texts that are made for it, or it, pass their limit.
pub fn concatenate_row<L: Locals>(
    w: &mut World,
    l: &L,
    x: Item,
    y: Item,
) -> Result<ValueOutcome, Halt>
    requires live { AreLiveTwo w.old (L.items l.now) x y }
    ensures row { Answers w.old (L.items l.now) w.new (L.items l.now)
        (concatenate_row (item_in (extent_of w.old.heap) x) (item_in (extent_of w.old.heap) y))
        (answer_of result) }
    ensures live { IsLiveAnswer (reach_of w.new (L.items l.now)) (answer_of result) }
    ensures kept { KeepsLive w.old (L.items l.now) w.new (L.items l.now) }
{
    let (s, t) = two_texts(w, l, x, y)?;
    let text = join(w, l, s, t)?;
    Ok(ValueOutcome::Gives(Val::Text(text)))
}
