// Subscripts of texts and structures.
ghost use Rattle.std.specs.Prelude.{◌≡◌};
ghost use Rattle.std.specs.List.{All};
ghost use Rattle.icn_value.specs.declared.val.Val.TheVariants.{List as ListVal, Rec};
ghost use Rattle.icn_defs.specs.Conversions.{Listed, Recorded, Textual, group_of};
ghost use Rattle.icn_defs.specs.Variables.{subscript_of, subscript_row};
ghost use Rattle.icn_heap.specs.Extents.{IsLive, value_in};
ghost use Rattle.icn_heap.specs.Heaps.{extent_of};
ghost use Rattle.icn_vars.specs.Outcomes.{IsLiveAnswer};
ghost use Rattle.icn_vars.specs.Worlds.{AreLiveTwo, IsLiveItem, IsShortItem, KeepsLive, item_in, reach_of};
ghost use Rattle.icn_args.specs.RowWords.{Answers, HasText, the_text};

use crate::operands::two_values;
use crate::parts::{
    element_item, field_count, field_item, list_count, part_item, text_holder, text_length,
};
use crate::positions::element_position;
use icn_args::{integer_of, text_of};
use icn_value::{Item, Root, Val, VarRef};
use icn_vars::{Halt, Locals, Outcome, World};

/// `x[y]`: the byte, the element or the field that a position stands before, or the value at a key of a table. It fails where the
/// position stands before none. The errors are 114 about a value that has none of these, 101, and 306 where a text that is made
/// passes its limit.
pub fn subscript_row<L: Locals>(w: &mut World, l: &L, x: Item, y: Item) -> Result<Outcome, Halt>
    requires live { AreLiveTwo w.old (L.items l.now) x y }
    ensures row { Answers w.old (L.items l.now) w.new (L.items l.now)
        (subscript_row (item_in (extent_of w.old.heap) x) (item_in (extent_of w.old.heap) y)) result }
    ensures live { IsLiveAnswer (reach_of w.new (L.items l.now)) result }
    ensures kept { KeepsLive w.old (L.items l.now) w.new (L.items l.now) }
{
    let (val, at) = two_values(w, l, x, y)?;
    subscript_of(w, l, x, val, at)
}

// A subscript of a value, which the item has.
#[tactic(auto, using(icn_vars::proofs::KeptItems::keeps_items_refl))]
fn subscript_of<L: Locals>(
    w: &mut World,
    l: &L,
    x: Item,
    val: Val,
    at: Val,
) -> Result<Outcome, Halt>
    requires locals { All (IsLive (extent_of w.old.heap)) (L.items l.now) }
    requires item { IsLiveItem (reach_of w.old (L.items l.now)) x }
    requires short { IsShortItem x }
    requires val { IsLive (extent_of w.old.heap) val }
    requires at { IsLive (extent_of w.old.heap) at }
    ensures row { Answers w.old (L.items l.now) w.new (L.items l.now)
        (subscript_of (item_in (extent_of w.old.heap) x) (value_in (extent_of w.old.heap) val)
        (value_in (extent_of w.old.heap) at) (group_of (value_in (extent_of w.old.heap) val))) result }
    ensures live { IsLiveAnswer (reach_of w.new (L.items l.now)) result }
    ensures kept { KeepsLive w.old (L.items l.now) w.new (L.items l.now) }
{
    match val {
        Val::Integer(_) => text_subscript(w, l, x, val, at),
        Val::Text(_) => text_subscript(w, l, x, val, at),
        Val::Chars(_) => text_subscript(w, l, x, val, at),
        Val::List(list) => list_subscript(w, l, x, list, at),
        Val::Table(table) => Ok(Outcome::Gives(Item::Var(VarRef::Whole(Root::Key {
            table,
            key: at,
        })))),
        Val::Rec(rec) => record_subscript(w, l, x, rec, at),
        _ => Err(Halt::Error(114, Some(val))),
    }
}

// The byte of a text at a position, as a part of the variable that holds the text, if one does.
fn text_subscript<L: Locals>(
    w: &mut World,
    l: &L,
    x: Item,
    val: Val,
    at: Val,
) -> Result<Outcome, Halt>
    requires locals { All (IsLive (extent_of w.old.heap)) (L.items l.now) }
    requires item { IsLiveItem (reach_of w.old (L.items l.now)) x }
    requires short { IsShortItem x }
    requires val { IsLive (extent_of w.old.heap) val }
    requires has { HasText (value_in (extent_of w.old.heap) val) }
    requires at { IsLive (extent_of w.old.heap) at }
    ensures row { Answers w.old (L.items l.now) w.new (L.items l.now)
        (subscript_of (item_in (extent_of w.old.heap) x) (value_in (extent_of w.old.heap) val)
        (value_in (extent_of w.old.heap) at) (Textual (the_text (value_in (extent_of w.old.heap) val))))
        result }
    ensures live { IsLiveAnswer (reach_of w.new (L.items l.now)) result }
    ensures kept { KeepsLive w.old (L.items l.now) w.new (L.items l.now) }
{
    let n = integer_of(&w.heap, at)?;
    let text = text_of(w, l, val)?;
    match element_position(n, text_length(&w.heap, text)) {
        Some(place) => {
            let holder = text_holder(x, val);
            Ok(Outcome::Gives(part_item(w, l, holder, text, place, 1)))
        }
        None => Ok(Outcome::Fails),
    }
}

// The element of a list at a position.
fn list_subscript<L: Locals>(w: &World, l: &L, x: Item, list: u32, at: Val) -> Result<Outcome, Halt>
    requires list { IsLive (extent_of w.now.heap) (ListVal list) }
    requires at { IsLive (extent_of w.now.heap) at }
    ensures row { Answers w.now (L.items l.now) w.now (L.items l.now)
        (subscript_of (item_in (extent_of w.now.heap) x) (value_in (extent_of w.now.heap) (ListVal list))
        (value_in (extent_of w.now.heap) at) (Listed list)) result }
    ensures live { IsLiveAnswer (reach_of w.now (L.items l.now)) result }
{
    let n = integer_of(&w.heap, at)?;
    match element_position(n, list_count(&w.heap, list)) {
        Some(place) => Ok(Outcome::Gives(element_item(w, l, list, place - 1))),
        None => Ok(Outcome::Fails),
    }
}

// The field of a record at a position.
fn record_subscript<L: Locals>(
    w: &World,
    l: &L,
    x: Item,
    rec: u32,
    at: Val,
) -> Result<Outcome, Halt>
    requires rec { IsLive (extent_of w.now.heap) (Rec rec) }
    requires at { IsLive (extent_of w.now.heap) at }
    ensures row { Answers w.now (L.items l.now) w.now (L.items l.now)
        (subscript_of (item_in (extent_of w.now.heap) x) (value_in (extent_of w.now.heap) (Rec rec))
        (value_in (extent_of w.now.heap) at) (Recorded rec)) result }
    ensures live { IsLiveAnswer (reach_of w.now (L.items l.now)) result }
{
    let n = integer_of(&w.heap, at)?;
    match element_position(n, field_count(&w.heap, rec)) {
        Some(place) => Ok(Outcome::Gives(field_item(w, l, rec, place - 1))),
        None => Ok(Outcome::Fails),
    }
}
