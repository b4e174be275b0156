// Elements at random.
ghost use Rattle.std.specs.List.{All};
ghost use Rattle.icn_value.specs.declared.val.Val.TheVariants.{List as ListVal, Rec, Set, Table};
ghost use Rattle.icn_defs.specs.Conversions.{Collected, Listed, Recorded, Tabled, Textual, held_integer};
ghost use Rattle.icn_defs.specs.Elements.{random_by, random_number, random_of, random_row};
ghost use Rattle.icn_heap.specs.Extents.{IsLive, value_in};
ghost use Rattle.icn_heap.specs.Heaps.{extent_of};
ghost use Rattle.icn_vars.specs.Outcomes.{IsLiveAnswer};
ghost use Rattle.icn_vars.specs.Worlds.{IsLiveOperand, IsLiveItem, IsShortItem, KeepsLive, item_in, reach_of};
ghost use Rattle.icn_args.specs.RowWords.{Answers, HasText, the_text};

use crate::elements::{set_count, table_count};
use crate::parts::{element_item, field_count, list_count, part_item, text_holder, text_length};
use icn_args::text_of;
use icn_text::{pick, random_step};
use icn_value::{Item, Root, Val, VarRef};
use icn_vars::{Halt, Locals, Outcome, World, deref};

/// `?x`: of an integer a number from 1 to it, and of a text or a structure one of its elements; it fails where there is none. The errors
/// are 205 about an integer below 1, 113 about a value that has no elements to pick from, and 306 where a text that is made passes
/// its limit.
pub fn random_row<L: Locals>(w: &mut World, l: &L, x: Item) -> Result<Outcome, Halt>
    requires live { IsLiveOperand w.old (L.items l.now) x }
    ensures row { Answers w.old (L.items l.now) w.new (L.items l.now)
        (random_row (item_in (extent_of w.old.heap) x)) result }
    ensures live { IsLiveAnswer (reach_of w.new (L.items l.now)) result }
    ensures kept { KeepsLive w.old (L.items l.now) w.new (L.items l.now) }
{
    let val = deref(w, l, x)?;
    random_by(w, l, x, val)
}

// A random number up to a value, or one of its elements. The item has the value.
#[tactic(auto, using(icn_vars::proofs::KeptItems::keeps_items_refl))]
fn random_by<L: Locals>(w: &mut World, l: &L, x: Item, val: Val) -> Result<Outcome, Halt>
    requires locals { All (IsLive (extent_of w.old.heap)) (L.items l.now) }
    requires item { IsLiveItem (reach_of w.old (L.items l.now)) x }
    requires short { IsShortItem x }
    requires val { IsLive (extent_of w.old.heap) val }
    ensures row { Answers w.old (L.items l.now) w.new (L.items l.now)
        (random_by (item_in (extent_of w.old.heap) x) (value_in (extent_of w.old.heap) val)
        (held_integer (value_in (extent_of w.old.heap) val))) result }
    ensures live { IsLiveAnswer (reach_of w.new (L.items l.now)) result }
    ensures kept { KeepsLive w.old (L.items l.now) w.new (L.items l.now) }
{
    match val {
        Val::Integer(n) => random_number(w, l, val, n),
        Val::Text(_) => random_byte(w, l, x, val),
        Val::Chars(_) => random_byte(w, l, x, val),
        Val::List(list) => random_item(w, l, x, list),
        Val::Set(set) => random_member(w, l, x, set),
        Val::Table(table) => random_value(w, l, x, table),
        Val::Rec(rec) => random_field(w, l, x, rec),
        _ => Err(Halt::Error(113, Some(val))),
    }
}

// A number from 1 to n at random. The error is 205 about the value that n comes from, where n is below 1.
#[tactic(auto, using(icn_vars::proofs::KeptItems::keeps_items_refl))]
fn random_number<L: Locals>(w: &mut World, l: &L, val: Val, n: i64) -> Result<Outcome, Halt>
    requires locals { All (IsLive (extent_of w.old.heap)) (L.items l.now) }
    requires val { IsLive (extent_of w.old.heap) val }
    ensures row { Answers w.old (L.items l.now) w.new (L.items l.now)
        (random_number (value_in (extent_of w.old.heap) val) n) result }
    ensures live { IsLiveAnswer (reach_of w.new (L.items l.now)) result }
    ensures kept { KeepsLive w.old (L.items l.now) w.new (L.items l.now) }
{
    if n > 0 {
        w.words.random = random_step(w.words.random);
        let place = pick(w.words.random, n as u64);
        Ok(Outcome::Gives(Item::Val(Val::Integer(1 + place as i64))))
    } else {
        Err(Halt::Error(205, Some(val)))
    }
}

// A byte of a text at random, as a part of the variable that holds the text, if one does; it fails where there is none.
fn random_byte<L: Locals>(w: &mut World, l: &L, x: Item, val: Val) -> Result<Outcome, Halt>
    requires locals { All (IsLive (extent_of w.old.heap)) (L.items l.now) }
    requires item { IsLiveItem (reach_of w.old (L.items l.now)) x }
    requires short { IsShortItem x }
    requires val { IsLive (extent_of w.old.heap) val }
    requires has { HasText (value_in (extent_of w.old.heap) val) }
    ensures row { Answers w.old (L.items l.now) w.new (L.items l.now)
        (random_of (item_in (extent_of w.old.heap) x) (value_in (extent_of w.old.heap) val)
        (Textual (the_text (value_in (extent_of w.old.heap) val)))) result }
    ensures live { IsLiveAnswer (reach_of w.new (L.items l.now)) result }
    ensures kept { KeepsLive w.old (L.items l.now) w.new (L.items l.now) }
{
    let text = text_of(w, l, val)?;
    let size = text_length(&w.heap, text);
    if size > 0 {
        w.words.random = random_step(w.words.random);
        let place = pick(w.words.random, size);
        let holder = text_holder(x, val);
        Ok(Outcome::Gives(part_item(w, l, holder, text, place + 1, 1)))
    } else {
        Ok(Outcome::Fails)
    }
}

// An element of a list at random; it fails where there is none.
#[tactic(auto, using(icn_vars::proofs::KeptItems::keeps_items_refl, crate::proofs::RandomRows::list_picked, crate::proofs::RandomRows::list_empty))]
fn random_item<L: Locals>(w: &mut World, l: &L, x: Item, list: u32) -> Result<Outcome, Halt>
    requires locals { All (IsLive (extent_of w.old.heap)) (L.items l.now) }
    requires list { IsLive (extent_of w.old.heap) (ListVal list) }
    ensures row { Answers w.old (L.items l.now) w.new (L.items l.now)
        (random_of (item_in (extent_of w.old.heap) x) (value_in (extent_of w.old.heap) (ListVal list))
        (Listed list)) result }
    ensures live { IsLiveAnswer (reach_of w.new (L.items l.now)) result }
    ensures kept { KeepsLive w.old (L.items l.now) w.new (L.items l.now) }
{
    let size = list_count(&w.heap, list);
    if size > 0 {
        w.words.random = random_step(w.words.random);
        let place = pick(w.words.random, size);
        Ok(Outcome::Gives(element_item(w, l, list, place)))
    } else {
        Ok(Outcome::Fails)
    }
}

// A member of a set at random; it fails where there is none.
#[tactic(auto, using(icn_vars::proofs::KeptItems::keeps_items_refl, crate::proofs::RandomRows::member_picked, crate::proofs::RandomRows::set_empty))]
fn random_member<L: Locals>(w: &mut World, l: &L, x: Item, set: u32) -> Result<Outcome, Halt>
    requires locals { All (IsLive (extent_of w.old.heap)) (L.items l.now) }
    requires set { IsLive (extent_of w.old.heap) (Set set) }
    ensures row { Answers w.old (L.items l.now) w.new (L.items l.now)
        (random_of (item_in (extent_of w.old.heap) x) (value_in (extent_of w.old.heap) (Set set))
        (Collected set)) result }
    ensures live { IsLiveAnswer (reach_of w.new (L.items l.now)) result }
    ensures kept { KeepsLive w.old (L.items l.now) w.new (L.items l.now) }
{
    let size = set_count(&w.heap, set);
    if size > 0 {
        w.words.random = random_step(w.words.random);
        match w.heap.member_at(set, pick(w.words.random, size)) {
            Some(member) => Ok(Outcome::Gives(Item::Val(member))),
            None => unreachable!(),
        }
    } else {
        Ok(Outcome::Fails)
    }
}

// The value at a key of a table at random; it fails where there is none.
#[tactic(auto, using(icn_vars::proofs::KeptItems::keeps_items_refl, crate::proofs::RandomRows::pair_picked, crate::proofs::RandomRows::table_empty))]
fn random_value<L: Locals>(w: &mut World, l: &L, x: Item, table: u32) -> Result<Outcome, Halt>
    requires locals { All (IsLive (extent_of w.old.heap)) (L.items l.now) }
    requires table { IsLive (extent_of w.old.heap) (Table table) }
    ensures row { Answers w.old (L.items l.now) w.new (L.items l.now)
        (random_of (item_in (extent_of w.old.heap) x) (value_in (extent_of w.old.heap) (Table table))
        (Tabled table)) result }
    ensures live { IsLiveAnswer (reach_of w.new (L.items l.now)) result }
    ensures kept { KeepsLive w.old (L.items l.now) w.new (L.items l.now) }
{
    let size = table_count(&w.heap, table);
    if size > 0 {
        w.words.random = random_step(w.words.random);
        match w.heap.pair_at(table, pick(w.words.random, size)) {
            Some(pair) => Ok(Outcome::Gives(Item::Var(VarRef::Whole(Root::Key {
                table,
                key: pair.0,
            })))),
            None => Ok(Outcome::Fails),
        }
    } else {
        Ok(Outcome::Fails)
    }
}

// A field of a record at random; it fails where there is none.
#[tactic(auto, using(icn_vars::proofs::KeptItems::keeps_items_refl, crate::proofs::RandomRows::field_picked, crate::proofs::RandomRows::record_empty))]
fn random_field<L: Locals>(w: &mut World, l: &L, x: Item, rec: u32) -> Result<Outcome, Halt>
    requires locals { All (IsLive (extent_of w.old.heap)) (L.items l.now) }
    requires rec { IsLive (extent_of w.old.heap) (Rec rec) }
    ensures row { Answers w.old (L.items l.now) w.new (L.items l.now)
        (random_of (item_in (extent_of w.old.heap) x) (value_in (extent_of w.old.heap) (Rec rec))
        (Recorded rec)) result }
    ensures live { IsLiveAnswer (reach_of w.new (L.items l.now)) result }
    ensures kept { KeepsLive w.old (L.items l.now) w.new (L.items l.now) }
{
    let size = field_count(&w.heap, rec);
    if size > 0 {
        w.words.random = random_step(w.words.random);
        let place = pick(w.words.random, size);
        Ok(Outcome::Gives(Item::Var(VarRef::Whole(Root::Field {
            rec,
            place: place as u16,
        }))))
    } else {
        Ok(Outcome::Fails)
    }
}
