// Sections of texts and lists.
ghost use Rattle.std.specs.Prelude.{◌≡◌, ◌≤◌, ℤ, length, slice_range, IfErr};
ghost use Rattle.std.specs.List.{All};
ghost use Rattle.icn_value.specs.Store.{Setting, list_at};
ghost use Rattle.icn_value.specs.declared.val.Val.TheVariants.{List as ListVal};
ghost use Rattle.icn_defs.specs.Conversions.{Listed, Textual, group_of};
ghost use Rattle.icn_defs.specs.Rows.{gives_list};
ghost use Rattle.icn_defs.specs.Variables.{positions, section_by, section_minus_row, section_of, section_plus_row, section_row};
ghost use Rattle.icn_heap.specs.Extents.{IsLive, value_in};
ghost use Rattle.icn_heap.specs.Heaps.{extent_of, heap_of};
ghost use Rattle.icn_vars.specs.Outcomes.{IsLiveAnswer};
ghost use Rattle.icn_vars.specs.Stops.{IsLiveStop};
ghost use Rattle.icn_vars.specs.Worlds.{AreLiveThree, IsLiveItem, IsShortItem, KeepsLive, item_in, reach_of};
ghost use Rattle.icn_args.specs.RowWords.{Answers, IsFound, HasText, the_text};
ghost use Rattle.icn_ops.specs.Sections.{second_of};

use crate::operands::three_values;
use crate::parts::{list_count, part_item, text_holder, text_length};
use crate::positions::places;
use icn_args::{arith_result, integer_of, new_list, text_of};
use icn_heap::Heap;
use icn_text::{Arith, add, sub};
use icn_value::{Item, Val};
use icn_vars::{Halt, Locals, Outcome, Stop, World};

// How the second position of a section is made of its two integers.
#[derive(Clone, Copy)]
pub enum Second {
    // It is the second integer.
    Whole,
    // It is so many elements behind the first.
    Ahead,
    // It is so many elements before the first.
    Back,
}

/// `x[i:j]`: the bytes or elements between two positions. It fails where one is out of range. The errors are 110 about a value that
/// has neither, 101, and 306 and 307 where what is made passes its limit.
pub fn section_row<L: Locals>(
    w: &mut World,
    l: &L,
    x: Item,
    y: Item,
    z: Item,
) -> Result<Outcome, Halt>
    requires live { AreLiveThree w.old (L.items l.now) x y z }
    ensures row { Answers w.old (L.items l.now) w.new (L.items l.now)
        (section_row (item_in (extent_of w.old.heap) x) (item_in (extent_of w.old.heap) y)
        (item_in (extent_of w.old.heap) z)) result }
    ensures live { IsLiveAnswer (reach_of w.new (L.items l.now)) result }
    ensures kept { KeepsLive w.old (L.items l.now) w.new (L.items l.now) }
{
    section_by(Second::Whole, w, l, x, y, z)
}

/// `x[i+:j]`: as many bytes or elements behind a position. The errors are those of `x[i:j]`, and 203 where 64 bits do not hold the
/// second position.
pub fn section_plus_row<L: Locals>(
    w: &mut World,
    l: &L,
    x: Item,
    y: Item,
    z: Item,
) -> Result<Outcome, Halt>
    requires live { AreLiveThree w.old (L.items l.now) x y z }
    ensures row { Answers w.old (L.items l.now) w.new (L.items l.now)
        (section_plus_row (item_in (extent_of w.old.heap) x) (item_in (extent_of w.old.heap) y)
        (item_in (extent_of w.old.heap) z)) result }
    ensures live { IsLiveAnswer (reach_of w.new (L.items l.now)) result }
    ensures kept { KeepsLive w.old (L.items l.now) w.new (L.items l.now) }
{
    section_by(Second::Ahead, w, l, x, y, z)
}

/// `x[i-:j]`: as many bytes or elements before a position. The errors are those of `x[i+:j]`.
pub fn section_minus_row<L: Locals>(
    w: &mut World,
    l: &L,
    x: Item,
    y: Item,
    z: Item,
) -> Result<Outcome, Halt>
    requires live { AreLiveThree w.old (L.items l.now) x y z }
    ensures row { Answers w.old (L.items l.now) w.new (L.items l.now)
        (section_minus_row (item_in (extent_of w.old.heap) x) (item_in (extent_of w.old.heap) y)
        (item_in (extent_of w.old.heap) z)) result }
    ensures live { IsLiveAnswer (reach_of w.new (L.items l.now)) result }
    ensures kept { KeepsLive w.old (L.items l.now) w.new (L.items l.now) }
{
    section_by(Second::Back, w, l, x, y, z)
}

// A section of the value of an item.
fn section_by<L: Locals>(
    kind: Second,
    w: &mut World,
    l: &L,
    x: Item,
    y: Item,
    z: Item,
) -> Result<Outcome, Halt>
    requires live { AreLiveThree w.old (L.items l.now) x y z }
    ensures row { Answers w.old (L.items l.now) w.new (L.items l.now)
        (section_by (second_of kind) (item_in (extent_of w.old.heap) x) (item_in (extent_of w.old.heap) y)
        (item_in (extent_of w.old.heap) z)) result }
    ensures live { IsLiveAnswer (reach_of w.new (L.items l.now)) result }
    ensures kept { KeepsLive w.old (L.items l.now) w.new (L.items l.now) }
{
    let (val, from, to) = three_values(w, l, x, y, z)?;
    section_of(kind, w, l, x, val, from, to)
}

// A section of a value, which the item has.
#[tactic(auto, using(icn_vars::proofs::KeptItems::keeps_items_refl))]
fn section_of<L: Locals>(
    kind: Second,
    w: &mut World,
    l: &L,
    x: Item,
    val: Val,
    from: Val,
    to: Val,
) -> Result<Outcome, Halt>
    requires locals { All (IsLive (extent_of w.old.heap)) (L.items l.now) }
    requires item { IsLiveItem (reach_of w.old (L.items l.now)) x }
    requires short { IsShortItem x }
    requires val { IsLive (extent_of w.old.heap) val }
    requires from { IsLive (extent_of w.old.heap) from }
    requires to { IsLive (extent_of w.old.heap) to }
    ensures row { Answers w.old (L.items l.now) w.new (L.items l.now)
        (section_of (second_of kind) (item_in (extent_of w.old.heap) x) (value_in (extent_of w.old.heap) val)
        (value_in (extent_of w.old.heap) from) (value_in (extent_of w.old.heap) to)
        (group_of (value_in (extent_of w.old.heap) val))) result }
    ensures live { IsLiveAnswer (reach_of w.new (L.items l.now)) result }
    ensures kept { KeepsLive w.old (L.items l.now) w.new (L.items l.now) }
{
    match val {
        Val::Integer(_) => text_section(kind, w, l, x, val, from, to),
        Val::Text(_) => text_section(kind, w, l, x, val, from, to),
        Val::Chars(_) => text_section(kind, w, l, x, val, from, to),
        Val::List(list) => list_section(kind, w, l, x, list, from, to),
        _ => Err(Halt::Error(110, Some(val))),
    }
}

// The bytes of a text between two positions, as a part of the variable that holds the text, if one does.
fn text_section<L: Locals>(
    kind: Second,
    w: &mut World,
    l: &L,
    x: Item,
    val: Val,
    from: Val,
    to: Val,
) -> Result<Outcome, Halt>
    requires locals { All (IsLive (extent_of w.old.heap)) (L.items l.now) }
    requires item { IsLiveItem (reach_of w.old (L.items l.now)) x }
    requires short { IsShortItem x }
    requires val { IsLive (extent_of w.old.heap) val }
    requires has { HasText (value_in (extent_of w.old.heap) val) }
    requires from { IsLive (extent_of w.old.heap) from }
    requires to { IsLive (extent_of w.old.heap) to }
    ensures row { Answers w.old (L.items l.now) w.new (L.items l.now)
        (section_of (second_of kind) (item_in (extent_of w.old.heap) x) (value_in (extent_of w.old.heap) val)
        (value_in (extent_of w.old.heap) from) (value_in (extent_of w.old.heap) to)
        (Textual (the_text (value_in (extent_of w.old.heap) val)))) result }
    ensures live { IsLiveAnswer (reach_of w.new (L.items l.now)) result }
    ensures kept { KeepsLive w.old (L.items l.now) w.new (L.items l.now) }
{
    let (m, n) = positions(kind, &w.heap, from, to)?;
    let text = text_of(w, l, val)?;
    match places(m, n, text_length(&w.heap, text)) {
        Some(ends) => {
            let holder = text_holder(x, val);
            Ok(Outcome::Gives(part_item(w, l, holder, text, ends.0, ends.1 - ends.0)))
        }
        None => Ok(Outcome::Fails),
    }
}

// A new list of the elements of a list between two positions.
#[tactic(auto, using(icn_vars::proofs::KeptItems::keeps_items_refl))]
fn list_section<L: Locals>(
    kind: Second,
    w: &mut World,
    l: &L,
    x: Item,
    list: u32,
    from: Val,
    to: Val,
) -> Result<Outcome, Halt>
    requires locals { All (IsLive (extent_of w.old.heap)) (L.items l.now) }
    requires list { IsLive (extent_of w.old.heap) (ListVal list) }
    requires from { IsLive (extent_of w.old.heap) from }
    requires to { IsLive (extent_of w.old.heap) to }
    ensures row { Answers w.old (L.items l.now) w.new (L.items l.now) (section_of (second_of kind)
        (item_in (extent_of w.old.heap) x) (value_in (extent_of w.old.heap) (ListVal list))
        (value_in (extent_of w.old.heap) from) (value_in (extent_of w.old.heap) to) (Listed list)) result }
    ensures live { IsLiveAnswer (reach_of w.new (L.items l.now)) result }
    ensures kept { KeepsLive w.old (L.items l.now) w.new (L.items l.now) }
{
    let (m, n) = positions(kind, &w.heap, from, to)?;
    match places(m, n, list_count(&w.heap, list)) {
        Some(ends) => new_section(w, l, list, ends.0 - 1, ends.1 - 1),
        None => Ok(Outcome::Fails),
    }
}

// A new list of the elements of a list from one place up to another, counted from 0.
#[tactic(auto, using(icn_vars::proofs::KeptItems::keeps_items_refl))]
fn new_section<L: Locals>(
    w: &mut World,
    l: &L,
    list: u32,
    from: u64,
    to: u64,
) -> Result<Outcome, Halt>
    requires locals { All (IsLive (extent_of w.old.heap)) (L.items l.now) }
    requires list { IsLive (extent_of w.old.heap) (ListVal list) }
    requires order { from ≤ to }
    requires within { to ≤ length (list_at (heap_of w.old.heap) list).items }
    ensures row { Answers w.old (L.items l.now) w.new (L.items l.now)
        (gives_list (slice_range (list_at (heap_of w.old.heap) list).items from to)) result }
    ensures live { IsLiveAnswer (reach_of w.new (L.items l.now)) result }
    ensures kept { KeepsLive w.old (L.items l.now) w.new (L.items l.now) }
{
    let Ok(items) = w.heap.section(list, from, to) else {
        return Err(Halt::NoMemory);
    };
    let made = new_list(w, l, &items)?;
    Ok(Outcome::Gives(Item::Val(made)))
}

// The two positions of a section. The errors are 101, and 203 where 64 bits do not hold the second.
fn positions(kind: Second, heap: &Heap, from: Val, to: Val) -> Result<(i64, i64), Stop>
    requires from { IsLive (extent_of heap.now) from }
    requires to { IsLive (extent_of heap.now) to }
    ensures stops { IfErr result (IsLiveStop (extent_of heap.now)) }
    ensures found { (setting : Setting) → IsFound (extent_of heap.now)
        (positions (second_of kind) (value_in (extent_of heap.now) from) (value_in (extent_of heap.now) to))
        setting setting (λ (two : ℤ × ℤ). two) result }
{
    let m = integer_of(heap, from)?;
    let n = integer_of(heap, to)?;
    let end = arith_result(second_of(kind, m, n))?;
    Ok((m, end))
}

// The second position, where 64 bits hold it.
fn second_of(kind: Second, m: i64, n: i64) -> Result<i64, Arith>
    ensures { result ≡ second_of kind m n }
{
    match kind {
        Second::Whole => Ok(n),
        Second::Ahead => add(m, n),
        Second::Back => sub(m, n),
    }
}
