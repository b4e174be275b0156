// Parts of texts, and elements of structures, as items.
ghost use Rattle.std.specs.Prelude.{◌≡◌, ◌+◌, ◌-◌, ◌<◌, ◌≤◌, ◌^◌, length, IfSome};
ghost use Rattle.std.specs.Option.{option_map};
ghost use Rattle.icn_value.specs.Store.{list_at, record_at};
ghost use Rattle.icn_value.specs.declared.val.Val.TheVariants.{List as ListVal, Rec};
ghost use Rattle.icn_defs.specs.Elements.{element_item, field_item, part_item, part_of, text_variable};
ghost use Rattle.icn_heap.specs.Extents.{Extent, IsLive, IsText, text_in, value_in};
ghost use Rattle.icn_heap.specs.Heaps.{extent_of, heap_of};
ghost use Rattle.icn_vars.specs.Worlds.{IsLiveItem, IsLiveVariable, IsShort, IsShortItem, Reach, item_in, reach_of, variable_in};

use icn_heap::{Heap, short_text};
use icn_value::{Item, Root, Span, Val, VarRef};
use icn_vars::{Locals, World};

/// A part of a variable, which may be a part itself.
pub fn part_of(variable: VarRef, place: u64, len: u64) -> VarRef
    requires short { IsShort variable }
    requires low { 1 ≤ place }
    requires high { place ≤ 2 ^ 63 }
    ensures part { (all : Extent) → variable_in all result ≡ part_of (variable_in all variable) place len }
    ensures live { (reach : Reach) → IsLiveVariable reach variable → IsLiveVariable reach result }
{
    match variable {
        VarRef::Whole(root) => VarRef::Part { root, place, len },
        VarRef::Part {
            root,
            place: begin,
            ..
        } => VarRef::Part {
            root,
            place: begin + place - 1,
            len,
        },
    }
}

/// The variable that holds a text, if the item is one.
pub fn text_holder(item: Item, val: Val) -> Option<VarRef>
    ensures holder { (all : Extent)
        → option_map (variable_in all) result ≡ text_variable (item_in all item) (value_in all val) }
    ensures live { (reach : Reach) → IsLiveItem reach item → IfSome result (IsLiveVariable reach) }
    ensures short { IsShortItem item → IfSome result IsShort }
{
    match item {
        Item::Val(_) => None,
        Item::Var(variable) => match val {
            Val::Text(_) => Some(variable),
            _ => None,
        },
    }
}

/// A part of a text, as a variable where there is one that holds the text.
pub fn part_item<L: Locals>(
    w: &World,
    l: &L,
    holder: Option<VarRef>,
    text: Span,
    place: u64,
    len: u64,
) -> Item
    requires text { IsText (extent_of w.now.heap) text }
    requires live { IfSome holder (IsLiveVariable (reach_of w.now (L.items l.now))) }
    requires short { IfSome holder IsShort }
    requires place { 1 ≤ place }
    requires within { place - 1 + len ≤ length (text_in (extent_of w.now.heap) text) }
    ensures item { item_in (extent_of w.now.heap) result
        ≡ part_item (option_map (variable_in (extent_of w.now.heap)) holder)
        (text_in (extent_of w.now.heap) text) place len }
    ensures live { IsLiveItem (reach_of w.now (L.items l.now)) result }
{
    short_text(&w.heap, text);
    match holder {
        None => Item::Val(Val::Text(w.heap.part(text, place - 1, len))),
        Some(variable) => Item::Var(part_of(variable, place, len)),
    }
}

/// How many bytes a text has.
pub fn text_length(heap: &Heap, text: Span) -> u64
    requires { IsText (extent_of heap.now) text }
    ensures count { result ≡ length (text_in (extent_of heap.now) text) }
    ensures small { result < 2 ^ 63 - 1 }
{
    short_text(heap, text);
    heap.bytes(text).len() as u64
}

/// How many elements a list has.
pub fn list_count(heap: &Heap, list: u32) -> u64
    requires { IsLive (extent_of heap.now) (ListVal list) }
    ensures count { result ≡ length (list_at (heap_of heap.now) list).items }
    ensures small { result < 2 ^ 63 }
{
    heap.size(Val::List(list)).unwrap_or(0)
}

/// The element at a place of a list, from 0 on.
pub fn element_item<L: Locals>(w: &World, l: &L, list: u32, place: u64) -> Item
    requires list { IsLive (extent_of w.now.heap) (ListVal list) }
    requires there { place < length (list_at (heap_of w.now.heap) list).items }
    requires small { place < 2 ^ 63 }
    ensures item { item_in (extent_of w.now.heap) result
        ≡ element_item list (list_at (heap_of w.now.heap) list) place }
    ensures live { IsLiveItem (reach_of w.now (L.items l.now)) result }
{
    let number = w.heap.list(list).first() + place as i64;
    Item::Var(VarRef::Whole(Root::Element { list, number }))
}

/// How many fields a record has.
pub fn field_count(heap: &Heap, rec: u32) -> u64
    requires { IsLive (extent_of heap.now) (Rec rec) }
    ensures count { result ≡ length (record_at (heap_of heap.now) rec).fields }
    ensures small { result ≤ 2 ^ 16 }
{
    heap.fields(rec).len() as u64
}

/// The field at a place of a record, from 0 on.
pub fn field_item<L: Locals>(w: &World, l: &L, rec: u32, place: u64) -> Item
    requires rec { IsLive (extent_of w.now.heap) (Rec rec) }
    requires there { place < length (record_at (heap_of w.now.heap) rec).fields }
    requires small { place < 2 ^ 16 }
    ensures item { item_in (extent_of w.now.heap) result ≡ field_item rec place }
    ensures live { IsLiveItem (reach_of w.now (L.items l.now)) result }
{
    Item::Var(VarRef::Whole(Root::Field {
        rec,
        place: place as u16,
    }))
}
