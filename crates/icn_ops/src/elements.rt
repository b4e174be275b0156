// The elements of a value, one after the other.
ghost use Rattle.std.specs.Prelude.{◌≡◌, ◌<◌, ◌^◌, length};
ghost use Rattle.std.specs.List.{All};
ghost use Rattle.icn_value.specs.Store.{set_at, table_at};
ghost use Rattle.icn_value.specs.declared.val.Val.TheVariants.{List as ListVal, Rec, Set, Table};
ghost use Rattle.icn_defs.specs.Elements.{list_items_from, record_fields_from, set_members_from, table_values_from, text_bytes_from, variable_bytes_from};
ghost use Rattle.icn_heap.specs.Extents.{IsLive, IsText, text_in};
ghost use Rattle.icn_heap.specs.Heaps.{extent_of, heap_of};
ghost use Rattle.icn_vars.specs.Outcomes.{IsLiveAnswer};
ghost use Rattle.icn_vars.specs.Worlds.{IsLiveVariable, reach_of, variable_in};
ghost use Rattle.icn_args.specs.RowWords.{Answers};

use crate::parts::{element_item, field_count, list_count, part_of};
use icn_heap::{Heap, short_text};
use icn_value::{Item, Residual, Root, Span, Val, VarRef};
use icn_vars::{Halt, Locals, Outcome, World, deref};

/// The byte at a place of a text, from 0 on. It fails behind the last one, and comes to no run-time error.
#[tactic(auto, using(crate::proofs::ElementRows::text_byte, crate::proofs::ElementRows::text_end))]
pub fn text_bytes_from<L: Locals>(w: &World, l: &L, text: Span, place: u64) -> Result<Outcome, Halt>
    requires text { IsText (extent_of w.now.heap) text }
    ensures row { Answers w.now (L.items l.now) w.now (L.items l.now)
        (text_bytes_from (text_in (extent_of w.now.heap) text) place) result }
    ensures live { IsLiveAnswer (reach_of w.now (L.items l.now)) result }
{
    let size = w.heap.bytes(text).len() as u64;
    if place < size {
        let byte = w.heap.part(text, place, 1);
        Ok(Outcome::Suspends(
            Item::Val(Val::Text(byte)),
            Residual::TextBytes {
                text,
                place: place + 1,
            },
        ))
    } else {
        Ok(Outcome::Fails)
    }
}

/// The byte at a place of the text that a variable holds now, as a part of it. The error is 103 where it holds no text.
#[tactic(auto, using(crate::proofs::ElementRows::variable_byte, crate::proofs::ElementRows::variable_end, crate::proofs::ElementRows::variable_other))]
pub fn variable_bytes_from<L: Locals>(
    w: &World,
    l: &L,
    variable: VarRef,
    place: u64,
) -> Result<Outcome, Halt>
    requires locals { All (IsLive (extent_of w.now.heap)) (L.items l.now) }
    requires variable { IsLiveVariable (reach_of w.now (L.items l.now)) variable }
    ensures row { Answers w.now (L.items l.now) w.now (L.items l.now)
        (variable_bytes_from (variable_in (extent_of w.now.heap) variable) place) result }
    ensures live { IsLiveAnswer (reach_of w.now (L.items l.now)) result }
{
    let held = deref(w, l, Item::Var(variable))?;
    match held {
        Val::Text(text) => {
            short_text(&w.heap, text);
            let size = w.heap.bytes(text).len() as u64;
            if place < size {
                let byte = part_of(variable, place + 1, 1);
                Ok(Outcome::Suspends(
                    Item::Var(byte),
                    Residual::VariableBytes {
                        variable,
                        place: place + 1,
                    },
                ))
            } else {
                Ok(Outcome::Fails)
            }
        }
        _ => Err(Halt::Error(103, Some(held))),
    }
}

/// The element at a place of a list, from 0 on. It fails behind the last one, and comes to no run-time error.
#[tactic(auto, using(crate::proofs::ElementRows::list_item, crate::proofs::ElementRows::list_end))]
pub fn list_items_from<L: Locals>(w: &World, l: &L, list: u32, place: u64) -> Result<Outcome, Halt>
    requires list { IsLive (extent_of w.now.heap) (ListVal list) }
    ensures row { Answers w.now (L.items l.now) w.now (L.items l.now) (list_items_from list place) result }
    ensures live { IsLiveAnswer (reach_of w.now (L.items l.now)) result }
{
    let size = list_count(&w.heap, list);
    if place < size {
        let element = element_item(w, l, list, place);
        Ok(Outcome::Suspends(
            element,
            Residual::ListItems {
                list,
                place: place + 1,
            },
        ))
    } else {
        Ok(Outcome::Fails)
    }
}

/// How many members a set has.
pub fn set_count(heap: &Heap, set: u32) -> u64
    requires { IsLive (extent_of heap.now) (Set set) }
    ensures count { result ≡ length (set_at (heap_of heap.now) set) }
    ensures small { result < 2 ^ 63 }
{
    heap.size(Val::Set(set)).unwrap_or(0)
}

/// The member at a place of a set, from 0 on. It fails behind the last one, and comes to no run-time error.
#[tactic(auto, using(crate::proofs::ElementRows::set_member, crate::proofs::ElementRows::set_end, crate::proofs::ElementRows::get_past))]
pub fn set_members_from<L: Locals>(w: &World, l: &L, set: u32, place: u64) -> Result<Outcome, Halt>
    requires set { IsLive (extent_of w.now.heap) (Set set) }
    ensures row { Answers w.now (L.items l.now) w.now (L.items l.now) (set_members_from set place) result }
    ensures live { IsLiveAnswer (reach_of w.now (L.items l.now)) result }
{
    let size = set_count(&w.heap, set);
    if place < size {
        match w.heap.member_at(set, place) {
            Some(member) => Ok(Outcome::Suspends(
                Item::Val(member),
                Residual::SetMembers {
                    set,
                    place: place + 1,
                },
            )),
            None => Ok(Outcome::Fails),
        }
    } else {
        Ok(Outcome::Fails)
    }
}

/// How many pairs a table has.
pub fn table_count(heap: &Heap, table: u32) -> u64
    requires { IsLive (extent_of heap.now) (Table table) }
    ensures count { result ≡ length (table_at (heap_of heap.now) table).pairs }
    ensures small { result < 2 ^ 63 }
{
    heap.size(Val::Table(table)).unwrap_or(0)
}

/// The value at a place of a table, from 0 on, as a variable. It fails behind the last one, and comes to no run-time error.
#[tactic(auto, using(crate::proofs::ElementRows::table_value, crate::proofs::ElementRows::table_end, crate::proofs::ElementRows::get_past))]
pub fn table_values_from<L: Locals>(
    w: &World,
    l: &L,
    table: u32,
    place: u64,
) -> Result<Outcome, Halt>
    requires table { IsLive (extent_of w.now.heap) (Table table) }
    ensures row { Answers w.now (L.items l.now) w.now (L.items l.now) (table_values_from table place) result }
    ensures live { IsLiveAnswer (reach_of w.now (L.items l.now)) result }
{
    let size = table_count(&w.heap, table);
    if place < size {
        match w.heap.pair_at(table, place) {
            Some(pair) => Ok(Outcome::Suspends(
                Item::Var(VarRef::Whole(Root::Key { table, key: pair.0 })),
                Residual::TableValues {
                    table,
                    place: place + 1,
                },
            )),
            None => Ok(Outcome::Fails),
        }
    } else {
        Ok(Outcome::Fails)
    }
}

/// The field at a place of a record, from 0 on, as a variable. It fails behind the last one, and comes to no run-time error.
#[tactic(auto, using(crate::proofs::ElementRows::record_field, crate::proofs::ElementRows::record_end))]
pub fn record_fields_from<L: Locals>(
    w: &World,
    l: &L,
    rec: u32,
    place: u64,
) -> Result<Outcome, Halt>
    requires rec { IsLive (extent_of w.now.heap) (Rec rec) }
    ensures row { Answers w.now (L.items l.now) w.now (L.items l.now) (record_fields_from rec place) result }
    ensures live { IsLiveAnswer (reach_of w.now (L.items l.now)) result }
{
    let size = field_count(&w.heap, rec);
    if place < size {
        Ok(Outcome::Suspends(
            Item::Var(VarRef::Whole(Root::Field {
                rec,
                place: place as u16,
            })),
            Residual::RecordFields {
                rec,
                place: place + 1,
            },
        ))
    } else {
        Ok(Outcome::Fails)
    }
}
