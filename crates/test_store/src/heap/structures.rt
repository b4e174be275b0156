// Calls on lists and records.
ghost use Rattle.std.specs.Prelude.{◌≡◌, length};
ghost use Rattle.icn_value.specs.Store.{list_at, record_at};
ghost use Rattle.icn_heap.specs.Extents.{IsLive};
ghost use Rattle.icn_heap.specs.Heaps.{extent_of, heap_of};
ghost use Rattle.icn_value.specs.declared.val.Val.TheVariants.{List, Rec};

use crate::heap::arguments::{integer_of, place_of};
use crate::heap::showing::{push_all, push_count, push_done, push_flag, push_found};
use icn_heap::Heap;
use icn_value::Val;
use icn_vars::World;
use std::alloc::AllocError;

/// Calls on a list: it gets a value, loses one, or is looked into. `AllocError` is want of memory.
pub fn on_list(
    out: &mut String,
    w: &mut World,
    word: &str,
    list: u32,
    y: Val,
    z: Val,
) -> Result<(), AllocError>
    requires list { IsLive (extent_of w.old.heap) (List list) }
    requires second { IsLive (extent_of w.old.heap) y }
    requires third { IsLive (extent_of w.old.heap) z }
{
    match word {
        "put" => push_done(out, w.heap.put(list, y)),
        "push" => push_done(out, w.heap.push(list, y)),
        "get" => {
            let found = w.heap.get(list);
            push_found(out, &w.heap, found)
        }
        "pull" => {
            let found = w.heap.pull(list);
            push_found(out, &w.heap, found)
        }
        "item" => push_found(out, &w.heap, w.heap.item(list, integer_of(y))),
        "assign" => push_flag(out, w.heap.set_item(list, integer_of(y), z)),
        "section" => section(out, w, list, place_of(y), place_of(z)),
        "all" => {
            let items = w.heap.items(list)?;
            push_all(out, &items)
        }
        _ => out.push_str("no call"),
    }
}

// The items between two places.
fn section(out: &mut String, w: &World, list: u32, from: u64, to: u64) -> Result<(), AllocError>
    requires { IsLive (extent_of w.now.heap) (List list) }
{
    if from <= to && to <= list_count(&w.heap, list) {
        let items = w.heap.section(list, from, to)?;
        push_all(out, &items)
    } else {
        out.push_str("none")
    }
}

/// Calls on a record: its kind and its fields. `AllocError` is want of memory.
pub fn on_record(
    out: &mut String,
    w: &mut World,
    word: &str,
    rec: u32,
    y: Val,
    z: Val,
) -> Result<(), AllocError>
    requires rec { IsLive (extent_of w.old.heap) (Rec rec) }
    requires third { IsLive (extent_of w.old.heap) z }
{
    let place = field_of(y);
    if word == "kind" {
        push_count(out, Some(u64::from(w.heap.kind(rec))))
    } else if word == "all" {
        push_all(out, w.heap.fields(rec))
    } else if u64::from(place) >= field_count(&w.heap, rec) {
        out.push_str("none")
    } else if word == "field" {
        push_found(out, &w.heap, Some(w.heap.field(rec, place)))
    } else {
        w.heap.set_field(rec, place, z);
        out.push_str("done")
    }
}

// The place of a field that a value is.
fn field_of(val: Val) -> u16 {
    match val {
        Val::Integer(n) => u16::try_from(n).unwrap_or(u16::MAX),
        _ => 0,
    }
}

fn list_count(heap: &Heap, list: u32) -> u64
    requires { IsLive (extent_of heap.now) (List list) }
    ensures { result ≡ length (list_at (heap_of heap.now) list).items }
{
    heap.size(Val::List(list)).unwrap_or(0)
}

fn field_count(heap: &Heap, rec: u32) -> u64
    requires { IsLive (extent_of heap.now) (Rec rec) }
    ensures { result ≡ length (record_at (heap_of heap.now) rec).fields }
{
    heap.fields(rec).len() as u64
}
