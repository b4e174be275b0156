// Calls on sets and tables.
ghost use Rattle.std.specs.Prelude.{IfOk};
ghost use Rattle.icn_heap.specs.Extents.{IsLive};
ghost use Rattle.icn_heap.specs.Heaps.{extent_of};
ghost use Rattle.icn_value.specs.declared.val.Val.TheVariants.{Set, Table};

use crate::heap::arguments::place_of;
use crate::heap::showing::{push_all, push_done, push_flag, push_found, push_made, push_plain};
use icn_heap::Full;
use icn_value::Val;
use icn_vars::World;
use std::alloc::AllocError;

/// Calls on a set: it gets a member, is looked into, or others are made of it. `AllocError` is want of memory.
pub fn on_set(
    out: &mut String,
    w: &mut World,
    word: &str,
    set: u32,
    y: Val,
) -> Result<(), AllocError>
    requires set { IsLive (extent_of w.old.heap) (Set set) }
    requires second { IsLive (extent_of w.old.heap) y }
{
    match word {
        "add" => push_done(out, w.heap.add(set, y)),
        "has" => {
            let has = w.heap.has(set, y)?;
            push_flag(out, has)
        }
        "at" => push_found(out, &w.heap, w.heap.member_at(set, place_of(y))),
        "all" => {
            let members = w.heap.members(set)?;
            push_all(out, &members)
        }
        "copy" => {
            let made = w.heap.copy_set(set);
            push_made(out, w, made)
        }
        _ => match y {
            Val::Set(other) => of_both(out, w, word, set, other),
            _ => out.push_str("no call"),
        },
    }
}

// A set of the members of two.
fn of_both(
    out: &mut String,
    w: &mut World,
    word: &str,
    first: u32,
    second: u32,
) -> Result<(), AllocError>
    requires first { IsLive (extent_of w.old.heap) (Set first) }
    requires second { IsLive (extent_of w.old.heap) (Set second) }
{
    let made = set_of(w, word, first, second);
    push_made(out, w, made)
}

fn set_of(w: &mut World, word: &str, first: u32, second: u32) -> Result<Val, Full>
    requires first { IsLive (extent_of w.old.heap) (Set first) }
    requires second { IsLive (extent_of w.old.heap) (Set second) }
    ensures { IfOk result (IsLive (extent_of w.new.heap)) }
{
    match word {
        "union" => w.heap.union(first, second),
        "difference" => w.heap.difference(first, second),
        _ => w.heap.intersection(first, second),
    }
}

/// Calls on a table: a value is stored at a key, or looked for. `AllocError` is want of memory.
pub fn on_table(
    out: &mut String,
    w: &mut World,
    word: &str,
    table: u32,
    y: Val,
    z: Val,
) -> Result<(), AllocError>
    requires table { IsLive (extent_of w.old.heap) (Table table) }
    requires second { IsLive (extent_of w.old.heap) y }
    requires third { IsLive (extent_of w.old.heap) z }
{
    match word {
        "store" => push_done(out, w.heap.store(table, y, z)),
        "look" => {
            let found = w.heap.look(table, y)?;
            push_found(out, &w.heap, found)
        }
        "default" => push_found(out, &w.heap, Some(w.heap.default(table))),
        "at" => push_pair(out, w.heap.pair_at(table, place_of(y))),
        "all" => {
            for pair in w.heap.pairs(table)? {
                push_pair(out, Some(pair))?;
            }
            Ok(())
        }
        "copy" => {
            let made = w.heap.copy_table(table);
            push_made(out, w, made)
        }
        _ => out.push_str("no call"),
    }
}

fn push_pair(out: &mut String, pair: Option<(Val, Val)>) -> Result<(), AllocError> {
    match pair {
        Some(pair) => {
            out.push('(')?;
            push_plain(out, pair.0)?;
            out.push(' ')?;
            push_plain(out, pair.1)?;
            out.push(')')
        }
        None => out.push_str("none"),
    }
}
