// Calls by their names.
ghost use Rattle.std.specs.Prelude.{OnOk};
ghost use Rattle.std.specs.List.{All};
ghost use Rattle.icn_heap.specs.Extents.{IsLive};
ghost use Rattle.icn_heap.specs.Heaps.{extent_of};

use crate::variables::assigning::{push_assigned, push_exchanged, push_moved, push_read};
use crate::variables::showing::push_value;
use crate::variables::undoing::{Exchanged, push_exchange_undone, push_undone};
use crate::variables::values::{value_at, values};
use crate::variables::variables::variable;
use crate::variables::worlds::static_at;
use icn_value::{Mover, Val};
use icn_vars::World;
use std::alloc::{AllocError, Global};
use test_values::Slots;

/// Makes a call, and appends what it comes to. `AllocError` is want of memory.
pub fn push_call(
    alloc: Global,
    out: &mut String,
    w: &mut World,
    l: &mut Slots,
    call: &str,
) -> Result<(), AllocError>
    requires { All (IsLive (extent_of w.old.heap)) l.old.vals.items }
    ensures { OnOk result (All (IsLive (extent_of w.new.heap)) l.new.vals.items) }
{
    let (name, words) = call.split_once(" ").unwrap_or((call, ""));
    let vals = values(alloc, w, l, words)?;
    match name {
        "put" => push_put(out, w, l, &vals),
        "get" => push_got(out, w, l),
        "undo_exchange" => push_back(out, w, l, words, &vals),
        "exchange" | "mover" => push_both(out, w, l, name, words, &vals),
        _ => push_one(out, w, l, name, words, &vals),
    }
}

// A word by its place, or none.
fn word_at(words: &str, place: usize) -> &str {
    words.split(' ').nth(place).unwrap_or("")
}

// Reads a variable, assigns to it, or gives it an old value back.
fn push_one(
    out: &mut String,
    w: &mut World,
    l: &mut Slots,
    name: &str,
    words: &str,
    vals: &[Val],
) -> Result<(), AllocError>
    requires locals { All (IsLive (extent_of w.old.heap)) l.old.vals.items }
    requires vals { All (IsLive (extent_of w.old.heap)) vals.now }
    ensures { OnOk result (All (IsLive (extent_of w.new.heap)) l.new.vals.items) }
{
    let key = value_at(w, vals, 0);
    let val = value_at(w, vals, 1);
    match variable(w, l, word_at(words, 0), key) {
        Some(variable) => match name {
            "read" => push_read(out, w, l, variable),
            "assign" => push_assigned(out, w, l, variable, val),
            _ => push_undone(out, w, l, variable, val),
        },
        None => out.push_str("no variable"),
    }
}

// Exchanges two variables, or says which of them would move the other.
fn push_both(
    out: &mut String,
    w: &mut World,
    l: &mut Slots,
    name: &str,
    words: &str,
    vals: &[Val],
) -> Result<(), AllocError>
    requires locals { All (IsLive (extent_of w.old.heap)) l.old.vals.items }
    requires vals { All (IsLive (extent_of w.old.heap)) vals.now }
    ensures { OnOk result (All (IsLive (extent_of w.new.heap)) l.new.vals.items) }
{
    let left = variable(w, l, word_at(words, 0), value_at(w, vals, 0));
    let right = variable(w, l, word_at(words, 1), value_at(w, vals, 1));
    match left {
        Some(left) => match right {
            Some(right) => {
                if name == "mover" {
                    push_moved(out, w, l, left, right)
                } else {
                    push_exchanged(out, w, l, left, right)
                }
            }
            None => out.push_str("no variable"),
        },
        None => out.push_str("no variable"),
    }
}

// Takes an exchange back: what moved, both sides, and what both held.
fn push_back(
    out: &mut String,
    w: &mut World,
    l: &mut Slots,
    words: &str,
    vals: &[Val],
) -> Result<(), AllocError>
    requires locals { All (IsLive (extent_of w.old.heap)) l.old.vals.items }
    requires vals { All (IsLive (extent_of w.old.heap)) vals.now }
    ensures { OnOk result (All (IsLive (extent_of w.new.heap)) l.new.vals.items) }
{
    let mover = mover_named(word_at(words, 0));
    let left = variable(w, l, word_at(words, 1), value_at(w, vals, 1));
    let right = variable(w, l, word_at(words, 2), value_at(w, vals, 2));
    let old_left = value_at(w, vals, 3);
    let old_right = value_at(w, vals, 4);
    match left {
        Some(left) => match right {
            Some(right) => {
                let was = Exchanged {
                    mover,
                    left,
                    right,
                    old_left,
                    old_right,
                };
                push_exchange_undone(out, w, l, was)
            }
            None => out.push_str("no variable"),
        },
        None => out.push_str("no variable"),
    }
}

fn mover_named(name: &str) -> Mover {
    match name {
        "left" => Mover::Left,
        "right" => Mover::Right,
        _ => Mover::Neither,
    }
}

// Puts a value behind the elements of the list.
#[tactic(auto, using(icn_vars::proofs::GrowingWorlds::grows))]
fn push_put(out: &mut String, w: &mut World, l: &Slots, vals: &[Val]) -> Result<(), AllocError>
    requires locals { All (IsLive (extent_of w.old.heap)) l.now.vals.items }
    requires vals { All (IsLive (extent_of w.old.heap)) vals.now }
    ensures { OnOk result (All (IsLive (extent_of w.new.heap)) l.now.vals.items) }
{
    let _locals = &l.vals;
    let val = value_at(w, vals, 0);
    match static_at(w, 1) {
        Val::List(list) => match w.heap.put(list, val) {
            Ok(()) => out.push_str("put"),
            Err(_) => out.push_str("full"),
        },
        _ => out.push_str("no list"),
    }
}

// Takes the first element of the list.
#[tactic(auto, using(icn_vars::proofs::GrowingWorlds::grows))]
fn push_got(out: &mut String, w: &mut World, l: &Slots) -> Result<(), AllocError>
    requires { All (IsLive (extent_of w.old.heap)) l.now.vals.items }
    ensures { OnOk result (All (IsLive (extent_of w.new.heap)) l.now.vals.items) }
{
    let _locals = &l.vals;
    match static_at(w, 1) {
        Val::List(list) => match w.heap.get(list) {
            Some(val) => push_value(out, &w.heap, val),
            None => out.push_str("none"),
        },
        _ => out.push_str("no list"),
    }
}
