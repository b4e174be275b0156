// The values of a call's words.
ghost use Rattle.std.specs.Prelude.{IfOk, OnOk};
ghost use Rattle.std.specs.List.{All};
ghost use Rattle.icn_heap.specs.Extents.{IsLive, KeepsValues};
ghost use Rattle.icn_heap.specs.Heaps.{extent_of};

use crate::variables::worlds::static_at;
use icn_value::Val;
use icn_vars::World;
use std::alloc::{AllocError, Global};
use test_values::{Slots, add, number, plain, split, text_value};

/// The values of some words. `AllocError` is want of memory.
pub fn values(alloc: Global, w: &mut World, l: &Slots, words: &str) -> Result<Vec<Val>, AllocError>
    requires { All (IsLive (extent_of w.old.heap)) l.now.vals.items }
    ensures values { IfOk result (λ vals. All (IsLive (extent_of w.new.heap)) vals.items) }
    ensures locals { OnOk result (All (IsLive (extent_of w.new.heap)) l.now.vals.items) }
{
    let mut vals = Vec::new(alloc);
    for word in words.split(' ') {
        let val = value_of(w, bare(word.as_bytes()))?;
        add(&mut vals, val)?;
    }
    Ok(vals)
}

// The value of a word, or the key of one that names a value of the table.
fn bare(word: &[u8]) -> &[u8] {
    match word.split_first() {
        Some((b'k', rest)) => split(rest, b':').0,
        _ => word,
    }
}

fn value_of(w: &mut World, word: &[u8]) -> Result<Val, AllocError>
    ensures live { IfOk result (IsLive (extent_of w.new.heap)) }
    ensures kept { KeepsValues (extent_of w.old.heap) (extent_of w.new.heap) }
{
    match word.split_first() {
        Some((b'"', rest)) => text_value(w, rest),
        Some((b'=', rest)) => Ok(static_at(w, number(rest) as usize)),
        _ => Ok(plain(word)),
    }
}

/// One of some values by its place, or null.
pub fn value_at(w: &World, vals: &[Val], place: usize) -> Val
    requires { All (IsLive (extent_of w.now.heap)) vals.now }
    ensures { IsLive (extent_of w.now.heap) result }
{
    let _heap = &w.heap;
    match vals.get(place) {
        Some(val) => *val,
        None => Val::Null,
    }
}
