// The arguments of calls. The values that were made are the globals.
ghost use Rattle.std.specs.Prelude.{IfOk};
ghost use Rattle.std.specs.List.{All};
ghost use Rattle.icn_heap.specs.Extents.{IsLive, KeepsValues};
ghost use Rattle.icn_heap.specs.Heaps.{extent_of};

use icn_args::arg;
use icn_value::Val;
use icn_vars::World;
use std::alloc::{AllocError, Global};
use test_values::{add, number, plain, text_value};

/// The values of some words. `AllocError` is want of memory.
pub fn arguments(alloc: Global, w: &mut World, words: &str) -> Result<Vec<Val>, AllocError>
    ensures { IfOk result (λ vals. All (IsLive (extent_of w.new.heap)) vals.items) }
{
    let mut vals = Vec::new(alloc);
    for word in words.split(' ') {
        let val = value_of(w, word.as_bytes())?;
        add(&mut vals, val)?;
    }
    Ok(vals)
}

// The value of a word.
fn value_of(w: &mut World, word: &[u8]) -> Result<Val, AllocError>
    ensures live { IfOk result (IsLive (extent_of w.new.heap)) }
    ensures kept { KeepsValues (extent_of w.old.heap) (extent_of w.new.heap) }
{
    match word.split_first() {
        Some((b'"', rest)) => text_value(w, rest),
        Some((b'=', rest)) => Ok(made_value(w, rest)),
        _ => Ok(plain(word)),
    }
}

// The value that was made at a place.
fn made_value(w: &World, word: &[u8]) -> Val
    ensures { IsLive (extent_of w.now.heap) result }
{
    arg(&w.globals, number(word) as usize)
}

/// The integer that a value is, or else 0.
pub fn integer_of(val: Val) -> i64 {
    match val {
        Val::Integer(n) => n,
        _ => 0,
    }
}

/// The place that a value is.
pub fn place_of(val: Val) -> u64 {
    integer_of(val).unsigned_abs()
}
