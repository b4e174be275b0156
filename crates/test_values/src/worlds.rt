// The world of a case.
ghost use Rattle.std.specs.Prelude.{◌≡◌, [], IfOk};
ghost use Rattle.icn_heap.specs.Extents.{IsLive};
ghost use Rattle.icn_heap.specs.Heaps.{extent_of, heap_of};

use crate::words::{plain, text_value};
use icn_heap::Heap;
use icn_value::{Limits, Val};
use icn_vars::World;
use std::alloc::{AllocError, Global};

/// A world in which nothing is made, and of whose heap so many bytes and cells may be charged. `AllocError` is want of
/// memory.
#[tactic(auto, using(crate::proofs::AddedVariables::no_records))]
pub fn new_world(alloc: Global, strings: u64, cells: u64) -> Result<World, AllocError>
    ensures { IfOk result (λ w. (heap_of w.heap).records ≡ []) }
{
    let limits = Limits {
        turns: 0,
        strings: strings.min(1 << 40),
        cells: cells.min(1 << 31),
        levels: 1,
    };
    let heap = Heap::new(alloc, limits)?;
    Ok(World::new(heap, Vec::new(alloc), Vec::new(alloc)))
}

/// Adds a global. `AllocError` is want of memory.
#[tactic(auto, using(crate::proofs::AddedVariables::global_added))]
pub fn add_global(w: &mut World, val: Val) -> Result<(), AllocError>
    requires { IsLive (extent_of w.old.heap) val }
    ensures { w.new.heap ≡ w.old.heap }
{
    w.globals.push(val)?;
    Ok(())
}

/// Adds a static. `AllocError` is want of memory.
#[tactic(auto, using(crate::proofs::AddedVariables::static_added))]
pub fn add_static(w: &mut World, val: Val) -> Result<(), AllocError>
    requires { IsLive (extent_of w.old.heap) val }
{
    w.statics.push(val)?;
    Ok(())
}

/// Makes the value of a word the next global. An underline in a text stands for a blank. `AllocError` is want of memory.
pub fn add_argument(alloc: Global, w: &mut World, word: &[u8]) -> Result<(), AllocError>
    ensures { heap_of w.new.heap ≡ heap_of w.old.heap }
{
    let val = spaced_value(alloc, w, word)?;
    add_global(w, val)
}

/// The value of a word, where an underline in a text stands for a blank. `AllocError` is want of memory.
pub fn spaced_value(alloc: Global, w: &mut World, word: &[u8]) -> Result<Val, AllocError>
    ensures live { IfOk result (IsLive (extent_of w.new.heap)) }
    ensures unchanged { heap_of w.new.heap ≡ heap_of w.old.heap }
{
    match word.split_first() {
        Some((b'"', rest)) => {
            let text = with_blanks(alloc, rest)?;
            text_value(w, &text)
        }
        _ => Ok(plain(word)),
    }
}

fn with_blanks(alloc: Global, bytes: &[u8]) -> Result<Vec<u8>, AllocError> {
    let mut text = Vec::new(alloc);
    for byte in bytes {
        text.push(if *byte == b'_' { b' ' } else { *byte })?;
    }
    Ok(text)
}
