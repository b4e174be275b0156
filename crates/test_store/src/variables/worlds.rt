// The world of a case: its globals are null, and its statics are null, a list of three nulls, a record of two and a table.
ghost use Rattle.std.specs.Prelude.{IfOk};
ghost use Rattle.std.specs.List.{All};
ghost use Rattle.icn_heap.specs.Extents.{Extent, IsLive};
ghost use Rattle.icn_heap.specs.Heaps.{extent_of};

use icn_heap::Full;
use icn_value::Val;
use icn_vars::World;
use std::alloc::{AllocError, Global};
use test_values::{Slots, add_global, add_static, new_world};

/// A world of which so many bytes of texts that are made, and so many cells beside those of its structures, may be charged.
/// The error is the limit that refuses the charge, or want of memory.
pub fn world(alloc: Global, strings: u64, cells: u64) -> Result<World, Full> {
    let mut w = new_world(alloc, strings.min(1000), cells.min(1000) + 8)?;
    for _ in 0..3 {
        add_global(&mut w, Val::Null)?;
    }
    add_static(&mut w, Val::Null)?;
    let list = w.heap.make_list(3, Val::Null)?;
    add_static(&mut w, list)?;
    let rec = w.heap.make_rec(0, &[Val::Null, Val::Null])?;
    add_static(&mut w, rec)?;
    let table = w.heap.make_table(Val::Integer(9))?;
    add_static(&mut w, table)?;
    Ok(w)
}

/// A static by its place, or null.
pub fn static_at(w: &World, place: usize) -> Val
    ensures { IsLive (extent_of w.now.heap) result }
{
    if place < w.statics.len() {
        w.statics[place]
    } else {
        Val::Null
    }
}

/// Two locals that are null. `AllocError` is want of memory.
pub fn two_locals(alloc: Global) -> Result<Slots, AllocError>
    ensures { (all : Extent) → IfOk result (λ slots. All (IsLive all) slots.vals.items) }
{
    let vals = vec![in alloc; Val::Null; 2]?;
    Ok(Slots { vals })
}
