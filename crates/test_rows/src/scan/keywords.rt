// The subject and the position of a case.
ghost use Rattle.std.specs.List.{All};
ghost use Rattle.icn_heap.specs.Extents.{Extent, IsLive};
ghost use Rattle.icn_heap.specs.Heaps.{extent_of};
ghost use Rattle.icn_vars.specs.Worlds.{KeepsLive};

use icn_value::{KeywordVariable, Root, Val, VarRef};
use icn_vars::{World, assign};
use std::alloc::{AllocError, Global};
use test_values::{Slots, spaced_value};

/// Gives the subject or the position the value of a word. `AllocError` is want of memory.
pub fn set_keyword(
    alloc: Global,
    w: &mut World,
    slots: &mut Slots,
    keyword: KeywordVariable,
    word: &[u8],
) -> Result<bool, AllocError>
    requires { (all : Extent) → All (IsLive all) slots.old.vals.items }
    ensures { All (IsLive (extent_of w.new.heap)) slots.new.vals.items }
{
    let val = spaced_value(alloc, w, word)?;
    Ok(assign_keyword(w, slots, keyword, val))
}

/// Whether a value could be assigned to a keyword.
pub fn assign_keyword(w: &mut World, slots: &mut Slots, keyword: KeywordVariable, val: Val) -> bool
    requires value { IsLive (extent_of w.old.heap) val }
    requires locals { All (IsLive (extent_of w.old.heap)) slots.old.vals.items }
    ensures kept { KeepsLive w.old slots.old.vals.items w.new slots.new.vals.items }
{
    match assign(w, slots, VarRef::Whole(Root::Keyword(keyword)), val) {
        Ok(_) => true,
        Err(_) => false,
    }
}
