// Lists that are put together.
ghost use Rattle.std.specs.Prelude.{◌≡◌, ◌++◌, map, IfErr, IfOk};
ghost use Rattle.std.specs.List.{All};
ghost use Rattle.icn_value.specs.Store.{list_at};
ghost use Rattle.icn_value.specs.declared.val.Val.TheVariants.{List};
ghost use Rattle.icn_defs.specs.Operations.{concatenate_lists_row};
ghost use Rattle.icn_heap.specs.Extents.{IsLive, value_in};
ghost use Rattle.icn_heap.specs.Heaps.{extent_of, heap_of};
ghost use Rattle.icn_vars.specs.Outcomes.{IsLiveAnswer};
ghost use Rattle.icn_vars.specs.Worlds.{AreLiveTwo, KeepsLive, item_in, reach_of};
ghost use Rattle.icn_args.specs.RowWords.{Answers};

use crate::operands::two_lists;
use icn_args::new_list;
use icn_heap::Heap;
use icn_value::{Item, Val};
use icn_vars::{Halt, Locals, Outcome, World};
use std::alloc::AllocError;

/// `L ||| M`: a new list of the items of both, or error 108; 307 where its cells pass their limit.
pub fn concatenate_lists_row<L: Locals>(
    w: &mut World,
    l: &L,
    x: Item,
    y: Item,
) -> Result<Outcome, Halt>
    requires live { AreLiveTwo w.old (L.items l.now) x y }
    ensures row { Answers w.old (L.items l.now) w.new (L.items l.now)
        (concatenate_lists_row (item_in (extent_of w.old.heap) x) (item_in (extent_of w.old.heap) y)) result }
    ensures live { IsLiveAnswer (reach_of w.new (L.items l.now)) result }
    ensures kept { KeepsLive w.old (L.items l.now) w.new (L.items l.now) }
{
    let (first, second) = two_lists(w, l, x, y)?;
    let Ok(items) = items_of_both(&w.heap, first, second) else {
        return Err(Halt::NoMemory);
    };
    let list = new_list(w, l, &items)?;
    Ok(Outcome::Gives(Item::Val(list)))
}

// The items of two lists, those of the first one first.
fn items_of_both(heap: &Heap, first: u32, second: u32) -> Result<Vec<Val>, AllocError>
    requires first { IsLive (extent_of heap.now) (List first) }
    requires second { IsLive (extent_of heap.now) (List second) }
    ensures items { IfOk result (λ items. map (value_in (extent_of heap.now)) items.items
        ≡ (list_at (heap_of heap.now) first).items ++ (list_at (heap_of heap.now) second).items) }
    ensures live { IfOk result (λ items. All (IsLive (extent_of heap.now)) items.items) }
{
    let mut items = heap.items(first)?;
    let more = heap.items(second)?;
    items.extend_from_slice(&more)?;
    Ok(items)
}
