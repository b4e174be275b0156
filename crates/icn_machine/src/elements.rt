// Elements of lists and fields of records, as items.
ghost use Rattle.std.specs.Prelude.{◌≡◌, ◌<◌, ◌^◌, [], length, map, IfErr, OnOk};
ghost use Rattle.std.specs.List.{All};
ghost use Rattle.icn_value.specs.Store.{Names};
ghost use Rattle.icn_value.specs.declared.val.Val.TheVariants as Vals;
ghost use Rattle.icn_value.specs.declared.item.Item.TheVariants as Items;
ghost use Rattle.icn_heap.specs.Extents.{IsLive};
ghost use Rattle.icn_heap.specs.Heaps.{extent_of, heap_of};
ghost use Rattle.law_names.specs.NamedSettings.{HeapNamed, ItemNamed};
ghost use Rattle.icn_vars.specs.Outcomes.{IsLiveHalt};
ghost use Rattle.icn_vars.specs.declared.outcome.Halt.TheVariants as Halts;
ghost use Rattle.icn_vars.specs.Worlds.{IsLiveItem, Reach, item_in, reach_of};
ghost use Rattle.icn_machine.specs.Invoking.{FindsElements};

use icn_value::{Item, Val};
use icn_vars::{Halt, World};
use std::alloc::AllocError;

// Puts values as items into a room whose content before does not matter.
fn put_values(items: &mut Vec<Item>, vals: &[Val]) -> Result<(), AllocError>
    ensures { OnOk result (items.new.items ≡ map Items.Val vals.now) }
{
    items.clear();
    let mut rest = vals;
    while let Some((first, others)) = rest.split_first() {
        items.push(Item::Val(*first))?;
        rest = others;
    }
    Ok(())
}

/// Puts the elements of a list, or the fields of a record, as items into a room whose content before does not matter.
///
/// The error is 126 where the value is neither, or want of memory.
pub fn elements_of(world: &World, from: Val, items: &mut Vec<Item>) -> Result<(), Halt>
    requires { IsLive (extent_of world.now.heap) from }
    ensures elements { FindsElements world.now from items.new.items result }
    ensures live { OnOk result ((reach : Reach) → reach.extent ≡ extent_of world.now.heap
        → All (IsLiveItem reach) items.new.items) }
    ensures named { (names : Names) → HeapNamed names (heap_of world.now.heap)
        → OnOk result (All (ItemNamed names) (map (item_in (extent_of world.now.heap)) items.new.items)) }
    ensures few { OnOk result (length items.new.items < 2 ^ 63) }
    ensures halt { IfErr result (IsLiveHalt (reach_of world.now [])) }
{
    match from {
        Val::List(list) => list_items(world, list, items),
        Val::Rec(rec) => record_items(world, rec, items),
        Val::Null => Err(Halt::Error(126, Some(from))),
        Val::Integer(_) => Err(Halt::Error(126, Some(from))),
        Val::Text(_) => Err(Halt::Error(126, Some(from))),
        Val::Chars(_) => Err(Halt::Error(126, Some(from))),
        Val::Std(_) => Err(Halt::Error(126, Some(from))),
        Val::Proc(_) => Err(Halt::Error(126, Some(from))),
        Val::Set(_) => Err(Halt::Error(126, Some(from))),
        Val::Table(_) => Err(Halt::Error(126, Some(from))),
        Val::Coexp(_) => Err(Halt::Error(126, Some(from))),
    }
}

// The elements of a list.
fn list_items(world: &World, list: u32, items: &mut Vec<Item>) -> Result<(), Halt>
    requires { IsLive (extent_of world.now.heap) (Vals.List list) }
    ensures elements { FindsElements world.now (Vals.List list) items.new.items result }
    ensures live { OnOk result ((reach : Reach) → reach.extent ≡ extent_of world.now.heap
        → All (IsLiveItem reach) items.new.items) }
    ensures named { (names : Names) → HeapNamed names (heap_of world.now.heap)
        → OnOk result (All (ItemNamed names) (map (item_in (extent_of world.now.heap)) items.new.items)) }
    ensures few { OnOk result (length items.new.items < 2 ^ 63) }
    ensures halt { IfErr result (λ halt. halt ≡ Halts.NoMemory) }
{
    let Ok(vals) = world.heap.items(list) else {
        return Err(Halt::NoMemory);
    };
    match put_values(items, &vals) {
        Ok(()) => Ok(()),
        Err(_) => Err(Halt::NoMemory),
    }
}

// The fields of a record.
fn record_items(world: &World, rec: u32, items: &mut Vec<Item>) -> Result<(), Halt>
    requires { IsLive (extent_of world.now.heap) (Vals.Rec rec) }
    ensures elements { FindsElements world.now (Vals.Rec rec) items.new.items result }
    ensures live { OnOk result ((reach : Reach) → reach.extent ≡ extent_of world.now.heap
        → All (IsLiveItem reach) items.new.items) }
    ensures named { (names : Names) → HeapNamed names (heap_of world.now.heap)
        → OnOk result (All (ItemNamed names) (map (item_in (extent_of world.now.heap)) items.new.items)) }
    ensures few { OnOk result (length items.new.items < 2 ^ 63) }
    ensures halt { IfErr result (λ halt. halt ≡ Halts.NoMemory) }
{
    match put_values(items, world.heap.fields(rec)) {
        Ok(()) => Ok(()),
        Err(_) => Err(Halt::NoMemory),
    }
}
