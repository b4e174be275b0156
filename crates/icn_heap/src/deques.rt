// Lists that are made, and one list among others that changes.
ghost use Rattle.std.specs.Prelude.{◌≡◌, ◌<◌, ◌^◌, OnOk, OnErr, IfOk, pos, replicate, slice_index_or, length, FitsSigned, ◌+ℤ◌, ◌-ℤ◌, is_some};
ghost use Rattle.std.specs.Int.{w64};
ghost use Rattle.icn_structs.specs.Numbered.{number_after, with_left, with_right, with_numbered, without_left, without_right, leftmost, rightmost, item_numbered};
ghost use Rattle.icn_structs.specs.Shelves.{IsSet, with_new, with_other};
ghost use Rattle.icn_heap.specs.ElementValues.{list_vals};
ghost use Rattle.icn_heap.specs.HeapParts.{no_vals};
ghost use Rattle.icn_heap.specs.NeededValues.{AreNeeded};

use crate::needed_values::NeededValues;
use icn_structs::{Deque, Shelf};
use icn_value::Val;
use std::alloc::{AllocError, Global};

/// A new list of these items, the leftmost numbered 1. `AllocError` is want of memory.
pub fn deque_of(alloc: Global, items: &[Val]) -> Result<Deque<Val>, AllocError>
    requires few { length items.now < 2 ^ 32 }
    ensures items { IfOk result (λ list. list.items ≡ items.now) }
    ensures number { IfOk result (λ list. list.number ≡ pos 1) }
{
    let mut list = Deque::new(alloc);
    for item in items {
        list.put(*item)?;
    }
    Ok(list)
}

/// A new list of one value `n` times, the leftmost numbered 1. `AllocError` is want of memory.
pub fn deque_of_copies(alloc: Global, n: u64, fill: Val) -> Result<Deque<Val>, AllocError>
    requires few { n < 2 ^ 32 }
    ensures items { IfOk result (λ list. list.items ≡ replicate n fill) }
    ensures number { IfOk result (λ list. list.number ≡ pos 1) }
{
    let mut list = Deque::new(alloc);
    for i in 0..n {
        list.put(fill)?;
    }
    Ok(list)
}

/// Adds a list behind the others. `AllocError` is want of memory, and all is as it was then.
pub fn add_list(lists: &mut Shelf<Deque<Val>>, list: Deque<Val>) -> Result<(), AllocError>
    ensures ok { OnOk result (lists.new.shelf ≡ with_new lists.old.shelf list) }
    ensures err { OnErr result (lists.new.shelf ≡ lists.old.shelf) }
{
    lists.push(list)?;
    Ok(())
}

/// Adds an item at the right of a list. `AllocError` is want of memory, and all is as it was then.
pub fn put_at(lists: &mut Shelf<Deque<Val>>, list: u32, val: Val) -> Result<(), AllocError>
    requires there { IsSet lists.old.shelf.held list }
    requires numbers_fit { FitsSigned w64
        (number_after (slice_index_or lists.old.shelf.things list no_vals) +ℤ pos 1) }
    ensures ok { OnOk result (lists.new.shelf
        ≡ with_other lists.old.shelf list
        (with_right (slice_index_or lists.old.shelf.things list no_vals) val)) }
    ensures err { OnErr result (lists.new.shelf ≡ lists.old.shelf) }
{
    lists.at_mut(list).put(val)
}

/// Adds an item at the left of a list. `AllocError` is want of memory, and all is as it was then.
pub fn push_at(lists: &mut Shelf<Deque<Val>>, list: u32, val: Val) -> Result<(), AllocError>
    requires there { IsSet lists.old.shelf.held list }
    requires numbers_fit { FitsSigned w64
        ((slice_index_or lists.old.shelf.things list no_vals).number -ℤ pos 1) }
    ensures ok { OnOk result (lists.new.shelf
        ≡ with_other lists.old.shelf list
        (with_left (slice_index_or lists.old.shelf.things list no_vals) val)) }
    ensures err { OnErr result (lists.new.shelf ≡ lists.old.shelf) }
{
    lists.at_mut(list).push(val)
}

/// Takes the item at the left of a list. `None` comes exactly where the list is empty.
pub fn get_at(lists: &mut Shelf<Deque<Val>>, list: u32) -> Option<Val>
    requires { IsSet lists.old.shelf.held list }
    ensures item { result ≡ leftmost (slice_index_or lists.old.shelf.things list no_vals) }
    ensures rest { lists.new.shelf
        ≡ with_other lists.old.shelf list
        (without_left (slice_index_or lists.old.shelf.things list no_vals)) }
{
    lists.at_mut(list).get()
}

/// Takes the item at the right of a list. `None` comes exactly where the list is empty.
pub fn pull_at(lists: &mut Shelf<Deque<Val>>, list: u32) -> Option<Val>
    requires { IsSet lists.old.shelf.held list }
    ensures item { result ≡ rightmost (slice_index_or lists.old.shelf.things list no_vals) }
    ensures rest { lists.new.shelf
        ≡ with_other lists.old.shelf list
        (without_right (slice_index_or lists.old.shelf.things list no_vals)) }
{
    lists.at_mut(list).pull()
}

/// Puts another item in the place of the one with this number, and answers whether there was one.
pub fn set_at(lists: &mut Shelf<Deque<Val>>, list: u32, n: i64, val: Val) -> bool
    requires { IsSet lists.old.shelf.held list }
    ensures found { result ≡ is_some (item_numbered (slice_index_or lists.old.shelf.things list no_vals) n) }
    ensures items { lists.new.shelf
        ≡ with_other lists.old.shelf list
        (with_numbered (slice_index_or lists.old.shelf.things list no_vals) n val) }
{
    lists.at_mut(list).set_number(n, val)
}

/// The list of this number, to be read.
pub fn list_ref(lists: &Shelf<Deque<Val>>, list: u32) -> &Deque<Val>
    requires { IsSet lists.now.shelf.held list }
    ensures { result.now ≡ slice_index_or lists.now.shelf.things list no_vals }
{
    lists.at(list)
}

/// Adds the items of a list, which are to stay. `AllocError` is want of memory.
pub fn add_items(list: &Deque<Val>, needed: &mut NeededValues) -> Result<(), AllocError>
    ensures { OnOk result (AreNeeded needed.old needed.new (list_vals list.now)) }
{
    for place in 0..list.len() {
        needed.add_optional(list.at(place))?;
    }
    Ok(())
}
