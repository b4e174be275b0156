// Lists whose items are named by numbers.
ghost use Rattle.std.specs.Prelude.{◌≡◌, ◌<◌, ◌^◌, [], length, is_some, slice_get, pos, ◌+ℤ◌, ◌-ℤ◌, ◌<ℤ◌, FitsSigned, OnOk, OnErr, IfSome, IfNone};
ghost use Rattle.std.specs.Int.{w64};
ghost use Rattle.icn_structs.specs.Numbered.{number_after, item_numbered, with_numbered, with_left, with_right, leftmost, rightmost, without_left, without_right};

use std::alloc::{AllocError, Global};
use std::collections::VecDeque;
use std::marker::Model;

/// A list that items join and leave at both ends. An item is named by a number that stays with it.
///
/// The list keeps the number of its first item, and the others follow without a gap. It is 1 as the list is made, falls by
/// one as an item joins at the left, rises by one as an item leaves there, and an empty list keeps it. Only `put` and
/// `push` take memory. A clause sees the items from left to right, and the number of the first.
#[derive(Drop)]
pub struct Deque<T> {
    items: VecDeque<T>,
    first: i64,
}

// The numbers stay in 64 bits, with the one after the last, so that `get` can raise the first.
impl<T> Model for Deque<T> {
    ghost use Rattle.std.specs.Prelude.{length, pos, ◌+ℤ◌, FitsSigned};
    ghost use Rattle.std.specs.Int.{w64};
    ghost use Rattle.icn_structs.specs.Numbered.{NumberedList};

    ghost Value = { NumberedList T };

    ghost view = { λ d. record { items = d.items.items; number = d.first } };

    ghost invariant = { λ d. FitsSigned w64 (d.first +ℤ pos (length d.items.items)) };
}

impl<T: Copy> Deque<T> {
    /// An empty list. The first item that joins has the number 1 if it joins at the right, and 0 at the left.
    pub fn new(alloc: Global) -> Deque<T>
        ensures items { result.items ≡ [] }
        ensures number { result.number ≡ pos 1 }
    {
        Deque {
            items: VecDeque::new(alloc),
            first: 1,
        }
    }

    /// Adds an item at the right, whose number is the one after the last.
    ///
    /// An error is want of memory, and the list is as it was.
    ///
    /// The numbers must stay in 64 bits, with the one after the last: `first` and `len` tell.
    pub fn put(&mut self, v: T) -> Result<(), AllocError>
        requires numbers_fit { FitsSigned w64 (number_after self.old +ℤ pos 1) }
        ensures added { OnOk result (self.new ≡ with_right self.old v) }
        ensures unchanged { OnErr result (self.new ≡ self.old) }
    {
        self.items.push_back(v)?;
        Ok(())
    }

    /// Adds an item at the left, whose number is the one before the first.
    ///
    /// An error is want of memory, and the list is as it was.
    ///
    /// The numbers must stay in 64 bits: `first` tells.
    pub fn push(&mut self, v: T) -> Result<(), AllocError>
        requires numbers_fit { FitsSigned w64 (self.old.number -ℤ pos 1) }
        ensures added { OnOk result (self.new ≡ with_left self.old v) }
        ensures unchanged { OnErr result (self.new ≡ self.old) }
    {
        self.items.push_front(v)?;
        self.first -= 1;
        Ok(())
    }

    /// Takes the item at the left, so that the list's number rises by one. `None` comes exactly where the list is empty.
    pub fn get(&mut self) -> Option<T>
        ensures item { result ≡ leftmost self.old }
        ensures rest { self.new ≡ without_left self.old }
    {
        let item = self.items.pop_front()?;
        self.first += 1;
        Some(item)
    }

    /// Takes the item at the right. The list's number stays. `None` comes exactly where the list is empty.
    pub fn pull(&mut self) -> Option<T>
        ensures item { result ≡ rightmost self.old }
        ensures rest { self.new ≡ without_right self.old }
    {
        self.items.pop_back()
    }

    /// The item at this place, counted from 0 at the left. `None` comes exactly where the list has no such place.
    pub fn at(&self, place: u64) -> Option<T>
        ensures item { result ≡ slice_get self.now.items place }
    {
        self.items.get(place as usize).copied()
    }

    /// The number of the first item. An empty list has one too, which an item that joins at the right gets.
    pub fn first(&self) -> i64
        ensures number { result ≡ self.now.number }
        ensures numbers_fit { FitsSigned w64 (number_after self.now) }
    {
        self.first
    }

    /// The item with this number. `None` comes exactly where no item has it.
    pub fn by_number(&self, n: i64) -> Option<T>
        ensures item { result ≡ item_numbered self.now n }
    {
        self.at(self.place_of(n)?)
    }

    /// Puts another item in the place of the one with this number, and answers whether there was one.
    pub fn set_number(&mut self, n: i64, v: T) -> bool
        ensures found { result ≡ is_some (item_numbered self.old n) }
        ensures items { self.new ≡ with_numbered self.old n v }
    {
        match self.place_of(n) {
            Some(place) if place < self.len() => {
                self.items[place as usize] = v;
                true
            }
            _ => false,
        }
    }

    /// How many items the list has.
    pub fn len(&self) -> u64
        ensures count { result ≡ length self.now.items }
        ensures small { length self.now.items < 2 ^ 63 }
        ensures numbers_fit { FitsSigned w64 (number_after self.now) }
    {
        self.items.len() as u64
    }

    // The place that this number stands for, which may be past the end. `None` is for a number before the first.
    fn place_of(&self, n: i64) -> Option<u64>
        ensures place { IfSome result (λ place. n -ℤ self.now.number ≡ pos place) }
        ensures below { IfNone result (n <ℤ self.now.number) }
    {
        if n < self.first {
            return None;
        }
        Some(n.abs_diff(self.first))
    }
}
