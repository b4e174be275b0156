// A row of a shelf: places for things that are given back.
ghost use Rattle.std.specs.Prelude.{◌≡◌, ◌≤◌, ◌⊎◌, true, [], length, map};
ghost use Rattle.std.specs.List.{All};
ghost use Rattle.icn_structs.specs.PlacedThings.{IsNumbered, IsRow, held_places, is_marked, kept_number, marked_places, memories, memory_at, merged, must_go, remembered, renumbered, unmarked};

use std::alloc::{AllocError, Global};
use std::marker::Model;
use std::snapshot::Snapshot;

/// How many places a row has. How many things are there in it is a number of a byte.
pub const ROW: u64 = 128;

/// A thing that is there.
#[derive(Drop)]
pub struct OnShelf<T> {
    /// The thing.
    pub thing: T,
    pub(crate) marked: bool,
}

// Places in a row. For each there is a number in `places`: 0 where the thing is gone, else how many are there up to it; once
// all are gone, and no place is free, no numbers are kept. In `there` are the things that are there, in their order, and in
// `was` what proofs alone know of those that are gone.
#[derive(Drop)]
pub struct ShelfRow<T> {
    places: Vec<u8>,
    there: Vec<OnShelf<T>>,
    was: Vec<Snapshot<T>>,
}

impl<T> Model for ShelfRow<T> {
    ghost use Rattle.std.specs.Prelude.{length};
    ghost use Rattle.icn_structs.specs.Shelves.{ShelfView};
    ghost use Rattle.icn_structs.specs.PlacedThings.{memories, row_seen, IsRow};

    ghost Value = { ShelfView T };

    ghost view = { λ r. row_seen (memories r.was.items) r.places.items r.there.items };

    ghost invariant = { λ r. IsRow (length r.was.items) (length r.there.items) r.places.items };
}

impl<T: Drop> ShelfRow<T> {
    ghost use Rattle.std.specs.Prelude.{◌≡◌, ◌<◌, length, not, false, ◌&&◌, slice_index_or, IfOk, OnOk, OnErr};
    ghost use Rattle.std.specs.Borrow.{sem};
    ghost use Rattle.icn_structs.specs.Shelves.{IsSet, empty_view, view_with, view_marked, view_unmarked, view_given};
    ghost use Rattle.icn_structs.specs.LentPlaces.{lends_place};

    // A row without things.
    fn new(alloc: Global) -> ShelfRow<T>
        ensures { result ≡ empty_view }
    {
        ShelfRow {
            places: Vec::new(alloc),
            there: Vec::new(alloc),
            was: Vec::new(alloc),
        }
    }

    // A row of one thing.
    pub fn of_one(alloc: Global, thing: T) -> Result<ShelfRow<T>, AllocError>
        ensures { IfOk result (λ row. row ≡ view_with empty_view thing) }
    {
        let mut row = ShelfRow::new(alloc);
        row.push(thing)?;
        Ok(row)
    }

    // Adds a thing. A place must be free.
    pub fn push(&mut self, thing: T) -> Result<(), AllocError>
        requires { length self.old.shelf.things < 128 }
        ensures added { OnOk result (self.new ≡ view_with self.old thing) }
        ensures unchanged { OnErr result (self.new ≡ self.old) }
    {
        let memory = Snapshot::of(&thing);
        let number = self.there.len() as u8 + 1;
        self.places.push(number)?;
        if self.was.push(memory).is_err() {
            self.places.pop();
            return Err(AllocError);
        }
        let kept = OnShelf {
            thing,
            marked: false,
        };
        if self.there.push(kept).is_err() {
            self.places.pop();
            self.was.pop();
            return Err(AllocError);
        }
        Ok(())
    }

    // Whether a thing is there.
    pub fn is_held(&self, place: u64) -> bool
        ensures { result ≡ slice_index_or self.now.shelf.held place false }
    {
        match self.places.get(place as usize) {
            Some(number) => *number > 0,
            None => false,
        }
    }

    // The things that are there.
    pub fn things(&self) -> &[OnShelf<T>] {
        &self.there
    }

    // A thing that is there, to be read.
    pub fn at(&self, place: u64) -> &T
        requires { IsSet self.now.shelf.held place }
        ensures { (d : T) → result.now ≡ slice_index_or self.now.shelf.things place d }
    {
        let number = self.places[place as usize] as usize;
        &self.there[number - 1].thing
    }

    // A thing that is there, to be changed.
    pub fn at_mut(&mut self, place: u64) -> &mut T
        requires { IsSet self.old.shelf.held place }
        ensures* writes_back { sem 𝓛 (lends_place T.row self.entry place result) }
        ensures thing { (d : T) → result.now ≡ slice_index_or self.old.shelf.things place d }
    {
        let number = self.places[place as usize] as usize;
        let found = &mut self.there[number - 1];
        &mut found.thing
    }

    // Marks a thing, if it is there, and tells whether it was not marked before.
    pub fn mark(&mut self, place: u64) -> bool
        ensures marked { self.new ≡ view_marked self.old place }
        ensures fresh { result ≡ (slice_index_or self.old.shelf.held place false
            && not (slice_index_or self.old.marks place false)) }
    {
        if !self.is_held(place) {
            return false;
        }
        let number = self.places[place as usize] as usize;
        let found = &mut self.there[number - 1];
        let was = found.marked;
        found.marked = true;
        !was
    }

    // Takes all marks away.
    pub fn unmark(&mut self)
        ensures { self.new ≡ view_unmarked self.old }
    {
        unmark_all(&mut self.there);
    }

    // Gives back all things that are not marked, and takes all marks away.
    pub fn give_back(&mut self, alloc: Global)
        ensures { self.new ≡ view_given self.old }
    {
        give_unmarked(alloc, &mut self.places, &mut self.was, &mut self.there);
        unmark_all(&mut self.there);
    }
}

// Gives back the things that are not marked.
fn give_unmarked<T: Drop>(
    alloc: Global,
    places: &mut Vec<u8>,
    was: &mut Vec<Snapshot<T>>,
    there: &mut Vec<OnShelf<T>>,
)
    requires row { IsRow (length was.old.items) (length there.old.items) places.old.items }
    ensures row { IsRow (length was.new.items) (length there.new.items) places.new.items }
    ensures things { merged (memories was.new.items) places.new.items there.new.items
        ≡ merged (memories was.old.items) places.old.items there.old.items }
    ensures held { held_places (memories was.new.items) places.new.items
        ≡ marked_places (memories was.old.items) places.old.items there.old.items }
{
    if are_marked(there) {
        return;
    }
    forget(places, was, there);
    renumber(places);
    there.retain(|found| found.marked);
    give_room_back(alloc, there);
    drop_numbers(alloc, places, was.len(), there.len());
}

// Takes all marks away.
fn unmark_all<T>(there: &mut Vec<OnShelf<T>>)
    ensures { there.new.items ≡ map unmarked there.old.items }
{
    for i in 0..there.len() {
        there[i].marked = false;
    }
}

// Whether all things are marked.
fn are_marked<T>(there: &[OnShelf<T>]) -> bool
    ensures { result ≡ true → All (λ kept. is_marked kept ≡ true) there.now }
{
    for found in there {
        if !found.marked {
            return false;
        }
    }
    true
}

// Remembers the things that are not marked, and takes their numbers away.
fn forget<T>(places: &mut Vec<u8>, was: &mut Vec<Snapshot<T>>, there: &[OnShelf<T>])
    requires numbered { IsNumbered 0 (length there.now) places.old.items }
    requires long { length places.old.items ≤ length was.old.items }
    ensures places { places.new.items ≡ map (kept_number there.now) places.old.items }
    ensures was { memories was.new.items
        ≡ remembered (memories was.old.items) places.old.items there.now }
{
    for i in 0..places.len() {
        forget_one(&mut places[i], &mut was[i], there);
    }
}

// Remembers the thing of a number, if it is not marked, and takes the number away.
fn forget_one<T>(number: &mut u8, was: &mut Snapshot<T>, there: &[OnShelf<T>])
    requires { number.old ≤ length there.now }
    ensures number { number.new ≡ kept_number there.now number.old }
    ensures was { was.new.value ≡ memory_at there.now number.old was.old.value }
{
    if must_go(there, *number) {
        *was = Snapshot::of(&there[*number as usize - 1].thing);
        *number = 0;
    }
}

// Whether a number is one of a thing that is not marked.
fn must_go<T>(there: &[OnShelf<T>], number: u8) -> bool
    requires { number ≤ length there.now }
    ensures { result ≡ must_go there.now number }
{
    number > 0 && !there[number as usize - 1].marked
}

// Numbers what has a number still anew, from 1 on.
fn renumber(places: &mut Vec<u8>)
    requires { length places.old.items ≤ 128 }
    ensures { places.new.items ≡ renumbered 0 places.old.items }
{
    let mut kept: u8 = 0;
    for i in 0..places.len() {
        if places[i] > 0 {
            kept += 1;
            places[i] = kept;
        }
    }
}

// Takes the numbers away where nothing is there and no place is free.
fn drop_numbers(alloc: Global, places: &mut Vec<u8>, all: usize, there: usize)
    requires row { IsRow all there places.old.items }
    ensures row { IsRow all there places.new.items }
    ensures places { (places.new.items ≡ places.old.items) ⊎ ((there ≡ 0) × (places.new.items ≡ [])) }
{
    if there == 0 && all as u64 == ROW {
        *places = Vec::new(alloc);
    }
}

// Gives room back that is not used: the things move into just as much room as they need, so that the room that they had is
// free for another row. Where memory is wanting for it they stay where they are.
fn give_room_back<T: Drop>(alloc: Global, there: &mut Vec<OnShelf<T>>)
    ensures { there.new.items ≡ there.old.items }
{
    if there.len() * 2 <= there.capacity() {
        let _moved = move_things(alloc, there);
    }
}

// Moves things into just as much room as they need. `AllocError` is want of memory, and they stay where they are.
fn move_things<T: Drop>(alloc: Global, there: &mut Vec<OnShelf<T>>) -> Result<(), AllocError>
    ensures { there.new.items ≡ there.old.items }
{
    let mut few = Vec::with_capacity(alloc, there.len())?;
    few.append(there)?;
    *there = few;
    Ok(())
}
