// Things that are named by the order in which they came, and that are given back.
ghost use Rattle.std.specs.Prelude.{◌≡◌, ◌+◌, ◌<◌, ◌^◌, map, OnOk, OnErr};
ghost use Rattle.icn_structs.specs.PlacedThings.{AreInRows, shelf_seen};
ghost use Rattle.icn_structs.specs.Shelves.{view_given, view_unmarked, with_new};

use crate::row::{OnShelf, ROW, ShelfRow};
use std::alloc::{AllocError, Global};
use std::marker::Model;

// How many things a shelf has at most, as a vector has.
const MOST: u64 = (1 << 63) - 1;

/// Things, each named by how many came before it. A thing that is given back keeps its number, and what a clause sees of it.
///
/// The places of things stand in rows. A row in which few things are there has room for little more than these, and one in
/// which none is there takes half a byte for each that was.
#[derive(Drop)]
pub struct Shelf<T> {
    alloc: Global,
    rows: Vec<ShelfRow<T>>,
    len: u64,
}

impl<T> Model for Shelf<T> {
    ghost use Rattle.icn_structs.specs.Shelves.{ShelfView};
    ghost use Rattle.icn_structs.specs.PlacedThings.{shelf_seen, AreInRows};

    ghost Value = { ShelfView T };

    ghost view = { λ s. shelf_seen s.rows.items };

    ghost invariant = { λ s. AreInRows s.len s.rows.items };
}

impl<T: Drop> Shelf<T> {
    ghost use Rattle.std.specs.Prelude.{◌≡◌, ◌<◌, ◌^◌, length, not, false, ◌&&◌, slice_index_or, OnOk, OnErr};
    ghost use Rattle.std.specs.Borrow.{sem};
    ghost use Rattle.icn_structs.specs.Shelves.{IsSet, no_things, with_new, with_held, with_mark, all_unset};
    ghost use Rattle.icn_structs.specs.LentThings.{lends_thing};

    /// No things. It takes no memory until one comes.
    pub fn new(alloc: Global) -> Shelf<T>
        ensures { result.shelf ≡ no_things }
    {
        Shelf {
            alloc,
            rows: Vec::new(alloc),
            len: 0,
        }
    }

    /// How many things ever came.
    pub fn len(&self) -> u64
        ensures count { result ≡ length self.now.shelf.things }
        ensures small { result < 2 ^ 63 }
    {
        self.len
    }

    /// Adds a thing, whose number is how many came before it. The error is want of memory, and leaves the others as they were.
    pub fn push(&mut self, thing: T) -> Result<(), AllocError>
        ensures added { OnOk result (self.new.shelf ≡ with_new self.old.shelf thing) }
        ensures unchanged { OnErr result (self.new.shelf ≡ self.old.shelf) }
    {
        if self.len == MOST {
            return Err(AllocError);
        }
        add_thing(self.alloc, &mut self.rows, self.len, thing)?;
        self.len += 1;
        Ok(())
    }

    /// A thing that is there, to be read.
    pub fn at(&self, number: u32) -> &T
        requires { IsSet self.now.shelf.held number }
        ensures { (d : T) → result.now ≡ slice_index_or self.now.shelf.things number d }
    {
        let number = number as u64;
        self.rows[(number / ROW) as usize].at(number % ROW)
    }

    /// A thing that is there, to be changed.
    pub fn at_mut(&mut self, number: u32) -> &mut T
        requires { IsSet self.old.shelf.held number }
        ensures* writes_back { sem 𝓛 (lends_thing T.row self.entry number result) }
        ensures thing { (d : T) → result.now ≡ slice_index_or self.old.shelf.things number d }
    {
        let number = number as u64;
        let row = &mut self.rows[(number / ROW) as usize];
        row.at_mut(number % ROW)
    }

    /// In how many rows the things stand. No clause says it: it is asked for speed alone.
    pub fn rows(&self) -> u64 {
        self.rows.len() as u64
    }

    /// The things of a row that are there; none where there is no such row. No clause says which they are: by it a caller tells
    /// how much is there.
    pub fn row(&self, number: u64) -> Option<&[OnShelf<T>]> {
        match self.rows.get(number as usize) {
            Some(row) => Some(row.things()),
            None => None,
        }
    }

    /// Marks a thing that is there, and tells whether it was not marked before. A thing that is gone is not marked.
    pub fn mark(&mut self, number: u32) -> bool
        ensures shelf { self.new.shelf ≡ self.old.shelf }
        ensures marks { self.new.marks ≡ with_mark self.old.shelf.held self.old.marks number }
        ensures fresh { result ≡ (slice_index_or self.old.shelf.held number false
            && not (slice_index_or self.old.marks number false)) }
    {
        let number = number as u64;
        if number >= self.len {
            return false;
        }
        self.rows[(number / ROW) as usize].mark(number % ROW)
    }

    /// Takes all marks away.
    pub fn unmark(&mut self)
        ensures shelf { self.new.shelf ≡ self.old.shelf }
        ensures marks { self.new.marks ≡ all_unset self.old.shelf.held }
    {
        unmark_rows(&mut self.rows);
    }

    /// Gives back all things that are not marked.
    pub fn give_back(&mut self)
        ensures { self.new.shelf ≡ with_held self.old.shelf self.old.marks }
    {
        give_rows_back(self.alloc, &mut self.rows);
    }
}

// Adds a thing, in the last row or in a new one. The error is want of memory, and leaves the others as they were.
fn add_thing<T: Drop>(
    alloc: Global,
    rows: &mut Vec<ShelfRow<T>>,
    len: u64,
    thing: T,
) -> Result<(), AllocError>
    requires rows { AreInRows len rows.old.items }
    requires room { len + 1 < 2 ^ 63 }
    ensures rows { OnOk result (AreInRows (len + 1) rows.new.items) }
    ensures added { OnOk result ((shelf_seen rows.new.items).shelf
        ≡ with_new (shelf_seen rows.old.items).shelf thing) }
    ensures unchanged { OnErr result (rows.new.items ≡ rows.old.items) }
{
    if len % ROW == 0 {
        let row = ShelfRow::of_one(alloc, thing)?;
        rows.push(row)?;
        return Ok(());
    }
    let last = rows.len() - 1;
    rows[last].push(thing)
}

// Takes all marks away in all rows.
fn unmark_rows<T: Drop>(rows: &mut Vec<ShelfRow<T>>)
    ensures { rows.new.items ≡ map view_unmarked rows.old.items }
{
    for i in 0..rows.len() {
        rows[i].unmark();
    }
}

// Gives back in all rows what is not marked.
fn give_rows_back<T: Drop>(alloc: Global, rows: &mut Vec<ShelfRow<T>>)
    ensures { rows.new.items ≡ map view_given rows.old.items }
{
    for i in 0..rows.len() {
        rows[i].give_back(alloc);
    }
}
