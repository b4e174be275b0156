// Records as a heap holds them, and one record among others that changes.
ghost use Rattle.std.specs.Prelude.{◌≡◌, ◌<◌, ◌^◌, not, false, ◌&&◌, OnOk, OnErr, IfOk, slice_set, slice_index_or, length};
ghost use Rattle.icn_structs.specs.Shelves.{IsSet, all_unset, no_things, with_held, with_mark, with_new, with_other};
ghost use Rattle.icn_value.specs.declared.val.Val.TheVariants.{Null};
ghost use Rattle.icn_heap.specs.Records.{held_record, no_fields};

use crate::kinds::RecordKinds;
use icn_structs::{OnShelf, Shelf};
use icn_value::Val;
use std::alloc::{AllocError, Global};
use std::marker::Model;

/// A record.
#[derive(Drop)]
pub struct Fields {
    kind: u16,
    values: Vec<Val>,
}

impl Model for Fields {
    ghost use Rattle.icn_heap.specs.Records.{HeldRecord, held_record};

    ghost Value = { HeldRecord };

    ghost view = { λ f. held_record f.kind f.values.items };
}

impl Fields {
    // A record of these values.
    fn new(alloc: Global, kind: u16, values: &[Val]) -> Result<Fields, AllocError>
        ensures { IfOk result (λ fields. fields ≡ held_record kind values.now) }
    {
        Ok(Fields {
            kind,
            values: Vec::from_slice(alloc, values)?,
        })
    }

    /// The number of its constructor among all constructors.
    pub fn kind(&self) -> u16
        ensures { result ≡ self.now.kind }
    {
        self.kind
    }

    /// The value of a field, by its place from 0 on.
    pub fn get(&self, n: u16) -> Val
        requires { n < length self.now.values }
        ensures { result ≡ slice_index_or self.now.values n Null }
    {
        self.values[n as usize]
    }

    /// The values of the fields, in the order of their places.
    pub fn values(&self) -> &[Val]
        ensures { result.now ≡ self.now.values }
    {
        &self.values
    }

    // Gives a field another value.
    fn set(&mut self, n: u16, val: Val)
        requires { n < length self.old.values }
        ensures { self.new ≡ held_record self.old.kind (slice_set self.old.values n val) }
    {
        self.values[n as usize] = val;
    }

    /// How many fields there are.
    pub fn len(&self) -> u64
        ensures count { result ≡ length self.now.values }
        ensures small { result < 2 ^ 63 }
    {
        self.values.len() as u64
    }
}

/// The records of a heap, and the kind of each that was ever made, also of those that are gone: the number in the image of a
/// record counts them.
#[derive(Drop)]
pub struct RecordShelf {
    shelf: Shelf<Fields>,
    kinds: RecordKinds,
}

impl Model for RecordShelf {
    ghost use Rattle.icn_structs.specs.Shelves.{ShelfView};
    ghost use Rattle.icn_heap.specs.Records.{HeldRecord, AreKindsOf};

    ghost Value = { ShelfView HeldRecord };

    ghost view = { λ r. r.shelf };

    ghost invariant = { λ r. AreKindsOf r.shelf.shelf r.kinds };
}

impl RecordShelf {
    /// No records. It takes no memory until one is made.
    pub fn new(alloc: Global) -> RecordShelf
        ensures { result.shelf ≡ no_things }
    {
        RecordShelf {
            shelf: Shelf::new(alloc),
            kinds: RecordKinds::new(alloc),
        }
    }

    /// Adds a record of these values. `AllocError` is want of memory, and all is as it was then.
    pub fn add(&mut self, alloc: Global, kind: u16, values: &[Val]) -> Result<(), AllocError>
        ensures ok { OnOk result (self.new.shelf ≡ with_new self.old.shelf (held_record kind values.now)) }
        ensures err { OnErr result (self.new.shelf ≡ self.old.shelf) }
    {
        let fields = Fields::new(alloc, kind, values)?;
        self.kinds.push(alloc, kind)?;
        match self.shelf.push(fields) {
            Ok(()) => Ok(()),
            Err(want) => {
                self.kinds.pop();
                Err(want)
            }
        }
    }

    /// Gives a field of a record another value.
    pub fn set_field(&mut self, rec: u32, n: u16, val: Val)
        requires there { IsSet self.old.shelf.held rec }
        requires field { n < length (slice_index_or self.old.shelf.things rec no_fields).values }
        ensures { self.new.shelf
            ≡ with_other self.old.shelf rec
            (held_record (slice_index_or self.old.shelf.things rec no_fields).kind
            (slice_set (slice_index_or self.old.shelf.things rec no_fields).values n val)) }
    {
        self.shelf.at_mut(rec).set(n, val);
    }

    /// The record of this number, to be read.
    pub fn at(&self, rec: u32) -> &Fields
        requires { IsSet self.now.shelf.held rec }
        ensures { result.now ≡ slice_index_or self.now.shelf.things rec no_fields }
    {
        self.shelf.at(rec)
    }

    /// The kind of a record that was ever made.
    pub fn kind(&self, rec: u32) -> u16
        requires { rec < length self.now.shelf.things }
        ensures { result ≡ (slice_index_or self.now.shelf.things rec no_fields).kind }
    {
        self.kinds.at(u64::from(rec))
    }

    /// How many records were ever made.
    pub fn len(&self) -> u64
        ensures count { result ≡ length self.now.shelf.things }
        ensures small { result < 2 ^ 63 }
    {
        self.shelf.len()
    }

    /// In how many rows the records stand. No clause says it: it is asked for speed alone.
    pub fn rows(&self) -> u64 {
        self.shelf.rows()
    }

    /// The records of a row that are there; none where there is no such row. No clause says which: they are asked for speed alone.
    pub fn row(&self, number: u64) -> Option<&[OnShelf<Fields>]> {
        self.shelf.row(number)
    }

    /// Marks a record that is there, and tells whether it was not marked before.
    pub fn mark(&mut self, rec: u32) -> bool
        ensures shelf { self.new.shelf ≡ self.old.shelf }
        ensures marks { self.new.marks ≡ with_mark self.old.shelf.held self.old.marks rec }
        ensures fresh { result ≡ (slice_index_or self.old.shelf.held rec false
            && not (slice_index_or self.old.marks rec false)) }
    {
        self.shelf.mark(rec)
    }

    /// Takes all marks away.
    pub fn unmark(&mut self)
        ensures shelf { self.new.shelf ≡ self.old.shelf }
        ensures marks { self.new.marks ≡ all_unset self.old.shelf.held }
    {
        self.shelf.unmark();
    }

    /// Gives back all records that are not marked.
    pub fn give_back(&mut self)
        ensures { self.new.shelf ≡ with_held self.old.shelf self.old.marks }
    {
        self.shelf.give_back();
    }
}
