// The kinds of records, in rows.
ghost use Rattle.std.specs.Prelude.{◌≡◌, ℕ, ◌+◌, ◌<◌, ◌++◌, List, [], ◌∷◌, length, slice_index_or, OnOk, OnErr};

use std::alloc::{AllocError, Global};
use std::marker::Model;

// How many kinds a row has.
const ROW: u64 = 128;

// The kinds of a row: as many of one kind as come first, and then others.
#[derive(Drop)]
struct KindRow {
    kind: u16,
    count: u8,
    others: Vec<u16>,
}

impl Model for KindRow {
    ghost use Rattle.std.specs.Prelude.{ℕ, List};
    ghost use Rattle.icn_heap.specs.KindRows.{row_kinds, IsKindRow};

    ghost Value = { List ℕ };

    ghost view = { λ r. row_kinds r.kind r.count r.others.items };

    ghost invariant = { λ r. IsKindRow (row_kinds r.kind r.count r.others.items) };
}

impl KindRow {
    // A row of one kind.
    fn of_one(alloc: Global, kind: u16) -> KindRow
        ensures { result ≡ kind ∷ [] }
    {
        KindRow {
            kind,
            count: 1,
            others: Vec::new(alloc),
        }
    }

    // How many kinds there are.
    fn len(&self) -> u64
        ensures { result ≡ length self.now }
    {
        u64::from(self.count) + self.others.len() as u64
    }

    // The kind at a place, counted from 0.
    fn at(&self, place: u64) -> u16
        requires { place < length self.now }
        ensures { result ≡ slice_index_or self.now place 0 }
    {
        let count = u64::from(self.count);
        if place < count {
            return self.kind;
        }
        self.others[(place - count) as usize]
    }

    // Adds a kind. A place must be free. `AllocError` is want of memory, and all is as it was then.
    fn push(&mut self, kind: u16) -> Result<(), AllocError>
        requires { length self.old < 128 }
        ensures ok { OnOk result (self.new ≡ self.old ++ kind ∷ []) }
        ensures err { OnErr result (self.new ≡ self.old) }
    {
        if kind == self.kind && self.others.is_empty() {
            self.count += 1;
        } else {
            self.others.push(kind)?;
        }
        Ok(())
    }

    // Takes the last kind away. There must be one.
    fn pop(&mut self)
        requires { 0 < length self.old }
        ensures rest { (kinds : List ℕ) → (kind : ℕ) → self.old ≡ kinds ++ kind ∷ [] → self.new ≡ kinds }
        ensures count { length self.new + 1 ≡ length self.old }
    {
        if self.others.pop().is_none() {
            self.count -= 1;
        }
    }
}

/// The kinds of records, one for each that was ever made. A row of 128 that are of one kind takes no more memory than one number
/// does.
#[derive(Drop)]
pub struct RecordKinds {
    rows: Vec<KindRow>,
}

impl Model for RecordKinds {
    ghost use Rattle.std.specs.Prelude.{ℕ, List};
    ghost use Rattle.icn_heap.specs.KindRows.{all_kinds, AreKindRows};

    ghost Value = { List ℕ };

    ghost view = { λ k. all_kinds k.rows.items };

    ghost invariant = { λ k. AreKindRows k.rows.items };
}

impl RecordKinds {
    /// No kinds. It takes no memory until one comes.
    pub fn new(alloc: Global) -> RecordKinds
        ensures { result ≡ [] }
    {
        RecordKinds {
            rows: Vec::new(alloc),
        }
    }

    /// Adds a kind behind the others. `AllocError` is want of memory, and all is as it was then.
    pub fn push(&mut self, alloc: Global, kind: u16) -> Result<(), AllocError>
        ensures ok { OnOk result (self.new ≡ self.old ++ kind ∷ []) }
        ensures err { OnErr result (self.new ≡ self.old) }
    {
        let count = self.rows.len();
        if count > 0 && self.rows[count - 1].len() < ROW {
            self.rows[count - 1].push(kind)
        } else {
            self.rows.push(KindRow::of_one(alloc, kind))?;
            Ok(())
        }
    }

    /// Takes the last kind away. There must be one.
    pub fn pop(&mut self)
        requires { 0 < length self.old }
        ensures { (kinds : List ℕ) → (kind : ℕ) → self.old ≡ kinds ++ kind ∷ [] → self.new ≡ kinds }
    {
        let last = self.rows.len() - 1;
        if self.rows[last].len() == 1 {
            self.rows.truncate(last);
        } else {
            self.rows[last].pop();
        }
    }

    /// The kind of this number, counted from 0.
    pub fn at(&self, n: u64) -> u16
        requires { n < length self.now }
        ensures { result ≡ slice_index_or self.now n 0 }
    {
        self.rows[(n / ROW) as usize].at(n % ROW)
    }
}
