// How many structures a heap has, and how many entries these have.
use crate::entries::Entries;
use crate::fields::{Fields, RecordShelf};
use crate::heap::Heap;
use crate::members::MemberMap;
use icn_structs::{Deque, OnShelf, Shelf};
use icn_value::Val;

// How many rows without structures are looked at in the time of one entry.
const ROWS_FOR_ENTRY: u64 = 4;

impl Heap {
    /// How many structures are there, with their items, members, pairs and fields: by it a caller tells what `collect` looks at.
    /// Rows of structures that are gone count as few. It takes no memory.
    pub fn held_entries(&self) -> u64 {
        let items = count_items(&self.lists);
        let members = count_members(&self.sets);
        let pairs = count_pairs(&self.tables);
        let fields = count_fields(&self.records);
        items
            .saturating_add(members)
            .saturating_add(pairs)
            .saturating_add(fields)
            .saturating_add(self.count_rows() / ROWS_FOR_ENTRY)
    }

    // In how many rows structures stand.
    fn count_rows(&self) -> u64 {
        self.lists
            .rows()
            .saturating_add(self.sets.rows())
            .saturating_add(self.tables.rows())
            .saturating_add(self.records.rows())
    }
}

// Lists, and their items.
fn count_items(lists: &Shelf<Deque<Val>>) -> u64 {
    let mut count: u64 = 0;
    for i in 0..lists.rows() {
        if let Some(row) = lists.row(i) {
            count = count.saturating_add(count_items_of_row(row));
        }
    }
    count
}

// The same of a row.
fn count_items_of_row(row: &[OnShelf<Deque<Val>>]) -> u64 {
    let mut count: u64 = 0;
    for kept in row {
        count = count.saturating_add(kept.thing.len()).saturating_add(1);
    }
    count
}

// Sets, and their members.
fn count_members(sets: &Shelf<MemberMap>) -> u64 {
    let mut count: u64 = 0;
    for i in 0..sets.rows() {
        if let Some(row) = sets.row(i) {
            count = count.saturating_add(count_members_of_row(row));
        }
    }
    count
}

// The same of a row.
fn count_members_of_row(row: &[OnShelf<MemberMap>]) -> u64 {
    let mut count: u64 = 0;
    for kept in row {
        count = count.saturating_add(kept.thing.len()).saturating_add(1);
    }
    count
}

// Tables, and their pairs.
fn count_pairs(tables: &Shelf<Entries>) -> u64 {
    let mut count: u64 = 0;
    for i in 0..tables.rows() {
        if let Some(row) = tables.row(i) {
            count = count.saturating_add(count_pairs_of_row(row));
        }
    }
    count
}

// The same of a row.
fn count_pairs_of_row(row: &[OnShelf<Entries>]) -> u64 {
    let mut count: u64 = 0;
    for kept in row {
        count = count
            .saturating_add(kept.thing.pairs.len())
            .saturating_add(1);
    }
    count
}

// Records, and their fields.
fn count_fields(records: &RecordShelf) -> u64 {
    let mut count: u64 = 0;
    for i in 0..records.rows() {
        if let Some(row) = records.row(i) {
            count = count.saturating_add(count_fields_of_row(row));
        }
    }
    count
}

// The same of a row.
fn count_fields_of_row(row: &[OnShelf<Fields>]) -> u64 {
    let mut count: u64 = 0;
    for kept in row {
        count = count.saturating_add(kept.thing.len()).saturating_add(1);
    }
    count
}
