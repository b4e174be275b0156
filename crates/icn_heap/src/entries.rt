// Tables as a heap holds them, and one table among others that changes.
ghost use Rattle.std.specs.Prelude.{◌≡◌, ◌<◌, ◌^◌, [], OnOk, OnErr, slice_get, slice_index_or, length, is_some};
ghost use Rattle.std.specs.Option.{option_map, option_to_list};
ghost use Rattle.icn_structs.specs.Shelves.{IsSet, with_new, with_other};
ghost use Rattle.icn_structs.specs.PairLists.{value_of, with_value_of, without, KeysDiffer};
ghost use Rattle.icn_heap.specs.KeyTests.{key_eq};
ghost use Rattle.std.specs.List.{flat_map};
ghost use Rattle.icn_heap.specs.ElementValues.{entry_both, pair_vals, table_vals};
ghost use Rattle.icn_heap.specs.NeededValues.{AreNeeded};
ghost use Rattle.icn_heap.specs.HeapParts.{no_entries, entry_of, entry_value, entry_vals, table_with, table_without};

use crate::key::Key;
use crate::needed_values::NeededValues;
use icn_structs::{Pairs, Shelf};
use icn_value::Val;
use std::alloc::{AllocError, Global};

/// The key and the value of a pair.
#[derive(Clone, Copy, Debug)]
pub struct Entry {
    /// The key, as it came last.
    pub key: Val,
    /// Its value.
    pub value: Val,
}

/// A table.
#[derive(Drop)]
pub struct Entries {
    /// The value of a key that is not there.
    pub default: Val,
    /// The pairs.
    pub pairs: Pairs<Key, Entry>,
}

/// Adds a table without pairs, with this default. `AllocError` is want of memory, and all is as it was then.
pub fn add_table(alloc: Global, tables: &mut Shelf<Entries>, default: Val) -> Result<(), AllocError>
    ensures ok { OnOk result
        (tables.new.shelf ≡ with_new tables.old.shelf (record { default = default; pairs = [] })) }
    ensures err { OnErr result (tables.new.shelf ≡ tables.old.shelf) }
{
    tables.push(Entries {
        default,
        pairs: Pairs::new(alloc),
    })?;
    Ok(())
}

/// Adds a table behind the others. `AllocError` is want of memory, and all is as it was then.
pub fn add_entries(tables: &mut Shelf<Entries>, table: Entries) -> Result<(), AllocError>
    ensures ok { OnOk result (tables.new.shelf ≡ with_new tables.old.shelf table) }
    ensures err { OnErr result (tables.new.shelf ≡ tables.old.shelf) }
{
    tables.push(table)?;
    Ok(())
}

/// Stores a pair under its key among others: a key that is there keeps its place. `AllocError` is want of memory.
#[tactic(auto, using(crate::proofs::KeyTests::same_tests))]
pub fn join_entry(pairs: &mut Pairs<Key, Entry>, key: Key, entry: Entry) -> Result<(), AllocError>
    ensures { OnOk result (pairs.new ≡ with_value_of key_eq pairs.old key entry) }
{
    pairs.store(key, entry)?;
    Ok(())
}

/// The pair of a key of a table. `None` comes exactly where the key is not there.
#[tactic(auto, using(crate::proofs::KeyTests::same_tests))]
pub fn entry_at(tables: &Shelf<Entries>, table: u32, key: &Key) -> Option<Entry>
    requires { IsSet tables.now.shelf.held table }
    ensures { result ≡ value_of key_eq
        (slice_index_or tables.now.shelf.things table no_entries).pairs key.now }
{
    tables.at(table).pairs.look(key)
}

/// The value of a pair that was found, or `None` where none was.
pub fn value_found(found: Option<Entry>) -> Option<Val>
    ensures { result ≡ option_map entry_value found }
{
    Some(found?.value)
}

/// The key and the value of a pair that was found, or `None` where none was.
pub fn vals_found(found: Option<Entry>) -> Option<(Val, Val)>
    ensures { result ≡ option_map entry_vals found }
{
    let entry = found?;
    Some((entry.key, entry.value))
}

/// Stores a pair under its key in a table. `AllocError` is want of memory, and all is as it was then.
#[tactic(auto, using(crate::proofs::KeyTests::same_tests))]
pub fn entry_stored_at(
    tables: &mut Shelf<Entries>,
    table: u32,
    key: Key,
    entry: Entry,
) -> Result<(), AllocError>
    requires { IsSet tables.old.shelf.held table }
    ensures ok { OnOk result (tables.new.shelf ≡ with_other tables.old.shelf table
        (table_with (slice_index_or tables.old.shelf.things table no_entries) key entry)) }
    ensures err { OnErr result (tables.new.shelf ≡ tables.old.shelf) }
{
    tables.at_mut(table).pairs.store(key, entry)?;
    Ok(())
}

/// The pair at a place of a table, counted from 0. `None` comes exactly where there is no such place.
pub fn pair_at(tables: &Shelf<Entries>, table: u32, place: u64) -> Option<Entry>
    requires { IsSet tables.now.shelf.held table }
    ensures { result
        ≡ option_map entry_of
        (slice_get (slice_index_or tables.now.shelf.things table no_entries).pairs place) }
{
    let (_, entry) = tables.at(table).pairs.pair_at(place)?;
    Some(entry)
}

/// Removes the pair of this key, and answers whether there was one.
#[tactic(auto, using(crate::proofs::KeyTests::same_tests))]
pub fn entry_removed_at(tables: &mut Shelf<Entries>, table: u32, key: &Key) -> bool
    requires { IsSet tables.old.shelf.held table }
    ensures found { result
        ≡ is_some (value_of key_eq (slice_index_or tables.old.shelf.things table no_entries).pairs key.now) }
    ensures pairs { tables.new.shelf ≡ with_other tables.old.shelf table
        (table_without (slice_index_or tables.old.shelf.things table no_entries) key.now) }
{
    tables.at_mut(table).pairs.remove(key)
}

/// The value of the keys that a table does not have.
pub fn default_of(tables: &Shelf<Entries>, table: u32) -> Val
    requires { IsSet tables.now.shelf.held table }
    ensures { result ≡ (slice_index_or tables.now.shelf.things table no_entries).default }
{
    tables.at(table).default
}

/// How many pairs a table has.
pub fn count_of(tables: &Shelf<Entries>, table: u32) -> u64
    requires { IsSet tables.now.shelf.held table }
    ensures count { result ≡ length (slice_index_or tables.now.shelf.things table no_entries).pairs }
    ensures small { result < 2 ^ 63 }
{
    tables.at(table).pairs.len()
}

/// No pair of a table has the key of another. A call does nothing: it tells a caller's proof so.
#[tactic(auto, using(crate::proofs::KeyTests::same_tests))]
pub fn keys_of_pairs_differ(tables: &Shelf<Entries>, table: u32)
    requires { IsSet tables.now.shelf.held table }
    ensures { KeysDiffer key_eq (slice_index_or tables.now.shelf.things table no_entries).pairs }
{
    let _count = tables.at(table).pairs.len();
}

/// Adds the default, the keys and the values of a table, which are to stay. `AllocError` is want of memory.
pub fn add_table_values(table: &Entries, needed: &mut NeededValues) -> Result<(), AllocError>
    ensures { OnOk result (AreNeeded needed.old needed.new (table_vals table.now)) }
{
    needed.add(table.default)?;
    add_pairs(&table.pairs, needed)?;
    Ok(())
}

// Adds the keys and the values of the pairs of a table.
fn add_pairs(pairs: &Pairs<Key, Entry>, needed: &mut NeededValues) -> Result<(), AllocError>
    ensures { OnOk result (AreNeeded needed.old needed.new (flat_map pair_vals pairs.now)) }
{
    for place in 0..pairs.len() {
        add_entry(entry_in(pairs, place), needed)?;
    }
    Ok(())
}

// The entry at a place, counted from 0. `None` comes exactly where there is no such place.
fn entry_in(pairs: &Pairs<Key, Entry>, place: u64) -> Option<Entry>
    ensures { result ≡ option_map entry_of (slice_get pairs.now place) }
{
    let (_, entry) = pairs.pair_at(place)?;
    Some(entry)
}

// Adds the key and the value of an entry, if there is one.
#[tactic(auto, using(crate::proofs::NeededSteps::needed_none, crate::proofs::NeededSteps::needed_some))]
fn add_entry(entry: Option<Entry>, needed: &mut NeededValues) -> Result<(), AllocError>
    ensures { OnOk result (AreNeeded needed.old needed.new (flat_map entry_both (option_to_list entry))) }
{
    match entry {
        Some(entry) => add_both(entry, needed),
        None => Ok(()),
    }
}

// Adds the key and the value of an entry.
fn add_both(entry: Entry, needed: &mut NeededValues) -> Result<(), AllocError>
    ensures { OnOk result (AreNeeded needed.old needed.new (entry_both entry)) }
{
    needed.add(entry.key)?;
    needed.add(entry.value)?;
    Ok(())
}
