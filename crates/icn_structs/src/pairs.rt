// Pairs of a key and a value, in the order in which the keys came.
ghost use Rattle.std.specs.Prelude.{◌≡◌, ◌<◌, ◌^◌, [], length, is_some, is_none, slice_get, IfOk, OnOk, OnErr};
ghost use Rattle.std.specs.Option.{option_map};
ghost use Rattle.icn_structs.specs.PairLists.{value_of, with_value_of, without, KeysDiffer};

use crate::turns::Turns;
use indexmap::IndexMap;
use std::alloc::{AllocError, Global};
use std::hash::Hash;
use std::marker::Model;

/// Pairs of a key and a value, in the order in which their keys came. No key stands twice.
///
/// Only `store` takes memory. A clause sees the list of the pairs.
#[derive(Drop)]
pub struct Pairs<K: Eq + Hash, V> {
    entries: IndexMap<K, V>,
    turns: Turns,
}

impl<K: Eq + Hash, V> Model for Pairs<K, V> {
    ghost use Rattle.std.specs.Prelude.{List};
    ghost use Rattle.icn_structs.specs.Turns.{in_order};
    ghost use Rattle.icn_structs.specs.TurnedPairs.{ArePaired};

    ghost Value = { List (K × V) };

    ghost view = { λ p. in_order p.entries.entries p.turns };

    ghost invariant = { λ p. ArePaired K.eq p.entries.entries p.turns };
}

impl<K: Eq + Hash + Drop, V: Copy> Pairs<K, V> {
    /// No pairs.
    pub fn new(alloc: Global) -> Pairs<K, V>
        ensures { result ≡ [] }
    {
        Pairs {
            entries: IndexMap::new(alloc),
            turns: Turns::new(alloc),
        }
    }

    /// The value at this key. `None` comes exactly where the key is not there.
    pub fn look(&self, k: &K) -> Option<V>
        ensures value { result ≡ value_of K.eq self.now k.now }
    {
        self.entries.get(k).copied()
    }

    /// Stores a value at a key. A key that is there stays, in its place, and takes the value. A new key goes last.
    ///
    /// The answer is whether the key is new. An error is want of memory, and the pairs are as they were.
    pub fn store(&mut self, k: K, v: V) -> Result<bool, AllocError>
        ensures new_key { IfOk result (λ is_new. is_new ≡ is_none (value_of K.eq self.old k)) }
        ensures pairs { OnOk result (self.new ≡ with_value_of K.eq self.old k v) }
        ensures keys_differ { KeysDiffer K.eq self.new }
        ensures unchanged { OnErr result (self.new ≡ self.old) }
    {
        if self.entries.insert(k, v)?.is_some() {
            return Ok(false);
        }
        match self.turns.add() {
            Ok(()) => Ok(true),
            Err(want) => {
                self.entries.pop();
                Err(want)
            }
        }
    }

    /// Removes the pair of this key, and answers whether there was one. The others keep their order.
    pub fn remove(&mut self, k: &K) -> bool
        ensures found { result ≡ is_some (value_of K.eq self.old k.now) }
        ensures pairs { self.new ≡ without K.eq self.old k.now }
        ensures keys_differ { KeysDiffer K.eq self.new }
    {
        match self.entries.get_index_of(k) {
            Some(number) => {
                self.entries.swap_remove_index(number);
                self.turns.remove(number);
                true
            }
            None => false,
        }
    }

    /// The pair at this place, counted from 0 in the order in which the keys came. `None` comes exactly where there is
    /// no such place.
    pub fn pair_at(&self, place: u64) -> Option<(&K, V)>
        ensures pair { option_map (λ pair. (pair.0.now, pair.1)) result ≡ slice_get self.now place }
    {
        let number = self.turns.at(place as usize)?;
        let (key, value) = self.entries.get_index(number)?;
        Some((key, *value))
    }

    /// How many pairs there are.
    pub fn len(&self) -> u64
        ensures count { result ≡ length self.now }
        ensures small { length self.now < 2 ^ 63 }
        ensures keys_differ { KeysDiffer K.eq self.now }
    {
        self.turns.len() as u64
    }
}
