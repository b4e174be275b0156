// The tables of a heap.
use crate::entries::{
    Entry, add_table, default_of, entry_at, entry_removed_at, entry_stored_at, pair_at, vals_found,
    value_found,
};
use crate::heap::Heap;
use crate::key::Key;
use icn_value::{Full, Val};
use std::alloc::AllocError;

impl Heap {
    ghost use Rattle.std.specs.Prelude.{◌≡◌, false, MatchResult, IfOk, IsOk, OnErr, OnOk, IfSome, is_some, slice_get, Ok};
    ghost use Rattle.std.specs.Option.{option_map};
    ghost use Rattle.icn_structs.specs.PairLists.{without};
    ghost use Rattle.icn_value.specs.declared.val.Val.TheVariants.{Table};
    ghost use Rattle.icn_value.specs.Sameness.{same};
    ghost use Rattle.icn_value.specs.Store.{table_at, with_table};
    ghost use Rattle.icn_value.specs.Changes.{made_table, next_table, value_at_key, stored_in, has_key, without_key, Refuses, LimitsFirst};
    ghost use Rattle.icn_heap.specs.Extents.{IsLive, value_in, values_in, KeepsValues};
    ghost use Rattle.icn_heap.specs.Keys.{key_value, IsKey};
    ghost use Rattle.icn_heap.specs.Texts.{is_text};
    ghost use Rattle.icn_heap.specs.Heaps.{extent_of, heap_of};

    /// Makes a table without pairs, with this value for keys that are not there. It costs a cell. The error is the limit
    /// that refuses the charge, or else want of memory; the heap is then as it was.
    #[tactic(auto, unfolding(crate::specs::Heaps::extent_of, crate::specs::Heaps::heap_of))]
    pub fn make_table(&mut self, default: Val) -> Result<Val, Full>
        requires { IsLive (extent_of self.old) default }
        ensures live { IfOk result (IsLive (extent_of self.new)) }
        ensures value { IfOk result
            (λ val. value_in (extent_of self.new) val ≡ next_table (heap_of self.old)) }
        ensures step { MatchResult result (λ _.
            made_table (heap_of self.old) (value_in (extent_of self.old) default) ≡ Ok (heap_of self.new))
            (Refuses (made_table (heap_of self.old) (value_in (extent_of self.old) default))) }
        ensures limits { LimitsFirst (made_table (heap_of self.old) (value_in (extent_of self.old) default))
            result }
        ensures kept { KeepsValues (extent_of self.old) (extent_of self.new) }
        ensures unchanged { OnErr result (heap_of self.new ≡ heap_of self.old) }
    {
        let sum = self.charged_sum(0)?;
        let id = self.tables.len() as u32;
        add_table(self.alloc, &mut self.tables, default)?;
        self.cells = sum;
        Ok(Val::Table(id))
    }

    /// The value at a key of a table. `None` comes exactly where the key is not there. The error is want of memory for a copy of a text.
    #[tactic(auto, unfolding(crate::specs::Heaps::extent_of))]
    pub fn look(&self, table: u32, key: Val) -> Result<Option<Val>, AllocError>
        requires table { IsLive (extent_of self.now) (Table table) }
        requires key { IsLive (extent_of self.now) key }
        ensures live { IfOk result (λ found. IfSome found (IsLive (extent_of self.now))) }
        ensures value { IfOk result (λ found. option_map (value_in (extent_of self.now)) found
            ≡ value_at_key (heap_of self.now) table (value_in (extent_of self.now) key)) }
        ensures succeeds { is_text key ≡ false → IsOk result }
    {
        let held = self.key_of(key)?;
        Ok(self.value_at(table, &held))
    }

    /// The value of the keys that a table does not have. It takes no memory.
    #[tactic(auto, unfolding(crate::specs::Heaps::extent_of))]
    pub fn default(&self, table: u32) -> Val
        requires { IsLive (extent_of self.now) (Table table) }
        ensures live { IsLive (extent_of self.now) result }
        ensures value { value_in (extent_of self.now) result ≡ (table_at (heap_of self.now) table).default }
    {
        default_of(&self.tables, table)
    }

    /// The key and the value of the pair at a place of a table, counted from 0 in the order in which the keys came. `None` comes exactly
    /// where there is no such place. It takes no memory.
    #[tactic(auto, unfolding(crate::specs::Heaps::extent_of))]
    pub fn pair_at(&self, table: u32, place: u64) -> Option<(Val, Val)>
        requires { IsLive (extent_of self.now) (Table table) }
        ensures pair { option_map (values_in (extent_of self.now)) result
            ≡ slice_get (table_at (heap_of self.now) table).pairs place }
        ensures live_key { IfSome result (λ pair. IsLive (extent_of self.now) pair.0) }
        ensures live_value { IfSome result (λ pair. IsLive (extent_of self.now) pair.1) }
    {
        vals_found(pair_at(&self.tables, table, place))
    }

    /// Stores a value at a key of a table. A key that is there keeps its place. A new one goes last, and costs a cell. A text is copied
    /// before the limit is looked at. The error is the limit that refuses the charge, or want of memory; the heap is then as
    /// it was.
    #[tactic(auto, unfolding(crate::specs::Heaps::extent_of, crate::specs::Heaps::heap_of))]
    pub fn store(&mut self, table: u32, key: Val, val: Val) -> Result<(), Full>
        requires table { IsLive (extent_of self.old) (Table table) }
        requires key { IsLive (extent_of self.old) key }
        requires live { IsLive (extent_of self.old) val }
        ensures step { MatchResult result (λ _. stored_in (heap_of self.old) table
            (value_in (extent_of self.old) key) (value_in (extent_of self.old) val) ≡ Ok (heap_of self.new))
            (Refuses (stored_in (heap_of self.old) table (value_in (extent_of self.old) key)
            (value_in (extent_of self.old) val))) }
        ensures limits { is_text key ≡ false → LimitsFirst (stored_in (heap_of self.old) table
            (value_in (extent_of self.old) key) (value_in (extent_of self.old) val)) result }
        ensures kept { KeepsValues (extent_of self.old) (extent_of self.new) }
        ensures unchanged { OnErr result (heap_of self.new ≡ heap_of self.old) }
    {
        let held = self.key_of(key)?;
        let sum = self.paid_unless(self.has_key(table, &held))?;
        entry_stored_at(&mut self.tables, table, held, Entry { key, value: val })?;
        self.cells = sum;
        Ok(())
    }

    /// Removes a member of a set or a key of a table, and answers whether it was there. The others keep their order, and nothing is given
    /// back. Of another value nothing is removed. The error is want of memory for a copy of a text, and nothing is removed then.
    pub fn remove(&mut self, from: Val, key: Val) -> Result<bool, AllocError>
        requires from { IsLive (extent_of self.old) from }
        requires key { IsLive (extent_of self.old) key }
        ensures found { IfOk result (λ found. found ≡ has_key (heap_of self.old)
            (value_in (extent_of self.old) from) (value_in (extent_of self.old) key)) }
        ensures step { OnOk result (heap_of self.new ≡ without_key (value_in (extent_of self.old) from)
            (value_in (extent_of self.old) key) (heap_of self.old)) }
        ensures succeeds { is_text key ≡ false → IsOk result }
        ensures kept { KeepsValues (extent_of self.old) (extent_of self.new) }
        ensures unchanged { OnErr result (heap_of self.new ≡ heap_of self.old) }
    {
        let held = self.key_of(key)?;
        match from {
            Val::Set(id) => Ok(self.remove_member(id, &held)),
            Val::Table(id) => Ok(self.remove_pair(id, &held)),
            _ => Ok(false),
        }
    }

    // The value at a key.
    #[tactic(auto, unfolding(crate::specs::Heaps::extent_of))]
    fn value_at(&self, table: u32, key: &Key) -> Option<Val>
        requires table { IsLive (extent_of self.now) (Table table) }
        requires formed { IsKey key.now }
        ensures live { IfSome result (IsLive (extent_of self.now)) }
        ensures value { option_map (value_in (extent_of self.now)) result
            ≡ value_at_key (heap_of self.now) table (key_value key.now) }
    {
        value_found(entry_at(&self.tables, table, key))
    }

    // Whether a table has a key.
    #[tactic(auto, unfolding(crate::specs::Heaps::extent_of))]
    fn has_key(&self, table: u32, key: &Key) -> bool
        requires table { IsLive (extent_of self.now) (Table table) }
        requires formed { IsKey key.now }
        ensures { result ≡ is_some (value_at_key (heap_of self.now) table (key_value key.now)) }
    {
        self.value_at(table, key).is_some()
    }

    // Removes the pair of this key, and answers whether there was one.
    #[tactic(auto, unfolding(crate::specs::Heaps::extent_of))]
    fn remove_pair(&mut self, table: u32, key: &Key) -> bool
        requires table { IsLive (extent_of self.old) (Table table) }
        requires formed { IsKey key.now }
        ensures found { result ≡ is_some (value_at_key (heap_of self.old) table (key_value key.now)) }
        ensures step { heap_of self.new ≡ with_table table (record (table_at (heap_of self.old)
            table) { pairs = without same (table_at (heap_of self.old) table).pairs (key_value key.now) })
            (heap_of self.old) }
        ensures kept { KeepsValues (extent_of self.old) (extent_of self.new) }
    {
        entry_removed_at(&mut self.tables, table, key)
    }
}
