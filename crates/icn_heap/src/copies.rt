// Sets and tables that are made with their elements.
use crate::entries::{Entries, Entry, add_entries, join_entry};
use crate::heap::Heap;
use crate::heap_laws::{keys_differ, members_differ};
use crate::key::Key;
use crate::members::{MemberMap, add_members, join_member};
use icn_structs::Pairs;
use icn_value::{Full, Val};
use std::alloc::AllocError;

impl Heap {
    ghost use Rattle.std.specs.Prelude.{◌≡◌, ◌++◌, [], map, fold, filter, MatchResult, IfOk, OnErr, Ok};
    ghost use Rattle.std.specs.List.{All};
    ghost use Rattle.icn_value.specs.declared.val.Val.TheVariants.{Set, Table};
    ghost use Rattle.icn_value.specs.Sameness.{with_member};
    ghost use Rattle.icn_value.specs.Store.{set_at, table_at};
    ghost use Rattle.icn_value.specs.Changes.{next_set, next_table, Refuses, LimitsFirst};
    ghost use Rattle.icn_heap.specs.Extents.{IsLive, AreLive, value_in, values_in, KeepsValues};
    ghost use Rattle.icn_heap.specs.MadeStructures.{made_set_of, made_table_of, stands, intersection, difference, with_stored};
    ghost use Rattle.icn_heap.specs.HeapParts.{set_in, table_in, pair_in, IsSoundMember, IsSoundPair, IsSoundTable};
    ghost use Rattle.icn_heap.specs.Heaps.{extent_of, heap_of};

    /// Makes a set of these values, each of them once, in the order in which they first come. It costs a cell, and one more for each member.
    /// The members are gathered before the limit is looked at. The error is the limit that refuses the charge, or want of
    /// memory; the heap is then as it was.
    #[tactic(auto, unfolding(crate::specs::Heaps::extent_of, crate::specs::Heaps::heap_of))]
    pub fn set_from(&mut self, vals: &[Val]) -> Result<Val, Full>
        requires { All (IsLive (extent_of self.old)) vals.now }
        ensures live { IfOk result (IsLive (extent_of self.new)) }
        ensures value { IfOk result (λ val. value_in (extent_of self.new) val ≡ next_set (heap_of self.old)) }
        ensures step { MatchResult result (λ _. made_set_of (heap_of self.old) (fold with_member []
            (map (value_in (extent_of self.old)) vals.now)) ≡ Ok (heap_of self.new)) (Refuses (made_set_of
            (heap_of self.old) (fold with_member [] (map (value_in (extent_of self.old)) vals.now)))) }
        ensures kept { KeepsValues (extent_of self.old) (extent_of self.new) }
        ensures unchanged { OnErr result (heap_of self.new ≡ heap_of self.old) }
    {
        let members = self.members_from(vals)?;
        let sum = self.charged_sum(members.len())?;
        let id = self.sets.len() as u32;
        add_members(&mut self.sets, members)?;
        self.cells = sum;
        Ok(Val::Set(id))
    }

    /// Makes a set of the members of a set. It costs a cell, and one more for each member. The error is the limit that
    /// refuses the charge, or else want of memory; the heap is then as it was.
    #[tactic(auto, unfolding(crate::specs::Heaps::extent_of, crate::specs::Heaps::heap_of))]
    pub fn copy_set(&mut self, set: u32) -> Result<Val, Full>
        requires { IsLive (extent_of self.old) (Set set) }
        ensures live { IfOk result (IsLive (extent_of self.new)) }
        ensures value { IfOk result (λ val. value_in (extent_of self.new) val ≡ next_set (heap_of self.old)) }
        ensures step { MatchResult result
            (λ _. made_set_of (heap_of self.old) (set_at (heap_of self.old) set) ≡ Ok (heap_of self.new))
            (Refuses (made_set_of (heap_of self.old) (set_at (heap_of self.old) set))) }
        ensures limits { LimitsFirst (made_set_of (heap_of self.old) (set_at (heap_of self.old) set)) result }
        ensures kept { KeepsValues (extent_of self.old) (extent_of self.new) }
        ensures unchanged { OnErr result (heap_of self.new ≡ heap_of self.old) }
    {
        let sum = self.charged_sum(self.member_count(set))?;
        let members = self.members_like(set)?;
        let id = self.sets.len() as u32;
        add_members(&mut self.sets, members)?;
        self.cells = sum;
        Ok(Val::Set(id))
    }

    /// Makes a set of the members of one set, and behind them those of another that are new. It costs a cell, and one more for each member.
    /// The members are gathered before the limit is looked at. The error is the limit that refuses the charge, or want of
    /// memory; the heap is then as it was.
    pub fn union(&mut self, first: u32, second: u32) -> Result<Val, Full>
        requires first { IsLive (extent_of self.old) (Set first) }
        requires second { IsLive (extent_of self.old) (Set second) }
        ensures live { IfOk result (IsLive (extent_of self.new)) }
        ensures value { IfOk result (λ val. value_in (extent_of self.new) val ≡ next_set (heap_of self.old)) }
        ensures step { MatchResult result (λ _. made_set_of (heap_of self.old) (set_at (heap_of self.old)
            first ++ difference (set_at (heap_of self.old) second) (set_at (heap_of self.old) first))
            ≡ Ok (heap_of self.new)) (Refuses (made_set_of (heap_of self.old) (set_at (heap_of self.old) first
            ++ difference (set_at (heap_of self.old) second) (set_at (heap_of self.old) first)))) }
        ensures kept { KeepsValues (extent_of self.old) (extent_of self.new) }
        ensures unchanged { OnErr result (heap_of self.new ≡ heap_of self.old) }
    {
        members_differ(self, first);
        members_differ(self, second);
        let mut members = self.members(first)?;
        let others = self.members(second)?;
        members.extend_from_slice(&others)?;
        self.set_from(&members)
    }

    /// Makes a set of the members of one set that are not in another. It costs a cell, and one more for each member. The members are
    /// gathered before the limit is looked at. The error is the limit that refuses the charge, or want of memory; the heap
    /// is then as it was.
    pub fn difference(&mut self, first: u32, second: u32) -> Result<Val, Full>
        requires first { IsLive (extent_of self.old) (Set first) }
        requires second { IsLive (extent_of self.old) (Set second) }
        ensures live { IfOk result (IsLive (extent_of self.new)) }
        ensures value { IfOk result (λ val. value_in (extent_of self.new) val ≡ next_set (heap_of self.old)) }
        ensures step { MatchResult result (λ _. made_set_of (heap_of self.old)
            (difference (set_at (heap_of self.old) first) (set_at (heap_of self.old) second))
            ≡ Ok (heap_of self.new)) (Refuses (made_set_of (heap_of self.old)
            (difference (set_at (heap_of self.old) first) (set_at (heap_of self.old) second)))) }
        ensures kept { KeepsValues (extent_of self.old) (extent_of self.new) }
        ensures unchanged { OnErr result (heap_of self.new ≡ heap_of self.old) }
    {
        members_differ(self, first);
        let members = self.members_standing(first, second, false)?;
        self.set_from(&members)
    }

    /// Makes a set of the members of one set that are in another. It costs a cell, and one more for each member. The members are gathered
    /// before the limit is looked at. The error is the limit that refuses the charge, or want of memory; the heap is then as
    /// it was.
    pub fn intersection(&mut self, first: u32, second: u32) -> Result<Val, Full>
        requires first { IsLive (extent_of self.old) (Set first) }
        requires second { IsLive (extent_of self.old) (Set second) }
        ensures live { IfOk result (IsLive (extent_of self.new)) }
        ensures value { IfOk result (λ val. value_in (extent_of self.new) val ≡ next_set (heap_of self.old)) }
        ensures step { MatchResult result (λ _. made_set_of (heap_of self.old)
            (intersection (set_at (heap_of self.old) first) (set_at (heap_of self.old) second))
            ≡ Ok (heap_of self.new)) (Refuses (made_set_of (heap_of self.old)
            (intersection (set_at (heap_of self.old) first) (set_at (heap_of self.old) second)))) }
        ensures kept { KeepsValues (extent_of self.old) (extent_of self.new) }
        ensures unchanged { OnErr result (heap_of self.new ≡ heap_of self.old) }
    {
        members_differ(self, first);
        let members = self.members_standing(first, second, true)?;
        self.set_from(&members)
    }

    /// Makes a table with the pairs and the default of a table. It costs a cell, and one more for each pair.
    #[tactic(auto, unfolding(crate::specs::Heaps::extent_of, crate::specs::Heaps::heap_of))]
    pub fn copy_table(&mut self, table: u32) -> Result<Val, Full>
        requires { IsLive (extent_of self.old) (Table table) }
        ensures live { IfOk result (IsLive (extent_of self.new)) }
        ensures value { IfOk result
            (λ val. value_in (extent_of self.new) val ≡ next_table (heap_of self.old)) }
        ensures step { MatchResult result (λ _.
            made_table_of (heap_of self.old) (table_at (heap_of self.old) table) ≡ Ok (heap_of self.new))
            (Refuses (made_table_of (heap_of self.old) (table_at (heap_of self.old) table))) }
        ensures limits { LimitsFirst (made_table_of (heap_of self.old) (table_at (heap_of self.old) table))
            result }
        ensures kept { KeepsValues (extent_of self.old) (extent_of self.new) }
        ensures unchanged { OnErr result (heap_of self.new ≡ heap_of self.old) }
    {
        let sum = self.charged_sum(self.pair_count(table))?;
        let entries = self.entries_like(table)?;
        let id = self.tables.len() as u32;
        add_entries(&mut self.tables, entries)?;
        self.cells = sum;
        Ok(Val::Table(id))
    }

    // These values as the members of a set.
    fn members_from(&self, vals: &[Val]) -> Result<MemberMap, AllocError>
        requires { All (IsLive (extent_of self.now)) vals.now }
        ensures members { IfOk result
            (λ members. set_in members ≡ fold with_member [] (map (value_in (extent_of self.now)) vals.now)) }
        ensures sound { IfOk result (All (IsSoundMember (extent_of self.now))) }
    {
        let mut members = Pairs::new(self.alloc);
        for val in vals {
            let key = self.key_of(*val)?;
            join_member(&mut members, key, *val)?;
        }
        Ok(members)
    }

    // The members of a set, as those of another.
    fn members_like(&self, set: u32) -> Result<MemberMap, AllocError>
        requires { IsLive (extent_of self.now) (Set set) }
        ensures members { IfOk result (λ members. set_in members ≡ set_at (heap_of self.now) set) }
        ensures sound { IfOk result (All (IsSoundMember (extent_of self.now))) }
    {
        members_differ(self, set);
        let vals = self.members(set)?;
        self.members_from(&vals)
    }

    // The members of a set that are in another, or those that are not.
    fn members_standing(&self, set: u32, other: u32, inside: bool) -> Result<Vec<Val>, AllocError>
        requires set { IsLive (extent_of self.now) (Set set) }
        requires other { IsLive (extent_of self.now) (Set other) }
        ensures members { IfOk result (λ members. map (value_in (extent_of self.now)) members.items
            ≡ filter (stands inside (set_at (heap_of self.now) other)) (set_at (heap_of self.now) set)) }
        ensures live { IfOk result (λ members. All (IsLive (extent_of self.now)) members.items) }
    {
        let all = self.members(set)?;
        let mut members = Vec::new(self.alloc);
        for member in &all {
            if self.has(other, *member)? == inside {
                members.push(*member)?;
            }
        }
        Ok(members)
    }

    // A table with the pairs and the default of a table.
    fn entries_like(&self, table: u32) -> Result<Entries, AllocError>
        requires { IsLive (extent_of self.now) (Table table) }
        ensures table { IfOk result
            (λ entries. table_in (extent_of self.now) entries ≡ table_at (heap_of self.now) table) }
        ensures sound { IfOk result (IsSoundTable (extent_of self.now)) }
    {
        keys_differ(self, table);
        let pairs = self.pairs(table)?;
        Ok(Entries {
            default: self.default(table),
            pairs: self.pairs_from(&pairs)?,
        })
    }

    // These pairs as those of a table.
    fn pairs_from(&self, vals: &[(Val, Val)]) -> Result<Pairs<Key, Entry>, AllocError>
        requires { All (AreLive (extent_of self.now)) vals.now }
        ensures pairs { IfOk result (λ pairs. map (pair_in (extent_of self.now)) pairs
            ≡ fold with_stored [] (map (values_in (extent_of self.now)) vals.now)) }
        ensures sound { IfOk result (All (IsSoundPair (extent_of self.now))) }
    {
        let mut pairs = Pairs::new(self.alloc);
        for (key, value) in vals {
            let held = self.key_of(*key)?;
            join_entry(
                &mut pairs,
                held,
                Entry {
                    key: *key,
                    value: *value,
                },
            )?;
        }
        Ok(pairs)
    }
}
