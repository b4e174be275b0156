// The records of a heap.
use crate::heap::Heap;
use icn_value::{Full, Val};

impl Heap {
    ghost use Rattle.std.specs.Prelude.{◌≡◌, ◌<◌, ◌≤◌, ◌^◌, map, length, MatchResult, IfOk, OnErr, Ok};
    ghost use Rattle.std.specs.List.{All};
    ghost use Rattle.icn_value.specs.declared.val.Val.TheVariants.{Rec};
    ghost use Rattle.icn_value.specs.Store.{record_at, value_at};
    ghost use Rattle.icn_value.specs.Changes.{made_record, next_record, with_field, Refuses, LimitsFirst};
    ghost use Rattle.icn_heap.specs.Extents.{IsLive, IsMade, value_in, KeepsValues};
    ghost use Rattle.icn_heap.specs.Heaps.{extent_of, heap_of};

    /// Makes a record of the constructor with this number among all constructors. It costs a cell, and one more for each field.
    /// The number of a field has 16 bits, so there are at most 2^16. The error is the limit that refuses the charge, or else
    /// want of memory; the heap is then as it was.
    #[tactic(auto, unfolding(crate::specs::Heaps::extent_of, crate::specs::Heaps::heap_of))]
    pub fn make_rec(&mut self, kind: u16, fields: &[Val]) -> Result<Val, Full>
        requires live { All (IsLive (extent_of self.old)) fields.now }
        requires few { length fields.now ≤ 2 ^ 16 }
        ensures live { IfOk result (IsLive (extent_of self.new)) }
        ensures value { IfOk result
            (λ val. value_in (extent_of self.new) val ≡ next_record (heap_of self.old)) }
        ensures step { MatchResult result (λ _. made_record (heap_of self.old) kind
            (map (value_in (extent_of self.old)) fields.now) ≡ Ok (heap_of self.new))
            (Refuses (made_record (heap_of self.old) kind (map (value_in (extent_of self.old)) fields.now))) }
        ensures limits { LimitsFirst
            (made_record (heap_of self.old) kind (map (value_in (extent_of self.old)) fields.now)) result }
        ensures kept { KeepsValues (extent_of self.old) (extent_of self.new) }
        ensures unchanged { OnErr result (heap_of self.new ≡ heap_of self.old) }
    {
        let sum = self.charged_sum(fields.len() as u64)?;
        let id = self.records.len() as u32;
        self.records.add(self.alloc, kind, fields)?;
        self.cells = sum;
        Ok(Val::Rec(id))
    }

    /// The value of a field of a record, by its place from 0 on. It takes no memory.
    #[tactic(auto, unfolding(crate::specs::Heaps::extent_of))]
    pub fn field(&self, rec: u32, n: u16) -> Val
        requires rec { IsLive (extent_of self.now) (Rec rec) }
        requires there { n < length (record_at (heap_of self.now) rec).fields }
        ensures live { IsLive (extent_of self.now) result }
        ensures value { value_in (extent_of self.now) result
            ≡ value_at (record_at (heap_of self.now) rec).fields n }
    {
        self.records.at(rec).get(n)
    }

    /// Gives a field of a record another value. It takes no memory.
    #[tactic(auto, unfolding(crate::specs::Heaps::extent_of))]
    pub fn set_field(&mut self, rec: u32, n: u16, val: Val)
        requires rec { IsLive (extent_of self.old) (Rec rec) }
        requires there { n < length (record_at (heap_of self.old) rec).fields }
        requires live { IsLive (extent_of self.old) val }
        ensures step { heap_of self.new
            ≡ with_field rec n (value_in (extent_of self.old) val) (heap_of self.old) }
        ensures kept { KeepsValues (extent_of self.old) (extent_of self.new) }
    {
        self.records.set_field(rec, n, val);
    }

    /// The number of a record's constructor among all constructors. It takes no memory.
    #[tactic(auto, unfolding(crate::specs::Heaps::extent_of))]
    pub fn kind(&self, rec: u32) -> u16
        requires { IsLive (extent_of self.now) (Rec rec) }
        ensures { result ≡ (record_at (heap_of self.now) rec).kind }
    {
        self.records.at(rec).kind()
    }

    /// The same of a record that was ever made, whether it is there still or not. It takes no memory.
    #[tactic(auto, unfolding(crate::specs::Heaps::extent_of))]
    pub fn kind_made(&self, rec: u32) -> u16
        requires { IsMade (extent_of self.now) (Rec rec) }
        ensures { result ≡ (record_at (heap_of self.now) rec).kind }
    {
        self.records.kind(rec)
    }
}
