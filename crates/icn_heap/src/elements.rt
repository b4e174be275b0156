// The elements of a structure, one by one and all at once.
use crate::heap::Heap;
use icn_value::Val;
use std::alloc::AllocError;

impl Heap {
    ghost use Rattle.std.specs.Prelude.{◌≡◌, ◌≤◌, ◌^◌, map, length, slice_get, slice_range, IfOk, IfSome};
    ghost use Rattle.std.specs.List.{All};
    ghost use Rattle.std.specs.Option.{option_map};
    ghost use Rattle.icn_value.specs.declared.val.Val.TheVariants.{List, Set, Table, Rec};
    ghost use Rattle.icn_value.specs.Store.{list_at, set_at, table_at, record_at};
    ghost use Rattle.icn_heap.specs.Extents.{IsLive, value_in, values_in, AreLive};
    ghost use Rattle.icn_heap.specs.Heaps.{extent_of, heap_of};

    /// The item at a place of a list, counted from 0 at the left. `None` comes exactly where there is no such place. It takes no memory.
    pub fn item_at(&self, list: u32, place: u64) -> Option<Val>
        requires { IsLive (extent_of self.now) (List list) }
        ensures item { option_map (value_in (extent_of self.now)) result
            ≡ slice_get (list_at (heap_of self.now) list).items place }
        ensures live { IfSome result (IsLive (extent_of self.now)) }
    {
        self.list(list).at(place)
    }

    /// The items of a list from one place up to another, counted from 0 at the left. The error is want of memory.
    pub fn section(&self, list: u32, from: u64, to: u64) -> Result<Vec<Val>, AllocError>
        requires list { IsLive (extent_of self.now) (List list) }
        requires order { from ≤ to }
        requires within { to ≤ length (list_at (heap_of self.now) list).items }
        ensures items { IfOk result (λ items. map (value_in (extent_of self.now)) items.items
            ≡ slice_range (list_at (heap_of self.now) list).items from to) }
        ensures live { IfOk result (λ items. All (IsLive (extent_of self.now)) items.items) }
    {
        let mut items = Vec::new(self.alloc);
        for place in from..to {
            if let Some(item) = self.item_at(list, place) {
                items.push(item)?;
            }
        }
        Ok(items)
    }

    /// The items of a list, from left to right. The error is want of memory.
    pub fn items(&self, list: u32) -> Result<Vec<Val>, AllocError>
        requires { IsLive (extent_of self.now) (List list) }
        ensures items { IfOk result (λ items. map (value_in (extent_of self.now)) items.items
            ≡ (list_at (heap_of self.now) list).items) }
        ensures live { IfOk result (λ items. All (IsLive (extent_of self.now)) items.items) }
    {
        self.section(list, 0, self.item_count(list))
    }

    /// The members of a set, in the order in which they came. The error is want of memory.
    pub fn members(&self, set: u32) -> Result<Vec<Val>, AllocError>
        requires { IsLive (extent_of self.now) (Set set) }
        ensures members { IfOk result
            (λ members. map (value_in (extent_of self.now)) members.items ≡ set_at (heap_of self.now) set) }
        ensures live { IfOk result (λ members. All (IsLive (extent_of self.now)) members.items) }
    {
        let mut members = Vec::new(self.alloc);
        for place in 0..self.member_count(set) {
            if let Some(member) = self.member_at(set, place) {
                members.push(member)?;
            }
        }
        Ok(members)
    }

    /// The keys and the values of the pairs of a table, in the order in which the keys came. The error is want of memory.
    pub fn pairs(&self, table: u32) -> Result<Vec<(Val, Val)>, AllocError>
        requires { IsLive (extent_of self.now) (Table table) }
        ensures pairs { IfOk result (λ pairs. map (values_in (extent_of self.now)) pairs.items
            ≡ (table_at (heap_of self.now) table).pairs) }
        ensures live { IfOk result (λ pairs. All (AreLive (extent_of self.now)) pairs.items) }
    {
        let mut pairs = Vec::new(self.alloc);
        for place in 0..self.pair_count(table) {
            if let Some(pair) = self.pair_at(table, place) {
                pairs.push(pair)?;
            }
        }
        Ok(pairs)
    }

    /// The values of the fields of a record, of which there are so few that each place is a `u16`. It takes no memory.
    #[tactic(auto, unfolding(crate::specs::Heaps::extent_of))]
    pub fn fields(&self, rec: u32) -> &[Val]
        requires { IsLive (extent_of self.now) (Rec rec) }
        ensures fields { map (value_in (extent_of self.now)) result.now
            ≡ (record_at (heap_of self.now) rec).fields }
        ensures live { All (IsLive (extent_of self.now)) result.now }
        ensures few { length result.now ≤ 2 ^ 16 }
    {
        self.records.at(rec).values()
    }
}
