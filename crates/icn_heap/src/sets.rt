// The sets of a heap.
use crate::heap::Heap;
use crate::key::Key;
use crate::members::{
    add_set, has_at, keys_of_members_differ, member_at, member_removed_at, member_stored_at,
};
use icn_value::{Full, Val};
use std::alloc::AllocError;

impl Heap {
    ghost use Rattle.std.specs.Prelude.{◌≡◌, false, MatchResult, IfOk, IsOk, OnErr, IfSome, not, filter, slice_get, Ok};
    ghost use Rattle.std.specs.Option.{option_map};
    ghost use Rattle.icn_value.specs.declared.val.Val.TheVariants.{Set};
    ghost use Rattle.icn_value.specs.Sameness.{same, has_value};
    ghost use Rattle.icn_value.specs.Store.{set_at, with_set};
    ghost use Rattle.icn_value.specs.Changes.{made_set, next_set, added_in, Refuses, LimitsFirst};
    ghost use Rattle.icn_heap.specs.Extents.{IsLive, value_in, KeepsValues};
    ghost use Rattle.icn_heap.specs.Keys.{key_value, IsKey};
    ghost use Rattle.icn_heap.specs.Texts.{is_text};
    ghost use Rattle.icn_heap.specs.Heaps.{extent_of, heap_of};

    /// Makes a set without members. It costs a cell. The error is the limit that refuses the charge, or else want of memory;
    /// the heap is then as it was.
    #[tactic(auto, unfolding(crate::specs::Heaps::extent_of, crate::specs::Heaps::heap_of))]
    pub fn make_set(&mut self) -> Result<Val, Full>
        ensures live { IfOk result (IsLive (extent_of self.new)) }
        ensures value { IfOk result (λ val. value_in (extent_of self.new) val ≡ next_set (heap_of self.old)) }
        ensures step { MatchResult result (λ _. made_set (heap_of self.old) ≡ Ok (heap_of self.new))
            (Refuses (made_set (heap_of self.old))) }
        ensures limits { LimitsFirst (made_set (heap_of self.old)) result }
        ensures kept { KeepsValues (extent_of self.old) (extent_of self.new) }
        ensures unchanged { OnErr result (heap_of self.new ≡ heap_of self.old) }
    {
        let sum = self.charged_sum(0)?;
        let id = self.sets.len() as u32;
        add_set(self.alloc, &mut self.sets)?;
        self.cells = sum;
        Ok(Val::Set(id))
    }

    /// Whether a set has a member. The error is want of memory for a copy of a text.
    pub fn has(&self, set: u32, val: Val) -> Result<bool, AllocError>
        requires set { IsLive (extent_of self.now) (Set set) }
        requires live { IsLive (extent_of self.now) val }
        ensures found { IfOk result
            (λ found. found ≡ has_value (set_at (heap_of self.now) set) (value_in (extent_of self.now) val)) }
        ensures succeeds { is_text val ≡ false → IsOk result }
    {
        let key = self.key_of(val)?;
        Ok(self.has_member(set, &key))
    }

    /// Adds a member to a set. A new one goes last, and costs a cell. A text is copied before the limit is looked at. The
    /// error is the limit that refuses the charge, or want of memory; the heap is then as it was.
    #[tactic(auto, unfolding(crate::specs::Heaps::extent_of, crate::specs::Heaps::heap_of))]
    pub fn add(&mut self, set: u32, val: Val) -> Result<(), Full>
        requires set { IsLive (extent_of self.old) (Set set) }
        requires live { IsLive (extent_of self.old) val }
        ensures step { MatchResult result
            (λ _. added_in (heap_of self.old) set (value_in (extent_of self.old) val) ≡ Ok (heap_of self.new))
            (Refuses (added_in (heap_of self.old) set (value_in (extent_of self.old) val))) }
        ensures limits { is_text val ≡ false
            → LimitsFirst (added_in (heap_of self.old) set (value_in (extent_of self.old) val)) result }
        ensures kept { KeepsValues (extent_of self.old) (extent_of self.new) }
        ensures unchanged { OnErr result (heap_of self.new ≡ heap_of self.old) }
    {
        let key = self.key_of(val)?;
        if self.has_member(set, &key) {
            return Ok(());
        }
        let sum = self.charged_sum(0)?;
        member_stored_at(&mut self.sets, set, key, val)?;
        self.cells = sum;
        Ok(())
    }

    /// The member at a place of a set, counted from 0 in the order in which they came. `None` comes exactly where there is no such place.
    /// It takes no memory.
    #[tactic(auto, unfolding(crate::specs::Heaps::extent_of))]
    pub fn member_at(&self, set: u32, place: u64) -> Option<Val>
        requires { IsLive (extent_of self.now) (Set set) }
        ensures member { option_map (value_in (extent_of self.now)) result
            ≡ slice_get (set_at (heap_of self.now) set) place }
        ensures live { IfSome result (IsLive (extent_of self.now)) }
    {
        member_at(&self.sets, set, place)
    }

    // Whether a set has a member of this key.
    #[tactic(auto, unfolding(crate::specs::Heaps::extent_of))]
    fn has_member(&self, set: u32, key: &Key) -> bool
        requires set { IsLive (extent_of self.now) (Set set) }
        requires formed { IsKey key.now }
        ensures { result ≡ has_value (set_at (heap_of self.now) set) (key_value key.now) }
    {
        has_at(&self.sets, set, key)
    }

    // Removes the member of this key, and answers whether there was one.
    #[tactic(auto, unfolding(crate::specs::Heaps::extent_of))]
    pub(crate) fn remove_member(&mut self, set: u32, key: &Key) -> bool
        requires set { IsLive (extent_of self.old) (Set set) }
        requires formed { IsKey key.now }
        ensures found { result ≡ has_value (set_at (heap_of self.old) set) (key_value key.now) }
        ensures step { heap_of self.new ≡ with_set set
            (filter (λ member. not (same (key_value key.now) member)) (set_at (heap_of self.old) set))
            (heap_of self.old) }
        ensures kept { KeepsValues (extent_of self.old) (extent_of self.new) }
    {
        keys_of_members_differ(&self.sets, set);
        member_removed_at(&mut self.sets, set, key)
    }
}
