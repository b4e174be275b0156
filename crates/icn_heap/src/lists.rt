// The lists of a heap.
use crate::deques::{
    add_list, deque_of, deque_of_copies, get_at, list_ref, pull_at, push_at, put_at, set_at,
};
use crate::heap::Heap;
use icn_structs::Deque;
use icn_value::{Full, Val};

impl Heap {
    ghost use Rattle.std.specs.Prelude.{◌≡◌, ◌<◌, map, replicate, MatchResult, IfOk, OnErr, IfSome, is_some, Ok};
    ghost use Rattle.std.specs.List.{All};
    ghost use Rattle.std.specs.Option.{option_map};
    ghost use Rattle.icn_structs.specs.Numbered.{leftmost, rightmost, without_left, without_right, item_numbered, with_numbered};
    ghost use Rattle.icn_value.specs.declared.val.Val.TheVariants.{List};
    ghost use Rattle.icn_value.specs.Store.{list_at, with_list};
    ghost use Rattle.icn_value.specs.Changes.{made_list, next_list, put_on, pushed_on, Refuses, LimitsFirst};
    ghost use Rattle.icn_heap.specs.Extents.{IsLive, value_in, KeepsValues};
    ghost use Rattle.icn_heap.specs.HeapParts.{list_in};
    ghost use Rattle.icn_heap.specs.Heaps.{extent_of, heap_of};

    /// Makes a list of one value so many times. It costs a cell, and one more for each item. The error is the limit that
    /// refuses the charge, or else want of memory; the heap is then as it was.
    #[tactic(auto, unfolding(crate::specs::Heaps::extent_of, crate::specs::Heaps::heap_of))]
    pub fn make_list(&mut self, n: u64, fill: Val) -> Result<Val, Full>
        requires { IsLive (extent_of self.old) fill }
        ensures live { IfOk result (IsLive (extent_of self.new)) }
        ensures value { IfOk result
            (λ val. value_in (extent_of self.new) val ≡ next_list (heap_of self.old)) }
        ensures step { MatchResult result (λ _. made_list (heap_of self.old)
            (replicate n (value_in (extent_of self.old) fill)) ≡ Ok (heap_of self.new))
            (Refuses (made_list (heap_of self.old) (replicate n (value_in (extent_of self.old) fill)))) }
        ensures limits { LimitsFirst
            (made_list (heap_of self.old) (replicate n (value_in (extent_of self.old) fill))) result }
        ensures kept { KeepsValues (extent_of self.old) (extent_of self.new) }
        ensures unchanged { OnErr result (heap_of self.new ≡ heap_of self.old) }
    {
        let sum = self.charged_sum(n)?;
        let list = deque_of_copies(self.alloc, n, fill)?;
        let id = self.lists.len() as u32;
        add_list(&mut self.lists, list)?;
        self.cells = sum;
        Ok(Val::List(id))
    }

    /// Makes a list of these items. It costs a cell, and one more for each item. The error is the limit that refuses the
    /// charge, or else want of memory; the heap is then as it was.
    #[tactic(auto, unfolding(crate::specs::Heaps::extent_of, crate::specs::Heaps::heap_of))]
    pub fn list_from(&mut self, items: &[Val]) -> Result<Val, Full>
        requires { All (IsLive (extent_of self.old)) items.now }
        ensures live { IfOk result (IsLive (extent_of self.new)) }
        ensures value { IfOk result
            (λ val. value_in (extent_of self.new) val ≡ next_list (heap_of self.old)) }
        ensures step { MatchResult result (λ _. made_list (heap_of self.old)
            (map (value_in (extent_of self.old)) items.now) ≡ Ok (heap_of self.new))
            (Refuses (made_list (heap_of self.old) (map (value_in (extent_of self.old)) items.now))) }
        ensures limits { LimitsFirst
            (made_list (heap_of self.old) (map (value_in (extent_of self.old)) items.now)) result }
        ensures kept { KeepsValues (extent_of self.old) (extent_of self.new) }
        ensures unchanged { OnErr result (heap_of self.new ≡ heap_of self.old) }
    {
        let sum = self.charged_sum(items.len() as u64)?;
        let list = deque_of(self.alloc, items)?;
        let id = self.lists.len() as u32;
        add_list(&mut self.lists, list)?;
        self.cells = sum;
        Ok(Val::List(id))
    }

    /// Adds an item at the right of a list. It costs a cell. The error is the limit that refuses the charge, or else want of
    /// memory; the heap is then as it was.
    #[tactic(auto, unfolding(crate::specs::Heaps::extent_of, crate::specs::Heaps::heap_of))]
    pub fn put(&mut self, list: u32, val: Val) -> Result<(), Full>
        requires list { IsLive (extent_of self.old) (List list) }
        requires live { IsLive (extent_of self.old) val }
        ensures step { MatchResult result
            (λ _. put_on (heap_of self.old) list (value_in (extent_of self.old) val) ≡ Ok (heap_of self.new))
            (Refuses (put_on (heap_of self.old) list (value_in (extent_of self.old) val))) }
        ensures limits { LimitsFirst (put_on (heap_of self.old) list (value_in (extent_of self.old) val))
            result }
        ensures kept { KeepsValues (extent_of self.old) (extent_of self.new) }
        ensures unchanged { OnErr result (heap_of self.new ≡ heap_of self.old) }
    {
        let sum = self.charged_sum(0)?;
        put_at(&mut self.lists, list, val)?;
        self.cells = sum;
        Ok(())
    }

    /// Adds an item at the left of a list. It costs a cell. The error is the limit that refuses the charge, or else want of
    /// memory; the heap is then as it was.
    #[tactic(auto, unfolding(crate::specs::Heaps::extent_of, crate::specs::Heaps::heap_of))]
    pub fn push(&mut self, list: u32, val: Val) -> Result<(), Full>
        requires list { IsLive (extent_of self.old) (List list) }
        requires live { IsLive (extent_of self.old) val }
        ensures step { MatchResult result (λ _.
            pushed_on (heap_of self.old) list (value_in (extent_of self.old) val) ≡ Ok (heap_of self.new))
            (Refuses (pushed_on (heap_of self.old) list (value_in (extent_of self.old) val))) }
        ensures limits { LimitsFirst (pushed_on (heap_of self.old) list (value_in (extent_of self.old) val))
            result }
        ensures kept { KeepsValues (extent_of self.old) (extent_of self.new) }
        ensures unchanged { OnErr result (heap_of self.new ≡ heap_of self.old) }
    {
        let sum = self.charged_sum(0)?;
        push_at(&mut self.lists, list, val)?;
        self.cells = sum;
        Ok(())
    }

    /// Takes the item at the left of a list. `None` comes exactly where the list is empty. It takes no memory.
    #[tactic(auto, unfolding(crate::specs::Heaps::extent_of, crate::specs::Heaps::heap_of))]
    pub fn get(&mut self, list: u32) -> Option<Val>
        requires { IsLive (extent_of self.old) (List list) }
        ensures item { option_map (value_in (extent_of self.new)) result
            ≡ leftmost (list_at (heap_of self.old) list) }
        ensures live { IfSome result (IsLive (extent_of self.new)) }
        ensures step { heap_of self.new
            ≡ with_list list (without_left (list_at (heap_of self.old) list)) (heap_of self.old) }
        ensures kept { KeepsValues (extent_of self.old) (extent_of self.new) }
    {
        get_at(&mut self.lists, list)
    }

    /// Takes the item at the right of a list. `None` comes exactly where the list is empty. It takes no memory.
    #[tactic(auto, unfolding(crate::specs::Heaps::extent_of, crate::specs::Heaps::heap_of))]
    pub fn pull(&mut self, list: u32) -> Option<Val>
        requires { IsLive (extent_of self.old) (List list) }
        ensures item { option_map (value_in (extent_of self.new)) result
            ≡ rightmost (list_at (heap_of self.old) list) }
        ensures live { IfSome result (IsLive (extent_of self.new)) }
        ensures step { heap_of self.new
            ≡ with_list list (without_right (list_at (heap_of self.old) list)) (heap_of self.old) }
        ensures kept { KeepsValues (extent_of self.old) (extent_of self.new) }
    {
        pull_at(&mut self.lists, list)
    }

    /// Puts another item in the place of the one with this number, and answers whether there was one. It takes no memory.
    #[tactic(auto, unfolding(crate::specs::Heaps::extent_of, crate::specs::Heaps::heap_of))]
    pub fn set_item(&mut self, list: u32, n: i64, val: Val) -> bool
        requires list { IsLive (extent_of self.old) (List list) }
        requires live { IsLive (extent_of self.old) val }
        ensures found { result ≡ is_some (item_numbered (list_at (heap_of self.old) list) n) }
        ensures step { heap_of self.new ≡ with_list list (with_numbered (list_at (heap_of self.old) list) n
            (value_in (extent_of self.old) val)) (heap_of self.old) }
        ensures kept { KeepsValues (extent_of self.old) (extent_of self.new) }
    {
        set_at(&mut self.lists, list, n, val)
    }

    /// The item of a list with this number. `None` comes exactly where no item has it. It takes no memory.
    #[tactic(auto, unfolding(crate::specs::Heaps::extent_of, crate::specs::Heaps::heap_of))]
    pub fn item(&self, list: u32, n: i64) -> Option<Val>
        requires { IsLive (extent_of self.now) (List list) }
        ensures item { option_map (value_in (extent_of self.now)) result
            ≡ item_numbered (list_at (heap_of self.now) list) n }
        ensures live { IfSome result (IsLive (extent_of self.now)) }
    {
        list_ref(&self.lists, list).by_number(n)
    }

    /// A list. It takes no memory.
    #[tactic(auto, unfolding(crate::specs::Heaps::extent_of, crate::specs::Heaps::heap_of))]
    pub fn list(&self, id: u32) -> &Deque<Val>
        requires { IsLive (extent_of self.now) (List id) }
        ensures live { All (IsLive (extent_of self.now)) result.now.items }
        ensures items { list_in (extent_of self.now) result.now ≡ list_at (heap_of self.now) id }
    {
        list_ref(&self.lists, id)
    }
}
