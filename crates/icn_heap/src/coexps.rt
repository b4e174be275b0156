// The co-expressions of a heap, of which it knows how many results each gave.
ghost use Rattle.icn_profile.specs.Numbers.{greatest_integer};

use crate::counts::{add_count, raise_at};
use crate::heap::Heap;
use icn_value::Full;

impl Heap {
    ghost use Rattle.std.specs.Prelude.{◌≡◌, ◌<◌, length, MatchResult, OnOk, OnErr, Ok};
    ghost use Rattle.icn_value.specs.declared.val.Val.TheVariants.{Coexp};
    ghost use Rattle.icn_value.specs.Store.{count_at};
    ghost use Rattle.icn_value.specs.Changes.{made_coexp, with_result, Refuses, LimitsFirst};
    ghost use Rattle.icn_heap.specs.Extents.{IsLive, KeepsValues};
    ghost use Rattle.icn_heap.specs.Heaps.{extent_of, heap_of};

    /// Adds a co-expression, which has given nothing. It costs a cell, and one more for each of its parameters and locals. `&main` has
    /// number 0, and those that are added have the numbers from 1 on. The error is the limit that refuses the charge, or
    /// want of memory; the heap is then as it was.
    #[tactic(auto, unfolding(crate::specs::Heaps::extent_of, crate::specs::Heaps::heap_of))]
    pub fn charge_coexp(&mut self, locals: u64) -> Result<(), Full>
        ensures live { OnOk result (IsLive (extent_of self.new) (Coexp (length (heap_of self.old).coexps))) }
        ensures step { MatchResult result (λ _. made_coexp (heap_of self.old) locals ≡ Ok (heap_of self.new))
            (Refuses (made_coexp (heap_of self.old) locals)) }
        ensures limits { LimitsFirst (made_coexp (heap_of self.old) locals) result }
        ensures kept { KeepsValues (extent_of self.old) (extent_of self.new) }
        ensures unchanged { OnErr result (heap_of self.new ≡ heap_of self.old) }
    {
        let sum = self.charged_sum(locals)?;
        add_count(&mut self.coexps)?;
        self.cells = sum;
        Ok(())
    }

    /// Counts a result of a co-expression. It takes no memory.
    #[tactic(auto, unfolding(crate::specs::Heaps::extent_of, crate::specs::Heaps::heap_of))]
    pub fn count(&mut self, id: u32)
        requires live { IsLive (extent_of self.old) (Coexp id) }
        requires few { count_at (heap_of self.old) id < greatest_integer }
        ensures step { heap_of self.new ≡ with_result id (heap_of self.old) }
        ensures kept { KeepsValues (extent_of self.old) (extent_of self.new) }
    {
        raise_at(&mut self.coexps, id);
    }
}
