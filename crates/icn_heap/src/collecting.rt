// Memory that is given back.
use crate::heap::Heap;
use crate::needed_values::NeededValues;
use std::alloc::AllocError;

impl Heap {
    ghost use Rattle.std.specs.Prelude.{◌≡◌, ◌+◌, ◌≤◌, OnOk};
    ghost use Rattle.icn_strings.specs.Regions.{held_by};
    ghost use Rattle.icn_value.specs.declared.val.Val.{Val};
    ghost use Rattle.icn_heap.specs.Extents.{IsLive, KeepsMeaning};
    ghost use Rattle.icn_heap.specs.Heaps.{extent_of, heap_of, parts_of};
    ghost use Rattle.icn_heap.specs.MarkedStructures.{marks_of, AreAllReached, LeavesReached, MarkedBy};
    ghost use Rattle.icn_heap.specs.declared.needed_values.NeededValues.{NeededValues as NeededSeen};
    ghost use Rattle.icn_heap.specs.NeededValues.{held_vals, length_of_vals, needed_length, needed_structures, AreOfHeap, IsNeeded};

    /// How many bytes of texts the heap holds, those that nothing needs any more too: by it a caller tells when `collect` is due.
    /// It takes no memory.
    #[tactic(auto, unfolding(crate::specs::Heaps::extent_of))]
    pub fn held_bytes(&self) -> u64
        ensures { result ≡ held_by (extent_of self.now).strings }
    {
        self.strings.held_bytes()
    }

    /// How many cells were ever charged: by it a caller tells when `collect` is due, and no clause says it. It takes no memory.
    pub fn charged_cells(&self) -> u64 {
        self.cells
    }

    /// Gives back the memory of all structures and texts but those that are needed, and those that are reached from these.
    ///
    /// What the heap stands for is the same, and so is what each value stands for that was ever made. A value that was of the
    /// heap and is needed is of it still. No more bytes are held then than the texts have together that are needed, and those in
    /// structures that stay. It answers how many texts stay, each as often as it was found. The error is want of memory: then all
    /// texts stay, and perhaps all structures.
    #[tactic(auto, unfolding(crate::specs::Heaps::extent_of, crate::specs::Heaps::heap_of))]
    pub fn collect(&mut self, needed: NeededValues) -> Result<u64, AllocError>
        requires { AreOfHeap (extent_of self.old) needed }
        ensures heap { heap_of self.new ≡ heap_of self.old }
        ensures means { KeepsMeaning (extent_of self.old) (extent_of self.new) }
        ensures live { (val : Val) → IsLive (extent_of self.old) val → IsNeeded needed val
            → IsLive (extent_of self.new) val }
        ensures few { OnOk result (held_by (extent_of self.new).strings
            ≤ needed_length needed + length_of_vals (held_vals (parts_of self.new))) }
        ensures reached { OnOk result (LeavesReached self.old self.new (needed_structures needed)) }
    {
        let mut needed = needed;
        self.unmark();
        self.mark_reached(&mut needed)?;
        self.give_back_unmarked(needed)
    }

    // Gives back the structures that are not marked, and the texts that are not needed. All that is reached from what was needed
    // first must be marked, and needed.
    #[tactic(auto, unfolding(crate::specs::Heaps::extent_of, crate::specs::Heaps::heap_of))]
    fn give_back_unmarked(&mut self, needed: NeededValues) -> Result<u64, AllocError>
        requires { (first : NeededSeen) × AreAllReached (parts_of self.old) first (marks_of self.old) needed }
        ensures heap { heap_of self.new ≡ heap_of self.old }
        ensures means { KeepsMeaning (extent_of self.old) (extent_of self.new) }
        ensures live { (first : NeededSeen)
            → AreAllReached (parts_of self.old) first (marks_of self.old) needed → (val : Val)
            → IsLive (extent_of self.old) val → IsNeeded first val → IsLive (extent_of self.new) val }
        ensures few { OnOk result ((first : NeededSeen)
            → AreAllReached (parts_of self.old) first (marks_of self.old) needed
            → held_by (extent_of self.new).strings
            ≤ needed_length first + length_of_vals (held_vals (parts_of self.new))) }
        ensures marked { (val : Val) → IsLive (extent_of self.new) val → MarkedBy (marks_of self.old) val }
    {
        let mut needed = needed;
        let count = needed.ranges.len() as u64;
        self.lists.give_back();
        self.sets.give_back();
        self.tables.give_back();
        self.records.give_back();
        self.strings.sweep(&mut needed.ranges)?;
        Ok(count)
    }
}
