// What cells cost.
use crate::heap::Heap;
use icn_value::Full;

impl Heap {
    ghost use Rattle.std.specs.Prelude.{◌≡◌, ◌+◌, ◌≤◌, MatchResult, IfOk, IfErr, OnOk, Ok, Err, if◌then◌else◌};
    ghost use Rattle.icn_value.specs.Changes.{charged_cells, charged_unless};
    ghost use Rattle.icn_heap.specs.Heaps.{heap_of, with_cells};

    /// Whether so many cells may be charged at once, and why they may not. It charges nothing and takes no memory.
    ///
    /// Where there is room, a limit refuses no change that costs as many cells or fewer, so a caller that adds several elements looks once
    /// and then adds them one by one.
    #[tactic(auto, using(crate::proofs::HeapCharges::charge_fits, crate::proofs::HeapCharges::charge_full), unfolding(crate::specs::Heaps::heap_of))]
    pub fn room_for_cells(&self, cells: u64) -> Result<(), Full>
        ensures answer { MatchResult result (λ _. charged_cells (heap_of self.now) cells
            ≡ Ok (with_cells ((heap_of self.now).cells + cells) (heap_of self.now)))
            (λ full. charged_cells (heap_of self.now) cells ≡ Err full) }
        ensures within { OnOk result ((heap_of self.now).cells + cells ≤ (heap_of self.now).bounds.cells) }
    {
        if cells > self.limits.cells - self.cells {
            return Err(Full::Cells {
                sum: self.cells,
                limit: self.limits.cells,
            });
        }
        Ok(())
    }

    // The sum once a cell is charged and one more for each of so many elements, or why it is not.
    #[tactic(auto, using(crate::proofs::HeapCharges::charge_fits, crate::proofs::HeapCharges::charge_full), unfolding(crate::specs::Heaps::heap_of))]
    pub(crate) fn charged_sum(&self, elements: u64) -> Result<u64, Full>
        ensures sum { IfOk result (λ sum. sum ≡ self.now.cells + (1 + elements)) }
        ensures within { IfOk result (λ sum. sum ≤ self.now.limits.cells) }
        ensures ok { IfOk result (λ sum. charged_cells (heap_of self.now) (1 + elements)
            ≡ Ok (with_cells sum (heap_of self.now))) }
        ensures full { IfErr result (λ full. charged_cells (heap_of self.now) (1 + elements) ≡ Err full) }
    {
        if elements >= self.limits.cells - self.cells {
            return Err(Full::Cells {
                sum: self.cells,
                limit: self.limits.cells,
            });
        }
        Ok(self.cells + 1 + elements)
    }

    // The sum once a cell is charged, unless nothing is to be charged.
    pub(crate) fn paid_unless(&self, nothing: bool) -> Result<u64, Full>
        ensures more { IfOk result (λ sum. self.now.cells ≤ sum) }
        ensures one { IfOk result (λ sum. sum ≤ self.now.cells + 1) }
        ensures within { IfOk result (λ sum. sum ≤ self.now.limits.cells) }
        ensures ok { IfOk result
            (λ sum. charged_unless nothing (heap_of self.now) ≡ Ok (with_cells sum (heap_of self.now))) }
        ensures full { IfErr result (λ full. charged_unless nothing (heap_of self.now) ≡ Err full) }
    {
        if nothing {
            Ok(self.cells)
        } else {
            self.charged_sum(0)
        }
    }
}
