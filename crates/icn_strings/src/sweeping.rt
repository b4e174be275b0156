// Memory that is given back: what is kept lies in one block then, run behind run.
ghost use Rattle.std.specs.Prelude.{[], ◌≡◌, ◌+◌, ◌^◌, ◌<◌, ◌≤◌, length, true, IfNone, IfOk, IfSome, OnErr, OnOk};
ghost use Rattle.std.specs.List.{All, HoldsAt};
ghost use Rattle.std.specs.List.Sorted.{IsNonDecreasingBy, IsPermutation};
ghost use Rattle.icn_strings.specs.Parts.{IsWhole};
ghost use Rattle.icn_strings.specs.KeptRuns.{kept_of, AreKeptRuns, IsJoined, IsPutBehind, IsTaken};
ghost use Rattle.icn_strings.specs.Ranges.{total_length};
ghost use Rattle.icn_strings.specs.Regions.{held_by, sum_of, IsOf, IsUnchanged, KeepsBytes};
ghost use Rattle.icn_strings.specs.declared.byte_range.ByteRange.{ByteRange as RangeSeen};

use crate::byte_range::ByteRange;
use crate::chunk::Chunk;
use crate::closed::Closed;
use crate::kept_parts::KeptParts;
use crate::region::Region;
use crate::region_laws::end_of_range;
use std::alloc::AllocError;

// From so many bytes on, what is kept may be more than a block has room for.
const MUCH: u64 = 1 << 32;

impl Region {
    /// Gives back the memory of all bytes but those of the strings in `keep`, which may stand in any order, and more than once.
    /// They are put into the order in which they lie.
    ///
    /// What is kept stays where it is, and is of the region still. Every string that was ever made means the same, and the charge stays.
    /// The error is want of memory, and leaves the region as it was.
    #[tactic(auto, using(crate::proofs::KeptRegions::means_same, crate::proofs::KeptRegions::unchanged), unfolding(crate::specs::Regions::sum_of))]
    pub fn sweep(&mut self, keep: &mut [ByteRange]) -> Result<(), AllocError>
        requires { All (IsOf self.old) keep.old }
        ensures of { OnOk result (All (IsOf self.new) keep.old) }
        ensures means { KeepsBytes self.old self.new }
        ensures few { OnOk result (held_by self.new ≤ total_length keep.old) }
        ensures sum { sum_of self.new ≡ sum_of self.old }
        ensures err { OnErr result (IsUnchanged self.old self.new) }
        ensures same_ranges { IsPermutation keep.old keep.new }
        ensures order { IsNonDecreasingBy (λ (range : RangeSeen). range.start) keep.new }
    {
        let first = self.end();
        sort_by_start(keep);
        let kept = self.gather(keep)?;
        self.closed.put_behind(kept.same, kept.fresh)?;
        self.closed_size = self.closed.size();
        self.last = Chunk {
            first,
            bytes: Vec::new(self.alloc),
        };
        Ok(())
    }

    // Parts of the bytes of these ranges alone, which come in the order of their starts.
    fn gather(&self, ranges: &[ByteRange]) -> Result<KeptParts, AllocError>
        requires of { All (IsOf self.now) ranges.now }
        requires order { IsNonDecreasingBy (λ (range : RangeSeen). range.start) ranges.now }
        ensures { IfOk result (λ kept. AreKeptRuns self.now ranges.now (kept_of self.now kept)) }
    {
        let fresh = Closed::nothing(self.alloc);
        let mut kept = KeptParts { same: 0, fresh };
        let mut run = ByteRange { start: 0, len: 0 };
        for range in ranges {
            run = self.take_in(&mut kept, run, *range)?;
        }
        self.keep_run(&mut kept, run)?;
        Ok(kept)
    }

    // Takes a range into the run, or keeps the run and begins another one with the range. Gives the run.
    #[tactic(auto, using(crate::proofs::GatheredRuns::taken_nowhere, crate::proofs::GatheredRuns::taken_with))]
    fn take_in(
        &self,
        kept: &mut KeptParts,
        run: ByteRange,
        range: ByteRange,
    ) -> Result<ByteRange, AllocError>
        requires run { IsOf self.now run }
        requires range { IsOf self.now range }
        requires from { run.start ≤ range.start }
        ensures { IfOk result
            (IsTaken self.now (kept_of self.now kept.old) (kept_of self.now kept.new) run range) }
    {
        if range.len == 0 {
            return Ok(run);
        }
        match self.joined_run(run, range) {
            Some(both) => Ok(both),
            None => {
                self.keep_run(kept, run)?;
                Ok(range)
            }
        }
    }

    // The run with a range that begins in it or right behind it, where all these bytes lie together.
    fn joined_run(&self, run: ByteRange, range: ByteRange) -> Option<ByteRange>
        requires run { IsOf self.now run }
        requires range { IsOf self.now range }
        requires some { 0 < range.len }
        requires from { run.start ≤ range.start }
        ensures joined { IfSome result (IsJoined self.now run range) }
        ensures apart { IfNone result (run.start + run.len ≤ range.start) }
    {
        end_of_range(self, run);
        end_of_range(self, range);
        let end = run.start + run.len;
        if end < range.start {
            return None;
        }
        let to = end.max(range.start + range.len);
        let both = ByteRange {
            start: run.start,
            len: to - run.start,
        };
        if range.start < end {
            return Some(both);
        }
        if self.is_together(both) {
            Some(both)
        } else {
            None
        }
    }

    // Whether the bytes of a range lie together.
    fn is_together(&self, range: ByteRange) -> bool
        requires { 0 < range.len }
        ensures { result ≡ true → IsOf self.now range }
    {
        if self.last.holds(range) {
            return true;
        }
        self.closed.has(range)
    }

    // Has a run stay behind these parts: where it is, if it is the next part of the block and all before it stay, or else written anew.
    fn keep_run(&self, kept: &mut KeptParts, run: ByteRange) -> Result<(), AllocError>
        requires { IsOf self.now run }
        ensures { OnOk result
            (IsPutBehind self.now (kept_of self.now kept.old) (kept_of self.now kept.new) run) }
    {
        if run.len == 0 {
            return Ok(());
        }
        if self.stays(kept, run) {
            kept.same += 1;
            return Ok(());
        }
        kept.fresh.push(self.alloc, run.start, self.bytes(run))
    }

    // Whether a run is the next part of the block, and all before it stay. Not where so much is held that a block may lack the room.
    fn stays(&self, kept: &KeptParts, run: ByteRange) -> bool
        ensures none { result ≡ true → kept.now.fresh ≡ [] }
        ensures within { result ≡ true → kept.now.same < length self.now.closed }
        ensures small { result ≡ true → kept.now.same < 2 ^ 63 }
        ensures whole { result ≡ true → HoldsAt (IsWhole run) self.now.closed kept.now.same }
    {
        if self.held_bytes() >= MUCH {
            return false;
        }
        if kept.fresh.is_empty() {
            return self.closed.is_at(kept.same, run);
        }
        false
    }
}

// Puts ranges into the order of their starts.
fn sort_by_start(ranges: &mut [ByteRange])
    ensures permutation { IsPermutation ranges.old ranges.new }
    ensures len { length ranges.new ≡ length ranges.old }
    ensures order { IsNonDecreasingBy (λ (range : RangeSeen). range.start) ranges.new }
{
    ranges.sort_unstable_by_key(|range| range.start);
}
