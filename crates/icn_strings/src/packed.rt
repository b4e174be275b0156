// Runs of bytes that lie one behind the other in one block.
ghost use Rattle.std.specs.Prelude.{◌≡◌, ◌+◌, ◌^◌, ◌<◌, ◌≤◌, ◌++◌, true, length, map, take, drop, vec_len};
ghost use Rattle.std.specs.Vec.{vec_capacity};
ghost use Rattle.std.specs.List.{All, AllWithin};
ghost use Rattle.std.specs.List.Sorted.{IsNonDecreasingBy};
ghost use Rattle.icn_strings.specs.PackedRuns.{shifted};

use crate::byte_range::ByteRange;
use std::alloc::{AllocError, Global};
use std::marker::Model;

// How many bytes a block has room for: a place in it has 32 bits.
const MOST: usize = 1 << 32;

// Where a run lies: its first byte among all bytes of the region and in the block, and how many there are.
#[derive(Clone, Copy, Debug, PartialEq, Eq)]
struct PackedRun {
    first: u64,
    at: u32,
    len: u32,
}

impl PackedRun {
    ghost use Rattle.icn_strings.specs.PackedRuns.{run_holds};

    // Whether a range lies in it.
    fn holds(&self, range: ByteRange) -> bool
        ensures { result ≡ run_holds range self.now }
    {
        let len = self.len as u64;
        self.first <= range.start && range.len <= len && range.start - self.first <= len - range.len
    }

    // Whether it is just this range.
    fn is_whole(&self, range: ByteRange) -> bool
        ensures first { result ≡ true → self.now.first ≡ range.start }
        ensures len { result ≡ true → self.now.len ≡ range.len }
    {
        self.first == range.start && self.len as u64 == range.len
    }
}

/// Runs of bytes of a region, each for itself, in one block. A clause sees the list of their parts.
#[derive(Drop)]
pub struct Packed {
    runs: Vec<PackedRun>,
    bytes: Vec<u8>,
}

impl Model for Packed {
    ghost use Rattle.std.specs.Prelude.{List};
    ghost use Rattle.icn_strings.specs.Parts.{RegionPart};
    ghost use Rattle.icn_strings.specs.PackedRuns.{parts_of, AreLaid};

    ghost Value = { List RegionPart };

    ghost view = { λ p. parts_of p.bytes.items p.runs.items };

    ghost invariant = { λ p. AreLaid p.bytes.items p.runs.items };
}

impl Packed {
    ghost use Rattle.std.specs.Prelude.{◌≡◌, ◌<◌, ◌≤◌, ◌+◌, ◌^◌, ◌++◌, ◌∷◌, [], ℕ, List, true, length, take, drop, OnOk, OnErr};
    ghost use Rattle.std.specs.List.{All, AllPairs, HoldsAt, list_any};
    ghost use Rattle.icn_strings.specs.Parts.{part, sizes, holds, EndsBefore, HasItsPart, IsWhole};

    /// No runs. It takes no memory.
    pub fn nothing(alloc: Global) -> Packed
        ensures { result ≡ [] }
    {
        Packed {
            runs: Vec::new(alloc),
            bytes: Vec::new(alloc),
        }
    }

    /// Whether there is no run.
    pub fn is_empty(&self) -> bool
        ensures { result ≡ true → self.now ≡ [] }
    {
        if self.runs.len() == 0 {
            return true;
        }
        false
    }

    /// Whether the run at an index is just this range.
    pub fn is_at(&self, index: usize, range: ByteRange) -> bool
        ensures within { result ≡ true → index < length self.now }
        ensures small { result ≡ true → index < 2 ^ 63 }
        ensures whole { result ≡ true → HoldsAt (IsWhole range) self.now index }
    {
        if index >= self.runs.len() {
            return false;
        }
        self.runs[index].is_whole(range)
    }

    /// Whether the block has room for so many bytes more.
    pub fn has_room(&self, count: usize) -> bool
        ensures { result ≡ true → sizes self.now + count < 2 ^ 32 }
    {
        fits(self.bytes.len(), count)
    }

    /// Adds a run behind the others, for which the block must have room. The error is want of memory, and leaves the others alone.
    pub fn push(&mut self, first: u64, bytes: &[u8]) -> Result<(), AllocError>
        requires { sizes self.old + length bytes.now < 2 ^ 32 }
        ensures added { OnOk result (self.new ≡ self.old ++ part first bytes.now ∷ []) }
        ensures unchanged { OnErr result (self.new ≡ self.old) }
    {
        let place = self.bytes.len();
        let at = place as u32;
        let len = bytes.len() as u32;
        self.bytes.extend_from_slice(bytes)?;
        if self.runs.push(PackedRun { first, at, len }).is_err() {
            self.bytes.truncate(place);
            return Err(AllocError);
        }
        Ok(())
    }

    /// Puts other runs in place of all but the first `same`. The error is that there are not so many, that the block has no room for
    /// the others, or want of memory; nothing changed then.
    pub fn put_behind(&mut self, same: usize, fresh: &Packed) -> Result<(), AllocError>
        ensures within { OnOk result (same ≤ length self.old) }
        ensures put { OnOk result (self.new ≡ take same self.old ++ fresh.now) }
        ensures unchanged { OnErr result (self.new ≡ self.old) }
    {
        if same > self.runs.len() {
            return Err(AllocError);
        }
        let at = self.place_of(same);
        if fits(at, fresh.bytes.len()) {
            return self.put_runs(same, at, fresh);
        }
        Err(AllocError)
    }

    // Where the run at an index begins in the block, or where the block ends.
    fn place_of(&self, index: usize) -> usize
        requires { index ≤ length self.now }
        ensures { result ≡ sizes (take index self.now) }
    {
        if index < self.runs.len() {
            return self.runs[index].at as usize;
        }
        self.bytes.len()
    }

    // Puts other runs in place of all but the first `same`, which end at a place of the block. The error is want of memory, and nothing
    // changed then.
    fn put_runs(&mut self, same: usize, at: usize, fresh: &Packed) -> Result<(), AllocError>
        requires within { same ≤ length self.old }
        requires at { at ≡ sizes (take same self.old) }
        requires room { at + sizes fresh.now < 2 ^ 32 }
        ensures put { OnOk result (self.new ≡ take same self.old ++ fresh.now) }
        ensures unchanged { OnErr result (self.new ≡ self.old) }
    {
        let further = at as u32;
        self.runs.reserve(fresh.runs.len())?;
        self.bytes.reserve(fresh.bytes.len())?;
        self.runs.truncate(same);
        self.bytes.truncate(at);
        add_shifted(&mut self.runs, &fresh.runs, further);
        self.bytes.extend_from_slice(&fresh.bytes).unwrap();
        give_room_back(&mut self.runs);
        give_room_back(&mut self.bytes);
        Ok(())
    }

    /// How many bytes the runs have together.
    pub fn size(&self) -> u64
        ensures { result ≡ sizes self.now }
    {
        self.bytes.len() as u64
    }

    /// Whether a range lies in one of the runs, which are in order.
    pub fn has(&self, range: ByteRange) -> bool
        requires order { AllPairs EndsBefore self.now }
        requires some { 0 < range.len }
        ensures { result ≡ list_any (holds range) self.now }
    {
        let begun = begun_by(&self.runs, range.start);
        if begun == 0 {
            return false;
        }
        let run = self.runs[begun - 1];
        run.holds(range)
    }

    /// The bytes of a range that lies in one of the runs, which are in order.
    pub fn part(&self, range: ByteRange) -> &[u8]
        requires order { AllPairs EndsBefore self.now }
        requires held { list_any (holds range) self.now ≡ true }
        requires some { 0 < range.len }
        ensures bytes { (all : List ℕ) → All (HasItsPart all) self.now
            → result.now ≡ take range.len (drop range.start all) }
        ensures len { length result.now ≡ range.len }
    {
        let begun = begun_by(&self.runs, range.start);
        let run = self.runs[begun - 1];
        let from = run.at as usize + (range.start - run.first) as usize;
        bytes_at(&self.bytes, from, range.len as usize)
    }
}

// Gives room back where little of it is used.
fn give_room_back<T>(items: &mut Vec<T>)
    ensures { items.new.items ≡ items.old.items }
{
    if items.capacity() / 4 > items.len() {
        items.shrink_to_fit();
    }
}

// Whether a block of so many bytes has room for so many more.
fn fits(size: usize, count: usize) -> bool
    ensures { result ≡ true → size + count < 2 ^ 32 }
{
    if size >= MOST {
        return false;
    }
    if count >= MOST - size {
        return false;
    }
    true
}

// Adds runs that lie so much further on, for which there is room.
fn add_shifted(runs: &mut Vec<PackedRun>, fresh: &[PackedRun], at: u32)
    requires room { vec_len runs.old + length fresh.now ≤ vec_capacity runs.old }
    requires fits { All (λ run. at + run.at < 2 ^ 32) fresh.now }
    ensures { runs.new.items ≡ runs.old.items ++ map (shifted at) fresh.now }
{
    for run in fresh {
        let further = at + run.at;
        runs.push_reserved(PackedRun {
            first: run.first,
            at: further,
            len: run.len,
        });
    }
}

// So many bytes from one on.
fn bytes_at(bytes: &[u8], from: usize, len: usize) -> &[u8]
    requires { from + len ≤ length bytes.now }
    ensures { result.now ≡ take len (drop from bytes.now) }
{
    &bytes[from..from + len]
}

// How many of the runs begin at `start` or before. By halving.
fn begun_by(runs: &[PackedRun], start: u64) -> usize
    requires { IsNonDecreasingBy (λ run. run.first) runs.now }
    ensures few { result ≤ length runs.now }
    ensures before { AllWithin (λ run. run.first ≤ start) runs.now 0 result }
    ensures behind { AllWithin (λ run. start < run.first) runs.now result (length runs.now) }
{
    runs.partition_point(|run| run.first <= start)
}
