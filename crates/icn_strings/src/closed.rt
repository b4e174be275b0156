// The parts of a region to which nothing is added any more.
ghost use Rattle.std.specs.Prelude.{◌≡◌, ◌+◌, ◌^◌, ◌<◌, ◌++◌, ◌∷◌, [], true, OnOk};
ghost use Rattle.std.specs.List.{AllPairs, list_any};
ghost use Rattle.icn_strings.specs.Parts.{part, sizes, holds, EndsBefore};
ghost use Rattle.icn_strings.specs.Chunks.{chunk_sizes, parts_of_chunks};

use crate::byte_range::ByteRange;
use crate::chunk::Chunk;
use crate::lookup::{bytes_in, has_range};
use crate::packed::Packed;
use std::alloc::{AllocError, Global};
use std::marker::Model;
use std::mem;

/// Bytes of a region to which nothing is added any more: first what a sweep kept, in one block, and behind it chunks. A clause sees
/// the list of all parts.
#[derive(Drop)]
pub struct Closed {
    packed: Packed,
    chunks: Vec<Chunk>,
}

impl Model for Closed {
    ghost use Rattle.std.specs.Prelude.{◌++◌, List};
    ghost use Rattle.icn_strings.specs.Parts.{RegionPart};
    ghost use Rattle.icn_strings.specs.Chunks.{parts_of_chunks};

    ghost Value = { List RegionPart };

    ghost view = { λ c. c.packed ++ parts_of_chunks c.chunks.items };
}

impl Closed {
    ghost use Rattle.std.specs.Prelude.{◌≡◌, ◌^◌, ◌<◌, ◌++◌, ◌∷◌, [], ℕ, List, true, length, take, drop, OnOk, OnErr};
    ghost use Rattle.std.specs.List.{All, AllPairs, HoldsAt, list_any};
    ghost use Rattle.icn_strings.specs.Parts.{part, sizes, holds, EndsBefore, HasItsPart, IsWhole};
    ghost use Rattle.icn_strings.specs.Chunks.{part_of_chunk};

    /// No parts. It takes no memory.
    pub fn nothing(alloc: Global) -> Closed
        ensures { result ≡ [] }
    {
        Closed {
            packed: Packed::nothing(alloc),
            chunks: Vec::new(alloc),
        }
    }

    /// Adds the last chunk behind the others, and puts another one in its place. The error is want of memory, and leaves all as it was.
    pub fn add(&mut self, last: &mut Chunk, next: Chunk) -> Result<(), AllocError>
        ensures added { OnOk result (self.new ≡ self.old ++ part_of_chunk last.old ∷ []) }
        ensures next { OnOk result (last.new ≡ next) }
        ensures unchanged { OnErr result (self.new ≡ self.old) }
        ensures stays { OnErr result (last.new ≡ last.old) }
    {
        self.chunks.reserve(1)?;
        let before = mem::replace(last, next);
        self.chunks.push_reserved(before);
        Ok(())
    }

    /// Adds a part behind the others, in the block where this has room for it, or else as a chunk. The error is want of memory.
    pub fn push(&mut self, alloc: Global, first: u64, bytes: &[u8]) -> Result<(), AllocError>
        ensures { OnOk result (self.new ≡ self.old ++ part first bytes.now ∷ []) }
    {
        if has_room(&self.packed, &self.chunks, bytes.len()) {
            return self.packed.push(first, bytes);
        }
        push_chunk(alloc, &mut self.chunks, first, bytes)
    }

    /// Whether there is no part.
    pub fn is_empty(&self) -> bool
        ensures { result ≡ true → self.now ≡ [] }
    {
        if self.chunks.len() == 0 {
            return self.packed.is_empty();
        }
        false
    }

    /// Whether the part at an index lies in the block, and is just this range.
    pub fn is_at(&self, index: usize, range: ByteRange) -> bool
        ensures within { result ≡ true → index < length self.now }
        ensures small { result ≡ true → index < 2 ^ 63 }
        ensures whole { result ≡ true → HoldsAt (IsWhole range) self.now index }
    {
        self.packed.is_at(index, range)
    }

    /// Puts other parts in place of all but the first `same`, which must lie in the block. The error is want of memory, or of room in the
    /// block, and nothing changed then.
    pub fn put_behind(&mut self, same: usize, fresh: Closed) -> Result<(), AllocError>
        ensures put { OnOk result (self.new ≡ take same self.old ++ fresh) }
        ensures unchanged { OnErr result (self.new ≡ self.old) }
    {
        if same == 0 {
            *self = fresh;
            return Ok(());
        }
        let Closed { packed, chunks } = fresh;
        self.packed.put_behind(same, &packed)?;
        self.chunks = chunks;
        Ok(())
    }

    /// How many bytes the parts have together.
    pub fn size(&self) -> u64
        requires { sizes self.now < 2 ^ 64 }
        ensures { result ≡ sizes self.now }
    {
        self.packed.size() + size_of(&self.chunks)
    }

    /// Whether a range lies in one of the parts, which are in order.
    pub fn has(&self, range: ByteRange) -> bool
        requires order { AllPairs EndsBefore self.now }
        requires some { 0 < range.len }
        ensures { result ≡ list_any (holds range) self.now }
    {
        if self.packed.has(range) {
            return true;
        }
        has_range(&self.chunks, range)
    }

    /// The bytes of a range that lies in one of the parts, which are in order.
    pub fn part(&self, range: ByteRange) -> &[u8]
        requires order { AllPairs EndsBefore self.now }
        requires held { list_any (holds range) self.now ≡ true }
        requires some { 0 < range.len }
        ensures bytes { (all : List ℕ) → All (HasItsPart all) self.now
            → result.now ≡ take range.len (drop range.start all) }
        ensures len { length result.now ≡ range.len }
    {
        if is_in_chunk(&self.packed, &self.chunks, range) {
            return bytes_in(&self.chunks, range);
        }
        self.packed.part(range)
    }
}

// Whether a range that lies in the block or in a chunk lies in a chunk.
fn is_in_chunk(packed: &Packed, chunks: &[Chunk], range: ByteRange) -> bool
    requires order { AllPairs EndsBefore (parts_of_chunks chunks.now) }
    requires held { list_any (holds range) (packed.now ++ parts_of_chunks chunks.now) ≡ true }
    requires some { 0 < range.len }
    ensures { result ≡ list_any (holds range) (parts_of_chunks chunks.now) }
{
    if packed.is_empty() {
        return true;
    }
    has_range(chunks, range)
}

// Whether the block is the last part, and has room for so many bytes more.
fn has_room(packed: &Packed, chunks: &[Chunk], count: usize) -> bool
    ensures none { result ≡ true → chunks.now ≡ [] }
    ensures room { result ≡ true → sizes packed.now + count < 2 ^ 32 }
{
    if chunks.len() > 0 {
        return false;
    }
    packed.has_room(count)
}

// Adds a chunk of these bytes behind the others.
fn push_chunk(
    alloc: Global,
    chunks: &mut Vec<Chunk>,
    first: u64,
    bytes: &[u8],
) -> Result<(), AllocError>
    ensures { OnOk result (parts_of_chunks chunks.new.items
        ≡ parts_of_chunks chunks.old.items ++ part first bytes.now ∷ []) }
{
    let bytes = Vec::from_slice(alloc, bytes)?;
    chunks.push(Chunk { first, bytes })?;
    Ok(())
}

// How many bytes some chunks have together.
fn size_of(chunks: &[Chunk]) -> u64
    requires { chunk_sizes chunks.now < 2 ^ 64 }
    ensures { result ≡ chunk_sizes chunks.now }
{
    let mut sum = 0;
    for chunk in chunks {
        sum += chunk.bytes.len() as u64;
    }
    sum
}
