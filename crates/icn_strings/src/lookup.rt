// In which chunk a range lies.
ghost use Rattle.std.specs.Prelude.{◌≡◌, ◌<◌, ◌≤◌, ℕ, List, true, length, take, drop};
ghost use Rattle.std.specs.List.{All, AllPairs, AllWithin, HoldsAt, list_any};
ghost use Rattle.icn_strings.specs.Parts.{holds, HasItsPart, EndsBefore};
ghost use Rattle.icn_strings.specs.Chunks.{part_of_chunk, parts_of_chunks};

use crate::byte_range::ByteRange;
use crate::chunk::Chunk;

/// The bytes of a range that lies in one of these chunks, which are in order.
pub fn bytes_in(chunks: &[Chunk], range: ByteRange) -> &[u8]
    requires order { AllPairs EndsBefore (parts_of_chunks chunks.now) }
    requires held { list_any (holds range) (parts_of_chunks chunks.now) ≡ true }
    requires some { 0 < range.len }
    ensures bytes { (all : List ℕ) → All (HasItsPart all) (parts_of_chunks chunks.now)
        → result.now ≡ take range.len (drop range.start all) }
    ensures len { length result.now ≡ range.len }
{
    let index = index_of(chunks, range);
    chunks[index].part(range)
}

/// Whether a range lies in one of these chunks, which are in order.
pub fn has_range(chunks: &[Chunk], range: ByteRange) -> bool
    requires order { AllPairs EndsBefore (parts_of_chunks chunks.now) }
    requires some { 0 < range.len }
    ensures { result ≡ list_any (holds range) (parts_of_chunks chunks.now) }
{
    let begun = begun_by(chunks, range.start);
    if begun == 0 {
        return false;
    }
    let last = begun - 1;
    chunks[last].holds(range)
}

// The index of the chunk in which a range lies: of the last one that begins where the range does, or before.
fn index_of(chunks: &[Chunk], range: ByteRange) -> usize
    requires order { AllPairs EndsBefore (parts_of_chunks chunks.now) }
    requires held { list_any (holds range) (parts_of_chunks chunks.now) ≡ true }
    requires some { 0 < range.len }
    ensures within { result < length chunks.now }
    ensures held { HoldsAt (λ chunk. holds range (part_of_chunk chunk) ≡ true) chunks.now result }
{
    begun_by(chunks, range.start) - 1
}

// How many of the chunks begin at `start` or before. By halving.
fn begun_by(chunks: &[Chunk], start: u64) -> usize
    requires { AllPairs EndsBefore (parts_of_chunks chunks.now) }
    ensures few { result ≤ length chunks.now }
    ensures before { AllWithin (λ chunk. chunk.first ≤ start) chunks.now 0 result }
    ensures behind { AllWithin (λ chunk. start < chunk.first) chunks.now result (length chunks.now) }
{
    chunks.partition_point(|chunk| chunk.first <= start)
}
