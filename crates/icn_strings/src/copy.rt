// Bytes of chunks, copied behind the last of them.
ghost use Rattle.std.specs.Prelude.{◌≡◌, ◌+◌, ◌++◌, ℕ, List, take, drop};
ghost use Rattle.std.specs.List.{All, AllPairs};
ghost use Rattle.icn_strings.specs.Parts.{HasItsPart, EndsBefore};
ghost use Rattle.icn_strings.specs.Chunks.{AreHeld, HasRoom, IsLast};

use crate::byte_range::ByteRange;
use crate::chunk::Chunk;
use crate::closed::Closed;

/// Adds the bytes of a range to the last chunk, which has room for them. They lie in this chunk or in one of the parts.
pub fn copy_behind(last: &mut Chunk, closed: &Closed, range: ByteRange)
    requires order { AllPairs EndsBefore closed.now }
    requires held { AreHeld closed.now last.old range }
    requires room { HasRoom last.old range.len }
    ensures first { last.new.first ≡ last.old.first }
    ensures bytes { (all : List ℕ) → All (HasItsPart all) closed.now → IsLast all last.old
        → last.new.bytes.items ≡ last.old.bytes.items ++ take range.len (drop range.start all) }
    ensures room { (count : ℕ) → HasRoom last.old (range.len + count) → HasRoom last.new count }
{
    if range.len == 0 {
        return;
    }
    if last.holds(range) {
        last.add_part(range);
        return;
    }
    last.add(closed.part(range));
}
