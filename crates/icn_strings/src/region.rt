// The region of strings.
ghost use Rattle.std.specs.Prelude.{[], ◌≡◌, ◌+◌, ◌-◌, ◌^◌, ◌<◌, ◌≤◌, ◌↔◌, ◌++◌, length, vec_len, OnOk, OnErr, IfOk, SomeIff};
ghost use Rattle.std.specs.Vec.{vec_capacity};
ghost use Rattle.std.specs.List.{All};
ghost use Rattle.icn_strings.specs.Parts.{end_of, sizes, IsSize-prop};
ghost use Rattle.icn_strings.specs.Chunks.{part_of_chunk, HasRoom, AreSoundChunks, AreSoundChunks-prop};

use crate::all_bytes::AllBytes;
use crate::byte_range::ByteRange;
use crate::chunk::Chunk;
use crate::closed::Closed;
use crate::copy::copy_behind;
use crate::full::RegionFull;
use crate::piece::{StringPiece, length_of};
use std::alloc::{AllocError, Global};

// A region has fewer bytes, so that every position in a string is an `i64`, the one behind its last byte too.
const MOST: u64 = i64::MAX as u64;

// How many bytes a chunk has room for, unless the string that opens it is more than half as long.
const ROOM: usize = 65536;

/// The strings of a program's heap.
///
/// A string that is built or joined is charged by its length, in bytes, and what is charged never passes the limit.
/// One that is held is not charged. The bytes of a range never change. `sweep` alone gives memory back: it keeps the strings that it is told to.
///
/// The bytes lie in chunks. What is written goes behind all bytes, into the last chunk, as long as it has room; it never grows, so that
/// nothing is moved, and a range lies in one chunk.
#[derive(Drop)]
pub struct Region {
    pub(crate) alloc: Global,
    // the parts to which nothing is added any more
    pub(crate) closed: Closed,
    // how many bytes they have together
    pub(crate) closed_size: u64,
    pub(crate) last: Chunk,
    pub(crate) written: AllBytes,
    sum: u64,
    limit: u64,
    ghost sound: { AreSoundChunks written.bytes closed last sum limit } by { AreSoundChunks-prop
        written.bytes closed last sum limit },
    ghost counted: { closed_size ≡ sizes closed } by { IsSize-prop closed_size closed },
}

impl Region {
    ghost use Rattle.icn_strings.specs.Regions.{limit_of, sum_of, held_by, IsOf, bytes_of, KeepsRanges, IsUnchanged};
    ghost use Rattle.icn_strings.specs.Pieces.{IsPieceIn, made_of};
    ghost use Rattle.icn_strings.specs.WrittenBytes.{CanWrite, Writes};

    /// A region without strings that charges at most `limit` bytes. It takes no memory until a string has bytes.
    #[tactic(auto, using(crate::proofs::AddedBytes::sound_new, crate::proofs::ChunkSizes::sizes_none), unfolding(crate::specs::Regions::limit_of, crate::specs::Regions::sum_of))]
    pub fn new(alloc: Global, limit: u64) -> Region
        ensures limit { limit_of result ≡ limit }
        ensures sum { sum_of result ≡ 0 }
    {
        Region {
            alloc,
            closed: Closed::nothing(alloc),
            closed_size: 0,
            last: Chunk {
                first: 0,
                bytes: Vec::new(alloc),
            },
            written: AllBytes::nothing(),
            sum: 0,
            limit,
        }
    }

    /// Makes a string of these bytes, and charges them.
    ///
    /// The limit is looked at before memory: `Strings` comes exactly where it would be passed, and `NoMemory` only
    /// where it would not. Either leaves the region as it was.
    #[tactic(auto, using(crate::proofs::KeptRegions::keeps_then))]
    pub fn build(&mut self, bytes: &[u8]) -> Result<ByteRange, RegionFull>
        ensures of { IfOk result (IsOf self.new) }
        ensures len { IfOk result (λ range. range.len ≡ length bytes.now) }
        ensures bytes { IfOk result (λ range. bytes_of self.new range ≡ bytes.now) }
        ensures sum { OnOk result (sum_of self.new ≡ sum_of self.old + length bytes.now) }
        ensures within { sum_of self.new ≤ limit_of self.new }
        ensures kept { KeepsRanges self.old self.new }

        ensures full { result ≡ Err (RegionFull.Strings (sum_of self.old) (limit_of self.old))
            ↔ (limit_of self.old < sum_of self.old + length bytes.now) }
        ensures memory { sum_of self.old + length bytes.now ≤ limit_of self.old
            → OnErr result (result ≡ Err RegionFull.NoMemory) }
        ensures err { OnErr result (IsUnchanged self.old self.new) }
    {
        let len = bytes.len() as u64;
        if len > self.room() {
            return Err(self.limit_refusal());
        }
        let range = self.hold(bytes)?;
        self.charge(len);
        Ok(range)
    }

    /// Makes a string of some pieces, one behind the other, and charges it.
    ///
    /// The limit is looked at before memory: `Strings` comes exactly where it would be passed, and `NoMemory` only
    /// where it would not. Either leaves the region as it was.
    #[tactic(auto, using(crate::proofs::KeptRegions::keeps_then))]
    pub fn build_of(&mut self, pieces: &[StringPiece]) -> Result<ByteRange, RegionFull>
        requires { All (IsPieceIn self.old) pieces.now }
        ensures of { IfOk result (IsOf self.new) }
        ensures len { IfOk result (λ range. range.len ≡ length (made_of self.old pieces.now)) }
        ensures bytes { IfOk result (λ range. bytes_of self.new range ≡ made_of self.old pieces.now) }
        ensures sum { OnOk result (sum_of self.new ≡ sum_of self.old + length (made_of self.old pieces.now)) }
        ensures within { sum_of self.new ≤ limit_of self.new }
        ensures kept { KeepsRanges self.old self.new }

        ensures full { result ≡ Err (RegionFull.Strings (sum_of self.old) (limit_of self.old))
            ↔ (limit_of self.old < sum_of self.old + length (made_of self.old pieces.now)) }
        ensures memory { sum_of self.old + length (made_of self.old pieces.now) ≤ limit_of self.old
            → OnErr result (result ≡ Err RegionFull.NoMemory) }
        ensures err { OnErr result (IsUnchanged self.old self.new) }
    {
        let Some(size) = self.allowed_length(pieces) else {
            return Err(self.limit_refusal());
        };
        let made = self.hold_pieces(pieces, size)?;
        self.charge(made.len);
        Ok(made)
    }

    /// Makes a string of the bytes of `a` and then those of `b`, and charges both, whatever was there already: where `a` ends where all
    /// bytes end, and the chunk has room, those of `b` alone are written, and none where `b` lies right behind `a`.
    ///
    /// The limit is looked at before memory: `Strings` comes exactly where it would be passed, and `NoMemory` only
    /// where it would not. Either leaves the region as it was.
    #[tactic(auto, using(crate::proofs::KeptRegions::keeps_then))]
    pub fn join(&mut self, a: ByteRange, b: ByteRange) -> Result<ByteRange, RegionFull>
        requires first { IsOf self.old a }
        requires second { IsOf self.old b }
        ensures of { IfOk result (IsOf self.new) }
        ensures len { IfOk result (λ range. range.len ≡ a.len + b.len) }
        ensures bytes { IfOk result
            (λ range. bytes_of self.new range ≡ bytes_of self.old a ++ bytes_of self.old b) }
        ensures sum { OnOk result (sum_of self.new ≡ sum_of self.old + (a.len + b.len)) }
        ensures within { sum_of self.new ≤ limit_of self.new }
        ensures kept { KeepsRanges self.old self.new }

        ensures full { result ≡ Err (RegionFull.Strings (sum_of self.old) (limit_of self.old))
            ↔ (limit_of self.old < sum_of self.old + (a.len + b.len)) }
        ensures memory { sum_of self.old + (a.len + b.len) ≤ limit_of self.old
            → OnErr result (result ≡ Err RegionFull.NoMemory) }
        ensures err { OnErr result (IsUnchanged self.old self.new) }
    {
        // One after the other, so that the sum of the two lengths cannot overflow.
        let room = self.room();
        if a.len > room || b.len > room - a.len {
            return Err(self.limit_refusal());
        }
        let range = self.hold_both(a, b)?;
        self.charge(range.len);
        Ok(range)
    }

    /// Makes a string of these bytes without a charge, for literals and for results that cost nothing.
    ///
    /// The error is want of memory, and leaves the region as it was.
    #[tactic(auto, using(crate::proofs::KeptRegions::keeps_then))]
    pub fn hold(&mut self, bytes: &[u8]) -> Result<ByteRange, AllocError>
        ensures of { IfOk result (IsOf self.new) }
        ensures len { IfOk result (λ range. range.len ≡ length bytes.now) }
        ensures bytes { IfOk result (λ range. bytes_of self.new range ≡ bytes.now) }
        ensures sum { sum_of self.new ≡ sum_of self.old }
        ensures kept { KeepsRanges self.old self.new }

        ensures err { OnErr result (IsUnchanged self.old self.new) }
    {
        let start = self.end();
        let len = bytes.len() as u64;
        if len >= MOST - start {
            return Err(AllocError);
        }
        self.make_room(len)?;
        self.add(bytes);
        Ok(ByteRange { start, len })
    }

    /// The bytes of a string. It takes no memory.
    #[tactic(auto, unfolding(crate::specs::Regions::IsHeld, crate::specs::Regions::bytes_of))]
    pub fn bytes(&self, range: ByteRange) -> &[u8]
        requires { IsOf self.now range }
        ensures { result.now ≡ bytes_of self.now range }
    {
        if range.len == 0 {
            return &[];
        }
        if self.last.holds(range) {
            return self.last.part(range);
        }
        self.closed.part(range)
    }

    /// How many bytes the region holds, those that no string needs any more too: `sweep` makes them as few as what it keeps. It takes no memory.
    #[tactic(auto, unfolding(crate::specs::Regions::held_by))]
    pub fn held_bytes(&self) -> u64
        ensures { result ≡ held_by self.now }
    {
        self.closed_size + self.last.bytes.len() as u64
    }

    // Where all bytes end.
    pub(crate) fn end(&self) -> u64
        ensures end { result ≡ length self.now.written.bytes }
        ensures short { result < 2 ^ 63 - 1 }
    {
        self.last.first + self.last.bytes.len() as u64
    }

    // Has the last chunk room for so many bytes more: the present one, or a new one.
    fn make_room(&mut self, len: u64) -> Result<(), AllocError>
        ensures room { OnOk result (HasRoom self.new.last len) }
        ensures written { self.new.written ≡ self.old.written }
        ensures sum { sum_of self.new ≡ sum_of self.old }
        ensures kept { KeepsRanges self.old self.new }
        ensures err { OnErr result (IsUnchanged self.old self.new) }
    {
        if self.last.has_room(len) {
            return Ok(());
        }
        self.open_chunk(len)
    }

    // Opens a chunk behind the others, with room for so many bytes or more.
    #[tactic(auto, using(crate::proofs::KeptRegions::keeps_same, crate::proofs::KeptRegions::unchanged), unfolding(crate::specs::Regions::sum_of))]
    fn open_chunk(&mut self, len: u64) -> Result<(), AllocError>
        ensures room { OnOk result (HasRoom self.new.last len) }
        ensures written { self.new.written ≡ self.old.written }
        ensures sum { sum_of self.new ≡ sum_of self.old }
        ensures kept { KeepsRanges self.old self.new }
        ensures err { OnErr result (IsUnchanged self.old self.new) }
    {
        let first = self.end();
        let bytes = room_for(self.alloc, len)?;
        let size = self.last.bytes.len() as u64;
        self.closed.add(&mut self.last, Chunk { first, bytes })?;
        self.closed_size += size;
        Ok(())
    }

    // How many bytes some pieces have together, where the limit allows them.
    fn allowed_length(&self, pieces: &[StringPiece]) -> Option<u64>
        requires { All (IsPieceIn self.now) pieces.now }
        ensures { SomeIff result (sum_of self.now + length (made_of self.now pieces.now) ≤ limit_of self.now)
            (length (made_of self.now pieces.now)) }
    {
        let most = self.room();
        let size = length_of(pieces)?;
        if size <= most { Some(size) } else { None }
    }

    // Holds some pieces, which have so many bytes together, without a charge.
    #[tactic(auto, using(crate::proofs::KeptRegions::keeps_then))]
    fn hold_pieces(&mut self, pieces: &[StringPiece], len: u64) -> Result<ByteRange, AllocError>
        requires pieces { All (IsPieceIn self.old) pieces.now }
        requires len { len ≡ length (made_of self.old pieces.now) }
        ensures of { IfOk result (IsOf self.new) }
        ensures len { IfOk result (λ range. range.len ≡ len) }
        ensures bytes { IfOk result (λ range. bytes_of self.new range ≡ made_of self.old pieces.now) }
        ensures sum { sum_of self.new ≡ sum_of self.old }
        ensures kept { KeepsRanges self.old self.new }
        ensures err { OnErr result (IsUnchanged self.old self.new) }
    {
        let start = self.end();
        if len >= MOST - start {
            return Err(AllocError);
        }
        self.make_room(len)?;
        self.add_pieces(pieces);
        Ok(ByteRange { start, len })
    }

    // Writes these bytes.
    pub(crate) fn add(&mut self, bytes: &[u8])
        requires { CanWrite self.old (length bytes.now) }
        ensures { Writes self.old self.new bytes.now }
    {
        self.last.add(bytes);
        self.written = AllBytes::up_to(&self.written, &self.last);
    }

    // Writes the bytes of a range once more.
    pub(crate) fn add_copy(&mut self, range: ByteRange)
        requires of { IsOf self.old range }
        requires can { CanWrite self.old range.len }
        ensures { Writes self.old self.new (bytes_of self.old range) }
    {
        copy_behind(&mut self.last, &self.closed, range);
        self.written = AllBytes::up_to(&self.written, &self.last);
    }

    // Holds the bytes of `a` and then those of `b`, without a charge: where both lie, or behind `a`, or behind all bytes.
    fn hold_both(&mut self, a: ByteRange, b: ByteRange) -> Result<ByteRange, AllocError>
        requires first { IsOf self.old a }
        requires second { IsOf self.old b }
        requires fits { a.len + b.len < 2 ^ 64 }
        ensures of { IfOk result (IsOf self.new) }
        ensures len { IfOk result (λ range. range.len ≡ a.len + b.len) }
        ensures bytes { IfOk result
            (λ range. bytes_of self.new range ≡ bytes_of self.old a ++ bytes_of self.old b) }
        ensures sum { sum_of self.new ≡ sum_of self.old }
        ensures kept { KeepsRanges self.old self.new }
        ensures err { OnErr result (IsUnchanged self.old self.new) }
    {
        let len = a.len + b.len;
        if self.last.has_both(a, b) {
            return Ok(ByteRange {
                start: a.start,
                len,
            });
        }
        if len >= MOST - self.end() {
            return Err(AllocError);
        }
        if self.last.ends_with(a) && self.last.has_room(b.len) {
            return Ok(self.hold_behind(a, b));
        }
        self.hold_anew(a, b)
    }

    // Holds the bytes of `b` behind those of `a`, which end where all bytes end.
    fn hold_behind(&mut self, a: ByteRange, b: ByteRange) -> ByteRange
        requires second { IsOf self.old b }
        requires from { self.old.last.first ≤ a.start }
        requires to { a.start + a.len ≡ end_of (part_of_chunk self.old.last) }
        requires room { HasRoom self.old.last b.len }
        requires short { length self.old.written.bytes + (a.len + b.len) < 2 ^ 63 - 1 }
        ensures of { IsOf self.new result }
        ensures len { result.len ≡ a.len + b.len }
        ensures bytes { bytes_of self.new result ≡ bytes_of self.old a ++ bytes_of self.old b }
        ensures sum { sum_of self.new ≡ sum_of self.old }
        ensures kept { KeepsRanges self.old self.new }
    {
        self.add_copy(b);
        ByteRange {
            start: a.start,
            len: a.len + b.len,
        }
    }

    // Holds the bytes of `a` and then those of `b` behind all bytes.
    #[tactic(auto, using(crate::proofs::KeptRegions::keeps_then))]
    fn hold_anew(&mut self, a: ByteRange, b: ByteRange) -> Result<ByteRange, AllocError>
        requires first { IsOf self.old a }
        requires second { IsOf self.old b }
        requires short { length self.old.written.bytes + (a.len + b.len) < 2 ^ 63 - 1 }
        ensures of { IfOk result (IsOf self.new) }
        ensures len { IfOk result (λ range. range.len ≡ a.len + b.len) }
        ensures bytes { IfOk result
            (λ range. bytes_of self.new range ≡ bytes_of self.old a ++ bytes_of self.old b) }
        ensures sum { sum_of self.new ≡ sum_of self.old }
        ensures kept { KeepsRanges self.old self.new }
        ensures err { OnErr result (IsUnchanged self.old self.new) }
    {
        let start = self.end();
        let len = a.len + b.len;
        self.make_room(len)?;
        self.add_copy(a);
        self.add_copy(b);
        Ok(ByteRange { start, len })
    }

    /// How many bytes more may be charged. It takes no memory.
    #[tactic(auto, unfolding(crate::specs::Regions::limit_of, crate::specs::Regions::sum_of))]
    pub fn room(&self) -> u64
        ensures { sum_of self.now + result ≡ limit_of self.now }
    {
        self.limit - self.sum
    }

    // The refusal where the limit would be passed.
    #[tactic(auto, unfolding(crate::specs::Regions::limit_of, crate::specs::Regions::sum_of))]
    fn limit_refusal(&self) -> RegionFull
        ensures { result ≡ RegionFull.Strings (sum_of self.now) (limit_of self.now) }
    {
        RegionFull::Strings {
            sum: self.sum,
            limit: self.limit,
        }
    }

    // Charges so many bytes.
    #[tactic(auto, using(crate::proofs::KeptRegions::keeps_same), unfolding(crate::specs::Regions::limit_of, crate::specs::Regions::sum_of))]
    fn charge(&mut self, len: u64)
        requires { sum_of self.old + len ≤ limit_of self.old }
        ensures sum { sum_of self.new ≡ sum_of self.old + len }
        ensures kept { KeepsRanges self.old self.new }
    {
        self.sum += len;
    }
}

// Room for so many bytes or more. Where there is memory it is for as many again, so that a long string that grows byte by byte is
// copied seldom.
fn room_for(alloc: Global, len: u64) -> Result<Vec<u8>, AllocError>
    ensures empty { IfOk result (λ bytes. bytes.items ≡ []) }
    ensures room { IfOk result (λ bytes. vec_len bytes + len ≤ vec_capacity bytes) }
{
    let least = len as usize;
    match Vec::with_capacity(alloc, ROOM.max(least.saturating_mul(2))) {
        Ok(bytes) => Ok(bytes),
        Err(_) => Vec::with_capacity(alloc, ROOM.max(least)),
    }
}
