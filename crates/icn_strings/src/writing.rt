// What is written behind all bytes, piece by piece. The last chunk has room for it, so that nothing fails.
ghost use Rattle.std.specs.Prelude.{◌≡◌, ◌+◌, ◌*◌, ◌<◌, ◌≤◌, drop, length, map, replicate, reverse, slice_index, take};
ghost use Rattle.std.specs.List.{All, sum_by};
ghost use Rattle.icn_strings.specs.RepeatedBytes.{copies, filled_left, filled_right};
ghost use Rattle.icn_strings.specs.Pieces.{IsPieceIn, OriginIn, made_of, origin_bytes, origin_length, piece_bytes, piece_length};
ghost use Rattle.icn_strings.specs.Regions.{IsOf, bytes_of};
ghost use Rattle.icn_strings.specs.WrittenBytes.{CanWrite, Writes};

use crate::all_bytes::AllBytes;
use crate::byte_range::ByteRange;
use crate::piece::{Origin, StringPiece};
use crate::region::Region;
use crate::region_laws::{end_of_range, part_of_range};

impl Region {
    /// Writes some pieces, one behind the other.
    pub(crate) fn add_pieces(&mut self, pieces: &[StringPiece])
        requires pieces { All (IsPieceIn self.old) pieces.now }
        requires can { CanWrite self.old (sum_by piece_length pieces.now) }
        ensures { Writes self.old self.new (made_of self.old pieces.now) }
    {
        for piece in pieces {
            self.add_piece(piece);
        }
    }

    // Writes a piece.
    fn add_piece(&mut self, piece: &StringPiece)
        requires piece { IsPieceIn self.old piece.now }
        requires can { CanWrite self.old (piece_length piece.now) }
        ensures { Writes self.old self.new (piece_bytes self.old piece.now) }
    {
        match piece {
            StringPiece::Copies(origin, count) => self.add_copies(origin, *count),
            StringPiece::FilledLeft(origin, count) => self.fill_left(origin, *count),
            StringPiece::FilledRight(origin, count) => self.fill_right(origin, *count),
            StringPiece::Reversed(origin) => self.add_reversed(origin),
            StringPiece::Mapped(origin, images) => self.add_mapped(origin, images),
        }
    }

    // Writes so many bytes of some that are put again and again, from the left end on.
    fn fill_left(&mut self, origin: &Origin, count: u64)
        requires origin { OriginIn self.old origin.now }
        requires some { 0 < origin_length origin.now }
        requires can { CanWrite self.old count }
        ensures { Writes self.old self.new (filled_left count (origin_bytes self.old origin.now)) }
    {
        let unit = origin.len();
        if count == 0 {
            return;
        }
        if unit == 1 {
            self.add_copies(origin, count);
            return;
        }
        self.put_from_left(origin, unit, count);
    }

    // Writes whole copies, and behind them the first bytes of one.
    fn put_from_left(&mut self, origin: &Origin, unit: u64, count: u64)
        requires origin { OriginIn self.old origin.now }
        requires some { 0 < unit }
        requires unit { unit ≡ origin_length origin.now }
        requires can { CanWrite self.old count }
        ensures { Writes self.old self.new (filled_left count (origin_bytes self.old origin.now)) }
    {
        let part = self.part_of(origin, 0, count % unit);
        self.add_copies(origin, count / unit);
        self.add_origin(&part);
    }

    // Writes so many bytes of some that are put again and again, up to the right end.
    fn fill_right(&mut self, origin: &Origin, count: u64)
        requires origin { OriginIn self.old origin.now }
        requires some { 0 < origin_length origin.now }
        requires can { CanWrite self.old count }
        ensures { Writes self.old self.new (filled_right count (origin_bytes self.old origin.now)) }
    {
        let unit = origin.len();
        if count == 0 {
            return;
        }
        if unit == 1 {
            self.add_copies(origin, count);
            return;
        }
        self.put_from_right(origin, unit, count);
    }

    // Writes the last bytes of a copy, and behind them whole ones.
    fn put_from_right(&mut self, origin: &Origin, unit: u64, count: u64)
        requires origin { OriginIn self.old origin.now }
        requires some { 0 < unit }
        requires unit { unit ≡ origin_length origin.now }
        requires can { CanWrite self.old count }
        ensures { Writes self.old self.new (filled_right count (origin_bytes self.old origin.now)) }
    {
        let rest = count % unit;
        let part = self.part_of(origin, unit - rest, rest);
        self.add_origin(&part);
        self.add_copies(origin, count / unit);
    }

    // Writes some bytes so many times.
    fn add_copies(&mut self, origin: &Origin, count: u64)
        requires origin { OriginIn self.old origin.now }
        requires can { CanWrite self.old (count * origin_length origin.now) }
        ensures { Writes self.old self.new (copies count (origin_bytes self.old origin.now)) }
    {
        let unit = origin.len();
        if unit == 0 {
            return;
        }
        if count == 0 {
            return;
        }
        if unit == 1 {
            let byte = self.first_byte(origin);
            self.add_byte(byte, count);
            return;
        }
        self.repeat(origin, count);
    }

    // Writes some bytes, and then again, so many times.
    fn repeat(&mut self, origin: &Origin, count: u64)
        requires origin { OriginIn self.old origin.now }
        requires some { 0 < count }
        requires can { CanWrite self.old (count * origin_length origin.now) }
        ensures { Writes self.old self.new (copies count (origin_bytes self.old origin.now)) }
    {
        let kept = self.last_len();
        self.add_origin(origin);
        self.last.repeat_behind(kept, count);
        self.written = AllBytes::up_to(&self.written, &self.last);
    }

    // Writes a byte so many times.
    fn add_byte(&mut self, byte: u8, count: u64)
        requires { CanWrite self.old count }
        ensures { Writes self.old self.new (replicate count byte) }
    {
        self.last.fill(byte, count);
        self.written = AllBytes::up_to(&self.written, &self.last);
    }

    // Writes some bytes.
    fn add_origin(&mut self, origin: &Origin)
        requires origin { OriginIn self.old origin.now }
        requires can { CanWrite self.old (origin_length origin.now) }
        ensures { Writes self.old self.new (origin_bytes self.old origin.now) }
    {
        match origin {
            Origin::Held(range) => self.add_copy(*range),
            Origin::Given(bytes) => self.add(bytes),
        }
    }

    // Writes some bytes from the last one to the first.
    fn add_reversed(&mut self, origin: &Origin)
        requires origin { OriginIn self.old origin.now }
        requires can { CanWrite self.old (origin_length origin.now) }
        ensures { Writes self.old self.new (reverse (origin_bytes self.old origin.now)) }
    {
        let kept = self.last_len();
        self.add_origin(origin);
        self.last.reverse_behind(kept);
        self.written = AllBytes::up_to(&self.written, &self.last);
    }

    // Writes the images of some bytes.
    fn add_mapped(&mut self, origin: &Origin, images: &[u8; 256])
        requires origin { OriginIn self.old origin.now }
        requires can { CanWrite self.old (origin_length origin.now) }
        ensures { Writes self.old self.new (map (slice_index images.now) (origin_bytes self.old origin.now)) }
    {
        let kept = self.last_len();
        self.add_origin(origin);
        self.last.map_behind(kept, images);
        self.written = AllBytes::up_to(&self.written, &self.last);
    }

    // How many bytes the last chunk has.
    fn last_len(&self) -> usize
        ensures { result ≡ length self.now.last.bytes.items }
    {
        self.last.bytes.len()
    }

    // The first of some bytes.
    fn first_byte(&self, origin: &Origin) -> u8
        requires origin { OriginIn self.now origin.now }
        requires some { 0 < origin_length origin.now }
        ensures { result ≡ slice_index (origin_bytes self.now origin.now) 0 }
    {
        match origin {
            Origin::Held(range) => self.bytes(*range)[0],
            Origin::Given(bytes) => bytes[0],
        }
    }

    // A part of some bytes, from a place on.
    fn part_of<'a>(&self, origin: &Origin<'a>, from: u64, len: u64) -> Origin<'a>
        requires origin { OriginIn self.now origin.now }
        requires within { from + len ≤ origin_length origin.now }
        ensures origin { OriginIn self.now result }
        ensures bytes { origin_bytes self.now result ≡ take len (drop from (origin_bytes self.now origin.now)) }
        ensures len { origin_length result ≡ len }
    {
        match origin {
            Origin::Held(range) => Origin::Held(self.part(*range, from, len)),
            Origin::Given(bytes) => Origin::Given(part_given(bytes, from, len)),
        }
    }

    // A part of a string, from a place on.
    fn part(&self, range: ByteRange, from: u64, len: u64) -> ByteRange
        requires of { IsOf self.now range }
        requires within { from + len ≤ range.len }
        ensures of { IsOf self.now result }
        ensures bytes { bytes_of self.now result ≡ take len (drop from (bytes_of self.now range)) }
        ensures len { result.len ≡ len }
    {
        end_of_range(self, range);
        let part = ByteRange {
            start: range.start + from,
            len,
        };
        part_of_range(self, part, range);
        part
    }
}

// A part of bytes that are given, from a place on.
fn part_given(bytes: &[u8], from: u64, len: u64) -> &[u8]
    requires { from + len ≤ length bytes.now }
    ensures part { result.now ≡ take len (drop from bytes.now) }
    ensures len { length result.now ≡ len }
{
    let from = from as usize;
    &bytes[from..from + len as usize]
}
