// What a string is made of.
ghost use Rattle.std.specs.Prelude.{◌≡◌, ◌<◌, ◌^◌, SomeIff};
ghost use Rattle.std.specs.List.{sum_by};
ghost use Rattle.icn_strings.specs.Pieces.{origin_length, piece_length};

use crate::byte_range::ByteRange;

/// Where the bytes of a piece come from.
#[derive(Clone, Copy)]
pub enum Origin<'a> {
    /// They are those of a string of the region.
    Held(ByteRange),
    /// They are handed in.
    Given(&'a [u8]),
}

/// A piece of a string that is made.
#[derive(Clone, Copy)]
pub enum StringPiece<'a> {
    /// Some bytes so many times.
    Copies(Origin<'a>, u64),
    /// So many bytes, filled with some that are put again and again from the left end on.
    FilledLeft(Origin<'a>, u64),
    /// So many bytes, filled with some that are put again and again up to the right end.
    FilledRight(Origin<'a>, u64),
    /// Some bytes from the last one to the first.
    Reversed(Origin<'a>),
    /// The images of some bytes: the image of a byte stands at its place in the table.
    Mapped(Origin<'a>, &'a [u8; 256]),
}

impl<'a> Origin<'a> {
    /// How many bytes there are.
    pub fn len(&self) -> u64
        ensures { result ≡ origin_length self.now }
    {
        match self {
            Origin::Held(range) => range.len,
            Origin::Given(bytes) => bytes.len() as u64,
        }
    }
}

impl<'a> StringPiece<'a> {
    // How many bytes it has, where this is a number of 64 bits.
    fn len(&self) -> Option<u64>
        ensures { SomeIff result (piece_length self.now < 2 ^ 64) (piece_length self.now) }
    {
        match self {
            StringPiece::Copies(origin, count) => count.checked_mul(origin.len()),
            StringPiece::FilledLeft(_, count) => Some(*count),
            StringPiece::FilledRight(_, count) => Some(*count),
            StringPiece::Reversed(origin) => Some(origin.len()),
            StringPiece::Mapped(origin, _) => Some(origin.len()),
        }
    }
}

/// How many bytes some pieces have together, where this is a number of 64 bits.
pub fn length_of(pieces: &[StringPiece]) -> Option<u64>
    ensures { SomeIff result (sum_by piece_length pieces.now < 2 ^ 64) (sum_by piece_length pieces.now) }
{
    let mut sum: u64 = 0;
    for piece in pieces {
        let more = piece.len()?;
        sum = sum.checked_add(more)?;
    }
    Some(sum)
}
