// The decimal text of an integer.
ghost use Rattle.std.specs.Prelude.{◌≡◌, ◌≤◌, ℕ, List, take};
ghost use Rattle.std.specs.Fmt.{signed_decimal};

use itoa::Buffer;
use std::marker::Model;

// The sign and the digits of the longest integer.
const LONGEST: usize = 20;

/// The decimal text of an integer: its digits without leading zeros, behind a `-` where it is negative.
#[derive(Drop)]
pub struct Digits {
    bytes: [u8; LONGEST],
    len: usize,
}

impl Model for Digits {
    ghost Value = { List ℕ };

    ghost view = { λ d. take d.len d.bytes };

    ghost invariant = { λ d. d.len ≤ 20 };
}

impl Digits {
    /// The bytes of the text.
    pub fn as_bytes(&self) -> &[u8]
        ensures { result.now ≡ self.now }
    {
        &self.bytes[..self.len]
    }
}

/// The decimal text of an integer. It takes no memory.
pub fn decimal(n: i64) -> Digits
    ensures { result ≡ signed_decimal n }
{
    let mut buffer = Buffer::new();
    let text = buffer.format(n).as_bytes();
    let mut bytes = [0; LONGEST];
    let len = text.len();
    bytes[..len].copy_from_slice(text);
    Digits { bytes, len }
}
