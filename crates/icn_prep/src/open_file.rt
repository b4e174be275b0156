// A file that is read.
ghost use Rattle.std.specs.Prelude.{◌≤◌, ◌+◌, ◌-◌, vec_len};
ghost use Rattle.icn_profile.specs.Numbers.{greatest_line, most_bytes_of_source};

use crate::cursor::Cursor;

/// A file that is read.
#[derive(Drop)]
pub struct OpenFile {
    /// Its bytes.
    pub content: Vec<u8>,
    /// How many of them were read.
    pub at: usize,
    /// Where reading is.
    pub cursor: Cursor,
    ghost short: { vec_len content ≤ most_bytes_of_source },
    ghost within: { at ≤ vec_len content },
    ghost numbered: { cursor.line + (vec_len content - at) ≤ greatest_line },
}
