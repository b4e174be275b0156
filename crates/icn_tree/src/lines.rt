// The lines of a program text.
ghost use Rattle.std.specs.Prelude.{◌≤◌, IsTrue};
ghost use Rattle.icn_profile.specs.Numbers.{most_bytes_of_source};
ghost use Rattle.icn_tree.specs.SourceTexts.{joined_len, names_files};

use crate::bytes::Bytes;

/// A line of a program text, with the place that a refusal names.
#[derive(Debug, Drop)]
pub struct SourceLine {
    /// Its bytes, without the end of the line.
    pub bytes: Bytes,
    /// The place of its file's name among the names of the lines.
    pub file: u32,
    /// Its number in that file, from 1 unless a directive numbers it otherwise.
    pub number: u32,
}

/// The lines that one named file gives, with the names of the files that they stand in. Joined by one newline they have
/// at most 16777216 bytes.
#[derive(Debug, Drop)]
pub struct Lines {
    /// The names of files, the named one first.
    pub names: Vec<Bytes>,
    /// The lines in their order.
    pub lines: Vec<SourceLine>,
    ghost within: { joined_len lines.items ≤ most_bytes_of_source },
    ghost named: { IsTrue (names_files names.items lines.items) },
}
