// What reading has come to.
ghost use Rattle.std.specs.Prelude.{◌≡◌, ◌≤◌, ◌+◌, IsTrue, vec_len};
ghost use Rattle.icn_profile.specs.Numbers.{most_bytes_of_source};
ghost use Rattle.icn_tree.specs.SourceTexts.{names_files};
ghost use Rattle.icn_prep.specs.LineLengths.{ended_len};

use crate::literal::LiteralState;
use crate::texts::Texts;
use icn_tree::{Bytes, SourceLine};
use std::alloc::Global;

/// What reading has come to.
#[derive(Drop)]
pub struct SourceReader {
    /// Where memory comes from.
    pub alloc: Global,
    /// The names of files in the order in which they were met.
    pub names: Vec<Bytes>,
    /// The lines given so far.
    pub lines: Vec<SourceLine>,
    /// How many bytes these have, with a newline behind each.
    pub size: usize,
    /// The names that are defined.
    pub texts: Texts,
    /// How the next line begins.
    pub literal: LiteralState,
    ghost counted: { size ≡ ended_len lines.items },
    ghost within: { size ≤ most_bytes_of_source + 1 },
    ghost few: { vec_len names ≤ size + 1 },
    ghost named: { IsTrue (names_files names.items lines.items) },
}
