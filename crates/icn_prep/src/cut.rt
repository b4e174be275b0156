// Where a line of a file ends.
ghost use Rattle.std.specs.Prelude.{◌≡◌, ◌≤◌, ◌<◌, ◌∷◌, length, drop};
ghost use Rattle.icn_prep.specs.FileLines.{lines_of};

use bstr::ByteSlice;

/// The first line, and how many bytes it has with its end.
pub fn first_line(text: &[u8]) -> (&[u8], usize)
    requires { 0 < length text.now }
    ensures cut { lines_of text.now ≡ result.0.now ∷ lines_of (drop result.1 text.now) }
    ensures some { 0 < result.1 }
    ensures within { result.1 ≤ length text.now }
{
    let mut lines = text.lines();
    let mut whole_lines = text.lines_with_terminator();
    let Some(line) = lines.next() else {
        unreachable!()
    };
    let Some(whole) = whole_lines.next() else {
        unreachable!()
    };
    (line, whole.len())
}
