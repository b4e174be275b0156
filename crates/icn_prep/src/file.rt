// Reading the lines of a file.
ghost use Rattle.std.specs.Prelude.{◌≡◌, ◌≤◌, ◌<◌, ◌+◌, ◌-◌, Ok, length, drop, vec_len, slice_get, string_bytes, IfOk, IfSome, OnOk, IfErr, MatchResult};
ghost use Rattle.std.specs.Option.{option_map};
ghost use Rattle.icn_profile.specs.Numbers.{greatest_line, most_bytes_of_source};
ghost use Rattle.icn_prep.specs.FileLines.{lines_of};
ghost use Rattle.icn_prep.specs.CursorViews.{cursor_of};
ghost use Rattle.icn_prep.specs.Refusals.{Refuses, IsOfPrep, IsOfText, rest_of_lines};
ghost use Rattle.icn_prep.specs.SourceLines.{IncludeStep, end_file, lines_read};
ghost use Rattle.icn_prep.specs.StateViews.{state_of};

use crate::cursor::Cursor;
use crate::cut::first_line;
use crate::fault::PrepFault;
use crate::give::{line_refusal, name_at};
use crate::line::read_line;
use crate::source_reader::SourceReader;
use icn_tree::Rule;

/// Reads the lines of a file that come behind the first `from` bytes. `Some` is the name of a file whose lines come next, and
/// how many bytes stand before what comes behind those. The error is the first rule that is broken, or want of memory.
pub fn read_lines(
    reading: &mut SourceReader,
    cursor: &mut Cursor,
    content: &[u8],
    from: usize,
) -> Result<Option<(String, usize)>, PrepFault>
    requires within { from ≤ length content.now }
    requires named { cursor.old.file < vec_len reading.old.names }
    requires short { length content.now ≤ most_bytes_of_source }
    requires numbered { cursor.old.line + (length content.now - from) ≤ greatest_line }
    ensures exact { (includes : IncludeStep) → let outcome = lines_read includes (state_of reading.old)
        (cursor_of cursor.old) (lines_of (drop from content.now)) in
        MatchResult result
        (λ stop. outcome ≡ rest_of_lines includes (option_map (λ s. (string_bytes s.0, s.1)) stop)
        (state_of reading.new) (cursor_of cursor.new) content.now)
        (Refuses outcome) }
    ensures fault { IfErr result IsOfText }
    ensures rule { IfErr result IsOfPrep }
    ensures named { IfOk result (λ stop. IfSome stop (λ _. cursor.new.file < vec_len reading.new.names)) }
    ensures behind { IfOk result (λ stop. IfSome stop (λ s. s.1 ≤ length content.now)) }
    ensures numbered { IfOk result
        (λ stop. IfSome stop (λ s. cursor.new.line + 1 + (length content.now - s.1) ≤ greatest_line)) }
    ensures first { OnOk result (slice_get reading.new.names.items 0 ≡ slice_get reading.old.names.items 0) }
    ensures kept { OnOk result (vec_len reading.old.names ≤ vec_len reading.new.names) }
    ensures longer { OnOk result (reading.old.size ≤ reading.new.size) }
{
    let mut at = from;
    while at < content.len() {
        let (line, used) = first_line(&content[at..]);
        at += used;
        let name = read_line(reading, cursor, line)?;
        if let Some(name) = name {
            let name = String::from_str(reading.alloc, name)?;
            return Ok(Some((name, at)));
        }
    }
    end_file(reading, cursor)?;
    Ok(None)
}

// A file closes what it began.
fn end_file(reading: &SourceReader, cursor: &mut Cursor) -> Result<(), PrepFault>
    ensures exact { let outcome = end_file (state_of reading.now) (cursor_of cursor.old).conditionals in
        MatchResult result (λ _. outcome ≡ Ok (state_of reading.now)) (Refuses outcome) }
    ensures fault { IfErr result IsOfText }
    ensures rule { IfErr result IsOfPrep }
{
    match cursor.conditionals.pop() {
        Some(innermost) => Err(line_refusal(
            reading.alloc,
            Rule::P4,
            name_at(reading, innermost.file),
            innermost.line,
        )),
        None => Ok(()),
    }
}
