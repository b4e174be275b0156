// Giving lines, and refusing them.
ghost use Rattle.std.specs.Prelude.{◌≡◌, ◌≢◌, ◌⊎◌, ◌≤◌, ◌<◌, ◌+◌, ◌++◌, ◌∷◌, [], Ok, length, vec_len, slice_index_or, slice_get, IfOk, OnOk, IfErr, MatchResult};
ghost use Rattle.icn_tree.specs.declared.rule.Rule.TheVariants.{P6};
ghost use Rattle.icn_prep.specs.declared.fault.PrepFault.TheVariants.{Broken, NoMemory};
ghost use Rattle.icn_prep.specs.declared.literal.LiteralState.TheVariants.{Outside};
ghost use Rattle.icn_prep.specs.CursorViews.{cursor_of};
ghost use Rattle.icn_prep.specs.Cursors.{next_line};
ghost use Rattle.icn_prep.specs.Refusals.{Refuses, IsOfPrep, IsOfText};
ghost use Rattle.icn_prep.specs.SourceLines.{first_state, name_at, give_line, left_empty};
ghost use Rattle.icn_prep.specs.StateViews.{state_of};

use crate::cursor::Cursor;
use crate::fault::PrepFault;
use crate::literal::LiteralState;
use crate::source_reader::SourceReader;
use crate::texts::Texts;
use icn_profile::MOST_BYTES_OF_SOURCE;
use icn_tree::{Bytes, Rule, SourceLine};
use std::alloc::Global;

/// How long a file, and all lines that a named file gives, joined by one newline, may be, in bytes.
pub const LONGEST: usize = MOST_BYTES_OF_SOURCE as usize;

/// Nothing was read yet.
pub fn start(alloc: Global) -> SourceReader
    ensures state { state_of result ≡ first_state }
    ensures empty { result.size ≡ 0 }
{
    SourceReader {
        alloc,
        names: Vec::new(alloc),
        lines: Vec::new(alloc),
        size: 0,
        texts: Texts::new(alloc),
        literal: LiteralState::Outside,
    }
}

/// The name at this index among the names of files, or no bytes.
pub fn name_at(reading: &SourceReader, file: u32) -> &[u8]
    ensures { result.now ≡ name_at (state_of reading.now) file }
{
    match reading.names.get(file as usize) {
        Some(name) => name.as_slice(),
        None => &[],
    }
}

/// The refusal of a line of a file.
pub fn line_refusal(alloc: Global, rule: Rule, file: &[u8], line: u32) -> PrepFault
    ensures { (result ≡ NoMemory) ⊎ (result ≡ Broken rule file.now line) }
{
    match Bytes::from_slice(alloc, file) {
        Ok(file) => PrepFault::Broken { rule, file, line },
        Err(_) => PrepFault::NoMemory,
    }
}

/// The refusal of the line at the cursor.
pub fn refusal(reading: &SourceReader, cursor: &Cursor, rule: Rule) -> PrepFault
    ensures { (result ≡ NoMemory)
        ⊎ (result ≡ Broken rule (name_at (state_of reading.now) cursor.now.file) cursor.now.line) }
{
    line_refusal(
        reading.alloc,
        rule,
        name_at(reading, cursor.file),
        cursor.line,
    )
}

/// Gives a line. The error is P9 where all lines together get too long, or want of memory.
pub fn give(
    reading: &mut SourceReader,
    cursor: &Cursor,
    bytes: Vec<u8>,
    literal: LiteralState,
) -> Result<(), PrepFault>
    requires { cursor.now.file < vec_len reading.old.names }
    ensures exact { let step = give_line (state_of reading.old) (cursor_of cursor.now) bytes.items literal in
        MatchResult result (λ _. step ≡ Ok (state_of reading.new)) (Refuses step) }
    ensures fault { IfErr result IsOfText }
    ensures rule { IfErr result IsOfPrep }
    ensures names { OnOk result (reading.new.names.items ≡ reading.old.names.items) }
    ensures longer { OnOk result (reading.old.size < reading.new.size) }
{
    if reading.size + bytes.len() > LONGEST {
        return Err(line_refusal(reading.alloc, Rule::P9, name_at(reading, 0), 0));
    }
    let size = reading.size + bytes.len() + 1;
    let line = SourceLine {
        bytes: Bytes::new(bytes),
        file: cursor.file,
        number: cursor.line,
    };
    reading.lines.push(line)?;
    reading.size = size;
    reading.literal = literal;
    Ok(())
}

/// Leaves a line empty. The errors are those of `give`.
pub fn leave_empty(reading: &mut SourceReader, cursor: &Cursor) -> Result<(), PrepFault>
    requires { cursor.now.file < vec_len reading.old.names }
    ensures exact { let step = left_empty (state_of reading.old) (cursor_of cursor.now) in
        MatchResult result (λ _. step ≡ Ok (state_of reading.new)) (Refuses step) }
    ensures fault { IfErr result IsOfText }
    ensures rule { IfErr result IsOfPrep }
    ensures names { OnOk result (reading.new.names.items ≡ reading.old.names.items) }
    ensures longer { OnOk result (reading.old.size < reading.new.size) }
{
    let none = Vec::new(reading.alloc);
    give(reading, cursor, none, LiteralState::Outside)
}

/// Adds the name of a file, and answers its index. A line was given for each name before it, so that indices have room. The
/// error is want of memory.
pub fn add_name(reading: &mut SourceReader, name: &[u8]) -> Result<u32, PrepFault>
    requires { vec_len reading.old.names ≤ reading.old.size }
    ensures cursor { IfOk result (λ cursor. cursor ≡ length reading.old.names.items) }
    ensures state { OnOk result (state_of reading.new
        ≡ record (state_of reading.old) { names = reading.old.names.items ++ name.now ∷ [] }) }
    ensures fault { IfErr result (λ fault. fault ≡ NoMemory) }
    ensures size { OnOk result (reading.new.size ≡ reading.old.size) }
    ensures first { OnOk result (0 < vec_len reading.old.names
        → slice_get reading.new.names.items 0 ≡ slice_get reading.old.names.items 0) }
    ensures kept { OnOk result (vec_len reading.new.names ≡ vec_len reading.old.names + 1) }
{
    let cursor = reading.names.len() as u32;
    let name = Bytes::from_slice(reading.alloc, name)?;
    reading.names.push(name)?;
    Ok(cursor)
}
