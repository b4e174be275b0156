// The lines that a named file gives.
ghost use Rattle.std.specs.Prelude.{◌≡◌, ◌⊎◌, ◌≤◌, ◌<◌, ◌-◌, ◌+◌, ◌++◌, ◌∷◌, [], Ok, Err, Some, length, vec_len, slice_get, IfSome, IfOk, IfErr, OnOk, IsErrOf, MatchResult};
ghost use Rattle.icn_profile.specs.Numbers.{most_bytes_of_source};
ghost use Rattle.icn_host.specs.Counts.{CountsIf, CountsOnce, HasCause};
ghost use Rattle.icn_prep.specs.declared.fault.PrepFault.TheVariants.{Broken, FileFault, NoMemory};
ghost use Rattle.icn_prep.specs.Answers.{IsOutside, IsAbsence, IsAnswer, outcome_of};
ghost use Rattle.icn_prep.specs.CursorViews.{cursor_of};
ghost use Rattle.icn_prep.specs.Refusals.{IsOfPrep};
ghost use Rattle.icn_prep.specs.Cursors.{start_of};
ghost use Rattle.icn_prep.specs.SourceLines.{include_file, named_file, source_lines};
ghost use Rattle.icn_prep.specs.StateViews.{state_of};

use crate::cursor::Cursor;
use crate::fault::PrepFault;
use crate::file::read_lines;
use crate::give::{LONGEST, add_name, leave_empty, line_refusal, refusal, start};
use crate::open_file::OpenFile;
use crate::source_reader::SourceReader;
use icn_host::{Files, ReadFailure};
use icn_tree::{Lines, Rule};
use std::alloc::Global;

/// How deep files may include one another.
const DEEPEST: usize = 32;

/// The lines that the named file gives, with the directives in it obeyed and the defined words replaced. `names` begins with the
/// named file, and has the others in the order in which they are met.
///
/// `Missing` comes where the named file is not there, `Broken` where a rule is broken, the first in reading order, `FileFault`
/// where the store failed, and `NoMemory` where there was no memory.
pub fn preprocess<F: Files>(alloc: Global, name: &str, files: &mut F) -> Result<Lines, PrepFault>
    // Where the store tells its files: exactly what the definition gives, or a fault of the store, or want of memory.
    ensures exact { IfSome (F.state files.old).held
        (λ held. IsOutside result ⊎ (outcome_of result ≡ source_lines held name.now)) }
    ensures begins { IfOk result (λ lines. slice_get lines.names.items 0 ≡ Some name.now) }

    // A rule that is broken is one of P1 to P9, whatever the store tells.
    ensures rule { IfErr result IsOfPrep }

    // The causes of what the store answers, also where it tells nothing.
    ensures file_fault { CountsOnce (F.state files.old).counts.faults (F.state files.new).counts.faults
        (IsErrOf result FileFault) }
    ensures file_want { CountsIf (F.state files.old).counts.wants (F.state files.new).counts.wants
        (IsErrOf result NoMemory) }
    ensures absence { HasCause (F.state files.old).counts.absences (F.state files.new).counts.absences
        (IsAbsence result) }
    ensures same { (F.state files.new).held ≡ (F.state files.old).held }
{
    let content = named_content(alloc, name, files)?;
    let mut reading = start(alloc);
    let first = begin_file(&mut reading, name, content)?;
    let mut stack = Vec::new(alloc);
    stack.push(first)?;
    while let Some(file) = stack.pop() {
        let OpenFile {
            content,
            at,
            mut cursor,
        } = file;
        let stop = read_lines(&mut reading, &mut cursor, &content, at)?;
        if let Some((name, at)) = stop {
            let included = included_content(&reading, &cursor, stack.len(), &name, files)?;
            leave_empty(&mut reading, &cursor)?;
            cursor.line += 1;
            let next = begin_file(&mut reading, &name, included)?;
            stack.push(OpenFile {
                content,
                at,
                cursor,
            })?;
            stack.push(next)?;
        }
    }
    Ok(Lines {
        names: reading.names,
        lines: reading.lines,
    })
}

// A file from its first line on.
fn begin_file(
    reading: &mut SourceReader,
    name: &str,
    content: Vec<u8>,
) -> Result<OpenFile, PrepFault>
    requires short { vec_len content ≤ most_bytes_of_source }
    requires few { vec_len reading.old.names ≤ reading.old.size }
    ensures cursor { IfOk result (λ file. cursor_of file.cursor ≡ start_of (length reading.old.names.items)) }
    ensures content { IfOk result (λ file. file.content.items ≡ content.items) }
    ensures at { IfOk result (λ file. file.at ≡ 0) }
    ensures named { IfOk result (λ file. file.cursor.file < vec_len reading.new.names) }
    ensures state { OnOk result (state_of reading.new
        ≡ record (state_of reading.old) { names = reading.old.names.items ++ name.now ∷ [] }) }
    ensures fault { IfErr result (λ fault. fault ≡ NoMemory) }
    ensures size { OnOk result (reading.new.size ≡ reading.old.size) }
    ensures first { OnOk result (0 < vec_len reading.old.names
        → slice_get reading.new.names.items 0 ≡ slice_get reading.old.names.items 0) }
    ensures kept { OnOk result (vec_len reading.new.names ≡ vec_len reading.old.names + 1) }
{
    let alloc = reading.alloc;
    let file = add_name(reading, name.as_bytes())?;
    let cursor = Cursor {
        file,
        line: 1,
        taken: true,
        conditionals: Vec::new(alloc),
    };
    Ok(OpenFile {
        content,
        at: 0,
        cursor,
    })
}

// The content of the named file.
fn named_content<F: Files>(alloc: Global, name: &str, files: &mut F) -> Result<Vec<u8>, PrepFault>
    ensures exact { IfSome (F.state files.old).held (λ held. MatchResult result
        (λ content. held name.now ≡ Some content.items)
        (IsAnswer (named_file held name.now (held name.now)))) }
    ensures short { IfOk result (λ content. vec_len content ≤ most_bytes_of_source) }
    ensures rule { IfErr result IsOfPrep }
    ensures file_fault { CountsOnce (F.state files.old).counts.faults (F.state files.new).counts.faults
        (IsErrOf result FileFault) }
    ensures file_want { CountsIf (F.state files.old).counts.wants (F.state files.new).counts.wants
        (IsErrOf result NoMemory) }
    ensures absence { HasCause (F.state files.old).counts.absences (F.state files.new).counts.absences
        (IsAbsence result) }
    ensures same { (F.state files.new).held ≡ (F.state files.old).held }
{
    let mut content = Vec::new(alloc);
    match files.read(name, LONGEST as u64, &mut content) {
        Ok(()) => not_longer(alloc, name, content),
        Err(ReadFailure::NotThere) => Err(PrepFault::Missing),
        Err(ReadFailure::Failed) => Err(PrepFault::FileFault),
        Err(ReadFailure::NoMemory) => Err(PrepFault::NoMemory),
    }
}

// The content of a file that the line at the cursor includes. So many files stand round the file of that line.
fn included_content<F: Files>(
    reading: &SourceReader,
    cursor: &Cursor,
    depth: usize,
    name: &str,
    files: &mut F,
) -> Result<Vec<u8>, PrepFault>
    ensures exact { IfSome (F.state files.old).held (λ held. MatchResult result
        (λ content. held name.now ≡ Some content.items)
        (IsAnswer (include_file held (32 - depth) name.now (state_of reading.now) (cursor_of cursor.now)))) }
    ensures deep { OnOk result (depth < 32) }
    ensures short { IfOk result (λ content. vec_len content ≤ most_bytes_of_source) }
    ensures rule { IfErr result IsOfPrep }
    ensures file_fault { CountsOnce (F.state files.old).counts.faults (F.state files.new).counts.faults
        (IsErrOf result FileFault) }
    ensures file_want { CountsIf (F.state files.old).counts.wants (F.state files.new).counts.wants
        (IsErrOf result NoMemory) }
    ensures absence { HasCause (F.state files.old).counts.absences (F.state files.new).counts.absences
        (IsAbsence result) }
    ensures same { (F.state files.new).held ≡ (F.state files.old).held }
{
    let mut content = Vec::new(reading.alloc);
    match files.read(name, LONGEST as u64, &mut content) {
        Ok(()) if depth >= DEEPEST => Err(refusal(reading, cursor, Rule::P7)),
        Ok(()) => not_longer(reading.alloc, name, content),
        Err(ReadFailure::NotThere) => Err(refusal(reading, cursor, Rule::P6)),
        Err(ReadFailure::Failed) => Err(PrepFault::FileFault),
        Err(ReadFailure::NoMemory) => Err(PrepFault::NoMemory),
    }
}

// The content of a file, unless it is too long.
fn not_longer(alloc: Global, name: &str, content: Vec<u8>) -> Result<Vec<u8>, PrepFault>
    ensures ok { IfOk result
        (λ whole. (whole.items ≡ content.items) × (length content.items ≤ most_bytes_of_source)) }
    ensures err { IfErr result (λ fault. (fault ≡ NoMemory)
        ⊎ ((most_bytes_of_source < length content.items) × (fault ≡ Broken Rule.P9 name.now 0))) }
{
    if content.len() > LONGEST {
        return Err(line_refusal(alloc, Rule::P9, name.as_bytes(), 0));
    }
    Ok(content)
}
