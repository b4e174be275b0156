// Reading one line.
ghost use Rattle.std.specs.Prelude.{◌≡◌, Ok, if◌then◌else◌, IfOk, IfSome, MatchResult};
ghost use Rattle.std.specs.Option.{option_map};
ghost use Rattle.icn_prep.specs.LineBounds.{PassesLine, StandsIn};
ghost use Rattle.icn_prep.specs.Operands.{is_empty, name_operand, define_operand, line_operand};
ghost use Rattle.icn_prep.specs.CursorViews.{cursor_of};
ghost use Rattle.icn_prep.specs.Cursors.{next_line};
ghost use Rattle.icn_prep.specs.Refusals.{Refuses, rest_of_line};
ghost use Rattle.icn_prep.specs.Replacement.{replace_words};
ghost use Rattle.icn_prep.specs.SourceLines.{IncludeStep, left_empty, pass_line, text_line, define_line, undef_line, if_line, else_line, endif_line, line_line, directive_line, where_taken, line_read, refuse};
ghost use Rattle.icn_prep.specs.StateViews.{state_of};
ghost use Rattle.icn_prep.specs.TextViews.{texts_of};

use crate::cursor::{Conditional, Cursor};
use crate::directive::{is_directive, name_and_operand};
use crate::fault::PrepFault;
use crate::give::{LONGEST, add_name, give, leave_empty, line_refusal, name_at, refusal};
use crate::keyword::DirectiveName;
use crate::operand::{define_operand, file_operand, line_operand, name_operand};
use crate::replace::replace_in_line;
use crate::source_reader::SourceReader;
use icn_tree::Rule;

/// Reads a line. `Some` is the name of a file whose lines stand in its place, and then the line was not given yet. The error
/// is the rule that is broken there, or want of memory.
pub fn read_line<'a>(
    reading: &mut SourceReader,
    cursor: &mut Cursor,
    line: &'a [u8],
) -> Result<Option<&'a str>, PrepFault>
    requires here { StandsIn reading.old cursor.old }
    ensures exact { (includes : IncludeStep)
        → let step = line_read includes (state_of reading.old) (cursor_of cursor.old) line.now in
        MatchResult result
        (λ name. step
        ≡ rest_of_line includes (option_map (λ n. n.now) name) (state_of reading.new) (cursor_of cursor.new))
        (Refuses step) }
    ensures goes { PassesLine reading.old reading.new cursor.old cursor.new result }
    ensures stays { IfOk result (λ name. IfSome name (λ _. cursor.new.line ≡ cursor.old.line)) }
{
    if is_directive(reading.literal, line) {
        let (name, operand) = name_and_operand(line);
        directive(
            reading,
            cursor,
            DirectiveName::directive_named(name),
            operand,
        )
    } else {
        if cursor.taken {
            text_line(reading, cursor, line)?;
        } else {
            skip(reading, cursor)?;
        }
        Ok(None)
    }
}

// A line that is no directive.
fn text_line(reading: &mut SourceReader, cursor: &mut Cursor, line: &[u8]) -> Result<(), PrepFault>
    requires here { StandsIn reading.old cursor.old }
    ensures exact { let s = state_of reading.old in
        let step = text_line s (cursor_of cursor.old)
        (replace_words s.texts.count s.texts.text_of s.literal line.now) in
        MatchResult result (λ _. step ≡ Ok (state_of reading.new, cursor_of cursor.new)) (Refuses step) }
    ensures goes { PassesLine reading.old reading.new cursor.old cursor.new result }
{
    let most = LONGEST.saturating_sub(reading.size);
    let read = replace_in_line(reading.alloc, &reading.texts, reading.literal, line, most)?;
    let Some((bytes, literal)) = read else {
        return Err(line_refusal(reading.alloc, Rule::P9, name_at(reading, 0), 0));
    };
    give(reading, cursor, bytes, literal.at_next_line())?;
    cursor.line += 1;
    Ok(())
}

// Leaves a line empty and goes on to the next.
fn skip(reading: &mut SourceReader, cursor: &mut Cursor) -> Result<(), PrepFault>
    requires here { StandsIn reading.old cursor.old }
    ensures exact { let step = pass_line (state_of reading.old) (cursor_of cursor.old)
        (next_line (cursor_of cursor.old)) in
        MatchResult result (λ _. step ≡ Ok (state_of reading.new, cursor_of cursor.new)) (Refuses step) }
    ensures goes { PassesLine reading.old reading.new cursor.old cursor.new result }
{
    leave_empty(reading, cursor)?;
    cursor.line += 1;
    Ok(())
}

// A directive by its name and its operand.
fn directive<'a>(
    reading: &mut SourceReader,
    cursor: &mut Cursor,
    keyword: Option<DirectiveName>,
    operand: &'a [u8],
) -> Result<Option<&'a str>, PrepFault>
    requires here { StandsIn reading.old cursor.old }
    ensures exact { (includes : IncludeStep) → let step = directive_line includes (state_of reading.old)
        (cursor_of cursor.old) keyword operand.now in
        MatchResult result
        (λ name. step
        ≡ rest_of_line includes (option_map (λ n. n.now) name) (state_of reading.new) (cursor_of cursor.new))
        (Refuses step) }
    ensures goes { PassesLine reading.old reading.new cursor.old cursor.new result }
    ensures stays { IfOk result (λ name. IfSome name (λ _. cursor.new.line ≡ cursor.old.line)) }
{
    match keyword {
        Some(DirectiveName::Ifdef) => if_line(reading, cursor, true, operand)?,
        Some(DirectiveName::Ifndef) => if_line(reading, cursor, false, operand)?,
        Some(DirectiveName::Else) => else_line(reading, cursor, operand)?,
        Some(DirectiveName::Endif) => endif_line(reading, cursor, operand)?,
        _ if !cursor.taken => skip(reading, cursor)?,
        None => return Err(refusal(reading, cursor, Rule::P1)),
        Some(DirectiveName::Error) => return Err(refusal(reading, cursor, Rule::P8)),
        Some(DirectiveName::Define) => define_line(reading, cursor, operand)?,
        Some(DirectiveName::Undef) => undef_line(reading, cursor, operand)?,
        Some(DirectiveName::Line) => line_line(reading, cursor, operand)?,
        Some(DirectiveName::Include) => match file_operand(operand) {
            Some(name) => return Ok(Some(name)),
            None => return Err(refusal(reading, cursor, Rule::P2)),
        },
    }
    Ok(None)
}

// `$define`
fn define_line(
    reading: &mut SourceReader,
    cursor: &mut Cursor,
    operand: &[u8],
) -> Result<(), PrepFault>
    requires here { StandsIn reading.old cursor.old }
    ensures exact { let step = define_line (state_of reading.old) (cursor_of cursor.old)
        (define_operand operand.now) in
        MatchResult result (λ _. step ≡ Ok (state_of reading.new, cursor_of cursor.new)) (Refuses step) }
    ensures goes { PassesLine reading.old reading.new cursor.old cursor.new result }
{
    let Some((name, text)) = define_operand(operand) else {
        return Err(refusal(reading, cursor, Rule::P2));
    };
    match reading.texts.get(name) {
        Some(old) => {
            if old != text {
                return Err(refusal(reading, cursor, Rule::P5));
            }
        }
        None => reading.texts.define(reading.alloc, name, text)?,
    }
    skip(reading, cursor)
}

// `$undef`
fn undef_line(
    reading: &mut SourceReader,
    cursor: &mut Cursor,
    operand: &[u8],
) -> Result<(), PrepFault>
    requires here { StandsIn reading.old cursor.old }
    ensures exact { let step = undef_line (state_of reading.old) (cursor_of cursor.old)
        (name_operand operand.now) in
        MatchResult result (λ _. step ≡ Ok (state_of reading.new, cursor_of cursor.new)) (Refuses step) }
    ensures goes { PassesLine reading.old reading.new cursor.old cursor.new result }
{
    let Some(name) = name_operand(operand) else {
        return Err(refusal(reading, cursor, Rule::P2));
    };
    reading.texts.undefine(name);
    skip(reading, cursor)
}

// `$ifdef`, where a name is wanted, and `$ifndef`
fn if_line(
    reading: &mut SourceReader,
    cursor: &mut Cursor,
    wanted: bool,
    operand: &[u8],
) -> Result<(), PrepFault>
    requires here { StandsIn reading.old cursor.old }
    ensures exact { let step = if_line (state_of reading.old) (cursor_of cursor.old) wanted
        (name_operand operand.now) in
        MatchResult result (λ _. step ≡ Ok (state_of reading.new, cursor_of cursor.new)) (Refuses step) }
    ensures goes { PassesLine reading.old reading.new cursor.old cursor.new result }
{
    let Some(name) = name_operand(operand) else {
        return Err(refusal(reading, cursor, Rule::P2));
    };
    let is_defined = reading.texts.get(name).is_some();
    leave_empty(reading, cursor)?;
    cursor.conditionals.push(Conditional {
        around: cursor.taken,
        in_else: false,
        file: cursor.file,
        line: cursor.line,
    })?;
    cursor.taken = cursor.taken && is_defined == wanted;
    cursor.line += 1;
    Ok(())
}

// `$else`
fn else_line(
    reading: &mut SourceReader,
    cursor: &mut Cursor,
    operand: &[u8],
) -> Result<(), PrepFault>
    requires here { StandsIn reading.old cursor.old }
    ensures exact { let s = state_of reading.old in let at = cursor_of cursor.old in
        let step = (if is_empty operand.now then else_line s at at.conditionals else refuse s at Rule.P2) in
        MatchResult result (λ _. step ≡ Ok (state_of reading.new, cursor_of cursor.new)) (Refuses step) }
    ensures goes { PassesLine reading.old reading.new cursor.old cursor.new result }
{
    if !operand.is_empty() {
        return Err(refusal(reading, cursor, Rule::P2));
    }
    let Some(innermost) = cursor.conditionals.pop() else {
        return Err(refusal(reading, cursor, Rule::P3));
    };
    if innermost.in_else {
        return Err(refusal(reading, cursor, Rule::P3));
    }
    leave_empty(reading, cursor)?;
    cursor.taken = innermost.around && !cursor.taken;
    cursor.conditionals.push(Conditional {
        in_else: true,
        ..innermost
    })?;
    cursor.line += 1;
    Ok(())
}

// `$endif`
fn endif_line(
    reading: &mut SourceReader,
    cursor: &mut Cursor,
    operand: &[u8],
) -> Result<(), PrepFault>
    requires here { StandsIn reading.old cursor.old }
    ensures exact { let s = state_of reading.old in let at = cursor_of cursor.old in
        let step = (if is_empty operand.now then endif_line s at at.conditionals else refuse s at Rule.P2) in
        MatchResult result (λ _. step ≡ Ok (state_of reading.new, cursor_of cursor.new)) (Refuses step) }
    ensures goes { PassesLine reading.old reading.new cursor.old cursor.new result }
{
    if !operand.is_empty() {
        return Err(refusal(reading, cursor, Rule::P2));
    }
    let Some(innermost) = cursor.conditionals.pop() else {
        return Err(refusal(reading, cursor, Rule::P3));
    };
    leave_empty(reading, cursor)?;
    cursor.taken = innermost.around;
    cursor.line += 1;
    Ok(())
}

// `$line`
fn line_line(
    reading: &mut SourceReader,
    cursor: &mut Cursor,
    operand: &[u8],
) -> Result<(), PrepFault>
    requires here { StandsIn reading.old cursor.old }
    ensures exact { let step = line_line (state_of reading.old) (cursor_of cursor.old)
        (line_operand operand.now) in
        MatchResult result (λ _. step ≡ Ok (state_of reading.new, cursor_of cursor.new)) (Refuses step) }
    ensures goes { PassesLine reading.old reading.new cursor.old cursor.new result }
{
    let Some((number, name)) = line_operand(operand) else {
        return Err(refusal(reading, cursor, Rule::P2));
    };
    leave_empty(reading, cursor)?;
    if let Some(name) = name {
        cursor.file = add_name(reading, name)?;
    }
    cursor.line = number;
    Ok(())
}
