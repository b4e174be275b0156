// Calls of a region of strings.
ghost use Rattle.std.specs.Prelude.{IfOk};
ghost use Rattle.icn_strings.specs.Regions.{IsOf, KeepsRanges};

use icn_strings::{ByteRange, Region, RegionFull, empty_range, end_of_range, part_of_range};
use std::alloc::{AllocError, Global};

/// Makes the calls of a case on a region, which charges at most so many bytes as its first word says, and appends a line for each. The
/// other words are texts. `AllocError` is want of memory.
pub fn push_string_calls(
    alloc: Global,
    text: &mut String,
    name: &str,
    words: &str,
) -> Result<(), AllocError> {
    let (limit, pieces) = words.split_once(";").unwrap_or((words, ""));
    let limit = u64::from(limit.parse::<u32>().unwrap_or(0));
    if name == "build" {
        return push_built(alloc, text, limit, pieces);
    }
    match push_by_name(alloc, text, name, limit, pieces) {
        Ok(()) => Ok(()),
        Err(full) => push_full(text, full),
    }
}

fn push_by_name(
    alloc: Global,
    text: &mut String,
    name: &str,
    limit: u64,
    pieces: &str,
) -> Result<(), RegionFull> {
    let first = piece_at(pieces, 0);
    let second = piece_at(pieces, 1);
    match name {
        "hold" => push_held(alloc, text, limit, first, second, piece_at(pieces, 2)),
        "join" => push_joins(alloc, text, limit, first, second),
        "empty" => push_empty(alloc, text, limit, first),
        _ => {
            text.push_str(" -> no case")?;
            Ok(())
        }
    }
}

// A text by its place, from 0 on.
fn piece_at(pieces: &str, place: usize) -> &str {
    pieces.split(';').nth(place).unwrap_or("")
}

// Builds each text.
fn push_built(
    alloc: Global,
    text: &mut String,
    limit: u64,
    pieces: &str,
) -> Result<(), AllocError> {
    let mut region = Region::new(alloc, limit);
    for piece in pieces.split(';') {
        text.push_str("\n  ")?;
        push_bytes(text, piece.as_bytes())?;
        text.push_str(" -> ")?;
        let made = region.build(piece.as_bytes());
        push_made(text, &region, made)?;
    }
    Ok(())
}

// Builds a text and holds another; joins both, builds a third, and looks at the bytes of the second again.
fn push_held(
    alloc: Global,
    text: &mut String,
    limit: u64,
    first: &str,
    second: &str,
    third: &str,
) -> Result<(), RegionFull> {
    let mut region = Region::new(alloc, limit);
    let built = region.build(first.as_bytes())?;
    let held = region.hold(second.as_bytes())?;
    push_named(text, "built", region.bytes(built))?;
    push_named(text, "held", region.bytes(held))?;
    let joined = region.join(held, built);
    text.push_str("\n  held + built -> ")?;
    push_made(text, &region, joined)?;
    let made = region.build(third.as_bytes());
    text.push_str("\n  third -> ")?;
    push_made(text, &region, made)?;
    push_named(text, "held", region.bytes(held))?;
    Ok(())
}

// Builds a text of three bytes or more and holds another; joins both, the second and third byte of the first with both and with
// themselves, and the second with both; and looks at the bytes of the first again.
fn push_joins(
    alloc: Global,
    text: &mut String,
    limit: u64,
    first: &str,
    second: &str,
) -> Result<(), RegionFull> {
    let mut region = Region::new(alloc, limit);
    let built = region.build(first.as_bytes())?;
    let held = region.hold(second.as_bytes())?;
    if built.len < 3 {
        return Ok(());
    }
    end_of_range(&region, built);
    let part = ByteRange {
        start: built.start + 1,
        len: 2,
    };
    part_of_range(&region, part, built);
    let both = push_joined(text, &mut region, built, held)?;
    push_joined(text, &mut region, part, both)?;
    push_joined(text, &mut region, part, part)?;
    let joined = region.join(held, both);
    text.push_str("\n  held + both -> ")?;
    push_made(text, &region, joined)?;
    push_named(text, "built", region.bytes(built))?;
    Ok(())
}

// Builds a text; joins an empty string that lies nowhere with itself, and with the text.
fn push_empty(alloc: Global, text: &mut String, limit: u64, first: &str) -> Result<(), RegionFull> {
    let mut region = Region::new(alloc, limit);
    let built = region.build(first.as_bytes())?;
    let wild = ByteRange {
        start: u64::MAX,
        len: 0,
    };
    empty_range(&region, wild);
    push_joined(text, &mut region, wild, wild)?;
    push_named(text, "empty", region.bytes(wild))?;
    let joined = region.join(wild, built);
    text.push_str("\n  empty + built -> ")?;
    push_made(text, &region, joined)?;
    Ok(())
}

// Joins two strings, and appends the bytes of both as they are then, those of the string that is made, and its length.
fn push_joined(
    text: &mut String,
    region: &mut Region,
    a: ByteRange,
    b: ByteRange,
) -> Result<ByteRange, RegionFull>
    requires first { IsOf region.old a }
    requires second { IsOf region.old b }
    ensures of { IfOk result (IsOf region.new) }
    ensures kept { KeepsRanges region.old region.new }
{
    let range = region.join(a, b)?;
    text.push_str("\n  ")?;
    push_bytes(text, region.bytes(a))?;
    text.push_str(" + ")?;
    push_bytes(text, region.bytes(b))?;
    text.push_str(" -> ")?;
    push_bytes(text, region.bytes(range))?;
    let len = range.len;
    write!(text, ", {len} bytes")?;
    Ok(range)
}

// Appends the bytes of a string that was made, or why none was made.
fn push_made(
    text: &mut String,
    region: &Region,
    made: Result<ByteRange, RegionFull>,
) -> Result<(), AllocError>
    requires { IfOk made (IsOf region.now) }
{
    match made {
        Ok(range) => push_bytes(text, region.bytes(range)),
        Err(full) => push_full(text, full),
    }
}

fn push_full(text: &mut String, full: RegionFull) -> Result<(), AllocError> {
    match full {
        RegionFull::Strings { sum, limit } => write!(text, "{sum} of {limit} bytes are used"),
        RegionFull::NoMemory => text.push_str("no memory"),
    }
}

fn push_named(text: &mut String, name: &str, bytes: &[u8]) -> Result<(), AllocError> {
    write!(text, "\n  {name} -> ")?;
    push_bytes(text, bytes)
}

fn push_bytes(text: &mut String, bytes: &[u8]) -> Result<(), AllocError> {
    text.push('"')?;
    for byte in bytes {
        text.push(char::from(*byte))?;
    }
    text.push('"')
}
