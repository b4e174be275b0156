// A unit with one line or one byte changed.
use crate::ucode::outcome::{is_refused_or_same, texts_outcome};
use std::alloc::{AllocError, Global};

/// What comes of two texts; of each line of both, where it is left out and where it stands twice; and of how many of the texts that
/// have the lowest bit of one byte changed another text is written. `AllocError` is want of memory.
pub fn changes_outcome(alloc: Global, first: &str, second: &str) -> Result<String, AllocError> {
    let mut text = texts_outcome(alloc, first.as_bytes(), second.as_bytes())?;
    push_first_lines(alloc, &mut text, first, second)?;
    push_second_lines(alloc, &mut text, first, second)?;
    push_first_bytes(alloc, &mut text, first.as_bytes(), second.as_bytes())?;
    push_second_bytes(alloc, &mut text, first.as_bytes(), second.as_bytes())?;
    Ok(text)
}

fn push_first_lines(
    alloc: Global,
    text: &mut String,
    first: &str,
    second: &str,
) -> Result<(), AllocError> {
    for (place, line) in first.lines().enumerate() {
        let other = with_line_times(alloc, first, place, 0)?;
        let without = texts_outcome(alloc, other.as_bytes(), second.as_bytes())?;
        let other = with_line_times(alloc, first, place, 2)?;
        let twice = texts_outcome(alloc, other.as_bytes(), second.as_bytes())?;
        write!(text, "\n  {line} -> {without}, {twice}")?;
    }
    Ok(())
}

fn push_second_lines(
    alloc: Global,
    text: &mut String,
    first: &str,
    second: &str,
) -> Result<(), AllocError> {
    for (place, line) in second.lines().enumerate() {
        let other = with_line_times(alloc, second, place, 0)?;
        let without = texts_outcome(alloc, first.as_bytes(), other.as_bytes())?;
        let other = with_line_times(alloc, second, place, 2)?;
        let twice = texts_outcome(alloc, first.as_bytes(), other.as_bytes())?;
        write!(text, "\n  {line} -> {without}, {twice}")?;
    }
    Ok(())
}

// The lines of a text, the one at a place so many times.
fn with_line_times(
    alloc: Global,
    text: &str,
    place: usize,
    times: u8,
) -> Result<String, AllocError> {
    let mut other = String::new(alloc);
    for (i, line) in text.lines().enumerate() {
        push_line(&mut other, line, if i == place { times } else { 1 })?;
    }
    Ok(other)
}

fn push_line(text: &mut String, line: &str, times: u8) -> Result<(), AllocError> {
    for _ in 0..times {
        text.push_str(line)?;
        text.push('\n')?;
    }
    Ok(())
}

fn push_first_bytes(
    alloc: Global,
    text: &mut String,
    first: &[u8],
    second: &[u8],
) -> Result<(), AllocError> {
    let mut others = 0usize;
    for place in 0..first.len() {
        let changed = with_byte_changed(alloc, first, place)?;
        if !is_refused_or_same(alloc, &changed, second)? {
            others = others.saturating_add(1);
        }
    }
    let count = first.len();
    write!(
        text,
        "\n  {count} bytes of the first -> {others} other texts"
    )
}

fn push_second_bytes(
    alloc: Global,
    text: &mut String,
    first: &[u8],
    second: &[u8],
) -> Result<(), AllocError> {
    let mut others = 0usize;
    for place in 0..second.len() {
        let changed = with_byte_changed(alloc, second, place)?;
        if !is_refused_or_same(alloc, first, &changed)? {
            others = others.saturating_add(1);
        }
    }
    let count = second.len();
    write!(
        text,
        "\n  {count} bytes of the second -> {others} other texts"
    )
}

// The text with its lowest bit changed at one place.
fn with_byte_changed(alloc: Global, text: &[u8], place: usize) -> Result<Vec<u8>, AllocError> {
    let mut other = Vec::new(alloc);
    for (i, byte) in text.iter().enumerate() {
        other.push(if i == place { *byte ^ 1 } else { *byte })?;
    }
    Ok(other)
}
