// The notation of a case's text.
use icn_host::StoredFiles;
use std::alloc::{AllocError, Global};
use std::fmt::Write;

/// The bytes that a text of a case stands for. `¶` is the end of a line, `¬` with two digits of base 16 is a byte, and in
/// `«COUNT PART»` a part stands so many times in a row, where `#` is its number, from 0, and `##` the next number. `AllocError` is
/// want of memory.
pub fn full_text(alloc: Global, case: &str) -> Result<Vec<u8>, AllocError> {
    let mut text = Vec::new(alloc);
    for (i, piece) in case.split("«").enumerate() {
        let rest = if i > 0 {
            let (repeated, rest) = piece.split_once("»").unwrap_or((piece, ""));
            push_times(alloc, &mut text, repeated)?;
            rest
        } else {
            piece
        };
        push_text(&mut text, rest)?;
    }
    Ok(text)
}

// A count, and a part that stands so many times in a row.
fn push_times(alloc: Global, text: &mut Vec<u8>, repeated: &str) -> Result<(), AllocError> {
    let (times, part) = repeated.split_once(" ").unwrap_or(("0", ""));
    let times = times.parse::<u32>().unwrap_or(0);
    if part.contains("#") {
        for number in 0..times {
            push_numbered(alloc, text, part, number)?;
        }
    } else {
        let mut once = Vec::new(alloc);
        push_text(&mut once, part)?;
        for _ in 0..times {
            text.extend_from_slice(&once)?;
        }
    }
    Ok(())
}

fn push_numbered(
    alloc: Global,
    text: &mut Vec<u8>,
    part: &str,
    number: u32,
) -> Result<(), AllocError> {
    let next = number.saturating_add(1);
    let mut numbered = String::new(alloc);
    for (i, half) in part.split("##").enumerate() {
        if i > 0 {
            write!(&mut numbered, "{next}")?;
        }
        push_number(&mut numbered, half, number)?;
    }
    push_text(text, &numbered)
}

fn push_number(numbered: &mut String, part: &str, number: u32) -> Result<(), AllocError> {
    for (i, piece) in part.split("#").enumerate() {
        if i > 0 {
            write!(numbered, "{number}")?;
        }
        numbered.push_str(piece)?;
    }
    Ok(())
}

fn push_text(text: &mut Vec<u8>, part: &str) -> Result<(), AllocError> {
    for (i, line) in part.split("¶").enumerate() {
        if i > 0 {
            text.push(b'\n')?;
        }
        push_line(text, line)?;
    }
    Ok(())
}

fn push_line(text: &mut Vec<u8>, line: &str) -> Result<(), AllocError> {
    for (i, piece) in line.split("¬").enumerate() {
        if i > 0 {
            let (high, low, rest) = two_digits(piece.as_bytes());
            text.push(high.wrapping_mul(16).wrapping_add(low))?;
            text.extend_from_slice(rest)?;
        } else {
            text.extend_from_slice(piece.as_bytes())?;
        }
    }
    Ok(())
}

fn two_digits(bytes: &[u8]) -> (u8, u8, &[u8]) {
    match bytes {
        [high, low, rest @ ..] => (digit(*high), digit(*low), rest),
        _ => (0, 0, bytes),
    }
}

fn digit(byte: u8) -> u8 {
    match byte {
        b'0'..=b'9' => byte.wrapping_sub(b'0'),
        b'a'..=b'f' => byte.wrapping_sub(87),
        _ => 0,
    }
}

/// Bytes in the notation of a case's text. `AllocError` is want of memory.
pub fn push_shown(shown: &mut String, bytes: &[u8]) -> Result<(), AllocError> {
    for byte in bytes {
        if *byte == b'\n' {
            shown.push_str("¶")?;
        } else if (32..127).contains(byte) {
            shown.push(char::from(*byte))?;
        } else {
            write!(shown, "¬{byte:02x}")?;
        }
    }
    Ok(())
}

/// The bytes of the file of this name in base 16, or that it is not there. `AllocError` is want of memory.
pub fn hex_text(alloc: Global, files: &StoredFiles, name: &str) -> Result<String, AllocError> {
    let mut shown = String::new(alloc);
    match files.get(name) {
        Some(bytes) => {
            for byte in bytes {
                write!(&mut shown, "{byte:02x}")?;
            }
        }
        None => shown.push_str("not there")?,
    }
    Ok(shown)
}
