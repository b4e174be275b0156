// Texts and csets between quotes.
ghost use Rattle.std.specs.Prelude.{◌≡◌, ◌++◌, ◌<◌, false, OnOk, flat_map};
ghost use Rattle.icn_defs.specs.Images.{letter_of, plain_or_hex, escape_of, in_quotes, cset_image};
ghost use Rattle.std.specs.Fmt.{digit_glyph};

use icn_profile::BACKSLASH;
use std::alloc::AllocError;

/// Appends a text between quotes, with what needs it escaped. `AllocError` is want of memory.
pub fn push_quoted(out: &mut Vec<u8>, quote: u8, text: &[u8]) -> Result<(), AllocError>
    ensures { OnOk result (out.new.items ≡ out.old.items ++ in_quotes quote text.now) }
{
    out.push(quote)?;
    push_escaped_all(out, quote, text)?;
    out.push(quote)?;
    Ok(())
}

fn push_escaped_all(out: &mut Vec<u8>, quote: u8, text: &[u8]) -> Result<(), AllocError>
    ensures { OnOk result (out.new.items ≡ out.old.items ++ flat_map (escape_of quote) text.now) }
{
    for byte in text {
        push_escaped(out, quote, *byte)?;
    }
    Ok(())
}

fn push_escaped(out: &mut Vec<u8>, quote: u8, byte: u8) -> Result<(), AllocError>
    ensures { OnOk result (out.new.items ≡ out.old.items ++ escape_of quote byte) }
{
    if byte == quote {
        out.extend_from_slice(&[BACKSLASH, quote])
    } else if let Some(letter) = letter_of(byte) {
        out.extend_from_slice(&[BACKSLASH, letter])
    } else {
        push_plain_or_hex(out, byte)
    }
}

fn push_plain_or_hex(out: &mut Vec<u8>, byte: u8) -> Result<(), AllocError>
    ensures { OnOk result (out.new.items ≡ out.old.items ++ plain_or_hex byte) }
{
    if (b' '..=b'~').contains(&byte) {
        out.extend_from_slice(&[byte])
    } else {
        out.extend_from_slice(&[BACKSLASH, b'x', hex_digit(byte / 16), hex_digit(byte % 16)])
    }
}

// The letter that a byte is written by behind a backslash.
fn letter_of(byte: u8) -> Option<u8>
    ensures { result ≡ letter_of byte }
{
    match byte {
        8 => Some(b'b'),
        9 => Some(b't'),
        10 => Some(b'n'),
        11 => Some(b'v'),
        12 => Some(b'f'),
        13 => Some(b'r'),
        27 => Some(b'e'),
        127 => Some(b'd'),
        BACKSLASH => Some(BACKSLASH),
        _ => None,
    }
}

fn hex_digit(digit: u8) -> u8
    requires { digit < 16 }
    ensures { result ≡ digit_glyph false digit }
{
    if digit < 10 {
        b'0' + digit
    } else {
        b'a' + (digit - 10)
    }
}
