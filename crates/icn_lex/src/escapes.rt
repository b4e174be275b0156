// Escapes in literals.
ghost use Rattle.std.specs.Prelude.{◌≡◌, ◌≤◌, ◌+◌, length, IfSome};
ghost use Rattle.icn_lex.specs.Reading.{byte_in};
ghost use Rattle.icn_tree.specs.Literals.{escape_of, octal_escape, hexadecimal_escape, control_escape, escaped_byte};

use crate::numbers::value;
use icn_profile::CARET;
use icn_tree::characters::{hexadecimal_len, is_octal, octal_len};

/// The byte that an escape means, by the bytes behind its backslash, and how many of these it has.
#[tactic(auto, unfolding(icn_tree::specs::Literals::escape_of))]
pub fn escape(bytes: &[u8]) -> Option<(u8, usize)>
    ensures found { result ≡ escape_of bytes.now }
    ensures within { IfSome result (λ found. found.1 ≤ length bytes.now) }
{
    let (first, rest) = bytes.split_first()?;
    if is_octal(*first) {
        octal_escape(bytes)
    } else if *first == b'x' {
        hexadecimal_escape(rest)
    } else if *first == CARET {
        control_escape(rest)
    } else {
        Some((escaped_byte(*first), 1))
    }
}

// One to three octal digits of a value up to 255.
fn octal_escape(bytes: &[u8]) -> Option<(u8, usize)>
    ensures found { result ≡ octal_escape bytes.now }
    ensures within { IfSome result (λ found. found.1 ≤ length bytes.now) }
{
    let count = octal_len(bytes).min(3);
    byte(8, bytes.split_at(count).0).map(|byte| (byte, count))
}

// One or two hexadecimal digits behind an `x`.
fn hexadecimal_escape(bytes: &[u8]) -> Option<(u8, usize)>
    ensures found { result ≡ hexadecimal_escape bytes.now }
    ensures within { IfSome result (λ found. found.1 ≤ length bytes.now + 1) }
{
    let count = hexadecimal_len(bytes).min(2);
    if count == 0 {
        return None;
    }
    byte(16, bytes.split_at(count).0).map(|byte| (byte, count + 1))
}

// The low five bits of the byte behind a `^`.
fn control_escape(bytes: &[u8]) -> Option<(u8, usize)>
    ensures found { result ≡ control_escape bytes.now }
    ensures within { IfSome result (λ found. found.1 ≤ length bytes.now + 1) }
{
    let (byte, _) = bytes.split_first()?;
    Some((*byte % 32, 2))
}

// The byte that a letter or another byte behind a backslash means.
fn escaped_byte(byte: u8) -> u8
    ensures { result ≡ escaped_byte byte }
{
    match byte {
        b'b' => 8,
        b'd' => 127,
        b'e' => 27,
        b'f' => 12,
        b'l' | b'n' => b'\n',
        b'r' => b'\r',
        b't' => b'\t',
        b'v' => 11,
        _ => byte,
    }
}

// The byte that digits write in a radix, where it is one.
fn byte(radix: u64, digits: &[u8]) -> Option<u8>
    requires { 1 ≤ radix }
    ensures { result ≡ byte_in radix digits.now }
{
    match value(radix, digits) {
        Some(value @ 0..=255) => Some(value as u8),
        _ => None,
    }
}
