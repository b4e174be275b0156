// The operands of a line of ucode.
ghost use Rattle.std.specs.Prelude.{◌≡◌, ◌≤◌, ◌+◌, ◌-◌, ◌*◌, length, take, drop, IfOk, IfSome, true};
ghost use Rattle.std.specs.List.{prefix_len, list_all};
ghost use Rattle.std.specs.Option.{option_copied, option_map};
ghost use Rattle.icn_profile.specs.Numbers.{greatest_integer, greatest_number};
ghost use Rattle.icn_tree.specs.Characters.{begins_identifier, continues_identifier};
ghost use Rattle.icn_unit.specs.UnitOperands.{ascends, behind, bytes_of, first_field, hexadecimal_bytes, hexadecimal_value, is_hexadecimal, is_inside, is_name, keyword_of, label_of, number_of};
ghost use Rattle.icn_unit.specs.OperandViews.{below_first, byte_item, is_in_line, within_limit, value_limited};

use icn_profile::{
    GREATEST_INTEGER, GREATEST_NUMBER, MOST_BYTES_OF_NAME, MOST_HEXADECIMAL_DIGITS, UNDERSCORE,
};
use icn_text::{Keyword, decimal, keyword_named};
use std::alloc::{AllocError, Global};

/// What stands before the first blank, and what stands behind it.
pub fn cut(text: &[u8]) -> (&[u8], Option<&[u8]>)
    ensures word { result.0.now ≡ (first_field text.now).0 }
    ensures behind { option_copied result.1 ≡ (first_field text.now).1 }
{
    let count = inside_len(text);
    let (word, rest) = text.split_at(count);
    match rest.split_first() {
        Some((_, behind)) => (word, Some(behind)),
        None => (word, None),
    }
}

fn inside_len(text: &[u8]) -> usize
    ensures counted { result ≡ prefix_len is_inside text.now }
    ensures within { result ≤ length text.now }
{
    text.iter().take_while(|b| **b != b' ').count()
}

/// The number of a decimal without leading zeros, up to a greatest one.
pub fn number(text: &[u8], greatest: u64) -> Option<u64>
    requires { greatest ≤ greatest_integer }
    ensures found { result ≡ number_of greatest text.now }
    ensures within { IfSome result (λ n. n ≤ greatest) }
{
    let n = value(text)?;
    if n <= greatest && decimal(n as i64).as_bytes() == text {
        Some(n)
    } else {
        None
    }
}

// The number that digits write, where it has 63 bits.
fn value(text: &[u8]) -> Option<u64>
    ensures found { result ≡ value_limited text.now }
    ensures within { IfSome result (λ n. n ≤ greatest_integer) }
{
    let mut value = 0;
    for byte in text {
        value = with_digit(value, *byte)?;
    }
    Some(value)
}

fn with_digit(value: u64, byte: u8) -> Option<u64>
    ensures { result ≡ within_limit (value * 10 + (byte - 48)) }
{
    let longer = value
        .checked_mul(10)?
        .checked_add(u64::from(byte.saturating_sub(b'0')))?;
    if longer <= GREATEST_INTEGER {
        Some(longer)
    } else {
        None
    }
}

/// The number of 32 bits of a decimal without leading zeros.
pub fn small_number(text: &[u8]) -> Option<u32>
    ensures { result ≡ number_of greatest_number text.now }
{
    let n = number(text, GREATEST_NUMBER)?;
    Some(n as u32)
}

/// The number of a label, behind its `L`.
pub fn label(text: &[u8]) -> Option<u32>
    ensures { result ≡ label_of text.now }
{
    match text.split_first() {
        Some((b'L', digits)) => small_number(digits),
        _ => None,
    }
}

/// Whether a text is an identifier of at most 65535 bytes.
pub fn is_name(text: &[u8]) -> bool
    ensures { result ≡ is_name text.now }
{
    match text.split_first() {
        Some((first, rest)) => {
            begins_identifier(*first)
                && continues(rest)
                && text.len() <= MOST_BYTES_OF_NAME as usize
        }
        None => false,
    }
}

fn continues(text: &[u8]) -> bool
    ensures { result ≡ list_all continues_identifier text.now }
{
    text.iter().all(|b| continues_identifier(*b))
}

fn begins_identifier(byte: u8) -> bool
    ensures { result ≡ begins_identifier byte }
{
    matches!(byte, b'A'..=b'Z' | b'a'..=b'z' | UNDERSCORE)
}

fn continues_identifier(byte: u8) -> bool
    ensures { result ≡ continues_identifier byte }
{
    begins_identifier(byte) || byte.is_ascii_digit()
}

fn is_hexadecimal(byte: u8) -> bool
    ensures { result ≡ is_hexadecimal byte }
{
    matches!(byte, b'0'..=b'9' | b'a'..=b'f')
}

// The byte of two digits.
fn byte_of(first: u8, second: u8) -> Option<u8>
    ensures { result ≡ byte_item first second }
{
    if is_hexadecimal(first) && is_hexadecimal(second) {
        Some(hexadecimal_value(first) * 16 + hexadecimal_value(second))
    } else {
        None
    }
}

fn hexadecimal_value(byte: u8) -> u8
    requires { is_hexadecimal byte ≡ true }
    ensures value { result ≡ hexadecimal_value byte }
    ensures small { result ≤ 15 }
{
    match byte {
        b'0'..=b'9' => byte - b'0',
        _ => byte - (b'a' - 10),
    }
}

// Bytes of two hexadecimal digits each.
fn hexadecimal_bytes(alloc: Global, text: &[u8]) -> Result<Option<Vec<u8>>, AllocError>
    ensures { IfOk result (λ found. option_map (λ v. v.items) found ≡ hexadecimal_bytes text.now) }
{
    let mut bytes = Vec::new(alloc);
    let mut rest = text;
    while let Some((first, others)) = rest.split_first() {
        let Some((second, behind)) = others.split_first() else {
            return Ok(None);
        };
        let Some(byte) = byte_of(*first, *second) else {
            return Ok(None);
        };
        bytes.push(byte)?;
        rest = behind;
    }
    Ok(Some(bytes))
}

/// A byte text of at most 65535 bytes: lower-case hexadecimal, or `-` where it is empty. An error is want of memory.
pub fn byte_text(alloc: Global, text: &[u8]) -> Result<Option<Vec<u8>>, AllocError>
    ensures { IfOk result (λ found. option_map (λ v. v.items) found ≡ bytes_of text.now) }
{
    if text == b"-".as_slice() {
        Ok(Some(Vec::new(alloc)))
    } else if 1 <= text.len() && text.len() <= MOST_HEXADECIMAL_DIGITS as usize {
        hexadecimal_bytes(alloc, text)
    } else {
        Ok(None)
    }
}

/// Whether each byte is below the next.
pub fn ascends(bytes: &[u8]) -> bool
    ensures { result ≡ ascends bytes.now }
{
    let mut rest = bytes;
    while let Some((first, others)) = rest.split_first() {
        if !is_below_first(*first, others) {
            return false;
        }
        rest = others;
    }
    true
}

fn is_below_first(byte: u8, bytes: &[u8]) -> bool
    ensures { result ≡ below_first byte bytes.now }
{
    match bytes.split_first() {
        Some((first, _)) => byte < *first,
        None => true,
    }
}

/// The keyword of a name, which stands without its `&`.
pub fn keyword(text: &[u8]) -> Option<Keyword>
    ensures { result ≡ keyword_of text.now }
{
    keyword_named(text)
}

/// What stands before the first newline, and what stands behind it.
pub fn cut_line(text: &[u8]) -> (&[u8], Option<&[u8]>)
    ensures line { result.0.now ≡ take (prefix_len is_in_line text.now) text.now }
    ensures behind { option_copied result.1 ≡ behind (drop (prefix_len is_in_line text.now) text.now) }
{
    let count = line_len(text);
    let (line, rest) = text.split_at(count);
    match rest.split_first() {
        Some((_, behind)) => (line, Some(behind)),
        None => (line, None),
    }
}

fn line_len(text: &[u8]) -> usize
    ensures counted { result ≡ prefix_len is_in_line text.now }
    ensures within { result ≤ length text.now }
{
    text.iter().take_while(|b| **b != b'\n').count()
}
