// The bytes of a source text by what they can be part of.
ghost use Rattle.std.specs.Prelude.{◌≡◌, ◌≤◌, length};
ghost use Rattle.std.specs.List.{prefix_len};
ghost use Rattle.icn_tree.specs.Characters.{is_space, is_blank, begins_comment, begins_identifier, is_digit, continues_identifier, is_alphanumeric, is_octal, is_hexadecimal, digit_value, is_quote};

use icn_profile::{DOUBLE_QUOTE, NUMBER_SIGN, SINGLE_QUOTE, UNDERSCORE};

/// A tab, a vertical tab, a form feed, a carriage return or a blank.
pub fn is_space(byte: u8) -> bool
    ensures { result ≡ is_space byte }
{
    matches!(byte, b'\t' | 11..=13 | b' ')
}

/// A blank or a tab.
pub fn is_blank(byte: u8) -> bool
    ensures { result ≡ is_blank byte }
{
    matches!(byte, b'\t' | b' ')
}

/// The byte `#`.
pub fn begins_comment(byte: u8) -> bool
    ensures { result ≡ begins_comment byte }
{
    byte == NUMBER_SIGN
}

/// A letter or an underscore.
pub fn begins_identifier(byte: u8) -> bool
    ensures { result ≡ begins_identifier byte }
{
    matches!(byte, b'A'..=b'Z' | b'a'..=b'z' | UNDERSCORE)
}

/// A decimal digit.
pub fn is_digit(byte: u8) -> bool
    ensures { result ≡ is_digit byte }
{
    byte.is_ascii_digit()
}

/// A letter, an underscore or a digit.
pub fn continues_identifier(byte: u8) -> bool
    ensures { result ≡ continues_identifier byte }
{
    begins_identifier(byte) || is_digit(byte)
}

/// A letter or a digit.
pub fn is_alphanumeric(byte: u8) -> bool
    ensures { result ≡ is_alphanumeric byte }
{
    matches!(byte, b'0'..=b'9' | b'A'..=b'Z' | b'a'..=b'z')
}

/// A digit from 0 to 7.
pub fn is_octal(byte: u8) -> bool
    ensures { result ≡ is_octal byte }
{
    matches!(byte, b'0'..=b'7')
}

/// A digit, or a letter from a to f in either case.
pub fn is_hexadecimal(byte: u8) -> bool
    ensures { result ≡ is_hexadecimal byte }
{
    matches!(byte, b'0'..=b'9' | b'A'..=b'F' | b'a'..=b'f')
}

/// The quote of a string or of a cset.
pub fn is_quote(byte: u8) -> bool
    ensures { result ≡ is_quote byte }
{
    matches!(byte, DOUBLE_QUOTE | SINGLE_QUOTE)
}

/// What a digit counts, where letters in either case stand for 10 to 35.
pub fn digit_value(byte: u8) -> u8
    ensures { result ≡ digit_value byte }
{
    match byte {
        b'0'..=b'9' => byte - b'0',
        b'a'..=b'z' => byte - (b'a' - 10),
        _ => byte.saturating_sub(b'A' - 10),
    }
}

/// How many of the first bytes are such as continue an identifier.
pub fn identifier_len(bytes: &[u8]) -> usize
    ensures counted { result ≡ prefix_len continues_identifier bytes.now }
    ensures within { result ≤ length bytes.now }
{
    bytes
        .iter()
        .take_while(|b| continues_identifier(**b))
        .count()
}

/// How many of the first bytes are digits.
pub fn digits_len(bytes: &[u8]) -> usize
    ensures counted { result ≡ prefix_len is_digit bytes.now }
    ensures within { result ≤ length bytes.now }
{
    bytes.iter().take_while(|b| is_digit(**b)).count()
}

/// How many of the first bytes are letters or digits.
pub fn alphanumeric_len(bytes: &[u8]) -> usize
    ensures counted { result ≡ prefix_len is_alphanumeric bytes.now }
    ensures within { result ≤ length bytes.now }
{
    bytes.iter().take_while(|b| is_alphanumeric(**b)).count()
}

/// How many of the first bytes are octal digits.
pub fn octal_len(bytes: &[u8]) -> usize
    ensures counted { result ≡ prefix_len is_octal bytes.now }
    ensures within { result ≤ length bytes.now }
{
    bytes.iter().take_while(|b| is_octal(**b)).count()
}

/// How many of the first bytes are hexadecimal digits.
pub fn hexadecimal_len(bytes: &[u8]) -> usize
    ensures counted { result ≡ prefix_len is_hexadecimal bytes.now }
    ensures within { result ≤ length bytes.now }
{
    bytes.iter().take_while(|b| is_hexadecimal(**b)).count()
}

/// How many of the first bytes are blanks or tabs.
pub fn blanks_len(bytes: &[u8]) -> usize
    ensures counted { result ≡ prefix_len is_blank bytes.now }
    ensures within { result ≤ length bytes.now }
{
    bytes.iter().take_while(|b| is_blank(**b)).count()
}
