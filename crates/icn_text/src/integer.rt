// The integer that a text writes.
ghost use Rattle.std.specs.Prelude.{◌≡◌, ◌≤◌, ◌+◌, ◌*◌, ℤ, FitsSigned, IfOk, OnErr, length, true};
ghost use Rattle.std.specs.Result.{OkIff, result_ok};
ghost use Rattle.std.specs.Char.{digit_value};
ghost use Rattle.std.specs.Int.{w64};
ghost use Rattle.std.specs.List.{prefix_len, list_all};
ghost use Rattle.std.specs.Option.{option_and_then};
ghost use Rattle.std.specs.Str.Parse.{digits_value};
ghost use Rattle.icn_text.specs.Integers.{is_space, is_digit_of, is_radix_mark, with_sign, WritesInteger};
ghost use Rattle.icn_text.specs.Reading.{in_64_bits, pair_held, digits_read, radix_read, numeral_read, signed_read, integer_read, written_integer};

/// A text writes no integer of 64 bits.
#[derive(Clone, Copy, Debug, PartialEq, Eq)]
pub struct NotInteger;

/// The integer that a text writes: white space (tab to carriage return, and blank), perhaps a sign, decimal digits or
/// `RrD` with a radix `R` from 2 to 36 and digits `D` of it, and white space. It takes no memory.
pub fn read_integer(text: &[u8]) -> Result<i64, NotInteger>
    ensures read { IfOk result (WritesInteger text.now) }
    ensures refused { OnErr result ((n : ℤ) → WritesInteger text.now n → ⊥) }
    ensures found { result_ok result ≡ written_integer text.now }
{
    match integer(text) {
        Some((is_negative, magnitude)) => integer_with_sign(is_negative, magnitude),
        None => Err(NotInteger),
    }
}

// The integer of this sign and magnitude.
pub(crate) fn integer_with_sign(is_negative: bool, magnitude: u64) -> Result<i64, NotInteger>
    ensures { OkIff result (FitsSigned w64 (with_sign is_negative magnitude))
        (with_sign is_negative magnitude) }
{
    let magnitude = i128::from(magnitude);
    let value = if is_negative { -magnitude } else { magnitude };
    i64::try_from(value).map_err(|_| NotInteger)
}

// Whether a sign makes the integer negative, and its magnitude.
fn integer(text: &[u8]) -> Option<(bool, u64)>
    ensures { result ≡ option_and_then pair_held (integer_read text.now) }
{
    let (_, rest) = text.split_at(space_len(text));
    let (sign, behind) = rest.split_first()?;
    match *sign {
        b'-' => Some((true, numeral(behind)?)),
        b'+' => Some((false, numeral(behind)?)),
        _ => Some((false, numeral(rest)?)),
    }
}

// The number of a numeral, behind which white space alone stands.
fn numeral(text: &[u8]) -> Option<u64>
    ensures { result ≡ option_and_then in_64_bits (numeral_read text.now) }
{
    let (radix, rest) = text.split_at(digits_len(text, 10));
    match rest.split_first() {
        Some((mark, rest)) if is_radix_mark(*mark) => radix_numeral(value(radix, 10)?, rest),
        _ => digits(text, 10),
    }
}

// The number of the digits that stand behind a radix and its mark.
fn radix_numeral(radix: u64, text: &[u8]) -> Option<u64>
    ensures { result ≡ option_and_then in_64_bits (radix_read radix text.now) }
{
    if (2..=36).contains(&radix) {
        digits(text, radix as u32)
    } else {
        None
    }
}

// The number of the digits of a radix, behind which white space alone stands.
fn digits(text: &[u8], radix: u32) -> Option<u64>
    requires { 2 ≤ radix }
    ensures { result ≡ option_and_then in_64_bits (digits_read radix text.now) }
{
    let count = digits_len(text, radix);
    let (digits, rest) = text.split_at(count);
    if count > 0 && is_all_space(rest) {
        value(digits, radix)
    } else {
        None
    }
}

// The number that digits write, where 64 bits hold it.
fn value(digits: &[u8], radix: u32) -> Option<u64>
    requires { 2 ≤ radix }
    ensures { result ≡ in_64_bits (digits_value radix digits.now) }
{
    let mut value = 0u64;
    for digit in digits {
        value = append_digit(value, radix, *digit)?;
    }
    Some(value)
}

// The number with one more digit at its end.
fn append_digit(value: u64, radix: u32, digit: u8) -> Option<u64>
    ensures { result ≡ in_64_bits (value * radix + digit_value digit) }
{
    value
        .checked_mul(u64::from(radix))?
        .checked_add(u64::from(digit_value(digit)))
}

// How many of the first bytes are digits of a radix.
fn digits_len(text: &[u8], radix: u32) -> usize
    ensures counted { result ≡ prefix_len (is_digit_of radix) text.now }
    ensures within { result ≤ length text.now }
{
    text.iter()
        .take_while(|byte| digit_value(**byte) < radix)
        .count()
}

// How many of the first bytes are white space.
fn space_len(text: &[u8]) -> usize
    ensures counted { result ≡ prefix_len is_space text.now }
    ensures within { result ≤ length text.now }
{
    text.iter().take_while(|byte| is_space(**byte)).count()
}

fn is_all_space(text: &[u8]) -> bool
    ensures { result ≡ list_all is_space text.now }
{
    text.iter().all(|byte| is_space(*byte))
}

fn is_space(byte: u8) -> bool
    ensures { result ≡ is_space byte }
{
    matches!(byte, 9..=13 | b' ')
}

fn is_radix_mark(byte: u8) -> bool
    ensures { result ≡ is_radix_mark byte }
{
    matches!(byte, b'r' | b'R')
}

// The value of a digit or a letter, and 36 of another byte.
fn digit_value(byte: u8) -> u32
    ensures { result ≡ digit_value byte }
{
    char::from(byte).to_digit(36).unwrap_or(36)
}
