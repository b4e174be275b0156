// Integer literals.
ghost use Rattle.std.specs.Prelude.{◌≡◌, ◌≤◌, ◌*◌, ◌+◌, IfSome, nat_lt};
ghost use Rattle.std.specs.List.{list_all};
ghost use Rattle.icn_profile.specs.Numbers.{greatest_integer};
ghost use Rattle.icn_tree.specs.Characters.{digit_value};
ghost use Rattle.icn_tree.specs.IntegerLiterals.{are_digits, integer, number_in};
ghost use Rattle.icn_lex.specs.Reading.{bounded_by, with_length, within_limit, number_read, value_in};

use icn_profile::{GREATEST_INTEGER, MOST_BYTES_OF_NAME};
use icn_tree::characters::{alphanumeric_len, digit_value, digits_len};
use icn_tree::{Kind, Rule};

const GREATEST: u64 = GREATEST_INTEGER;

/// The integer literal at the front of bytes that begin with a digit, and how many bytes it has. The error is the rule that
/// it breaks: L4 for a number that is too large, L5 for a wrong radix or digit, L6 for a real literal, L7 for one that is
/// too long.
pub fn integer_literal(bytes: &[u8]) -> Result<(Kind, usize), Rule>
    ensures { result ≡ number_read bytes.now }
{
    let count = digits_len(bytes);
    let (digits, rest) = bytes.split_at(count);
    match rest.split_first() {
        Some((b'r' | b'R', written)) => {
            let written_len = alphanumeric_len(written);
            let written = written.split_at(written_len).0;
            limit_length(count + 1 + written_len, radix_integer(digits, written))
        }
        Some((b'.' | b'e' | b'E', _)) => Err(Rule::L6),
        _ => limit_length(count, integer_kind(value(10, digits))),
    }
}

// What a literal of so many bytes is, which may be too long.
fn limit_length(count: usize, sense: Result<Kind, Rule>) -> Result<(Kind, usize), Rule>
    ensures { result ≡ with_length count sense }
{
    if count <= MOST_BYTES_OF_NAME as usize {
        Ok((sense?, count))
    } else {
        Err(Rule::L7)
    }
}

fn integer_kind(value: Option<u64>) -> Result<Kind, Rule>
    requires { IfSome value (λ n. n ≤ greatest_integer) }
    ensures { result ≡ bounded_by value }
{
    match value {
        Some(n) => Ok(Kind::Integer(n as i64)),
        None => Err(Rule::L4),
    }
}

// The integer that digits write in the radix that decimal digits write.
fn radix_integer(radix: &[u8], digits: &[u8]) -> Result<Kind, Rule>
    ensures { result ≡ integer (number_in 10 radix.now) digits.now }
{
    match value(10, radix) {
        Some(radix) if (2..=36).contains(&radix) && are_digits(radix, digits) => {
            integer_kind(value(radix, digits))
        }
        _ => Err(Rule::L5),
    }
}

// Whether there are digits and each is below the radix.
fn are_digits(radix: u64, digits: &[u8]) -> bool
    ensures { result ≡ are_digits radix digits.now }
{
    match digits.split_first() {
        Some(_) => are_below(radix, digits),
        None => false,
    }
}

fn are_below(radix: u64, digits: &[u8]) -> bool
    ensures { result ≡ list_all (λ b. nat_lt (digit_value b) radix) digits.now }
{
    digits.iter().all(|b| u64::from(digit_value(*b)) < radix)
}

/// The number that digits write in a radix, where it is not too large.
pub fn value(radix: u64, digits: &[u8]) -> Option<u64>
    requires { 1 ≤ radix }
    ensures found { result ≡ value_in radix digits.now }
    ensures within { IfSome result (λ n. n ≤ greatest_integer) }
{
    let mut value = 0;
    for digit in digits {
        value = with_digit(radix, value, *digit)?;
    }
    Some(value)
}

// A number with one digit more, where it is not too large.
fn with_digit(radix: u64, value: u64, digit: u8) -> Option<u64>
    ensures { result ≡ within_limit (value * radix + digit_value digit) }
{
    let longer = value
        .checked_mul(radix)?
        .checked_add(u64::from(digit_value(digit)))?;
    if longer <= GREATEST {
        Some(longer)
    } else {
        None
    }
}
