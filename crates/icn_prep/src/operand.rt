// The operands of directives. `None` is an operand that is missing, wrong or surplus.
ghost use Rattle.std.specs.Prelude.{◌≡◌, ◌≤◌, IfSome, length, true};
ghost use Rattle.std.specs.List.{list_all};
ghost use Rattle.std.specs.Option.{option_map};
ghost use Rattle.icn_prep.specs.FileLines.{begins_with};
ghost use Rattle.icn_prep.specs.Operands.{name_operand, define_operand, text_in_quotes, is_quote_alone, plain_run, file_name, file_operand, number_of, number_and_name, line_operand};
ghost use Rattle.icn_profile.specs.Numbers.{greatest_line_operand};
ghost use Rattle.icn_tree.specs.Characters.{is_digit};

use crate::bytes::{has_blank, is_name, trim_blanks, trimmed_start, unquoted_len};
use icn_profile::DOUBLE_QUOTE;
use icn_tree::characters::{begins_identifier, digits_len, identifier_len};

/// One name.
pub fn name_operand(operand: &[u8]) -> Option<&[u8]>
    ensures { option_map (λ name. name.now) result ≡ name_operand operand.now }
{
    if is_name(operand) {
        Some(operand)
    } else {
        None
    }
}

/// A name, and its text.
pub fn define_operand(operand: &[u8]) -> Option<(&[u8], &[u8])>
    ensures { option_map (λ found. (found.0.now, found.1.now)) result ≡ define_operand operand.now }
{
    let (name, rest) = operand.split_at(identifier_len(operand));
    if is_name(name) && !begins_with(b'(', rest) {
        Some((name, trim_blanks(rest)))
    } else {
        None
    }
}

fn begins_with(byte: u8, bytes: &[u8]) -> bool
    ensures { result ≡ begins_with byte bytes.now }
{
    match bytes.split_first() {
        Some((first, _)) => *first == byte,
        None => false,
    }
}

/// The name of a file, in double quotes or as a run of bytes that begins with none.
pub fn file_operand(operand: &[u8]) -> Option<&str>
    ensures { option_map (λ name. name.now) result ≡ file_operand operand.now }
{
    if begins_with(DOUBLE_QUOTE, operand) {
        let name = quoted_text(operand)?;
        file_name(name)
    } else {
        let name = plain_run(operand)?;
        file_name(name)
    }
}

// Text that is not empty can name a file.
fn file_name(name: &[u8]) -> Option<&str>
    ensures { option_map (λ name. name.now) result ≡ file_name name.now }
{
    if name.is_empty() {
        return None;
    }
    match str::from_utf8(name) {
        Ok(name) => Some(name),
        Err(_) => None,
    }
}

// A run of bytes without a blank.
fn plain_run(operand: &[u8]) -> Option<&[u8]>
    ensures { option_map (λ name. name.now) result ≡ plain_run operand.now }
{
    if has_blank(operand) {
        None
    } else {
        Some(operand)
    }
}

// What stands in double quotes, up to the next one, where nothing stands behind it.
fn quoted_text(operand: &[u8]) -> Option<&[u8]>
    ensures { option_map (λ name. name.now) result ≡ text_in_quotes operand.now }
{
    let (first, rest) = operand.split_first()?;
    let (name, end) = rest.split_at(unquoted_len(rest));
    if *first == DOUBLE_QUOTE && is_quote_alone(end) {
        Some(name)
    } else {
        None
    }
}

fn is_quote_alone(bytes: &[u8]) -> bool
    ensures { result ≡ is_quote_alone bytes.now }
{
    match bytes {
        [only] => *only == DOUBLE_QUOTE,
        _ => false,
    }
}

/// 1 to 9 digits, and perhaps a name in double quotes.
pub fn line_operand(operand: &[u8]) -> Option<(u32, Option<&[u8]>)>
    ensures read { option_map (λ found. (found.0, option_map (λ name. name.now) found.1)) result
        ≡ line_operand operand.now }
    ensures small { IfSome result (λ found. found.0 ≤ greatest_line_operand) }
{
    let count = digits_len(operand);
    if count < 1 || count > 9 {
        return None;
    }
    let (digits, rest) = operand.split_at(count);
    line_number_and_name(number_of(digits), trimmed_start(rest))
}

// The number, and perhaps a name in double quotes.
fn line_number_and_name(number: u32, rest: &[u8]) -> Option<(u32, Option<&[u8]>)>
    ensures read { option_map (λ found. (found.0, option_map (λ name. name.now) found.1)) result
        ≡ number_and_name number rest.now }
    ensures same { IfSome result (λ found. found.0 ≡ number) }
{
    if rest.is_empty() {
        return Some((number, None));
    }
    let name = quoted_text(rest)?;
    Some((number, Some(name)))
}

// The number that at most 9 digits write.
fn number_of(digits: &[u8]) -> u32
    requires few { length digits.now ≤ 9 }
    requires digits { list_all is_digit digits.now ≡ true }
    ensures number { result ≡ number_of digits.now }
    ensures small { result ≤ greatest_line_operand }
{
    let mut value = 0;
    for digit in digits {
        value = value * 10 + u32::from(*digit - b'0');
    }
    value
}
