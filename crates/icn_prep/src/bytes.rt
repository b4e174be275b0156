// Words and blanks.
ghost use Rattle.std.specs.Prelude.{◌≡◌, ◌≤◌, length};
ghost use Rattle.std.specs.List.{prefix_len, list_all, list_any};
ghost use Rattle.icn_tree.specs.Characters.{begins_identifier, continues_identifier, is_blank};
ghost use Rattle.icn_tree.specs.TokenBounds.{is_name};
ghost use Rattle.icn_prep.specs.Words.{trimmed_start, trimmed_end, trim};
ghost use Rattle.icn_prep.specs.Operands.{is_unquoted};

use icn_profile::DOUBLE_QUOTE;
use icn_tree::characters::{begins_identifier, blanks_len, continues_identifier, is_blank};

/// How many bytes stand before the first double quote.
pub fn unquoted_len(bytes: &[u8]) -> usize
    ensures counted { result ≡ prefix_len is_unquoted bytes.now }
    ensures within { result ≤ length bytes.now }
{
    bytes.iter().take_while(|b| **b != DOUBLE_QUOTE).count()
}

/// Whether the bytes are a name: a letter or an underscore, and then letters, digits and underscores.
pub fn is_name(bytes: &[u8]) -> bool
    ensures { result ≡ is_name bytes.now }
{
    match bytes.split_first() {
        Some((first, rest)) => begins_identifier(*first) && are_of_words(rest),
        None => false,
    }
}

fn are_of_words(bytes: &[u8]) -> bool
    ensures { result ≡ list_all continues_identifier bytes.now }
{
    bytes.iter().all(|b| continues_identifier(*b))
}

/// Whether one of the bytes is a blank.
pub fn has_blank(bytes: &[u8]) -> bool
    ensures { result ≡ list_any is_blank bytes.now }
{
    bytes.iter().any(|b| is_blank(*b))
}

/// The bytes without the blanks at their start.
pub fn trimmed_start(bytes: &[u8]) -> &[u8]
    ensures { result.now ≡ trimmed_start bytes.now }
{
    bytes.split_at(blanks_len(bytes)).1
}

// The bytes without the blanks at their end.
fn trimmed_end(bytes: &[u8]) -> &[u8]
    ensures { result.now ≡ trimmed_end bytes.now }
{
    let mut text = bytes;
    while let Some((last, front)) = text.split_last() {
        if is_blank(*last) {
            text = front;
        } else {
            return text;
        }
    }
    text
}

/// The bytes without the blanks at both ends.
pub fn trim_blanks(bytes: &[u8]) -> &[u8]
    ensures { result.now ≡ trim bytes.now }
{
    trimmed_end(trimmed_start(bytes))
}
