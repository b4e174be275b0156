// Lines that are directives.
ghost use Rattle.std.specs.Prelude.{◌≡◌, drop};
ghost use Rattle.icn_prep.specs.Directives.{is_pair_end, begins_pair_end, begins_directive, is_directive, without_comment, directive_text, directive_name, names_file, operand};
ghost use Rattle.icn_prep.specs.declared.literal.LiteralState.TheVariants.{Outside};
ghost use Rattle.icn_prep.specs.Words.{first_word, behind_word};

use crate::bytes::{trim_blanks, trimmed_start};
use crate::literal::LiteralState;
use icn_tree::characters::identifier_len;

/// Whether a line that begins so is a directive.
pub fn is_directive(literal: LiteralState, line: &[u8]) -> bool
    ensures { result ≡ is_directive literal line.now }
{
    match literal {
        LiteralState::Outside => begins_directive(line),
        _ => false,
    }
}

fn begins_directive(line: &[u8]) -> bool
    ensures { result ≡ begins_directive line.now }
{
    match line.split_first() {
        Some((first, rest)) => *first == b'$' && !begins_pair_end(rest),
        None => false,
    }
}

// Whether the bytes begin with one that spells a brace or a bracket behind a `$`.
fn begins_pair_end(bytes: &[u8]) -> bool
    ensures { result ≡ begins_pair_end bytes.now }
{
    match bytes.split_first() {
        Some((first, _)) => is_pair_end(*first),
        None => false,
    }
}

fn is_pair_end(byte: u8) -> bool
    ensures { result ≡ is_pair_end byte }
{
    matches!(byte, b'(' | b')' | b'<' | b'>')
}

/// A directive's name and its operand, each empty where there is none.
pub fn name_and_operand(line: &[u8]) -> (&[u8], &[u8])
    ensures name { result.0.now ≡ directive_name line.now }
    ensures operand { result.1.now ≡ operand line.now }
{
    let text = directive_text(line);
    let (name, rest) = text.split_at(identifier_len(text));
    (name, trim_blanks(strip_comment(names_file(name), rest)))
}

// What stands behind the `$`, without the blanks before the directive's name.
fn directive_text(line: &[u8]) -> &[u8]
    ensures { result.now ≡ directive_text line.now }
{
    let text = match line.split_first() {
        Some((_, rest)) => rest,
        None => line,
    };
    trimmed_start(text)
}

// Whether a directive's quoted operand is the name of a file, in which there are no escapes.
fn names_file(name: &[u8]) -> bool
    ensures { result ≡ names_file name.now }
{
    name == b"include".as_slice() || name == b"line".as_slice()
}

// The bytes up to a comment.
fn strip_comment(is_name: bool, text: &[u8]) -> &[u8]
    ensures { result.now ≡ without_comment is_name Outside text.now }
{
    let mut literal = LiteralState::Outside;
    for (at, byte) in text.iter().enumerate() {
        literal = literal.after_in(is_name, *byte);
        if literal == LiteralState::Comment {
            return &text[..at];
        }
    }
    text
}
