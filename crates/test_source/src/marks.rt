// Tokens of a text, and texts of two tokens.
use crate::stop::SourceStop;
use crate::text::scan;
use icn_tree::{Kind, Token};
use std::alloc::{AllocError, Global};
use std::fmt::Write;

// The bytes as numbers with dots between them.
fn push_bytes(shown: &mut String, bytes: &[u8]) -> Result<(), AllocError> {
    for (i, byte) in bytes.iter().enumerate() {
        if i > 0 {
            shown.push_str(".")?;
        }
        write!(shown, "{byte}")?;
    }
    Ok(())
}

// A token: the name of its word, operator or mark, or the kind and the value of an identifier or a literal.
fn push_kind(shown: &mut String, kind: &Kind) -> Result<(), AllocError> {
    match kind {
        Kind::Identifier(name) => {
            shown.push_str("id:")?;
            push_bytes(shown, name.as_slice())
        }
        Kind::Integer(n) => write!(shown, "{n}"),
        Kind::Text(bytes) => {
            shown.push_str("text:")?;
            push_bytes(shown, bytes.as_slice())
        }
        Kind::Cset(set) => {
            shown.push_str("cset:")?;
            push_bytes(shown, set.as_slice())
        }
        Kind::Word(word) => write!(shown, "{word:?}"),
        Kind::Operator(operator) => write!(shown, "{operator:?}"),
        Kind::Augmented(operator) => write!(shown, "{operator:?}:="),
        Kind::Punctuation(mark) => write!(shown, "{mark:?}"),
    }
}

// The tokens with blanks between them.
fn shown_kinds(alloc: Global, tokens: &[Token]) -> Result<String, AllocError> {
    let mut shown = String::new(alloc);
    for token in tokens {
        if !shown.is_empty() {
            shown.push_str(" ")?;
        }
        push_kind(&mut shown, &token.kind)?;
    }
    Ok(shown)
}

/// The tokens of a text with blanks between them. The error is the first rule that the text breaks, or want of memory.
pub fn kinds(alloc: Global, text: &[u8]) -> Result<String, SourceStop> {
    Ok(shown_kinds(alloc, &scan(alloc, text)?)?)
}

/// How many tokens a text has. The error is the first rule that the text breaks, or want of memory.
pub fn count(alloc: Global, text: &[u8]) -> Result<String, SourceStop> {
    let count = scan(alloc, text)?.len();
    Ok(format!(in alloc; "{count} tokens")?)
}

/// The tokens, each with its line behind it. `AllocError` is want of memory.
pub fn show_with_lines(alloc: Global, tokens: &[Token]) -> Result<String, AllocError> {
    let mut shown = String::new(alloc);
    for token in tokens {
        if !shown.is_empty() {
            shown.push_str(" ")?;
        }
        push_kind(&mut shown, &token.kind)?;
        let line = token.line;
        write!(&mut shown, "@{line}")?;
    }
    Ok(shown)
}

/// Each of these marks with a further byte behind it, where that makes no other mark, has the tokens of the two apart. Answers
/// how many such texts there are, or the first that has other tokens. The further bytes stand before the marks. The error is
/// the first rule that the text breaks, or want of memory.
pub fn longest(alloc: Global, case: &str) -> Result<String, SourceStop> {
    let (further, marks) = case.split_once(" ").unwrap_or(("", ""));
    let mut count = 0u32;
    for mark in marks.split_whitespace() {
        for byte in further.chars() {
            let joined = format!(in alloc; "{mark}{byte}")?;
            if marks
                .split_whitespace()
                .any(|other| other == joined.as_str())
            {
                continue;
            }
            let apart = format!(in alloc; "{mark} {byte}")?;
            if kinds(alloc, joined.as_bytes())?.as_str()
                != kinds(alloc, apart.as_bytes())?.as_str()
            {
                return Ok(joined);
            }
            count = count.saturating_add(1);
        }
    }
    Ok(format!(in alloc; "{count} texts")?)
}

/// The bytes that begin no token. `AllocError` is want of memory.
pub fn bad_bytes(alloc: Global) -> Result<String, AllocError> {
    let mut shown = String::new(alloc);
    for byte in 0..=u8::MAX {
        if let Err(SourceStop::Broken { rule, .. }) = scan(alloc, &[byte]) {
            if rule == icn_tree::Rule::L1 {
                write!(&mut shown, " {byte}")?;
            }
        }
    }
    Ok(shown)
}

/// A token that may stand at the end of a line.
#[derive(Drop)]
pub struct Edge {
    pub token: String,
    // Whether it can end an expression, and whether it can begin one.
    pub ends: bool,
    pub begins: bool,
}

/// Each two tokens on lines of their own have a semicolon between them where the first ends an expression and the second begins
/// one. Answers how many pairs there are, or the first that is otherwise. The error is the first rule that the text breaks,
/// or want of memory.
pub fn semicolons(alloc: Global, edges: &[Edge]) -> Result<String, SourceStop> {
    let mut count = 0u32;
    for first in edges {
        for second in edges {
            let one = first.token.as_str();
            let two = second.token.as_str();
            let text = format!(in alloc; "{one} # comment\n\n {two}")?;
            let want = if first.ends && second.begins { 3 } else { 2 };
            if scan(alloc, text.as_bytes())?.len() != want {
                return Ok(text);
            }
            count = count.saturating_add(1);
        }
    }
    Ok(format!(in alloc; "{count} pairs")?)
}
