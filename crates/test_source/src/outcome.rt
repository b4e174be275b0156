// What the parser and the context rules answer.
use crate::marks::show_with_lines;
use crate::shown::TreeText;
use crate::shown_decls::{show_exprs, show_file};
use crate::stop::SourceStop;
use crate::text::{lines_of, number, numbered_lines, scan, scan_all};
use icn_decls::check;
use icn_lex::tokens;
use icn_parse::parse;
use icn_tree::{Decl, Lines, SourceFile};
use std::alloc::{AllocError, Global};

// The body of the only procedure of a file.
fn show_body(alloc: Global, file: &SourceFile) -> Result<TreeText, AllocError> {
    match file.decls.as_slice().split_first() {
        Some((Decl::Procedure(procedure), _)) => show_exprs(alloc, &procedure.body),
        _ => show_exprs(alloc, &[]),
    }
}

/// The body of a procedure that this text is. Its tokens count as lines, from 1. The error is the first rule that the text
/// breaks, or want of memory.
pub fn body(alloc: Global, text: &[u8]) -> Result<TreeText, SourceStop> {
    let mut whole = Vec::from_slice(alloc, b"procedure main();\n")?;
    whole.extend_from_slice(text)?;
    whole.extend_from_slice(b";\nend")?;
    let mut tokens = scan(alloc, &whole)?;
    number(&mut tokens, 5);
    Ok(show_body(alloc, &parse(alloc, "f.icn", &tokens)?)?)
}

/// The declarations in texts of one file each. The error is the first rule that the text breaks, or want of memory.
pub fn file(alloc: Global, texts: &[u8]) -> Result<TreeText, SourceStop> {
    let tokens = scan_all(alloc, texts)?;
    Ok(show_file(alloc, &parse(alloc, "f.icn", &tokens)?)?)
}

/// The declarations of a text. Its tokens count as lines, from 1. The error is the first rule that the text breaks, or want
/// of memory.
pub fn show_declarations(alloc: Global, text: &[u8]) -> Result<TreeText, SourceStop> {
    let mut tokens = scan(alloc, text)?;
    number(&mut tokens, 0);
    Ok(show_file(alloc, &parse(alloc, "f.icn", &tokens)?)?)
}

/// How many declarations there are in texts of one file each. The error is the first rule that the text breaks, or want of
/// memory.
pub fn count_declarations(alloc: Global, texts: &[u8]) -> Result<usize, SourceStop> {
    let file = parse(alloc, "f.icn", &scan_all(alloc, texts)?)?;
    Ok(file.decls.len())
}

/// Nothing, where a text breaks no context rule. The error is the first rule that the text breaks, or want of memory.
pub fn check_context(alloc: Global, text: &[u8]) -> Result<(), SourceStop> {
    check_lines(alloc, &lines_of(alloc, text)?)
}

/// The tokens of lines of one file that are numbered anyhow, each with its line. The error is the first rule that the text
/// breaks, or want of memory.
pub fn placed_tokens(alloc: Global, text: &[u8]) -> Result<String, SourceStop> {
    let tokens = tokens(alloc, &numbered_lines(alloc, text)?)?;
    Ok(show_with_lines(alloc, &tokens)?)
}

fn check_lines(alloc: Global, lines: &Lines) -> Result<(), SourceStop> {
    let tokens = match tokens(alloc, lines) {
        Ok(tokens) => tokens,
        Err(fault) => return Err(SourceStop::from(fault)),
    };
    match parse(alloc, "f.icn", &tokens) {
        Ok(file) => match check(alloc, file) {
            Ok(_) => Ok(()),
            Err(fault) => Err(SourceStop::from(fault)),
        },
        Err(fault) => Err(SourceStop::from(fault)),
    }
}
