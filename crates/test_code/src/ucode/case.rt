// A case: a word, and parts of texts.
use crate::ucode::changes::changes_outcome;
use crate::ucode::outcome::{built_outcome, texts_outcome};
use crate::ucode::texts::{of_body, of_declaration, of_procedure, of_two, part_at, text_at};
use std::alloc::{AllocError, Global};

/// What comes of a case. `AllocError` is want of memory.
pub fn case_outcome(alloc: Global, line: &str) -> Result<String, AllocError> {
    let (word, parts) = line.split_once("|").unwrap_or((line, ""));
    match word {
        "built" => built_outcome(alloc),
        "changes" => {
            let first = text_at(alloc, parts, 0)?;
            let second = text_at(alloc, parts, 1)?;
            changes_outcome(alloc, &first, &second)
        }
        _ => unit_outcome(alloc, word, parts),
    }
}

// What comes of two texts.
fn unit_outcome(alloc: Global, word: &str, parts: &str) -> Result<String, AllocError> {
    let first = text_at(alloc, parts, 0)?;
    let second = text_at(alloc, parts, 1)?;
    match word {
        "unit" => texts_outcome(alloc, first.as_bytes(), second.as_bytes()),
        "body" => {
            let text = of_body(alloc, &first)?;
            texts_outcome(alloc, text.as_bytes(), b"U9.2\nproc f\nend\n")
        }
        "two" => {
            let text = of_two(alloc, &first, &second)?;
            texts_outcome(alloc, text.as_bytes(), b"U9.2\nproc f\nproc g\nend\n")
        }
        "declaration" => {
            let text = of_declaration(alloc, parts)?;
            texts_outcome(alloc, b"U9.1\n", text.as_bytes())
        }
        "procedure" => procedure_outcome(alloc, parts),
        _ => String::from_str(alloc, "no case"),
    }
}

// What comes of a procedure whose name is a text so many times.
fn procedure_outcome(alloc: Global, parts: &str) -> Result<String, AllocError> {
    let (first, second) = of_procedure(alloc, part_at(parts, 0), part_at(parts, 1))?;
    texts_outcome(alloc, first.as_bytes(), second.as_bytes())
}
