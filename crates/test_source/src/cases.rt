// A case: a word that says what is asked, and a text.
use crate::marks::{Edge, bad_bytes, count as token_count, kinds, longest, semicolons};
use crate::notation::full_text;
use crate::operators::Operators;
use crate::outcome::{
    body, check_context, count_declarations, file, placed_tokens, show_declarations,
};
use crate::shown::TreeText;
use crate::sources::{absent, count as line_count, lines, lines_with_failure};
use crate::stop::{SourceStop, rule_text};
use crate::words::{integer, numbers, tables};
use std::alloc::{AllocError, Global};

/// What cases set for those behind them.
#[derive(Drop)]
pub struct CaseSettings {
    operators: Operators,
    edges: Vec<Edge>,
}

impl CaseSettings {
    /// No operator is set yet.
    pub fn new(alloc: Global) -> CaseSettings {
        CaseSettings {
            operators: Operators::new(alloc),
            edges: Vec::new(alloc),
        }
    }

    // Adds tokens with the same ends: `e` where they can end an expression, `b` where they can begin one.
    fn add_edges(&mut self, alloc: Global, case: &str) -> Result<Option<String>, SourceStop> {
        let (flags, tokens) = case.split_once(" ").unwrap_or((case, ""));
        let ends = flags.contains("e");
        let begins = flags.contains("b");
        for token in tokens.split_whitespace() {
            self.edges.push(Edge {
                token: String::from_str(alloc, token)?,
                ends,
                begins,
            })?;
        }
        Ok(None)
    }

    // The answer to a case of tables, or none, where the word is another.
    fn by_tables(
        &mut self,
        alloc: Global,
        word: &str,
        case: &str,
    ) -> Result<Option<String>, SourceStop> {
        match word {
            "edges" => self.add_edges(alloc, case),
            "levels" => self.operators.set_levels(alloc, case),
            "prefixes" => self.operators.set_prefixes(alloc, case),
            "each" => self.operators.each(alloc, case),
            "all" => self.over_all(alloc, case),
            "longest" => Ok(Some(longest(alloc, case)?)),
            _ => by_text(alloc, word, &full_text(alloc, case)?),
        }
    }

    fn over_all(&self, alloc: Global, case: &str) -> Result<Option<String>, SourceStop> {
        Ok(match case {
            "semicolons" => Some(semicolons(alloc, &self.edges)?),
            "bad bytes" => Some(bad_bytes(alloc)?),
            "names" => Some(tables(alloc)?),
            "absent files" => Some(absent(alloc)?),
            _ => None,
        })
    }
}

/// What comes of a case, behind an arrow. A line of another kind, as a comment, has no outcome. `AllocError` is want of
/// memory.
pub fn outcome(alloc: Global, tables: &mut CaseSettings, line: &str) -> Result<String, AllocError> {
    let Some((word, case)) = line.split_once(" ") else {
        return Ok(String::new(alloc));
    };
    match tables.by_tables(alloc, word, case) {
        Ok(None) => Ok(String::new(alloc)),
        Ok(Some(found)) => format!(in alloc; " => {found}"),
        Err(stop) => {
            let rule = rule_text(alloc, stop)?;
            format!(in alloc; " => {rule}")
        }
    }
}

// The answer to a text, by the word before it.
fn by_text(alloc: Global, word: &str, text: &[u8]) -> Result<Option<String>, SourceStop> {
    Ok(match word {
        "integer" => Some(integer(alloc, text)?),
        "name" => Some(numbers(alloc, text)?),
        "lines" => Some(lines(alloc, text)?),
        "failing" => Some(lines_with_failure(alloc, text)?),
        "preprocess" => Some(line_count(alloc, text)?),
        "tokens" => Some(kinds(alloc, text)?),
        "scan" => Some(token_count(alloc, text)?),
        "places" => Some(placed_tokens(alloc, text)?),
        _ => by_tree(alloc, word, text)?,
    })
}

fn by_tree(alloc: Global, word: &str, text: &[u8]) -> Result<Option<String>, SourceStop> {
    Ok(match word {
        "tree" => Some(body(alloc, text)?.text),
        "body" => Some(with_places(alloc, body(alloc, text)?)?),
        "file" => Some(with_places(alloc, file(alloc, text)?)?),
        "counted" => Some(with_places(alloc, show_declarations(alloc, text)?)?),
        "parse" => {
            let count = count_declarations(alloc, text)?;
            Some(format!(in alloc; "{count} declarations")?)
        }
        "check" => {
            check_context(alloc, text)?;
            Some(String::from_str(alloc, "kept")?)
        }
        _ => None,
    })
}

fn with_places(alloc: Global, shown: TreeText) -> Result<String, AllocError> {
    let TreeText { text, places } = shown;
    if places.is_empty() {
        return Ok(text);
    }
    format!(in alloc; "{text} at {places}")
}
