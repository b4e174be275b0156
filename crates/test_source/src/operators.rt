// Operators, for cases that hold for each of them.
use crate::outcome::body;
use crate::stop::{SourceStop, rule_text};
use std::alloc::{AllocError, Global};

/// An operator between two operands.
#[derive(Drop)]
pub struct OperatorLevel {
    pub sign: String,
    // The highest binds most tightly.
    pub level: u32,
    pub to_the_right: bool,
}

/// The operators between two operands, and those before one.
#[derive(Drop)]
pub struct Operators {
    infixes: Vec<OperatorLevel>,
    prefixes: Vec<String>,
}

impl Operators {
    /// No operator is set yet.
    pub fn new(alloc: Global) -> Operators {
        Operators {
            infixes: Vec::new(alloc),
            prefixes: Vec::new(alloc),
        }
    }

    /// Sets the operators before an operand. The error is the first rule that the text breaks, or want of memory.
    pub fn set_prefixes(
        &mut self,
        alloc: Global,
        signs: &str,
    ) -> Result<Option<String>, SourceStop> {
        for sign in signs.split_whitespace() {
            self.prefixes.push(String::from_str(alloc, sign)?)?;
        }
        Ok(None)
    }

    /// Sets the operators between two operands, level by level with `;` between them, where `right` begins a level that
    /// groups to the right. Each two of them stand as their levels say. The error is the first rule that the text breaks, or
    /// want of memory.
    pub fn set_levels(
        &mut self,
        alloc: Global,
        levels: &str,
    ) -> Result<Option<String>, SourceStop> {
        let mut level = 0u32;
        let mut to_the_right = false;
        for sign in levels.split_whitespace() {
            match sign {
                ";" => {
                    level = level.saturating_add(1);
                    to_the_right = false;
                }
                "right" => to_the_right = true,
                _ => self.infixes.push(OperatorLevel {
                    sign: String::from_str(alloc, sign)?,
                    level,
                    to_the_right,
                })?,
            }
        }
        self.pairs(alloc)
    }

    fn pairs(&self, alloc: Global) -> Result<Option<String>, SourceStop> {
        let mut count = 0u32;
        for first in &self.infixes {
            for second in &self.infixes {
                if let Some(other) = pair(alloc, first, second)? {
                    return Ok(Some(other));
                }
                count = count.saturating_add(1);
            }
        }
        Ok(Some(format!(in alloc; "{count} pairs")?))
    }

    /// A text and its tree with `->` between them, in which `P` and `Q` stand for each operator before an operand, and `I`
    /// for each between two. Answers how many texts there are, or the first that has another tree. The error is the first
    /// rule that the text breaks, or want of memory.
    pub fn each(&self, alloc: Global, case: &str) -> Result<Option<String>, SourceStop> {
        let mut infixes = Vec::new(alloc);
        for infix in &self.infixes {
            infixes.push(infix.sign.as_str())?;
        }
        let mut prefixes = Vec::new(alloc);
        for sign in &self.prefixes {
            prefixes.push(sign.as_str())?;
        }
        let one = vec![in alloc; String::from_str(alloc, case)?]?;
        let by_infixes = with_signs(alloc, &one, "I", &infixes)?;
        let by_prefixes = with_signs(alloc, &by_infixes, "P", &prefixes)?;
        first_other(alloc, &with_signs(alloc, &by_prefixes, "Q", &prefixes)?)
    }
}

// The first of these cases that has another tree, or how many there are.
fn first_other(alloc: Global, cases: &[String]) -> Result<Option<String>, SourceStop> {
    for case in cases {
        let (text, want) = case.split_once(" -> ").unwrap_or(("", "no tree"));
        if let Some(other) = other_tree(alloc, text, want)? {
            return Ok(Some(other));
        }
    }
    let count = cases.len();
    Ok(Some(format!(in alloc; "{count} texts")?))
}

// Each case, with each of these signs in place of the letter where it has that.
fn with_signs(
    alloc: Global,
    cases: &[String],
    letter: &str,
    signs: &[&str],
) -> Result<Vec<String>, AllocError> {
    let mut all = Vec::new(alloc);
    for case in cases {
        if case.contains(letter) {
            push_each(alloc, &mut all, case, letter, signs)?;
        } else {
            all.push(case.clone()?)?;
        }
    }
    Ok(all)
}

fn push_each(
    alloc: Global,
    all: &mut Vec<String>,
    case: &str,
    letter: &str,
    signs: &[&str],
) -> Result<(), AllocError> {
    for sign in signs {
        let mut text = String::new(alloc);
        for (i, piece) in case.split(letter).enumerate() {
            if i > 0 {
                text.push_str(sign)?;
            }
            text.push_str(piece)?;
        }
        all.push(text)?;
    }
    Ok(())
}

// Two operators between three operands, where they do not stand as their levels say.
fn pair(
    alloc: Global,
    first: &OperatorLevel,
    second: &OperatorLevel,
) -> Result<Option<String>, SourceStop> {
    let one = first.sign.as_str();
    let two = second.sign.as_str();
    let is_right = first.level < second.level
        || (first.level == second.level && first.to_the_right);
    let text = format!(in alloc; "a {one} b {two} c")?;
    let want = if is_right {
        format!(in alloc; "({one} a ({two} b c))")?
    } else {
        format!(in alloc; "({two} ({one} a b) c)")?
    };
    other_tree(alloc, &text, &want)
}

// The tree of a text, or its fault, where it is not this one.
fn other_tree(alloc: Global, text: &str, want: &str) -> Result<Option<String>, SourceStop> {
    let found = match body(alloc, text.as_bytes()) {
        Ok(shown) => shown.text,
        Err(stop) => rule_text(alloc, stop)?,
    };
    if found.as_str() == want {
        return Ok(None);
    }
    Ok(Some(format!(in alloc; "{text} is {found} and not {want}")?))
}
