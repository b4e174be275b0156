// Trees that are built of parts, each known by its line.
use cases_grammar::{binary, list_of, to_by, with_one_more};
use icn_tree::{Expr, Infix, Operator, Place};
use std::alloc::{AllocError, Global};
use std::fmt::Write;

// Where each form stands that is built.
const AT: Place = Place { line: 7, file: 0 };

/// The lines of the parts that stand in what a case builds, behind an arrow. `AllocError` is want of memory.
pub fn outcome(alloc: Global, line: &str) -> Result<String, AllocError> {
    let (form, lines) = line.split_once(" ").unwrap_or((line, ""));
    let mut numbers = Vec::new(alloc);
    for number in lines.split(' ') {
        numbers.push(number.parse::<u32>().unwrap_or(0))?;
    }
    let built = built(alloc, form, &numbers)?;
    let mut shown = String::from_str(alloc, " =>")?;
    push_parts(&mut shown, &built)?;
    Ok(shown)
}

fn built(alloc: Global, form: &str, lines: &[u32]) -> Result<Expr, AllocError> {
    let first = part(lines, 0);
    let second = part(lines, 1);
    match form {
        "operator" => binary(alloc, AT, Infix::Plain(Operator::Plus), first, second),
        "increment" => to_by(alloc, AT, first, second, part(lines, 2)),
        _ => list(alloc, first, second),
    }
}

// A list of one element that gets one more.
fn list(alloc: Global, first: Expr, second: Expr) -> Result<Expr, AllocError> {
    let Expr::List { place, elements } = list_of(AT, vec![in alloc; first]?) else {
        return Ok(part(&[], 0));
    };
    with_one_more(place, elements, second)
}

// A part: `next` on the line of this number among some.
fn part(lines: &[u32], number: usize) -> Expr {
    let line = lines.get(number).copied().unwrap_or(0);
    Expr::Next {
        place: Place { line, file: 0 },
    }
}

fn push_parts(shown: &mut String, built: &Expr) -> Result<(), AllocError> {
    match built {
        Expr::Binary { left, right, .. } => {
            push_line(shown, left)?;
            push_line(shown, right)
        }
        Expr::To {
            from,
            to,
            by: Some(by),
            ..
        } => {
            push_line(shown, from)?;
            push_line(shown, to)?;
            push_line(shown, by)
        }
        Expr::List { elements, .. } => push_lines(shown, elements),
        _ => shown.push_str(" no form"),
    }
}

fn push_lines(shown: &mut String, elements: &[Expr]) -> Result<(), AllocError> {
    for element in elements {
        push_line(shown, element)?;
    }
    Ok(())
}

fn push_line(shown: &mut String, part: &Expr) -> Result<(), AllocError> {
    match part {
        Expr::Next { place } => {
            let line = place.line;
            write!(shown, " {line}")
        }
        _ => shown.push_str(" no part"),
    }
}
