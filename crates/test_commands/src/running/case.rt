// The cases.
use crate::running::code::code_of;
use crate::running::observed::{Object, observe_run};
use icn_frames::{Cell, VecStack};
use icn_segments::RawStack;
use icn_verify::Verified;
use std::alloc::{AllocError, Global};

/// What is printed behind a case. The error is want of memory.
pub fn show_case(alloc: Global, line: &str) -> Result<String, AllocError> {
    let (source, input) = line.split_once(" << ").unwrap_or((line, ""));
    let input = input.replace(alloc, "/", "\n")?;
    match source.strip_prefix("! ") {
        Some(source) => shown_failing(alloc, source, &input),
        None => shown_twice(alloc, source, &input),
    }
}

// A run over each kind of stacks.
fn shown_twice(alloc: Global, source: &str, input: &str) -> Result<String, AllocError> {
    let Some(code) = code_of(alloc, source)? else {
        return String::from_str(alloc, " -> no code");
    };
    let (first, _) = observe_run::<VecStack<Cell>>(alloc, &code, input, None)?;
    let (second, _) = observe_run::<RawStack<Cell>>(alloc, &code, input, None)?;
    if first == second {
        format!(in alloc; " -> {first}")
    } else {
        format!(in alloc; " -> {first}, but {second}")
    }
}

// Runs in which each call of each object fails in turn.
fn shown_failing(alloc: Global, source: &str, input: &str) -> Result<String, AllocError> {
    let Some(code) = code_of(alloc, source)? else {
        return String::from_str(alloc, " -> no code");
    };
    let mut shown = String::new(alloc);
    for (object, name) in [
        (Object::Input, "input"),
        (Object::Output, "output"),
        (Object::Errors, "errors"),
    ] {
        push_failing(alloc, &mut shown, &code, input, object, name)?;
    }
    Ok(shown)
}

// As many calls of an object may fail.
const MOST: u64 = 20;

// Runs in which each call of this object fails in turn, up to the first run in which none does.
fn push_failing(
    alloc: Global,
    shown: &mut String,
    code: &Verified,
    input: &str,
    object: Object,
    name: &str,
) -> Result<(), AllocError> {
    for number in 0..MOST {
        let (run, is_over) = observe_run::<VecStack<Cell>>(
            alloc,
            code,
            input,
            Some((object, number)),
        )?;
        shown.push_str(&format!(in alloc; "\n  {name} {number} -> {run}")?)?;
        if is_over {
            return Ok(());
        }
    }
    Ok(())
}
