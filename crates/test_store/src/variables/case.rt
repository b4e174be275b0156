// A case: limits, and calls.

use crate::variables::calls::push_call;
use crate::variables::worlds::{two_locals, world};
use icn_vars::World;
use std::alloc::{AllocError, Global};
use test_values::number;

/// What the calls of a line come to. `AllocError` is want of memory.
pub fn outcome(alloc: Global, line: &str) -> Result<String, AllocError> {
    let mut out = String::new(alloc);
    let (limits, calls) = line.split_once(";").unwrap_or((line, ""));
    let (strings, cells) = limits.split_once(" ").unwrap_or((limits, ""));
    match world(alloc, number(strings.as_bytes()), number(cells.as_bytes())) {
        Ok(mut w) => push_calls(alloc, &mut out, &mut w, calls)?,
        Err(_) => out.push_str("no world")?,
    }
    Ok(out)
}

fn push_calls(
    alloc: Global,
    out: &mut String,
    w: &mut World,
    calls: &str,
) -> Result<(), AllocError> {
    let mut l = two_locals(alloc)?;
    for call in calls.split(';') {
        push_call(alloc, out, w, &mut l, call)?;
        out.push_str("; ")?;
    }
    Ok(())
}
