// Calls of a heap.
#![tactic(auto, using(icn_vars::proofs::GrowingWorlds::grows, icn_heap::proofs::GrowingHeaps::keeps_trans))]

mod arguments;
mod calls;
mod showing;
mod structures;
mod tables;

use arguments::arguments;
use calls::push_call_result;
use icn_vars::World;
use std::alloc::{AllocError, Global};
use test_values::{new_world, number};

/// What comes of a call, behind an equals sign; none, where the line begins a new heap. `AllocError` is want of memory.
pub fn outcome(alloc: Global, w: &mut World, line: &str) -> Result<String, AllocError> {
    let (word, rest) = line.split_once(" ").unwrap_or((line, ""));
    let mut out = String::new(alloc);
    if word == "new" {
        let (strings, cells) = rest.split_once(" ").unwrap_or((rest, ""));
        *w = new_world(alloc, number(strings.as_bytes()), number(cells.as_bytes()))?;
        return Ok(out);
    }
    let args = arguments(alloc, w, rest)?;
    out.push_str(" = ")?;
    push_call_result(&mut out, w, word, &args)?;
    Ok(out)
}
