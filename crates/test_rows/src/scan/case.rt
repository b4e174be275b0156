// A case: a limit, the subject, the position, the name of a function and its arguments.
ghost use Rattle.std.specs.List.{All};
ghost use Rattle.icn_heap.specs.Extents.{IsLive};
ghost use Rattle.icn_heap.specs.Heaps.{extent_of};

use crate::scan::calls::call_function;
use crate::scan::keywords::set_keyword;
use crate::scan::results::push_results;
use icn_text::{Func, func_named};
use icn_value::KeywordVariable;
use icn_vars::World;
use std::alloc::{AllocError, Global};
use test_values::{Slots, add_argument, new_world, no_locals, number, split_word};

/// What the case of a line comes to, behind an arrow. An empty line and a remark have none. `AllocError` is want of memory.
pub fn outcome(alloc: Global, line: &[u8]) -> Result<String, AllocError> {
    let mut out = String::new(alloc);
    if line.is_empty() || line[0] == b'#' {
        return Ok(out);
    }
    out.push_str(" -> ")?;
    let (limit, behind) = split_word(line);
    let (subject, behind) = split_word(behind);
    let (position, behind) = split_word(behind);
    let (name, args) = split_word(behind);
    let mut w = new_world(alloc, number(limit), 0)?;
    for word in args.split(|byte| *byte == b' ') {
        add_argument(alloc, &mut w, word)?;
    }
    let mut slots = no_locals(alloc);
    set_keyword(alloc, &mut w, &mut slots, KeywordVariable::Subject, subject)?;
    push_case(&mut out, &mut w, position, name)?;
    Ok(out)
}

// Appends what a function comes to at a position. A name behind `-` says that the subject is emptied before each resumption.
fn push_case(
    out: &mut String,
    w: &mut World,
    position: &[u8],
    name: &[u8],
) -> Result<(), AllocError> {
    let alloc = *w.globals.allocator();
    let mut slots = no_locals(alloc);
    if !set_keyword(alloc, w, &mut slots, KeywordVariable::Position, position)? {
        return out.push_str("no position");
    }
    match name.split_first() {
        Some((b'-', rest)) => push_named(out, w, &mut slots, rest, true),
        _ => push_named(out, w, &mut slots, name, false),
    }
}

fn push_named(
    out: &mut String,
    w: &mut World,
    slots: &mut Slots,
    name: &[u8],
    emptied: bool,
) -> Result<(), AllocError>
    requires { All (IsLive (extent_of w.old.heap)) slots.old.vals.items }
{
    match func_named(name) {
        Some(func) => push_applied(out, w, slots, func, emptied),
        None => out.push_str("no function"),
    }
}

fn push_applied(
    out: &mut String,
    w: &mut World,
    slots: &mut Slots,
    func: Func,
    emptied: bool,
) -> Result<(), AllocError>
    requires { All (IsLive (extent_of w.old.heap)) slots.old.vals.items }
{
    let args = w.globals.as_slice().to_vec(*w.globals.allocator())?;
    let answer = call_function(func, &args, w, slots);
    push_results(out, w, slots, answer, 12, emptied)
}
