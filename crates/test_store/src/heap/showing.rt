// What comes of a call, as text.
ghost use Rattle.std.specs.Prelude.{IfOk, IfSome};
ghost use Rattle.icn_heap.specs.Extents.{IsLive};
ghost use Rattle.icn_heap.specs.Heaps.{extent_of};

use icn_heap::{Full, Heap};
use icn_value::Val;
use icn_vars::World;
use std::alloc::AllocError;
use test_values::{add_global, push_bytes, push_printable};

/// A value that was made, which later calls have by its place, or why it was refused.
pub fn push_made(out: &mut String, w: &mut World, made: Result<Val, Full>) -> Result<(), AllocError>
    requires { IfOk made (IsLive (extent_of w.old.heap)) }
{
    match made {
        Ok(val) => {
            let place = w.globals.len();
            write!(out, "={place} ")?;
            push_val(out, &w.heap, val)?;
            add_global(w, val)
        }
        Err(full) => push_full(out, full),
    }
}

/// That it is done, or why it was refused.
pub fn push_done(out: &mut String, done: Result<(), Full>) -> Result<(), AllocError> {
    match done {
        Ok(()) => out.push_str("done"),
        Err(full) => push_full(out, full),
    }
}

/// Which limit refused it and how much was charged, or that memory was wanting. `AllocError` is want of memory for the text.
pub fn push_full(out: &mut String, full: Full) -> Result<(), AllocError> {
    match full {
        Full::Strings { sum, limit } => write!(out, "{sum} of {limit} bytes are used"),
        Full::Cells { sum, limit } => write!(out, "{sum} of {limit} cells are used"),
        Full::NoMemory => out.push_str("no memory"),
    }
}

/// A truth value. `AllocError` is want of memory.
pub fn push_flag(out: &mut String, flag: bool) -> Result<(), AllocError> {
    out.push_str(if flag { "true" } else { "false" })
}

/// A count, or that there is none. `AllocError` is want of memory.
pub fn push_count(out: &mut String, count: Option<u64>) -> Result<(), AllocError> {
    match count {
        Some(count) => write!(out, "{count}"),
        None => out.push_str("none"),
    }
}

/// A value that was looked for. `AllocError` is want of memory.
pub fn push_found(out: &mut String, heap: &Heap, found: Option<Val>) -> Result<(), AllocError>
    requires { IfSome found (IsLive (extent_of heap.now)) }
{
    match found {
        Some(val) => push_val(out, heap, val),
        None => out.push_str("none"),
    }
}

/// A value, and of a text its bytes behind a quote. `AllocError` is want of memory.
pub fn push_val(out: &mut String, heap: &Heap, val: Val) -> Result<(), AllocError>
    requires { IsLive (extent_of heap.now) val }
{
    match val {
        Val::Text(span) => {
            out.push('"')?;
            push_bytes(out, heap.bytes(span))
        }
        _ => push_plain(out, val),
    }
}

/// A value, and of a text no bytes. `AllocError` is want of memory.
pub fn push_plain(out: &mut String, val: Val) -> Result<(), AllocError> {
    match val {
        Val::Null => out.push_str("&null"),
        Val::Integer(n) => write!(out, "{n}"),
        Val::Text(_) => out.push_str("a text"),
        Val::Chars(cset) => push_printable(out, &cset),
        Val::Std(_) => out.push_str("a file"),
        Val::Proc(number) => write!(out, "procedure {number}"),
        Val::Coexp(id) => write!(out, "co-expression {id}"),
        Val::List(id) => write!(out, "list {id}"),
        Val::Set(id) => write!(out, "set {id}"),
        Val::Table(id) => write!(out, "table {id}"),
        Val::Rec(id) => write!(out, "record {id}"),
    }
}

/// Values in a row, and of texts no bytes. `AllocError` is want of memory.
pub fn push_all(out: &mut String, vals: &[Val]) -> Result<(), AllocError> {
    for (place, val) in vals.iter().enumerate() {
        if place > 0 {
            out.push(' ')?;
        }
        push_plain(out, *val)?;
    }
    Ok(())
}
