// What calls come to, as text.
ghost use Rattle.std.specs.Prelude.{IfSome};
ghost use Rattle.icn_heap.specs.Extents.{IsLive};
ghost use Rattle.icn_heap.specs.Heaps.{extent_of};
ghost use Rattle.icn_vars.specs.Stops.{IsLiveStop};

use icn_heap::Heap;
use icn_value::{KeywordVariable, Mover, Root, Val, VarRef};
use icn_vars::{Stop, World};
use std::alloc::AllocError;
use test_values::{push_bytes, push_printable};

/// Why a variable was not read or assigned. `AllocError` is want of memory.
pub fn push_stop(out: &mut String, w: &World, stop: Stop) -> Result<(), AllocError>
    requires { IsLiveStop (extent_of w.now.heap) stop }
{
    match stop {
        Stop::Error(number, offending) => push_error(out, w, number, offending),
        Stop::NoMemory => out.push_str("no memory"),
    }
}

fn push_error(
    out: &mut String,
    w: &World,
    number: u16,
    offending: Option<Val>,
) -> Result<(), AllocError>
    requires { IfSome offending (IsLive (extent_of w.now.heap)) }
{
    write!(out, "error {number}")?;
    match offending {
        Some(val) => {
            out.push_str(" about ")?;
            push_value(out, &w.heap, val)
        }
        None => Ok(()),
    }
}

/// Appends a value: a text and a cset between quotes, and others by a word. `AllocError` is want of memory.
pub fn push_value(out: &mut String, heap: &Heap, val: Val) -> Result<(), AllocError>
    requires { IsLive (extent_of heap.now) val }
{
    match val {
        Val::Text(span) => {
            out.push('"')?;
            push_bytes(out, heap.bytes(span))?;
            out.push('"')
        }
        Val::Chars(cset) => {
            push_printable(out, &cset)?;
            out.push('\'')
        }
        _ => push_plain(out, val),
    }
}

fn push_plain(out: &mut String, val: Val) -> Result<(), AllocError> {
    match val {
        Val::Null => out.push_str("&null"),
        Val::Integer(n) => write!(out, "{n}"),
        Val::List(_) => out.push_str("list"),
        Val::Rec(_) => out.push_str("record"),
        Val::Table(_) => out.push_str("table"),
        Val::Std(_) => out.push_str("file"),
        _ => out.push_str("another"),
    }
}

/// A variable as a case writes it, but for the key of a table. `AllocError` is want of memory.
pub fn push_variable(out: &mut String, variable: VarRef) -> Result<(), AllocError> {
    match variable {
        VarRef::Whole(root) => push_root(out, root),
        VarRef::Part { root, place, len } => {
            push_root(out, root)?;
            write!(out, ":{place}:{len}")
        }
    }
}

fn push_root(out: &mut String, root: Root) -> Result<(), AllocError> {
    match root {
        Root::Global(place) => write!(out, "g{place}"),
        Root::Static(place) => write!(out, "s{place}"),
        Root::Local(place) => write!(out, "l{place}"),
        Root::Element { number, .. } => write!(out, "e{number}"),
        Root::Field { place, .. } => write!(out, "f{place}"),
        Root::Key { .. } => out.push('k'),
        Root::Keyword(word) => push_keyword(out, word),
    }
}

fn push_keyword(out: &mut String, word: KeywordVariable) -> Result<(), AllocError> {
    match word {
        KeywordVariable::Subject => out.push_str("&subject"),
        KeywordVariable::Position => out.push_str("&pos"),
        KeywordVariable::Random => out.push_str("&random"),
        KeywordVariable::ErrorCount => out.push_str("&error"),
    }
}

/// Appends which side moves the other. `AllocError` is want of memory.
pub fn push_mover(out: &mut String, mover: Mover) -> Result<(), AllocError> {
    match mover {
        Mover::Neither => out.push_str("neither"),
        Mover::Left => out.push_str("left"),
        Mover::Right => out.push_str("right"),
    }
}
