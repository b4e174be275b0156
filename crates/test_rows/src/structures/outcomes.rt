// What a call comes to, as text.
ghost use Rattle.std.specs.List.{All};
ghost use Rattle.icn_heap.specs.Extents.{AreLive, IsLive};
ghost use Rattle.icn_heap.specs.Heaps.{extent_of};

use icn_heap::Heap;
use icn_value::Val;
use std::alloc::AllocError;
use test_values::{push_escaped, push_escaped_cset, push_integer};

/// Appends a value: an integer, a text or a cset as a case writes it, and a structure by its type and its number.
/// `AllocError` is want of memory.
pub fn push_value(out: &mut String, heap: &Heap, val: Val) -> Result<(), AllocError>
    requires { IsLive (extent_of heap.now) val }
{
    match val {
        Val::Null => out.push_str("&null"),
        Val::Integer(n) => push_integer(out, n),
        Val::Text(span) => push_escaped(out, heap.bytes(span)),
        Val::Chars(cset) => push_escaped_cset(out, &cset),
        Val::Std(_) => out.push_str("&input"),
        Val::List(id) => push_numbered(out, "list_", id),
        Val::Set(id) => push_numbered(out, "set_", id),
        Val::Table(id) => push_numbered(out, "table_", id),
        _ => out.push_str("another"),
    }
}

/// Appends the elements of a structure, and those of lists among them. `AllocError` is want of memory.
pub fn push_shown(out: &mut String, heap: &Heap, val: Val) -> Result<(), AllocError>
    requires { IsLive (extent_of heap.now) val }
{
    match val {
        Val::List(id) => push_elements(out, heap, &heap.items(id)?),
        Val::Set(id) => push_elements(out, heap, &heap.members(id)?),
        Val::Table(id) => push_pairs(out, heap, &heap.pairs(id)?),
        _ => push_value(out, heap, val),
    }
}

fn push_elements(out: &mut String, heap: &Heap, vals: &[Val]) -> Result<(), AllocError>
    requires { All (IsLive (extent_of heap.now)) vals.now }
{
    out.push('[')?;
    for val in vals {
        push_element(out, heap, *val)?;
    }
    out.push(']')
}

fn push_element(out: &mut String, heap: &Heap, val: Val) -> Result<(), AllocError>
    requires { IsLive (extent_of heap.now) val }
{
    match val {
        Val::List(id) => push_values(out, heap, &heap.items(id)?),
        _ => {
            out.push(' ')?;
            push_value(out, heap, val)
        }
    }
}

fn push_values(out: &mut String, heap: &Heap, vals: &[Val]) -> Result<(), AllocError>
    requires { All (IsLive (extent_of heap.now)) vals.now }
{
    out.push_str(" [")?;
    for val in vals {
        out.push(' ')?;
        push_value(out, heap, *val)?;
    }
    out.push(']')
}

fn push_pairs(out: &mut String, heap: &Heap, pairs: &[(Val, Val)]) -> Result<(), AllocError>
    requires { All (AreLive (extent_of heap.now)) pairs.now }
{
    out.push('[')?;
    for pair in pairs {
        out.push(' ')?;
        push_value(out, heap, pair.0)?;
        out.push(':')?;
        push_value(out, heap, pair.1)?;
    }
    out.push(']')
}

fn push_numbered(out: &mut String, kind: &str, id: u32) -> Result<(), AllocError> {
    out.push_str(kind)?;
    push_integer(out, i64::from(id))
}
