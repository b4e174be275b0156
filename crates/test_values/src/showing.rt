// Values as text.
ghost use Rattle.std.specs.Prelude.{IfSome};
ghost use Rattle.icn_heap.specs.Extents.{IsLive};
ghost use Rattle.icn_heap.specs.Heaps.{extent_of};
ghost use Rattle.icn_vars.specs.Worlds.{IsLiveItem, reach_of};

use crate::locals::Slots;
use icn_heap::Heap;
use icn_text::decimal;
use icn_value::{Cset, Item, Val};
use icn_vars::World;
use std::alloc::AllocError;

/// Appends a value: an integer, a text or a cset as a case writes it, and others by a word. `AllocError` is want of memory.
pub fn push_value(out: &mut String, heap: &Heap, val: Val) -> Result<(), AllocError>
    requires { IsLive (extent_of heap.now) val }
{
    match val {
        Val::Null => out.push_str("&null"),
        Val::Integer(n) => push_integer(out, n),
        Val::Text(span) => push_escaped(out, heap.bytes(span)),
        Val::Chars(cset) => push_escaped_cset(out, &cset),
        _ => out.push_str("another"),
    }
}

/// Appends a value, or that it is a variable. `AllocError` is want of memory.
pub fn push_item(out: &mut String, w: &World, _slots: &Slots, item: Item) -> Result<(), AllocError>
    requires { IsLiveItem (reach_of w.now _slots.now.vals.items) item }
{
    match item {
        Item::Val(val) => push_value(out, &w.heap, val),
        Item::Var(_) => out.push_str("a variable"),
    }
}

/// Appends an error and the value that it is about.
pub fn push_error(
    out: &mut String,
    w: &World,
    number: u16,
    offending: Option<Val>,
) -> Result<(), AllocError>
    requires { IfSome offending (IsLive (extent_of w.now.heap)) }
{
    out.push_str("error ")?;
    push_integer(out, i64::from(number))?;
    match offending {
        Some(val) => {
            out.push(' ')?;
            push_value(out, &w.heap, val)
        }
        None => Ok(()),
    }
}

/// Appends an integer. `AllocError` is want of memory.
pub fn push_integer(out: &mut String, n: i64) -> Result<(), AllocError> {
    push_bytes(out, decimal(n).as_bytes())
}

/// Appends bytes as they are. `AllocError` is want of memory.
pub fn push_bytes(out: &mut String, bytes: &[u8]) -> Result<(), AllocError> {
    for byte in bytes {
        out.push(char::from(*byte))?;
    }
    Ok(())
}

/// Appends a cset: a quote, and those of its members that are printable and no blank. `AllocError` is want of memory.
pub fn push_printable(out: &mut String, cset: &Cset) -> Result<(), AllocError> {
    out.push('\'')?;
    for byte in b'!'..=b'~' {
        if cset.has(byte) {
            out.push(char::from(byte))?;
        }
    }
    Ok(())
}

/// Appends a text: a quote, and its bytes as cases write them. `AllocError` is want of memory.
pub fn push_escaped(out: &mut String, bytes: &[u8]) -> Result<(), AllocError> {
    out.push('"')?;
    for byte in bytes {
        push_byte(out, *byte)?;
    }
    Ok(())
}

/// Appends a cset: a quote, and its members as cases write them. `AllocError` is want of memory.
pub fn push_escaped_cset(out: &mut String, cset: &Cset) -> Result<(), AllocError> {
    out.push('\'')?;
    for byte in 0..=u8::MAX {
        if cset.has(byte) {
            push_byte(out, byte)?;
        }
    }
    Ok(())
}

// A blank as an underline, and a byte that is not printable by its number.
fn push_byte(out: &mut String, byte: u8) -> Result<(), AllocError> {
    match byte {
        33..=126 => out.push(char::from(byte)),
        b' ' => out.push('_'),
        _ => {
            out.push('<')?;
            push_integer(out, i64::from(byte))?;
            out.push('>')
        }
    }
}
