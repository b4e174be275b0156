// What calls give, as text.
ghost use Rattle.std.specs.List.{All};
ghost use Rattle.std.specs.Prelude.{IfSome};
ghost use Rattle.icn_heap.specs.Extents.{IsLive};
ghost use Rattle.icn_heap.specs.Heaps.{extent_of};
ghost use Rattle.icn_vars.specs.Outcomes.{IsLiveHalt};
ghost use Rattle.icn_vars.specs.Worlds.{IsLiveItem, reach_of};

use icn_heap::Heap;
use icn_value::{File, Item, Val};
use icn_vars::{Halt, Stop, World, deref};
use std::alloc::AllocError;
use test_values::{Slots, push_printable};

/// A value; or a variable, with a mark, and what it holds. `AllocError` is want of memory.
pub fn push_item(out: &mut String, w: &World, l: &Slots, item: Item) -> Result<(), AllocError>
    requires item { IsLiveItem (reach_of w.now l.now.vals.items) item }
    requires locals { All (IsLive (extent_of w.now.heap)) l.now.vals.items }
{
    if let Item::Var(_) = item {
        out.push('@')?;
    }
    match deref(w, l, item) {
        Ok(val) => push_value(out, &w.heap, val),
        Err(Stop::Error(number, _)) => write!(out, "error {number}"),
        Err(Stop::NoMemory) => out.push_str("no memory"),
    }
}

/// Why a call gave nothing. `AllocError` is want of memory.
pub fn push_halt(out: &mut String, w: &World, l: &Slots, halt: Halt) -> Result<(), AllocError>
    requires { IsLiveHalt (reach_of w.now l.now.vals.items) halt }
{
    match halt {
        Halt::Error(number, offending) => push_error(out, w, number, offending),
        Halt::Ends(status) => write!(out, "ends {status}"),
        Halt::ReadFault => out.push_str("read fault"),
        Halt::WriteFault => out.push_str("write fault"),
        Halt::FileFault => out.push_str("file fault"),
        Halt::NoMemory => out.push_str("no memory"),
    }
}

fn push_error(
    out: &mut String,
    w: &World,
    number: u16,
    offending: Option<Val>,
) -> Result<(), AllocError>
    requires { IfSome offending (IsLive (extent_of w.now.heap)) }
{
    write!(out, "error {number}")?;
    match offending {
        Some(val) => {
            out.push_str(" about ")?;
            push_value(out, &w.heap, val)
        }
        None => Ok(()),
    }
}

fn push_value(out: &mut String, heap: &Heap, val: Val) -> Result<(), AllocError>
    requires { IsLive (extent_of heap.now) val }
{
    match val {
        Val::Text(span) => push_quoted(out, heap.bytes(span)),
        Val::Chars(cset) => {
            push_printable(out, &cset)?;
            out.push('\'')
        }
        Val::Std(file) => push_file(out, file),
        _ => push_plain(out, val),
    }
}

// A value that has no bytes.
fn push_plain(out: &mut String, val: Val) -> Result<(), AllocError> {
    match val {
        Val::Null => out.push_str("&null"),
        Val::Integer(n) => write!(out, "{n}"),
        Val::Text(_) => out.push_str("text"),
        Val::Chars(_) => out.push_str("cset"),
        Val::Std(_) => out.push_str("file"),
        Val::Proc(number) => write!(out, "procedure_{number}"),
        Val::Coexp(id) => write!(out, "coexpression_{id}"),
        Val::List(id) => write!(out, "list_{id}"),
        Val::Set(id) => write!(out, "set_{id}"),
        Val::Table(id) => write!(out, "table_{id}"),
        Val::Rec(id) => write!(out, "record_{id}"),
    }
}

fn push_file(out: &mut String, file: File) -> Result<(), AllocError> {
    match file {
        File::Input => out.push_str("&input"),
        File::Output => out.push_str("&output"),
        File::Errout => out.push_str("&errout"),
        File::Opened(number) => write!(out, "file {number}"),
    }
}

/// Bytes between quotes, with a stroke for the end of a line. `AllocError` is want of memory.
pub fn push_quoted(out: &mut String, bytes: &[u8]) -> Result<(), AllocError> {
    out.push('"')?;
    for byte in bytes {
        push_byte(out, *byte)?;
    }
    out.push('"')
}

fn push_byte(out: &mut String, byte: u8) -> Result<(), AllocError> {
    match byte {
        b'\n' => out.push('|'),
        _ => out.push(char::from(byte)),
    }
}
