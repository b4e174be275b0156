// What comes of an operation, as a text.
ghost use Rattle.std.specs.List.{All};
ghost use Rattle.icn_value.specs.declared.val.Val.TheVariants.{List, Rec, Set};
ghost use Rattle.icn_heap.specs.Extents.{IsLive};
ghost use Rattle.icn_heap.specs.Heaps.{extent_of};
ghost use Rattle.icn_vars.specs.Outcomes.{IsLiveAnswer, IsLiveOutcome};
ghost use Rattle.icn_vars.specs.Worlds.{IsLiveItem, reach_of};

use icn_heap::Heap;
use icn_value::{Cset, File, Item, Val};
use icn_vars::{Halt, Outcome, Stop, World, deref};
use std::alloc::AllocError;
use test_values::{Slots, push_bytes};

/// What an operation gives, or the error that it is.
pub fn show(
    out: &mut String,
    w: &World,
    slots: &Slots,
    answer: Result<Outcome, Halt>,
) -> Result<(), AllocError>
    requires answer { IsLiveAnswer (reach_of w.now slots.now.vals.items) answer }
    requires locals { All (IsLive (extent_of w.now.heap)) slots.now.vals.items }
{
    match answer {
        Ok(outcome) => push_outcome(out, w, slots, outcome),
        Err(Halt::Error(number, None)) => write!(out, "error {number}"),
        Err(Halt::Error(number, Some(val))) => {
            write!(out, "error {number} about ")?;
            push_value(out, &w.heap, val)
        }
        Err(_) => out.push_str("broken off"),
    }
}

fn push_outcome(
    out: &mut String,
    w: &World,
    slots: &Slots,
    outcome: Outcome,
) -> Result<(), AllocError>
    requires outcome { IsLiveOutcome (reach_of w.now slots.now.vals.items) outcome }
    requires locals { All (IsLive (extent_of w.now.heap)) slots.now.vals.items }
{
    match outcome {
        Outcome::Fails => out.push_str("fails"),
        Outcome::Gives(item) => push_item(out, w, slots, item),
        Outcome::Suspends(item, _) => {
            push_item(out, w, slots, item)?;
            out.push_str(" ..")
        }
    }
}

// A value; or a variable, with a mark, and what it holds.
fn push_item(out: &mut String, w: &World, slots: &Slots, item: Item) -> Result<(), AllocError>
    requires item { IsLiveItem (reach_of w.now slots.now.vals.items) item }
    requires locals { All (IsLive (extent_of w.now.heap)) slots.now.vals.items }
{
    if let Item::Var(_) = item {
        out.push('$')?;
    }
    match deref(w, slots, item) {
        Ok(val) => push_value(out, &w.heap, val),
        Err(Stop::Error(number, _)) => write!(out, "error {number}"),
        Err(Stop::NoMemory) => out.push_str("broken off"),
    }
}

/// What the locals hold afterwards, where an operand is one of them. `AllocError` is want of memory.
pub fn show_locals(out: &mut String, w: &World, slots: &Slots, line: &str) -> Result<(), AllocError>
    requires { All (IsLive (extent_of w.now.heap)) slots.now.vals.items }
{
    if !has_variable(line.as_bytes()) {
        return Ok(());
    }
    out.push_str(" |")?;
    let mut rest = slots.vals.as_slice();
    while let Some((first, others)) = rest.split_first() {
        out.push(' ')?;
        push_value(out, &w.heap, *first)?;
        rest = others;
    }
    Ok(())
}

// Whether a line has the mark of a variable.
fn has_variable(line: &[u8]) -> bool {
    for byte in line {
        if *byte == b'$' || *byte == b'%' {
            return true;
        }
    }
    false
}

fn push_value(out: &mut String, heap: &Heap, val: Val) -> Result<(), AllocError>
    requires { IsLive (extent_of heap.now) val }
{
    match val {
        Val::Null => out.push_str("&null"),
        Val::Integer(n) => write!(out, "{n}"),
        Val::Text(text) => {
            out.push('"')?;
            push_bytes(out, heap.bytes(text))?;
            out.push('"')
        }
        Val::Chars(cset) => push_cset(out, &cset),
        Val::List(id) => push_list(out, heap, id),
        Val::Set(id) => push_set(out, heap, id),
        Val::Rec(id) => push_record(out, heap, id),
        Val::Table(_) => out.push_str("a table"),
        Val::Std(File::Output) => out.push_str("&output"),
        _ => out.push_str("&input"),
    }
}

// How many members there are, and which of these are small letters.
fn push_cset(out: &mut String, cset: &Cset) -> Result<(), AllocError> {
    let size = cset.size();
    write!(out, "{size} bytes '")?;
    for byte in b'a'..=b'z' {
        if cset.has(byte) {
            out.push(char::from(byte))?;
        }
    }
    out.push('\'')
}

fn push_list(out: &mut String, heap: &Heap, id: u32) -> Result<(), AllocError>
    requires { IsLive (extent_of heap.now) (List id) }
{
    out.push('[')?;
    for place in 0..heap.list(id).len() {
        push_element(out, heap.list(id).at(place))?;
    }
    out.push(']')
}

fn push_set(out: &mut String, heap: &Heap, id: u32) -> Result<(), AllocError>
    requires { IsLive (extent_of heap.now) (Set id) }
{
    out.push('{')?;
    for place in 0..heap.size(Val::Set(id)).unwrap_or(0) {
        push_element(out, heap.member_at(id, place))?;
    }
    out.push('}')
}

fn push_record(out: &mut String, heap: &Heap, id: u32) -> Result<(), AllocError>
    requires { IsLive (extent_of heap.now) (Rec id) }
{
    out.push('(')?;
    for field in heap.fields(id) {
        push_element(out, Some(*field))?;
    }
    out.push(')')
}

// An integer that a structure has, and a comma behind it.
fn push_element(out: &mut String, val: Option<Val>) -> Result<(), AllocError> {
    match val {
        Some(Val::Integer(n)) => write!(out, "{n},"),
        _ => out.push_str("?,"),
    }
}
