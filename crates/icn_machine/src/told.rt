// Values of operands of a type that is wanted, where slots tell them, or what is kept beside one: an operand is that value itself, or
// a local or a global that holds it.
ghost use Rattle.std.specs.Prelude.{◌≡◌, ◌+◌, IfSome, List, Some, pos, slice_get};
ghost use Rattle.icn_value.specs.declared.val.Val.{Val as ValData};
ghost use Rattle.icn_value.specs.declared.val.Val.TheVariants as Vals;
ghost use Rattle.icn_frames.specs.CalledWith.{HasOperands};
ghost use Rattle.icn_frames.specs.Stacks as flat;
ghost use Rattle.icn_machine.specs.PlainFunctions.{HasValueBelow};

use crate::plain_calls::global_value;
use crate::plain_operations::local_integer;
use icn_frames::{Cell, Frames, Stack};
use icn_strfn::natural_number;
use icn_value::{Cset, Span, Val};
use icn_vars::World;

// A value that is a text.
#[inline(always)]
fn text_of(val: Val) -> Option<Span>
    ensures { IfSome result (λ text. val ≡ Vals.Text text) }
{
    match val {
        Val::Text(text) => Some(text),
        _ => None,
    }
}

// A value that is an integer.
#[inline(always)]
fn integer_of(val: Val) -> Option<i64>
    ensures { IfSome result (λ n. val ≡ Vals.Integer n) }
{
    match val {
        Val::Integer(n) => Some(n),
        _ => None,
    }
}

// A value that is a cset.
#[inline(always)]
fn cset_of(val: Val) -> Option<Cset>
    ensures { IfSome result (λ cset. val ≡ Vals.Chars cset) }
{
    match val {
        Val::Chars(cset) => Some(cset),
        _ => None,
    }
}

// The text that a local holds, if it is there and its slot tells it.
#[inline(always)]
fn text_held<K: Stack<Cell> + Drop>(frames: &Frames<K>, index: u32) -> Option<Span>
    ensures { IfSome result
        (λ text. slice_get (flat.locals frames.now.flat) index ≡ Some (Vals.Text text)) }
{
    if index as u64 >= frames.local_count() {
        return None;
    }
    match frames.local_slot(index as u64) {
        Cell::LocalText { len, start } => Some(Span {
            start,
            len: len as u64,
        }),
        _ => None,
    }
}

// The integer that a local holds, if it is there and holds one.
#[inline(always)]
fn integer_held<K: Stack<Cell> + Drop>(frames: &Frames<K>, index: u32) -> Option<i64>
    ensures { IfSome result
        (λ n. slice_get (flat.locals frames.now.flat) index ≡ Some (Vals.Integer n)) }
{
    if index as u64 >= frames.local_count() {
        return None;
    }
    local_integer(frames, index)
}

// The cset that a local holds, if it is there and holds one.
#[inline(always)]
fn cset_held<K: Stack<Cell> + Drop>(frames: &Frames<K>, index: u32) -> Option<Cset>
    ensures { IfSome result
        (λ cset. slice_get (flat.locals frames.now.flat) index ≡ Some (Vals.Chars cset)) }
{
    if index as u64 >= frames.local_count() {
        return None;
    }
    cset_of(frames.local(index as u64))
}

// The text that a global holds, if it is there and holds one.
#[inline(always)]
fn global_text(world: &World, index: u32) -> Option<Span>
    ensures { IfSome result
        (λ text. slice_get world.now.globals.items index ≡ Some (Vals.Text text)) }
{
    let val = global_value(world, index)?;
    text_of(val)
}

// The integer that a global holds, if it is there and holds one.
#[inline(always)]
fn global_integer(world: &World, index: u32) -> Option<i64>
    ensures { IfSome result
        (λ n. slice_get world.now.globals.items index ≡ Some (Vals.Integer n)) }
{
    let val = global_value(world, index)?;
    integer_of(val)
}

// The cset that a global holds, if it is there and holds one.
#[inline(always)]
fn global_cset(world: &World, index: u32) -> Option<Cset>
    ensures { IfSome result
        (λ cset. slice_get world.now.globals.items index ≡ Some (Vals.Chars cset)) }
{
    let val = global_value(world, index)?;
    cset_of(val)
}

// The cset that is kept beside the operand below so many others, if that is one.
#[inline(always)]
fn own_cset<K: Stack<Cell> + Drop>(frames: &Frames<K>, count: u32) -> Option<Cset>
    requires { HasOperands (count + 1) frames.now.flat.cells }
    ensures { (globals : List ValData) → IfSome result
        (λ cset. HasValueBelow globals frames.now.flat count (Vals.Chars cset)) }
{
    let val = frames.value_below(count)?;
    cset_of(val)
}

/// The text that the operand below so many others is, or that the local or the global holds which it names, where slots tell it.
/// There must be so many.
#[inline(always)]
pub fn text_told<K: Stack<Cell> + Drop>(
    frames: &Frames<K>,
    world: &World,
    count: u32,
) -> Option<Span>
    requires { HasOperands (count + 1) frames.now.flat.cells }
    ensures { IfSome result
        (λ text. HasValueBelow world.now.globals.items frames.now.flat count (Vals.Text text)) }
{
    match frames.slot_below(count) {
        Cell::ValText { len, start } => Some(Span {
            start,
            len: len as u64,
        }),
        Cell::VarLocal(index) => text_held(frames, index),
        Cell::VarGlobal(index) => global_text(world, index),
        _ => None,
    }
}

/// The integer that the operand below so many others is, or that the local or the global holds which it names. There must be so many.
#[inline(always)]
pub fn integer_told<K: Stack<Cell> + Drop>(
    frames: &Frames<K>,
    world: &World,
    count: u32,
) -> Option<i64>
    requires { HasOperands (count + 1) frames.now.flat.cells }
    ensures { IfSome result
        (λ n. HasValueBelow world.now.globals.items frames.now.flat count (Vals.Integer n)) }
{
    match frames.slot_below(count) {
        Cell::ValInteger(n) => Some(n),
        Cell::VarLocal(index) => integer_held(frames, index),
        Cell::VarGlobal(index) => global_integer(world, index),
        _ => None,
    }
}

/// The cset that the operand below so many others is, or that the local or the global holds which it names. There must be so many.
#[inline(always)]
pub fn cset_told<K: Stack<Cell> + Drop>(
    frames: &Frames<K>,
    world: &World,
    count: u32,
) -> Option<Cset>
    requires { HasOperands (count + 1) frames.now.flat.cells }
    ensures { IfSome result
        (λ cset. HasValueBelow world.now.globals.items frames.now.flat count (Vals.Chars cset)) }
{
    match frames.slot_below(count) {
        Cell::ValOther => own_cset(frames, count),
        Cell::VarLocal(index) => cset_held(frames, index),
        Cell::VarGlobal(index) => global_cset(world, index),
        _ => None,
    }
}

/// The integer at or above 0 that the operand below so many others is, or that the local or the global holds which it names. There
/// must be so many.
#[inline(always)]
pub fn natural_told<K: Stack<Cell> + Drop>(
    frames: &Frames<K>,
    world: &World,
    count: u32,
) -> Option<u64>
    requires { HasOperands (count + 1) frames.now.flat.cells }
    ensures { IfSome result (λ n. HasValueBelow world.now.globals.items frames.now.flat count
        (Vals.Integer (pos n))) }
{
    let n = integer_told(frames, world, count)?;
    natural_number(n)
}
