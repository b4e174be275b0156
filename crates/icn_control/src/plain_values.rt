// Values of operands, by slots beside which nothing is kept.
ghost use Rattle.std.specs.Prelude.{◌≡◌, ◌≤◌, None, IfSome, IsSome, IsTrue};
ghost use Rattle.icn_frames.specs.Slots.{plain_value};
ghost use Rattle.icn_frames.specs.Stacks as flat;
ghost use Rattle.icn_frames.specs.declared.slots.StackSlot.TheVariants as Slots;
ghost use Rattle.icn_control.specs.PlainValues.{TakesValue, TellsValue};

use crate::on_stack::put_slot;
use icn_frames::{Cell, Frames, Stack, is_plain_operand, local_as_operand};

// Whether an operand is a value beside whose slot nothing is kept.
#[inline(always)]
fn is_plain_value(slot: Cell) -> bool
    ensures { IsTrue result → IsSome (plain_value slot) }
{
    match slot {
        Cell::ValNull => true,
        Cell::ValInteger(_) => true,
        Cell::ValText { .. } => true,
        Cell::ValInput => true,
        Cell::ValOutput => true,
        Cell::ValErrout => true,
        Cell::ValOpened(_) => true,
        Cell::ValProc(_) => true,
        Cell::ValRec(_) => true,
        Cell::ValList(_) => true,
        Cell::ValSet(_) => true,
        Cell::ValTable(_) => true,
        Cell::ValCoexp(_) => true,
        _ => false,
    }
}

// The slot of the value that a local holds, if nothing is kept beside it.
#[inline(always)]
fn local_value<K: Stack<Cell> + Drop>(frames: &Frames<K>, slot: Cell, index: u32) -> Option<Cell>
    requires { slot ≡ Slots.VarLocal index }
    ensures { IfSome result (TellsValue (flat.locals frames.now.flat) slot) }
{
    let count = frames.local_count();
    if index as u64 >= count {
        return None;
    }
    let value = local_as_operand(frames.local_slot(index as u64));
    if is_plain_operand(value) {
        Some(value)
    } else {
        None
    }
}

// The slot of a value that is an operand, if nothing is kept beside it.
#[inline(always)]
fn own_value<K: Stack<Cell> + Drop>(frames: &Frames<K>, slot: Cell) -> Option<Cell>
    ensures { IfSome result (TellsValue (flat.locals frames.now.flat) slot) }
{
    if is_plain_value(slot) {
        Some(slot)
    } else {
        None
    }
}

/// The slot of an operand's value, where both slots tell all: that of a value itself, or of what a local of the procedure that
/// runs holds. It takes no memory.
#[inline(always)]
pub fn value_slot<K: Stack<Cell> + Drop>(frames: &Frames<K>, slot: Cell) -> Option<Cell>
    ensures { IfSome result (TellsValue (flat.locals frames.now.flat) slot) }
{
    match slot {
        Cell::VarLocal(index) => local_value(frames, slot, index),
        _ => own_value(frames, slot),
    }
}

/// Takes the top operand, which must be there, and gives the slot of its value, where slots tell all; elsewhere nothing changes.
/// It takes no memory.
#[inline(always)]
pub fn take_value<K: Stack<Cell> + Drop>(frames: &mut Frames<K>) -> Option<Cell>
    requires { IsSome (flat.pop frames.old.flat) }
    ensures taken { IfSome result (TakesValue frames.old.flat frames.new.flat) }
    ensures spare { IfSome result (λ value. 1 ≤ frames.new.spare) }
    ensures none { result ≡ None → frames.new.flat ≡ frames.old.flat }
{
    let slot = frames.top();
    if !is_plain_operand(slot) {
        return None;
    }
    frames.drop_top();
    match value_slot(frames, slot) {
        Some(value) => Some(value),
        None => {
            put_slot(frames, slot);
            None
        }
    }
}
