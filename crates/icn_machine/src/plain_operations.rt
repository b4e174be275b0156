// Operations that are performed on the stack alone, on operands that are told as they stand: none is taken into a room, and no row
// is called. Elsewhere nothing changes.
ghost use Rattle.std.specs.Prelude.{[], ◌≡◌, ◌+◌, ◌<◌, ◌≤◌, IfSome, IsSome, IsTrue, None, Some, slice_get};
ghost use Rattle.std.specs.Result.{result_ok};
ghost use Rattle.icn_value.specs.declared.item.Item.{Item};
ghost use Rattle.icn_value.specs.declared.val.Val.TheVariants as Vals;
ghost use Rattle.icn_text.specs.declared.op.Op.TheVariants as Ops;
ghost use Rattle.icn_defs.specs.Arities.{arity};
ghost use Rattle.icn_vars.specs.Worlds.{Reach, reach_of};
ghost use Rattle.icn_frames.specs.CalledWith.{HasOperands};
ghost use Rattle.icn_frames.specs.Slots.{plain_operand};
ghost use Rattle.icn_frames.specs.Stacks as flat;
ghost use Rattle.icn_code.specs.Codes.{Tables};
ghost use Rattle.icn_control.specs.LiveStacks.{IsLiveStack};
ghost use Rattle.icn_control.specs.TakenOperands.{take_operands};
ghost use Rattle.icn_machine.specs.PlainFunctions.{HasValueBelow};
ghost use Rattle.icn_machine.specs.PlainOperations.{Assigns, Compares, Computes, HasValueOf, IsLocalSlot, NamesOwnLocal, OperatesInPlace, OperatesInWorld, TakesSlots, TellIntegers, TellsInteger, integer_result, is_met, local_item};

use crate::counts::count_from;
use crate::held_assignments::assign_held;
use crate::plain_functions::value_told;
use crate::value_operations::operate_on_values;
use icn_control::{RunState, put_slot, value_slot};
use icn_frames::{Cell, Frames, Stack, is_plain_local, operand_as_local};
use icn_text::{Arith, Op, add, div, mul, rem, sub};
use icn_value::{Item, Root, Val, VarRef};
use icn_vars::World;
use std::cmp::Ordering;

/// The integer that a local holds, if it holds one.
#[inline(always)]
pub fn local_integer<K: Stack<Cell> + Drop>(frames: &Frames<K>, index: u32) -> Option<i64>
    requires { index < flat.local_count frames.now.flat }
    ensures { IfSome result
        (λ n. slice_get (flat.locals frames.now.flat) index ≡ Some (Vals.Integer n)) }
{
    frames.local_count();
    match frames.local_slot(index as u64) {
        Cell::LocalInteger(n) => Some(n),
        _ => None,
    }
}

// The integer that an operand is, or that the local holds which it names.
#[inline(always)]
fn integer_in<K: Stack<Cell> + Drop>(frames: &Frames<K>, slot: Cell) -> Option<i64>
    requires { NamesOwnLocal frames.now.flat slot }
    ensures { IfSome result (TellsInteger (flat.locals frames.now.flat) slot) }
{
    match slot {
        Cell::ValInteger(n) => Some(n),
        Cell::VarLocal(index) => local_integer(frames, index),
        _ => None,
    }
}

// The integers of two operands, where both are or hold one.
#[inline(always)]
fn integers_in<K: Stack<Cell> + Drop>(frames: &Frames<K>, slots: (Cell, Cell)) -> Option<(i64, i64)>
    requires lower { NamesOwnLocal frames.now.flat slots.0 }
    requires upper { NamesOwnLocal frames.now.flat slots.1 }
    ensures { IfSome result (TellIntegers (flat.locals frames.now.flat) slots) }
{
    let m = integer_in(frames, slots.0)?;
    let n = integer_in(frames, slots.1)?;
    Some((m, n))
}

/// What was computed, if it was.
#[inline(always)]
pub fn computed_number(found: Result<i64, Arith>) -> Option<i64>
    ensures { result ≡ result_ok found }
{
    match found {
        Ok(n) => Some(n),
        Err(_) => None,
    }
}

// The result of arithmetic on two integers, if there is one.
#[inline(always)]
fn integer_result(op: Op, m: i64, n: i64) -> Option<i64>
    ensures { result ≡ integer_result op m n }
{
    match op {
        Op::Add => computed_number(add(m, n)),
        Op::Subtract => computed_number(sub(m, n)),
        Op::Multiply => computed_number(mul(m, n)),
        Op::Divide => computed_number(div(m, n)),
        Op::Remainder => computed_number(rem(m, n)),
        _ => None,
    }
}

/// Whether a comparison is met, by the order of its operands.
#[inline(always)]
pub fn is_met(op: Op, order: Ordering) -> Option<bool>
    ensures { result ≡ is_met op order }
{
    match op {
        Op::Less => Some(order.is_lt()),
        Op::LessOrEqual => Some(order.is_le()),
        Op::Equal => Some(order.is_eq()),
        Op::GreaterOrEqual => Some(order.is_ge()),
        Op::Greater => Some(order.is_gt()),
        Op::NotEqual => Some(order.is_ne()),
        _ => None,
    }
}

// The result of arithmetic on two operands, if both are integers and it has one.
#[inline(always)]
fn result_of<K: Stack<Cell> + Drop>(frames: &Frames<K>, op: Op, slots: (Cell, Cell)) -> Option<i64>
    requires lower { NamesOwnLocal frames.now.flat slots.0 }
    requires upper { NamesOwnLocal frames.now.flat slots.1 }
    ensures { IfSome result (Computes op (flat.locals frames.now.flat) slots) }
{
    let (m, n) = integers_in(frames, slots)?;
    integer_result(op, m, n)
}

// Whether a comparison of two operands is met, and the integer at the right, if both are integers.
#[inline(always)]
fn comparison_of<K: Stack<Cell> + Drop>(
    frames: &Frames<K>,
    op: Op,
    slots: (Cell, Cell),
) -> Option<(bool, i64)>
    requires lower { NamesOwnLocal frames.now.flat slots.0 }
    requires upper { NamesOwnLocal frames.now.flat slots.1 }
    ensures { IfSome result (Compares op (flat.locals frames.now.flat) slots) }
{
    let (m, n) = integers_in(frames, slots)?;
    let met = is_met(op, m.cmp(&n))?;
    Some((met, n))
}

// Arithmetic on two integers that has a result.
fn compute<K: Stack<Cell> + Drop>(frames: &mut Frames<K>, op: Op) -> Option<RunState>
    requires operands { IsSome (take_operands 2 frames.old.flat) }
    requires live { (tables : Tables) × ((reach : Reach) × IsLiveStack tables reach frames.old.flat) }
    ensures { OperatesInPlace op frames.old.flat frames.new.flat result }
{
    let lower = frames.slot_below(1);
    let upper = frames.slot_below(0);
    let n = result_of(frames, op, (lower, upper))?;
    frames.drop_with(1);
    frames.local_count();
    put_slot(frames, Cell::ValInteger(n));
    Some(RunState::Running)
}

// A comparison of two integers.
fn compare<K: Stack<Cell> + Drop>(frames: &mut Frames<K>, op: Op) -> Option<RunState>
    requires operands { IsSome (take_operands 2 frames.old.flat) }
    requires live { (tables : Tables) × ((reach : Reach) × IsLiveStack tables reach frames.old.flat) }
    ensures { OperatesInPlace op frames.old.flat frames.new.flat result }
{
    let lower = frames.slot_below(1);
    let upper = frames.slot_below(0);
    let met = comparison_of(frames, op, (lower, upper))?;
    frames.drop_with(1);
    frames.local_count();
    if met.0 {
        put_slot(frames, Cell::ValInteger(met.1));
        return Some(RunState::Running);
    }
    Some(RunState::Failing)
}

/// The index of a local that an operand is.
#[inline(always)]
pub fn local_index(slot: Cell) -> Option<u32>
    ensures { IfSome result (λ index. plain_operand slot ≡ Some (local_item index)) }
{
    match slot {
        Cell::VarLocal(index) => Some(index),
        _ => None,
    }
}

// The slot of a local with the value that an operand is or holds, where slots tell it.
fn local_with<K: Stack<Cell> + Drop>(frames: &Frames<K>, slot: Cell) -> Option<Cell>
    ensures { IfSome result (HasValueOf (flat.locals frames.now.flat) slot) }
{
    let value = value_slot(frames, slot)?;
    Some(operand_as_local(value))
}

// The slot of a local, if nothing is kept beside it.
#[inline(always)]
fn local_copied<K: Stack<Cell> + Drop>(frames: &Frames<K>, index: u32) -> Option<Cell>
    requires { index < flat.local_count frames.now.flat }
    ensures { IfSome result (IsLocalSlot (flat.locals frames.now.flat) index) }
{
    frames.local_count();
    let local = frames.local_slot(index as u64);
    if is_plain_local(local) {
        Some(local)
    } else {
        None
    }
}

// The same as `local_with`, and before it where the operand is a local or an integer.
#[inline(always)]
fn local_assigned<K: Stack<Cell> + Drop>(frames: &Frames<K>, slot: Cell) -> Option<Cell>
    requires { NamesOwnLocal frames.now.flat slot }
    ensures { IfSome result (HasValueOf (flat.locals frames.now.flat) slot) }
{
    match slot {
        Cell::VarLocal(index) => local_copied(frames, index),
        Cell::ValInteger(n) => Some(Cell::LocalInteger(n)),
        _ => local_with(frames, slot),
    }
}

// The index of the local that an operand is, and its slot once it has the value that the other one is or holds, where slots tell
// both.
#[inline(always)]
fn assignment_of<K: Stack<Cell> + Drop>(
    frames: &Frames<K>,
    slots: (Cell, Cell),
) -> Option<(u32, Cell)>
    requires lower { NamesOwnLocal frames.now.flat slots.0 }
    requires upper { NamesOwnLocal frames.now.flat slots.1 }
    ensures { IfSome result (Assigns frames.now.flat slots) }
{
    let index = local_index(slots.0)?;
    let local = local_assigned(frames, slots.1)?;
    Some((index, local))
}

// The assignment of a value to a local.
fn assign<K: Stack<Cell> + Drop>(frames: &mut Frames<K>) -> Option<RunState>
    requires operands { IsSome (take_operands 2 frames.old.flat) }
    requires live { (tables : Tables) × ((reach : Reach) × IsLiveStack tables reach frames.old.flat) }
    ensures { OperatesInPlace Ops.Assign frames.old.flat frames.new.flat result }
{
    let lower = frames.slot_below(1);
    let upper = frames.slot_below(0);
    frames.local_count();
    let two = assignment_of(frames, (lower, upper))?;
    frames.drop_with(1);
    frames.local_count();
    frames.set_local_plain(two.0 as u64, two.1);
    frames.local_count();
    put_slot(frames, Cell::VarLocal(two.0));
    Some(RunState::Running)
}

/// Performs an operation on what is on top, where slots tell it: arithmetic on integers, a comparison of them, the assignment of a
/// value to a local, or a count. Elsewhere, and for want of memory, nothing changes. Its operands must be there.
pub fn operate_in_place<K: Stack<Cell> + Drop>(frames: &mut Frames<K>, op: Op) -> Option<RunState>
    requires operands { IsSome (take_operands (arity op) frames.old.flat) }
    requires live { (tables : Tables) × ((reach : Reach) × IsLiveStack tables reach frames.old.flat) }
    ensures { OperatesInPlace op frames.old.flat frames.new.flat result }
{
    // One arm for each call: what is called at one place is put there.
    match op {
        Op::Add | Op::Subtract | Op::Multiply | Op::Divide | Op::Remainder => compute(frames, op),
        Op::Less | Op::LessOrEqual | Op::Equal | Op::GreaterOrEqual | Op::Greater | Op::NotEqual =>
            { compare(frames, op) }
        Op::Assign => assign(frames),
        Op::ToBy => count_from(frames),
        _ => None,
    }
}

// The size of what the top operand is, or of what the local or the global holds which it names.
fn size<K: Stack<Cell> + Drop>(frames: &mut Frames<K>, world: &World) -> Option<RunState>
    requires operands { IsSome (take_operands 1 frames.old.flat) }
    requires live { (tables : Tables) × IsLiveStack tables (reach_of world.now []) frames.old.flat }
    ensures { OperatesInWorld world.now Ops.Size frames.old.flat frames.new.flat result }
{
    let Some(val) = value_told(frames, world, 0) else {
        return None;
    };
    let Some(n) = world.heap.size(val) else {
        return None;
    };
    frames.drop_with(0);
    frames.local_count();
    put_slot(frames, Cell::ValInteger(n as i64));
    Some(RunState::Running)
}

// The table that the operand below the top one is, or that the local or the global holds which it names.
#[inline(always)]
fn table_below<K: Stack<Cell> + Drop>(frames: &Frames<K>, world: &World) -> Option<u32>
    requires { HasOperands (1 + 1) frames.now.flat.cells }
    ensures { IfSome result
        (λ table. HasValueBelow world.now.globals.items frames.now.flat 1 (Vals.Table table)) }
{
    let Some(val) = value_told(frames, world, 1) else {
        return None;
    };
    match val {
        Val::Table(table) => Some(table),
        _ => None,
    }
}

// The variable of the value at a key of a table.
fn subscript<K: Stack<Cell> + Drop>(frames: &mut Frames<K>, world: &World) -> Option<RunState>
    requires operands { IsSome (take_operands 2 frames.old.flat) }
    requires live { (tables : Tables) × IsLiveStack tables (reach_of world.now []) frames.old.flat }
    ensures { OperatesInWorld world.now Ops.Subscript frames.old.flat frames.new.flat result }
{
    let Some(table) = table_below(frames, world) else {
        return None;
    };
    let Some(key) = value_told(frames, world, 0) else {
        return None;
    };
    frames.drop_with(1);
    frames.local_count();
    match frames.push(Item::Var(VarRef::Whole(Root::Key { table, key }))) {
        Ok(()) => {}
        Err(_) => unreachable!(),
    }
    Some(RunState::Running)
}

// Performs an operation on what is on top, where slots tell it: one that `operate_in_place` performs, the size of a value, or the
// subscript of a table.
#[inline(always)]
fn operate_as_told<K: Stack<Cell> + Drop>(
    frames: &mut Frames<K>,
    world: &World,
    op: Op,
) -> Option<RunState>
    requires operands { IsSome (take_operands (arity op) frames.old.flat) }
    requires live { (tables : Tables) × IsLiveStack tables (reach_of world.now []) frames.old.flat }
    ensures { OperatesInWorld world.now op frames.old.flat frames.new.flat result }
{
    match op {
        Op::Size => size(frames, world),
        Op::Subscript => subscript(frames, world),
        _ => operate_in_place(frames, op),
    }
}

/// Performs an operation on what is on top, where it is told as it stands: one that `operate_in_place` performs, the size of a
/// value, the subscript of a table, or one that `operate_on_values` performs. Elsewhere, and for want of memory, nothing changes.
/// Its operands must be there.
pub fn operate_in_world<K: Stack<Cell> + Drop>(
    frames: &mut Frames<K>,
    world: &World,
    op: Op,
) -> Option<RunState>
    requires operands { IsSome (take_operands (arity op) frames.old.flat) }
    requires live { (tables : Tables) × IsLiveStack tables (reach_of world.now []) frames.old.flat }
    ensures { OperatesInWorld world.now op frames.old.flat frames.new.flat result }
{
    match operate_as_told(frames, world, op) {
        Some(stage) => Some(stage),
        None => operate_as_held(frames, world, op),
    }
}

// The same where a value is held by any variable.
#[inline(always)]
fn operate_as_held<K: Stack<Cell> + Drop>(
    frames: &mut Frames<K>,
    world: &World,
    op: Op,
) -> Option<RunState>
    requires operands { IsSome (take_operands (arity op) frames.old.flat) }
    requires live { (tables : Tables) × IsLiveStack tables (reach_of world.now []) frames.old.flat }
    ensures { OperatesInWorld world.now op frames.old.flat frames.new.flat result }
{
    match op {
        Op::Assign => assign_held(frames, world),
        _ => operate_on_values(frames, world, op),
    }
}
