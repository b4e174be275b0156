// Calls of functions on the values of operands, where these are told as they stand: no operand is taken into a room of items.
ghost use Rattle.std.specs.Prelude.{◌≡◌, ◌+◌, IfSome, IsTrue, slice_get, true};
ghost use Rattle.icn_frames.specs.CalledWith.{HasOperands};
ghost use Rattle.icn_frames.specs.Stacks as flat;
ghost use Rattle.icn_code.specs.CodeTables.{tables_of};
ghost use Rattle.icn_apply.specs.ResumedFunctions.{GivesOneAtMost};
ghost use Rattle.icn_machine.specs.PlainFunctions.{CallsFunction, HasValueBelow, HaveValuesAbove, NamesFunction};

use crate::plain_calls::global_value;
use icn_calls::function_of;
use icn_code::Code;
use icn_frames::{Cell, Frames, Stack};
use icn_text::Func;
use icn_value::Val;
use icn_vars::World;

// The value of a local of the activation that runs, if it is there.
#[inline(always)]
fn local_value<K: Stack<Cell> + Drop>(frames: &Frames<K>, index: u32) -> Option<Val>
    ensures { IfSome result (λ v. slice_get (flat.locals frames.now.flat) index ≡ Some v) }
{
    if index as u64 >= frames.local_count() {
        return None;
    }
    Some(frames.local(index as u64))
}

/// The value that the operand below so many others is, or that the local or the global holds which it names. There must be so many.
#[inline(always)]
pub fn value_told<K: Stack<Cell> + Drop>(
    frames: &Frames<K>,
    world: &World,
    count: u32,
) -> Option<Val>
    requires { HasOperands (count + 1) frames.now.flat.cells }
    ensures { IfSome result (HasValueBelow world.now.globals.items frames.now.flat count) }
{
    match frames.slot_below(count) {
        Cell::VarLocal(index) => local_value(frames, index),
        Cell::VarGlobal(index) => global_value(world, index),
        _ => frames.value_below(count),
    }
}

/// Whether a function gives a value at most.
#[inline(always)]
pub fn gives_once(func: Func) -> bool
    ensures { IsTrue result → GivesOneAtMost func }
{
    match func {
        Func::Bal => false,
        Func::Find => false,
        Func::Key => false,
        Func::Move => false,
        Func::Seq => false,
        Func::Tab => false,
        Func::Upto => false,
        _ => true,
    }
}

/// The function that the value of the operand below so many others names, if that is told.
#[inline(always)]
pub fn function_told<K: Stack<Cell> + Drop>(
    frames: &Frames<K>,
    world: &World,
    code: &Code,
    count: u32,
) -> Option<Func>
    requires { HasOperands (count + 1) frames.now.flat.cells }
    ensures { IfSome result
        (NamesFunction (tables_of code.now) world.now.globals.items frames.now.flat count) }
{
    let callee = value_told(frames, world, count)?;
    let func = function_of(code, callee)?;
    Some(func)
}

// Puts the values of so many operands into a room, whatever it held, the lowest one first. Whether all are told, and there is
// memory for them.
#[inline(always)]
fn values_told<K: Stack<Cell> + Drop>(
    frames: &Frames<K>,
    world: &World,
    count: u32,
    vals: &mut Vec<Val>,
) -> bool
    requires { HasOperands (count + 1) frames.now.flat.cells }
    ensures { result ≡ true
        → HaveValuesAbove world.now.globals.items frames.now.flat count vals.new.items }
{
    vals.clear();
    let mut left = count;
    while left > 0 {
        left -= 1;
        let Some(val) = value_told(frames, world, left) else {
            return false;
        };
        let Ok(()) = vals.push(val) else {
            return false;
        };
    }
    true
}

/// The function that is called by the operand below so many others, which must be there, with the values of these in a room,
/// whatever that held: where all are told, and there is memory for the values.
#[inline(always)]
pub fn function_called<K: Stack<Cell> + Drop>(
    frames: &Frames<K>,
    world: &World,
    code: &Code,
    count: u32,
    vals: &mut Vec<Val>,
) -> Option<Func>
    requires { HasOperands (count + 1) frames.now.flat.cells }
    ensures { IfSome result
        (CallsFunction (tables_of code.now) world.now.globals.items frames.now.flat count vals.new.items) }
{
    let func = function_told(frames, world, code, count)?;
    let given = values_told(frames, world, count, vals);
    if given { Some(func) } else { None }
}
