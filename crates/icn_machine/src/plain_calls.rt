// Calls of procedures, done on the stack alone: no operand is taken into a room. What is not plain stays as it is.
ghost use Rattle.std.specs.Prelude.{◌≡◌, [], suc, true, false, slice_get, IfSome, IsSome};
ghost use Rattle.icn_value.specs.Limited.{limits_of};
ghost use Rattle.icn_heap.specs.Heaps.{heap_of};
ghost use Rattle.icn_vars.specs.Worlds.{reach_of};
ghost use Rattle.icn_frames.specs.declared.slots.StackSlot.TheVariants as Slots;
ghost use Rattle.icn_code.specs.Codes.{Tables};
ghost use Rattle.icn_code.specs.CodeTables.{tables_of};
ghost use Rattle.icn_control.specs.LiveStacks.{IsLiveStack};
ghost use Rattle.icn_control.specs.TakenOperands.{take_operands};
ghost use Rattle.icn_machine.specs.PlainCalls.{CallsInPlace, TakesAsMany, TellsProcedure};

use crate::starting::proc_at;
use icn_code::Code;
use icn_frames::{Cell, Frames, Stack};
use icn_value::{Limits, Val};
use icn_vars::World;

/// The value of a global, if it is there.
#[inline(always)]
pub fn global_value(world: &World, index: u32) -> Option<Val>
    ensures { result ≡ slice_get world.now.globals.items index }
{
    match world.globals.get(index as usize) {
        Some(val) => Some(*val),
        None => None,
    }
}

// The number of the procedure that a global holds, if it holds one.
#[inline(always)]
fn procedure_held(world: &World, slot: Cell, index: u32) -> Option<u32>
    requires { slot ≡ Slots.VarGlobal index }
    ensures { IfSome result (TellsProcedure world.now.globals.items slot) }
{
    let Some(val) = global_value(world, index) else {
        return None;
    };
    match val {
        Val::Proc(number) => Some(number),
        _ => None,
    }
}

// The number of the procedure that an operand is, or that the global holds which it names, if it is so.
#[inline(always)]
fn procedure_named(world: &World, slot: Cell) -> Option<u32>
    ensures { IfSome result (TellsProcedure world.now.globals.items slot) }
{
    match slot {
        Cell::VarGlobal(index) => procedure_held(world, slot, index),
        Cell::ValProc(number) => Some(number),
        _ => None,
    }
}

// How many locals a procedure has besides its parameters, if there is one of this number that takes so many arguments as they are.
#[inline(always)]
fn locals_besides(code: &Code, number: u32, count: u32) -> Option<u32>
    ensures { IfSome result (TakesAsMany (tables_of code.now) number count) }
{
    let Some(entry) = proc_at(code, number) else {
        return None;
    };
    if entry.collects {
        return None;
    }
    if entry.parameters != count {
        return None;
    }
    Some(entry.locals)
}

// The most arguments of a call in place, so that the depth of `enter_with`, which calls itself for each, has a bound.
const MOST_ARGUMENTS: u32 = 255;

/// Calls the procedure below so many operands with them, which must be there, where slots tell all: the procedure itself or a
/// global that holds it, as many values or locals as it has parameters, none of which collects, and a level within the limit.
/// Elsewhere, where there are more than 255 of them, and for want of memory, nothing changes. Whether it is called.
pub fn call_in_place<K: Stack<Cell> + Drop>(
    frames: &mut Frames<K>,
    world: &World,
    code: &Code,
    limits: &Limits,
    count: u32,
) -> bool
    requires operands { IsSome (take_operands (suc count) frames.old.flat) }
    requires bounds { (heap_of world.now.heap).bounds ≡ limits_of limits.now }
    requires stack { (tables : Tables) × IsLiveStack tables (reach_of world.now []) frames.old.flat }
    ensures calls { result ≡ true
        → CallsInPlace (tables_of code.now) world.now count frames.old.flat frames.new.flat }
    ensures not { result ≡ false → frames.new.flat ≡ frames.old.flat }
{
    if count > MOST_ARGUMENTS {
        return false;
    }
    let Some(number) = procedure_named(world, frames.slot_below(count)) else {
        return false;
    };
    let Some(nulls) = locals_besides(code, number, count) else {
        return false;
    };
    if frames.level() >= limits.levels {
        return false;
    }
    match frames.enter_with(number, count, nulls, 0) {
        Ok(done) => done,
        Err(_) => false,
    }
}
