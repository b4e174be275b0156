// Calls of functions that are done on the stack and the world at once, where slots tell their arguments.
ghost use Rattle.std.specs.Prelude.{[], suc, IsSome};
ghost use Rattle.icn_vars.specs.Worlds.{reach_of};
ghost use Rattle.icn_code.specs.Codes.{Tables};
ghost use Rattle.icn_code.specs.CodeTables.{tables_of};
ghost use Rattle.icn_control.specs.LiveStacks.{IsLiveStack};
ghost use Rattle.icn_control.specs.TakenOperands.{take_operands};
ghost use Rattle.icn_machine.specs.PlainFunctions.{NamesFunction};
ghost use Rattle.icn_machine.specs.TurnsAtOnce.{CallsAsTurn};

use crate::at_once::AtOnce;
use crate::laying_out::lay_out_by;
use crate::lists_in_place::{add_in_place, is_adding, is_taking, take_in_place};
use crate::plain_functions::function_told;
use crate::scanning::scan_in_place;
use icn_code::Code;
use icn_frames::{Cell, Frames, Stack};
use icn_text::Func;
use icn_vars::World;

// Calls a function that takes an element of a list, or one of scanning, with one operand.
#[inline(always)]
fn call_one<K: Stack<Cell> + Drop>(frames: &mut Frames<K>, world: &mut World, func: Func) -> AtOnce
    requires operands { IsSome (take_operands 2 frames.old.flat) }
    requires live { (tables : Tables) × IsLiveStack tables (reach_of world.old []) frames.old.flat }
    ensures { (tables : Tables) → NamesFunction tables world.old.globals.items frames.old.flat 1 func
        → CallsAsTurn tables 1 world.old frames.old.flat world.new frames.new.flat result }
{
    if is_taking(func) {
        return take_in_place(frames, world, func);
    }
    scan_in_place(frames, world, func)
}

// Calls a function that adds an element to a list, or one that lays out a text, with two operands.
#[inline(always)]
fn call_two<K: Stack<Cell> + Drop>(frames: &mut Frames<K>, world: &mut World, func: Func) -> AtOnce
    requires operands { IsSome (take_operands 3 frames.old.flat) }
    requires live { (tables : Tables) × IsLiveStack tables (reach_of world.old []) frames.old.flat }
    ensures { (tables : Tables) → NamesFunction tables world.old.globals.items frames.old.flat 2 func
        → CallsAsTurn tables 2 world.old frames.old.flat world.new frames.new.flat result }
{
    if is_adding(func) {
        return add_in_place(frames, world, func);
    }
    lay_out_by(frames, world, func)
}

// Calls a function of one argument.
fn call_with_one<K: Stack<Cell> + Drop>(
    frames: &mut Frames<K>,
    world: &mut World,
    code: &Code,
) -> AtOnce
    requires operands { IsSome (take_operands 2 frames.old.flat) }
    requires live { (tables : Tables) × IsLiveStack tables (reach_of world.old []) frames.old.flat }
    ensures { CallsAsTurn (tables_of code.now) 1 world.old frames.old.flat world.new frames.new.flat result }
{
    match function_told(frames, world, code, 1) {
        Some(func) => call_one(frames, world, func),
        None => AtOnce::Not,
    }
}

// Calls a function of two arguments.
fn call_with_two<K: Stack<Cell> + Drop>(
    frames: &mut Frames<K>,
    world: &mut World,
    code: &Code,
) -> AtOnce
    requires operands { IsSome (take_operands 3 frames.old.flat) }
    requires live { (tables : Tables) × IsLiveStack tables (reach_of world.old []) frames.old.flat }
    ensures { CallsAsTurn (tables_of code.now) 2 world.old frames.old.flat world.new frames.new.flat result }
{
    match function_told(frames, world, code, 2) {
        Some(func) => call_two(frames, world, func),
        None => AtOnce::Not,
    }
}

/// Calls the function below so many operands with them, which must be there, where it is one that is done so, and slots tell what it
/// takes: with one argument one of scanning or one that takes an element of a list, with two one that lays out in a field or one that
/// adds an element to a list. Elsewhere nothing changes.
pub fn call_function_in_place<K: Stack<Cell> + Drop>(
    frames: &mut Frames<K>,
    world: &mut World,
    code: &Code,
    count: u32,
) -> AtOnce
    requires operands { IsSome (take_operands (suc count) frames.old.flat) }
    requires live { (tables : Tables) × IsLiveStack tables (reach_of world.old []) frames.old.flat }
    ensures { CallsAsTurn (tables_of code.now) count world.old frames.old.flat world.new frames.new.flat result }
{
    match count {
        1 => call_with_one(frames, world, code),
        2 => call_with_two(frames, world, code),
        _ => AtOnce::Not,
    }
}
