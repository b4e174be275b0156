// Functions that add an element to a list or take one, done on the stack and in the world at once, where the list and the element are
// told as they stand.
ghost use Rattle.std.specs.Prelude.{◌≡◌, ◌+◌, [], IfSome, IsSome, IsTrue, None, Some};
ghost use Rattle.icn_text.specs.declared.func.Func.TheVariants as Funcs;
ghost use Rattle.icn_value.specs.declared.val.Val.TheVariants as Vals;
ghost use Rattle.icn_heap.specs.Extents.{IsLive};
ghost use Rattle.icn_heap.specs.Heaps.{extent_of};
ghost use Rattle.icn_vars.specs.Worlds.{reach_of};
ghost use Rattle.icn_frames.specs.CalledWith.{HasOperands};
ghost use Rattle.icn_code.specs.Codes.{Tables};
ghost use Rattle.icn_control.specs.LiveStacks.{IsLiveStack};
ghost use Rattle.icn_control.specs.TakenOperands.{take_operands};
ghost use Rattle.icn_machine.specs.ListsInPlace.{AddsTo, TakesFrom, is_adding, is_taking, taken_outcome};
ghost use Rattle.icn_machine.specs.PlainFunctions.{HasValueBelow, NamesFunction};
ghost use Rattle.icn_machine.specs.TurnsAtOnce.{CallsAsTurn};

use crate::at_once::{AtOnce, done_at};
use crate::giving::give_value;
use crate::plain_functions::value_told;
use icn_frames::{Cell, Frames, Stack};
use icn_text::Func;
use icn_value::Val;
use icn_vars::{ValueOutcome, World};

// A value that is a list.
#[inline(always)]
fn list_of(val: Option<Val>) -> Option<u32>
    ensures { IfSome result (λ list. val ≡ Some (Vals.List list)) }
{
    match val {
        Some(Val::List(list)) => Some(list),
        _ => None,
    }
}

// The list that the operand below so many others is, or that the local or the global holds which it names. There must be so many.
#[inline(always)]
fn list_told<K: Stack<Cell> + Drop>(frames: &Frames<K>, world: &World, count: u32) -> Option<u32>
    requires { HasOperands (count + 1) frames.now.flat.cells }
    ensures { IfSome result
        (λ list. HasValueBelow world.now.globals.items frames.now.flat count (Vals.List list)) }
{
    list_of(value_told(frames, world, count))
}

// Puts a value at the right of a list. `false` is want of memory, or a limit.
#[tactic(auto, using(icn_vars::proofs::GrowingWorlds::grows))]
fn put_right(world: &mut World, list: u32, val: Val) -> bool
    requires list { IsLive (extent_of world.old.heap) (Vals.List list) }
    requires value { IsLive (extent_of world.old.heap) val }
    ensures { IsTrue result → AddsTo Funcs.Put world.old list val world.new }
{
    match world.heap.put(list, val) {
        Ok(()) => true,
        Err(_) => false,
    }
}

// Puts a value at the left of a list. `false` is want of memory, or a limit.
#[tactic(auto, using(icn_vars::proofs::GrowingWorlds::grows))]
fn push_left(world: &mut World, list: u32, val: Val) -> bool
    requires list { IsLive (extent_of world.old.heap) (Vals.List list) }
    requires value { IsLive (extent_of world.old.heap) val }
    ensures { IsTrue result → AddsTo Funcs.Push world.old list val world.new }
{
    match world.heap.push(list, val) {
        Ok(()) => true,
        Err(_) => false,
    }
}

/// Whether a function adds an element to a list.
#[inline(always)]
pub fn is_adding(func: Func) -> bool
    ensures { result ≡ is_adding func }
{
    match func {
        Func::Put => true,
        Func::Push => true,
        _ => false,
    }
}

// Adds a value to a list as the function says. `false` is want of memory, a limit, or another function.
#[inline(always)]
fn add_to(world: &mut World, func: Func, list: u32, val: Val) -> bool
    requires list { IsLive (extent_of world.old.heap) (Vals.List list) }
    requires value { IsLive (extent_of world.old.heap) val }
    ensures { IsTrue result → AddsTo func world.old list val world.new }
{
    match func {
        Func::Put => put_right(world, list, val),
        Func::Push => push_left(world, list, val),
        _ => false,
    }
}

/// Calls `put` or `push` with two operands, which must be there, where the first is told to be a list, the second is told, and a limit
/// leaves room for a cell. Elsewhere, and for any other function, nothing changes.
pub fn add_in_place<K: Stack<Cell> + Drop>(
    frames: &mut Frames<K>,
    world: &mut World,
    func: Func,
) -> AtOnce
    requires operands { IsSome (take_operands 3 frames.old.flat) }
    requires live { (tables : Tables) × IsLiveStack tables (reach_of world.old []) frames.old.flat }
    ensures { (tables : Tables) → NamesFunction tables world.old.globals.items frames.old.flat 2 func
        → CallsAsTurn tables 2 world.old frames.old.flat world.new frames.new.flat result }
{
    if !is_adding(func) {
        return AtOnce::Not;
    }
    let Some(list) = list_told(frames, world, 1) else {
        return AtOnce::Not;
    };
    let Some(val) = value_told(frames, world, 0) else {
        return AtOnce::Not;
    };
    let Ok(()) = world.heap.room_for_cells(1) else {
        return AtOnce::Not;
    };
    if !add_to(world, func, list, val) {
        return AtOnce::NoMemory;
    }
    frames.drop_with(2);
    frames.local_count();
    match give_value(frames, ValueOutcome::Gives(Val::List(list))) {
        Ok(stage) => done_at(stage),
        Err(_) => AtOnce::NoMemory,
    }
}

// Takes the element at the left of a list, if there is one.
#[tactic(auto, using(icn_vars::proofs::GrowingWorlds::grows))]
fn take_left(world: &mut World, list: u32) -> Option<Val>
    requires { IsLive (extent_of world.old.heap) (Vals.List list) }
    ensures get { TakesFrom Funcs.Get world.old list result world.new }
    ensures pop { TakesFrom Funcs.Pop world.old list result world.new }
{
    world.heap.get(list)
}

// Takes the element at the right of a list, if there is one.
#[tactic(auto, using(icn_vars::proofs::GrowingWorlds::grows))]
fn take_right(world: &mut World, list: u32) -> Option<Val>
    requires { IsLive (extent_of world.old.heap) (Vals.List list) }
    ensures { TakesFrom Funcs.Pull world.old list result world.new }
{
    world.heap.pull(list)
}

/// Whether a function takes an element of a list.
#[inline(always)]
pub fn is_taking(func: Func) -> bool
    ensures { result ≡ is_taking func }
{
    match func {
        Func::Get => true,
        Func::Pop => true,
        Func::Pull => true,
        _ => false,
    }
}

// Takes an element of a list as the function says, if it is one of these.
#[inline(always)]
fn take_from(world: &mut World, func: Func, list: u32) -> Option<Option<Val>>
    requires { IsLive (extent_of world.old.heap) (Vals.List list) }
    ensures takes { IfSome result (λ taken. TakesFrom func world.old list taken world.new) }
    ensures none { result ≡ None → world.new ≡ world.old }
{
    match func {
        Func::Get => Some(take_left(world, list)),
        Func::Pop => Some(take_left(world, list)),
        Func::Pull => Some(take_right(world, list)),
        _ => None,
    }
}

// What was taken, as what a row gives; it fails where there was nothing.
#[inline(always)]
fn taken_outcome(taken: Option<Val>) -> ValueOutcome
    ensures { result ≡ taken_outcome taken }
{
    match taken {
        Some(val) => ValueOutcome::Gives(val),
        None => ValueOutcome::Fails,
    }
}

/// Calls `get`, `pop` or `pull` with one operand, which must be there, where that is told to be a list. Elsewhere, and for any other
/// function, nothing changes.
pub fn take_in_place<K: Stack<Cell> + Drop>(
    frames: &mut Frames<K>,
    world: &mut World,
    func: Func,
) -> AtOnce
    requires operands { IsSome (take_operands 2 frames.old.flat) }
    requires live { (tables : Tables) × IsLiveStack tables (reach_of world.old []) frames.old.flat }
    ensures { (tables : Tables) → NamesFunction tables world.old.globals.items frames.old.flat 1 func
        → CallsAsTurn tables 1 world.old frames.old.flat world.new frames.new.flat result }
{
    let Some(list) = list_told(frames, world, 0) else {
        return AtOnce::Not;
    };
    let Some(taken) = take_from(world, func, list) else {
        return AtOnce::Not;
    };
    frames.drop_with(1);
    frames.local_count();
    match give_value(frames, taken_outcome(taken)) {
        Ok(stage) => done_at(stage),
        Err(_) => AtOnce::NoMemory,
    }
}
