// Elements of a list that are given one after the other, `!L`, done on the stack at once.
ghost use Rattle.std.specs.Prelude.{◌≡◌, ◌<◌, ◌^◌, ℕ, [], length, IfOk, IfSome, IsSome, OnOk, Some};
ghost use Rattle.icn_text.specs.declared.op.Op.TheVariants as Ops;
ghost use Rattle.icn_value.specs.declared.residual.Residual.TheVariants as Residuals;
ghost use Rattle.icn_value.specs.declared.val.Val.TheVariants as Vals;
ghost use Rattle.icn_value.specs.Store.{Names, Setting, list_at};
ghost use Rattle.icn_heap.specs.Extents.{IsLive};
ghost use Rattle.icn_heap.specs.Heaps.{extent_of, heap_of};
ghost use Rattle.icn_vars.specs.Outcomes.{IsLiveOutcome, outcome_in};
ghost use Rattle.icn_vars.specs.Worlds.{Reach, reach_of};
ghost use Rattle.icn_frames.specs.Slots.{plain_operand};
ghost use Rattle.icn_frames.specs.Stacks as flat;
ghost use Rattle.icn_code.specs.Codes.{Tables};
ghost use Rattle.icn_code.specs.declared.instr.Instr.TheVariants as Instrs;
ghost use Rattle.icn_control.specs.LiveStacks.{IsLiveStack, with_locals};
ghost use Rattle.icn_control.specs.StackViews.{stack_in};
ghost use Rattle.icn_control.specs.TakenOperands.{take_operands};
ghost use Rattle.law_names.specs.RowsNamed.{OutcomeNamed};
ghost use Rattle.law_steps.specs.StateNames.{StackNamed};
ghost use Rattle.icn_machine.specs.declared.at_once.AtOnce.TheVariants as AtOnces;
ghost use Rattle.icn_machine.specs.ElementsInPlace.{element_variable, items_outcome};
ghost use Rattle.icn_machine.specs.Giving.{GivesOutcome};
ghost use Rattle.icn_machine.specs.TurnsAtOnce.{DoesAsTurn, FailsInTurn};

use crate::assignments_in_place::undo_in_place;
use crate::at_once::{AtOnce, done_at, is_not};
use crate::held_values::value_held;
use icn_control::RunState;
use icn_frames::{Cell, Frames, Stack};
use icn_value::{Residual, Val};
use icn_vars::World;
use std::alloc::AllocError;

// The slot of the variable that is the element of a list at a place, from 0 on.
fn element_slot(world: &World, list: u32, place: u64) -> Cell
    requires list { IsLive (extent_of world.now.heap) (Vals.List list) }
    requires there { place < length (list_at (heap_of world.now.heap) list).items }
    requires small { place < 2 ^ 63 }
    ensures { plain_operand result ≡ Some (element_variable world.now list place) }
{
    let number = world.heap.list(list).first() + place as i64;
    Cell::VarElement { list, number }
}

// How many elements a list has.
fn element_count(world: &World, list: u32) -> u64
    requires { IsLive (extent_of world.now.heap) (Vals.List list) }
    ensures count { result ≡ length (list_at (heap_of world.now.heap) list).items }
    ensures small { result < 2 ^ 63 }
{
    world.heap.size(Val::List(list)).unwrap_or(0)
}

// Gives the element of a list at a place, from 0 on, over those behind it, which are suspended; it fails behind the last one. The error is
// want of memory.
fn give_items<K: Stack<Cell> + Drop>(
    frames: &mut Frames<K>,
    world: &World,
    list: u32,
    place: u64,
) -> Result<RunState, AllocError>
    requires { IsLive (extent_of world.now.heap) (Vals.List list) }
    ensures gives { IfOk result
        (GivesOutcome (items_outcome world.now list place) frames.old.flat frames.new.flat) }
    ensures live { (tables : Tables) (reach : Reach) → IsLiveStack tables reach frames.old.flat
        → IsLiveOutcome (with_locals (flat.local_count frames.old.flat) reach)
        (items_outcome world.now list place) → OnOk result (IsLiveStack tables reach frames.new.flat) }
    ensures named { (names : Names) (seen : Setting)
        → StackNamed names (stack_in (extent_of world.now.heap) frames.old.flat)
        → OutcomeNamed names (outcome_in (extent_of world.now.heap) (items_outcome world.now list place) seen)
        → OnOk result (StackNamed names (stack_in (extent_of world.now.heap) frames.new.flat)) }
{
    let size = element_count(world, list);
    if place >= size {
        return Ok(RunState::Failing);
    }
    let rest = Residual::ListItems {
        list,
        place: place + 1,
    };
    let slot = element_slot(world, list, place);
    frames.suspend_row(&rest, slot)?;
    Ok(RunState::Running)
}

// A value that is a list.
#[inline(always)]
fn list_of(val: Val) -> Option<u32>
    ensures { IfSome result (λ list. val ≡ Vals.List list) }
{
    match val {
        Val::List(list) => Some(list),
        _ => None,
    }
}

/// Begins to give the elements of the list that the top operand is, or that the variable holds which it is: `!L`. Elsewhere nothing
/// changes. The operand must be there.
pub fn give_elements<K: Stack<Cell> + Drop>(frames: &mut Frames<K>, world: &World) -> AtOnce
    requires operands { IsSome (take_operands 1 frames.old.flat) }
    requires live { (tables : Tables) × IsLiveStack tables (reach_of world.now []) frames.old.flat }
    ensures { (tables : Tables) → DoesAsTurn tables (Instrs.Op Ops.Elements) world.now frames.old.flat
        world.now frames.new.flat result }
{
    let Some(val) = value_held(frames, world, 0) else {
        return AtOnce::Not;
    };
    let Some(list) = list_of(val) else {
        return AtOnce::Not;
    };
    frames.drop_with(0);
    frames.local_count();
    match give_items(frames, world, list, 0) {
        Ok(stage) => done_at(stage),
        Err(_) => AtOnce::NoMemory,
    }
}

// The list whose elements are given on, and the place of the next one.
#[inline(always)]
fn items_left(rest: Residual) -> Option<(u32, u64)>
    ensures { IfSome result (λ left. rest ≡ Residuals.ListItems left.0 left.1) }
{
    match rest {
        Residual::ListItems { list, place } => Some((list, place)),
        _ => None,
    }
}

/// A step of failing that gives the next element of a list, where that is the newest suspension. Elsewhere nothing changes.
pub fn give_elements_on<K: Stack<Cell> + Drop>(frames: &mut Frames<K>, world: &World) -> AtOnce
    requires { (tables : Tables) × IsLiveStack tables (reach_of world.now []) frames.old.flat }
    ensures fails { FailsInTurn world.now frames.old.flat world.now frames.new.flat result }
    ensures not_done { result ≡ AtOnces.Not → frames.new ≡ frames.old }
{
    let Some(rest) = frames.newest_residual() else {
        return AtOnce::Not;
    };
    let Some(left) = items_left(rest) else {
        return AtOnce::Not;
    };
    frames.resume_newest();
    frames.local_count();
    match give_items(frames, world, left.0, left.1) {
        Ok(stage) => done_at(stage),
        Err(_) => AtOnce::NoMemory,
    }
}

/// A step of failing that takes an assignment back, or gives the next element of a list, where that is the newest suspension. Elsewhere
/// nothing changes.
#[inline(always)]
pub fn resume_in_place<K: Stack<Cell> + Drop>(frames: &mut Frames<K>, world: &mut World) -> AtOnce
    requires { (tables : Tables) × IsLiveStack tables (reach_of world.old []) frames.old.flat }
    ensures fails { FailsInTurn world.old frames.old.flat world.new frames.new.flat result }
    ensures not_done { result ≡ AtOnces.Not → (frames.new ≡ frames.old) × (world.new ≡ world.old) }
{
    let done = undo_in_place(frames, world);
    if is_not(done) {
        return give_elements_on(frames, world);
    }
    done
}
