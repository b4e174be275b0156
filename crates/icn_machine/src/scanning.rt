// Functions of scanning on one operand, and the matching of a text, where slots tell what they take and it is of the type that is
// wanted: no operand is taken into a room, nothing is converted, and what is suspended is written where it stays.
ghost use Rattle.std.specs.Prelude.{◌≡◌, ◌≤◌, ◌<◌, ◌^◌, ◌+◌, [], length, pos, IfOk, IfSome, IsSome, OnOk, Some, true};
ghost use Rattle.icn_text.specs.declared.func.Func.TheVariants as Funcs;
ghost use Rattle.icn_text.specs.declared.op.Op.TheVariants as Ops;
ghost use Rattle.icn_value.specs.declared.item.Item.TheVariants as Items;
ghost use Rattle.icn_value.specs.declared.val.Val.TheVariants as Vals;
ghost use Rattle.icn_value.specs.Store.{Names, Setting};
ghost use Rattle.icn_heap.specs.Extents.{Extent};
ghost use Rattle.law_names.specs.RowsNamed.{OutcomeNamed};
ghost use Rattle.icn_vars.specs.Outcomes.{IsLiveOutcome, outcome_in};
ghost use Rattle.icn_vars.specs.declared.outcome.Outcome.TheVariants as Outcomes;
ghost use Rattle.icn_vars.specs.Worlds.{Reach, reach_of};
ghost use Rattle.icn_frames.specs.Stacks as flat;
ghost use Rattle.icn_code.specs.Codes.{Tables};
ghost use Rattle.icn_code.specs.declared.instr.Instr.TheVariants as Instrs;
ghost use Rattle.law_steps.specs.StateNames.{StackNamed};
ghost use Rattle.icn_control.specs.LiveStacks.{IsLiveStack, with_locals};
ghost use Rattle.icn_control.specs.StackViews.{stack_in};
ghost use Rattle.icn_control.specs.TakenOperands.{take_operands};
ghost use Rattle.icn_control.specs.declared.machine.RunState.TheVariants as RunStates;
ghost use Rattle.icn_scanfn.specs.InSubject.{subject_of};
ghost use Rattle.icn_machine.specs.Giving.{GivesOutcome};
ghost use Rattle.icn_machine.specs.PlainFunctions.{NamesFunction};
ghost use Rattle.icn_machine.specs.PlainScans.{MovesAs, MovesSo, MovesTop, OpensScan, TestsTop, members_outcome, occurrences_outcome, place_outcome};
ghost use Rattle.icn_machine.specs.TurnsAtOnce.{CallsAsTurn, DoesAsTurn};

use crate::at_once::{AtOnce, done_at};
use crate::giving::give_value;
use crate::told::{cset_told, integer_told, text_told};
use icn_control::{RunState, open_over, short_text_slot};
use icn_frames::{Cell, Frames, Stack};
use icn_heap::{length_of_text, short_text};
use icn_profile::NUMBER_LIMIT;
use icn_scanfn::{
    any_in_subject, find_in_subject, many_in_subject, match_in_subject, move_in_subject, move_to,
    pos_in_subject, tab_in_subject, upto_in_subject,
};
use icn_text::Func;
use icn_value::{Cset, Residual, Span, Val};
use icn_vars::{ValueOutcome, World};
use std::alloc::AllocError;

// Tests at the position

// The place that `any` gives on the operand that is on top, if it gives one; if that is a cset.
fn any_tested<K: Stack<Cell> + Drop>(frames: &Frames<K>, world: &World) -> Option<Option<u64>>
    requires { IsSome (take_operands 1 frames.now.flat) }
    ensures tests { IfSome result (TestsTop Funcs.Any world.now frames.now.flat) }
    ensures small { IfSome result (λ found. IfSome found (λ place. place < 2 ^ 63)) }
{
    let wanted = cset_told(frames, world, 0)?;
    Some(any_in_subject(world, &wanted))
}

// The same of `many`.
fn many_tested<K: Stack<Cell> + Drop>(frames: &Frames<K>, world: &World) -> Option<Option<u64>>
    requires { IsSome (take_operands 1 frames.now.flat) }
    ensures tests { IfSome result (TestsTop Funcs.Many world.now frames.now.flat) }
    ensures small { IfSome result (λ found. IfSome found (λ place. place < 2 ^ 63)) }
{
    let wanted = cset_told(frames, world, 0)?;
    Some(many_in_subject(world, &wanted))
}

// The same of `match`, if the operand is a text.
fn match_tested<K: Stack<Cell> + Drop>(frames: &Frames<K>, world: &World) -> Option<Option<u64>>
    requires operand { IsSome (take_operands 1 frames.now.flat) }
    requires live { (tables : Tables) × IsLiveStack tables (reach_of world.now []) frames.now.flat }
    ensures tests { IfSome result (TestsTop Funcs.Match world.now frames.now.flat) }
    ensures small { IfSome result (λ found. IfSome found (λ place. place < 2 ^ 63)) }
{
    let wanted = text_told(frames, world, 0)?;
    Some(match_in_subject(world, wanted))
}

// The same of `pos`, if the operand is an integer.
fn pos_tested<K: Stack<Cell> + Drop>(frames: &Frames<K>, world: &World) -> Option<Option<u64>>
    requires { IsSome (take_operands 1 frames.now.flat) }
    ensures tests { IfSome result (TestsTop Funcs.Pos world.now frames.now.flat) }
    ensures small { IfSome result (λ found. IfSome found (λ place. place < 2 ^ 63)) }
{
    let n = integer_told(frames, world, 0)?;
    Some(pos_in_subject(world, n))
}

// The place that a function gives on the operand that is on top, if it gives one; if it is one of these, and the operand is what it
// wants.
#[inline(always)]
fn tested<K: Stack<Cell> + Drop>(
    frames: &Frames<K>,
    world: &World,
    func: Func,
) -> Option<Option<u64>>
    requires operand { IsSome (take_operands 1 frames.now.flat) }
    requires live { (tables : Tables) × IsLiveStack tables (reach_of world.now []) frames.now.flat }
    ensures tests { IfSome result (TestsTop func world.now frames.now.flat) }
    ensures small { IfSome result (λ found. IfSome found (λ place. place < 2 ^ 63)) }
{
    match func {
        Func::Any => any_tested(frames, world),
        Func::Many => many_tested(frames, world),
        Func::Match => match_tested(frames, world),
        Func::Pos => pos_tested(frames, world),
        _ => None,
    }
}

// A place as what a row gives; it fails where there is none.
fn place_outcome(found: Option<u64>) -> ValueOutcome
    requires { IfSome found (λ place. place < 2 ^ 63) }
    ensures { result ≡ place_outcome found }
{
    match found {
        Some(place) => ValueOutcome::Gives(Val::Integer(place as i64)),
        None => ValueOutcome::Fails,
    }
}

// Calls a function that tests the subject at the position.
#[inline(always)]
fn test_in_place<K: Stack<Cell> + Drop>(frames: &mut Frames<K>, world: &World, func: Func) -> AtOnce
    requires operands { IsSome (take_operands 2 frames.old.flat) }
    requires live { (tables : Tables) × IsLiveStack tables (reach_of world.now []) frames.old.flat }
    ensures { (tables : Tables) → NamesFunction tables world.now.globals.items frames.old.flat 1 func
        → CallsAsTurn tables 1 world.now frames.old.flat world.now frames.new.flat result }
{
    let Some(found) = tested(frames, world, func) else {
        return AtOnce::Not;
    };
    frames.drop_with(1);
    frames.local_count();
    match give_value(frames, place_outcome(found)) {
        Ok(stage) => done_at(stage),
        Err(_) => AtOnce::NoMemory,
    }
}

// Searches from the position on

// Gives the first place of a search, over the search itself, which is suspended. The error is want of memory.
#[inline(always)]
fn give_first<K: Stack<Cell> + Drop>(
    frames: &mut Frames<K>,
    rest: &Residual,
    place: u64,
) -> Result<(), AllocError>
    requires { place < 2 ^ 63 }
    ensures gives { OnOk result (GivesOutcome
        (Outcomes.Suspends (Items.Val (Vals.Integer (pos place))) rest.now)
        frames.old.flat frames.new.flat RunStates.Running) }
    ensures live { (tables : Tables) (reach : Reach) → IsLiveStack tables reach frames.old.flat
        → IsLiveOutcome (with_locals (flat.local_count frames.old.flat) reach)
        (Outcomes.Suspends (Items.Val (Vals.Integer (pos place))) rest.now)
        → OnOk result (IsLiveStack tables reach frames.new.flat) }
    ensures named { (names : Names) (all : Extent) (seen : Setting)
        → StackNamed names (stack_in all frames.old.flat)
        → OutcomeNamed names (outcome_in all
        (Outcomes.Suspends (Items.Val (Vals.Integer (pos place))) rest.now) seen)
        → OnOk result (StackNamed names (stack_in all frames.new.flat)) }
{
    frames.suspend_row(rest, Cell::ValInteger(place as i64))?;
    Ok(())
}

// Gives the first place before a byte of a cset, if there is one, over the search. The error is want of memory.
#[inline(always)]
fn give_members<K: Stack<Cell> + Drop>(
    frames: &mut Frames<K>,
    world: &World,
    wanted: &Cset,
    found: Option<u64>,
) -> Result<RunState, AllocError>
    requires { IfSome found (λ place. place < 2 ^ 63) }
    ensures gives { IfOk result
        (GivesOutcome (members_outcome world.now wanted.now found) frames.old.flat frames.new.flat) }
    ensures live { (tables : Tables) (reach : Reach) → IsLiveStack tables reach frames.old.flat
        → IsLiveOutcome (with_locals (flat.local_count frames.old.flat) reach)
        (members_outcome world.now wanted.now found)
        → OnOk result (IsLiveStack tables reach frames.new.flat) }
    ensures named { (names : Names) (all : Extent) (seen : Setting)
        → StackNamed names (stack_in all frames.old.flat)
        → OutcomeNamed names (outcome_in all (members_outcome world.now wanted.now found) seen)
        → OnOk result (StackNamed names (stack_in all frames.new.flat)) }
{
    let text = world.pair.subject;
    length_of_text(&world.heap, text);
    short_text(&world.heap, text);
    match found {
        Some(place) => {
            let rest = Residual::Among {
                wanted: *wanted,
                text,
                place,
                last: text.len + 1,
            };
            give_first(frames, &rest, place)?;
            Ok(RunState::Running)
        }
        None => Ok(RunState::Failing),
    }
}

// The same of the first place at which a text stands.
#[inline(always)]
fn give_occurrences<K: Stack<Cell> + Drop>(
    frames: &mut Frames<K>,
    world: &World,
    wanted: Span,
    found: Option<u64>,
) -> Result<RunState, AllocError>
    requires { IfSome found (λ place. place < 2 ^ 63) }
    ensures gives { IfOk result
        (GivesOutcome (occurrences_outcome world.now wanted found) frames.old.flat frames.new.flat) }
    ensures live { (tables : Tables) (reach : Reach) → IsLiveStack tables reach frames.old.flat
        → IsLiveOutcome (with_locals (flat.local_count frames.old.flat) reach)
        (occurrences_outcome world.now wanted found)
        → OnOk result (IsLiveStack tables reach frames.new.flat) }
    ensures named { (names : Names) (all : Extent) (seen : Setting)
        → StackNamed names (stack_in all frames.old.flat)
        → OutcomeNamed names (outcome_in all (occurrences_outcome world.now wanted found) seen)
        → OnOk result (StackNamed names (stack_in all frames.new.flat)) }
{
    let text = world.pair.subject;
    length_of_text(&world.heap, text);
    short_text(&world.heap, text);
    match found {
        Some(place) => {
            let rest = Residual::Found {
                wanted,
                text,
                place,
                last: text.len + 1,
            };
            give_first(frames, &rest, place)?;
            Ok(RunState::Running)
        }
        None => Ok(RunState::Failing),
    }
}

// Calls `upto`, if its operand is a cset.
#[inline(always)]
fn search_members<K: Stack<Cell> + Drop>(frames: &mut Frames<K>, world: &World) -> AtOnce
    requires operands { IsSome (take_operands 2 frames.old.flat) }
    requires live { (tables : Tables) × IsLiveStack tables (reach_of world.now []) frames.old.flat }
    ensures { (tables : Tables) → NamesFunction tables world.now.globals.items frames.old.flat 1 Funcs.Upto
        → CallsAsTurn tables 1 world.now frames.old.flat world.now frames.new.flat result }
{
    let Some(wanted) = cset_told(frames, world, 0) else {
        return AtOnce::Not;
    };
    let found = upto_in_subject(world, &wanted);
    length_of_text(&world.heap, world.pair.subject);
    frames.drop_with(1);
    frames.local_count();
    match give_members(frames, world, &wanted, found) {
        Ok(stage) => done_at(stage),
        Err(_) => AtOnce::NoMemory,
    }
}

// Calls `find`, if its operand is a text.
#[inline(always)]
fn search_text<K: Stack<Cell> + Drop>(frames: &mut Frames<K>, world: &World) -> AtOnce
    requires operands { IsSome (take_operands 2 frames.old.flat) }
    requires live { (tables : Tables) × IsLiveStack tables (reach_of world.now []) frames.old.flat }
    ensures { (tables : Tables) → NamesFunction tables world.now.globals.items frames.old.flat 1 Funcs.Find
        → CallsAsTurn tables 1 world.now frames.old.flat world.now frames.new.flat result }
{
    let Some(wanted) = text_told(frames, world, 0) else {
        return AtOnce::Not;
    };
    let found = find_in_subject(world, wanted);
    length_of_text(&world.heap, world.pair.subject);
    frames.drop_with(1);
    frames.local_count();
    match give_occurrences(frames, world, wanted, found) {
        Ok(stage) => done_at(stage),
        Err(_) => AtOnce::NoMemory,
    }
}

// Moves in the subject

// Whether the subject has fewer than 2^32 bytes.
#[inline(always)]
fn is_short(world: &World) -> bool
    ensures { result ≡ true → length (subject_of world.now) < 2 ^ 32 }
{
    length_of_text(&world.heap, world.pair.subject);
    world.pair.subject.len < NUMBER_LIMIT
}

// Moves to a place of the subject, which is shorter than 2^32 bytes, and gives the bytes between, over the move, which is suspended.
// The error is want of memory.
#[inline(always)]
fn move_over<K: Stack<Cell> + Drop>(
    frames: &mut Frames<K>,
    world: &mut World,
    place: u64,
) -> Result<(), AllocError>
    requires low { 1 ≤ place }
    requires high { place ≤ length (subject_of world.old) + 1 }
    requires short { length (subject_of world.old) < 2 ^ 32 }
    ensures { OnOk result (MovesSo place world.old frames.old.flat world.new frames.new.flat) }
{
    let old = world.pair.position;
    let text = move_to(world, place);
    length_of_text(&world.heap, text);
    frames.suspend_move(old, short_text_slot(text))?;
    Ok(())
}

// Moves so to a place, if there is one.
#[inline(always)]
fn give_moved<K: Stack<Cell> + Drop>(
    frames: &mut Frames<K>,
    world: &mut World,
    found: Option<u64>,
) -> Result<RunState, AllocError>
    requires low { IfSome found (λ place. 1 ≤ place) }
    requires high { IfSome found (λ place. place ≤ length (subject_of world.old) + 1) }
    requires short { length (subject_of world.old) < 2 ^ 32 }
    ensures { IfOk result (MovesAs found world.old frames.old.flat world.new frames.new.flat) }
{
    match found {
        Some(place) => {
            move_over(frames, world, place)?;
            Ok(RunState::Running)
        }
        None => Ok(RunState::Failing),
    }
}

// The place to which `tab` or `move` moves on the operand that is on top, if there is one; if that is an integer.
#[inline(always)]
fn place_moved<K: Stack<Cell> + Drop>(
    frames: &Frames<K>,
    world: &World,
    func: Func,
) -> Option<Option<u64>>
    requires { IsSome (take_operands 1 frames.now.flat) }
    ensures moves { IfSome result (MovesTop func world.now frames.now.flat) }
    ensures low { IfSome result (λ found. IfSome found (λ place. 1 ≤ place)) }
    ensures high { IfSome result
        (λ found. IfSome found (λ place. place ≤ length (subject_of world.now) + 1)) }
{
    let n = integer_told(frames, world, 0)?;
    match func {
        Func::Tab => Some(tab_in_subject(world, n)),
        Func::Move => Some(move_in_subject(world, n)),
        _ => None,
    }
}

// Calls a function that moves in the subject.
#[inline(always)]
fn move_in_place<K: Stack<Cell> + Drop>(
    frames: &mut Frames<K>,
    world: &mut World,
    func: Func,
) -> AtOnce
    requires operands { IsSome (take_operands 2 frames.old.flat) }
    requires live { (tables : Tables) × IsLiveStack tables (reach_of world.old []) frames.old.flat }
    ensures { (tables : Tables) → NamesFunction tables world.old.globals.items frames.old.flat 1 func
        → CallsAsTurn tables 1 world.old frames.old.flat world.new frames.new.flat result }
{
    if !is_short(world) {
        return AtOnce::Not;
    }
    let Some(found) = place_moved(frames, world, func) else {
        return AtOnce::Not;
    };
    frames.drop_with(1);
    frames.local_count();
    match give_moved(frames, world, found) {
        Ok(stage) => done_at(stage),
        Err(_) => AtOnce::NoMemory,
    }
}

// Whether a function moves in the subject.
#[inline(always)]
fn moves(func: Func) -> bool {
    matches!(func, Func::Tab | Func::Move)
}

// Calls a function that moves in the subject, or one that tests it at the position.
#[inline(always)]
fn move_or_test<K: Stack<Cell> + Drop>(
    frames: &mut Frames<K>,
    world: &mut World,
    func: Func,
) -> AtOnce
    requires operands { IsSome (take_operands 2 frames.old.flat) }
    requires live { (tables : Tables) × IsLiveStack tables (reach_of world.old []) frames.old.flat }
    ensures { (tables : Tables) → NamesFunction tables world.old.globals.items frames.old.flat 1 func
        → CallsAsTurn tables 1 world.old frames.old.flat world.new frames.new.flat result }
{
    if moves(func) {
        move_in_place(frames, world, func)
    } else {
        test_in_place(frames, world, func)
    }
}

/// Moves behind a text that stands at the position, which the top operand is, or the local or the global holds which it names, where
/// slots tell it; it fails elsewhere. Where they do not, nothing changes.
pub fn match_in_place<K: Stack<Cell> + Drop>(frames: &mut Frames<K>, world: &mut World) -> AtOnce
    requires operands { IsSome (take_operands 1 frames.old.flat) }
    requires live { (tables : Tables) × IsLiveStack tables (reach_of world.old []) frames.old.flat }
    ensures { (tables : Tables) → DoesAsTurn tables (Instrs.Op Ops.TabMatch) world.old frames.old.flat
        world.new frames.new.flat result }
{
    if !is_short(world) {
        return AtOnce::Not;
    }
    let Some(wanted) = text_told(frames, world, 0) else {
        return AtOnce::Not;
    };
    let found = match_in_subject(world, wanted);
    frames.drop_with(0);
    frames.local_count();
    match give_moved(frames, world, found) {
        Ok(stage) => done_at(stage),
        Err(_) => AtOnce::NoMemory,
    }
}

/// Calls a function of scanning below the top operand with this, where slots tell it, and its value is of the type that the function
/// wants. Elsewhere, and for other functions, nothing changes.
pub fn scan_in_place<K: Stack<Cell> + Drop>(
    frames: &mut Frames<K>,
    world: &mut World,
    func: Func,
) -> AtOnce
    requires operands { IsSome (take_operands 2 frames.old.flat) }
    requires live { (tables : Tables) × IsLiveStack tables (reach_of world.old []) frames.old.flat }
    ensures { (tables : Tables) → NamesFunction tables world.old.globals.items frames.old.flat 1 func
        → CallsAsTurn tables 1 world.old frames.old.flat world.new frames.new.flat result }
{
    match func {
        Func::Upto => search_members(frames, world),
        Func::Find => search_text(frames, world),
        _ => move_or_test(frames, world, func),
    }
}

/// Opens a scan of the text that the top operand is, or that the local or the global holds which it names, where slots tell it.
/// Elsewhere nothing changes.
#[inline(always)]
pub fn open_in_place<K: Stack<Cell> + Drop>(frames: &mut Frames<K>, world: &mut World) -> AtOnce
    requires operands { IsSome (take_operands 1 frames.old.flat) }
    requires live { (tables : Tables) × IsLiveStack tables (reach_of world.old []) frames.old.flat }
    ensures { OpensScan world.old frames.old.flat world.new frames.new.flat result }
{
    let Some(text) = text_told(frames, world, 0) else {
        return AtOnce::Not;
    };
    frames.drop_with(0);
    frames.local_count();
    match open_over(frames, world, text) {
        Ok(()) => AtOnce::Running,
        Err(_) => AtOnce::NoMemory,
    }
}
