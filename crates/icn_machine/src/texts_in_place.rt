// Operations on texts that are performed on a stack in a world, where slots tell the texts: no operand is taken, and no row is called.
ghost use Rattle.std.specs.Prelude.{◌≡◌, ◌++◌, [], IfOk, IsSome};
ghost use Rattle.icn_text.specs.declared.op.Op.TheVariants as Ops;
ghost use Rattle.icn_value.specs.declared.val.Val.TheVariants as Vals;
ghost use Rattle.icn_defs.specs.Arities.{arity};
ghost use Rattle.icn_defs.specs.Rows.{builds};
ghost use Rattle.icn_heap.specs.Extents.{IsText, text_in};
ghost use Rattle.icn_heap.specs.Heaps.{extent_of};
ghost use Rattle.icn_vars.specs.Worlds.{reach_of};
ghost use Rattle.icn_code.specs.declared.instr.Instr.TheVariants as Instrs;
ghost use Rattle.icn_code.specs.Codes.{Tables};
ghost use Rattle.icn_control.specs.LiveStacks.{IsLiveStack};
ghost use Rattle.icn_control.specs.TakenOperands.{take_operands};
ghost use Rattle.icn_machine.specs.MadeTexts.{GivesText, MakesText};
ghost use Rattle.icn_machine.specs.PlainFunctions.{HasValueBelow};
ghost use Rattle.icn_machine.specs.TurnsAtOnce.{DoesAsTurn, is_of_texts};

use crate::at_once::AtOnce;
use crate::scanning::match_in_place;
use crate::told::text_told;
use icn_control::push_text;
use icn_frames::{Cell, Frames, Stack};
use icn_text::Op;
use icn_value::{Full, Span};
use icn_vars::World;

// Whether two texts may be charged one after the other.
fn may_join(world: &World, a: Span, b: Span) -> bool {
    let room = world.heap.string_room();
    a.len <= room && b.len <= room - a.len
}

/// Gives a text that was made.
#[inline(always)]
pub fn give_text<K: Stack<Cell> + Drop>(frames: &mut Frames<K>, text: Span) -> AtOnce
    ensures { GivesText text frames.old.flat frames.new.flat result }
{
    match push_text(frames, text) {
        Ok(()) => AtOnce::Running,
        Err(_) => AtOnce::NoMemory,
    }
}

// Makes the text of the bytes of one and then of another, and charges it. The error is the limit that refuses the charge, or else want
// of memory.
#[tactic(auto, using(icn_vars::proofs::GrowingWorlds::grows))]
fn joined(world: &mut World, a: Span, b: Span) -> Result<Span, Full>
    requires first { IsText (extent_of world.old.heap) a }
    requires second { IsText (extent_of world.old.heap) b }
    ensures { IfOk result (MakesText
        (builds (text_in (extent_of world.old.heap) a ++ text_in (extent_of world.old.heap) b))
        world.old world.new) }
{
    let text = world.heap.join(a, b)?;
    Ok(text)
}

// Puts two texts together that the two top operands are, or that what they name holds.
fn give_joined<K: Stack<Cell> + Drop>(
    frames: &mut Frames<K>,
    world: &mut World,
    a: Span,
    b: Span,
) -> AtOnce
    requires operands { IsSome (take_operands 2 frames.old.flat) }
    requires live { (tables : Tables) × IsLiveStack tables (reach_of world.old []) frames.old.flat }
    requires first { HasValueBelow world.old.globals.items frames.old.flat 1 (Vals.Text a) }
    requires second { HasValueBelow world.old.globals.items frames.old.flat 0 (Vals.Text b) }
    ensures { (tables : Tables) → DoesAsTurn tables (Instrs.Op Ops.Concatenate) world.old frames.old.flat
        world.new frames.new.flat result }
{
    frames.drop_with(1);
    frames.local_count();
    match joined(world, a, b) {
        Ok(text) => give_text(frames, text),
        Err(_) => AtOnce::NoMemory,
    }
}

// Puts the text that the operand below the top one is, or that the local or the global holds which it names, before that of the top
// operand, where a slot tells it, and the bytes of both may be charged. Elsewhere nothing changes.
#[inline(always)]
fn join_before<K: Stack<Cell> + Drop>(frames: &mut Frames<K>, world: &mut World, b: Span) -> AtOnce
    requires operands { IsSome (take_operands 2 frames.old.flat) }
    requires live { (tables : Tables) × IsLiveStack tables (reach_of world.old []) frames.old.flat }
    requires second { HasValueBelow world.old.globals.items frames.old.flat 0 (Vals.Text b) }
    ensures { (tables : Tables) → DoesAsTurn tables (Instrs.Op Ops.Concatenate) world.old frames.old.flat
        world.new frames.new.flat result }
{
    let Some(a) = text_told(frames, world, 1) else {
        return AtOnce::Not;
    };
    if may_join(world, a, b) {
        give_joined(frames, world, a, b)
    } else {
        AtOnce::Not
    }
}

// Puts the texts together that the two top operands are, or that the locals or the globals hold which they name, where slots tell
// both, and their bytes may be charged. Elsewhere nothing changes.
fn join_in_place<K: Stack<Cell> + Drop>(frames: &mut Frames<K>, world: &mut World) -> AtOnce
    requires operands { IsSome (take_operands 2 frames.old.flat) }
    requires live { (tables : Tables) × IsLiveStack tables (reach_of world.old []) frames.old.flat }
    ensures { (tables : Tables) → DoesAsTurn tables (Instrs.Op Ops.Concatenate) world.old frames.old.flat
        world.new frames.new.flat result }
{
    match text_told(frames, world, 0) {
        Some(b) => join_before(frames, world, b),
        None => AtOnce::Not,
    }
}

/// Whether an operation puts texts together, or looks for one at the position.
#[inline(always)]
pub fn is_of_texts(op: Op) -> bool
    ensures { result ≡ is_of_texts op }
{
    match op {
        Op::Concatenate => true,
        Op::TabMatch => true,
        _ => false,
    }
}

/// Performs an operation on texts that its operands are, or that locals or globals hold which they name, where slots tell them: two
/// are put together, or one is looked for at the position. Elsewhere, and for other operations, nothing changes. Its operands must be
/// there.
pub fn operate_on_texts<K: Stack<Cell> + Drop>(
    frames: &mut Frames<K>,
    world: &mut World,
    op: Op,
) -> AtOnce
    requires operands { IsSome (take_operands (arity op) frames.old.flat) }
    requires live { (tables : Tables) × IsLiveStack tables (reach_of world.old []) frames.old.flat }
    ensures { (tables : Tables) → DoesAsTurn tables (Instrs.Op op) world.old frames.old.flat world.new
        frames.new.flat result }
{
    match op {
        Op::Concatenate => join_in_place(frames, world),
        Op::TabMatch => match_in_place(frames, world),
        _ => AtOnce::Not,
    }
}
