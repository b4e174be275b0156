// Texts and integers that are laid out in fields on a stack in a world, where slots tell them: no operand is taken into a room, and no
// argument is converted but an integer to its text.
ghost use Rattle.std.specs.Prelude.{◌≡◌, [], pos, IfOk, IfSome, IsSome};
ghost use Rattle.std.specs.Fmt.{signed_decimal};
ghost use Rattle.icn_value.specs.declared.val.Val.TheVariants as Vals;
ghost use Rattle.icn_defs.specs.Rows.{builds};
ghost use Rattle.icn_heap.specs.Extents.{IsText, text_in};
ghost use Rattle.icn_heap.specs.Heaps.{extent_of};
ghost use Rattle.icn_vars.specs.Worlds.{reach_of};
ghost use Rattle.icn_code.specs.Codes.{Tables};
ghost use Rattle.icn_control.specs.LiveStacks.{IsLiveStack};
ghost use Rattle.icn_control.specs.TakenOperands.{take_operands};
ghost use Rattle.icn_strfn.specs.Layouts.{laid_out};
ghost use Rattle.icn_machine.specs.MadeTexts.{MakesText, blank, builds_field, laying};
ghost use Rattle.icn_machine.specs.PlainFunctions.{HasValueBelow, NamesFunction};
ghost use Rattle.icn_machine.specs.TurnsAtOnce.{CallsAsTurn};

use crate::at_once::AtOnce;
use crate::texts_in_place::give_text;
use crate::told::{integer_told, natural_told, text_told};
use icn_frames::{Cell, Frames, Stack};
use icn_strfn::{Layout, text_in_field};
use icn_text::{Func, decimal};
use icn_value::{Full, Span};
use icn_vars::World;

// The longest text of an integer.
const LONGEST: u64 = 20;

// Makes a text that is laid out in a field of so many bytes, and charges it. The error is the limit that refuses the charge, or else
// want of memory.
#[tactic(auto, using(icn_vars::proofs::GrowingWorlds::grows))]
fn text_laid_out(world: &mut World, layout: Layout, text: Span, width: u64) -> Result<Span, Full>
    requires { IsText (extent_of world.old.heap) text }
    ensures { IfOk result (MakesText
        (builds (laid_out layout (text_in (extent_of world.old.heap) text) width blank))
        world.old world.new) }
{
    let field = text_in_field(&mut world.heap, layout, text, width)?;
    Ok(field)
}

// Makes the text of an integer, and lays that out; both are charged. The error is the limit that refuses a charge, or else want of
// memory.
#[tactic(auto, using(icn_vars::proofs::GrowingWorlds::grows))]
fn integer_laid_out(world: &mut World, layout: Layout, m: i64, width: u64) -> Result<Span, Full>
    ensures { IfOk result (MakesText (builds_field layout (signed_decimal m) width)
        world.old world.new) }
{
    let digits = decimal(m);
    let text = world.heap.build(digits.as_bytes())?;
    let field = text_in_field(&mut world.heap, layout, text, width)?;
    Ok(field)
}

// Lays a text out in place of the function and its two operands. So many bytes may be charged.
fn give_text_in_field<K: Stack<Cell> + Drop>(
    frames: &mut Frames<K>,
    world: &mut World,
    layout: Layout,
    text: Span,
    width: u64,
) -> AtOnce
    requires operands { IsSome (take_operands 3 frames.old.flat) }
    requires live { (tables : Tables) × IsLiveStack tables (reach_of world.old []) frames.old.flat }
    requires first { HasValueBelow world.old.globals.items frames.old.flat 1 (Vals.Text text) }
    requires second { HasValueBelow world.old.globals.items frames.old.flat 0 (Vals.Integer (pos width)) }
    ensures { (tables : Tables)
        → NamesFunction tables world.old.globals.items frames.old.flat 2 (laying layout)
        → CallsAsTurn tables 2 world.old frames.old.flat world.new frames.new.flat result }
{
    frames.drop_with(2);
    frames.local_count();
    match text_laid_out(world, layout, text, width) {
        Ok(field) => give_text(frames, field),
        Err(_) => AtOnce::NoMemory,
    }
}

// Lays the text of an integer out so.
fn give_integer_in_field<K: Stack<Cell> + Drop>(
    frames: &mut Frames<K>,
    world: &mut World,
    layout: Layout,
    m: i64,
    width: u64,
) -> AtOnce
    requires operands { IsSome (take_operands 3 frames.old.flat) }
    requires live { (tables : Tables) × IsLiveStack tables (reach_of world.old []) frames.old.flat }
    requires first { HasValueBelow world.old.globals.items frames.old.flat 1 (Vals.Integer m) }
    requires second { HasValueBelow world.old.globals.items frames.old.flat 0 (Vals.Integer (pos width)) }
    ensures { (tables : Tables)
        → NamesFunction tables world.old.globals.items frames.old.flat 2 (laying layout)
        → CallsAsTurn tables 2 world.old frames.old.flat world.new frames.new.flat result }
{
    frames.drop_with(2);
    frames.local_count();
    match integer_laid_out(world, layout, m, width) {
        Ok(field) => give_text(frames, field),
        Err(_) => AtOnce::NoMemory,
    }
}

// Whether a text of so many bytes may be charged behind that of an integer.
fn may_lay_integer_out(world: &World, width: u64) -> bool {
    let room = world.heap.string_room();
    room >= LONGEST && width <= room - LONGEST
}

// Lays the integer out that the operand below the top one is, or that the local or the global holds which it names, if it is one.
fn lay_integer_out<K: Stack<Cell> + Drop>(
    frames: &mut Frames<K>,
    world: &mut World,
    layout: Layout,
    width: u64,
) -> AtOnce
    requires operands { IsSome (take_operands 3 frames.old.flat) }
    requires live { (tables : Tables) × IsLiveStack tables (reach_of world.old []) frames.old.flat }
    requires second { HasValueBelow world.old.globals.items frames.old.flat 0 (Vals.Integer (pos width)) }
    ensures { (tables : Tables)
        → NamesFunction tables world.old.globals.items frames.old.flat 2 (laying layout)
        → CallsAsTurn tables 2 world.old frames.old.flat world.new frames.new.flat result }
{
    let Some(m) = integer_told(frames, world, 1) else {
        return AtOnce::Not;
    };
    if may_lay_integer_out(world, width) {
        give_integer_in_field(frames, world, layout, m, width)
    } else {
        AtOnce::Not
    }
}

// Whether a text of so many bytes may be charged.
fn may_lay_text_out(world: &World, width: u64) -> bool {
    width <= world.heap.string_room()
}

// Lays a text out, if its field may be charged.
fn lay_text_out<K: Stack<Cell> + Drop>(
    frames: &mut Frames<K>,
    world: &mut World,
    layout: Layout,
    text: Span,
    width: u64,
) -> AtOnce
    requires operands { IsSome (take_operands 3 frames.old.flat) }
    requires live { (tables : Tables) × IsLiveStack tables (reach_of world.old []) frames.old.flat }
    requires first { HasValueBelow world.old.globals.items frames.old.flat 1 (Vals.Text text) }
    requires second { HasValueBelow world.old.globals.items frames.old.flat 0 (Vals.Integer (pos width)) }
    ensures { (tables : Tables)
        → NamesFunction tables world.old.globals.items frames.old.flat 2 (laying layout)
        → CallsAsTurn tables 2 world.old frames.old.flat world.new frames.new.flat result }
{
    if may_lay_text_out(world, width) {
        give_text_in_field(frames, world, layout, text, width)
    } else {
        AtOnce::Not
    }
}

// Lays out the text or the integer that the operand below the top one is, or that the local or the global holds which it names, in a
// field of as many bytes as the top operand tells, where slots tell both, and all may be charged. Elsewhere nothing changes.
fn lay_out_in_place<K: Stack<Cell> + Drop>(
    frames: &mut Frames<K>,
    world: &mut World,
    layout: Layout,
) -> AtOnce
    requires operands { IsSome (take_operands 3 frames.old.flat) }
    requires live { (tables : Tables) × IsLiveStack tables (reach_of world.old []) frames.old.flat }
    ensures { (tables : Tables)
        → NamesFunction tables world.old.globals.items frames.old.flat 2 (laying layout)
        → CallsAsTurn tables 2 world.old frames.old.flat world.new frames.new.flat result }
{
    let Some(width) = natural_told(frames, world, 0) else {
        return AtOnce::Not;
    };
    match text_told(frames, world, 1) {
        Some(text) => lay_text_out(frames, world, layout, text, width),
        None => lay_integer_out(frames, world, layout, width),
    }
}

// How a function lays out, if it does.
fn layout_of(func: Func) -> Option<Layout>
    ensures { IfSome result (λ layout. laying layout ≡ func) }
{
    match func {
        Func::Left => Some(Layout::Left),
        Func::Right => Some(Layout::Right),
        Func::Center => Some(Layout::Center),
        _ => None,
    }
}

/// Calls a function that lays out below the two top operands with these, where slots tell them, and all may be charged. Elsewhere, and
/// for other functions, nothing changes.
pub fn lay_out_by<K: Stack<Cell> + Drop>(
    frames: &mut Frames<K>,
    world: &mut World,
    func: Func,
) -> AtOnce
    requires operands { IsSome (take_operands 3 frames.old.flat) }
    requires live { (tables : Tables) × IsLiveStack tables (reach_of world.old []) frames.old.flat }
    ensures { (tables : Tables) → NamesFunction tables world.old.globals.items frames.old.flat 2 func
        → CallsAsTurn tables 2 world.old frames.old.flat world.new frames.new.flat result }
{
    match layout_of(func) {
        Some(layout) => lay_out_in_place(frames, world, layout),
        None => AtOnce::Not,
    }
}
