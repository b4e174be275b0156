// Operations on the values of two operands, whatever variables these are: arithmetic and comparisons of integers, comparisons of
// texts, tests of equality, and subscripts of lists. The world stays as it is.
ghost use Rattle.std.specs.Prelude.{◌≡◌, ◌+◌, ◌<◌, ◌≤◌, ◌^◌, ◌∷◌, [], length, IfSome, IsSome, IsTrue, Some};
ghost use Rattle.icn_text.specs.declared.op.Op.TheVariants as Ops;
ghost use Rattle.icn_value.specs.declared.val.Val.TheVariants as Vals;
ghost use Rattle.icn_value.specs.Store.{list_at};
ghost use Rattle.icn_defs.specs.Arities.{arity};
ghost use Rattle.icn_defs.specs.Elements.{element_item};
ghost use Rattle.icn_heap.specs.Extents.{IsLive, IsText};
ghost use Rattle.icn_heap.specs.Heaps.{extent_of, heap_of};
ghost use Rattle.icn_vars.specs.declared.world.World.{World as WorldSeen};
ghost use Rattle.icn_vars.specs.Worlds.{IsLiveItem, item_in, reach_of};
ghost use Rattle.icn_frames.specs.Stacks as flat;
ghost use Rattle.icn_code.specs.Codes.{Tables};
ghost use Rattle.icn_control.specs.LiveStacks.{IsLiveStack, with_locals};
ghost use Rattle.icn_control.specs.TakenOperands.{take_operands};
ghost use Rattle.icn_machine.specs.PlainOperations.{OperatesInWorld, integer_result};
ghost use Rattle.icn_machine.specs.ValueOperations.{ComesOnValues, ComesOverValues, FindsOperand, GivesAtOnce, IsPlain, IsPlainItem, is_equality_met, is_nameless, is_text_met, value_if};

use crate::held_values::value_held;
use crate::plain_operations::{computed_number, is_met};
use icn_control::RunState;
use icn_convert::same;
use icn_frames::{Cell, Frames, Stack};
use icn_text::{Op, add, div, mul, rem, sub};
use icn_value::{Item, Root, Span, Val, VarRef};
use icn_vars::{World, position_of};
use std::cmp::Ordering;

/// What an operation gives at once.
#[derive(Clone, Copy)]
pub enum ItemOutcome {
    /// It fails.
    Fails,
    /// It gives an item, and no other.
    Gives(Item),
}

/// Takes the two top operands, which must be there, the lower one first.
pub fn take_two<K: Stack<Cell> + Drop>(frames: &mut Frames<K>) -> (Item, Item)
    requires { IsSome (take_operands 2 frames.old.flat) }
    ensures taken { take_operands 2 frames.old.flat ≡ Some (result.0 ∷ result.1 ∷ [], frames.new.flat) }
    ensures spare { 2 ≤ frames.new.spare }
{
    let upper = frames.pop();
    let lower = frames.pop();
    (lower, upper)
}

// Puts an operand on top, for which there is room.
fn put_item<K: Stack<Cell> + Drop>(frames: &mut Frames<K>, item: Item)
    requires { 1 ≤ frames.old.spare }
    ensures flat { frames.new.flat ≡ flat.push item frames.old.flat }
    ensures spare { frames.old.spare ≤ frames.new.spare + 1 }
{
    match frames.push(item) {
        Ok(()) => {}
        Err(_) => unreachable!(),
    }
}

// A value where a test is met; it fails elsewhere.
fn value_if(test: bool, val: Val) -> ItemOutcome
    ensures { result ≡ value_if test val }
{
    if test {
        ItemOutcome::Gives(Item::Val(val))
    } else {
        ItemOutcome::Fails
    }
}

// The result of arithmetic on two integers, if there is one. It stands twice, here and in `plain_operations`, since what is called
// at two places stays a call.
fn arithmetic_result(op: Op, m: i64, n: i64) -> Option<i64>
    ensures { result ≡ integer_result op m n }
{
    match op {
        Op::Add => computed_number(add(m, n)),
        Op::Subtract => computed_number(sub(m, n)),
        Op::Multiply => computed_number(mul(m, n)),
        Op::Divide => computed_number(div(m, n)),
        Op::Remainder => computed_number(rem(m, n)),
        _ => None,
    }
}

// What arithmetic on two integers comes to, if it has a result.
fn computed_outcome(op: Op, m: i64, n: i64) -> Option<ItemOutcome>
    ensures row { (w : WorldSeen) → IfSome result
        (ComesOnValues w op (Vals.Integer m) (Vals.Integer n)) }
    ensures plain { (w : WorldSeen) → IfSome result (IsPlain w) }
{
    match arithmetic_result(op, m, n) {
        Some(r) => Some(ItemOutcome::Gives(Item::Val(Val::Integer(r)))),
        None => None,
    }
}

// What an operation comes to on two integers, if it is arithmetic that has a result, or a comparison.
fn outcome_of_integers(op: Op, m: i64, n: i64) -> Option<ItemOutcome>
    ensures row { (w : WorldSeen) → IfSome result
        (ComesOnValues w op (Vals.Integer m) (Vals.Integer n)) }
    ensures plain { (w : WorldSeen) → IfSome result (IsPlain w) }
{
    match is_met(op, m.cmp(&n)) {
        Some(met) => Some(value_if(met, Val::Integer(n))),
        None => computed_outcome(op, m, n),
    }
}

// Whether a comparison of texts is met, by their order.
fn is_text_met(op: Op, order: Ordering) -> Option<bool>
    ensures { result ≡ is_text_met op order }
{
    match op {
        Op::LexicallyLess => Some(order.is_lt()),
        Op::LexicallyLessOrEqual => Some(order.is_le()),
        Op::LexicallyEqual => Some(order.is_eq()),
        Op::LexicallyGreaterOrEqual => Some(order.is_ge()),
        Op::LexicallyGreater => Some(order.is_gt()),
        Op::LexicallyNotEqual => Some(order.is_ne()),
        _ => None,
    }
}

// What an operation comes to on two texts, if it is a comparison of texts.
fn outcome_of_texts(world: &World, op: Op, s: Span, t: Span) -> Option<ItemOutcome>
    requires first { IsText (extent_of world.now.heap) s }
    requires second { IsText (extent_of world.now.heap) t }
    ensures row { IfSome result
        (ComesOnValues world.now op (Vals.Text s) (Vals.Text t)) }
    ensures plain { IfSome result (IsPlain world.now) }
{
    let order = world.heap.bytes(s).cmp(world.heap.bytes(t));
    match is_text_met(op, order) {
        Some(met) => Some(value_if(met, Val::Text(t))),
        None => None,
    }
}

// What an operation comes to on an integer and another value, if that is one too and it is arithmetic or a comparison of them.
fn outcome_with_integer(op: Op, m: i64, b: Val) -> Option<ItemOutcome>
    ensures row { (w : WorldSeen) → IfSome result (ComesOnValues w op (Vals.Integer m) b) }
    ensures plain { (w : WorldSeen) → IfSome result (IsPlain w) }
{
    match b {
        Val::Integer(n) => outcome_of_integers(op, m, n),
        _ => None,
    }
}

// What an operation comes to on a text and another value, if that is one too and it is a comparison of texts.
fn outcome_with_text(world: &World, op: Op, s: Span, b: Val) -> Option<ItemOutcome>
    requires first { IsText (extent_of world.now.heap) s }
    requires second { IsLive (extent_of world.now.heap) b }
    ensures row { IfSome result (ComesOnValues world.now op (Vals.Text s) b) }
    ensures plain { IfSome result (IsPlain world.now) }
{
    match b {
        Val::Text(t) => outcome_of_texts(world, op, s, t),
        _ => None,
    }
}

// The element of a list at a place, from 0 on.
fn element_at(world: &World, list: u32, place: u64) -> Item
    requires list { IsLive (extent_of world.now.heap) (Vals.List list) }
    requires there { place < length (list_at (heap_of world.now.heap) list).items }
    requires small { place < 2 ^ 63 }
    ensures item { item_in (extent_of world.now.heap) result
        ≡ element_item list (list_at (heap_of world.now.heap) list) place }
    ensures plain { IsPlainItem world.now result }
{
    let number = world.heap.list(list).first() + place as i64;
    Item::Var(VarRef::Whole(Root::Element { list, number }))
}

// How many elements a list has.
fn list_count(world: &World, list: u32) -> u64
    requires { IsLive (extent_of world.now.heap) (Vals.List list) }
    ensures count { result ≡ length (list_at (heap_of world.now.heap) list).items }
    ensures small { result < 2 ^ 63 }
{
    world.heap.size(Val::List(list)).unwrap_or(0)
}

// The element of a list at a position, if it stands before one.
fn element_given(world: &World, list: u32, n: i64) -> ItemOutcome
    requires { IsLive (extent_of world.now.heap) (Vals.List list) }
    ensures row { ComesOnValues world.now Ops.Subscript (Vals.List list) (Vals.Integer n) result }
    ensures plain { IsPlain world.now result }
{
    let size = list_count(world, list);
    match position_of(n, size) {
        Some(place) => {
            if place <= size {
                ItemOutcome::Gives(element_at(world, list, place - 1))
            } else {
                ItemOutcome::Fails
            }
        }
        None => ItemOutcome::Fails,
    }
}

// What an operation comes to on a list and another value, if it is the subscript of a list, and that is an integer.
fn outcome_with_list(world: &World, op: Op, list: u32, b: Val) -> Option<ItemOutcome>
    requires { IsLive (extent_of world.now.heap) (Vals.List list) }
    ensures row { IfSome result (ComesOnValues world.now op (Vals.List list) b) }
    ensures plain { IfSome result (IsPlain world.now) }
{
    match op {
        Op::Subscript => list_subscript(world, list, b),
        _ => None,
    }
}

// What the subscript of a list comes to, if it is an integer.
fn list_subscript(world: &World, list: u32, b: Val) -> Option<ItemOutcome>
    requires { IsLive (extent_of world.now.heap) (Vals.List list) }
    ensures row { IfSome result (ComesOnValues world.now Ops.Subscript (Vals.List list) b) }
    ensures plain { IfSome result (IsPlain world.now) }
{
    match b {
        Val::Integer(n) => Some(element_given(world, list, n)),
        _ => None,
    }
}

// Whether an operation tests whether two values are the same.
#[inline(always)]
fn is_equality(op: Op) -> bool {
    match op {
        Op::Equivalent => true,
        Op::NotEquivalent => true,
        _ => false,
    }
}

// Whether a test of equality is met, by whether two values are the same.
#[inline(always)]
fn is_equality_met(op: Op, same: bool) -> Option<bool>
    ensures { result ≡ is_equality_met op same }
{
    match op {
        Op::Equivalent => Some(same),
        Op::NotEquivalent => Some(!same),
        _ => None,
    }
}

/// Whether a value is no procedure.
#[inline(always)]
pub fn is_nameless(v: Val) -> bool
    ensures { result ≡ is_nameless v }
{
    match v {
        Val::Null => true,
        Val::Integer(_) => true,
        Val::Text(_) => true,
        Val::Chars(_) => true,
        Val::Std(_) => true,
        Val::Proc(_) => false,
        Val::Rec(_) => true,
        Val::List(_) => true,
        Val::Set(_) => true,
        Val::Table(_) => true,
        Val::Coexp(_) => true,
    }
}

// What a test of equality comes to on two values, if the second one is no procedure.
fn outcome_of_equality(world: &World, op: Op, a: Val, b: Val) -> Option<ItemOutcome>
    requires first { IsLive (extent_of world.now.heap) a }
    requires second { IsLive (extent_of world.now.heap) b }
    ensures row { IfSome result (ComesOnValues world.now op a b) }
    ensures plain { IfSome result (IsPlain world.now) }
{
    if !is_nameless(b) {
        return None;
    }
    match is_equality_met(op, same(&world.heap, a, b)) {
        Some(met) => Some(value_if(met, b)),
        None => None,
    }
}

// What an operation comes to on two values, if it is arithmetic on integers, a comparison of them or of texts, a test of equality, or
// the subscript of a list.
fn outcome_of_values(world: &World, op: Op, a: Val, b: Val) -> Option<ItemOutcome>
    requires first { IsLive (extent_of world.now.heap) a }
    requires second { IsLive (extent_of world.now.heap) b }
    ensures row { IfSome result (ComesOnValues world.now op a b) }
    ensures plain { IfSome result (IsPlain world.now) }
{
    if is_equality(op) {
        return outcome_of_equality(world, op, a, b);
    }
    match a {
        Val::Integer(m) => outcome_with_integer(op, m, b),
        Val::Text(s) => outcome_with_text(world, op, s, b),
        Val::List(list) => outcome_with_list(world, op, list, b),
        _ => None,
    }
}

// Pushes what is given, for which there is room, or fails.
fn give_at_once<K: Stack<Cell> + Drop>(frames: &mut Frames<K>, given: ItemOutcome) -> RunState
    requires { 1 ≤ frames.old.spare }
    ensures { GivesAtOnce given frames.old.flat frames.new.flat result }
{
    match given {
        ItemOutcome::Fails => RunState::Failing,
        ItemOutcome::Gives(item) => {
            put_item(frames, item);
            RunState::Running
        }
    }
}

// Whether an operation is arithmetic, a comparison of integers or of texts, a test of equality, or a subscript.
fn is_of_values(op: Op) -> bool
    ensures { IsTrue result → arity op ≡ 2 }
{
    match op {
        Op::Add => true,
        Op::Subtract => true,
        Op::Multiply => true,
        Op::Divide => true,
        Op::Remainder => true,
        Op::Less => true,
        Op::LessOrEqual => true,
        Op::Equal => true,
        Op::GreaterOrEqual => true,
        Op::Greater => true,
        Op::NotEqual => true,
        Op::LexicallyLess => true,
        Op::LexicallyLessOrEqual => true,
        Op::LexicallyEqual => true,
        Op::LexicallyGreaterOrEqual => true,
        Op::LexicallyGreater => true,
        Op::LexicallyNotEqual => true,
        Op::Equivalent => true,
        Op::NotEquivalent => true,
        Op::Subscript => true,
        _ => false,
    }
}

/// Performs arithmetic on the integers that two operands are or hold, a comparison of these or of texts, a test of equality, or the
/// subscript of a list, whatever variables the operands are. Where they hold anything else, and for any other operation, nothing changes. Its
/// operands must be there. It takes no memory.
pub fn operate_on_values<K: Stack<Cell> + Drop>(
    frames: &mut Frames<K>,
    world: &World,
    op: Op,
) -> Option<RunState>
    requires operands { IsSome (take_operands (arity op) frames.old.flat) }
    requires live { (tables : Tables) × IsLiveStack tables (reach_of world.now []) frames.old.flat }
    ensures { OperatesInWorld world.now op frames.old.flat frames.new.flat result }
{
    if !is_of_values(op) {
        return None;
    }
    let Some(a) = value_held(frames, world, 1) else {
        return None;
    };
    let Some(b) = value_held(frames, world, 0) else {
        return None;
    };
    let Some(given) = outcome_of_values(world, op, a, b) else {
        return None;
    };
    frames.drop_with(1);
    frames.local_count();
    Some(give_at_once(frames, given))
}
