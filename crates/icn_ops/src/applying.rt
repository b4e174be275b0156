// All operations in one call.
ghost use Rattle.std.specs.Prelude.{◌≡◌, map};
ghost use Rattle.std.specs.List.{All};
ghost use Rattle.icn_defs.specs.Applying.{operand, operation_on, operation_row};
ghost use Rattle.icn_heap.specs.Extents.{Extent, IsLive};
ghost use Rattle.icn_heap.specs.Heaps.{extent_of};
ghost use Rattle.icn_vars.specs.Outcomes.{answer_of};
ghost use Rattle.icn_vars.specs.Worlds.{AreLiveThree, IsLiveItem, Reach, item_in, reach_of};
ghost use Rattle.icn_streams.specs.Answers.{call_state};
ghost use Rattle.icn_streams.specs.Applies.{Applies};

use crate::arithmetic::{
    add_row, divide_row, multiply_row, negate_row, number_row, power_row, remainder_row,
    subtract_row,
};
use crate::comparisons::{
    equal_row, equivalent_row, greater_or_equal_row, greater_row, less_or_equal_row, less_row,
    lexically_equal_row, lexically_greater_or_equal_row, lexically_greater_row,
    lexically_less_or_equal_row, lexically_less_row, lexically_not_equal_row, not_equal_row,
    not_equivalent_row,
};
use crate::counting::to_by_row;
use crate::lists::concatenate_lists_row;
use crate::null::{dereference_row, is_not_null_row, is_null_row, size_row};
use crate::random::random_row;
use crate::scanning::tab_match_row;
use crate::sections::{section_minus_row, section_plus_row, section_row};
use crate::sets::{difference_row, intersection_row, union_row};
use crate::subscripts::subscript_row;
use crate::texts::{complement_row, concatenate_row};
use crate::variables::{assign_row, reversible_assign_row, reversible_swap_row, swap_row};
use crate::walks::elements_row;
use icn_streams::Streams;
use icn_text::Op;
use icn_value::{Item, Val};
use icn_vars::{Halt, Locals, Outcome, ValueOutcome, World};

/// Applies an operation; an operand that is missing is null, and one that is too many does nothing. The refreshing of a co-expression
/// is no row: it fails here.
///
/// # Errors
///
/// `Error` where the row says so. `ReadFault` where the input failed in this call, `WriteFault` where an output did as it was settled
/// before a reading, `NoMemory` where memory ran out.
pub fn apply_operation<L: Locals, S: Streams>(
    op: Op,
    args: &[Item],
    w: &mut World,
    l: &mut L,
    streams: &mut S,
) -> Result<Outcome, Halt>
    requires locals { All (IsLive (extent_of w.old.heap)) (L.items l.old) }
    requires args { All (IsLiveItem (reach_of w.old (L.items l.old))) args.now }
    ensures { Applies (operation_row op (map (item_in (extent_of w.old.heap)) args.now))
        (call_state w.old (L.items l.old) (S.state streams.old))
        (call_state w.new (L.items l.new) (S.state streams.new)) result }
{
    let x = operand(args, 0);
    let y = operand(args, 1);
    let z = operand(args, 2);
    apply_to_operands(op, x, y, z, w, l, streams)
}

// The operand at an index, counted from 0, which is null where it is missing.
fn operand(args: &[Item], index: usize) -> Item
    ensures value { (all : Extent)
        → item_in all result ≡ operand (map (item_in all) args.now) index }
    ensures live { (reach : Reach) → All (IsLiveItem reach) args.now → IsLiveItem reach result }
{
    args.get(index).copied().unwrap_or(Item::Val(Val::Null))
}

// The row of each operation.
fn apply_to_operands<L: Locals, S: Streams>(
    op: Op,
    x: Item,
    y: Item,
    z: Item,
    w: &mut World,
    l: &mut L,
    streams: &mut S,
) -> Result<Outcome, Halt>
    requires live { AreLiveThree w.old (L.items l.old) x y z }
    ensures { Applies (operation_on op (item_in (extent_of w.old.heap) x) (item_in (extent_of w.old.heap) y)
        (item_in (extent_of w.old.heap) z))
        (call_state w.old (L.items l.old) (S.state streams.old))
        (call_state w.new (L.items l.new) (S.state streams.new)) result }
{
    match op {
        Op::IsNull => is_null_row(w, l, x),
        Op::IsNotNull => is_not_null_row(w, l, x),
        Op::Dereference => dereference_row(w, l, x),
        Op::Number => number_row(w, l, x),
        Op::Negate => negate_row(w, l, x),
        Op::Size => size_row(w, l, x),
        Op::Complement => complement_row(w, l, x),
        Op::Elements => elements_row(w, l, x, streams),
        Op::Random => random_row(w, l, x),
        Op::TabMatch => tab_match_row(w, l, x),
        Op::Refresh => Ok(Outcome::Fails),
        Op::Add => add_row(w, l, x, y),
        Op::Subtract => subtract_row(w, l, x, y),
        Op::Multiply => multiply_row(w, l, x, y),
        Op::Divide => divide_row(w, l, x, y),
        Op::Remainder => remainder_row(w, l, x, y),
        Op::Power => power_row(w, l, x, y),
        Op::Less => less_row(w, l, x, y),
        Op::LessOrEqual => less_or_equal_row(w, l, x, y),
        Op::Equal => equal_row(w, l, x, y),
        Op::GreaterOrEqual => greater_or_equal_row(w, l, x, y),
        Op::Greater => greater_row(w, l, x, y),
        Op::NotEqual => not_equal_row(w, l, x, y),
        Op::LexicallyLess => lexically_less_row(w, l, x, y),
        Op::LexicallyLessOrEqual => lexically_less_or_equal_row(w, l, x, y),
        Op::LexicallyEqual => lexically_equal_row(w, l, x, y),
        Op::LexicallyGreaterOrEqual => lexically_greater_or_equal_row(w, l, x, y),
        Op::LexicallyGreater => lexically_greater_row(w, l, x, y),
        Op::LexicallyNotEqual => lexically_not_equal_row(w, l, x, y),
        Op::Equivalent => equivalent_row(w, l, x, y),
        Op::NotEquivalent => not_equivalent_row(w, l, x, y),
        Op::Concatenate => as_answer(concatenate_row(w, l, x, y)),
        Op::ConcatenateLists => concatenate_lists_row(w, l, x, y),
        Op::Union => union_row(w, l, x, y),
        Op::Difference => difference_row(w, l, x, y),
        Op::Intersection => intersection_row(w, l, x, y),
        Op::Assign => assign_row(w, l, x, y),
        Op::Swap => swap_row(w, l, x, y),
        Op::ReversibleAssign => reversible_assign_row(w, l, x, y),
        Op::ReversibleSwap => reversible_swap_row(w, l, x, y),
        Op::Subscript => subscript_row(w, l, x, y),
        Op::Section => section_row(w, l, x, y, z),
        Op::SectionPlus => section_plus_row(w, l, x, y, z),
        Op::SectionMinus => section_minus_row(w, l, x, y, z),
        Op::ToBy => to_by_row(w, l, x, y, z),
    }
}

// What a row answers that gives a value at most, as an answer that could suspend.
fn as_answer(answer: Result<ValueOutcome, Halt>) -> Result<Outcome, Halt>
    ensures { result ≡ answer_of answer }
{
    match answer {
        Ok(given) => Ok(given.outcome()),
        Err(halt) => Err(halt),
    }
}
