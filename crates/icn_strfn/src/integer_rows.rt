// The functions over integers.
ghost use Rattle.std.specs.Prelude.{◌≡◌, MatchResult, map};
ghost use Rattle.std.specs.List.{All};
ghost use Rattle.icn_value.specs.Store.{Setting};
ghost use Rattle.icn_value.specs.declared.item.Item.TheVariants.{Val as ValItem};
ghost use Rattle.icn_value.specs.declared.residual.Residual.TheVariants.{Sequence as SequenceRest};
ghost use Rattle.icn_value.specs.declared.val.Val.TheVariants.{Integer};
ghost use Rattle.icn_defs.specs.Rows.{arithmetic_error};
ghost use Rattle.icn_defs.specs.Strings.{abs_row, iand_row, icom_row, integer_row, ior_row, ishift_row, ixor_row, seq_row, sequence_again};
ghost use Rattle.icn_heap.specs.Extents.{Extent, IsLive, value_in};
ghost use Rattle.icn_heap.specs.Heaps.{extent_of};
ghost use Rattle.icn_args.specs.RowWords.{Answers};
ghost use Rattle.icn_vars.specs.Outcomes.{ComesToAnswer, IsLiveAnswer, answer_of};
ghost use Rattle.icn_vars.specs.Worlds.{Reach, reach_of};

use crate::defaults::or_one;
use crate::integers::{absolute_value, shift_integer};
use icn_args::arg;
use icn_convert::to_integer;
use icn_text::{Arith, add};
use icn_value::{Item, Residual, Val};
use icn_vars::{Halt, Locals, Outcome, ValueOutcome, World};

/// `abs(n)`: the absolute value, or error 102; 203 where 64 bits do not hold it.
pub fn abs_row<L: Locals>(w: &World, l: &L, args: &[Val]) -> Result<ValueOutcome, Halt>
    requires { All (IsLive (extent_of w.now.heap)) args.now }
    ensures row { Answers w.now (L.items l.now) w.now (L.items l.now)
        (abs_row (map (value_in (extent_of w.now.heap)) args.now)) (answer_of result) }
    ensures live { IsLiveAnswer (reach_of w.now (L.items l.now)) (answer_of result) }
{
    let val = arg(args, 0);
    match to_integer(&w.heap, val) {
        Some(n) => integer_outcome(absolute_value(n)),
        None => Err(Halt::Error(102, Some(val))),
    }
}

/// `iand(i, j)`: the bits that are set in both, or error 101.
pub fn iand_row<L: Locals>(w: &World, l: &L, args: &[Val]) -> Result<ValueOutcome, Halt>
    requires { All (IsLive (extent_of w.now.heap)) args.now }
    ensures row { Answers w.now (L.items l.now) w.now (L.items l.now)
        (iand_row (map (value_in (extent_of w.now.heap)) args.now)) (answer_of result) }
    ensures live { IsLiveAnswer (reach_of w.now (L.items l.now)) (answer_of result) }
{
    let first = arg(args, 0);
    let second = arg(args, 1);
    match (to_integer(&w.heap, first), to_integer(&w.heap, second)) {
        (Some(m), Some(n)) => Ok(integer(m & n)),
        (Some(_), None) => Err(Halt::Error(101, Some(second))),
        (None, _) => Err(Halt::Error(101, Some(first))),
    }
}

/// `ior(i, j)`: the bits that are set in either, or error 101.
pub fn ior_row<L: Locals>(w: &World, l: &L, args: &[Val]) -> Result<ValueOutcome, Halt>
    requires { All (IsLive (extent_of w.now.heap)) args.now }
    ensures row { Answers w.now (L.items l.now) w.now (L.items l.now)
        (ior_row (map (value_in (extent_of w.now.heap)) args.now)) (answer_of result) }
    ensures live { IsLiveAnswer (reach_of w.now (L.items l.now)) (answer_of result) }
{
    let first = arg(args, 0);
    let second = arg(args, 1);
    match (to_integer(&w.heap, first), to_integer(&w.heap, second)) {
        (Some(m), Some(n)) => Ok(integer(m | n)),
        (Some(_), None) => Err(Halt::Error(101, Some(second))),
        (None, _) => Err(Halt::Error(101, Some(first))),
    }
}

/// `ixor(i, j)`: the bits that are set in one of them alone, or error 101.
pub fn ixor_row<L: Locals>(w: &World, l: &L, args: &[Val]) -> Result<ValueOutcome, Halt>
    requires { All (IsLive (extent_of w.now.heap)) args.now }
    ensures row { Answers w.now (L.items l.now) w.now (L.items l.now)
        (ixor_row (map (value_in (extent_of w.now.heap)) args.now)) (answer_of result) }
    ensures live { IsLiveAnswer (reach_of w.now (L.items l.now)) (answer_of result) }
{
    let first = arg(args, 0);
    let second = arg(args, 1);
    match (to_integer(&w.heap, first), to_integer(&w.heap, second)) {
        (Some(m), Some(n)) => Ok(integer(m ^ n)),
        (Some(_), None) => Err(Halt::Error(101, Some(second))),
        (None, _) => Err(Halt::Error(101, Some(first))),
    }
}

/// `icom(i)`: the bits that are not set, or error 101.
pub fn icom_row<L: Locals>(w: &World, l: &L, args: &[Val]) -> Result<ValueOutcome, Halt>
    requires { All (IsLive (extent_of w.now.heap)) args.now }
    ensures row { Answers w.now (L.items l.now) w.now (L.items l.now)
        (icom_row (map (value_in (extent_of w.now.heap)) args.now)) (answer_of result) }
    ensures live { IsLiveAnswer (reach_of w.now (L.items l.now)) (answer_of result) }
{
    let val = arg(args, 0);
    match to_integer(&w.heap, val) {
        Some(n) => Ok(integer(!n)),
        None => Err(Halt::Error(101, Some(val))),
    }
}

/// `ishift(i, j)`: the bits moved to the left, or below 0 to the right with zeros, or error 101.
pub fn ishift_row<L: Locals>(w: &World, l: &L, args: &[Val]) -> Result<ValueOutcome, Halt>
    requires { All (IsLive (extent_of w.now.heap)) args.now }
    ensures row { Answers w.now (L.items l.now) w.now (L.items l.now)
        (ishift_row (map (value_in (extent_of w.now.heap)) args.now)) (answer_of result) }
    ensures live { IsLiveAnswer (reach_of w.now (L.items l.now)) (answer_of result) }
{
    let first = arg(args, 0);
    let second = arg(args, 1);
    match (to_integer(&w.heap, first), to_integer(&w.heap, second)) {
        (Some(m), Some(n)) => Ok(integer(shift_integer(m, n))),
        (Some(_), None) => Err(Halt::Error(101, Some(second))),
        (None, _) => Err(Halt::Error(101, Some(first))),
    }
}

/// `integer(x)` and `numeric(x)`: the integer that a value converts to; it fails where there is none.
pub fn integer_row<L: Locals>(w: &World, l: &L, args: &[Val]) -> Result<ValueOutcome, Halt>
    requires { All (IsLive (extent_of w.now.heap)) args.now }
    ensures row { Answers w.now (L.items l.now) w.now (L.items l.now)
        (integer_row (map (value_in (extent_of w.now.heap)) args.now)) (answer_of result) }
    ensures live { IsLiveAnswer (reach_of w.now (L.items l.now)) (answer_of result) }
{
    match to_integer(&w.heap, arg(args, 0)) {
        Some(n) => Ok(integer(n)),
        None => Ok(ValueOutcome::Fails),
    }
}

/// `seq(i, j)`: the integers from `i` on by `j`, both 1 where they are null; or error 101, or 211 at a step of 0.
pub fn seq_row<L: Locals>(w: &World, l: &L, args: &[Val]) -> Result<Outcome, Halt>
    requires { All (IsLive (extent_of w.now.heap)) args.now }
    ensures row { Answers w.now (L.items l.now) w.now (L.items l.now)
        (seq_row (map (value_in (extent_of w.now.heap)) args.now)) result }
    ensures live { IsLiveAnswer (reach_of w.now (L.items l.now)) result }
{
    let first = or_one(arg(args, 0));
    let second = or_one(arg(args, 1));
    match (to_integer(&w.heap, first), to_integer(&w.heap, second)) {
        (Some(_), Some(0)) => Err(Halt::Error(211, None)),
        (Some(n), Some(step)) => Ok(sequence_from(n, step)),
        (Some(_), None) => Err(Halt::Error(101, Some(second))),
        (None, _) => Err(Halt::Error(101, Some(first))),
    }
}

/// A sequence goes on by its step. The error is 203 where 64 bits do not hold the next integer.
pub fn sequence_again(given: i64, step: i64) -> Result<Outcome, Halt>
    ensures row { (all : Extent) (setting : Setting)
        → ComesToAnswer all (sequence_again given step) setting setting result }
    ensures live { (reach : Reach) → IsLiveAnswer reach result }
{
    match add(given, step) {
        Ok(later) => Ok(sequence_from(later, step)),
        Err(why) => Err(Halt::Error(error_number(why), None)),
    }
}

// An integer that was computed, or the error of its operation.
fn integer_outcome(found: Result<i64, Arith>) -> Result<ValueOutcome, Halt>
    ensures { MatchResult found (λ n. result ≡ Ok (ValueOutcome.Gives (Integer n)))
        (λ why. result ≡ Err (Halt.Error (arithmetic_error why) None)) }
{
    match found {
        Ok(n) => Ok(integer(n)),
        Err(why) => Err(Halt::Error(error_number(why), None)),
    }
}

// The number of the error that an operation on integers without a result is.
fn error_number(why: Arith) -> u16
    ensures { result ≡ arithmetic_error why }
{
    match why {
        Arith::DivideByZero => 201,
        Arith::RemainderByZero => 202,
        Arith::Overflow => 203,
    }
}

fn sequence_from(given: i64, step: i64) -> Outcome
    ensures { result ≡ Outcome.Suspends (ValItem (Integer given)) (SequenceRest given step) }
{
    Outcome::Suspends(
        Item::Val(Val::Integer(given)),
        Residual::Sequence { given, step },
    )
}

fn integer(n: i64) -> ValueOutcome
    ensures { result ≡ ValueOutcome.Gives (Integer n) }
{
    ValueOutcome::Gives(Val::Integer(n))
}
