// Arguments by conversion.
ghost use Rattle.std.specs.Prelude.{◌≡◌, ℤ, ℕ, IfErr, OnOk};
ghost use Rattle.icn_value.specs.Members.{members_of};
ghost use Rattle.icn_value.specs.Store.{Setting};
ghost use Rattle.icn_value.specs.Values.{Value};
ghost use Rattle.icn_defs.specs.Arguments.{cset, integer, number, string};
ghost use Rattle.icn_defs.specs.Rows.{number_or_error, natural};
ghost use Rattle.icn_heap.specs.Extents.{Extent, IsLive, value_in};
ghost use Rattle.icn_heap.specs.Heaps.{extent_of};
ghost use Rattle.icn_args.specs.RowWords.{IsFound, HasText, the_text};
ghost use Rattle.icn_vars.specs.Stops.{IsLiveStop};

use icn_convert::{to_cset, to_integer};
use icn_heap::Heap;
use icn_text::Arith;
use icn_value::{Cset, Val};
use icn_vars::Stop;

/// The integer that a value is or converts to. The error is 101 about the value. It takes no memory.
pub fn integer_of(heap: &Heap, val: Val) -> Result<i64, Stop>
    requires { IsLive (extent_of heap.now) val }
    ensures found { (setting : Setting) → IsFound (extent_of heap.now)
        (integer (value_in (extent_of heap.now) val)) setting setting (λ (n : ℤ). n) result }
    ensures stops { IfErr result (IsLiveStop (extent_of heap.now)) }
{
    to_integer(heap, val).ok_or(Stop::Error(101, Some(val)))
}

/// The integer that a value is or converts to, as arithmetic wants it. The error is 102 about the value. It takes no memory.
pub fn number_of(heap: &Heap, val: Val) -> Result<i64, Stop>
    requires { IsLive (extent_of heap.now) val }
    ensures found { (setting : Setting) → IsFound (extent_of heap.now)
        (number (value_in (extent_of heap.now) val)) setting setting (λ (n : ℤ). n) result }
    ensures stops { IfErr result (IsLiveStop (extent_of heap.now)) }
{
    to_integer(heap, val).ok_or(Stop::Error(102, Some(val)))
}

/// The cset that a value is or converts to. The error is 104 about the value. It takes no memory.
pub fn cset_of(heap: &Heap, val: Val) -> Result<Cset, Stop>
    requires { IsLive (extent_of heap.now) val }
    ensures found { (setting : Setting) → IsFound (extent_of heap.now)
        (cset (value_in (extent_of heap.now) val)) setting setting members_of result }
    ensures stops { IfErr result (IsLiveStop (extent_of heap.now)) }
{
    to_cset(heap, val).ok_or(Stop::Error(104, Some(val)))
}

/// That a value is or converts to a text. The error is 103 about the value. Nothing is made or charged yet: `text_of` does that,
/// after all checks.
pub fn check_text(val: Val) -> Result<(), Stop>
    ensures found { (all : Extent) (setting : Setting)
        → IsFound all (string (value_in all val)) setting setting
        (λ done. the_text (value_in all val)) result }
    ensures stops { (all : Extent) → IsLive all val → IfErr result (IsLiveStop all) }
    ensures has { (all : Extent) → OnOk result (HasText (value_in all val)) }
{
    match val {
        Val::Integer(_) | Val::Text(_) | Val::Chars(_) => Ok(()),
        _ => Err(Stop::Error(103, Some(val))),
    }
}

/// An integer at or above 0. The error is 205 about the value that it comes from.
pub fn natural_of(n: i64, val: Val) -> Result<u64, Stop>
    ensures found { (all : Extent) (setting : Setting)
        → IsFound all (natural n (value_in all val)) setting setting (λ n. n) result }
    ensures stops { (all : Extent) → IsLive all val → IfErr result (IsLiveStop all) }
{
    u64::try_from(n).map_err(|_| Stop::Error(205, Some(val)))
}

/// What an operation on integers gives. Where it gives nothing, the error is 201 for a division by zero, 202 for a remainder
/// by zero, 203 for an overflow.
pub fn arith_result(given: Result<i64, Arith>) -> Result<i64, Stop>
    ensures found { (all : Extent) (setting : Setting)
        → IsFound all (number_or_error given) setting setting (λ (n : ℤ). n) result }
    ensures stops { (all : Extent) → IfErr result (IsLiveStop all) }
{
    match given {
        Ok(n) => Ok(n),
        Err(Arith::DivideByZero) => Err(Stop::Error(201, None)),
        Err(Arith::RemainderByZero) => Err(Stop::Error(202, None)),
        Err(Arith::Overflow) => Err(Stop::Error(203, None)),
    }
}
