// What values convert to.
ghost use Rattle.std.specs.Prelude.{◌≡◌, IfOk, IfSome, OnErr, MatchResult, Ok};
ghost use Rattle.std.specs.Option.{option_map};
ghost use Rattle.icn_value.specs.Changes.{LimitsFirst, Refuses};
ghost use Rattle.icn_value.specs.Members.{members_of};
ghost use Rattle.icn_defs.specs.Conversions.{integer_of, cset_of, text_of};
ghost use Rattle.icn_heap.specs.Extents.{IsLive, IsText, KeepsValues, text_in, value_in};
ghost use Rattle.icn_heap.specs.Heaps.{extent_of, heap_of};
ghost use Rattle.icn_convert.specs.TextCharges.{MakesNoText, heap_with_text};

use crate::csets::{cset_of_text, text_of_cset};
use icn_heap::Heap;
use icn_text::{decimal, read_integer};
use icn_value::{Cset, Full, Span, Val};

/// The integer that a value is, or that its text writes. `None` comes exactly where there is none. It takes no memory.
pub fn to_integer(heap: &Heap, val: Val) -> Option<i64>
    requires { IsLive (extent_of heap.now) val }
    ensures { result ≡ integer_of (value_in (extent_of heap.now) val) }
{
    match val {
        Val::Integer(n) => Some(n),
        Val::Text(span) => read_integer(heap.bytes(span)).ok(),
        Val::Chars(cset) => read_integer(text_of_cset(&cset).as_bytes()).ok(),
        _ => None,
    }
}

/// The cset that a value is, or that of the bytes of its text. `None` comes exactly where a value has no text. It takes
/// no memory.
pub fn to_cset(heap: &Heap, val: Val) -> Option<Cset>
    requires { IsLive (extent_of heap.now) val }
    ensures { option_map members_of result ≡ cset_of (value_in (extent_of heap.now) val) }
{
    match val {
        Val::Integer(n) => Some(cset_of_text(decimal(n).as_bytes())),
        Val::Text(span) => Some(cset_of_text(heap.bytes(span))),
        Val::Chars(cset) => Some(cset),
        _ => None,
    }
}

/// The text of a value, which is charged where it is made. `None` comes exactly where a value has no text. The error is the
/// limit that refuses the charge, or else want of memory; the heap is then as it was. There is none where no text is made.
pub fn to_text(heap: &mut Heap, val: Val) -> Result<Option<Span>, Full>
    requires { IsLive (extent_of heap.old) val }
    ensures live { IfOk result (λ found. IfSome found (IsText (extent_of heap.new))) }
    ensures text { IfOk result (λ found. option_map (text_in (extent_of heap.new)) found
        ≡ text_of (value_in (extent_of heap.old) val)) }
    ensures step { MatchResult result
        (λ _. heap_with_text (heap_of heap.old) (value_in (extent_of heap.old) val) ≡ Ok (heap_of heap.new))
        (Refuses (heap_with_text (heap_of heap.old) (value_in (extent_of heap.old) val))) }
    ensures limits { LimitsFirst (heap_with_text (heap_of heap.old) (value_in (extent_of heap.old) val))
        result }
    ensures held { MakesNoText (value_in (extent_of heap.old) val) → OnErr result ⊥ }
    ensures kept { KeepsValues (extent_of heap.old) (extent_of heap.new) }
    ensures unchanged { OnErr result (heap_of heap.new ≡ heap_of heap.old) }
{
    match val {
        Val::Integer(n) => {
            let digits = decimal(n);
            Ok(Some(heap.build(digits.as_bytes())?))
        }
        Val::Text(span) => Ok(Some(span)),
        Val::Chars(cset) => {
            let members = text_of_cset(&cset);
            Ok(Some(heap.build(members.as_bytes())?))
        }
        _ => Ok(None),
    }
}
