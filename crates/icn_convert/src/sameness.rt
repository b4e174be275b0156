// Whether two values are the same.
ghost use Rattle.std.specs.Prelude.{◌≡◌};
ghost use Rattle.icn_value.specs.Sameness.{same};
ghost use Rattle.icn_heap.specs.Extents.{IsLive, value_in};
ghost use Rattle.icn_heap.specs.Heaps.{extent_of};

use crate::csets::text_of_cset;
use icn_heap::Heap;
use icn_value::Val;

/// Whether two values are the same: of one type, and equal; structures by their identity. It takes no memory.
#[tactic(auto, using(crate::proofs::SameTexts::texts_same, crate::proofs::SameTexts::csets_same))]
pub fn same(heap: &Heap, a: Val, b: Val) -> bool
    requires first { IsLive (extent_of heap.now) a }
    requires second { IsLive (extent_of heap.now) b }
    ensures { result ≡ same (value_in (extent_of heap.now) a) (value_in (extent_of heap.now) b) }
{
    match (a, b) {
        (Val::Null, Val::Null) => true,
        (Val::Integer(a), Val::Integer(b)) => a == b,
        (Val::Text(a), Val::Text(b)) => heap.bytes(a) == heap.bytes(b),
        (Val::Chars(a), Val::Chars(b)) => {
            text_of_cset(&a).as_bytes() == text_of_cset(&b).as_bytes()
        }
        (Val::Std(a), Val::Std(b)) => a == b,
        (Val::Proc(a), Val::Proc(b)) => a == b,
        (Val::Rec(a), Val::Rec(b)) => a == b,
        (Val::List(a), Val::List(b)) => a == b,
        (Val::Set(a), Val::Set(b)) => a == b,
        (Val::Table(a), Val::Table(b)) => a == b,
        (Val::Coexp(a), Val::Coexp(b)) => a == b,
        _ => false,
    }
}
