// What stands for arguments that are null.
ghost use Rattle.std.specs.Prelude.{◌≡◌, pos, true, codes, if◌then◌else◌};
ghost use Rattle.icn_value.specs.Values.{Chars, Integer};
ghost use Rattle.icn_value.specs.Members.{members};
ghost use Rattle.icn_defs.specs.Arguments.{value_or};
ghost use Rattle.icn_defs.specs.Conversions.{is_null};
ghost use Rattle.icn_heap.specs.Extents.{Extent, IsLive, value_in};

use icn_heap::short_text;
use icn_value::{Cset, Val};
use icn_vars::World;

/// The first position in a text: `&pos` where that text is null, else 1.
pub fn first_position(w: &World, text: Val) -> Val
    ensures value { (all : Extent) → value_in all result
        ≡ Integer (pos (if is_null (value_in all text) then w.now.pair.position else 1)) }
    ensures live { (all : Extent) → IsLive all result }
{
    short_text(&w.heap, w.pair.subject);
    match text {
        Val::Null => Val::Integer(w.pair.position as i64),
        _ => Val::Integer(1),
    }
}

/// A value, or the cset of all bytes where it is null.
pub fn or_all_bytes(val: Val) -> Val
    ensures value { (all : Extent)
        → value_in all result ≡ value_or (Chars (members (λ byte. true))) (value_in all val) }
    ensures live { (all : Extent) → IsLive all val → IsLive all result }
{
    match val {
        Val::Null => Val::Chars(Cset::empty().other()),
        _ => val,
    }
}

/// A value, or the cset of the bracket that opens where it is null.
pub fn or_opening(val: Val) -> Val
    ensures value { (all : Extent) → value_in all result ≡ value_or (Chars (codes "(")) (value_in all val) }
    ensures live { (all : Extent) → IsLive all val → IsLive all result }
{
    match val {
        Val::Null => Val::Chars(Cset::empty().with(b'(')),
        _ => val,
    }
}

/// A value, or the cset of the bracket that closes where it is null.
pub fn or_closing(val: Val) -> Val
    ensures value { (all : Extent) → value_in all result ≡ value_or (Chars (codes ")")) (value_in all val) }
    ensures live { (all : Extent) → IsLive all val → IsLive all result }
{
    match val {
        Val::Null => Val::Chars(Cset::empty().with(b')')),
        _ => val,
    }
}
