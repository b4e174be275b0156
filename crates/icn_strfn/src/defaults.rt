// Arguments that may be null.
ghost use Rattle.std.specs.Prelude.{◌≡◌, codes};
ghost use Rattle.icn_defs.specs.Arguments.{value_or};
ghost use Rattle.icn_defs.specs.Strings.{one};
ghost use Rattle.icn_value.specs.Values.{Chars};
ghost use Rattle.icn_heap.specs.Extents.{Extent, IsLive, value_in};

use icn_value::{Cset, Val};

/// A value, or 1 where it is null.
pub fn or_one(val: Val) -> Val
    ensures value { (all : Extent) → value_in all result ≡ value_or one (value_in all val) }
    ensures live { (all : Extent) → IsLive all val → IsLive all result }
{
    match val {
        Val::Null => Val::Integer(1),
        _ => val,
    }
}

/// A value, or the cset of a blank where it is null.
pub fn or_blank(val: Val) -> Val
    ensures value { (all : Extent) → value_in all result ≡ value_or (Chars (codes " ")) (value_in all val) }
    ensures live { (all : Extent) → IsLive all val → IsLive all result }
{
    match val {
        Val::Null => Val::Chars(Cset::empty().with(b' ')),
        _ => val,
    }
}
