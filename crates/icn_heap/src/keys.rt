// Values as keys.
use crate::heap::Heap;
use crate::key::{Key, chars_key, text_key};
use icn_value::Val;
use std::alloc::AllocError;

impl Heap {
    ghost use Rattle.std.specs.Prelude.{◌≡◌, false, IfOk, IsOk};
    ghost use Rattle.icn_heap.specs.Extents.{IsLive, value_in};
    ghost use Rattle.icn_heap.specs.Keys.{key_value, IsKey};
    ghost use Rattle.icn_heap.specs.Texts.{is_text};
    ghost use Rattle.icn_heap.specs.Heaps.{extent_of};

    // A value as a key, which holds its bytes. The error is want of memory for a copy of a text.
    pub(crate) fn key_of(&self, val: Val) -> Result<Key, AllocError>
        requires { IsLive (extent_of self.now) val }
        ensures value { IfOk result (λ key. key_value key ≡ value_in (extent_of self.now) val) }
        ensures formed { IfOk result IsKey }
        ensures succeeds { is_text val ≡ false → IsOk result }
    {
        match val {
            Val::Null => Ok(Key::Null),
            Val::Integer(n) => Ok(Key::Integer(n)),
            Val::Text(span) => text_key(self.alloc, self.bytes(span)),
            Val::Chars(cset) => Ok(chars_key(cset)),
            Val::Std(file) => Ok(Key::Std(file)),
            Val::Proc(number) => Ok(Key::Proc(number)),
            Val::Rec(id) => Ok(Key::Rec(id)),
            Val::List(id) => Ok(Key::List(id)),
            Val::Set(id) => Ok(Key::Set(id)),
            Val::Table(id) => Ok(Key::Table(id)),
            Val::Coexp(id) => Ok(Key::Coexp(id)),
        }
    }
}
