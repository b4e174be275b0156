// The variables that a call's words name.
ghost use Rattle.std.specs.Prelude.{◌≡◌, ◌<◌, length, IfSome};
ghost use Rattle.icn_value.specs.Store.{record_at};
ghost use Rattle.icn_value.specs.declared.val.Val.TheVariants.{Rec};
ghost use Rattle.icn_heap.specs.Extents.{IsLive};
ghost use Rattle.icn_heap.specs.Heaps.{extent_of, heap_of};
ghost use Rattle.icn_vars.specs.Worlds.{IsLiveRoot, IsLiveVariable, reach_of};

use crate::variables::worlds::static_at;
use icn_heap::Heap;
use icn_text::read_integer;
use icn_value::{KeywordVariable, Root, Val, VarRef};
use icn_vars::World;
use test_values::{Slots, number, split};

/// The variable that a word names, if it does: what it is rooted in, and where it is a part its place and its length. A
/// value of the table has this key.
pub fn variable(w: &World, l: &Slots, word: &str, key: Val) -> Option<VarRef>
    requires { IsLive (extent_of w.now.heap) key }
    ensures { IfSome result (IsLiveVariable (reach_of w.now l.now.vals.items)) }
{
    let (front, part) = split(word.as_bytes(), b':');
    let (place, len) = split(part, b':');
    match root(w, l, front, key) {
        Some(root) => {
            if part.is_empty() {
                Some(VarRef::Whole(root))
            } else {
                Some(VarRef::Part {
                    root,
                    place: number(place).max(1),
                    len: number(len),
                })
            }
        }
        None => None,
    }
}

fn root(w: &World, l: &Slots, word: &[u8], key: Val) -> Option<Root>
    requires { IsLive (extent_of w.now.heap) key }
    ensures { IfSome result (IsLiveRoot (reach_of w.now l.now.vals.items)) }
{
    match word.split_first() {
        Some((b'g', rest)) => Some(Root::Global(number_below(rest, w.globals.len())?)),
        Some((b's', rest)) => Some(Root::Static(number_below(rest, w.statics.len())?)),
        Some((b'l', rest)) => Some(Root::Local(number_below(rest, l.vals.len())?)),
        Some((b'e', rest)) => element(w, l, rest),
        Some((b'f', rest)) => field(w, l, rest),
        Some((b'k', _)) => at_key(w, l, key),
        Some((b'&', rest)) => Some(Root::Keyword(keyword(rest)?)),
        _ => None,
    }
}

// An element of the list by its number.
fn element(w: &World, _l: &Slots, digits: &[u8]) -> Option<Root>
    ensures { IfSome result (IsLiveRoot (reach_of w.now _l.now.vals.items)) }
{
    let number = read_integer(digits).ok()?;
    match static_at(w, 1) {
        Val::List(list) => Some(Root::Element { list, number }),
        _ => None,
    }
}

// A field of the record by its place from 0 on.
fn field(w: &World, l: &Slots, digits: &[u8]) -> Option<Root>
    ensures { IfSome result (IsLiveRoot (reach_of w.now l.now.vals.items)) }
{
    let place = u16::try_from(read_integer(digits).ok()?).ok()?;
    match static_at(w, 2) {
        Val::Rec(rec) => {
            if u64::from(place) < field_count(&w.heap, rec) {
                Some(field_of(w, l, rec, place))
            } else {
                None
            }
        }
        _ => None,
    }
}

fn field_count(heap: &Heap, rec: u32) -> u64
    requires { IsLive (extent_of heap.now) (Rec rec) }
    ensures { result ≡ length (record_at (heap_of heap.now) rec).fields }
{
    heap.fields(rec).len() as u64
}

fn field_of(w: &World, _l: &Slots, rec: u32, place: u16) -> Root
    requires rec { IsLive (extent_of w.now.heap) (Rec rec) }
    requires there { place < length (record_at (heap_of w.now.heap) rec).fields }
    ensures { IsLiveRoot (reach_of w.now _l.now.vals.items) result }
{
    let _heap = &w.heap;
    Root::Field { rec, place }
}

// The value of the table at a key.
fn at_key(w: &World, _l: &Slots, key: Val) -> Option<Root>
    requires { IsLive (extent_of w.now.heap) key }
    ensures { IfSome result (IsLiveRoot (reach_of w.now _l.now.vals.items)) }
{
    match static_at(w, 3) {
        Val::Table(table) => Some(Root::Key { table, key }),
        _ => None,
    }
}

fn keyword(name: &[u8]) -> Option<KeywordVariable> {
    if name == b"subject".as_slice() {
        Some(KeywordVariable::Subject)
    } else if name == b"pos".as_slice() {
        Some(KeywordVariable::Position)
    } else if name == b"random".as_slice() {
        Some(KeywordVariable::Random)
    } else if name == b"error".as_slice() {
        Some(KeywordVariable::ErrorCount)
    } else {
        None
    }
}

// The number that digits write, if it is below a count.
fn number_below(digits: &[u8], count: usize) -> Option<u32>
    ensures { IfSome result (λ number. number < count) }
{
    let number = u32::try_from(read_integer(digits).ok()?).ok()?;
    if (number as usize) < count {
        Some(number)
    } else {
        None
    }
}
