// Operands, as cases write them.
ghost use Rattle.std.specs.Prelude.{IfOk, IfSome, ◌++◌, ◌∷◌, [], ◌≡◌, ◌<◌, length};
ghost use Rattle.std.specs.List.{All};
ghost use Rattle.icn_heap.specs.Extents.{Extent, IsLive, KeepsValues};
ghost use Rattle.icn_heap.specs.Heaps.{extent_of};
ghost use Rattle.icn_vars.specs.Worlds.{IsLiveItem, IsLiveVariable, Reach, reach_of};

use icn_heap::{Full, Heap};
use icn_value::{Item, Root, Val, VarRef};
use icn_vars::World;
use std::alloc::{AllocError, Global};
use test_values::{add, members, plain, text_value};

// A record has at most so many fields.
const MOST_FIELDS: usize = 1 << 16;

/// The values that the fields of a line behind the first are or hold, made in a world. The error is the limit that refuses
/// the charge, or want of memory.
pub fn operands(alloc: Global, w: &mut World, line: &str) -> Result<Vec<Val>, Full>
    ensures { IfOk result (λ vals. All (IsLive (extent_of w.new.heap)) vals.items) }
{
    let mut vals = Vec::new(alloc);
    for field in line.split(' ').skip(1) {
        let val = operand(alloc, w, bare(field.as_bytes()))?;
        add(&mut vals, val)?;
    }
    Ok(vals)
}

// A field without the mark of a variable.
fn bare(field: &[u8]) -> &[u8] {
    match field.split_first() {
        Some((b'$', rest)) => rest,
        Some((b'%', rest)) => behind(behind(rest)),
        _ => field,
    }
}

// A text without its first byte.
fn behind(text: &[u8]) -> &[u8] {
    match text.split_first() {
        Some((_, rest)) => rest,
        None => text,
    }
}

// The value that a field is.
#[tactic(auto, using(icn_vars::proofs::GrowingWorlds::grows))]
fn operand(alloc: Global, w: &mut World, field: &[u8]) -> Result<Val, Full>
    ensures live { IfOk result (IsLive (extent_of w.new.heap)) }
    ensures kept { KeepsValues (extent_of w.old.heap) (extent_of w.new.heap) }
{
    match field.split_first() {
        Some((b'"', rest)) => Ok(text_value(w, front(rest))?),
        Some((b'\'', rest)) => Ok(Val::Chars(members(front(rest)))),
        Some((b'[', rest)) => {
            let items = integers(alloc, front(rest))?;
            w.heap.list_from(&items)
        }
        Some((b'{', rest)) => {
            let items = integers(alloc, front(rest))?;
            w.heap.set_from(&items)
        }
        Some((b'(', rest)) => {
            let items = integers(alloc, front(rest))?;
            if items.len() > MOST_FIELDS {
                return Err(Full::NoMemory);
            }
            w.heap.make_rec(0, &items)
        }
        Some((b'<', rest)) => {
            let key = plain(front(rest));
            table_of(&mut w.heap, key)
        }
        _ => Ok(plain(field)),
    }
}

// A table with one key, whose value is 7.
fn table_of(heap: &mut Heap, key: Val) -> Result<Val, Full>
    requires { (all : Extent) → IsLive all key }
    ensures live { IfOk result (IsLive (extent_of heap.new)) }
    ensures kept { KeepsValues (extent_of heap.old) (extent_of heap.new) }
{
    let table = heap.make_table(Val::Null)?;
    if let Val::Table(id) = table {
        heap.store(id, key, Val::Integer(7))?;
    }
    Ok(table)
}

// A text without its last byte, which closes it.
fn front(text: &[u8]) -> &[u8] {
    match text.split_last() {
        Some((_, front)) => front,
        None => text,
    }
}

// The integers that a text writes, with a comma between each two.
fn integers(alloc: Global, text: &[u8]) -> Result<Vec<Val>, AllocError>
    ensures { (all : Extent) → IfOk result (λ vals. All (IsLive all) vals.items) }
{
    let mut vals = Vec::new(alloc);
    for part in text.split(|byte| *byte == b',') {
        add(&mut vals, plain(part))?;
    }
    Ok(vals)
}

/// The operands of a line: values, or the locals that hold them. `AllocError` is want of memory.
pub fn items_of(alloc: Global, w: &World, line: &str, vals: &[Val]) -> Result<Vec<Item>, AllocError>
    requires { All (IsLive (extent_of w.now.heap)) vals.now }
    ensures { IfOk result (λ items. All (IsLiveItem (reach_of w.now vals.now)) items.items) }
{
    let mut items = Vec::new(alloc);
    for field in line.split(' ').skip(1) {
        let item = item_of(field.as_bytes(), items.len(), vals);
        add_item(&mut items, item)?;
    }
    Ok(items)
}

// The operand that a field is, whose value has this place among the locals.
fn item_of(field: &[u8], place: usize, vals: &[Val]) -> Item
    ensures { (reach : Reach) → reach.locals ≡ length vals.now → All (IsLive reach.extent) vals.now
        → IsLiveItem reach result }
{
    let Some(val) = vals.get(place) else {
        return Item::Val(Val::Null);
    };
    match local(field, place) {
        Some(variable) => Item::Var(variable),
        None => Item::Val(*val),
    }
}

// The local of a field that has the mark of a variable, or the part of it.
fn local(field: &[u8], place: usize) -> Option<VarRef>
    ensures { (reach : Reach) → place < reach.locals → IfSome result (IsLiveVariable reach) }
{
    let root = Root::Local(u32::try_from(place).ok()?);
    match field.split_first() {
        Some((b'$', _)) => Some(VarRef::Whole(root)),
        Some((b'%', rest)) => Some(VarRef::Part {
            root,
            place: digit(rest).max(1),
            len: digit(behind(rest)),
        }),
        _ => None,
    }
}

// The number that the first byte of a text writes.
fn digit(text: &[u8]) -> u64 {
    match text.split_first() {
        Some((byte, _)) => u64::from(byte.saturating_sub(b'0')),
        None => 0,
    }
}

// Adds an item.
fn add_item(items: &mut Vec<Item>, item: Item) -> Result<(), AllocError>
    ensures { IfOk result (λ done. items.new.items ≡ items.old.items ++ item ∷ []) }
{
    items.push(item)?;
    Ok(())
}
