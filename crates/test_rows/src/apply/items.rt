// The items that a call's words are.
ghost use Rattle.std.specs.Prelude.{◌≡◌, ◌∷◌, ◌++◌, ◌<◌, [], map, IfOk, IfSome};
ghost use Rattle.std.specs.List.{All};
ghost use Rattle.icn_value.specs.Store.{Names as NamesData};
ghost use Rattle.icn_heap.specs.Extents.{Extent, IsLive, value_in};
ghost use Rattle.icn_heap.specs.Heaps.{extent_of};
ghost use Rattle.law_names.specs.NamedSettings.{ItemNamed, ValueNamed, VariableNamed};
ghost use Rattle.icn_vars.specs.Worlds.{IsLiveItem, IsLiveVariable, Reach, item_in, reach_of, variable_in};
ghost use Rattle.test_rows.specs.Ready.{IsReadySetting};

use crate::apply::worlds::value_at;
use icn_convert::Names;
use icn_text::read_integer;
use icn_value::{Item, KeywordVariable, Root, Val, VarRef};
use icn_vars::World;
use std::alloc::{AllocError, Global};
use test_values::Slots;

/// The items of a call's words, whose values are the statics. `AllocError` is want of memory.
pub fn items_of<N: Names>(
    alloc: Global,
    w: &World,
    l: &Slots,
    names: &N,
    words: &str,
) -> Result<Vec<Item>, AllocError>
    requires { IsReadySetting (N.known names.now) w.now l.now.vals.items }
    ensures live { IfOk result (λ items. All (IsLiveItem (reach_of w.now l.now.vals.items)) items.items) }
    ensures named { IfOk result
        (λ items. All (ItemNamed (N.known names.now)) (map (item_in (extent_of w.now.heap)) items.items)) }
{
    let mut items = Vec::new(alloc);
    for word in words.split(' ') {
        let item = item_of(w, l, names, word.as_bytes(), items.len());
        add_item(&mut items, item)?;
    }
    Ok(items)
}

// Adds an item.
fn add_item(items: &mut Vec<Item>, item: Item) -> Result<(), AllocError>
    ensures { IfOk result (λ done. items.new.items ≡ items.old.items ++ item ∷ []) }
{
    items.push(item)?;
    Ok(())
}

// The item of a word: a variable, or the value that the word has.
fn item_of<N: Names>(w: &World, l: &Slots, names: &N, word: &[u8], place: usize) -> Item
    requires { IsReadySetting (N.known names.now) w.now l.now.vals.items }
    ensures live { IsLiveItem (reach_of w.now l.now.vals.items) result }
    ensures named { ItemNamed (N.known names.now) (item_in (extent_of w.now.heap) result) }
{
    match variable(w.globals.len(), l.vals.len(), word) {
        Some(variable) => Item::Var(variable),
        None => Item::Val(word_value(w, l, names, place)),
    }
}

// The value of a word by its place.
fn word_value<N: Names>(w: &World, _l: &Slots, _names: &N, place: usize) -> Val
    requires { IsReadySetting (N.known _names.now) w.now _l.now.vals.items }
    ensures live { IsLive (extent_of w.now.heap) result }
    ensures named { ValueNamed (N.known _names.now) (value_in (extent_of w.now.heap) result) }
{
    value_at(&w.statics, place)
}

// The variable that a word names among so many globals and locals, if it does.
fn variable(globals: usize, locals: usize, word: &[u8]) -> Option<VarRef>
    ensures live { (reach : Reach) → reach.globals ≡ globals → reach.locals ≡ locals
        → IfSome result (IsLiveVariable reach) }
    ensures named { (names : NamesData) (all : Extent)
        → IfSome result (λ variable. VariableNamed names (variable_in all variable)) }
{
    if word == b"&subject".as_slice() {
        return Some(VarRef::Whole(Root::Keyword(KeywordVariable::Subject)));
    }
    match word.split_first() {
        Some((b'@', rest)) => Some(VarRef::Whole(Root::Global(number_below(rest, globals)?))),
        Some((b'#', rest)) => Some(VarRef::Whole(Root::Local(number_below(rest, locals)?))),
        _ => None,
    }
}

// The number that digits write, if it is below a count.
fn number_below(digits: &[u8], count: usize) -> Option<u32>
    ensures { IfSome result (λ number. number < count) }
{
    let number = u32::try_from(read_integer(digits).ok()?).ok()?;
    if (number as usize) < count {
        Some(number)
    } else {
        None
    }
}
