// Reading variables.
ghost use Rattle.std.specs.Prelude.{◌≡◌, ◌+◌, ◌-◌, ◌≤◌, length, [], List, IfErr, IfOk, IfSome, OnOk, MatchResult, Some, pos};
ghost use Rattle.std.specs.List.{All};
ghost use Rattle.std.specs.Option.{option_map};
ghost use Rattle.icn_structs.specs.Numbered.{item_numbered};
ghost use Rattle.icn_value.specs.Store.{Outside, list_at, bare_outside, table_at};
ghost use Rattle.icn_value.specs.declared.val.Val.{Val};
ghost use Rattle.icn_value.specs.declared.val.Val.TheVariants.{Integer as IntegerVal, List as ListVal, Table as TableVal};
ghost use Rattle.icn_vars.specs.declared.stop.Stop.TheVariants.{NoMemory};
ghost use Rattle.icn_defs.specs.Calls.{GoesOn};
ghost use Rattle.icn_defs.specs.ReadAndAssign.{keyword_value, reads, reads_text, root_value, table_value, the_value};
ghost use Rattle.icn_heap.specs.Extents.{IsLive, IsText, text_in, value_in};
ghost use Rattle.icn_heap.specs.Heaps.{extent_of, heap_of};
ghost use Rattle.icn_vars.specs.FoundValues.{IsGone};
ghost use Rattle.icn_vars.specs.Stops.{IsLiveStop, StopsFinding};
ghost use Rattle.icn_vars.specs.Worlds.{IsLiveItem, IsLiveRoot, IsLiveVariable, IsShort, IsShortItem, item_in, reach_of, root_in, setting_of, variable_in, word_of};

use crate::locals::Locals;
use crate::stop::Stop;
use crate::world::World;
use icn_heap::short_text;
use icn_value::{Item, KeywordVariable, Root, Span, Val, VarRef};

/// The value of an item. `Error` is 205 where a list element is gone or a part lies beyond its text, and 103, with what the
/// variable holds, where a part is of no text. Only the value of a key of a table may want memory.
pub fn deref<L: Locals>(w: &World, l: &L, item: Item) -> Result<Val, Stop>
    requires locals { All (IsLive (extent_of w.now.heap)) (L.items l.now) }
    requires live { IsLiveItem (reach_of w.now (L.items l.now)) item }
    ensures live { IfOk result (IsLive (extent_of w.now.heap)) }
    ensures stops { IfErr result (IsLiveStop (extent_of w.now.heap)) }
    ensures short { OnOk result (IsShortItem item) }
    ensures value { (outside : Outside) → MatchResult result (λ val.
        GoesOn (the_value (item_in (extent_of w.now.heap) item)) (setting_of outside w.now (L.items l.now))
        (value_in (extent_of w.now.heap) val) (setting_of outside w.now (L.items l.now)))
        (StopsFinding (extent_of w.now.heap) (the_value (item_in (extent_of w.now.heap) item))
        (setting_of outside w.now (L.items l.now)) (setting_of outside w.now (L.items l.now))) }
{
    match item {
        Item::Val(val) => Ok(val),
        Item::Var(variable) => read(w, l, variable),
    }
}

// The value of a variable.
fn read<L: Locals>(w: &World, l: &L, variable: VarRef) -> Result<Val, Stop>
    requires locals { All (IsLive (extent_of w.now.heap)) (L.items l.now) }
    requires live { IsLiveVariable (reach_of w.now (L.items l.now)) variable }
    ensures live { IfOk result (IsLive (extent_of w.now.heap)) }
    ensures stops { IfErr result (IsLiveStop (extent_of w.now.heap)) }
    ensures short { OnOk result (IsShort variable) }
    ensures value { (outside : Outside) → MatchResult result
        (λ val. GoesOn (reads (variable_in (extent_of w.now.heap) variable)) (setting_of outside w.now
        (L.items l.now)) (value_in (extent_of w.now.heap) val) (setting_of outside w.now (L.items l.now)))
        (StopsFinding (extent_of w.now.heap) (reads (variable_in (extent_of w.now.heap) variable))
        (setting_of outside w.now (L.items l.now)) (setting_of outside w.now (L.items l.now))) }
{
    match variable {
        VarRef::Whole(root) => read_root(w, l, root),
        VarRef::Part { root, place, len } => {
            let text = read_text(w, l, root, place, len)?;
            short_text(&w.heap, text);
            Ok(Val::Text(w.heap.part(text, place - 1, len)))
        }
    }
}

/// The text that a part is of, which reaches to the part's end. The error is 205 where the list element is gone or the text
/// ends before the part does, 103 where the value is no text; `NoMemory` is want of memory for the copy of a key.
pub fn read_text<L: Locals>(
    w: &World,
    l: &L,
    root: Root,
    place: u64,
    len: u64,
) -> Result<Span, Stop>
    requires locals { All (IsLive (extent_of w.now.heap)) (L.items l.now) }
    requires live { IsLiveRoot (reach_of w.now (L.items l.now)) root }
    requires place { 1 ≤ place }
    ensures live { IfOk result (IsText (extent_of w.now.heap)) }
    ensures stops { IfErr result (IsLiveStop (extent_of w.now.heap)) }
    ensures within { IfOk result (λ text. place - 1 + len ≤ length (text_in (extent_of w.now.heap) text)) }
    ensures value { (outside : Outside) → MatchResult result
        (λ text. GoesOn (reads_text (root_in (extent_of w.now.heap) root) place len) (setting_of outside w.now
        (L.items l.now)) (text_in (extent_of w.now.heap) text) (setting_of outside w.now (L.items l.now)))
        (StopsFinding (extent_of w.now.heap) (reads_text (root_in (extent_of w.now.heap) root) place len)
        (setting_of outside w.now (L.items l.now)) (setting_of outside w.now (L.items l.now))) }
{
    match read_root(w, l, root)? {
        Val::Text(text) => {
            let size = w.heap.bytes(text).len() as u64;
            if place - 1 <= size && len <= size - (place - 1) {
                Ok(text)
            } else {
                Err(Stop::Error(205, None))
            }
        }
        val => Err(Stop::Error(103, Some(val))),
    }
}

/// The value of a whole variable. `Error` comes exactly where a list element is gone, and is 205. `NoMemory` is want of
/// memory for the copy of a key.
pub fn read_root<L: Locals>(w: &World, l: &L, root: Root) -> Result<Val, Stop>
    requires locals { All (IsLive (extent_of w.now.heap)) (L.items l.now) }
    requires live { IsLiveRoot (reach_of w.now (L.items l.now)) root }
    ensures live { IfOk result (IsLive (extent_of w.now.heap)) }
    ensures stops { IfErr result (IsLiveStop (extent_of w.now.heap)) }
    ensures value { MatchResult result (λ val. root_value (setting_of bare_outside w.now (L.items l.now))
        (root_in (extent_of w.now.heap) root) ≡ Some (value_in (extent_of w.now.heap) val))
        (IsGone (root_value (setting_of bare_outside w.now (L.items l.now))
        (root_in (extent_of w.now.heap) root))) }
{
    match root {
        Root::Global(place) => Ok(w.globals[place as usize]),
        Root::Static(place) => Ok(w.statics[place as usize]),
        Root::Local(place) => Ok(l.get(u64::from(place))),
        Root::Element { list, number } => element(w, list, number).ok_or(Stop::Error(205, None)),
        Root::Field { rec, place } => Ok(w.heap.field(rec, place)),
        Root::Key { table, key } => read_key(w, table, key),
        Root::Keyword(word) => Ok(read_keyword(w, word)),
    }
}

// The element of a list with this number.
#[tactic(auto, using(crate::proofs::ReadValues::element_read, crate::proofs::ReadValues::element_live))]
fn element(w: &World, list: u32, number: i64) -> Option<Val>
    requires { IsLive (extent_of w.now.heap) (ListVal list) }
    ensures item { option_map (value_in (extent_of w.now.heap)) result
        ≡ item_numbered (list_at (heap_of w.now.heap) list) number }
    ensures live { IfSome result (IsLive (extent_of w.now.heap)) }
{
    w.heap.list(list).by_number(number)
}

// The value at a key of a table.
fn read_key(w: &World, table: u32, key: Val) -> Result<Val, Stop>
    requires table { IsLive (extent_of w.now.heap) (TableVal table) }
    requires key { IsLive (extent_of w.now.heap) key }
    ensures live { IfOk result (IsLive (extent_of w.now.heap)) }
    ensures value { MatchResult result (λ val. value_in (extent_of w.now.heap) val
        ≡ table_value (table_at (heap_of w.now.heap) table) (value_in (extent_of w.now.heap) key))
        (λ stop. stop ≡ NoMemory) }
{
    match w.heap.look(table, key)? {
        Some(val) => Ok(val),
        None => Ok(w.heap.default(table)),
    }
}

// The value of a keyword.
fn read_keyword(w: &World, word: KeywordVariable) -> Val
    ensures live { IsLive (extent_of w.now.heap) result }
    ensures value { (outside : Outside) (locals : List Val) → value_in (extent_of w.now.heap) result
        ≡ keyword_value (setting_of outside w.now locals) (word_of word) }
{
    match word {
        KeywordVariable::Subject => Val::Text(w.pair.subject),
        KeywordVariable::Position => position(w),
        KeywordVariable::Random => Val::Integer(i64::from(w.words.random)),
        KeywordVariable::ErrorCount => Val::Integer(w.words.error),
    }
}

// `&pos`.
fn position(w: &World) -> Val
    ensures { result ≡ IntegerVal (pos w.now.pair.position) }
{
    short_text(&w.heap, w.pair.subject);
    Val::Integer(w.pair.position as i64)
}
