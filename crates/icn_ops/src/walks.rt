// The elements of a value, from the first on.
ghost use Rattle.std.specs.Prelude.{◌≡◌, None};
ghost use Rattle.std.specs.List.{All};
ghost use Rattle.icn_defs.specs.Arguments.{file_of};
ghost use Rattle.icn_defs.specs.Conversions.{group_of};
ghost use Rattle.icn_defs.specs.Elements.{elements_of, elements_row, text_elements, text_variable};
ghost use Rattle.icn_heap.specs.Extents.{IsLive, value_in};
ghost use Rattle.icn_heap.specs.Heaps.{extent_of};
ghost use Rattle.icn_vars.specs.Outcomes.{IsLiveAnswer};
ghost use Rattle.icn_vars.specs.Worlds.{IsLiveOperand, IsLiveItem, KeepsLive, item_in, reach_of};
ghost use Rattle.icn_args.specs.RowWords.{Answers, HasText, the_text};
ghost use Rattle.icn_streams.specs.Answers.{call_state};
ghost use Rattle.icn_streams.specs.Applies.{Applies};

use crate::elements::{
    list_items_from, record_fields_from, set_members_from, table_values_from, text_bytes_from,
    variable_bytes_from,
};
use crate::parts::text_holder;
use icn_args::text_of;
use icn_streams::Streams;
use icn_value::{Item, Val};
use icn_vars::{Halt, Locals, Outcome, World, deref};

/// `!x`: the first byte, element, member, value, field or line, and then the others. The buffer is room for a line.
///
/// # Errors
///
/// `Error` is 116 about a value that has none of these, 212 about a file that is not open for reading, and 306 where a text that is made or
/// read passes its limit. `ReadFault` where the input failed in this call, `WriteFault` where an output did as it was settled before,
/// `NoMemory` where memory ran out.
pub fn elements_row<L: Locals, S: Streams>(
    w: &mut World,
    l: &L,
    x: Item,
    streams: &mut S,
) -> Result<Outcome, Halt>
    requires live { IsLiveOperand w.old (L.items l.now) x }
    ensures { Applies (elements_row (item_in (extent_of w.old.heap) x)) (call_state w.old (L.items l.now)
        (S.state streams.old))
        (call_state w.new (L.items l.now)
        (S.state streams.new)) result }
{
    let val = deref(w, l, x)?;
    match val {
        Val::Std(file) => streams.lines(file, w, l),
        _ => elements_of(w, l, x, val),
    }
}

// The elements of a value that is no file, which the item has.
#[tactic(auto, using(icn_vars::proofs::KeptItems::keeps_items_refl))]
fn elements_of<L: Locals>(w: &mut World, l: &L, x: Item, val: Val) -> Result<Outcome, Halt>
    requires locals { All (IsLive (extent_of w.old.heap)) (L.items l.now) }
    requires item { IsLiveItem (reach_of w.old (L.items l.now)) x }
    requires val { IsLive (extent_of w.old.heap) val }
    requires no_file { file_of (value_in (extent_of w.old.heap) val) ≡ None }
    ensures row { Answers w.old (L.items l.now) w.new (L.items l.now)
        (elements_of (item_in (extent_of w.old.heap) x) (value_in (extent_of w.old.heap) val)
        (group_of (value_in (extent_of w.old.heap) val))) result }
    ensures live { IsLiveAnswer (reach_of w.new (L.items l.now)) result }
    ensures kept { KeepsLive w.old (L.items l.now) w.new (L.items l.now) }
{
    match val {
        Val::Integer(_) => text_elements(w, l, x, val),
        Val::Text(_) => text_elements(w, l, x, val),
        Val::Chars(_) => text_elements(w, l, x, val),
        Val::List(list) => list_items_from(w, l, list, 0),
        Val::Set(set) => set_members_from(w, l, set, 0),
        Val::Table(table) => table_values_from(w, l, table, 0),
        Val::Rec(rec) => record_fields_from(w, l, rec, 0),
        Val::Std(_) => unreachable!(),
        _ => Err(Halt::Error(116, Some(val))),
    }
}

// The bytes of a text, which are parts of the variable that holds the text, if one does.
#[tactic(auto, using(icn_vars::proofs::KeptItems::keeps_items_refl))]
fn text_elements<L: Locals>(w: &mut World, l: &L, x: Item, val: Val) -> Result<Outcome, Halt>
    requires locals { All (IsLive (extent_of w.old.heap)) (L.items l.now) }
    requires item { IsLiveItem (reach_of w.old (L.items l.now)) x }
    requires val { IsLive (extent_of w.old.heap) val }
    requires has { HasText (value_in (extent_of w.old.heap) val) }
    ensures row { Answers w.old (L.items l.now) w.new (L.items l.now)
        (text_elements (text_variable (item_in (extent_of w.old.heap) x) (value_in (extent_of w.old.heap)
        val)) (value_in (extent_of w.old.heap) val) (the_text (value_in (extent_of w.old.heap) val))) result }
    ensures live { IsLiveAnswer (reach_of w.new (L.items l.now)) result }
    ensures kept { KeepsLive w.old (L.items l.now) w.new (L.items l.now) }
{
    match text_holder(x, val) {
        Some(variable) => variable_bytes_from(w, l, variable, 0),
        None => {
            let text = text_of(w, l, val)?;
            text_bytes_from(w, l, text, 0)
        }
    }
}
