// Assigning to whole variables.
ghost use Rattle.std.specs.Prelude.{◌≡◌, true, IfErr};
ghost use Rattle.std.specs.List.{All};
ghost use Rattle.icn_value.specs.Store.{Outside};
ghost use Rattle.icn_value.specs.declared.val.Val.TheVariants.{List as ListVal, Table as TableVal};
ghost use Rattle.icn_value.specs.Values.{Element, Key};
ghost use Rattle.icn_defs.specs.RowFacts.{root_holds};
ghost use Rattle.icn_defs.specs.ReadAndAssign.{assigns_root};
ghost use Rattle.icn_heap.specs.Extents.{IsLive, value_in};
ghost use Rattle.icn_heap.specs.Heaps.{extent_of};
ghost use Rattle.icn_vars.specs.Assignments.{IsError, RootAssigned, is_in_place};
ghost use Rattle.icn_vars.specs.Stops.{IsLiveStop};
ghost use Rattle.icn_vars.specs.Worlds.{IsLiveRoot, KeepsLive, reach_of, root_in, setting_of};

use crate::keywords::assign_keyword;
use crate::locals::Locals;
use crate::stop::Stop;
use crate::world::World;
use icn_value::{Root, Val};

/// Assigns to a whole variable. `false` comes exactly where `&pos` would be out of range. `Stop` is the error that the
/// assignment comes to, or want of memory; no want of memory where the root is no key of a table and holds the value
/// unconverted.
#[tactic(auto, using(crate::proofs::GrowingWorlds::grows, crate::proofs::GrowingWorlds::locals_grow, crate::proofs::KeptItems::keeps_items_refl))]
pub fn assign_root<L: Locals>(w: &mut World, l: &mut L, root: Root, val: Val) -> Result<bool, Stop>
    requires locals { All (IsLive (extent_of w.old.heap)) (L.items l.old) }
    requires root { IsLiveRoot (reach_of w.old (L.items l.old)) root }
    requires value { IsLive (extent_of w.old.heap) val }
    ensures assigned { (outside : Outside) → RootAssigned (extent_of w.new.heap) (λ refused.
        assigns_root refused (root_in (extent_of w.old.heap) root) (value_in (extent_of w.old.heap) val))
        (setting_of outside w.old (L.items l.old)) (setting_of outside w.new (L.items l.new)) result }
    ensures stops { IfErr result (IsLiveStop (extent_of w.new.heap)) }
    ensures memory { is_in_place (root_in (extent_of w.old.heap) root) ≡ true
        → root_holds (root_in (extent_of w.old.heap) root) (value_in (extent_of w.old.heap) val) ≡ true
        → IfErr result IsError }
    ensures kept { KeepsLive w.old (L.items l.old) w.new (L.items l.new) }
{
    match root {
        Root::Global(place) => {
            w.globals[place as usize] = val;
            Ok(true)
        }
        Root::Static(place) => {
            w.statics[place as usize] = val;
            Ok(true)
        }
        Root::Local(place) => {
            l.set(u64::from(place), val);
            Ok(true)
        }
        Root::Element { list, number } => assign_element(w, l, list, number, val),
        Root::Field { rec, place } => {
            w.heap.set_field(rec, place, val);
            Ok(true)
        }
        Root::Key { table, key } => assign_key(w, l, table, key, val),
        Root::Keyword(word) => assign_keyword(w, l, word, val),
    }
}

// Assigns to the element of a list with this number.
#[tactic(auto, using(crate::proofs::GrowingWorlds::grows, crate::proofs::GrowingWorlds::locals_grow))]
fn assign_element<L: Locals>(
    w: &mut World,
    l: &L,
    list: u32,
    number: i64,
    val: Val,
) -> Result<bool, Stop>
    requires locals { All (IsLive (extent_of w.old.heap)) (L.items l.now) }
    requires list { IsLive (extent_of w.old.heap) (ListVal list) }
    requires value { IsLive (extent_of w.old.heap) val }
    ensures assigned { (outside : Outside) → RootAssigned (extent_of w.new.heap)
        (λ refused. assigns_root refused (Element list number) (value_in (extent_of w.old.heap) val))
        (setting_of outside w.old (L.items l.now)) (setting_of outside w.new (L.items l.now)) result }
    ensures stops { IfErr result (IsLiveStop (extent_of w.new.heap)) }
    ensures memory { IfErr result IsError }
    ensures kept { KeepsLive w.old (L.items l.now) w.new (L.items l.now) }
{
    if w.heap.set_item(list, number, val) {
        Ok(true)
    } else {
        Err(Stop::Error(205, None))
    }
}

// Stores a value at a key of a table.
#[tactic(auto, using(crate::proofs::GrowingWorlds::grows, crate::proofs::GrowingWorlds::locals_grow))]
fn assign_key<L: Locals>(w: &mut World, l: &L, table: u32, key: Val, val: Val) -> Result<bool, Stop>
    requires locals { All (IsLive (extent_of w.old.heap)) (L.items l.now) }
    requires table { IsLive (extent_of w.old.heap) (TableVal table) }
    requires key { IsLive (extent_of w.old.heap) key }
    requires value { IsLive (extent_of w.old.heap) val }
    ensures assigned { (outside : Outside)
        → RootAssigned (extent_of w.new.heap) (λ refused. assigns_root refused
        (Key table (value_in (extent_of w.old.heap) key)) (value_in (extent_of w.old.heap) val))
        (setting_of outside w.old (L.items l.now)) (setting_of outside w.new (L.items l.now)) result }
    ensures stops { IfErr result (IsLiveStop (extent_of w.new.heap)) }
    ensures kept { KeepsLive w.old (L.items l.now) w.new (L.items l.now) }
{
    w.heap.store(table, key, val)?;
    Ok(true)
}
