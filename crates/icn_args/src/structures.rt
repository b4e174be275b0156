// Structures that are made, and charged.
ghost use Rattle.std.specs.Prelude.{map, IfErr, IfOk};
ghost use Rattle.std.specs.List.{All};
ghost use Rattle.icn_value.specs.Store.{Outside};
ghost use Rattle.icn_defs.specs.Rows.{new_list_of};
ghost use Rattle.icn_heap.specs.Extents.{IsLive, value_in};
ghost use Rattle.icn_heap.specs.Heaps.{extent_of};
ghost use Rattle.icn_vars.specs.Stops.{IsLiveStop};
ghost use Rattle.icn_vars.specs.Worlds.{KeepsLive, setting_of};
ghost use Rattle.icn_args.specs.RowWords.{IsFound};

use icn_value::Val;
use icn_vars::{Locals, Stop, World};

/// A new list of these items, which is charged. The errors are 307 and want of memory.
#[tactic(auto, using(icn_vars::proofs::GrowingWorlds::grows))]
pub fn new_list<L: Locals>(w: &mut World, l: &L, items: &[Val]) -> Result<Val, Stop>
    requires locals { All (IsLive (extent_of w.old.heap)) (L.items l.now) }
    requires items { All (IsLive (extent_of w.old.heap)) items.now }
    ensures live { IfOk result (IsLive (extent_of w.new.heap)) }
    ensures stops { IfErr result (IsLiveStop (extent_of w.new.heap)) }
    ensures found { (outside : Outside)
        → IsFound (extent_of w.new.heap) (new_list_of (map (value_in (extent_of w.old.heap)) items.now))
        (setting_of outside w.old (L.items l.now)) (setting_of outside w.new (L.items l.now))
        (value_in (extent_of w.new.heap)) result }
    ensures kept { KeepsLive w.old (L.items l.now) w.new (L.items l.now) }
{
    Ok(w.heap.list_from(items)?)
}
