// New structures, as parts of rows.
ghost use Rattle.std.specs.Prelude.{◌≡◌, ◌≤◌, ◌^◌, length, map, replicate, fold, [], IfOk, IfErr};
ghost use Rattle.std.specs.List.{All};
ghost use Rattle.icn_value.specs.declared.val.Val.TheVariants.{List, Set, Table, Rec};
ghost use Rattle.icn_value.specs.Sameness.{with_member};
ghost use Rattle.icn_value.specs.Store.{Outside, list_at, set_at, table_at, record_at};
ghost use Rattle.icn_defs.specs.Operations.{new_set_of};
ghost use Rattle.icn_defs.specs.Rows.{new_list_of};
ghost use Rattle.icn_defs.specs.Structures.{new_table_of, new_record_of};
ghost use Rattle.icn_heap.specs.Extents.{IsLive, value_in};
ghost use Rattle.icn_heap.specs.Heaps.{extent_of, heap_of};
ghost use Rattle.icn_vars.specs.Stops.{IsLiveStop};
ghost use Rattle.icn_vars.specs.Worlds.{KeepsLive, setting_of};
ghost use Rattle.icn_args.specs.RowWords.{IsFound};

use icn_value::Val;
use icn_vars::{Locals, Stop, World};

/// A new list of one value so many times, which are charged. The errors are 307 and want of memory.
#[tactic(auto, using(icn_vars::proofs::GrowingWorlds::grows))]
pub fn filled_list<L: Locals>(w: &mut World, l: &L, count: u64, fill: Val) -> Result<Val, Stop>
    requires locals { All (IsLive (extent_of w.old.heap)) (L.items l.now) }
    requires fill { IsLive (extent_of w.old.heap) fill }
    ensures live { IfOk result (IsLive (extent_of w.new.heap)) }
    ensures stops { IfErr result (IsLiveStop (extent_of w.new.heap)) }
    ensures found { (outside : Outside)
        → IsFound (extent_of w.new.heap)
        (new_list_of (replicate count (value_in (extent_of w.old.heap) fill)))
        (setting_of outside w.old (L.items l.now)) (setting_of outside w.new (L.items l.now))
        (value_in (extent_of w.new.heap)) result }
    ensures kept { KeepsLive w.old (L.items l.now) w.new (L.items l.now) }
{
    Ok(w.heap.make_list(count, fill)?)
}

/// A new set of these values, each of them once, which are charged. The errors are 307 and want of memory.
#[tactic(auto, using(icn_vars::proofs::GrowingWorlds::grows))]
pub fn new_set<L: Locals>(w: &mut World, l: &L, vals: &[Val]) -> Result<Val, Stop>
    requires locals { All (IsLive (extent_of w.old.heap)) (L.items l.now) }
    requires vals { All (IsLive (extent_of w.old.heap)) vals.now }
    ensures live { IfOk result (IsLive (extent_of w.new.heap)) }
    ensures stops { IfErr result (IsLiveStop (extent_of w.new.heap)) }
    ensures found { (outside : Outside) → IsFound (extent_of w.new.heap) (new_set_of (fold with_member []
        (map (value_in (extent_of w.old.heap)) vals.now))) (setting_of outside w.old (L.items l.now))
        (setting_of outside w.new (L.items l.now)) (value_in (extent_of w.new.heap)) result }
    ensures kept { KeepsLive w.old (L.items l.now) w.new (L.items l.now) }
{
    Ok(w.heap.set_from(vals)?)
}

/// A new set of the members of a set, which are charged. The errors are 307 and want of memory.
#[tactic(auto, using(icn_vars::proofs::GrowingWorlds::grows))]
pub fn set_like<L: Locals>(w: &mut World, l: &L, set: u32) -> Result<Val, Stop>
    requires locals { All (IsLive (extent_of w.old.heap)) (L.items l.now) }
    requires set { IsLive (extent_of w.old.heap) (Set set) }
    ensures live { IfOk result (IsLive (extent_of w.new.heap)) }
    ensures stops { IfErr result (IsLiveStop (extent_of w.new.heap)) }
    ensures found { (outside : Outside) → IsFound (extent_of w.new.heap)
        (new_set_of (set_at (heap_of w.old.heap) set)) (setting_of outside w.old (L.items l.now))
        (setting_of outside w.new (L.items l.now)) (value_in (extent_of w.new.heap)) result }
    ensures kept { KeepsLive w.old (L.items l.now) w.new (L.items l.now) }
{
    Ok(w.heap.copy_set(set)?)
}

/// A new table without pairs, which is charged. The errors are 307 and want of memory.
#[tactic(auto, using(icn_vars::proofs::GrowingWorlds::grows))]
pub fn new_table<L: Locals>(w: &mut World, l: &L, default: Val) -> Result<Val, Stop>
    requires locals { All (IsLive (extent_of w.old.heap)) (L.items l.now) }
    requires default { IsLive (extent_of w.old.heap) default }
    ensures live { IfOk result (IsLive (extent_of w.new.heap)) }
    ensures stops { IfErr result (IsLiveStop (extent_of w.new.heap)) }
    ensures found { (outside : Outside) → IsFound (extent_of w.new.heap)
        (new_table_of (record { default = value_in (extent_of w.old.heap) default; pairs = [] }))
        (setting_of outside w.old (L.items l.now)) (setting_of outside w.new (L.items l.now))
        (value_in (extent_of w.new.heap)) result }
    ensures kept { KeepsLive w.old (L.items l.now) w.new (L.items l.now) }
{
    Ok(w.heap.make_table(default)?)
}

/// A new table with the pairs and the default of a table, which are charged. The errors are 307 and want of memory.
#[tactic(auto, using(icn_vars::proofs::GrowingWorlds::grows))]
pub fn table_like<L: Locals>(w: &mut World, l: &L, table: u32) -> Result<Val, Stop>
    requires locals { All (IsLive (extent_of w.old.heap)) (L.items l.now) }
    requires table { IsLive (extent_of w.old.heap) (Table table) }
    ensures live { IfOk result (IsLive (extent_of w.new.heap)) }
    ensures stops { IfErr result (IsLiveStop (extent_of w.new.heap)) }
    ensures found { (outside : Outside) → IsFound (extent_of w.new.heap)
        (new_table_of (table_at (heap_of w.old.heap) table)) (setting_of outside w.old (L.items l.now))
        (setting_of outside w.new (L.items l.now)) (value_in (extent_of w.new.heap)) result }
    ensures kept { KeepsLive w.old (L.items l.now) w.new (L.items l.now) }
{
    Ok(w.heap.copy_table(table)?)
}

/// A new record of this constructor with these fields, at most 2^16, which are charged. The errors are 307 and want of memory.
#[tactic(auto, using(icn_vars::proofs::GrowingWorlds::grows))]
pub fn new_record<L: Locals>(w: &mut World, l: &L, kind: u16, fields: &[Val]) -> Result<Val, Stop>
    requires locals { All (IsLive (extent_of w.old.heap)) (L.items l.now) }
    requires fields { All (IsLive (extent_of w.old.heap)) fields.now }
    requires few { length fields.now ≤ 2 ^ 16 }
    ensures live { IfOk result (IsLive (extent_of w.new.heap)) }
    ensures stops { IfErr result (IsLiveStop (extent_of w.new.heap)) }
    ensures found { (outside : Outside) → IsFound (extent_of w.new.heap)
        (new_record_of (record { kind = kind; fields = map (value_in (extent_of w.old.heap)) fields.now }))
        (setting_of outside w.old (L.items l.now)) (setting_of outside w.new (L.items l.now))
        (value_in (extent_of w.new.heap)) result }
    ensures kept { KeepsLive w.old (L.items l.now) w.new (L.items l.now) }
{
    Ok(w.heap.make_rec(kind, fields)?)
}
