// Rows that make a structure.
ghost use Rattle.std.specs.Prelude.{◌≡◌, map, IfErr, IfOk};
ghost use Rattle.std.specs.List.{All};
ghost use Rattle.icn_value.specs.Store.{Outside};
ghost use Rattle.icn_defs.specs.Structures.{copy_row, list_row, set_row, table_row};
ghost use Rattle.icn_heap.specs.Extents.{IsLive, value_in};
ghost use Rattle.icn_heap.specs.Heaps.{extent_of, heap_of};
ghost use Rattle.icn_vars.specs.Outcomes.{IsLiveAnswer, answer_of};
ghost use Rattle.icn_vars.specs.Worlds.{AreLiveArguments, KeepsLive, reach_of, setting_of};
ghost use Rattle.icn_args.specs.RowWords.{Answers, IsFound};
ghost use Rattle.icn_vars.specs.Stops.{IsLiveStop};
ghost use Rattle.icn_structfn.specs.Copies.{copy_of_value, set_of_value};

use crate::making::{filled_list, new_record, new_set, new_table, set_like, table_like};
use icn_args::{arg, integer_of, natural_of, new_list, value_or};
use icn_value::Val;
use icn_vars::{Halt, Locals, Stop, ValueOutcome, World};

/// `list(i, x)`: a list of so many times one value. The error is 101 about a count that is no integer, 205 about one below
/// 0, or 307 where the limit refuses the charge.
pub fn list<L: Locals>(w: &mut World, l: &L, args: &[Val]) -> Result<ValueOutcome, Halt>
    requires live { AreLiveArguments w.old (L.items l.now) args.now }
    ensures row { Answers w.old (L.items l.now) w.new (L.items l.now)
        (list_row (map (value_in (extent_of w.old.heap)) args.now)) (answer_of result) }
    ensures live { IsLiveAnswer (reach_of w.new (L.items l.now)) (answer_of result) }
    ensures kept { KeepsLive w.old (L.items l.now) w.new (L.items l.now) }
{
    let n = integer_of(&w.heap, value_or(Val::Integer(0), arg(args, 0)))?;
    let count = natural_of(n, arg(args, 0))?;
    let list = filled_list(w, l, count, arg(args, 1))?;
    Ok(ValueOutcome::Gives(list))
}

/// `table(x)`: a table without pairs, with a value for the keys that are not there. The error is 307 where the limit refuses
/// the charge.
pub fn table<L: Locals>(w: &mut World, l: &L, args: &[Val]) -> Result<ValueOutcome, Halt>
    requires live { AreLiveArguments w.old (L.items l.now) args.now }
    ensures row { Answers w.old (L.items l.now) w.new (L.items l.now)
        (table_row (map (value_in (extent_of w.old.heap)) args.now)) (answer_of result) }
    ensures live { IsLiveAnswer (reach_of w.new (L.items l.now)) (answer_of result) }
    ensures kept { KeepsLive w.old (L.items l.now) w.new (L.items l.now) }
{
    let table = new_table(w, l, arg(args, 0))?;
    Ok(ValueOutcome::Gives(table))
}

/// `set(L)`: a set of the elements of a list, or an empty one. The error is 108 about another value, or 307 where the limit
/// refuses the charge.
pub fn set<L: Locals>(w: &mut World, l: &L, args: &[Val]) -> Result<ValueOutcome, Halt>
    requires live { AreLiveArguments w.old (L.items l.now) args.now }
    ensures row { Answers w.old (L.items l.now) w.new (L.items l.now)
        (set_row (map (value_in (extent_of w.old.heap)) args.now)) (answer_of result) }
    ensures live { IsLiveAnswer (reach_of w.new (L.items l.now)) (answer_of result) }
    ensures kept { KeepsLive w.old (L.items l.now) w.new (L.items l.now) }
{
    let set = set_of(w, l, arg(args, 0))?;
    Ok(ValueOutcome::Gives(set))
}

// A set of the elements of a list, or an empty one of null. The error is 108 for other values.
fn set_of<L: Locals>(w: &mut World, l: &L, val: Val) -> Result<Val, Stop>
    requires locals { All (IsLive (extent_of w.old.heap)) (L.items l.now) }
    requires val { IsLive (extent_of w.old.heap) val }
    ensures live { IfOk result (IsLive (extent_of w.new.heap)) }
    ensures stops { IfErr result (IsLiveStop (extent_of w.new.heap)) }
    ensures found { (outside : Outside) → IsFound (extent_of w.new.heap)
        (set_of_value (value_in (extent_of w.old.heap) val)) (setting_of outside w.old (L.items l.now))
        (setting_of outside w.new (L.items l.now)) (value_in (extent_of w.new.heap)) result }
    ensures kept { KeepsLive w.old (L.items l.now) w.new (L.items l.now) }
{
    match val {
        Val::Null => new_set(w, l, &[]),
        Val::List(id) => {
            let items = w.heap.items(id)?;
            new_set(w, l, &items)
        }
        _ => Err(Stop::Error(108, Some(val))),
    }
}

/// `copy(x)`: a structure with the elements of another one, and any other value itself. The error is 307 where the limit
/// refuses the charge.
pub fn copy<L: Locals>(w: &mut World, l: &L, args: &[Val]) -> Result<ValueOutcome, Halt>
    requires live { AreLiveArguments w.old (L.items l.now) args.now }
    ensures row { Answers w.old (L.items l.now) w.new (L.items l.now)
        (copy_row (map (value_in (extent_of w.old.heap)) args.now)) (answer_of result) }
    ensures live { IsLiveAnswer (reach_of w.new (L.items l.now)) (answer_of result) }
    ensures kept { KeepsLive w.old (L.items l.now) w.new (L.items l.now) }
{
    let copy = copy_of(w, l, arg(args, 0))?;
    Ok(ValueOutcome::Gives(copy))
}

// A structure with the elements of another one. Any other value is its own copy.
fn copy_of<L: Locals>(w: &mut World, l: &L, val: Val) -> Result<Val, Stop>
    requires locals { All (IsLive (extent_of w.old.heap)) (L.items l.now) }
    requires val { IsLive (extent_of w.old.heap) val }
    ensures live { IfOk result (IsLive (extent_of w.new.heap)) }
    ensures stops { IfErr result (IsLiveStop (extent_of w.new.heap)) }
    ensures found { (outside : Outside) → IsFound (extent_of w.new.heap)
        (copy_of_value (value_in (extent_of w.old.heap) val)) (setting_of outside w.old (L.items l.now))
        (setting_of outside w.new (L.items l.now)) (value_in (extent_of w.new.heap)) result }
    ensures kept { KeepsLive w.old (L.items l.now) w.new (L.items l.now) }
{
    match val {
        Val::List(id) => {
            let items = w.heap.items(id)?;
            new_list(w, l, &items)
        }
        Val::Set(id) => set_like(w, l, id),
        Val::Table(id) => table_like(w, l, id),
        Val::Rec(id) => {
            let kind = w.heap.kind(id);
            let fields = Vec::from_slice(*w.globals.allocator(), w.heap.fields(id))?;
            new_record(w, l, kind, &fields)
        }
        _ => Ok(val),
    }
}
