// Sorted lists of what structures hold.
ghost use Rattle.std.specs.Prelude.{◌≡◌, ◌++◌, ◌∷◌, [], map, IfErr, IfOk};
ghost use Rattle.std.specs.List.{All};
ghost use Rattle.icn_value.specs.Store.{Outside};
ghost use Rattle.icn_value.specs.Sameness.{same};
ghost use Rattle.icn_defs.specs.Conversions.{sort_list};
ghost use Rattle.icn_defs.specs.Images.{value_cmp};
ghost use Rattle.icn_defs.specs.Rows.{new_list_of};
ghost use Rattle.icn_defs.specs.Structures.{pair_lists, sort_row};
ghost use Rattle.icn_structs.specs.PairLists.{KeysDiffer};
ghost use Rattle.icn_heap.specs.Extents.{AreLive, Extent, IsLive, value_in, values_in};
ghost use Rattle.icn_heap.specs.Heaps.{extent_of, heap_of};
ghost use Rattle.law_names.specs.NamedSettings.{HeapNamed, PairNamed, ValueNamed};
ghost use Rattle.icn_vars.specs.Outcomes.{IsLiveAnswer, answer_of};
ghost use Rattle.icn_vars.specs.Stops.{IsLiveStop};
ghost use Rattle.icn_vars.specs.Worlds.{AreLiveArguments, KeepsLive, reach_of, setting_of};
ghost use Rattle.icn_args.specs.RowWords.{Answers, IsFound};
ghost use Rattle.icn_structfn.specs.Sorting.{in_turn, list_of_pairs, order_of, sorted_pairs, sorted_value};

use crate::ordering::{by_entry, by_key, in_order};
use icn_args::{arg, integer_of, new_list, value_or};
use icn_convert::Names;
use icn_heap::keys_differ;
use icn_value::Val;
use icn_vars::{Halt, Locals, Stop, ValueOutcome, World};
use std::alloc::{AllocError, Global};

/// `sort(x, i)`: a list of what a structure holds, in order. A table's pairs are ordered by key where `i` is 1 or 3, and by value and then by key where
/// it is 2 or 4; 1 and 2 give a list of lists of two, 3 and 4 keys and values in turn. The errors are 101, 115 for other values, 205 for another `i`
/// of a table, 307 and want of memory.
pub fn sort<L: Locals, N: Names>(
    w: &mut World,
    l: &L,
    names: &N,
    args: &[Val],
) -> Result<ValueOutcome, Halt>
    requires live { AreLiveArguments w.old (L.items l.now) args.now }
    requires named { HeapNamed (N.known names.now) (heap_of w.old.heap) }
    ensures row { Answers w.old (L.items l.now) w.new (L.items l.now)
        (sort_row (N.known names.now) (map (value_in (extent_of w.old.heap)) args.now)) (answer_of result) }
    ensures live { IsLiveAnswer (reach_of w.new (L.items l.now)) (answer_of result) }
    ensures kept { KeepsLive w.old (L.items l.now) w.new (L.items l.now) }
{
    let n = integer_of(&w.heap, value_or(Val::Integer(1), arg(args, 1)))?;
    let list = sorted_list(w, l, names, arg(args, 0), n, arg(args, 1))?;
    Ok(ValueOutcome::Gives(list))
}

// A list of what a structure holds, in order.
fn sorted_list<L: Locals, N: Names>(
    w: &mut World,
    l: &L,
    names: &N,
    val: Val,
    n: i64,
    chosen: Val,
) -> Result<Val, Stop>
    requires locals { All (IsLive (extent_of w.old.heap)) (L.items l.now) }
    requires val { IsLive (extent_of w.old.heap) val }
    requires chosen { IsLive (extent_of w.old.heap) chosen }
    requires named { HeapNamed (N.known names.now) (heap_of w.old.heap) }
    ensures live { IfOk result (IsLive (extent_of w.new.heap)) }
    ensures stops { IfErr result (IsLiveStop (extent_of w.new.heap)) }
    ensures found { (outside : Outside) → IsFound (extent_of w.new.heap) (sorted_value (N.known names.now) n
        (value_in (extent_of w.old.heap) chosen) (value_in (extent_of w.old.heap) val))
        (setting_of outside w.old (L.items l.now)) (setting_of outside w.new (L.items l.now))
        (value_in (extent_of w.new.heap)) result }
    ensures kept { KeepsLive w.old (L.items l.now) w.new (L.items l.now) }
{
    match val {
        Val::List(id) => {
            let items = w.heap.items(id)?;
            list_in_order(w, l, names, &items)
        }
        Val::Set(id) => {
            let members = w.heap.members(id)?;
            list_in_order(w, l, names, &members)
        }
        Val::Table(id) => {
            let pairs = w.heap.pairs(id)?;
            keys_differ(&w.heap, id);
            sorted_table(w, l, names, &pairs, table_order(n), chosen)
        }
        Val::Rec(id) => {
            let fields = Vec::from_slice(*w.globals.allocator(), w.heap.fields(id))?;
            list_in_order(w, l, names, &fields)
        }
        _ => Err(Stop::Error(115, Some(val))),
    }
}

// A list of values, in order.
fn list_in_order<L: Locals, N: Names>(
    w: &mut World,
    l: &L,
    names: &N,
    vals: &[Val],
) -> Result<Val, Stop>
    requires locals { All (IsLive (extent_of w.old.heap)) (L.items l.now) }
    requires vals { All (IsLive (extent_of w.old.heap)) vals.now }
    requires vals_named { All (ValueNamed (N.known names.now))
        (map (value_in (extent_of w.old.heap)) vals.now) }
    requires named { HeapNamed (N.known names.now) (heap_of w.old.heap) }
    ensures live { IfOk result (IsLive (extent_of w.new.heap)) }
    ensures stops { IfErr result (IsLiveStop (extent_of w.new.heap)) }
    ensures found { (outside : Outside) → IsFound (extent_of w.new.heap)
        (new_list_of (sort_list (value_cmp (N.known names.now) (heap_of w.old.heap))
        (map (value_in (extent_of w.old.heap)) vals.now))) (setting_of outside w.old (L.items l.now))
        (setting_of outside w.new (L.items l.now)) (value_in (extent_of w.new.heap)) result }
    ensures kept { KeepsLive w.old (L.items l.now) w.new (L.items l.now) }
{
    let sorted = in_order(*w.globals.allocator(), &w.heap, names, vals)?;
    new_list(w, l, &sorted)
}

// What a number asks of a sorted table.
#[derive(Clone, Copy)]
enum TableOrder {
    // Lists of two by key.
    ListsByKey,
    // Lists of two by value.
    ListsByValue,
    // Keys and values in turn, by key.
    TurnByKey,
    // Keys and values in turn, by value.
    TurnByValue,
    // It is none of these.
    Unknown,
}

fn table_order(n: i64) -> TableOrder
    ensures { result ≡ order_of n }
{
    match n {
        1 => TableOrder::ListsByKey,
        2 => TableOrder::ListsByValue,
        3 => TableOrder::TurnByKey,
        4 => TableOrder::TurnByValue,
        _ => TableOrder::Unknown,
    }
}

// A list of the pairs of a table, in an order.
fn sorted_table<L: Locals, N: Names>(
    w: &mut World,
    l: &L,
    names: &N,
    pairs: &[(Val, Val)],
    order: TableOrder,
    chosen: Val,
) -> Result<Val, Stop>
    requires locals { All (IsLive (extent_of w.old.heap)) (L.items l.now) }
    requires pairs { All (AreLive (extent_of w.old.heap)) pairs.now }
    requires differ { KeysDiffer same (map (values_in (extent_of w.old.heap)) pairs.now) }
    requires chosen { IsLive (extent_of w.old.heap) chosen }
    requires pairs_named { All (PairNamed (N.known names.now))
        (map (values_in (extent_of w.old.heap)) pairs.now) }
    requires named { HeapNamed (N.known names.now) (heap_of w.old.heap) }
    ensures live { IfOk result (IsLive (extent_of w.new.heap)) }
    ensures stops { IfErr result (IsLiveStop (extent_of w.new.heap)) }
    ensures found { (outside : Outside)
        → IsFound (extent_of w.new.heap) (sorted_pairs (N.known names.now) (heap_of w.old.heap)
        (map (values_in (extent_of w.old.heap)) pairs.now) order (value_in (extent_of w.old.heap) chosen))
        (setting_of outside w.old (L.items l.now)) (setting_of outside w.new (L.items l.now))
        (value_in (extent_of w.new.heap)) result }
    ensures kept { KeepsLive w.old (L.items l.now) w.new (L.items l.now) }
{
    let alloc = *w.globals.allocator();
    match order {
        TableOrder::ListsByKey => {
            let sorted = by_key(alloc, &w.heap, names, pairs)?;
            list_of_lists(w, l, &sorted)
        }
        TableOrder::ListsByValue => {
            let sorted = by_entry(alloc, &w.heap, names, pairs)?;
            list_of_lists(w, l, &sorted)
        }
        TableOrder::TurnByKey => {
            let sorted = by_key(alloc, &w.heap, names, pairs)?;
            list_in_turn(w, l, &sorted)
        }
        TableOrder::TurnByValue => {
            let sorted = by_entry(alloc, &w.heap, names, pairs)?;
            list_in_turn(w, l, &sorted)
        }
        TableOrder::Unknown => Err(Stop::Error(205, Some(chosen))),
    }
}

// A list of a list of two for each pair.
fn list_of_lists<L: Locals>(w: &mut World, l: &L, pairs: &[(Val, Val)]) -> Result<Val, Stop>
    requires locals { All (IsLive (extent_of w.old.heap)) (L.items l.now) }
    requires pairs { All (AreLive (extent_of w.old.heap)) pairs.now }
    ensures live { IfOk result (IsLive (extent_of w.new.heap)) }
    ensures stops { IfErr result (IsLiveStop (extent_of w.new.heap)) }
    ensures found { (outside : Outside)
        → IsFound (extent_of w.new.heap) (list_of_pairs (map (values_in (extent_of w.old.heap)) pairs.now))
        (setting_of outside w.old (L.items l.now)) (setting_of outside w.new (L.items l.now))
        (value_in (extent_of w.new.heap)) result }
    ensures kept { KeepsLive w.old (L.items l.now) w.new (L.items l.now) }
{
    let lists = lists_of(w, l, pairs)?;
    new_list(w, l, &lists)
}

// A list of two for each pair, each of which is charged by itself.
fn lists_of<L: Locals>(w: &mut World, l: &L, pairs: &[(Val, Val)]) -> Result<Vec<Val>, Stop>
    requires locals { All (IsLive (extent_of w.old.heap)) (L.items l.now) }
    requires pairs { All (AreLive (extent_of w.old.heap)) pairs.now }
    ensures live { IfOk result (λ lists. All (IsLive (extent_of w.new.heap)) lists.items) }
    ensures stops { IfErr result (IsLiveStop (extent_of w.new.heap)) }
    ensures found { (outside : Outside)
        → IsFound (extent_of w.new.heap) (pair_lists (map (values_in (extent_of w.old.heap)) pairs.now))
        (setting_of outside w.old (L.items l.now)) (setting_of outside w.new (L.items l.now))
        (λ lists. map (value_in (extent_of w.new.heap)) lists.items) result }
    ensures kept { KeepsLive w.old (L.items l.now) w.new (L.items l.now) }
{
    let mut lists = Vec::new(*w.globals.allocator());
    let mut rest = pairs;
    while let Some((first, others)) = rest.split_first() {
        let list = new_list(w, l, &[first.0, first.1])?;
        add(&mut lists, list)?;
        rest = others;
    }
    Ok(lists)
}

// A list of keys and values in turn.
fn list_in_turn<L: Locals>(w: &mut World, l: &L, pairs: &[(Val, Val)]) -> Result<Val, Stop>
    requires locals { All (IsLive (extent_of w.old.heap)) (L.items l.now) }
    requires pairs { All (AreLive (extent_of w.old.heap)) pairs.now }
    ensures live { IfOk result (IsLive (extent_of w.new.heap)) }
    ensures stops { IfErr result (IsLiveStop (extent_of w.new.heap)) }
    ensures found { (outside : Outside) → IsFound (extent_of w.new.heap)
        (new_list_of (in_turn (map (values_in (extent_of w.old.heap)) pairs.now))) (setting_of outside w.old
        (L.items l.now)) (setting_of outside w.new (L.items l.now)) (value_in (extent_of w.new.heap)) result }
    ensures kept { KeepsLive w.old (L.items l.now) w.new (L.items l.now) }
{
    let vals = interleave_pairs(*w.globals.allocator(), pairs)?;
    new_list(w, l, &vals)
}

// Keys and values in turn.
fn interleave_pairs(alloc: Global, pairs: &[(Val, Val)]) -> Result<Vec<Val>, AllocError>
    ensures values { IfOk result
        (λ vals. (all : Extent) → map (value_in all) vals.items ≡ in_turn (map (values_in all) pairs.now)) }
    ensures live { IfOk result
        (λ vals. (all : Extent) → All (AreLive all) pairs.now → All (IsLive all) vals.items) }
{
    let mut vals = Vec::new(alloc);
    let mut rest = pairs;
    while let Some((first, others)) = rest.split_first() {
        add(&mut vals, first.0)?;
        add(&mut vals, first.1)?;
        rest = others;
    }
    Ok(vals)
}

// Adds a value.
fn add(vals: &mut Vec<Val>, val: Val) -> Result<(), AllocError>
    ensures { IfOk result (λ done. vals.new.items ≡ vals.old.items ++ val ∷ []) }
{
    vals.push(val)?;
    Ok(())
}
