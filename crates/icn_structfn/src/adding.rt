// Elements that are added to a list.
ghost use Rattle.std.specs.Prelude.{◌≡◌, ◌+◌, ◌≤◌, map, drop, length, IfErr, OnOk};
ghost use Rattle.std.specs.List.{All};
ghost use Rattle.icn_value.specs.Store.{Outside};
ghost use Rattle.icn_defs.specs.Structures.{put_row, push_row, or_null};
ghost use Rattle.icn_heap.specs.Extents.{Extent, IsLive, KeepsValues, value_in};
ghost use Rattle.icn_heap.specs.Heaps.{extent_of, heap_of};
ghost use Rattle.icn_vars.specs.Outcomes.{IsLiveAnswer, answer_of};
ghost use Rattle.icn_vars.specs.Worlds.{AreLiveArguments, KeepsLive, reach_of, setting_of};
ghost use Rattle.icn_args.specs.RowWords.{Answers, IsPassed};
ghost use Rattle.icn_structs.specs.Numbered.{with_left, with_right};
ghost use Rattle.icn_value.specs.declared.full.Full.TheVariants.{NoMemory};
ghost use Rattle.icn_value.specs.declared.val.Val.TheVariants.{List};
ghost use Rattle.icn_vars.specs.Stops.{IsLiveStop};
ghost use Rattle.icn_structfn.specs.AddedElements.{added_to, adds};

use icn_args::arg;
use icn_heap::{Full, Heap};
use icn_value::Val;
use icn_vars::{Halt, Locals, Stop, ValueOutcome, World};

/// `put(L, x, ..)`: adds values at the right of a list, one after the other, which it gives. Without a value it adds null.
/// The error is 108 about what is no list, or 307 where the limit refuses the charge: then nothing is added.
pub fn put<L: Locals>(w: &mut World, l: &L, args: &[Val]) -> Result<ValueOutcome, Halt>
    requires live { AreLiveArguments w.old (L.items l.now) args.now }
    ensures row { Answers w.old (L.items l.now) w.new (L.items l.now)
        (put_row (map (value_in (extent_of w.old.heap)) args.now)) (answer_of result) }
    ensures live { IsLiveAnswer (reach_of w.new (L.items l.now)) (answer_of result) }
    ensures kept { KeepsLive w.old (L.items l.now) w.new (L.items l.now) }
{
    let list = arg(args, 0);
    match list {
        Val::List(id) => {
            add_right(w, l, id, values_to_add(args))?;
            Ok(ValueOutcome::Gives(list))
        }
        _ => Err(Halt::Error(108, Some(list))),
    }
}

// Adds values at the right of a list, all of which are charged at once.
#[tactic(auto, using(icn_vars::proofs::GrowingWorlds::grows))]
fn add_right<L: Locals>(w: &mut World, l: &L, list: u32, vals: &[Val]) -> Result<(), Stop>
    requires locals { All (IsLive (extent_of w.old.heap)) (L.items l.now) }
    requires list { IsLive (extent_of w.old.heap) (List list) }
    requires vals { All (IsLive (extent_of w.old.heap)) vals.now }
    ensures stops { IfErr result (IsLiveStop (extent_of w.new.heap)) }
    ensures step { (outside : Outside) → IsPassed (extent_of w.new.heap)
        (adds with_right list (map (value_in (extent_of w.old.heap)) vals.now))
        (setting_of outside w.old (L.items l.now)) (setting_of outside w.new (L.items l.now)) result }
    ensures kept { KeepsLive w.old (L.items l.now) w.new (L.items l.now) }
{
    w.heap.room_for_cells(vals.len() as u64)?;
    put_each(&mut w.heap, list, vals)?;
    Ok(())
}

// Adds values at the right of a list, one after the other. The error is want of memory, as there is room for their cells.
fn put_each(heap: &mut Heap, list: u32, vals: &[Val]) -> Result<(), Full>
    requires list { IsLive (extent_of heap.old) (List list) }
    requires vals { All (IsLive (extent_of heap.old)) vals.now }
    requires room { (heap_of heap.old).cells + length vals.now ≤ (heap_of heap.old).bounds.cells }
    ensures step { OnOk result (heap_of heap.new
        ≡ added_to with_right list (map (value_in (extent_of heap.old)) vals.now) (heap_of heap.old)) }
    ensures error { IfErr result (λ full. full ≡ NoMemory) }
    ensures kept { KeepsValues (extent_of heap.old) (extent_of heap.new) }
    ensures records { (heap_of heap.new).records ≡ (heap_of heap.old).records }
{
    let mut rest = vals;
    while let Some((first, others)) = rest.split_first() {
        heap.put(list, *first)?;
        rest = others;
    }
    Ok(())
}

/// `push(L, x, ..)`: adds values at the left of a list, one after the other, which it gives. Without a value it adds null.
/// The error is 108 about what is no list, or 307 where the limit refuses the charge: then nothing is added.
pub fn push<L: Locals>(w: &mut World, l: &L, args: &[Val]) -> Result<ValueOutcome, Halt>
    requires live { AreLiveArguments w.old (L.items l.now) args.now }
    ensures row { Answers w.old (L.items l.now) w.new (L.items l.now)
        (push_row (map (value_in (extent_of w.old.heap)) args.now)) (answer_of result) }
    ensures live { IsLiveAnswer (reach_of w.new (L.items l.now)) (answer_of result) }
    ensures kept { KeepsLive w.old (L.items l.now) w.new (L.items l.now) }
{
    let list = arg(args, 0);
    match list {
        Val::List(id) => {
            add_left(w, l, id, values_to_add(args))?;
            Ok(ValueOutcome::Gives(list))
        }
        _ => Err(Halt::Error(108, Some(list))),
    }
}

// Adds values at the left of a list, all of which are charged at once.
#[tactic(auto, using(icn_vars::proofs::GrowingWorlds::grows))]
fn add_left<L: Locals>(w: &mut World, l: &L, list: u32, vals: &[Val]) -> Result<(), Stop>
    requires locals { All (IsLive (extent_of w.old.heap)) (L.items l.now) }
    requires list { IsLive (extent_of w.old.heap) (List list) }
    requires vals { All (IsLive (extent_of w.old.heap)) vals.now }
    ensures stops { IfErr result (IsLiveStop (extent_of w.new.heap)) }
    ensures step { (outside : Outside)
        → IsPassed (extent_of w.new.heap)
        (adds with_left list (map (value_in (extent_of w.old.heap)) vals.now))
        (setting_of outside w.old (L.items l.now)) (setting_of outside w.new (L.items l.now)) result }
    ensures kept { KeepsLive w.old (L.items l.now) w.new (L.items l.now) }
{
    w.heap.room_for_cells(vals.len() as u64)?;
    push_each(&mut w.heap, list, vals)?;
    Ok(())
}

// Adds values at the left of a list, one after the other. The error is want of memory, as there is room for their cells.
fn push_each(heap: &mut Heap, list: u32, vals: &[Val]) -> Result<(), Full>
    requires list { IsLive (extent_of heap.old) (List list) }
    requires vals { All (IsLive (extent_of heap.old)) vals.now }
    requires room { (heap_of heap.old).cells + length vals.now ≤ (heap_of heap.old).bounds.cells }
    ensures step { OnOk result (heap_of heap.new
        ≡ added_to with_left list (map (value_in (extent_of heap.old)) vals.now) (heap_of heap.old)) }
    ensures error { IfErr result (λ full. full ≡ NoMemory) }
    ensures kept { KeepsValues (extent_of heap.old) (extent_of heap.new) }
    ensures records { (heap_of heap.new).records ≡ (heap_of heap.old).records }
{
    let mut rest = vals;
    while let Some((first, others)) = rest.split_first() {
        heap.push(list, *first)?;
        rest = others;
    }
    Ok(())
}

// The arguments behind the first, or null where there are none.
fn values_to_add(args: &[Val]) -> &[Val]
    ensures value { (all : Extent)
        → map (value_in all) result.now ≡ or_null (drop 1 (map (value_in all) args.now)) }
    ensures live { (all : Extent) → All (IsLive all) args.now → All (IsLive all) result.now }
{
    match args {
        [_, _, ..] => &args[1..],
        _ => &[Val::Null],
    }
}
