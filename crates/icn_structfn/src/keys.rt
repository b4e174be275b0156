// Keys of tables, and members of sets.
ghost use Rattle.std.specs.Prelude.{◌≡◌, ◌<◌, ◌^◌, length, map, is_some, IfErr, IfOk};
ghost use Rattle.std.specs.List.{All};
ghost use Rattle.icn_value.specs.Store.{Outside, table_at};
ghost use Rattle.icn_defs.specs.Structures.{delete_row, has_key, insert_row, key_row, member_row, table_keys_from};
ghost use Rattle.icn_heap.specs.Extents.{Extent, IsLive, value_in};
ghost use Rattle.icn_heap.specs.Heaps.{extent_of, heap_of};
ghost use Rattle.icn_vars.specs.Outcomes.{IsLiveAnswer, IsLiveOutcome, answer_of, outcome_in};
ghost use Rattle.icn_vars.specs.Worlds.{AreLiveArguments, KeepsLive, reach_of, setting_of};
ghost use Rattle.icn_args.specs.RowWords.{Answers, IsPassed};
ghost use Rattle.icn_value.specs.declared.val.Val.TheVariants.{Table};
ghost use Rattle.icn_vars.specs.Stops.{IsLiveStop};
ghost use Rattle.std.specs.Option.{option_map};
ghost use Rattle.icn_defs.specs.Arguments.{keeper_of};
ghost use Rattle.icn_structfn.specs.SetsAndTables.{inserts_in};

use icn_args::arg;
use icn_heap::Heap;
use icn_value::{Item, Residual, Val};
use icn_vars::{Halt, Locals, Outcome, Stop, ValueOutcome, World};
use std::alloc::AllocError;

/// `member(X, x)`: gives `x` where it is a member or a key, and fails where it is not.
pub fn member<L: Locals>(w: &World, l: &L, args: &[Val]) -> Result<ValueOutcome, Halt>
    requires live { AreLiveArguments w.now (L.items l.now) args.now }
    ensures row { Answers w.now (L.items l.now) w.now (L.items l.now)
        (member_row (map (value_in (extent_of w.now.heap)) args.now)) (answer_of result) }
    ensures live { IsLiveAnswer (reach_of w.now (L.items l.now)) (answer_of result) }
{
    let kept = arg(args, 0);
    let key = arg(args, 1);
    let Ok(found) = has(&w.heap, kept, key) else {
        return Err(Halt::NoMemory);
    };
    match found {
        Some(true) => Ok(ValueOutcome::Gives(key)),
        Some(false) => Ok(ValueOutcome::Fails),
        None => Err(Halt::Error(122, Some(kept))),
    }
}

// Whether a member or a key is there. `None` comes exactly where the first value is no set and no table.
fn has(heap: &Heap, kept: Val, key: Val) -> Result<Option<bool>, AllocError>
    requires kept { IsLive (extent_of heap.now) kept }
    requires key { IsLive (extent_of heap.now) key }
    ensures { IfOk result (λ has. has ≡ option_map (λ keeper. has_key (heap_of heap.now) keeper
        (value_in (extent_of heap.now) key)) (keeper_of (value_in (extent_of heap.now) kept))) }
{
    match kept {
        Val::Set(set) => Ok(Some(heap.has(set, key)?)),
        Val::Table(table) => Ok(Some(heap.look(table, key)?.is_some())),
        _ => Ok(None),
    }
}

/// `insert(X, x, y)`: puts a member, or a key with its value, into a set or a table, which it gives. The error is 122 about
/// what is neither, or 307 where the limit refuses the charge.
pub fn insert<L: Locals>(w: &mut World, l: &L, args: &[Val]) -> Result<ValueOutcome, Halt>
    requires live { AreLiveArguments w.old (L.items l.now) args.now }
    ensures row { Answers w.old (L.items l.now) w.new (L.items l.now)
        (insert_row (map (value_in (extent_of w.old.heap)) args.now)) (answer_of result) }
    ensures live { IsLiveAnswer (reach_of w.new (L.items l.now)) (answer_of result) }
    ensures kept { KeepsLive w.old (L.items l.now) w.new (L.items l.now) }
{
    let kept = arg(args, 0);
    insert_into(w, l, kept, arg(args, 1), arg(args, 2))?;
    Ok(ValueOutcome::Gives(kept))
}

// Puts a member, or a key with its value, in, and charges it where it is new.
#[tactic(auto, using(icn_vars::proofs::GrowingWorlds::grows))]
fn insert_into<L: Locals>(w: &mut World, l: &L, kept: Val, key: Val, val: Val) -> Result<(), Stop>
    requires locals { All (IsLive (extent_of w.old.heap)) (L.items l.now) }
    requires kept { IsLive (extent_of w.old.heap) kept }
    requires key { IsLive (extent_of w.old.heap) key }
    requires val { IsLive (extent_of w.old.heap) val }
    ensures stops { IfErr result (IsLiveStop (extent_of w.new.heap)) }
    ensures step { (outside : Outside)
        → IsPassed (extent_of w.new.heap) (inserts_in (value_in (extent_of w.old.heap) kept)
        (value_in (extent_of w.old.heap) key) (value_in (extent_of w.old.heap) val))
        (setting_of outside w.old (L.items l.now)) (setting_of outside w.new (L.items l.now)) result }
    ensures kept { KeepsLive w.old (L.items l.now) w.new (L.items l.now) }
{
    match kept {
        Val::Set(set) => Ok(w.heap.add(set, key)?),
        Val::Table(table) => Ok(w.heap.store(table, key, val)?),
        _ => Err(Stop::Error(122, Some(kept))),
    }
}

/// `delete(X, x)`: takes a member or a key out of a set or a table, which it gives. The error is 122 about what is neither.
#[tactic(auto, using(icn_vars::proofs::GrowingWorlds::grows))]
pub fn delete<L: Locals>(w: &mut World, l: &L, args: &[Val]) -> Result<ValueOutcome, Halt>
    requires live { AreLiveArguments w.old (L.items l.now) args.now }
    ensures row { Answers w.old (L.items l.now) w.new (L.items l.now)
        (delete_row (map (value_in (extent_of w.old.heap)) args.now)) (answer_of result) }
    ensures live { IsLiveAnswer (reach_of w.new (L.items l.now)) (answer_of result) }
    ensures kept { KeepsLive w.old (L.items l.now) w.new (L.items l.now) }
{
    let kept = arg(args, 0);
    if !is_keeper(kept) {
        return Err(Halt::Error(122, Some(kept)));
    }
    match w.heap.remove(kept, arg(args, 1)) {
        Ok(_) => Ok(ValueOutcome::Gives(kept)),
        Err(_) => Err(Halt::NoMemory),
    }
}

// Whether a value is a set or a table.
fn is_keeper(val: Val) -> bool
    ensures { (all : Extent) → result ≡ is_some (keeper_of (value_in all val)) }
{
    matches!(val, Val::Set(_) | Val::Table(_))
}

/// `key(T)`: gives the keys of a table, one after the other. The error is 124 about what is no table.
pub fn key<L: Locals>(w: &World, l: &L, args: &[Val]) -> Result<Outcome, Halt>
    requires live { AreLiveArguments w.now (L.items l.now) args.now }
    ensures row { Answers w.now (L.items l.now) w.now (L.items l.now)
        (key_row (map (value_in (extent_of w.now.heap)) args.now)) result }
    ensures live { IsLiveAnswer (reach_of w.now (L.items l.now)) result }
{
    let table = arg(args, 0);
    match table {
        Val::Table(id) => Ok(key_again(w, l, id, 0)),
        _ => Err(Halt::Error(124, Some(table))),
    }
}

/// Gives the next key of a table, where `key` was resumed.
pub fn key_again<L: Locals>(w: &World, l: &L, table: u32, place: u64) -> Outcome
    requires { IsLive (extent_of w.now.heap) (Table table) }
    ensures row { (outside : Outside) → table_keys_from table place (setting_of outside w.now (L.items l.now))
        ≡ outcome_in (extent_of w.now.heap) result (setting_of outside w.now (L.items l.now)) }
    ensures live { IsLiveOutcome (reach_of w.now (L.items l.now)) result }
{
    few_pairs(&w.heap, table);
    match w.heap.pair_at(table, place) {
        Some((key, _)) => Outcome::Suspends(
            Item::Val(key),
            Residual::TableKeys {
                table,
                place: place + 1,
            },
        ),
        None => Outcome::Fails,
    }
}

// A table has so few pairs that a place behind one is a number. A call does nothing: it tells a caller's proof so.
fn few_pairs(heap: &Heap, table: u32)
    requires { IsLive (extent_of heap.now) (Table table) }
    ensures { length (table_at (heap_of heap.now) table).pairs < 2 ^ 63 }
{
    let _count = heap.size(Val::Table(table));
}
