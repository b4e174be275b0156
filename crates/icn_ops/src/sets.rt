// Sets and csets that are put together.
ghost use Rattle.std.specs.Prelude.{◌≡◌, ◌++◌, IfErr, IfOk, IfSome};
ghost use Rattle.std.specs.List.{All};
ghost use Rattle.icn_value.specs.Members.{members_of};
ghost use Rattle.icn_value.specs.Store.{Outside, Setting, set_at};
ghost use Rattle.icn_value.specs.declared.val.Val.TheVariants.{Set};
ghost use Rattle.icn_defs.specs.Arguments.{set_of};
ghost use Rattle.icn_defs.specs.Operations.{difference_row, intersection_row, new_set_of, intersection, two_sets, union_row, difference};
ghost use Rattle.icn_heap.specs.Extents.{Extent, IsLive, value_in};
ghost use Rattle.icn_heap.specs.Heaps.{extent_of, heap_of};
ghost use Rattle.icn_vars.specs.Outcomes.{IsLiveAnswer};
ghost use Rattle.icn_vars.specs.Stops.{IsLiveStop};
ghost use Rattle.icn_vars.specs.Worlds.{AreLiveTwo, KeepsLive, item_in, reach_of, setting_of};
ghost use Rattle.icn_args.specs.RowWords.{Answers, IsFound};
ghost use Rattle.icn_ops.specs.Operands.{csets_in};
ghost use Rattle.icn_ops.specs.Operands as operands;

use crate::operands::two_values;
use icn_convert::to_cset;
use icn_heap::Heap;
use icn_value::{Cset, Item, Val};
use icn_vars::{Halt, Locals, Outcome, Stop, World};

/// `x ++ y`: the members of either set or cset, those of the first set first; or error 120, or 307 where the cells of a set pass their limit.
pub fn union_row<L: Locals>(w: &mut World, l: &L, x: Item, y: Item) -> Result<Outcome, Halt>
    requires live { AreLiveTwo w.old (L.items l.now) x y }
    ensures row { Answers w.old (L.items l.now) w.new (L.items l.now)
        (union_row (item_in (extent_of w.old.heap) x) (item_in (extent_of w.old.heap) y)) result }
    ensures live { IsLiveAnswer (reach_of w.new (L.items l.now)) result }
    ensures kept { KeepsLive w.old (L.items l.now) w.new (L.items l.now) }
{
    let (a, b) = two_values(w, l, x, y)?;
    match two_sets(a, b) {
        Some(ids) => {
            let set = new_union(w, l, ids.0, ids.1)?;
            Ok(Outcome::Gives(Item::Val(set)))
        }
        None => {
            let (c, d) = two_csets(&w.heap, a, b)?;
            Ok(Outcome::Gives(Item::Val(Val::Chars(c.either(d)))))
        }
    }
}

/// `x -- y`: the members of the first set or cset that the second lacks; or error 120, or 307 where the cells of a set pass their limit.
pub fn difference_row<L: Locals>(w: &mut World, l: &L, x: Item, y: Item) -> Result<Outcome, Halt>
    requires live { AreLiveTwo w.old (L.items l.now) x y }
    ensures row { Answers w.old (L.items l.now) w.new (L.items l.now)
        (difference_row (item_in (extent_of w.old.heap) x) (item_in (extent_of w.old.heap) y)) result }
    ensures live { IsLiveAnswer (reach_of w.new (L.items l.now)) result }
    ensures kept { KeepsLive w.old (L.items l.now) w.new (L.items l.now) }
{
    let (a, b) = two_values(w, l, x, y)?;
    match two_sets(a, b) {
        Some(ids) => {
            let set = new_difference(w, l, ids.0, ids.1)?;
            Ok(Outcome::Gives(Item::Val(set)))
        }
        None => {
            let (c, d) = two_csets(&w.heap, a, b)?;
            Ok(Outcome::Gives(Item::Val(Val::Chars(c.less(d)))))
        }
    }
}

/// `x ** y`: the members of the first set or cset that the second has; or error 120, or 307 where the cells of a set pass their limit.
pub fn intersection_row<L: Locals>(w: &mut World, l: &L, x: Item, y: Item) -> Result<Outcome, Halt>
    requires live { AreLiveTwo w.old (L.items l.now) x y }
    ensures row { Answers w.old (L.items l.now) w.new (L.items l.now)
        (intersection_row (item_in (extent_of w.old.heap) x) (item_in (extent_of w.old.heap) y)) result }
    ensures live { IsLiveAnswer (reach_of w.new (L.items l.now)) result }
    ensures kept { KeepsLive w.old (L.items l.now) w.new (L.items l.now) }
{
    let (a, b) = two_values(w, l, x, y)?;
    match two_sets(a, b) {
        Some(ids) => {
            let set = new_intersection(w, l, ids.0, ids.1)?;
            Ok(Outcome::Gives(Item::Val(set)))
        }
        None => {
            let (c, d) = two_csets(&w.heap, a, b)?;
            Ok(Outcome::Gives(Item::Val(Val::Chars(c.both(d)))))
        }
    }
}

// The numbers of two sets, where both values are sets.
fn two_sets(a: Val, b: Val) -> Option<(u32, u32)>
    ensures sets { (all : Extent) → result ≡ two_sets (set_of (value_in all a)) (set_of (value_in all b)) }
    ensures first_live { (all : Extent) → IsLive all a → IfSome result (λ ids. IsLive all (Set ids.0)) }
    ensures second_live { (all : Extent) → IsLive all b → IfSome result (λ ids. IsLive all (Set ids.1)) }
{
    match (a, b) {
        (Val::Set(first), Val::Set(second)) => Some((first, second)),
        _ => None,
    }
}

// The csets of two values, or 120.
fn two_csets(heap: &Heap, a: Val, b: Val) -> Result<(Cset, Cset), Stop>
    requires first { IsLive (extent_of heap.now) a }
    requires second { IsLive (extent_of heap.now) b }
    ensures stops { IfErr result (IsLiveStop (extent_of heap.now)) }
    ensures found { (setting : Setting) → IsFound (extent_of heap.now)
        (operands.two_csets (value_in (extent_of heap.now) a) (value_in (extent_of heap.now) b)) setting
        setting csets_in result }
{
    let c = one_cset(heap, a)?;
    let d = one_cset(heap, b)?;
    Ok((c, d))
}

// The cset of a value, or 120.
fn one_cset(heap: &Heap, val: Val) -> Result<Cset, Stop>
    requires { IsLive (extent_of heap.now) val }
    ensures stops { IfErr result (IsLiveStop (extent_of heap.now)) }
    ensures found { (setting : Setting) → IsFound (extent_of heap.now)
        (operands.one_cset (value_in (extent_of heap.now) val)) setting setting members_of result }
{
    to_cset(heap, val).ok_or(Stop::Error(120, Some(val)))
}

// A new set of the members of one set, and behind them those of another that are new. The errors are 307 and want of memory.
#[tactic(auto, using(icn_vars::proofs::GrowingWorlds::grows))]
fn new_union<L: Locals>(w: &mut World, l: &L, first: u32, second: u32) -> Result<Val, Stop>
    requires locals { All (IsLive (extent_of w.old.heap)) (L.items l.now) }
    requires first { IsLive (extent_of w.old.heap) (Set first) }
    requires second { IsLive (extent_of w.old.heap) (Set second) }
    ensures live { IfOk result (IsLive (extent_of w.new.heap)) }
    ensures stops { IfErr result (IsLiveStop (extent_of w.new.heap)) }
    ensures found { (outside : Outside)
        → IsFound (extent_of w.new.heap) (new_set_of ((set_at (heap_of w.old.heap) first)
        ++ difference (set_at (heap_of w.old.heap) second) (set_at (heap_of w.old.heap) first)))
        (setting_of outside w.old (L.items l.now)) (setting_of outside w.new (L.items l.now))
        (value_in (extent_of w.new.heap)) result }
    ensures kept { KeepsLive w.old (L.items l.now) w.new (L.items l.now) }
{
    Ok(w.heap.union(first, second)?)
}

// A new set of the members of one set that are not in another. The errors are 307 and want of memory.
#[tactic(auto, using(icn_vars::proofs::GrowingWorlds::grows))]
fn new_difference<L: Locals>(w: &mut World, l: &L, first: u32, second: u32) -> Result<Val, Stop>
    requires locals { All (IsLive (extent_of w.old.heap)) (L.items l.now) }
    requires first { IsLive (extent_of w.old.heap) (Set first) }
    requires second { IsLive (extent_of w.old.heap) (Set second) }
    ensures live { IfOk result (IsLive (extent_of w.new.heap)) }
    ensures stops { IfErr result (IsLiveStop (extent_of w.new.heap)) }
    ensures found { (outside : Outside) → IsFound (extent_of w.new.heap)
        (new_set_of (difference (set_at (heap_of w.old.heap) first) (set_at (heap_of w.old.heap) second)))
        (setting_of outside w.old (L.items l.now)) (setting_of outside w.new (L.items l.now))
        (value_in (extent_of w.new.heap)) result }
    ensures kept { KeepsLive w.old (L.items l.now) w.new (L.items l.now) }
{
    Ok(w.heap.difference(first, second)?)
}

// A new set of the members of one set that are in another. The errors are 307 and want of memory.
#[tactic(auto, using(icn_vars::proofs::GrowingWorlds::grows))]
fn new_intersection<L: Locals>(w: &mut World, l: &L, first: u32, second: u32) -> Result<Val, Stop>
    requires locals { All (IsLive (extent_of w.old.heap)) (L.items l.now) }
    requires first { IsLive (extent_of w.old.heap) (Set first) }
    requires second { IsLive (extent_of w.old.heap) (Set second) }
    ensures live { IfOk result (IsLive (extent_of w.new.heap)) }
    ensures stops { IfErr result (IsLiveStop (extent_of w.new.heap)) }
    ensures found { (outside : Outside) → IsFound (extent_of w.new.heap)
        (new_set_of (intersection (set_at (heap_of w.old.heap) first) (set_at (heap_of w.old.heap) second)))
        (setting_of outside w.old (L.items l.now)) (setting_of outside w.new (L.items l.now))
        (value_in (extent_of w.new.heap)) result }
    ensures kept { KeepsLive w.old (L.items l.now) w.new (L.items l.now) }
{
    Ok(w.heap.intersection(first, second)?)
}
