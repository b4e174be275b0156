// Undoing assignments and exchanges.
ghost use Rattle.std.specs.Prelude.{◌≡◌, true, IfErr, MatchResult};
ghost use Rattle.std.specs.List.{All};
ghost use Rattle.icn_value.specs.Store.{Outside};
ghost use Rattle.icn_defs.specs.Calls.{Passes};
ghost use Rattle.icn_defs.specs.ReadAndAssign.{undoes, undoes_exchange};
ghost use Rattle.icn_heap.specs.Extents.{IsLive, value_in};
ghost use Rattle.icn_heap.specs.Heaps.{extent_of};
ghost use Rattle.icn_vars.specs.Assignments.{IsError, takes_no_memory};
ghost use Rattle.icn_vars.specs.Outcomes.{IsOld, mover_of};
ghost use Rattle.icn_vars.specs.Stops.{IsLiveStop, StopsPassing};
ghost use Rattle.icn_vars.specs.Worlds.{KeepsLive, reach_of, setting_of, variable_in};

use crate::assigning::assign;
use crate::assignment::{Assignment, Exchange};
use crate::exchanging::assign_both;
use crate::locals::Locals;
use crate::stop::Stop;
use crate::world::World;
use icn_value::{Mover, Val, VarRef};

/// Gives a variable its old value back. `Error` is that of `assign`, and 205 where `&pos` is out of range by now. Neither a part of a
/// text nor a value at a key of a table comes back without memory; all others do.
pub fn undo<L: Locals>(w: &mut World, l: &mut L, variable: VarRef, old: Val) -> Result<(), Stop>
    requires locals { All (IsLive (extent_of w.old.heap)) (L.items l.old) }
    requires old { IsOld (reach_of w.old (L.items l.old)) variable old }
    ensures undone { (outside : Outside) → MatchResult result (λ _.
        Passes (undoes (variable_in (extent_of w.old.heap) variable) (value_in (extent_of w.old.heap) old))
        (setting_of outside w.old (L.items l.old)) (setting_of outside w.new (L.items l.new)))
        (StopsPassing (extent_of w.new.heap)
        (undoes (variable_in (extent_of w.old.heap) variable) (value_in (extent_of w.old.heap) old))
        (setting_of outside w.old (L.items l.old)) (setting_of outside w.new (L.items l.new))) }
    ensures memory { takes_no_memory (variable_in (extent_of w.old.heap) variable) ≡ true
        → IfErr result IsError }
    ensures stops { IfErr result (IsLiveStop (extent_of w.new.heap)) }
    ensures kept { KeepsLive w.old (L.items l.old) w.new (L.items l.new) }
{
    match assign(w, l, variable, old)? {
        Assignment::Done(_) => Ok(()),
        Assignment::OutOfRange => Err(Stop::Error(205, None)),
    }
}

/// Gives both sides of an exchange their old values back, the left side first. The mover moves the other side back. The errors are
/// those of `exchange`, and 205 where `&pos` is out of range by now. Whole variables that are no keys of tables come back without
/// memory.
pub fn undo_exchange<L: Locals>(
    w: &mut World,
    l: &mut L,
    mover: Mover,
    left: VarRef,
    right: VarRef,
    old_left: Val,
    old_right: Val,
) -> Result<(), Stop>
    requires locals { All (IsLive (extent_of w.old.heap)) (L.items l.old) }
    requires left { IsOld (reach_of w.old (L.items l.old)) left old_left }
    requires right { IsOld (reach_of w.old (L.items l.old)) right old_right }
    ensures undone { (outside : Outside) → MatchResult result (λ _. Passes (undoes_exchange (mover_of mover)
        (variable_in (extent_of w.old.heap) left) (variable_in (extent_of w.old.heap) right)
        (value_in (extent_of w.old.heap) old_left) (value_in (extent_of w.old.heap) old_right))
        (setting_of outside w.old (L.items l.old)) (setting_of outside w.new (L.items l.new)))
        (StopsPassing (extent_of w.new.heap) (undoes_exchange (mover_of mover)
        (variable_in (extent_of w.old.heap) left) (variable_in (extent_of w.old.heap) right)
        (value_in (extent_of w.old.heap) old_left) (value_in (extent_of w.old.heap) old_right))
        (setting_of outside w.old (L.items l.old)) (setting_of outside w.new (L.items l.new))) }
    ensures memory { mover ≡ Mover.Neither → takes_no_memory (variable_in (extent_of w.old.heap) left) ≡ true
        → takes_no_memory (variable_in (extent_of w.old.heap) right) ≡ true
        → IfErr result IsError }
    ensures stops { IfErr result (IsLiveStop (extent_of w.new.heap)) }
    ensures kept { KeepsLive w.old (L.items l.old) w.new (L.items l.new) }
{
    match assign_both(w, l, mover, left, right, old_left, old_right)? {
        Exchange::Done(_, _) => Ok(()),
        Exchange::OutOfRange => Err(Stop::Error(205, None)),
    }
}
