// Calls that give variables their old values back.
ghost use Rattle.std.specs.Prelude.{IfErr, OnOk};
ghost use Rattle.std.specs.List.{All};
ghost use Rattle.icn_heap.specs.Extents.{IsLive};
ghost use Rattle.icn_heap.specs.Heaps.{extent_of};
ghost use Rattle.icn_vars.specs.Stops.{IsLiveStop};
ghost use Rattle.icn_vars.specs.Worlds.{IsLiveVariable, reach_of};

use crate::variables::holding::can_hold;
use crate::variables::showing::push_stop;
use icn_value::{Mover, Val, VarRef};
use icn_vars::{Stop, World, undo, undo_exchange};
use std::alloc::AllocError;
use test_values::Slots;

/// Gives a variable an old value back. `AllocError` is want of memory.
pub fn push_undone(
    out: &mut String,
    w: &mut World,
    l: &mut Slots,
    variable: VarRef,
    old: Val,
) -> Result<(), AllocError>
    requires locals { All (IsLive (extent_of w.old.heap)) l.old.vals.items }
    requires variable { IsLiveVariable (reach_of w.old l.old.vals.items) variable }
    requires old { IsLive (extent_of w.old.heap) old }
    ensures { OnOk result (All (IsLive (extent_of w.new.heap)) l.new.vals.items) }
{
    if can_hold(variable, old) {
        let undone = undo(w, l, variable, old);
        push_done(out, w, undone)
    } else {
        out.push_str("no old value")
    }
}

fn push_done(out: &mut String, w: &World, undone: Result<(), Stop>) -> Result<(), AllocError>
    requires { IfErr undone (IsLiveStop (extent_of w.now.heap)) }
{
    match undone {
        Ok(()) => out.push_str("undone"),
        Err(stop) => push_stop(out, w, stop),
    }
}

// An exchange as it is taken back: what moved, and what both sides are now and held before.
#[derive(Clone, Copy)]
pub struct Exchanged {
    pub mover: Mover,
    pub left: VarRef,
    pub right: VarRef,
    pub old_left: Val,
    pub old_right: Val,
}

/// Gives both sides of an exchange their old values back. `AllocError` is want of memory.
pub fn push_exchange_undone(
    out: &mut String,
    w: &mut World,
    l: &mut Slots,
    was: Exchanged,
) -> Result<(), AllocError>
    requires locals { All (IsLive (extent_of w.old.heap)) l.old.vals.items }
    requires left { IsLiveVariable (reach_of w.old l.old.vals.items) was.left }
    requires right { IsLiveVariable (reach_of w.old l.old.vals.items) was.right }
    requires old_left { IsLive (extent_of w.old.heap) was.old_left }
    requires old_right { IsLive (extent_of w.old.heap) was.old_right }
    ensures { OnOk result (All (IsLive (extent_of w.new.heap)) l.new.vals.items) }
{
    if can_hold(was.left, was.old_left) {
        if can_hold(was.right, was.old_right) {
            let undone = undo_exchange(
                w,
                l,
                was.mover,
                was.left,
                was.right,
                was.old_left,
                was.old_right,
            );
            return push_done(out, w, undone);
        }
    }
    out.push_str("no old value")
}
