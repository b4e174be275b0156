// Calls that read, assign and exchange variables.
ghost use Rattle.std.specs.Prelude.{IfErr, OnOk};
ghost use Rattle.std.specs.List.{All};
ghost use Rattle.icn_heap.specs.Extents.{IsLive};
ghost use Rattle.icn_heap.specs.Heaps.{extent_of};
ghost use Rattle.icn_vars.specs.Stops.{IsLiveStop};
ghost use Rattle.icn_vars.specs.Worlds.{IsLiveVariable, reach_of};

use crate::variables::showing::{push_mover, push_stop, push_value, push_variable};
use icn_value::{Item, Val, VarRef};
use icn_vars::{Assignment, Exchange, Stop, World, assign, deref, exchange, mover_of};
use std::alloc::AllocError;
use test_values::Slots;

/// Reads a variable. `AllocError` is want of memory.
pub fn push_read(out: &mut String, w: &World, l: &Slots, variable: VarRef) -> Result<(), AllocError>
    requires locals { All (IsLive (extent_of w.now.heap)) l.now.vals.items }
    requires variable { IsLiveVariable (reach_of w.now l.now.vals.items) variable }
{
    match deref(w, l, Item::Var(variable)) {
        Ok(val) => push_value(out, &w.heap, val),
        Err(stop) => push_stop(out, w, stop),
    }
}

/// Assigns to a variable, and appends what the variable is then. `AllocError` is want of memory.
pub fn push_assigned(
    out: &mut String,
    w: &mut World,
    l: &mut Slots,
    variable: VarRef,
    val: Val,
) -> Result<(), AllocError>
    requires locals { All (IsLive (extent_of w.old.heap)) l.old.vals.items }
    requires variable { IsLiveVariable (reach_of w.old l.old.vals.items) variable }
    requires val { IsLive (extent_of w.old.heap) val }
    ensures { OnOk result (All (IsLive (extent_of w.new.heap)) l.new.vals.items) }
{
    match assign(w, l, variable, val) {
        Ok(Assignment::Done(now)) => push_variable(out, now),
        Ok(Assignment::OutOfRange) => out.push_str("out of range"),
        Err(stop) => push_stop(out, w, stop),
    }
}

/// Exchanges two variables, and appends what both are then. `AllocError` is want of memory.
pub fn push_exchanged(
    out: &mut String,
    w: &mut World,
    l: &mut Slots,
    left: VarRef,
    right: VarRef,
) -> Result<(), AllocError>
    requires locals { All (IsLive (extent_of w.old.heap)) l.old.vals.items }
    requires left { IsLiveVariable (reach_of w.old l.old.vals.items) left }
    requires right { IsLiveVariable (reach_of w.old l.old.vals.items) right }
    ensures { OnOk result (All (IsLive (extent_of w.new.heap)) l.new.vals.items) }
{
    match exchange_values(w, l, left, right) {
        Ok(Exchange::Done(left, right)) => {
            push_variable(out, left)?;
            out.push(' ')?;
            push_variable(out, right)
        }
        Ok(Exchange::OutOfRange) => out.push_str("out of range"),
        Err(stop) => push_stop(out, w, stop),
    }
}

// Reads two variables, and exchanges what they hold.
fn exchange_values(
    w: &mut World,
    l: &mut Slots,
    left: VarRef,
    right: VarRef,
) -> Result<Exchange, Stop>
    requires locals { All (IsLive (extent_of w.old.heap)) l.old.vals.items }
    requires left { IsLiveVariable (reach_of w.old l.old.vals.items) left }
    requires right { IsLiveVariable (reach_of w.old l.old.vals.items) right }
    ensures locals { All (IsLive (extent_of w.new.heap)) l.new.vals.items }
    ensures stops { IfErr result (IsLiveStop (extent_of w.new.heap)) }
{
    let of_left = deref(w, l, Item::Var(left))?;
    let of_right = deref(w, l, Item::Var(right))?;
    exchange(w, l, left, right, of_left, of_right)
}

/// Which side moves the other. `AllocError` is want of memory.
pub fn push_moved(
    out: &mut String,
    w: &World,
    l: &Slots,
    left: VarRef,
    right: VarRef,
) -> Result<(), AllocError>
    requires left { IsLiveVariable (reach_of w.now l.now.vals.items) left }
    requires right { IsLiveVariable (reach_of w.now l.now.vals.items) right }
{
    push_mover(out, mover_of(w, l, left, right))
}
