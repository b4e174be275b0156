// Exchanging two variables.
ghost use Rattle.std.specs.Prelude.{◌≡◌, ◌<◌, ◌-◌, ◌^◌, List, ℕ, length, true, IfErr, OnOk};
ghost use Rattle.std.specs.List.{All};
ghost use Rattle.icn_value.specs.Store.{Outside};
ghost use Rattle.icn_value.specs.Values.{Text};
ghost use Rattle.icn_defs.specs.ReadAndAssign.{assigns_both};
ghost use Rattle.icn_defs.specs.RowFacts.{can_hold};
ghost use Rattle.icn_heap.specs.Extents.{IsLive, value_in};
ghost use Rattle.icn_heap.specs.Heaps.{extent_of};
ghost use Rattle.icn_vars.specs.Assignments.{ExchangesAs, HoldAlike, HoldsShort, IsError, IsLiveExchange, assigns_moved, assigns_right, exchange_of, takes_no_memory};
ghost use Rattle.icn_vars.specs.Outcomes.{mover_of};
ghost use Rattle.icn_vars.specs.Worlds.{IsLiveVariable, IsShort, KeepsLive, reach_of, setting_of, variable_in};
ghost use Rattle.icn_vars.specs.declared.stop.Stop.TheVariants.{NoMemory};

use crate::assigning::assign;
use crate::assignment::{Assignment, Exchange, Moved};
use crate::locals::Locals;
use crate::movers::{move_part, mover_of, part_length};
use crate::reading::read_root;
use crate::stop::Stop;
use crate::world::World;
use icn_heap::short_text;
use icn_value::{Mover, Val, VarRef};

/// Exchanges two variables that hold these values: the left side is assigned first. Of two parts of one variable, the assignment of
/// the one that begins first moves the other. The errors are those of `assign`, and 205 where a part would begin before its text.
/// What was done before an error stays.
pub fn exchange<L: Locals>(
    w: &mut World,
    l: &mut L,
    left: VarRef,
    right: VarRef,
    of_left: Val,
    of_right: Val,
) -> Result<Exchange, Stop>
    requires locals { All (IsLive (extent_of w.old.heap)) (L.items l.old) }
    requires left { IsLiveVariable (reach_of w.old (L.items l.old)) left }
    requires right { IsLiveVariable (reach_of w.old (L.items l.old)) right }
    requires of_left { IsLive (extent_of w.old.heap) of_left }
    requires of_right { IsLive (extent_of w.old.heap) of_right }
    ensures exchanged { (outside : Outside)
        → ExchangesAs (extent_of w.new.heap) (λ refused. exchange_of refused
        (variable_in (extent_of w.old.heap) left) (variable_in (extent_of w.old.heap) right)
        (value_in (extent_of w.old.heap) of_left) (value_in (extent_of w.old.heap) of_right))
        (setting_of outside w.old (L.items l.old)) (setting_of outside w.new (L.items l.new)) result }
    ensures live { IsLiveExchange (reach_of w.new (L.items l.new)) result }
    ensures holds { HoldAlike (extent_of w.new.heap) (variable_in (extent_of w.old.heap) left)
        (variable_in (extent_of w.old.heap) right) result }
    ensures kept { KeepsLive w.old (L.items l.old) w.new (L.items l.new) }
{
    let mover = mover_of(w, l, left, right);
    assign_both(w, l, mover, left, right, of_right, of_left)
}

/// Assigns to the left side, and then to the right one. The assignment of the mover moves the other side. `Stop` is the
/// error that an assignment stops with, or want of memory. Neither side moves the other, and both take none, where both are whole
/// variables that can hold these values, and none is a key of a table.
pub fn assign_both<L: Locals>(
    w: &mut World,
    l: &mut L,
    mover: Mover,
    left: VarRef,
    right: VarRef,
    to_left: Val,
    to_right: Val,
) -> Result<Exchange, Stop>
    requires locals { All (IsLive (extent_of w.old.heap)) (L.items l.old) }
    requires left { IsLiveVariable (reach_of w.old (L.items l.old)) left }
    requires right { IsLiveVariable (reach_of w.old (L.items l.old)) right }
    requires to_left { IsLive (extent_of w.old.heap) to_left }
    requires to_right { IsLive (extent_of w.old.heap) to_right }
    ensures exchanged { (outside : Outside)
        → ExchangesAs (extent_of w.new.heap) (λ refused. assigns_both refused
        (mover_of mover) (variable_in (extent_of w.old.heap) left) (variable_in (extent_of w.old.heap) right)
        (value_in (extent_of w.old.heap) to_left) (value_in (extent_of w.old.heap) to_right))
        (setting_of outside w.old (L.items l.old)) (setting_of outside w.new (L.items l.new)) result }
    ensures live { IsLiveExchange (reach_of w.new (L.items l.new)) result }
    ensures holds { HoldAlike (extent_of w.new.heap) (variable_in (extent_of w.old.heap) left)
        (variable_in (extent_of w.old.heap) right) result }
    ensures memory { mover ≡ Mover.Neither → takes_no_memory (variable_in (extent_of w.old.heap) left) ≡ true
        → takes_no_memory (variable_in (extent_of w.old.heap) right) ≡ true
        → can_hold (variable_in (extent_of w.old.heap) left) (value_in (extent_of w.old.heap) to_left) ≡ true
        → can_hold (variable_in (extent_of w.old.heap) right) (value_in (extent_of w.old.heap) to_right)
        ≡ true
        → IfErr result IsError }
    ensures kept { KeepsLive w.old (L.items l.old) w.new (L.items l.new) }
{
    match assign(w, l, left, to_left)? {
        Assignment::Done(now) => match mover {
            Mover::Neither => assign_right(w, l, Mover::Neither, now, right, to_right),
            Mover::Left => assign_moved(w, l, part_length(left), now, right, to_right),
            Mover::Right => assign_right(w, l, Mover::Right, now, right, to_right),
        },
        Assignment::OutOfRange => Ok(Exchange::OutOfRange),
    }
}

// Assigns to the right side of an exchange whose left side was assigned and moves it. A part that no text reaches stays where it is.
fn assign_moved<L: Locals>(
    w: &mut World,
    l: &mut L,
    old: u64,
    left: VarRef,
    right: VarRef,
    to_right: Val,
) -> Result<Exchange, Stop>
    requires locals { All (IsLive (extent_of w.old.heap)) (L.items l.old) }
    requires left { IsLiveVariable (reach_of w.old (L.items l.old)) left }
    requires right { IsLiveVariable (reach_of w.old (L.items l.old)) right }
    requires short { IsShort left }
    requires old { old < 2 ^ 63 }
    requires to_right { IsLive (extent_of w.old.heap) to_right }
    ensures exchanged { (outside : Outside) → ExchangesAs (extent_of w.new.heap)
        (λ refused. assigns_moved refused old (variable_in (extent_of w.old.heap) left)
        (variable_in (extent_of w.old.heap) right) (value_in (extent_of w.old.heap) to_right))
        (setting_of outside w.old (L.items l.old)) (setting_of outside w.new (L.items l.new)) result }
    ensures live { IsLiveExchange (reach_of w.new (L.items l.new)) result }
    ensures holds { HoldAlike (extent_of w.new.heap) (variable_in (extent_of w.old.heap) left)
        (variable_in (extent_of w.old.heap) right) result }
    ensures kept { KeepsLive w.old (L.items l.old) w.new (L.items l.new) }
{
    match move_part(old, part_length(left), right) {
        Moved::To(right) => assign_right(w, l, Mover::Left, left, right, to_right),
        Moved::BeforeText => Err(Stop::Error(205, None)),
        Moved::BehindTexts => {
            short_held(w, l, right)?;
            assign_right(w, l, Mover::Left, left, right, to_right)
        }
    }
}

// Assigns to the right side of an exchange whose left side is assigned, and moves the left side where the right one is the mover.
fn assign_right<L: Locals>(
    w: &mut World,
    l: &mut L,
    mover: Mover,
    left: VarRef,
    right: VarRef,
    to_right: Val,
) -> Result<Exchange, Stop>
    requires locals { All (IsLive (extent_of w.old.heap)) (L.items l.old) }
    requires left { IsLiveVariable (reach_of w.old (L.items l.old)) left }
    requires right { IsLiveVariable (reach_of w.old (L.items l.old)) right }
    requires short { IsShort left }
    requires to_right { IsLive (extent_of w.old.heap) to_right }
    ensures exchanged { (outside : Outside) → ExchangesAs (extent_of w.new.heap)
        (λ refused. assigns_right refused (mover_of mover) (variable_in (extent_of w.old.heap) left)
        (variable_in (extent_of w.old.heap) right) (value_in (extent_of w.old.heap) to_right))
        (setting_of outside w.old (L.items l.old)) (setting_of outside w.new (L.items l.new)) result }
    ensures live { IsLiveExchange (reach_of w.new (L.items l.new)) result }
    ensures holds { HoldAlike (extent_of w.new.heap) (variable_in (extent_of w.old.heap) left)
        (variable_in (extent_of w.old.heap) right) result }
    ensures memory { takes_no_memory (variable_in (extent_of w.old.heap) right) ≡ true
        → can_hold (variable_in (extent_of w.old.heap) right) (value_in (extent_of w.old.heap) to_right)
        ≡ true
        → IfErr result IsError }
    ensures kept { KeepsLive w.old (L.items l.old) w.new (L.items l.new) }
{
    match assign(w, l, right, to_right)? {
        Assignment::Done(now) => match mover {
            Mover::Neither => Ok(Exchange::Done(left, now)),
            Mover::Left => Ok(Exchange::Done(left, now)),
            Mover::Right => match move_part(part_length(right), part_length(now), left) {
                Moved::To(left) => Ok(Exchange::Done(left, now)),
                Moved::BeforeText => Err(Stop::Error(205, None)),
                Moved::BehindTexts => unreachable!(),
            },
        },
        Assignment::OutOfRange => Ok(Exchange::OutOfRange),
    }
}

// That the text that a part is of is short. Reading the key of a table may want memory.
fn short_held<L: Locals>(w: &World, l: &L, variable: VarRef) -> Result<(), Stop>
    requires locals { All (IsLive (extent_of w.now.heap)) (L.items l.now) }
    requires live { IsLiveVariable (reach_of w.now (L.items l.now)) variable }
    ensures short { OnOk result ((outside : Outside) → HoldsShort (setting_of outside w.now (L.items l.now))
        (variable_in (extent_of w.now.heap) variable)) }
    ensures memory { IfErr result (λ stop. stop ≡ NoMemory) }
{
    match variable {
        VarRef::Whole(_) => Ok(()),
        VarRef::Part { root, .. } => match read_root(w, l, root) {
            Ok(val) => {
                short_value(w, val);
                Ok(())
            }
            Err(Stop::Error(_, _)) => Ok(()),
            Err(Stop::NoMemory) => Err(Stop::NoMemory),
        },
    }
}

// A text that a value is is short.
fn short_value(w: &World, val: Val)
    requires { IsLive (extent_of w.now.heap) val }
    ensures { (text : List ℕ) → value_in (extent_of w.now.heap) val ≡ Text text → length text < 2 ^ 63 - 1 }
{
    if let Val::Text(text) = val {
        short_text(&w.heap, text);
    }
}
