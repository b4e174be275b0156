// Assigning to variables.
ghost use Rattle.std.specs.Prelude.{◌≡◌, ◌≤◌, true, IfErr};
ghost use Rattle.std.specs.List.{All};
ghost use Rattle.icn_value.specs.Store.{Outside};
ghost use Rattle.icn_value.specs.Values.{Part};
ghost use Rattle.icn_value.specs.declared.item.VarRef.TheVariants.{Part as HeldPart};
ghost use Rattle.icn_defs.specs.RowFacts.{can_hold};
ghost use Rattle.icn_defs.specs.ReadAndAssign.{assigns_or};
ghost use Rattle.icn_heap.specs.Extents.{IsLive, value_in};
ghost use Rattle.icn_heap.specs.Heaps.{extent_of};
ghost use Rattle.icn_vars.specs.Assignments.{AssignsAs, HoldsAlike, IsError, IsLiveAssignment, IsShortAssignment, takes_no_memory};
ghost use Rattle.icn_vars.specs.Worlds.{IsLiveRoot, IsLiveVariable, KeepsLive, reach_of, root_in, setting_of, variable_in};

use crate::assignment::Assignment;
use crate::locals::Locals;
use crate::reading::read_text;
use crate::roots::assign_root;
use crate::stop::Stop;
use crate::texts::{has_text, length_of, made_text, replace};
use crate::world::World;
use icn_heap::short_text;
use icn_value::{Root, Val, VarRef};

/// Assigns a value to a variable. `Error` is 103 or 101 with the value where the variable wants a text or an integer, 103 with
/// what a variable holds where a part of it is no text, 205 where a list element is gone or a part lies beyond its text, 306
/// where a text that is made passes the limit, and 307 where a key of a table does. What was charged before an error stays.
pub fn assign<L: Locals>(
    w: &mut World,
    l: &mut L,
    variable: VarRef,
    val: Val,
) -> Result<Assignment, Stop>
    requires locals { All (IsLive (extent_of w.old.heap)) (L.items l.old) }
    requires variable { IsLiveVariable (reach_of w.old (L.items l.old)) variable }
    requires value { IsLive (extent_of w.old.heap) val }
    ensures assigned { (outside : Outside) → AssignsAs (extent_of w.new.heap) (λ refused. assigns_or refused
        (variable_in (extent_of w.old.heap) variable) (value_in (extent_of w.old.heap) val))
        (setting_of outside w.old (L.items l.old)) (setting_of outside w.new (L.items l.new)) result }
    ensures live { IsLiveAssignment (reach_of w.new (L.items l.new)) result }
    ensures short { IsShortAssignment variable result }
    ensures holds { HoldsAlike (extent_of w.new.heap) (variable_in (extent_of w.old.heap) variable) result }
    ensures memory { takes_no_memory (variable_in (extent_of w.old.heap) variable) ≡ true
        → can_hold (variable_in (extent_of w.old.heap) variable) (value_in (extent_of w.old.heap) val) ≡ true
        → IfErr result IsError }
    ensures kept { KeepsLive w.old (L.items l.old) w.new (L.items l.new) }
{
    match variable {
        VarRef::Whole(root) => {
            if assign_root(w, l, root, val)? {
                Ok(Assignment::Done(variable))
            } else {
                Ok(Assignment::OutOfRange)
            }
        }
        VarRef::Part { root, place, len } => assign_part(w, l, root, place, len, val),
    }
}

// Assigns to a part of the text that a variable holds. The whole text is built and assigned, and the part covers what it got.
fn assign_part<L: Locals>(
    w: &mut World,
    l: &mut L,
    root: Root,
    place: u64,
    len: u64,
    val: Val,
) -> Result<Assignment, Stop>
    requires locals { All (IsLive (extent_of w.old.heap)) (L.items l.old) }
    requires root { IsLiveRoot (reach_of w.old (L.items l.old)) root }
    requires place { 1 ≤ place }
    requires value { IsLive (extent_of w.old.heap) val }
    ensures assigned { (outside : Outside) → AssignsAs (extent_of w.new.heap) (λ refused. assigns_or refused
        (Part (root_in (extent_of w.old.heap) root) place len) (value_in (extent_of w.old.heap) val))
        (setting_of outside w.old (L.items l.old)) (setting_of outside w.new (L.items l.new)) result }
    ensures live { IsLiveAssignment (reach_of w.new (L.items l.new)) result }
    ensures short { IsShortAssignment (HeldPart root place len) result }
    ensures holds { HoldsAlike (extent_of w.new.heap)
        (Part (root_in (extent_of w.old.heap) root) place len) result }
    ensures kept { KeepsLive w.old (L.items l.old) w.new (L.items l.new) }
{
    if !has_text(val) {
        return Err(Stop::Error(103, Some(val)));
    }
    let whole = read_text(w, l, root, place, len)?;
    short_text(&w.heap, whole);
    let new = made_text(w, l, val)?;
    short_text(&w.heap, new);
    let size = length_of(w, new);
    let text = replace(w, l, whole, place, len, new)?;
    if assign_root(w, l, root, Val::Text(text))? {
        Ok(Assignment::Done(VarRef::Part {
            root,
            place,
            len: size,
        }))
    } else {
        Ok(Assignment::OutOfRange)
    }
}
