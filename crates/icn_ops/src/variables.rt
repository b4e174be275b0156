// The operations that assign to variables and exchange them.
ghost use Rattle.std.specs.Prelude.{◌≡◌, ◌≢◌, true, IfErr, IfOk};
ghost use Rattle.std.specs.List.{All};
ghost use Rattle.icn_value.specs.Store.{Setting};
ghost use Rattle.icn_value.specs.declared.item.Item.TheVariants.{Var as VarItem};
ghost use Rattle.icn_defs.specs.ReadAndAssign.{the_variable};
ghost use Rattle.icn_defs.specs.Variables.{assign_row, reversible_assign_row, reversible_swap_row, swap_row, undo_assign_again, undo_exchange_again};
ghost use Rattle.icn_heap.specs.Extents.{Extent, IsLive, value_in};
ghost use Rattle.icn_heap.specs.Heaps.{extent_of};
ghost use Rattle.icn_vars.specs.Assignments.{takes_no_memory};
ghost use Rattle.icn_vars.specs.declared.outcome.Halt.TheVariants.{NoMemory};
ghost use Rattle.icn_vars.specs.Outcomes.{IsLiveAnswer, IsOld, mover_of};
ghost use Rattle.icn_vars.specs.Stops.{IsLiveStop};
ghost use Rattle.icn_vars.specs.Worlds.{AreLiveTwo, IsLiveItem, IsLiveVariable, KeepsLive, Reach, item_in, reach_of, variable_in};
ghost use Rattle.icn_args.specs.RowWords.{Answers, IsFound};

use icn_value::{Item, Mover, Residual, Val, VarRef};
use icn_vars::{
    Assignment, Exchange, Halt, Locals, Outcome, Stop, World, assign, deref, exchange, mover_of,
    undo, undo_exchange,
};

// The variable that an item is. The error is 111 about the value that it is.
fn variable_of(item: Item) -> Result<VarRef, Stop>
    ensures found { (all : Extent) (setting : Setting)
        → IsFound all (the_variable (item_in all item)) setting setting (variable_in all) result }
    ensures live { (reach : Reach) → IsLiveItem reach item → IfOk result (IsLiveVariable reach) }
    ensures stops { (reach : Reach) → IsLiveItem reach item → IfErr result (IsLiveStop reach.extent) }
    ensures item { IfOk result (λ variable. item ≡ VarItem variable) }
{
    match item {
        Item::Var(variable) => Ok(variable),
        Item::Val(val) => Err(Stop::Error(111, Some(val))),
    }
}

/// `x := y`: the variable, whose old value is not read. It fails where `&pos` would be out of range. The error is 111 where
/// `x` is no variable, or that of the assignment.
#[tactic(auto, using(icn_vars::proofs::KeptItems::keeps_items_refl))]
pub fn assign_row<L: Locals>(w: &mut World, l: &mut L, x: Item, y: Item) -> Result<Outcome, Halt>
    requires live { AreLiveTwo w.old (L.items l.old) x y }
    ensures row { Answers w.old (L.items l.old) w.new (L.items l.new)
        (assign_row (item_in (extent_of w.old.heap) x) (item_in (extent_of w.old.heap) y)) result }
    ensures live { IsLiveAnswer (reach_of w.new (L.items l.new)) result }
    ensures kept { KeepsLive w.old (L.items l.old) w.new (L.items l.new) }
{
    let val = deref(w, l, y)?;
    let target = variable_of(x)?;
    match assign(w, l, target, val)? {
        Assignment::Done(now) => Ok(Outcome::Gives(Item::Var(now))),
        Assignment::OutOfRange => Ok(Outcome::Fails),
    }
}

/// `x :=: y`: the left variable. It fails where `&pos` would be out of range. The error is 111 about an operand that is no
/// variable, or that of an assignment.
#[tactic(auto, using(icn_vars::proofs::KeptItems::keeps_items_refl))]
pub fn swap_row<L: Locals>(w: &mut World, l: &mut L, x: Item, y: Item) -> Result<Outcome, Halt>
    requires live { AreLiveTwo w.old (L.items l.old) x y }
    ensures row { Answers w.old (L.items l.old) w.new (L.items l.new)
        (swap_row (item_in (extent_of w.old.heap) x) (item_in (extent_of w.old.heap) y)) result }
    ensures live { IsLiveAnswer (reach_of w.new (L.items l.new)) result }
    ensures kept { KeepsLive w.old (L.items l.old) w.new (L.items l.new) }
{
    let of_left = deref(w, l, x)?;
    let of_right = deref(w, l, y)?;
    let left = variable_of(x)?;
    let right = variable_of(y)?;
    match exchange(w, l, left, right, of_left, of_right)? {
        Exchange::Done(left, _) => Ok(Outcome::Gives(Item::Var(left))),
        Exchange::OutOfRange => Ok(Outcome::Fails),
    }
}

/// `x <- y`: the variable; resumed, its old value is assigned back. It fails where `&pos` would be out of range. The error
/// is 111 where `x` is no variable, or that of the assignment.
#[tactic(auto, using(icn_vars::proofs::KeptItems::keeps_items_refl))]
pub fn reversible_assign_row<L: Locals>(
    w: &mut World,
    l: &mut L,
    x: Item,
    y: Item,
) -> Result<Outcome, Halt>
    requires live { AreLiveTwo w.old (L.items l.old) x y }
    ensures row { Answers w.old (L.items l.old) w.new (L.items l.new)
        (reversible_assign_row (item_in (extent_of w.old.heap) x) (item_in (extent_of w.old.heap) y)) result }
    ensures live { IsLiveAnswer (reach_of w.new (L.items l.new)) result }
    ensures kept { KeepsLive w.old (L.items l.old) w.new (L.items l.new) }
{
    let old = deref(w, l, x)?;
    let val = deref(w, l, y)?;
    let target = variable_of(x)?;
    match assign(w, l, target, val)? {
        Assignment::Done(variable) => Ok(Outcome::Suspends(
            Item::Var(variable),
            Residual::UndoAssign { variable, old },
        )),
        Assignment::OutOfRange => Ok(Outcome::Fails),
    }
}

/// `x <- y` resumed: the old value is assigned back, and it fails. It takes no memory where the variable is neither a part of a text nor
/// a value at a key of a table.
pub fn undo_assign_again<L: Locals>(
    w: &mut World,
    l: &mut L,
    variable: VarRef,
    old: Val,
) -> Result<Outcome, Halt>
    requires locals { All (IsLive (extent_of w.old.heap)) (L.items l.old) }
    requires old { IsOld (reach_of w.old (L.items l.old)) variable old }
    ensures row { Answers w.old (L.items l.old) w.new (L.items l.new) (undo_assign_again
        (variable_in (extent_of w.old.heap) variable) (value_in (extent_of w.old.heap) old)) result }
    ensures memory { takes_no_memory (variable_in (extent_of w.old.heap) variable) ≡ true
        → IfErr result (λ halt. halt ≢ NoMemory) }
    ensures live { IsLiveAnswer (reach_of w.new (L.items l.new)) result }
    ensures kept { KeepsLive w.old (L.items l.old) w.new (L.items l.new) }
{
    undo(w, l, variable, old)?;
    Ok(Outcome::Fails)
}

/// `x <-> y`: the left variable; resumed, the old values are assigned back. It fails where `&pos` would be out of range. The
/// error is 111 about an operand that is no variable, or that of an assignment.
#[tactic(auto, using(icn_vars::proofs::KeptItems::keeps_items_refl))]
pub fn reversible_swap_row<L: Locals>(
    w: &mut World,
    l: &mut L,
    x: Item,
    y: Item,
) -> Result<Outcome, Halt>
    requires live { AreLiveTwo w.old (L.items l.old) x y }
    ensures row { Answers w.old (L.items l.old) w.new (L.items l.new)
        (reversible_swap_row (item_in (extent_of w.old.heap) x) (item_in (extent_of w.old.heap) y)) result }
    ensures live { IsLiveAnswer (reach_of w.new (L.items l.new)) result }
    ensures kept { KeepsLive w.old (L.items l.old) w.new (L.items l.new) }
{
    let old_left = deref(w, l, x)?;
    let old_right = deref(w, l, y)?;
    let left = variable_of(x)?;
    let right = variable_of(y)?;
    let mover = mover_of(w, l, left, right);
    match exchange(w, l, left, right, old_left, old_right)? {
        Exchange::Done(left, right) => Ok(Outcome::Suspends(
            Item::Var(left),
            Residual::UndoExchange {
                mover,
                left,
                right,
                old_left,
                old_right,
            },
        )),
        Exchange::OutOfRange => Ok(Outcome::Fails),
    }
}

/// `x <-> y` resumed: the old values are assigned back, the left one first, and it fails. It takes no memory where both are whole
/// variables, and none is a key of a table.
pub fn undo_exchange_again<L: Locals>(
    w: &mut World,
    l: &mut L,
    mover: Mover,
    left: VarRef,
    right: VarRef,
    old_left: Val,
    old_right: Val,
) -> Result<Outcome, Halt>
    requires locals { All (IsLive (extent_of w.old.heap)) (L.items l.old) }
    requires left { IsOld (reach_of w.old (L.items l.old)) left old_left }
    requires right { IsOld (reach_of w.old (L.items l.old)) right old_right }
    ensures row { Answers w.old (L.items l.old) w.new (L.items l.new) (undo_exchange_again (mover_of mover)
        (variable_in (extent_of w.old.heap) left) (variable_in (extent_of w.old.heap) right)
        (value_in (extent_of w.old.heap) old_left) (value_in (extent_of w.old.heap) old_right)) result }
    ensures memory { mover ≡ Mover.Neither → takes_no_memory (variable_in (extent_of w.old.heap) left) ≡ true
        → takes_no_memory (variable_in (extent_of w.old.heap) right) ≡ true
        → IfErr result (λ halt. halt ≢ NoMemory) }
    ensures live { IsLiveAnswer (reach_of w.new (L.items l.new)) result }
    ensures kept { KeepsLive w.old (L.items l.old) w.new (L.items l.new) }
{
    undo_exchange(w, l, mover, left, right, old_left, old_right)?;
    Ok(Outcome::Fails)
}
