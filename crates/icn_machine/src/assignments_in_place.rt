// Assignments that are done on the stack and in the world at once, to variables that are told as they stand: globals, statics, elements of
// lists, fields of records, and keys of tables that are integers. The value may be held by any variable.
ghost use Rattle.std.specs.Prelude.{◌≡◌, ℕ, [], Some, IfSome, IsSome, IsTrue};
ghost use Rattle.icn_text.specs.declared.op.Op.TheVariants as Ops;
ghost use Rattle.icn_value.specs.declared.item.Item.TheVariants as Items;
ghost use Rattle.icn_value.specs.declared.item.Root.TheVariants as Roots;
ghost use Rattle.icn_value.specs.declared.item.VarRef.TheVariants as VarRefs;
ghost use Rattle.icn_value.specs.declared.residual.Residual.TheVariants as Residuals;
ghost use Rattle.icn_defs.specs.Arities.{arity};
ghost use Rattle.icn_heap.specs.Extents.{IsLive};
ghost use Rattle.icn_heap.specs.Heaps.{extent_of};
ghost use Rattle.icn_vars.specs.Worlds.{IsLiveRoot, KeepsLive, reach_of};
ghost use Rattle.icn_frames.specs.Slots.{plain_operand};
ghost use Rattle.icn_code.specs.Codes.{Tables};
ghost use Rattle.icn_code.specs.declared.instr.Instr.TheVariants as Instrs;
ghost use Rattle.icn_control.specs.LiveStacks.{IsLiveStack, with_locals};
ghost use Rattle.icn_control.specs.TakenOperands.{KeepsCounts, take_operands};
ghost use Rattle.icn_machine.specs.AssignmentsInPlace.{IsInWorld, PutsInto};
ghost use Rattle.icn_machine.specs.TurnsAtOnce.{DoesAsTurn, FailsInTurn};
ghost use Rattle.icn_machine.specs.declared.at_once.AtOnce.TheVariants as AtOnces;

use crate::at_once::AtOnce;
use crate::held_values::value_held;
use icn_frames::{Cell, Frames, Stack};
use icn_text::Op;
use icn_value::{Residual, Root, Val, VarRef};
use icn_vars::World;

// The variable that an operand is, if it may stand in the world and its slot tells it.
#[inline(always)]
fn root_of(slot: Cell) -> Option<Root>
    ensures { IfSome result (λ root. plain_operand slot ≡ Some (Items.Var (VarRefs.Whole root))) }
{
    match slot {
        Cell::VarGlobal(index) => Some(Root::Global(index)),
        Cell::VarStatic(index) => Some(Root::Static(index)),
        Cell::VarElement { list, number } => Some(Root::Element { list, number }),
        Cell::VarField { rec, place } => Some(Root::Field {
            rec,
            place: (place % 65536) as u16,
        }),
        Cell::VarKey { table, key } => Some(Root::Key {
            table,
            key: Val::Integer(key),
        }),
        _ => None,
    }
}

// Whether the element of a list is there.
#[inline(always)]
fn has_element(world: &World, list: u32, number: i64) -> bool
    requires { (locals : ℕ) × IsLiveRoot (with_locals locals (reach_of world.now [])) (Roots.Element list number) }
    ensures { IsTrue result → IsInWorld world.now (Roots.Element list number) }
{
    world.heap.item(list, number).is_some()
}

// Whether a limit leaves room for a cell.
#[inline(always)]
fn has_room(world: &World) -> bool {
    world.heap.room_for_cells(1).is_ok()
}

// Whether a variable stands in the world, and is there. For a key that is new there must be room.
#[inline(always)]
fn is_in_world(world: &World, root: Root) -> bool
    requires { (locals : ℕ) × IsLiveRoot (with_locals locals (reach_of world.now [])) root }
    ensures { IsTrue result → IsInWorld world.now root }
{
    match root {
        Root::Global(_) => true,
        Root::Static(_) => true,
        Root::Element { list, number } => has_element(world, list, number),
        Root::Field { .. } => true,
        Root::Key { .. } => has_room(world),
        Root::Local(_) => false,
        Root::Keyword(_) => false,
    }
}

// Gives an element of a list another value, which must be there.
#[tactic(auto, using(icn_vars::proofs::GrowingWorlds::grows, icn_vars::proofs::GrowingWorlds::locals_grow))]
fn put_element(world: &mut World, list: u32, number: i64, val: Val)
    requires live { (locals : ℕ)
        × IsLiveRoot (with_locals locals (reach_of world.old [])) (Roots.Element list number) }
    requires there { IsInWorld world.old (Roots.Element list number) }
    requires value { IsLive (extent_of world.old.heap) val }
    ensures puts { PutsInto world.old (Roots.Element list number) val world.new }
    ensures kept { KeepsLive world.old [] world.new [] }
    ensures counts { KeepsCounts world.old world.new }
{
    world.heap.set_item(list, number, val);
}

// Gives a field of a record another value.
#[tactic(auto, using(icn_vars::proofs::GrowingWorlds::grows, icn_vars::proofs::GrowingWorlds::locals_grow))]
fn put_field(world: &mut World, rec: u32, place: u16, val: Val)
    requires live { (locals : ℕ)
        × IsLiveRoot (with_locals locals (reach_of world.old [])) (Roots.Field rec place) }
    requires value { IsLive (extent_of world.old.heap) val }
    ensures puts { PutsInto world.old (Roots.Field rec place) val world.new }
    ensures kept { KeepsLive world.old [] world.new [] }
    ensures counts { KeepsCounts world.old world.new }
{
    world.heap.set_field(rec, place, val);
}

// Stores a value at a key of a table. `false` is want of memory.
#[tactic(auto, using(icn_vars::proofs::GrowingWorlds::grows, icn_vars::proofs::GrowingWorlds::locals_grow))]
fn put_key(world: &mut World, table: u32, key: Val, val: Val) -> bool
    requires live { (locals : ℕ)
        × IsLiveRoot (with_locals locals (reach_of world.old [])) (Roots.Key table key) }
    requires value { IsLive (extent_of world.old.heap) val }
    ensures puts { IsTrue result → PutsInto world.old (Roots.Key table key) val world.new }
    ensures kept { IsTrue result → KeepsLive world.old [] world.new [] }
    ensures counts { IsTrue result → KeepsCounts world.old world.new }
{
    match world.heap.store(table, key, val) {
        Ok(()) => true,
        Err(_) => false,
    }
}

// Gives a variable of the world another value. `false` is want of memory, which comes only where the variable is a key of a table.
#[inline(always)]
#[tactic(auto, using(icn_vars::proofs::GrowingWorlds::grows, icn_vars::proofs::GrowingWorlds::locals_grow, icn_vars::proofs::KeptItems::keeps_items_refl))]
fn put_into(world: &mut World, root: Root, val: Val) -> bool
    requires live { (locals : ℕ) × IsLiveRoot (with_locals locals (reach_of world.old [])) root }
    requires there { IsInWorld world.old root }
    requires value { IsLive (extent_of world.old.heap) val }
    ensures puts { IsTrue result → PutsInto world.old root val world.new }
    ensures kept { IsTrue result → KeepsLive world.old [] world.new [] }
    ensures counts { IsTrue result → KeepsCounts world.old world.new }
{
    match root {
        Root::Global(place) => {
            world.globals[place as usize] = val;
            true
        }
        Root::Static(place) => {
            world.statics[place as usize] = val;
            true
        }
        Root::Element { list, number } => {
            put_element(world, list, number, val);
            true
        }
        Root::Field { rec, place } => {
            put_field(world, rec, place, val);
            true
        }
        Root::Key { table, key } => put_key(world, table, key, val),
        Root::Local(_) => unreachable!(),
        Root::Keyword(_) => unreachable!(),
    }
}

// Assigns the value of the top operand to the variable below it, which is pushed: `x := y`. It does so where the variable stands in the
// world and is told as it stands. Elsewhere nothing changes. The operands must be there.
fn assign_in_world<K: Stack<Cell> + Drop>(frames: &mut Frames<K>, world: &mut World) -> AtOnce
    requires operands { IsSome (take_operands 2 frames.old.flat) }
    requires live { (tables : Tables) × IsLiveStack tables (reach_of world.old []) frames.old.flat }
    ensures { (tables : Tables) → DoesAsTurn tables (Instrs.Op Ops.Assign) world.old frames.old.flat
        world.new frames.new.flat result }
{
    let slot = frames.slot_below(1);
    let Some(root) = root_of(slot) else {
        return AtOnce::Not;
    };
    if !is_in_world(world, root) {
        return AtOnce::Not;
    }
    let Some(val) = value_held(frames, world, 0) else {
        return AtOnce::Not;
    };
    if !put_into(world, root, val) {
        return AtOnce::NoMemory;
    }
    frames.drop_with(1);
    frames.local_count();
    match frames.push_plain(slot) {
        Ok(()) => AtOnce::Running,
        Err(_) => AtOnce::NoMemory,
    }
}

// Assigns the value of the top operand to the variable below it, so that it is taken back where it is resumed: `x <- y`. It does so
// where the variable stands in the world and is told as it stands. Elsewhere nothing changes. The operands must be there.
fn assign_reversibly<K: Stack<Cell> + Drop>(frames: &mut Frames<K>, world: &mut World) -> AtOnce
    requires operands { IsSome (take_operands 2 frames.old.flat) }
    requires live { (tables : Tables) × IsLiveStack tables (reach_of world.old []) frames.old.flat }
    ensures { (tables : Tables) → DoesAsTurn tables (Instrs.Op Ops.ReversibleAssign) world.old
        frames.old.flat world.new frames.new.flat result }
{
    let slot = frames.slot_below(1);
    let Some(root) = root_of(slot) else {
        return AtOnce::Not;
    };
    if !is_in_world(world, root) {
        return AtOnce::Not;
    }
    let Some(old) = value_held(frames, world, 1) else {
        return AtOnce::Not;
    };
    let Some(val) = value_held(frames, world, 0) else {
        return AtOnce::Not;
    };
    let undo = Residual::UndoAssign {
        variable: VarRef::Whole(root),
        old,
    };
    if !put_into(world, root, val) {
        return AtOnce::NoMemory;
    }
    frames.drop_with(1);
    frames.local_count();
    match frames.suspend_row(&undo, slot) {
        Ok(()) => AtOnce::Running,
        Err(_) => AtOnce::NoMemory,
    }
}

/// Performs `x := y` or `x <- y` where that is done at once. Elsewhere, and for other operations, nothing changes. Its operands must be
/// there.
#[inline(always)]
pub fn assign_in_place<K: Stack<Cell> + Drop>(
    frames: &mut Frames<K>,
    world: &mut World,
    op: Op,
) -> AtOnce
    requires operands { IsSome (take_operands (arity op) frames.old.flat) }
    requires live { (tables : Tables) × IsLiveStack tables (reach_of world.old []) frames.old.flat }
    ensures { (tables : Tables) → DoesAsTurn tables (Instrs.Op op) world.old frames.old.flat world.new
        frames.new.flat result }
{
    match op {
        Op::Assign => assign_in_world(frames, world),
        Op::ReversibleAssign => assign_reversibly(frames, world),
        _ => AtOnce::Not,
    }
}

// The variable to which an assignment is taken back, where it is a whole one, and what it held.
#[inline(always)]
fn undone_by(rest: Residual) -> Option<(Root, Val)>
    ensures { IfSome result (λ undo. rest ≡ Residuals.UndoAssign (VarRefs.Whole undo.0) undo.1) }
{
    match rest {
        Residual::UndoAssign {
            variable: VarRef::Whole(root),
            old,
        } => Some((root, old)),
        _ => None,
    }
}

/// A step of failing that takes an assignment back, where that is the newest suspension and its variable stands in the world. Elsewhere
/// nothing changes.
pub fn undo_in_place<K: Stack<Cell> + Drop>(frames: &mut Frames<K>, world: &mut World) -> AtOnce
    requires { (tables : Tables) × IsLiveStack tables (reach_of world.old []) frames.old.flat }
    ensures fails { FailsInTurn world.old frames.old.flat world.new frames.new.flat result }
    ensures not_done { result ≡ AtOnces.Not → (frames.new ≡ frames.old) × (world.new ≡ world.old) }
{
    let Some(rest) = frames.newest_residual() else {
        return AtOnce::Not;
    };
    let Some(undo) = undone_by(rest) else {
        return AtOnce::Not;
    };
    if !is_in_world(world, undo.0) {
        return AtOnce::Not;
    }
    if !put_into(world, undo.0, undo.1) {
        return AtOnce::NoMemory;
    }
    frames.resume_newest();
    frames.local_count();
    AtOnce::Failing
}
