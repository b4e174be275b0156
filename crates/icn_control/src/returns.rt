// Instructions that end a procedure, or suspend it.
ghost use Rattle.std.specs.Prelude.{◌≡◌, ◌<◌, ℕ, [], true, false, Some, IsSome, IfOk, IfErr, MatchResult};
ghost use Rattle.icn_value.specs.declared.val.Val.{Val};
ghost use Rattle.icn_value.specs.declared.item.Item.TheVariants as Items;
ghost use Rattle.icn_code.specs.Codes.{Tables};
ghost use Rattle.icn_code.specs.declared.instr.Instr.TheVariants as Instrs;
ghost use Rattle.icn_heap.specs.Extents.{IsLive};
ghost use Rattle.icn_heap.specs.Heaps.{extent_of};
ghost use Rattle.icn_vars.specs.Outcomes.{IsLiveHalt};
ghost use Rattle.icn_vars.specs.Stops.{IsLiveStop, halt_of};
ghost use Rattle.icn_vars.specs.Worlds.{IsLiveItem, item_in, reach_of, world_of};
ghost use Rattle.icn_frames.specs.Slots.{plain_operand};
ghost use Rattle.icn_frames.specs.Stacks as flat;
ghost use Rattle.icn_frames.specs.Stacks.{FlatStack};
ghost use Rattle.icn_run.specs.Rows.{Item as ItemRead};
ghost use Rattle.icn_run.specs.Stacks.{Frames as FramesRead, flat as calls};
ghost use Rattle.icn_run.specs.Step.{State, Store, proc_fails, with_result};
ghost use Rattle.icn_control.specs.LiveStacks.{IsLiveStack, StaysLive, with_locals};
ghost use Rattle.icn_control.specs.StackAndWorld.{ComesWith, HaltsWith, RunsAlone, StandsWith};
ghost use Rattle.icn_control.specs.PlainValues.{TakesValue};
ghost use Rattle.icn_control.specs.Results.{is_local_item, is_local_root};
ghost use Rattle.icn_control.specs.StackViews.{instruction_state, stack_in};
ghost use Rattle.icn_control.specs.Soundness.{KeepsHeap, UnlessEnded};

use crate::machine::RunState;
use crate::on_stack::{put, put_slot};
use crate::plain_values::value_slot;
use crate::scans::swap_if_scanning;
use crate::values::value_of;
use crate::world::restore_pair;
use icn_frames::{Cell, Frames, Stack, Why};
use icn_value::{Item, Root, VarRef};
use icn_vars::{Halt, Stop, World};

// Whether a variable is rooted in a local.
fn is_local_root(root: Root) -> bool
    ensures { result ≡ is_local_root root }
{
    match root {
        Root::Local(_) => true,
        Root::Global(_) => false,
        Root::Static(_) => false,
        Root::Element { .. } => false,
        Root::Field { .. } => false,
        Root::Key { .. } => false,
        Root::Keyword(_) => false,
    }
}

// Whether an item is a local, or a part of one.
fn is_local(item: Item) -> bool
    ensures { result ≡ is_local_item item }
{
    match item {
        Item::Val(_) => false,
        Item::Var(VarRef::Whole(root)) => is_local_root(root),
        Item::Var(VarRef::Part { root, .. }) => is_local_root(root),
    }
}

/// What a procedure gives of a result: of a local, or a part of one, its value. The error is that of the value.
pub fn result_of<K: Stack<Cell> + Drop>(
    frames: &mut Frames<K>,
    world: &World,
    item: Item,
) -> Result<Item, Stop>
    requires stack { (tables : Tables) × IsLiveStack tables (reach_of world.now []) frames.old.flat }
    requires item { IsLiveItem (with_locals (flat.local_count frames.old.flat) (reach_of world.now [])) item }
    ensures same { frames.new.flat ≡ frames.old.flat }
    ensures spare { frames.new.spare ≡ frames.old.spare }
    ensures live { IfOk result (λ x. (n : ℕ) → IsLiveItem (with_locals n (reach_of world.now [])) x) }
    ensures stops { IfErr result (IsLiveStop (extent_of world.now.heap)) }
    ensures value { (st : Store FramesRead) (next : ItemRead → State FramesRead FramesRead)
        → st.world ≡ world_of world.now
        → MatchResult result (λ x. with_result calls (item_in (extent_of world.now.heap) item)
        (stack_in (extent_of world.now.heap) frames.old.flat) st next
        ≡ next (item_in (extent_of world.now.heap) x))
        (λ stop. HaltsWith (with_result calls (item_in (extent_of world.now.heap) item)
        (stack_in (extent_of world.now.heap) frames.old.flat) st next) st world.now
        (stack_in (extent_of world.now.heap) frames.old.flat) (halt_of stop)) }
{
    if is_local(item) {
        let v = value_of(frames, world, item)?;
        return Ok(Item::Val(v));
    }
    Ok(item)
}

/// Ends the procedure, which fails, and all its scans are left. It takes no memory.
pub fn leave_failing<K: Stack<Cell> + Drop>(frames: &mut Frames<K>, world: &mut World) -> RunState
    requires live { (tables : Tables) × IsLiveStack tables (reach_of world.old []) frames.old.flat }
    ensures step { (st : Store FramesRead) → st.world ≡ world_of world.old
        → StandsWith (proc_fails calls (stack_in (extent_of world.old.heap) frames.old.flat) st) st world.new
        frames.new.flat result }
    ensures live { (tables : Tables) → IsLiveStack tables (reach_of world.old []) frames.old.flat
        → IsLiveStack tables (reach_of world.new []) frames.new.flat }
    ensures same { KeepsHeap world.old world.new }
{
    let pair = frames.oldest_pair();
    restore_pair(world, pair);
    if frames.is_base() {
        return RunState::Over;
    }
    frames.leave();
    RunState::Failing
}

/// Ends the procedure, which fails, as it has no more instructions. It takes no memory.
pub fn fail_procedure<K: Stack<Cell> + Drop>(frames: &mut Frames<K>, world: &mut World) -> RunState
    requires live { (tables : Tables) × IsLiveStack tables (reach_of world.old []) frames.old.flat }
    ensures step { (tables : Tables) (st : Store FramesRead) → st.world ≡ world_of world.old
        → StandsWith (instruction_state (extent_of world.old.heap) tables Instrs.Pfail frames.old.flat st) st
        world.new frames.new.flat result }
    ensures live { (tables : Tables) → IsLiveStack tables (reach_of world.old []) frames.old.flat
        → IsLiveStack tables (reach_of world.new []) frames.new.flat }
    ensures same { KeepsHeap world.old world.new }
{
    leave_failing(frames, world)
}

/// Returns with a value, by its slot, beside which nothing may be kept; the operand was taken. It takes no memory.
#[inline(always)]
pub fn leave_with<K: Stack<Cell> + Drop>(
    frames: &mut Frames<K>,
    world: &mut World,
    value: Cell,
) -> RunState
    requires room { 0 < frames.old.spare }
    requires value { IsSome (plain_operand value) }
    requires live { (tables : Tables) × IsLiveStack tables (reach_of world.old []) frames.old.flat }
    ensures step { (m : FlatStack) → TakesValue m frames.old.flat value
        → (tables : Tables) (st : Store FramesRead) → st.world ≡ world_of world.old
        → StandsWith (instruction_state (extent_of world.old.heap) tables Instrs.Pret m st) st world.new
        frames.new.flat result }
    ensures live { (tables : Tables) (v : Val) → plain_operand value ≡ Some (Items.Val v)
        → IsLive (extent_of world.old.heap) v → IsLiveStack tables (reach_of world.old []) frames.old.flat
        → IsLiveStack tables (reach_of world.new []) frames.new.flat }
    ensures same { KeepsHeap world.old world.new }
{
    let pair = frames.oldest_pair();
    restore_pair(world, pair);
    if frames.is_base() {
        return RunState::Over;
    }
    frames.leave();
    put_slot(frames, value);
    RunState::Running
}

/// Returns from the procedure with the top operand, and all its scans are left.
///
/// The error is that of the value.
pub fn give_back<K: Stack<Cell> + Drop>(
    frames: &mut Frames<K>,
    world: &mut World,
) -> Result<RunState, Halt>
    requires operand { IsSome (flat.pop frames.old.flat) }
    requires live { (tables : Tables) × IsLiveStack tables (reach_of world.old []) frames.old.flat }
    ensures step { ComesWith Instrs.Pret world.old frames.old.flat world.new frames.new.flat result }
    ensures live { (tables : Tables) → IsLiveStack tables (reach_of world.old []) frames.old.flat
        → UnlessEnded result (IsLiveStack tables (reach_of world.new []) frames.new.flat) }
    ensures halt { IfErr result (IsLiveHalt (reach_of world.new [])) }
    ensures same { KeepsHeap world.old world.new }
{
    let x = frames.pop();
    let r = result_of(frames, world, x)?;
    let pair = frames.oldest_pair();
    restore_pair(world, pair);
    if frames.is_base() {
        return Ok(RunState::Over);
    }
    frames.leave();
    put(frames, r);
    Ok(RunState::Running)
}

/// Suspends the procedure with the top operand, which stays in it; of its scans the caller's pair comes back.
///
/// The error is that of the value, or want of memory.
pub fn suspend_with<K: Stack<Cell> + Drop>(
    frames: &mut Frames<K>,
    world: &mut World,
) -> Result<RunState, Halt>
    requires operand { IsSome (flat.pop frames.old.flat) }
    requires live { (tables : Tables) × IsLiveStack tables (reach_of world.old []) frames.old.flat }
    ensures step { ComesWith Instrs.Psusp world.old frames.old.flat world.new frames.new.flat result }
    ensures live { (tables : Tables) → IsLiveStack tables (reach_of world.old []) frames.old.flat
        → UnlessEnded result (IsLiveStack tables (reach_of world.new []) frames.new.flat) }
    ensures halt { IfErr result (IsLiveHalt (reach_of world.new [])) }
    ensures same { KeepsHeap world.old world.new }
{
    let x = frames.pop();
    put(frames, x);
    let r = result_of(frames, world, x)?;
    swap_if_scanning(frames, world);
    if frames.is_base() {
        return Ok(RunState::Over);
    }
    match frames.suspend(Why::Proc, Some(r)) {
        Ok(()) => Ok(RunState::Running),
        Err(_) => Err(Halt::NoMemory),
    }
}

/// Suspends the procedure with the value of the top operand, which stays in it, where slots tell that value, no scan is open and
/// the caller is on this stack. Elsewhere, and for want of memory, nothing changes.
#[inline(always)]
pub fn suspend_value<K: Stack<Cell> + Drop>(frames: &mut Frames<K>) -> bool
    requires { IsSome (flat.pop frames.old.flat) }
    ensures step { result ≡ true → RunsAlone Instrs.Psusp frames.old.flat frames.new.flat }
    ensures live { result ≡ true → StaysLive frames.old.flat frames.new.flat }
    ensures not_done { result ≡ false → frames.new.flat ≡ frames.old.flat }
{
    let slot = frames.top();
    let Some(value) = value_slot(frames, slot) else {
        return false;
    };
    if frames.is_scanning() {
        return false;
    }
    if frames.is_base() {
        return false;
    }
    match frames.suspend_proc_plain(value) {
        Ok(()) => true,
        Err(_) => false,
    }
}
