// Scans: the pair of the world against those that open scans saved.
ghost use Rattle.std.specs.Prelude.{◌≡◌, ◌<◌, [], true, Some, is_some, IsSome, IfSome, OnOk};
ghost use Rattle.icn_code.specs.Codes.{Tables};
ghost use Rattle.icn_code.specs.declared.instr.Instr.TheVariants as Instrs;
ghost use Rattle.icn_heap.specs.Heaps.{extent_of};
ghost use Rattle.icn_vars.specs.Worlds.{reach_of, world_of};
ghost use Rattle.icn_value.specs.declared.item.Item.{Item};
ghost use Rattle.icn_frames.specs.Slots.{plain_operand};
ghost use Rattle.icn_frames.specs.Stacks as flat;
ghost use Rattle.icn_frames.specs.Stacks.{FlatStack};
ghost use Rattle.icn_control.specs.LiveStacks.{IsLiveStack};
ghost use Rattle.icn_control.specs.Pairs.{world_with_pair};
ghost use Rattle.icn_control.specs.StackAndWorld.{DoesWith, RunsWith};
ghost use Rattle.icn_control.specs.StackViews.{instruction_state, pair_in, stack_in};
ghost use Rattle.icn_run.specs.Stacks.{Frames as FramesRead, flat as calls};
ghost use Rattle.icn_run.specs.Step.{State, Store, maybe_exchanged, pair_now, with_world};
ghost use Rattle.icn_control.specs.Soundness.{KeepsHeap};

use crate::world::set_pair;
use icn_frames::{Cell, Frames, Stack, Why, is_plain_operand};
use icn_vars::{Halt, World};
use std::alloc::AllocError;

/// Exchanges the pair of the world with that of the oldest open scan of the procedure, or of the newest one. One must be open.
/// It takes no memory.
pub fn swap_pairs<K: Stack<Cell> + Drop>(frames: &mut Frames<K>, world: &mut World, oldest: bool)
    requires scan { IsSome frames.old.flat.registers.scan }
    requires live { (tables : Tables) × IsLiveStack tables (reach_of world.old []) frames.old.flat }
    ensures stack { flat.swap_by oldest world.old.pair frames.old.flat
        ≡ Some (world.new.pair, frames.new.flat) }
    ensures spare { frames.new.spare ≡ frames.old.spare }
    ensures live { (tables : Tables) → IsLiveStack tables (reach_of world.old []) frames.old.flat
        → IsLiveStack tables (reach_of world.new []) frames.new.flat }
    ensures world { world_of world.new
        ≡ world_with_pair (pair_in (extent_of world.old.heap) world.new.pair) (world_of world.old) }
    ensures same { KeepsHeap world.old world.new }
{
    let pair = frames.swap_pair(oldest, world.pair);
    set_pair(world, pair);
}

/// Exchanges the pair of the world with that of the oldest open scan of the procedure, if one is open. It takes no memory.
pub fn swap_if_scanning<K: Stack<Cell> + Drop>(frames: &mut Frames<K>, world: &mut World)
    requires live { (tables : Tables) × IsLiveStack tables (reach_of world.old []) frames.old.flat }
    ensures step { (st : Store FramesRead)
        (next : FramesRead → Store FramesRead → State FramesRead FramesRead)
        → st.world ≡ world_of world.old → maybe_exchanged (calls.swap_oldest (pair_now st)
        (stack_in (extent_of world.old.heap) frames.old.flat))
        (stack_in (extent_of world.old.heap) frames.old.flat) st next
        ≡ next (stack_in (extent_of world.new.heap) frames.new.flat) (with_world (world_of world.new) st) }
    ensures spare { frames.new.spare ≡ frames.old.spare }
    ensures live { (tables : Tables) → IsLiveStack tables (reach_of world.old []) frames.old.flat
        → IsLiveStack tables (reach_of world.new []) frames.new.flat }
    ensures same { KeepsHeap world.old world.new }
{
    if frames.is_scanning() {
        swap_pairs(frames, world, true);
    }
}

// Leaves the newest open scan with the top operand, whose slot tells it.
#[inline(always)]
fn scan_left_plain<K: Stack<Cell> + Drop>(
    frames: &mut Frames<K>,
    world: &mut World,
    slot: Cell,
) -> Result<(), AllocError>
    requires operand { IsSome (flat.pop frames.old.flat) }
    requires plain { is_some (plain_operand slot) ≡ true }
    requires told { (x : Item) (rest : FlatStack) → flat.pop frames.old.flat ≡ Some (x, rest)
        → (y : Item) → plain_operand slot ≡ Some y → x ≡ y }
    requires scan { IsSome frames.old.flat.registers.scan }
    requires live { (tables : Tables) × IsLiveStack tables (reach_of world.old []) frames.old.flat }
    ensures step { OnOk result ((tables : Tables) (st : Store FramesRead) → st.world ≡ world_of world.old
        → RunsWith (instruction_state (extent_of world.old.heap) tables Instrs.Escan frames.old.flat st) st
        world.new frames.new.flat) }
    ensures live { (tables : Tables) → IsLiveStack tables (reach_of world.old []) frames.old.flat
        → OnOk result (IsLiveStack tables (reach_of world.new []) frames.new.flat) }
    ensures same { KeepsHeap world.old world.new }
{
    frames.drop_top();
    swap_pairs(frames, world, false);
    frames.suspend_escan(slot)?;
    Ok(())
}

/// Leaves the newest open scan, which must be there, with the top operand as its result. The error is want of memory.
pub fn scan_left<K: Stack<Cell> + Drop>(
    frames: &mut Frames<K>,
    world: &mut World,
) -> Result<(), AllocError>
    requires operand { IsSome (flat.pop frames.old.flat) }
    requires scan { IsSome frames.old.flat.registers.scan }
    requires live { (tables : Tables) × IsLiveStack tables (reach_of world.old []) frames.old.flat }
    ensures step { OnOk result ((tables : Tables) (st : Store FramesRead) → st.world ≡ world_of world.old
        → RunsWith (instruction_state (extent_of world.old.heap) tables Instrs.Escan frames.old.flat st) st
        world.new frames.new.flat) }
    ensures live { (tables : Tables) → IsLiveStack tables (reach_of world.old []) frames.old.flat
        → OnOk result (IsLiveStack tables (reach_of world.new []) frames.new.flat) }
    ensures same { KeepsHeap world.old world.new }
{
    let slot = frames.top();
    if is_plain_operand(slot) {
        return scan_left_plain(frames, world, slot);
    }
    let x = frames.pop();
    swap_pairs(frames, world, false);
    frames.suspend(Why::Escan, Some(x))?;
    Ok(())
}

/// The same, with a halt for want of memory.
pub fn leave_scan<K: Stack<Cell> + Drop>(
    frames: &mut Frames<K>,
    world: &mut World,
) -> Result<(), Halt>
    requires operand { IsSome (flat.pop frames.old.flat) }
    requires scan { IsSome frames.old.flat.registers.scan }
    requires live { (tables : Tables) × IsLiveStack tables (reach_of world.old []) frames.old.flat }
    ensures step { DoesWith Instrs.Escan world.old frames.old.flat world.new frames.new.flat result }
    ensures live { (tables : Tables) → IsLiveStack tables (reach_of world.old []) frames.old.flat
        → OnOk result (IsLiveStack tables (reach_of world.new []) frames.new.flat) }
    ensures same { KeepsHeap world.old world.new }
{
    match scan_left(frames, world) {
        Ok(()) => Ok(()),
        Err(_) => Err(Halt::NoMemory),
    }
}
