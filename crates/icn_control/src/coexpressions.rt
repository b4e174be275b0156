// Co-expressions that are made.
ghost use Rattle.std.specs.Prelude.{◌≡◌, ◌<◌, ◌^◌, ℕ, suc, [], length, slice_index, IsSome, IfOk, OnOk, OnErr, IfErr};
ghost use Rattle.icn_value.specs.declared.val.Val.TheVariants.{Coexp as HeldCoexp};
ghost use Rattle.icn_text.specs.declared.op.Op.TheVariants as Ops;
ghost use Rattle.icn_value.specs.Store.{Outside};
ghost use Rattle.icn_heap.specs.Extents.{IsLive};
ghost use Rattle.icn_heap.specs.Heaps.{extent_of, heap_of};
ghost use Rattle.icn_vars.specs.Stops.{IsLiveStop};
ghost use Rattle.icn_vars.specs.Worlds.{KeepsItems, reach_of};
ghost use Rattle.icn_frames.specs.Stacks as flat;
ghost use Rattle.icn_code.specs.Codes.{Tables};
ghost use Rattle.icn_code.specs.declared.instr.Instr.TheVariants as Instrs;
ghost use Rattle.icn_run.specs.Rows.{ACoexp};
ghost use Rattle.icn_run.specs.Stacks.{flat as calls};
ghost use Rattle.icn_run.specs.Step.{refresh};
ghost use Rattle.icn_control.specs.Creations.{MakesCoexp, copy_entry, create_entry};
ghost use Rattle.icn_control.specs.Machines.{ComesTo, does, stack_of, stack_seen, store_seen};
ghost use Rattle.icn_control.specs.Soundness.{IsRunnable, StaysSound};

use crate::machine::{Machine, RunState};
use crate::on_stack::put;
use crate::transfers::{coexp_of, take_value};
use icn_coexp::Stacks;
use icn_frames::{Cell, Frames, Stack};
use icn_heap::{few_coexps, live_numbers};
use icn_value::{Item, Val};
use icn_vars::{Halt, Stop, World};
use std::alloc::{AllocError, Global};

/// Makes a co-expression with the present values of the locals, as a turn: it begins at the present address, and the code goes on
/// at a label with its value.
///
/// The error is 307 or want of memory.
pub fn create<K: Stack<Cell> + Drop>(m: &mut Machine<K>, label: u32) -> Result<RunState, Halt>
    requires stands { IsRunnable m.old }
    ensures step { (tables : Tables) (outside : Outside)
        → ComesTo tables outside (does tables outside (Instrs.Create label) m.old) m.new result }
    ensures keeps { StaysSound m.old m.new result }
{
    if m.turns >= m.limits.turns {
        return Ok(RunState::AtBound);
    }
    m.turns += 1;
    let count = m.stacks.frames().local_count();
    charge_coexp(&mut m.world, count)?;
    match add_here(&mut m.stacks, *m.begun.allocator(), label) {
        Ok(()) => Ok(RunState::Running),
        Err(_) => Err(Halt::NoMemory),
    }
}

/// Makes a co-expression as another one was made, which is the top operand, as a turn. The operand must be there.
///
/// The error is that of the value, 118 where it is no co-expression, 215 where it is `&main`, 307, or want of memory.
pub fn refresh<K: Stack<Cell> + Drop>(m: &mut Machine<K>) -> Result<RunState, Halt>
    requires stands { IsRunnable m.old }
    requires operand { IsSome (flat.pop (stack_of m.old)) }
    ensures step { (tables : Tables) (outside : Outside)
        → ComesTo tables outside (does tables outside (Instrs.Op Ops.Refresh) m.old) m.new result }
    ensures keeps { StaysSound m.old m.new result }
{
    if m.turns >= m.limits.turns {
        return Ok(RunState::AtBound);
    }
    m.turns += 1;
    let v = take_value(m.stacks.frames(), &m.world)?;
    let Some(id) = coexp_of(v) else {
        return Err(Halt::Error(118, Some(v)));
    };
    if id == 0 {
        return Err(Halt::Error(215, Some(v)));
    }
    live_numbers(&m.world.heap);
    make_again(m, id)
}

// Makes a co-expression as another one was made, where a turn was counted. The stack that runs must have room for an operand.
fn make_again<K: Stack<Cell> + Drop>(m: &mut Machine<K>, id: u32) -> Result<RunState, Halt>
    requires stands { IsRunnable m.old }
    requires room { 0 < m.old.stacks.spare }
    requires other { 0 < id }
    requires there { id < length m.old.stacks.table.coexps }
    ensures step { (tables : Tables) (outside : Outside) → ComesTo tables outside
        (refresh calls (ACoexp id) (stack_seen m.old) (store_seen tables outside m.old)) m.new result }
    ensures keeps { StaysSound m.old m.new result }
{
    m.stacks.frames().local_count();
    let count = m.stacks.value_count(id);
    charge_coexp(&mut m.world, count)?;
    match add_copy(&mut m.stacks, *m.begun.allocator(), id) {
        Ok(()) => Ok(RunState::Running),
        Err(_) => Err(Halt::NoMemory),
    }
}

/// Charges a co-expression of so many locals, which is the next one of the heap. The errors are 307 and want of memory.
#[tactic(auto, using(icn_vars::proofs::GrowingWorlds::grows))]
pub fn charge_coexp(world: &mut World, locals: u64) -> Result<(), Stop>
    ensures row { MakesCoexp locals world.old world.new result }
    ensures stops { IfErr result (IsLiveStop (extent_of world.new.heap)) }
    ensures live { OnOk result
        (IsLive (extent_of world.new.heap) (HeldCoexp (length (heap_of world.old.heap).coexps))) }
    ensures few { OnOk result (length (heap_of world.old.heap).coexps < 2 ^ 32) }
    ensures kept { KeepsItems (reach_of world.old []) (reach_of world.new []) }
    ensures bounds { OnOk result ((heap_of world.new.heap).bounds ≡ (heap_of world.old.heap).bounds) }
    ensures more { OnOk result
        (length (heap_of world.new.heap).coexps ≡ suc (length (heap_of world.old.heap).coexps)) }
    ensures counts { OnOk result ((n : ℕ)
        → slice_index (heap_of world.new.heap).coexps n ≡ slice_index (heap_of world.old.heap).coexps n) }
    ensures unchanged { OnErr result (heap_of world.new.heap ≡ heap_of world.old.heap) }
{
    world.heap.charge_coexp(locals)?;
    few_coexps(&world.heap);
    Ok(())
}

// Makes a co-expression with the values of the locals that run, and pushes it where the code goes on.
fn add_here<K: Stack<Cell> + Drop>(
    stacks: &mut Stacks<K>,
    alloc: Global,
    label: u32,
) -> Result<(), AllocError>
    requires runs { IsSome stacks.old.table.running }
    requires few { length stacks.old.table.coexps < 2 ^ 32 }
    ensures { OnOk result (stacks.new.table ≡ create_entry label stacks.old.table) }
{
    let frames = stacks.frames();
    let locals = locals_of(frames, alloc)?;
    let proc = frames.proc();
    let address = frames.address();
    let id = stacks.create(alloc, &locals, proc, address)?;
    let frames = stacks.frames();
    frames.go(label);
    frames.push(Item::Val(Val::Coexp(id)))?;
    Ok(())
}

// Makes a co-expression as another one was made, and pushes it. There must be room for an operand.
fn add_copy<K: Stack<Cell> + Drop>(
    stacks: &mut Stacks<K>,
    alloc: Global,
    id: u32,
) -> Result<(), AllocError>
    requires runs { IsSome stacks.old.table.running }
    requires room { 0 < stacks.old.spare }
    requires other { 0 < id }
    requires there { id < length stacks.old.table.coexps }
    requires few { length stacks.old.table.coexps < 2 ^ 32 }
    ensures { OnOk result (stacks.new.table ≡ copy_entry id stacks.old.table) }
{
    let new = stacks.refresh(alloc, id)?;
    put(stacks.frames(), Item::Val(Val::Coexp(new)));
    Ok(())
}

// The values of the locals of the activation that runs.
fn locals_of<K: Stack<Cell> + Drop>(
    frames: &Frames<K>,
    alloc: Global,
) -> Result<Vec<Val>, AllocError>
    ensures { IfOk result (λ values. values.items ≡ flat.locals frames.now.flat) }
{
    let count = frames.local_count();
    let mut values = Vec::new(alloc);
    let mut index: u64 = 0;
    while index < count {
        values.push(frames.local(index))?;
        index += 1;
    }
    Ok(values)
}
