// Operations, and the rows that are resumed.
ghost use Rattle.std.specs.Prelude.{◌≡◌, ◌≢◌, ◌+◌, ◌<◌, ◌^◌, IsSome};
ghost use Rattle.icn_text.specs.declared.op.Op.TheVariants as Ops;
ghost use Rattle.icn_defs.specs.Arities.{arity};
ghost use Rattle.icn_vars.specs.Outcomes.{IsLiveResidual, residual_in};
ghost use Rattle.icn_frames.specs.Stacks as flat;
ghost use Rattle.icn_code.specs.Codes.{Tables};
ghost use Rattle.icn_code.specs.declared.instr.Instr.TheVariants as Instrs;
ghost use Rattle.law_names.specs.NamedSettings.{ResidualNamed};
ghost use Rattle.icn_run.specs.Calls.{Op as Operation};
ghost use Rattle.icn_run.specs.Stacks.{flat as calls};
ghost use Rattle.icn_run.specs.Step.{all_names, resume_by};
ghost use Rattle.icn_control.specs.LiveStacks.{with_locals};
ghost use Rattle.icn_control.specs.Machines.{does, extent, stack_of, stack_seen, store_seen, world_reach};
ghost use Rattle.icn_control.specs.Soundness.{IsRunnable, StaysSound};
ghost use Rattle.icn_control.specs.TakenOperands.{take_operands};
ghost use Rattle.icn_machine.specs.DoneInPlace.{DoneInPlace};
ghost use Rattle.icn_machine.specs.Performing.{LeavesNamed, PerformsOn};
ghost use Rattle.icn_machine.specs.NamedWorlds.{MachineNamed};

use crate::assigning::perform_assignment;
use crate::concatenating::perform_concatenation;
use crate::performing::{perform, perform_again};
use crate::plain_operations::operate_in_world;
use crate::value_operations::take_two;
use icn_apply::Applied;
use icn_control::{Machine, RunState, take_operands};
use icn_convert::Names;
use icn_defs::arity;
use icn_frames::{Cell, Stack};
use icn_streams::Streams;
use icn_text::Op;
use icn_value::{Item, Residual};
use icn_vars::Halt;

/// Performs an operation on its operands, which must be there, as a turn; the refreshing of a co-expression has a call of its own.
/// The room for operands is used again, whatever it holds. The errors are those of `perform`.
pub fn operate<K: Stack<Cell> + Drop, N: Names, S: Streams>(
    m: &mut Machine<K>,
    op: Op,
    items: &mut Vec<Item>,
    names: &N,
    streams: &mut S,
) -> Result<RunState, Halt>
    requires stands { IsRunnable m.old }
    requires row { op ≢ Ops.Refresh }
    requires operands { IsSome (take_operands (arity op) (stack_of m.old)) }
    requires named { MachineNamed (N.known names.now) m.old }
    ensures step { (tables : Tables) → all_names tables ≡ N.known names.now
        → PerformsOn tables (λ outside. does tables outside (Instrs.Op op) m.old) m.new
        (S.state streams.old)
        (S.state streams.new) result }
    ensures keeps { StaysSound m.old m.new result }
    ensures named { LeavesNamed (N.known names.now) m.new.world (stack_of m.new) result }
{
    if m.turns >= m.limits.turns {
        return Ok(RunState::AtBound);
    }
    match op {
        Op::Assign => operate_by_variable(m, names, streams),
        Op::Concatenate => operate_by_texts(m, names, streams),
        _ => operate_by_row(m, op, items, names, streams),
    }
}

/// Performs an operation on the stack alone, as a turn, where its operands are told as they stand and a turn is left. Elsewhere,
/// and for want of memory, nothing changes. Its operands must be there.
pub fn operate_at_once<K: Stack<Cell> + Drop>(m: &mut Machine<K>, op: Op) -> Option<RunState>
    requires stands { IsRunnable m.old }
    requires operands { IsSome (take_operands (arity op) (stack_of m.old)) }
    ensures { (tables : Tables) → DoneInPlace tables (Instrs.Op op) m.old m.new result }
{
    if m.turns >= m.limits.turns {
        return None;
    }
    match operate_in_world(m.stacks.frames(), &m.world, op) {
        Some(stage) => {
            m.turns += 1;
            Some(stage)
        }
        None => None,
    }
}

// Performs it by its row, where a turn is left.
#[inline(never)]
fn operate_by_row<K: Stack<Cell> + Drop, N: Names, S: Streams>(
    m: &mut Machine<K>,
    op: Op,
    items: &mut Vec<Item>,
    names: &N,
    streams: &mut S,
) -> Result<RunState, Halt>
    requires stands { IsRunnable m.old }
    requires turn { m.old.turns < m.old.limits.turns }
    requires few { m.old.turns + 1 < 2 ^ 64 }
    requires row { op ≢ Ops.Refresh }
    requires operands { IsSome (take_operands (arity op) (stack_of m.old)) }
    requires named { MachineNamed (N.known names.now) m.old }
    ensures step { (tables : Tables) → all_names tables ≡ N.known names.now
        → PerformsOn tables (λ outside. does tables outside (Instrs.Op op) m.old) m.new
        (S.state streams.old)
        (S.state streams.new) result }
    ensures keeps { StaysSound m.old m.new result }
    ensures named { LeavesNamed (N.known names.now) m.new.world (stack_of m.new) result }
{
    let Ok(()) = take_operands(m.stacks.frames(), items, arity(op) as usize) else {
        return Err(Halt::NoMemory);
    };
    m.turns += 1;
    perform(
        m.stacks.frames(),
        &mut m.world,
        Applied::Op(op),
        items,
        names,
        streams,
    )
}

// Puts two texts together, where a turn is left.
#[inline(never)]
fn operate_by_texts<K: Stack<Cell> + Drop, N: Names, S: Streams>(
    m: &mut Machine<K>,
    names: &N,
    streams: &mut S,
) -> Result<RunState, Halt>
    requires stands { IsRunnable m.old }
    requires turn { m.old.turns < m.old.limits.turns }
    requires few { m.old.turns + 1 < 2 ^ 64 }
    requires operands { IsSome (take_operands 2 (stack_of m.old)) }
    requires named { MachineNamed (N.known names.now) m.old }
    ensures step { (tables : Tables) → all_names tables ≡ N.known names.now
        → PerformsOn tables (λ outside. does tables outside (Instrs.Op Ops.Concatenate) m.old) m.new
        (S.state streams.old)
        (S.state streams.new) result }
    ensures keeps { StaysSound m.old m.new result }
    ensures named { LeavesNamed (N.known names.now) m.new.world (stack_of m.new) result }
{
    let two = take_two(m.stacks.frames());
    m.turns += 1;
    perform_concatenation(m.stacks.frames(), &mut m.world, two, names, streams)
}

// Assigns to a variable, where a turn is left.
#[inline(never)]
fn operate_by_variable<K: Stack<Cell> + Drop, N: Names, S: Streams>(
    m: &mut Machine<K>,
    names: &N,
    streams: &mut S,
) -> Result<RunState, Halt>
    requires stands { IsRunnable m.old }
    requires turn { m.old.turns < m.old.limits.turns }
    requires few { m.old.turns + 1 < 2 ^ 64 }
    requires operands { IsSome (take_operands 2 (stack_of m.old)) }
    requires named { MachineNamed (N.known names.now) m.old }
    ensures step { (tables : Tables) → all_names tables ≡ N.known names.now
        → PerformsOn tables (λ outside. does tables outside (Instrs.Op Ops.Assign) m.old) m.new
        (S.state streams.old)
        (S.state streams.new) result }
    ensures keeps { StaysSound m.old m.new result }
    ensures named { LeavesNamed (N.known names.now) m.new.world (stack_of m.new) result }
{
    let two = take_two(m.stacks.frames());
    m.turns += 1;
    perform_assignment(m.stacks.frames(), &mut m.world, two, names, streams)
}

/// Resumes what an operation or a function left, as a turn. The errors are those of `perform`.
pub fn resume<K: Stack<Cell> + Drop, N: Names, S: Streams>(
    m: &mut Machine<K>,
    rest: Residual,
    names: &N,
    streams: &mut S,
) -> Result<RunState, Halt>
    requires stands { IsRunnable m.old }
    requires rest { IsLiveResidual (with_locals (flat.local_count (stack_of m.old)) (world_reach m.old))
        rest }
    requires named { MachineNamed (N.known names.now) m.old }
    requires rest_named { ResidualNamed (N.known names.now) (residual_in (extent m.old) rest) }
    ensures step { (tables : Tables) → PerformsOn tables (λ outside. resume_by calls tables
        (Operation (residual_in (extent m.old) rest)) (stack_seen m.old) (store_seen tables outside m.old))
        m.new (S.state streams.old)
        (S.state streams.new) result }
    ensures keeps { StaysSound m.old m.new result }
    ensures named { LeavesNamed (N.known names.now) m.new.world (stack_of m.new) result }
{
    if m.turns >= m.limits.turns {
        return Ok(RunState::AtBound);
    }
    m.turns += 1;
    perform_again(m.stacks.frames(), &mut m.world, rest, names, streams)
}
