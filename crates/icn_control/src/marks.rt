// Instructions that drop a mark, whose open scans are left.
ghost use Rattle.std.specs.Prelude.{◌≡◌, false, IsSome, IfSome, OnOk};
ghost use Rattle.icn_value.specs.Store.{Outside};
ghost use Rattle.icn_code.specs.Codes.{Tables};
ghost use Rattle.icn_code.specs.declared.instr.Instr.TheVariants as Instrs;
ghost use Rattle.icn_frames.specs.Stacks as flat;
ghost use Rattle.icn_control.specs.Machines.{IsSoundMachine, StandsAt, does, stack_of};
ghost use Rattle.icn_control.specs.Soundness.{IsRunnable};
ghost use Rattle.icn_control.specs.declared.machine.RunState.TheVariants as RunStates;

use crate::machine::Machine;
use crate::on_stack::{drop_mark, give_limited};
use crate::world::restore_pair;
use icn_frames::{Cell, Stack};
use std::alloc::AllocError;

/// Drops the innermost mark, which must not be the frame, with all above it. It takes no memory.
pub fn unmark<K: Stack<Cell> + Drop>(m: &mut Machine<K>)
    requires stands { IsRunnable m.old }
    requires mark { flat.at_base (stack_of m.old) ≡ false }
    ensures step { (tables : Tables) (outside : Outside)
        → StandsAt tables outside (does tables outside Instrs.Unmark m.old) m.new RunStates.Running }
    ensures sound { (tables : Tables) → IsSoundMachine tables m.old → IsSoundMachine tables m.new }
    ensures limits { m.new.limits ≡ m.old.limits }
    ensures stack { IsSome m.new.stacks.table.running }
{
    let pair = drop_mark(m.stacks.frames());
    restore_pair(&mut m.world, pair);
}

/// Counts a result of the innermost limit mark down, which must be there with an operand and a count above 0. After the last
/// one the mark is dropped, else it is left suspended. `AllocError` is want of memory.
pub fn lsusp<K: Stack<Cell> + Drop>(m: &mut Machine<K>) -> Result<(), AllocError>
    requires stands { IsRunnable m.old }
    requires operand { IsSome (flat.pop (stack_of m.old)) }
    requires mark { IfSome (flat.pop (stack_of m.old)) (λ popped. flat.at_base popped.1 ≡ false) }
    requires count { IfSome (flat.pop (stack_of m.old)) (λ popped. IsSome (flat.count_down popped.1)) }
    ensures step { (tables : Tables) (outside : Outside)
        → OnOk result
        (StandsAt tables outside (does tables outside Instrs.Lsusp m.old) m.new RunStates.Running) }
    ensures sound { (tables : Tables) → IsSoundMachine tables m.old
        → OnOk result (IsSoundMachine tables m.new) }
    ensures limits { m.new.limits ≡ m.old.limits }
    ensures stack { OnOk result (IsSome m.new.stacks.table.running) }
{
    let pair = give_limited(m.stacks.frames())?;
    restore_pair(&mut m.world, pair);
    Ok(())
}
