// Instructions that count turns, and touch nothing but the stack that runs.
ghost use Rattle.std.specs.Prelude.{◌≡◌, ◌<◌, IsSome};
ghost use Rattle.icn_value.specs.Store.{Outside};
ghost use Rattle.icn_value.specs.Limited.{limits_of};
ghost use Rattle.icn_heap.specs.Heaps.{heap_of};
ghost use Rattle.icn_code.specs.Codes.{Tables};
ghost use Rattle.icn_code.specs.declared.instr.Instr.TheVariants as Instrs;
ghost use Rattle.icn_run.specs.Calls.{Proc};
ghost use Rattle.icn_run.specs.Stacks.{flat as calls};
ghost use Rattle.icn_run.specs.Step.{resume_by, running, turn};
ghost use Rattle.icn_control.specs.Machines.{HasStack, IsSoundMachine, StandsAt, does, stack_seen, store_seen};
ghost use Rattle.icn_control.specs.Soundness.{GoesOnSound, IsRunnable};

use crate::machine::{Machine, RunState};
use crate::scans::swap_if_scanning;
use icn_frames::{Cell, Stack};

/// Goes back to a label, as a turn. It takes no memory.
pub fn go_back<K: Stack<Cell> + Drop>(m: &mut Machine<K>, label: u32) -> RunState
    requires runs { IsSome m.old.stacks.table.running }
    requires bounds { (heap_of m.old.world.heap).bounds ≡ limits_of m.old.limits }
    ensures step { (tables : Tables) (outside : Outside)
        → StandsAt tables outside (does tables outside (Instrs.Loop label) m.old) m.new result }
    ensures keeps { GoesOnSound m.old m.new result }
{
    if m.turns >= m.limits.turns {
        return RunState::AtBound;
    }
    m.turns += 1;
    m.stacks.frames().go(label);
    RunState::Running
}

/// Something begins again, as a turn: a repeated alternation to which failing came back. It takes no memory.
pub fn begin_again<K: Stack<Cell> + Drop>(m: &mut Machine<K>) -> RunState
    requires bounds { (heap_of m.old.world.heap).bounds ≡ limits_of m.old.limits }
    ensures step { (tables : Tables) (outside : Outside) → StandsAt tables outside
        (turn tables (store_seen tables outside m.old) (running (stack_seen m.old))) m.new result }
    ensures sound { (tables : Tables) → IsSoundMachine tables m.old → IsSoundMachine tables m.new }
    ensures limits { m.new.limits ≡ m.old.limits }
    ensures stack { IsSome m.old.stacks.table.running → HasStack m.new result }
{
    if m.turns >= m.limits.turns {
        return RunState::AtBound;
    }
    m.turns += 1;
    RunState::Running
}

/// A procedure that was suspended goes on, as a turn; of its scans its own pair comes back. It takes no memory.
pub fn reenter<K: Stack<Cell> + Drop>(m: &mut Machine<K>) -> RunState
    requires stands { IsRunnable m.old }
    requires bounds { (heap_of m.old.world.heap).bounds ≡ limits_of m.old.limits }
    ensures step { (tables : Tables) (outside : Outside) → StandsAt tables outside
        (resume_by calls tables Proc (stack_seen m.old) (store_seen tables outside m.old)) m.new result }
    ensures keeps { GoesOnSound m.old m.new result }
{
    if m.turns >= m.limits.turns {
        return RunState::AtBound;
    }
    m.turns += 1;
    swap_if_scanning(m.stacks.frames(), &mut m.world);
    RunState::Running
}
