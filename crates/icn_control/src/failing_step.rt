// One step of failing, over the machine.
ghost use Rattle.std.specs.Prelude.{◌≡◌, ◌≢◌, IsSome};
ghost use Rattle.icn_value.specs.Store.{Outside};
ghost use Rattle.icn_code.specs.Codes.{Tables};
ghost use Rattle.icn_run.specs.Stacks.{flat as calls};
ghost use Rattle.icn_run.specs.Step.{fails, stuck};
ghost use Rattle.icn_control.specs.FailingMachines.{DueAt, FailsNamed};
ghost use Rattle.icn_control.specs.FailingStacks.{FallsBelow, IsLiveDue};
ghost use Rattle.icn_control.specs.Machines.{IsSoundMachine, stack_of, stack_seen, store_seen, world_reach};
ghost use Rattle.icn_control.specs.Soundness.{IsRunnable};

use crate::failing::{AfterFailure, fall};
use crate::machine::Machine;
use icn_frames::{Cell, Stack};

/// One step of failing, but for the turns and the ends that are due after it. It takes no memory.
pub fn fail_once<K: Stack<Cell> + Drop>(m: &mut Machine<K>) -> AfterFailure
    requires stands { IsRunnable m.old }
    requires goes_on { (tables : Tables) × ((outside : Outside)
        × (fails calls tables (stack_seen m.old) (store_seen tables outside m.old) ≢ stuck)) }
    ensures step { (tables : Tables) (outside : Outside) → DueAt tables outside
        (fails calls tables (stack_seen m.old) (store_seen tables outside m.old)) m.new result }
    ensures sound { (tables : Tables) → IsSoundMachine tables m.old → IsSoundMachine tables m.new }
    ensures runs { IsSome m.new.stacks.table.running }
    ensures limits { m.new.limits ≡ m.old.limits }
    ensures heap { m.new.world.heap ≡ m.old.world.heap }
    ensures named { FailsNamed m.old m.new result }
    ensures due { IsLiveDue (world_reach m.new) (stack_of m.new) result }
    ensures less { FallsBelow (stack_of m.old) (stack_of m.new) result }
{
    fall(m.stacks.frames(), &mut m.world)
}
