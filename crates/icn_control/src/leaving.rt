// The end of a procedure or of a create body to which failing came.
ghost use Rattle.std.specs.Prelude.{◌≢◌};
ghost use Rattle.icn_value.specs.Store.{Outside};
ghost use Rattle.icn_code.specs.Codes.{Tables};
ghost use Rattle.icn_run.specs.Stacks.{flat as calls};
ghost use Rattle.icn_run.specs.Step.{stuck, without_mark};
ghost use Rattle.icn_control.specs.Machines.{StandsAt, stack_seen, store_seen};
ghost use Rattle.icn_control.specs.Soundness.{GoesOnSound, IsRunnable};

use crate::hops::exhaust;
use crate::machine::{Machine, RunState};
use crate::returns::leave_failing;
use icn_frames::{Cell, Stack};

/// Ends what fails and has no mark left: a create body is exhausted, as a turn, and a procedure fails in its caller. It takes
/// no memory.
pub fn end_failing<K: Stack<Cell> + Drop>(m: &mut Machine<K>) -> RunState
    requires stands { IsRunnable m.old }
    requires goes_on { (tables : Tables) × ((outside : Outside)
        × (without_mark calls tables (stack_seen m.old) (store_seen tables outside m.old) ≢ stuck)) }
    ensures step { (tables : Tables) (outside : Outside) → StandsAt tables outside
        (without_mark calls tables (stack_seen m.old) (store_seen tables outside m.old)) m.new result }
    ensures keeps { GoesOnSound m.old m.new result }
{
    let active = m.stacks.active();
    if !m.stacks.frames().is_base() {
        return leave_failing(m.stacks.frames(), &mut m.world);
    }
    if active > 0 {
        return exhaust(m);
    }
    leave_failing(m.stacks.frames(), &mut m.world)
}
