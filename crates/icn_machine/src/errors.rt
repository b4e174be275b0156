// Errors that become failure.
ghost use Rattle.std.specs.Prelude.{Ok, IfErr, IfOk};
ghost use Rattle.icn_value.specs.Store.{Outside};
ghost use Rattle.icn_vars.specs.Outcomes.{IsLiveHalt};
ghost use Rattle.icn_code.specs.Codes.{Tables};
ghost use Rattle.icn_run.specs.Stacks.{Frames as FramesRead};
ghost use Rattle.icn_run.specs.Step.{State};
ghost use Rattle.icn_control.specs.Machines.{ComesTo, HasStack, IsSoundMachine, SettlesAt, world_reach};
ghost use Rattle.icn_control.specs.Soundness.{HasItsStack, KeepsLimits, UnlessEnded};
ghost use Rattle.icn_control.specs.declared.machine.RunState.TheVariants as RunStates;
ghost use Rattle.icn_machine.specs.Settling.{IsKnown, SettlesTo};

use icn_control::{Machine, RunState};
use icn_frames::{Cell, Stack};
use icn_vars::{Halt, ends_by};

/// An error to which a step came ends the run, or it is kept and the code fails; anything else stays what it is.
#[inline(always)]
pub fn settle<K: Stack<Cell> + Drop>(
    m: &mut Machine<K>,
    answer: Result<RunState, Halt>,
) -> Result<RunState, Halt>
    requires halt { IfErr answer (IsLiveHalt (world_reach m.old)) }
    requires known { IfErr answer (IsKnown m.old) }
    ensures step { (tables : Tables) (outside : Outside) (state : State FramesRead FramesRead)
        → ComesTo tables outside state m.old answer → SettlesAt tables outside state m.new result }
    ensures sound { (tables : Tables) → UnlessEnded answer (IsSoundMachine tables m.old)
        → UnlessEnded result (IsSoundMachine tables m.new) }
    ensures stack { HasItsStack m.old answer → IfOk result (HasStack m.new) }
    ensures same { SettlesTo m.old m.new answer result }
    ensures within { KeepsLimits m.old m.new result }
{
    match answer {
        Ok(stage) => Ok(stage),
        Err(Halt::Error(number, value)) => {
            if ends_by(&mut m.world, number, value) {
                return Err(Halt::Error(number, value));
            }
            Ok(RunState::Failing)
        }
        Err(halt) => Err(halt),
    }
}
