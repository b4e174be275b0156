// What a row gives.
ghost use Rattle.std.specs.Prelude.{IfOk, OnOk};
ghost use Rattle.icn_value.specs.Store.{Names, Setting};
ghost use Rattle.icn_heap.specs.Extents.{Extent};
ghost use Rattle.law_names.specs.RowsNamed.{OutcomeNamed};
ghost use Rattle.icn_vars.specs.Outcomes.{IsLiveOutcome, outcome_in, outcome_of};
ghost use Rattle.icn_vars.specs.Worlds.{Reach};
ghost use Rattle.icn_frames.specs.Stacks as flat;
ghost use Rattle.icn_code.specs.Codes.{Tables};
ghost use Rattle.icn_control.specs.LiveStacks.{IsLiveStack, with_locals};
ghost use Rattle.icn_control.specs.StackViews.{stack_in};
ghost use Rattle.law_steps.specs.StateNames.{StackNamed};
ghost use Rattle.icn_machine.specs.Giving.{GivesOutcome};

use icn_control::RunState;
use icn_frames::{Cell, Frames, Stack, Why};
use icn_vars::{Outcome, ValueOutcome};
use std::alloc::AllocError;

/// Pushes what a row gives, over what it keeps, which is suspended. The error is want of memory.
pub fn give_outcome<K: Stack<Cell> + Drop>(
    frames: &mut Frames<K>,
    outcome: Outcome,
) -> Result<RunState, AllocError>
    ensures gives { IfOk result (λ stage. GivesOutcome outcome frames.old.flat frames.new.flat stage) }
    ensures live { (tables : Tables) (reach : Reach) → IsLiveStack tables reach frames.old.flat
        → IsLiveOutcome (with_locals (flat.local_count frames.old.flat) reach) outcome
        → OnOk result (IsLiveStack tables reach frames.new.flat) }
    ensures named { (names : Names) (all : Extent) (seen : Setting)
        → StackNamed names (stack_in all frames.old.flat) → OutcomeNamed names (outcome_in all outcome seen)
        → OnOk result (StackNamed names (stack_in all frames.new.flat)) }
{
    match outcome {
        Outcome::Fails => Ok(RunState::Failing),
        Outcome::Gives(item) => {
            frames.push(item)?;
            Ok(RunState::Running)
        }
        Outcome::Suspends(item, rest) => {
            frames.suspend(Why::Op(rest), Some(item))?;
            Ok(RunState::Running)
        }
    }
}

/// Pushes the value that a row gives, if it gives one. The error is want of memory.
#[inline(always)]
pub fn give_value<K: Stack<Cell> + Drop>(
    frames: &mut Frames<K>,
    given: ValueOutcome,
) -> Result<RunState, AllocError>
    ensures gives { IfOk result
        (λ stage. GivesOutcome (outcome_of given) frames.old.flat frames.new.flat stage) }
    ensures live { (tables : Tables) (reach : Reach) → IsLiveStack tables reach frames.old.flat
        → IsLiveOutcome (with_locals (flat.local_count frames.old.flat) reach) (outcome_of given)
        → OnOk result (IsLiveStack tables reach frames.new.flat) }
    ensures named { (names : Names) (all : Extent) (seen : Setting)
        → StackNamed names (stack_in all frames.old.flat)
        → OutcomeNamed names (outcome_in all (outcome_of given) seen)
        → OnOk result (StackNamed names (stack_in all frames.new.flat)) }
{
    match given {
        ValueOutcome::Fails => Ok(RunState::Failing),
        ValueOutcome::Gives(val) => {
            frames.push_value(val)?;
            Ok(RunState::Running)
        }
    }
}
