// The concatenation of texts on a stack in a world.
ghost use Rattle.std.specs.Prelude.{◌≡◌, ◌∷◌, [], map};
ghost use Rattle.icn_text.specs.declared.op.Op.TheVariants as Ops;
ghost use Rattle.icn_defs.specs.StepRows as step_rows;
ghost use Rattle.icn_heap.specs.Heaps.{extent_of};
ghost use Rattle.icn_vars.specs.Outcomes.{answer_of};
ghost use Rattle.icn_vars.specs.Worlds.{item_in, reach_of};
ghost use Rattle.icn_frames.specs.Stacks as flat;
ghost use Rattle.icn_code.specs.Codes.{Tables};
ghost use Rattle.icn_streams.specs.Answers.{call_state};
ghost use Rattle.icn_streams.specs.Applies.{Applies};
ghost use Rattle.icn_apply.specs.NamesAfter.{AnswerNamed};
ghost use Rattle.icn_apply.specs.SizesAfter.{AnswerKeepsSizes, WorldsKeepSizes};
ghost use Rattle.icn_control.specs.LiveStacks.{IsLiveStack};
ghost use Rattle.icn_control.specs.Soundness.{LeavesWorld, UnlessEnded};
ghost use Rattle.icn_machine.specs.NamedWorlds.{AreNamed, HoldsNamed};
ghost use Rattle.icn_machine.specs.Performing.{LeavesNamed, PerformsRow};

use crate::giving::give_value;
use icn_apply::concatenate;
use icn_control::{Activation, RunState};
use icn_convert::Names;
use icn_frames::{Cell, Frames, Stack};
use icn_streams::Streams;
use icn_value::Item;
use icn_vars::{Halt, ValueOutcome, World};

/// Puts two texts together, as `x || y` does: pushes the text. The errors are those of `perform`.
pub fn perform_concatenation<K: Stack<Cell> + Drop, N: Names, S: Streams>(
    frames: &mut Frames<K>,
    world: &mut World,
    two: (Item, Item),
    names: &N,
    streams: &mut S,
) -> Result<RunState, Halt>
    requires here { HoldsNamed (N.known names.now) world.old frames.old.flat }
    requires given { AreNamed (N.known names.now) world.old frames.old.flat (two.0 ∷ two.1 ∷ []) }
    ensures row { PerformsRow (step_rows.apply (N.known names.now) (step_rows.Operation Ops.Concatenate)
        (map (item_in (extent_of world.old.heap)) (two.0 ∷ two.1 ∷ []))) world.old frames.old.flat
        (S.state streams.old)
        world.new frames.new.flat
        (S.state streams.new) result }
    ensures live { (tables : Tables) → IsLiveStack tables (reach_of world.old []) frames.old.flat
        → UnlessEnded result (IsLiveStack tables (reach_of world.new []) frames.new.flat) }
    ensures leaves { LeavesWorld world.old world.new result }
    ensures sized { UnlessEnded result (WorldsKeepSizes world.old world.new) }
    ensures named { LeavesNamed (N.known names.now) world.new frames.new.flat result }
{
    let outcome = concatenation_in(frames, world, two, names, streams)?;
    frames.local_count();
    match give_value(frames, outcome) {
        Ok(stage) => Ok(stage),
        Err(_) => Err(Halt::NoMemory),
    }
}

// Puts them together, where the stack stays.
#[inline(always)]
fn concatenation_in<K: Stack<Cell> + Drop, N: Names, S: Streams>(
    frames: &mut Frames<K>,
    world: &mut World,
    two: (Item, Item),
    names: &N,
    streams: &mut S,
) -> Result<ValueOutcome, Halt>
    requires here { HoldsNamed (N.known names.now) world.old frames.old.flat }
    requires given { AreNamed (N.known names.now) world.old frames.old.flat (two.0 ∷ two.1 ∷ []) }
    ensures applies { Applies (step_rows.apply (N.known names.now) (step_rows.Operation Ops.Concatenate)
        (map (item_in (extent_of world.old.heap)) (two.0 ∷ two.1 ∷ [])))
        (call_state world.old (flat.locals frames.old.flat)
        (S.state streams.old))
        (call_state world.new (flat.locals frames.new.flat)
        (S.state streams.new)) (answer_of result) }
    ensures named { AnswerNamed (N.known names.now) world.new (flat.locals frames.new.flat)
        (answer_of result) }
    ensures sized { AnswerKeepsSizes world.old world.new (answer_of result) }
    ensures stack { flat.set_locals (flat.locals frames.new.flat) frames.old.flat ≡ frames.new.flat }
{
    frames.local_count();
    let activation = Activation { frames };
    concatenate(two.0, two.1, world, &activation, names, streams)
}
