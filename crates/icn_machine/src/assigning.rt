// The assignment to a variable on a stack in a world.
ghost use Rattle.std.specs.Prelude.{◌≡◌, ◌∷◌, [], map};
ghost use Rattle.icn_text.specs.declared.op.Op.TheVariants as Ops;
ghost use Rattle.icn_defs.specs.StepRows as step_rows;
ghost use Rattle.icn_heap.specs.Heaps.{extent_of};
ghost use Rattle.icn_vars.specs.Worlds.{item_in, reach_of};
ghost use Rattle.icn_frames.specs.Stacks as flat;
ghost use Rattle.icn_code.specs.Codes.{Tables};
ghost use Rattle.icn_streams.specs.Answers.{call_state};
ghost use Rattle.icn_streams.specs.Applies.{Applies};
ghost use Rattle.icn_apply.specs.NamesAfter.{AnswerNamed};
ghost use Rattle.icn_apply.specs.SizesAfter.{AnswerKeepsSizes, WorldsKeepSizes};
ghost use Rattle.icn_control.specs.LiveStacks.{IsLiveStack};
ghost use Rattle.icn_control.specs.Soundness.{LeavesWorld, UnlessEnded};
ghost use Rattle.icn_machine.specs.NamedWorlds.{AreNamed, HoldsNamed};
ghost use Rattle.icn_machine.specs.Performing.{LeavesNamed, PerformsRow};

use crate::giving::give_outcome;
use crate::own_locals::{Earlier, OwnLocals};
use icn_apply::assign;
use icn_control::RunState;
use icn_convert::Names;
use icn_frames::{Cell, Frames, Stack};
use icn_streams::Streams;
use icn_value::Item;
use icn_vars::{Halt, Outcome, World};
use std::marker::{Brand, PhantomData};

/// Assigns the value of an operand to the variable below it, as `x := y` does: pushes the variable, or fails. The errors are those
/// of `perform`.
pub fn perform_assignment<K: Stack<Cell> + Drop, N: Names, S: Streams>(
    frames: &mut Frames<K>,
    world: &mut World,
    two: (Item, Item),
    names: &N,
    streams: &mut S,
) -> Result<RunState, Halt>
    requires here { HoldsNamed (N.known names.now) world.old frames.old.flat }
    requires given { AreNamed (N.known names.now) world.old frames.old.flat (two.0 ∷ two.1 ∷ []) }
    ensures row { PerformsRow (step_rows.apply (N.known names.now) (step_rows.Operation Ops.Assign)
        (map (item_in (extent_of world.old.heap)) (two.0 ∷ two.1 ∷ []))) world.old frames.old.flat
        (S.state streams.old)
        world.new frames.new.flat
        (S.state streams.new) result }
    ensures live { (tables : Tables) → IsLiveStack tables (reach_of world.old []) frames.old.flat
        → UnlessEnded result (IsLiveStack tables (reach_of world.new []) frames.new.flat) }
    ensures leaves { LeavesWorld world.old world.new result }
    ensures sized { UnlessEnded result (WorldsKeepSizes world.old world.new) }
    ensures named { LeavesNamed (N.known names.now) world.new frames.new.flat result }
{
    let outcome = assignment_in(frames, world, two, names, streams)?;
    frames.local_count();
    match give_outcome(frames, outcome) {
        Ok(stage) => Ok(stage),
        Err(_) => Err(Halt::NoMemory),
    }
}

// Assigns it, where the locals of the stack may change.
fn assignment_in<K: Stack<Cell> + Drop, N: Names, S: Streams>(
    frames: &mut Frames<K>,
    world: &mut World,
    two: (Item, Item),
    names: &N,
    streams: &mut S,
) -> Result<Outcome, Halt>
    requires here { HoldsNamed (N.known names.now) world.old frames.old.flat }
    requires given { AreNamed (N.known names.now) world.old frames.old.flat (two.0 ∷ two.1 ∷ []) }
    ensures applies { Applies (step_rows.apply (N.known names.now)
        (step_rows.Operation Ops.Assign)
        (map (item_in (extent_of world.old.heap)) (two.0 ∷ two.1 ∷ [])))
        (call_state world.old (flat.locals frames.old.flat)
        (S.state streams.old))
        (call_state world.new (flat.locals frames.new.flat)
        (S.state streams.new)) result }
    ensures named { AnswerNamed (N.known names.now) world.new (flat.locals frames.new.flat) result }
    ensures sized { AnswerKeepsSizes world.old world.new result }
    ensures stack { flat.set_locals (flat.locals frames.new.flat) frames.old.flat ≡ frames.new.flat }
{
    let (answer, _) = assignment_lent::<K, Brand, N, S>(frames, world, two, names, streams);
    answer
}

// Assigns it on a stack that is lent by name, and hands the stack back.
fn assignment_lent<'a, K: Stack<Cell> + Drop, B: Earlier, N: Names, S: Streams>(
    frames: &'a mut Frames<K>,
    world: &mut World,
    two: (Item, Item),
    names: &N,
    streams: &mut S,
) -> (Result<Outcome, Halt>, &'a mut Frames<K>)
    requires lent { frames.ghost_name ≡ B.loan }
    requires earlier { B.stack ≡ frames.old.flat }
    requires here { HoldsNamed (N.known names.now) world.old frames.old.flat }
    requires given { AreNamed (N.known names.now) world.old frames.old.flat (two.0 ∷ two.1 ∷ []) }
    ensures same_reference { result.1.ghost_name ≡ frames.entry.ghost_name }
    ensures applies { Applies (step_rows.apply (N.known names.now)
        (step_rows.Operation Ops.Assign)
        (map (item_in (extent_of world.old.heap)) (two.0 ∷ two.1 ∷ [])))
        (call_state world.old (flat.locals frames.old.flat)
        (S.state streams.old))
        (call_state world.new (flat.locals result.1.now.flat)
        (S.state streams.new)) result.0 }
    ensures named { AnswerNamed (N.known names.now) world.new (flat.locals result.1.now.flat) result.0 }
    ensures sized { AnswerKeepsSizes world.old world.new result.0 }
    ensures stack { flat.set_locals (flat.locals result.1.now.flat) frames.old.flat ≡ result.1.now.flat }
{
    frames.local_count();
    let mut own: OwnLocals<K, B> = OwnLocals {
        frames,
        of: PhantomData,
    };
    let answer = assign(two.0, two.1, world, &mut own, names, streams);
    (answer, own.frames)
}
