// The instruction that opens a scan.
ghost use Rattle.std.specs.Prelude.{◌≡◌, ◌<◌, [], Ok, Err, IsSome, IfOk, IfErr, OnOk, MatchResult};
ghost use Rattle.icn_value.specs.declared.val.Val.TheVariants.{Text as TextVal};
ghost use Rattle.icn_value.specs.Values.{Text};
ghost use Rattle.icn_defs.specs.StepRows.{text_row};
ghost use Rattle.icn_code.specs.Codes.{Tables};
ghost use Rattle.icn_code.specs.declared.instr.Instr.TheVariants as Instrs;
ghost use Rattle.icn_heap.specs.Extents.{IsLive, IsText, text_in, value_in};
ghost use Rattle.icn_heap.specs.Heaps.{extent_of};
ghost use Rattle.icn_vars.specs.Stops.{IsLiveStop};
ghost use Rattle.icn_vars.specs.Worlds.{KeepsItems, reach_of, world_of};
ghost use Rattle.icn_frames.specs.Stacks as flat;
ghost use Rattle.icn_run.specs.Stacks.{Frames as FramesRead, flat as calls};
ghost use Rattle.icn_run.specs.Step.{Store, scan_opened};
ghost use Rattle.icn_control.specs.LiveStacks.{IsLiveStack};
ghost use Rattle.icn_control.specs.StackAndWorld.{DoesWith, RunsWith};
ghost use Rattle.icn_control.specs.StackViews.{stack_in};
ghost use Rattle.icn_control.specs.TakenOperands.{KeepsCounts, MakesValue, UnlessNoMemory};
ghost use Rattle.icn_control.specs.Soundness.{KeepsHeap, LeavesWorld, UnlessEnded};

use crate::activation::Activation;
use crate::values::value_of;
use crate::world::set_pair;
use icn_args::{check_text, text_of};
use icn_frames::{Cell, Frames, Stack};
use icn_value::{Pair, Span, Val};
use icn_vars::{Halt, Stop, World};
use std::alloc::AllocError;

// The text of a value, which is charged where it is made, and the stack is the same. The errors are 103, 306 and want of
// memory.
fn subject_of<K: Stack<Cell> + Drop>(
    frames: &mut Frames<K>,
    world: &mut World,
    v: Val,
) -> Result<Span, Stop>
    requires stack { (tables : Tables) × IsLiveStack tables (reach_of world.old []) frames.old.flat }
    requires value { IsLive (extent_of world.old.heap) v }
    ensures same { frames.new.flat ≡ frames.old.flat }
    ensures spare { frames.new.spare ≡ frames.old.spare }
    ensures live { IfOk result (IsText (extent_of world.new.heap)) }
    ensures stops { IfErr result (IsLiveStop (extent_of world.new.heap)) }
    ensures kept { KeepsItems (reach_of world.old []) (reach_of world.new []) }
    ensures counts { UnlessNoMemory result (KeepsCounts world.old world.new) }
    ensures made { MatchResult result (λ span. MakesValue (text_row (value_in (extent_of world.old.heap) v))
        world.old frames.old.flat world.new (Ok (TextVal span))) (λ stop. MakesValue
        (text_row (value_in (extent_of world.old.heap) v)) world.old frames.old.flat world.new (Err stop)) }
{
    frames.local_count();
    check_text(v)?;
    let activation = Activation { frames };
    text_of(world, &activation, v)
}

/// Opens a scan of a text, from its first position on. The error is want of memory.
pub fn open_over<K: Stack<Cell> + Drop>(
    frames: &mut Frames<K>,
    world: &mut World,
    text: Span,
) -> Result<(), AllocError>
    requires { IsText (extent_of world.old.heap) text }
    ensures step { OnOk result ((st : Store FramesRead) → st.world ≡ world_of world.old
        → RunsWith (scan_opened calls (Text (text_in (extent_of world.old.heap) text))
        (stack_in (extent_of world.old.heap) frames.old.flat) st) st world.new frames.new.flat) }
    ensures live { (tables : Tables) → IsLiveStack tables (reach_of world.old []) frames.old.flat
        → OnOk result (IsLiveStack tables (reach_of world.new []) frames.new.flat) }
    ensures same { KeepsHeap world.old world.new }
{
    frames.suspend_scan(world.pair)?;
    let pair = Pair {
        subject: text,
        position: 1,
    };
    set_pair(world, pair);
    Ok(())
}

/// Opens a scan of the top operand's text, from its first position on. A text that is made is charged.
///
/// The error is that of the value, 103 where it has no text, 306, or want of memory.
pub fn open_scan<K: Stack<Cell> + Drop>(
    frames: &mut Frames<K>,
    world: &mut World,
) -> Result<(), Halt>
    requires operand { IsSome (flat.pop frames.old.flat) }
    requires live { (tables : Tables) × IsLiveStack tables (reach_of world.old []) frames.old.flat }
    ensures step { DoesWith Instrs.Bscan world.old frames.old.flat world.new frames.new.flat result }
    ensures live { (tables : Tables) → IsLiveStack tables (reach_of world.old []) frames.old.flat
        → UnlessEnded result (IsLiveStack tables (reach_of world.new []) frames.new.flat) }
    ensures leaves { LeavesWorld world.old world.new result }
{
    let x = frames.pop();
    let v = value_of(frames, world, x)?;
    let text = subject_of(frames, world, v)?;
    match open_over(frames, world, text) {
        Ok(()) => Ok(()),
        Err(_) => Err(Halt::NoMemory),
    }
}
