// Records that are made of arguments.
ghost use Rattle.std.specs.Prelude.{◌≡◌, ◌<◌, ◌≤◌, ◌^◌, [], Some, length, map, slice_get, IfErr, IfOk, MatchResult};
ghost use Rattle.std.specs.List.{All};
ghost use Rattle.icn_profile.specs.Numbers.{most_fields};
ghost use Rattle.icn_defs.specs.StepRows.{record_row};
ghost use Rattle.icn_frames.specs.Stacks as flat;
ghost use Rattle.icn_code.specs.Codes.{RecordType, Tables};
ghost use Rattle.icn_code.specs.CodeTables.{tables_of};
ghost use Rattle.icn_heap.specs.Extents.{IsLive, value_in};
ghost use Rattle.icn_heap.specs.Heaps.{extent_of};
ghost use Rattle.icn_vars.specs.Stops.{IsLiveStop};
ghost use Rattle.icn_vars.specs.Worlds.{KeepsItems, reach_of, world_of};
ghost use Rattle.icn_run.specs.Stacks.{Frames as FramesRead, flat as calls};
ghost use Rattle.icn_run.specs.Step.{Store, construct_record};
ghost use Rattle.icn_control.specs.LiveStacks.{IsLiveStack};
ghost use Rattle.icn_control.specs.StackAndWorld.{HaltsWith, RunsWith};
ghost use Rattle.icn_control.specs.StackViews.{stack_in};
ghost use Rattle.icn_control.specs.TakenOperands.{KeepsCounts, MakesValue, UnlessNoMemory};
ghost use Rattle.icn_control.specs.Soundness.{LeavesWorld, UnlessEnded};

use crate::arguments::fit;
use icn_code::Code;
use icn_control::Activation;
use icn_frames::{Cell, Frames, Stack};
use icn_structfn::new_record;
use icn_value::{Item, Val};
use icn_vars::{Halt, Stop, World};

/// A new record of a kind with these fields, at most 2^16, which is charged, where the stack is the same. The errors are 307 and
/// want of memory.
pub fn record_of<K: Stack<Cell> + Drop>(
    frames: &mut Frames<K>,
    world: &mut World,
    kind: u16,
    fields: &[Val],
) -> Result<Val, Stop>
    requires stack { (tables : Tables) × IsLiveStack tables (reach_of world.old []) frames.old.flat }
    requires fields { All (IsLive (extent_of world.old.heap)) fields.now }
    requires few { length fields.now ≤ 2 ^ 16 }
    ensures same { frames.new.flat ≡ frames.old.flat }
    ensures spare { frames.new.spare ≡ frames.old.spare }
    ensures live { IfOk result (IsLive (extent_of world.new.heap)) }
    ensures stops { IfErr result (IsLiveStop (extent_of world.new.heap)) }
    ensures kept { KeepsItems (reach_of world.old []) (reach_of world.new []) }
    ensures counts { UnlessNoMemory result (KeepsCounts world.old world.new) }
    ensures made { MakesValue (record_row kind (map (value_in (extent_of world.old.heap)) fields.now))
        world.old frames.old.flat world.new result }
{
    frames.local_count();
    let activation = Activation { frames };
    new_record(world, &activation, kind, fields)
}

// How many fields a kind has, which must be there: a code has at most 65535 of each.
fn field_count(code: &Code, kind: u32) -> usize
    requires { kind < length (tables_of code.now).records }
    ensures count { (entry : RecordType) → slice_get (tables_of code.now).records kind ≡ Some entry
        → result ≡ length entry.fields }
    ensures few { result ≤ most_fields }
{
    code.records[kind as usize].fields.as_slice().len()
}

// A kind as the heap counts them.
fn kind_of(code: &Code, kind: u32) -> u16
    requires { kind < length (tables_of code.now).records }
    ensures { result ≡ kind }
{
    kind as u16
}

/// Pushes a new record of a kind of the code, which must be there, whose fields are the arguments, cut or with nulls behind
/// them; it is charged. The room of the arguments is used.
///
/// The error is 307, or want of memory.
pub fn construct<K: Stack<Cell> + Drop>(
    frames: &mut Frames<K>,
    world: &mut World,
    code: &Code,
    kind: u32,
    vals: &mut Vec<Val>,
) -> Result<(), Halt>
    requires there { kind < length (tables_of code.now).records }
    requires stack { (tables : Tables) × IsLiveStack tables (reach_of world.old []) frames.old.flat }
    requires vals { All (IsLive (extent_of world.old.heap)) vals.old.items }
    ensures step { (entry : RecordType) → slice_get (tables_of code.now).records kind ≡ Some entry
        → (st : Store FramesRead) → st.world ≡ world_of world.old → MatchResult result (λ _.
        RunsWith (construct_record calls kind entry (map (value_in (extent_of world.old.heap)) vals.old.items)
        (stack_in (extent_of world.old.heap) frames.old.flat) st) st world.new frames.new.flat)
        (HaltsWith (construct_record calls kind entry (map (value_in (extent_of world.old.heap))
        vals.old.items) (stack_in (extent_of world.old.heap) frames.old.flat) st) st world.new
        (stack_in (extent_of world.new.heap) frames.new.flat)) }
    ensures live { (tables : Tables) → IsLiveStack tables (reach_of world.old []) frames.old.flat
        → UnlessEnded result (IsLiveStack tables (reach_of world.new []) frames.new.flat) }
    ensures leaves { LeavesWorld world.old world.new result }
{
    let Ok(()) = fit(vals, field_count(code, kind)) else {
        return Err(Halt::NoMemory);
    };
    let rec = record_of(frames, world, kind_of(code, kind), vals)?;
    match frames.push(Item::Val(rec)) {
        Ok(()) => Ok(()),
        Err(_) => Err(Halt::NoMemory),
    }
}
