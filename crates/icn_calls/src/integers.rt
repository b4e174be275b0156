// Calls of integers, which choose one of their arguments.
ghost use Rattle.std.specs.Prelude.{◌≡◌, ◌<◌, ◌^◌, [], length, map, slice_get, IfErr, IfOk, IfSome, MatchResult};
ghost use Rattle.std.specs.List.{All};
ghost use Rattle.std.specs.Option.{option_map};
ghost use Rattle.icn_defs.specs.Running.{number_of};
ghost use Rattle.icn_frames.specs.Stacks as flat;
ghost use Rattle.icn_code.specs.Codes.{Tables};
ghost use Rattle.icn_heap.specs.Extents.{Extent, IsLive, value_in};
ghost use Rattle.icn_heap.specs.Heaps.{extent_of};
ghost use Rattle.icn_vars.specs.Outcomes.{IsLiveHalt};
ghost use Rattle.icn_vars.specs.Worlds.{IsLiveItem, Reach, item_in, reach_of, world_of};
ghost use Rattle.icn_run.specs.Stacks.{Frames as FramesRead, flat as calls};
ghost use Rattle.icn_run.specs.Step.{Store, choose_item, integer_called};
ghost use Rattle.icn_control.specs.LiveStacks.{IsLiveStack, with_locals};
ghost use Rattle.icn_control.specs.StackAndWorld.{HaltsWith, StandsWith};
ghost use Rattle.icn_control.specs.StackViews.{stack_in};
ghost use Rattle.icn_calls.specs.Calling.{IsGoing, NamesNothing};
ghost use Rattle.icn_control.specs.Soundness.{UnlessEnded};

use icn_control::RunState;
use icn_convert::to_integer;
use icn_frames::{Cell, Frames, Stack};
use icn_heap::Heap;
use icn_value::{Item, Val};
use icn_vars::{Halt, World, position_of};

/// The number by which a value is called, where it is called by number: an integer, or a text that converts to one. It takes
/// no memory.
pub fn number_of(heap: &Heap, val: Val) -> Option<i64>
    requires { IsLive (extent_of heap.now) val }
    ensures { result ≡ number_of (value_in (extent_of heap.now) val) }
{
    match val {
        Val::Integer(n) => Some(n),
        Val::Text(_) => to_integer(heap, val),
        Val::Null => None,
        Val::Chars(_) => None,
        Val::Std(_) => None,
        Val::Proc(_) => None,
        Val::Rec(_) => None,
        Val::List(_) => None,
        Val::Set(_) => None,
        Val::Table(_) => None,
        Val::Coexp(_) => None,
    }
}

// The item at a place, where one is.
fn item_at(items: &[Item], place: usize) -> Option<Item>
    ensures item { result ≡ slice_get items.now place }
    ensures live { (reach : Reach) → All (IsLiveItem reach) items.now → IfSome result (IsLiveItem reach) }
{
    items.get(place).copied()
}

/// The argument of a number, from the left from 1 on or from the right from -1 on, where it is there. It takes no memory.
pub fn pick_argument(items: &[Item], n: i64) -> Option<Item>
    requires { length items.now < 2 ^ 63 }
    ensures item { (all : Extent)
        → option_map (item_in all) result ≡ choose_item n (map (item_in all) items.now) }
    ensures live { (reach : Reach) → All (IsLiveItem reach) items.now → IfSome result (IsLiveItem reach) }
{
    let Some(place) = position_of(n, items.len() as u64) else {
        return None;
    };
    item_at(items, (place - 1) as usize)
}

/// Calls a value that is no procedure and names none: the argument that it chooses is pushed, or it fails where there is none.
///
/// The error is 106 where the value is no number, or want of memory.
pub fn call_integer<K: Stack<Cell> + Drop>(
    frames: &mut Frames<K>,
    world: &World,
    callee: Val,
    items: &[Item],
) -> Result<RunState, Halt>
    requires few { length items.now < 2 ^ 63 }
    requires callee { IsLive (extent_of world.now.heap) callee }
    requires items { All (IsLiveItem (with_locals (flat.local_count frames.old.flat) (reach_of world.now [])))
        items.now }
    ensures step { (tables : Tables) (st : Store FramesRead) → st.world ≡ world_of world.now
        → NamesNothing st.names (value_in (extent_of world.now.heap) callee)
        → MatchResult result
        (StandsWith (integer_called calls tables (value_in (extent_of world.now.heap) callee)
        (number_of (value_in (extent_of world.now.heap) callee)) (map (item_in (extent_of world.now.heap))
        items.now) (stack_in (extent_of world.now.heap) frames.old.flat) st) st world.now frames.new.flat)
        (HaltsWith (integer_called calls tables (value_in (extent_of world.now.heap) callee)
        (number_of (value_in (extent_of world.now.heap) callee)) (map (item_in (extent_of world.now.heap))
        items.now) (stack_in (extent_of world.now.heap) frames.old.flat) st) st world.now
        (stack_in (extent_of world.now.heap) frames.new.flat)) }
    ensures live { (tables : Tables) → IsLiveStack tables (reach_of world.now []) frames.old.flat
        → UnlessEnded result (IsLiveStack tables (reach_of world.now []) frames.new.flat) }
    ensures halt { IfErr result (IsLiveHalt (reach_of world.now [])) }
    ensures going { IfOk result IsGoing }
{
    let Some(n) = number_of(&world.heap, callee) else {
        return Err(Halt::Error(106, Some(callee)));
    };
    match pick_argument(items, n) {
        Some(item) => match frames.push(item) {
            Ok(()) => Ok(RunState::Running),
            Err(_) => Err(Halt::NoMemory),
        },
        None => Ok(RunState::Failing),
    }
}
