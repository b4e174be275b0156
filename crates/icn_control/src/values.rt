// The values of operands.
ghost use Rattle.std.specs.Prelude.{◌≡◌, ◌<◌, ◌++◌, ◌∷◌, [], map, OnOk, IfOk, IfErr};
ghost use Rattle.std.specs.List.{All};
ghost use Rattle.icn_code.specs.Codes.{Tables};
ghost use Rattle.icn_heap.specs.Extents.{IsLive, value_in};
ghost use Rattle.icn_heap.specs.Heaps.{extent_of};
ghost use Rattle.icn_vars.specs.Stops.{IsLiveStop};
ghost use Rattle.icn_vars.specs.Worlds.{IsLiveItem, KeepsItems, item_in, reach_of, world_of};
ghost use Rattle.icn_defs.specs.StepRows.{list_row};
ghost use Rattle.icn_frames.specs.Stacks as flat;
ghost use Rattle.icn_run.specs.Stacks.{Frames as FramesRead, flat as calls};
ghost use Rattle.icn_run.specs.Step.{Store, here};
ghost use Rattle.icn_control.specs.LiveStacks.{IsLiveStack, with_locals};
ghost use Rattle.icn_control.specs.StackAndWorld.{FindsValue};
ghost use Rattle.icn_control.specs.StackViews.{stack_in};
ghost use Rattle.icn_control.specs.TakenOperands.{FindsValues, KeepsCounts, MakesValue, UnlessNoMemory};

use crate::activation::Activation;
use icn_args::new_list;
use icn_frames::{Cell, Frames, Stack};
use icn_value::{Item, Val};
use icn_vars::{Stop, World, deref};
use std::alloc::AllocError;

/// The value of an item of the activation that runs. The error is 205 where a list element is gone or a part lies beyond its
/// text, 103 where a part is of no text, or want of memory.
pub fn value_of<K: Stack<Cell> + Drop>(
    frames: &mut Frames<K>,
    world: &World,
    item: Item,
) -> Result<Val, Stop>
    requires stack { (tables : Tables) × IsLiveStack tables (reach_of world.now []) frames.old.flat }
    requires item { IsLiveItem (with_locals (flat.local_count frames.old.flat) (reach_of world.now [])) item }
    ensures same { frames.new.flat ≡ frames.old.flat }
    ensures spare { frames.new.spare ≡ frames.old.spare }
    ensures live { IfOk result (IsLive (extent_of world.now.heap)) }
    ensures stops { IfErr result (IsLiveStop (extent_of world.now.heap)) }
    ensures value { (st : Store FramesRead) → st.world ≡ world_of world.now
        → FindsValue (extent_of world.now.heap) (item_in (extent_of world.now.heap) item)
        (here calls (stack_in (extent_of world.now.heap) frames.old.flat) st) result }
{
    frames.local_count();
    let activation = Activation { frames };
    deref(world, &activation, item)
}

/// The values of items of the activation that runs, from the first on, into a room whose content before does not matter. The
/// errors are those of `value_of`.
pub fn values_of<K: Stack<Cell> + Drop>(
    frames: &mut Frames<K>,
    world: &World,
    items: &[Item],
    vals: &mut Vec<Val>,
) -> Result<(), Stop>
    requires stack { (tables : Tables) × IsLiveStack tables (reach_of world.now []) frames.old.flat }
    requires items { All (IsLiveItem (with_locals (flat.local_count frames.old.flat) (reach_of world.now [])))
        items.now }
    ensures same { frames.new.flat ≡ frames.old.flat }
    ensures spare { frames.new.spare ≡ frames.old.spare }
    ensures live { OnOk result (All (IsLive (extent_of world.now.heap)) vals.new.items) }
    ensures stops { IfErr result (IsLiveStop (extent_of world.now.heap)) }
    ensures values { FindsValues world.now frames.old.flat items.now vals.new.items result }
{
    vals.clear();
    let mut rest = items;
    while let Some((first, others)) = rest.split_first() {
        let val = value_of(frames, world, *first)?;
        add_value(vals, val)?;
        rest = others;
    }
    Ok(())
}

// Adds a value.
fn add_value(vals: &mut Vec<Val>, val: Val) -> Result<(), AllocError>
    ensures { IfOk result (λ done. vals.new.items ≡ vals.old.items ++ val ∷ []) }
{
    vals.push(val)?;
    Ok(())
}

/// A new list of values, which is charged, where the stack is the same. The errors are 307 and want of memory.
pub fn list_of<K: Stack<Cell> + Drop>(
    frames: &mut Frames<K>,
    world: &mut World,
    vals: &[Val],
) -> Result<Val, Stop>
    requires stack { (tables : Tables) × IsLiveStack tables (reach_of world.old []) frames.old.flat }
    requires vals { All (IsLive (extent_of world.old.heap)) vals.now }
    ensures same { frames.new.flat ≡ frames.old.flat }
    ensures spare { frames.new.spare ≡ frames.old.spare }
    ensures live { IfOk result (IsLive (extent_of world.new.heap)) }
    ensures stops { IfErr result (IsLiveStop (extent_of world.new.heap)) }
    ensures kept { KeepsItems (reach_of world.old []) (reach_of world.new []) }
    ensures counts { UnlessNoMemory result (KeepsCounts world.old world.new) }
    ensures made { MakesValue (list_row (map (value_in (extent_of world.old.heap)) vals.now)) world.old
        frames.old.flat world.new result }
{
    frames.local_count();
    let activation = Activation { frames };
    new_list(world, &activation, vals)
}
