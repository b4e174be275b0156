// The scanning pair of a world.
ghost use Rattle.std.specs.Prelude.{◌≡◌};
ghost use Rattle.icn_heap.specs.Heaps.{extent_of, heap_of};
ghost use Rattle.icn_vars.specs.Worlds.{world_of};
ghost use Rattle.icn_control.specs.LiveStacks.{IsLivePair, MaybeLivePair};
ghost use Rattle.icn_control.specs.StackViews.{maybe_pair_in, pair_in};
ghost use Rattle.icn_control.specs.Pairs.{maybe_paired, world_with_pair};
ghost use Rattle.icn_control.specs.Soundness.{KeepsHeap};

use icn_value::Pair;
use icn_vars::World;

/// Makes a saved pair the present one. It takes no memory.
pub fn set_pair(world: &mut World, pair: Pair)
    requires { IsLivePair (extent_of world.old.heap) pair }
    ensures world { world_of world.new
        ≡ world_with_pair (pair_in (extent_of world.old.heap) pair) (world_of world.old) }
    ensures pair { world.new.pair ≡ pair }
    ensures same { KeepsHeap world.old world.new }
{
    world.pair = pair;
}

/// Makes a saved pair the present one, if there is one. It takes no memory.
pub fn restore_pair(world: &mut World, pair: Option<Pair>)
    requires { MaybeLivePair (extent_of world.old.heap) pair }
    ensures world { world_of world.new
        ≡ maybe_paired (maybe_pair_in (extent_of world.old.heap) pair) (world_of world.old) }
    ensures same { KeepsHeap world.old world.new }
{
    match pair {
        Some(pair) => set_pair(world, pair),
        None => {}
    }
}
