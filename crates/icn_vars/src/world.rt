// The world of a program: what it has beside its stacks.
ghost use Rattle.icn_heap.specs.Heaps.{extent_of};
ghost use Rattle.icn_vars.specs.WorldFacts.{IsSoundWorld, IsSoundWorld-prop};

use crate::words::Words;
use icn_heap::{Heap, empty_text};
use icn_value::{Pair, Span, Val};

/// What a program has beside its stacks. What it holds is of its heap, the position is one of the subject, `&random`
/// is below 2^31; the kept error has the number of an error, and its value is of the heap.
#[derive(Drop)]
pub struct World {
    /// Its texts and structures.
    pub heap: Heap,
    /// `&subject` and `&pos`.
    pub pair: Pair,
    /// `&random`, `&error` and the error that is kept.
    pub words: Words,
    /// The values of its globals.
    pub globals: Vec<Val>,
    /// The values of its statics.
    pub statics: Vec<Val>,
    pub ghost sound: { IsSoundWorld (extent_of heap) pair words globals.items
        statics.items } by { IsSoundWorld-prop (extent_of heap) pair words globals.items statics.items },
}

impl World {
    ghost use Rattle.std.specs.Prelude.{◌≡◌, ℕ, map, replicate};
    ghost use Rattle.std.specs.List.{All};
    ghost use Rattle.icn_value.specs.Limited.{Bounds};
    ghost use Rattle.icn_value.specs.declared.val.Val.TheVariants.{Null};
    ghost use Rattle.icn_defs.specs.Running.{first_heap, first_world};
    ghost use Rattle.icn_heap.specs.Extents.{IsLive, value_in};
    ghost use Rattle.icn_heap.specs.Heaps.{heap_of};
    ghost use Rattle.icn_vars.specs.Worlds.{new_world, world_of};

    /// The world of a heap, with these globals and statics, an empty subject, `&pos` 1, `&random` and `&error` 0, and no error kept. Of a heap in which nothing
    /// is made yet, and null statics, it is the world with which a run begins.
    #[tactic(auto, using(crate::proofs::StartWorlds::new_sound))]
    pub fn new(heap: Heap, globals: Vec<Val>, statics: Vec<Val>) -> World
        requires globals { All (IsLive (extent_of heap)) globals.items }
        requires statics { All (IsLive (extent_of heap)) statics.items }
        ensures heap { result.heap ≡ heap }
        ensures globals { result.globals.items ≡ globals.items }
        ensures statics { result.statics.items ≡ statics.items }
        ensures world { world_of result ≡ new_world heap globals.items statics.items }
        ensures first { (bounds : Bounds) (count : ℕ)
            → heap_of heap ≡ first_heap bounds → statics.items ≡ replicate count Null
            → world_of result ≡ first_world bounds (map (value_in (extent_of heap)) globals.items) count }
    {
        let subject = Span { start: 0, len: 0 };
        empty_text(&heap, subject);
        World {
            heap,
            pair: Pair {
                subject,
                position: 1,
            },
            words: Words {
                random: 0,
                error: 0,
                kept: None,
            },
            globals,
            statics,
        }
    }
}
