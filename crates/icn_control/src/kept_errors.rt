// What keywords give of the error that is kept.
ghost use Rattle.std.specs.Prelude.{◌≡◌, ℕ, [], IfOk, IfSome};
ghost use Rattle.std.specs.Option.{option_map};
ghost use Rattle.icn_defs.specs.Keywords.{kept_number, kept_text, kept_value};
ghost use Rattle.icn_heap.specs.Extents.{Extent};
ghost use Rattle.icn_heap.specs.Heaps.{extent_of, heap_of};
ghost use Rattle.icn_vars.specs.Worlds.{IsLiveItem, KeepsItems, Reach, item_in, kept_in, reach_of, world_of};
ghost use Rattle.icn_control.specs.LiveStacks.{with_locals};

use crate::texts::hold;
use icn_defs::error_text;
use icn_value::{Item, Val};
use icn_vars::{HeldError, World};
use std::alloc::AllocError;

/// `&errornumber`: the number of the error.
pub fn kept_number(kept: Option<HeldError>) -> Option<Item>
    ensures item { (all : Extent) → option_map (item_in all) result ≡ kept_number (kept_in all kept) }
    ensures live { IfSome result (λ x. (reach : Reach) → IsLiveItem reach x) }
{
    match kept {
        Some(error) => Some(Item::Val(Val::Integer(i64::from(error.number)))),
        None => None,
    }
}

/// `&errorvalue`: the value that it is about, if any.
pub fn kept_value(world: &World) -> Option<Item>
    ensures item { option_map (item_in (extent_of world.now.heap)) result
        ≡ kept_value (kept_in (extent_of world.now.heap) world.now.words.kept) }
    ensures live { IfSome result (λ x. (n : ℕ) → IsLiveItem (with_locals n (reach_of world.now [])) x) }
{
    match world.words.kept {
        Some(error) => match error.value {
            Some(val) => Some(Item::Val(val)),
            None => None,
        },
        None => None,
    }
}

/// `&errortext`: the text that a report has for it, which is not charged. The error is want of memory.
pub fn kept_text(world: &mut World) -> Result<Option<Item>, AllocError>
    ensures item { IfOk result (λ item. option_map (item_in (extent_of world.new.heap)) item
        ≡ kept_text (kept_in (extent_of world.old.heap) world.old.words.kept)) }
    ensures live { IfOk result (λ item. IfSome item (λ x. (n : ℕ)
        → IsLiveItem (with_locals n (reach_of world.new [])) x)) }
    ensures kept { KeepsItems (reach_of world.old []) (reach_of world.new []) }
    ensures world { world_of world.new ≡ world_of world.old }
    ensures heap { heap_of world.new.heap ≡ heap_of world.old.heap }
{
    match world.words.kept {
        Some(error) => {
            let text = hold(world, error_text(error.number))?;
            Ok(Some(Item::Val(Val::Text(text))))
        }
        None => Ok(None),
    }
}
