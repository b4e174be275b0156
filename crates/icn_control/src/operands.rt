// Operands that are taken together.
ghost use Rattle.std.specs.Prelude.{◌≡◌, ◌+◌, Some, IsSome, OnOk, length};
ghost use Rattle.icn_frames.specs.Stacks as flat;
ghost use Rattle.icn_control.specs.TakenOperands.{take_operands};

use icn_frames::{Cell, Frames, Stack};
use icn_value::{Item, Val};
use std::alloc::AllocError;

/// Takes so many operands, which must be there, into a room whose content before does not matter; the top one comes last.
///
/// The error is want of memory.
pub fn take_operands<K: Stack<Cell> + Drop>(
    frames: &mut Frames<K>,
    items: &mut Vec<Item>,
    count: usize,
) -> Result<(), AllocError>
    requires { IsSome (take_operands count frames.old.flat) }
    ensures taken { OnOk result
        (take_operands count frames.old.flat ≡ Some (items.new.items, frames.new.flat)) }
    ensures spare { OnOk result (frames.new.spare ≡ frames.old.spare + count) }
{
    items.resize(count, Item::Val(Val::Null))?;
    fill_with_operands(frames, items);
    Ok(())
}

// Takes as many operands as there are places for.
fn fill_with_operands<K: Stack<Cell> + Drop>(frames: &mut Frames<K>, items: &mut [Item])
    requires { IsSome (take_operands (length items.old) frames.old.flat) }
    ensures taken { take_operands (length items.old) frames.old.flat ≡ Some (items.new, frames.new.flat) }
    ensures spare { frames.new.spare ≡ frames.old.spare + length items.old }
{
    let mut left = items.len();
    while left > 0 {
        left -= 1;
        items[left] = frames.pop();
    }
}
