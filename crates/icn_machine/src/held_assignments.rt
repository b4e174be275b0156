// The assignment to a local of a value that any variable holds, done on the stack alone. The world stays as it is.
ghost use Rattle.std.specs.Prelude.{◌≡◌, [], IsSome};
ghost use Rattle.icn_text.specs.declared.op.Op.TheVariants as Ops;
ghost use Rattle.icn_vars.specs.Worlds.{reach_of};
ghost use Rattle.icn_code.specs.Codes.{Tables};
ghost use Rattle.icn_control.specs.LiveStacks.{IsLiveStack};
ghost use Rattle.icn_control.specs.TakenOperands.{take_operands};
ghost use Rattle.icn_machine.specs.PlainOperations.{OperatesInWorld};

use crate::held_values::value_held;
use crate::plain_operations::local_index;
use crate::value_operations::is_nameless;
use icn_control::{RunState, put_slot};
use icn_frames::{Cell, Frames, Stack};
use icn_vars::World;

/// Assigns the value of the top operand, whatever variable that is, to the local that the operand below it is: `x := y`, if the value is
/// no procedure. Elsewhere nothing changes. The operands must be there. It takes no memory.
pub fn assign_held<K: Stack<Cell> + Drop>(frames: &mut Frames<K>, world: &World) -> Option<RunState>
    requires operands { IsSome (take_operands 2 frames.old.flat) }
    requires live { (tables : Tables) × IsLiveStack tables (reach_of world.now []) frames.old.flat }
    ensures { OperatesInWorld world.now Ops.Assign frames.old.flat frames.new.flat result }
{
    let lower = frames.slot_below(1);
    let Some(index) = local_index(lower) else {
        return None;
    };
    let count = frames.local_count();
    if index as u64 >= count {
        return None;
    }
    let Some(val) = value_held(frames, world, 0) else {
        return None;
    };
    if !is_nameless(val) {
        return None;
    }
    frames.drop_with(1);
    frames.local_count();
    frames.set_local(index as u64, val);
    frames.local_count();
    put_slot(frames, Cell::VarLocal(index));
    Some(RunState::Running)
}
