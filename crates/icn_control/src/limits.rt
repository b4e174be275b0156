// A limit on results, by the value of an operand in the activation that runs.
ghost use Rattle.std.specs.Prelude.{◌≡◌, ◌<◌, [], None, Ok, IsSome, IfSome, IfErr};
ghost use Rattle.icn_code.specs.Codes.{Tables};
ghost use Rattle.icn_code.specs.declared.instr.Instr.TheVariants as Instrs;
ghost use Rattle.icn_vars.specs.Outcomes.{IsLiveHalt};
ghost use Rattle.icn_vars.specs.Worlds.{reach_of};
ghost use Rattle.icn_frames.specs.Stacks as flat;
ghost use Rattle.icn_vars.specs.declared.world.World.{World};
ghost use Rattle.icn_control.specs.LiveStacks.{IsLiveStack, StaysLive};
ghost use Rattle.icn_control.specs.PlainValues.{TellsLimit};
ghost use Rattle.icn_control.specs.StackAndWorld.{ComesWith, natural_of};
ghost use Rattle.icn_control.specs.Soundness.{UnlessEnded};

use crate::machine::RunState;
use crate::plain_values::value_slot;
use crate::values::value_of;
use icn_convert::to_integer;
use icn_frames::{Cell, Frames, Stack};
use icn_vars::{Halt, World};

/// Opens a limit mark, with the value of the top operand as its count. At 0 it fails.
///
/// The error is that of the value, 101 where it is no integer, and 205 where it is below 0.
pub fn limit<K: Stack<Cell> + Drop>(frames: &mut Frames<K>, world: &World) -> Result<RunState, Halt>
    requires operand { IsSome (flat.pop frames.old.flat) }
    requires live { (tables : Tables) × IsLiveStack tables (reach_of world.now []) frames.old.flat }
    ensures step { ComesWith Instrs.Limit world.now frames.old.flat world.now frames.new.flat result }
    ensures live { (tables : Tables) → IsLiveStack tables (reach_of world.now []) frames.old.flat
        → UnlessEnded result (IsLiveStack tables (reach_of world.now []) frames.new.flat) }
    ensures halt { IfErr result (IsLiveHalt (reach_of world.now [])) }
{
    let x = frames.pop();
    let v = value_of(frames, world, x)?;
    let Some(n) = to_integer(&world.heap, v) else {
        return Err(Halt::Error(101, Some(v)));
    };
    let Some(count) = count_of(n) else {
        return Err(Halt::Error(205, Some(v)));
    };
    if count == 0 {
        return Ok(RunState::Failing);
    }
    open_limit(frames, count);
    Ok(RunState::Running)
}

// The count that an operand tells, where slots tell its value and that is an integer which is not below 0.
#[inline(always)]
fn limit_told<K: Stack<Cell> + Drop>(frames: &Frames<K>, slot: Cell) -> Option<u64>
    ensures { IfSome result (TellsLimit (flat.locals frames.now.flat) slot) }
{
    let Some(value) = value_slot(frames, slot) else {
        return None;
    };
    match value {
        Cell::ValInteger(n) => count_of(n),
        _ => None,
    }
}

/// Opens a limit mark at once, where slots tell its count; at 0 it fails. It does as `limit`, whatever the world is, which stays.
/// Elsewhere nothing changes. It takes no memory.
pub fn limit_at_once<K: Stack<Cell> + Drop>(frames: &mut Frames<K>) -> Option<RunState>
    requires { IsSome (flat.pop frames.old.flat) }
    ensures step { IfSome result (λ stage. (w : World)
        → ComesWith Instrs.Limit w frames.old.flat w frames.new.flat (Ok stage)) }
    ensures live { IfSome result (λ stage. StaysLive frames.old.flat frames.new.flat) }
    ensures not_done { result ≡ None → frames.new.flat ≡ frames.old.flat }
{
    let slot = frames.top();
    let Some(count) = limit_told(frames, slot) else {
        return None;
    };
    frames.drop_with(0);
    if count == 0 {
        return Some(RunState::Failing);
    }
    open_limit(frames, count);
    Some(RunState::Running)
}

// Opens a limit mark on a stack that has room for it.
fn open_limit<K: Stack<Cell> + Drop>(frames: &mut Frames<K>, count: u64)
    requires { 0 < frames.old.spare }
    ensures { frames.new.flat ≡ flat.open_either None (Some count) frames.old.flat }
{
    match frames.mark(None, Some(count)) {
        Ok(()) => {}
        Err(_) => unreachable!(),
    }
}

// An integer that is not below 0, as a count.
fn count_of(n: i64) -> Option<u64>
    ensures { result ≡ natural_of n }
{
    if n < 0 { None } else { Some(n as u64) }
}
