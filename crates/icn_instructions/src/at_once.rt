// Instructions that touch the stack that runs and the world, done at once, where slots tell what they take.
ghost use Rattle.std.specs.Prelude.{◌≡◌, [], IsSome};
ghost use Rattle.icn_code.specs.Codes.{Tables};
ghost use Rattle.icn_code.specs.declared.instr.Instr.TheVariants as Instrs;
ghost use Rattle.icn_vars.specs.Worlds.{reach_of};
ghost use Rattle.icn_frames.specs.Stacks as flat;
ghost use Rattle.icn_control.specs.LiveStacks.{IsLiveStack};
ghost use Rattle.icn_instructions.specs.InstructionEffects.{DoesAtOnce, LacksNothingIn};

use crate::eret::give_value_out;
use icn_code::Instr;
use icn_control::{RunState, fail_procedure, leave_with, limit_at_once, suspend_value, take_value};
use icn_frames::{Cell, Frames, Stack};
use icn_vars::World;

// Gives the value of a result out of its mark.
#[inline(always)]
fn eret_at_once<K: Stack<Cell> + Drop>(
    frames: &mut Frames<K>,
    world: &mut World,
) -> Option<RunState>
    requires goes_on { (tables : Tables) × LacksNothingIn tables Instrs.Eret world.old frames.old.flat }
    requires live { (tables : Tables) × IsLiveStack tables (reach_of world.old []) frames.old.flat }
    ensures { (tables : Tables)
        → DoesAtOnce tables Instrs.Eret world.old frames.old.flat world.new frames.new.flat result }
{
    match take_value(frames) {
        Some(value) => {
            give_value_out(frames, world, value);
            Some(RunState::Running)
        }
        None => None,
    }
}

// Returns from the procedure.
#[inline(always)]
fn pret_at_once<K: Stack<Cell> + Drop>(
    frames: &mut Frames<K>,
    world: &mut World,
) -> Option<RunState>
    requires operand { IsSome (flat.pop frames.old.flat) }
    requires live { (tables : Tables) × IsLiveStack tables (reach_of world.old []) frames.old.flat }
    ensures { (tables : Tables)
        → DoesAtOnce tables Instrs.Pret world.old frames.old.flat world.new frames.new.flat result }
{
    match take_value(frames) {
        Some(value) => Some(leave_with(frames, world, value)),
        None => None,
    }
}

// Ends the procedure, which fails.
#[inline(always)]
fn pfail_at_once<K: Stack<Cell> + Drop>(
    frames: &mut Frames<K>,
    world: &mut World,
) -> Option<RunState>
    requires { (tables : Tables) × IsLiveStack tables (reach_of world.old []) frames.old.flat }
    ensures { (tables : Tables)
        → DoesAtOnce tables Instrs.Pfail world.old frames.old.flat world.new frames.new.flat result }
{
    Some(fail_procedure(frames, world))
}

// Suspends the procedure. The world stays.
#[inline(always)]
fn psusp_at_once<K: Stack<Cell> + Drop>(
    frames: &mut Frames<K>,
    world: &mut World,
) -> Option<RunState>
    requires { IsSome (flat.pop frames.old.flat) }
    ensures { (tables : Tables)
        → DoesAtOnce tables Instrs.Psusp world.old frames.old.flat world.new frames.new.flat result }
{
    if suspend_value(frames) {
        return Some(RunState::Running);
    }
    None
}

// Opens a limit mark. The world stays.
#[inline(always)]
fn limit_opened<K: Stack<Cell> + Drop>(
    frames: &mut Frames<K>,
    world: &mut World,
) -> Option<RunState>
    requires { IsSome (flat.pop frames.old.flat) }
    ensures { (tables : Tables)
        → DoesAtOnce tables Instrs.Limit world.old frames.old.flat world.new frames.new.flat result }
{
    match limit_at_once(frames) {
        Some(stage) => Some(stage),
        None => None,
    }
}

/// Does an instruction that touches the stack that runs and the world, where slots tell what it takes: it returns from a procedure
/// or suspends it, ends one that fails, gives the value of a result out of its mark, or opens the mark of a limit. Elsewhere, and
/// for want of memory, nothing changes.
#[inline(always)]
pub fn do_world_at_once<K: Stack<Cell> + Drop>(
    frames: &mut Frames<K>,
    world: &mut World,
    instr: Instr,
) -> Option<RunState>
    requires goes_on { (tables : Tables) × LacksNothingIn tables instr world.old frames.old.flat }
    requires live { (tables : Tables) × IsLiveStack tables (reach_of world.old []) frames.old.flat }
    ensures { (tables : Tables)
        → DoesAtOnce tables instr world.old frames.old.flat world.new frames.new.flat result }
{
    match instr {
        Instr::Eret => eret_at_once(frames, world),
        Instr::Pret => pret_at_once(frames, world),
        Instr::Pfail => pfail_at_once(frames, world),
        Instr::Psusp => psusp_at_once(frames, world),
        Instr::Limit => limit_opened(frames, world),
        _ => None,
    }
}
