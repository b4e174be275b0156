// The instructions that touch the stack that runs and the world, and nothing else.
ghost use Rattle.std.specs.Prelude.{◌≡◌, [], true};
ghost use Rattle.icn_code.specs.CodeTables.{tables_of};
ghost use Rattle.icn_vars.specs.Worlds.{reach_of};
ghost use Rattle.icn_control.specs.LiveStacks.{IsLiveStack};
ghost use Rattle.icn_instructions.specs.InstructionEffects.{ComesIn, HasMemory, LacksNothingIn};
ghost use Rattle.icn_instructions.specs.Groups.{group_of, takes_no_memory};
ghost use Rattle.icn_instructions.specs.declared.groups.InstrGroup.TheVariants as Groups;
ghost use Rattle.icn_control.specs.Soundness.{LeavesWorld, UnlessEnded};

use crate::eret::give_out;
use icn_code::{Code, Instr};
use icn_control::{
    RunState, fail_procedure, give_back, leave_scan, limit, open_scan, push_string, suspend_with,
};
use icn_frames::{Cell, Frames, Stack};
use icn_vars::{Halt, World};

/// Does an instruction that touches the stack that runs and the world, and nothing else.
///
/// The error is that of the instruction's value, its own (101 and 205 of a limit, 103 and 306 of a scan), or want of memory.
pub fn do_in_world<K: Stack<Cell> + Drop>(
    frames: &mut Frames<K>,
    world: &mut World,
    code: &Code,
    instr: Instr,
) -> Result<RunState, Halt>
    requires group { group_of instr ≡ Groups.World }
    requires goes_on { LacksNothingIn (tables_of code.now) instr world.old frames.old.flat }
    requires live { IsLiveStack (tables_of code.now) (reach_of world.old []) frames.old.flat }
    ensures step { ComesIn (tables_of code.now) instr world.old frames.old.flat world.new frames.new.flat
        result }
    ensures live { UnlessEnded result
        (IsLiveStack (tables_of code.now) (reach_of world.new []) frames.new.flat) }
    ensures leaves { LeavesWorld world.old world.new result }
    ensures no_memory { takes_no_memory instr ≡ true → HasMemory result }
{
    match instr {
        Instr::Str(place) => match push_string(frames, world, code, place) {
            Ok(()) => Ok(RunState::Running),
            Err(_) => Err(Halt::NoMemory),
        },
        Instr::Eret => match give_out(frames, world) {
            Ok(()) => Ok(RunState::Running),
            Err(halt) => Err(halt),
        },
        Instr::Limit => limit(frames, world),
        Instr::Bscan => match open_scan(frames, world) {
            Ok(()) => Ok(RunState::Running),
            Err(halt) => Err(halt),
        },
        Instr::Escan => match leave_scan(frames, world) {
            Ok(()) => Ok(RunState::Running),
            Err(_) => Err(Halt::NoMemory),
        },
        Instr::Psusp => suspend_with(frames, world),
        Instr::Pret => give_back(frames, world),
        Instr::Pfail => Ok(fail_procedure(frames, world)),
        _ => unreachable!(),
    }
}
