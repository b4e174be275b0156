// The instructions that touch turns, `initial` or several parts of the machine at once, but no co-expression.
ghost use Rattle.std.specs.Prelude.{◌≡◌, ◌≢◌, true, IfErr, IsSome};
ghost use Rattle.icn_code.specs.CodeTables.{tables_of};
ghost use Rattle.icn_frames.specs.Stacks as flat;
ghost use Rattle.icn_value.specs.Store.{Outside};
ghost use Rattle.icn_vars.specs.Outcomes.{IsLiveHalt};
ghost use Rattle.icn_run.specs.Step.{stuck};
ghost use Rattle.icn_control.specs.Machines.{ComesTo, IsSoundMachine, does, stack_of, store_seen, world_reach};
ghost use Rattle.icn_instructions.specs.InstructionEffects.{HasMemory};
ghost use Rattle.icn_instructions.specs.Groups.{group_of, takes_no_memory};
ghost use Rattle.icn_run.specs.InstructionNeeds.{HasVariables};
ghost use Rattle.icn_instructions.specs.Ranges.{IsInRange};
ghost use Rattle.icn_control.specs.Soundness.{HasItsStack, UnlessEnded};
ghost use Rattle.icn_instructions.specs.declared.groups.InstrGroup.TheVariants as Groups;

use icn_code::{Code, Instr};
use icn_control::{Machine, RunState, go_back, init, lsusp, make_list, push_keyword, unmark};
use icn_frames::{Cell, Stack};
use icn_value::{Item, Val};
use icn_vars::Halt;

/// Does an instruction that touches turns, `initial` or several parts of the machine at once, but no co-expression. The rooms
/// for operands and for values are used again, whatever they hold.
///
/// The error is that of the first operand of a list that has no value, 307, or want of memory.
pub fn do_on_machine<K: Stack<Cell> + Drop>(
    m: &mut Machine<K>,
    code: &Code,
    instr: Instr,
    items: &mut Vec<Item>,
    vals: &mut Vec<Val>,
) -> Result<RunState, Halt>
    requires group { group_of instr ≡ Groups.Machine }
    requires runs { IsSome m.old.stacks.table.running }
    requires sound { IsSoundMachine (tables_of code.now) m.old }
    requires goes_on { (outside : Outside) × (does (tables_of code.now) outside instr m.old ≢ stuck) }
    requires in_range { IsInRange (tables_of code.now) (flat.proc (stack_of m.old)) instr }
    requires variables { (outside : Outside)
        × HasVariables (tables_of code.now) (store_seen (tables_of code.now) outside m.old) }
    ensures step { (outside : Outside)
        → ComesTo (tables_of code.now) outside (does (tables_of code.now) outside instr m.old) m.new result }
    ensures sound { UnlessEnded result (IsSoundMachine (tables_of code.now) m.new) }
    ensures halt { IfErr result (IsLiveHalt (world_reach m.new)) }
    ensures stack { HasItsStack m.new result }
    ensures limits { m.new.limits ≡ m.old.limits }
    ensures no_memory { takes_no_memory instr ≡ true → HasMemory result }
{
    match instr {
        Instr::Keywd(word) => match push_keyword(m, word) {
            Ok(stage) => Ok(stage),
            Err(_) => Err(Halt::NoMemory),
        },
        Instr::Llist(count) => make_list(m, items, vals, count),
        Instr::Unmark => {
            unmark(m);
            Ok(RunState::Running)
        }
        Instr::Lsusp => match lsusp(m) {
            Ok(()) => Ok(RunState::Running),
            Err(_) => Err(Halt::NoMemory),
        },
        Instr::Efail => Ok(RunState::Failing),
        Instr::Loop(label) => Ok(go_back(m, label)),
        Instr::Init(label) => {
            init(m, label);
            Ok(RunState::Running)
        }
        _ => unreachable!(),
    }
}
