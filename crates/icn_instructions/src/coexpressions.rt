// The instructions that make, enter or leave a co-expression.
ghost use Rattle.std.specs.Prelude.{◌≡◌, ◌≢◌, true, IfErr, IsSome};
ghost use Rattle.icn_code.specs.CodeTables.{tables_of};
ghost use Rattle.icn_value.specs.Store.{Outside};
ghost use Rattle.icn_vars.specs.Outcomes.{IsLiveHalt};
ghost use Rattle.icn_run.specs.Step.{stuck};
ghost use Rattle.icn_control.specs.Machines.{ComesTo, IsSoundMachine, does, world_reach};
ghost use Rattle.icn_instructions.specs.InstructionEffects.{HasMemory};
ghost use Rattle.icn_instructions.specs.Groups.{group_of, takes_no_memory};
ghost use Rattle.icn_control.specs.Soundness.{HasItsStack, UnlessEnded};
ghost use Rattle.icn_instructions.specs.declared.groups.InstrGroup.TheVariants as Groups;

use icn_code::{Code, Instr};
use icn_control::{Machine, RunState, coact, coret, create, exhaust, refresh};
use icn_frames::{Cell, Stack};
use icn_vars::Halt;

/// Does an instruction that makes, enters or leaves a co-expression.
///
/// The error is that of an operand's value, 118 where one is no co-expression, 215 where `&main` is refreshed, 307, or want of
/// memory.
pub fn do_with_coexpressions<K: Stack<Cell> + Drop>(
    m: &mut Machine<K>,
    code: &Code,
    instr: Instr,
) -> Result<RunState, Halt>
    requires group { group_of instr ≡ Groups.Coexpression }
    requires runs { IsSome m.old.stacks.table.running }
    requires sound { IsSoundMachine (tables_of code.now) m.old }
    requires goes_on { (outside : Outside) × (does (tables_of code.now) outside instr m.old ≢ stuck) }
    ensures step { (outside : Outside)
        → ComesTo (tables_of code.now) outside (does (tables_of code.now) outside instr m.old) m.new result }
    ensures sound { UnlessEnded result (IsSoundMachine (tables_of code.now) m.new) }
    ensures halt { IfErr result (IsLiveHalt (world_reach m.new)) }
    ensures stack { HasItsStack m.new result }
    ensures limits { m.new.limits ≡ m.old.limits }
    ensures no_memory { takes_no_memory instr ≡ true → HasMemory result }
{
    match instr {
        Instr::Create(label) => create(m, label),
        Instr::Coact => coact(m),
        Instr::Coret => coret(m),
        Instr::Cofail => Ok(exhaust(m)),
        // Of the operations this group has the refreshing alone.
        Instr::Op(_) => refresh(m),
        _ => unreachable!(),
    }
}
