// The instructions that perform no row and call nothing.
ghost use Rattle.std.specs.Prelude.{◌≡◌, ◌≢◌, true, IfErr, IsOk, IsSome, Ok, OnOk};
ghost use Rattle.icn_code.specs.CodeTables.{tables_of};
ghost use Rattle.icn_frames.specs.Stacks as flat;
ghost use Rattle.icn_value.specs.Store.{Outside};
ghost use Rattle.icn_vars.specs.Outcomes.{IsLiveHalt};
ghost use Rattle.icn_run.specs.Step.{stuck};
ghost use Rattle.icn_control.specs.Machines.{ComesTo, HasStack, IsSoundMachine, does, stack_of, stack_seen, store_seen, world_reach};
ghost use Rattle.icn_instructions.specs.InstructionEffects.{HasMemory};
ghost use Rattle.icn_instructions.specs.FirstStatics.{AreFirstStatics};
ghost use Rattle.icn_instructions.specs.Groups.{group_of, takes_no_memory};
ghost use Rattle.icn_run.specs.InstructionNeeds.{HasCaseMark, HasVariables};
ghost use Rattle.icn_instructions.specs.Ranges.{IsInRange};
ghost use Rattle.icn_control.specs.declared.machine.RunState.TheVariants as RunStates;
ghost use Rattle.icn_control.specs.Soundness.{HasItsStack, UnlessEnded};
ghost use Rattle.icn_instructions.specs.declared.groups.InstrGroup.TheVariants as Groups;

use crate::coexpressions::do_with_coexpressions;
use crate::groups::{InstrGroup, group_of};
use crate::in_world::do_in_world;
use crate::on_machine::do_on_machine;
use crate::on_stack::do_on_stack;
use icn_code::{Code, Instr};
use icn_control::{Machine, RunState};
use icn_frames::{Cell, Stack};
use icn_value::{Item, Val};
use icn_vars::Halt;
use std::alloc::AllocError;

/// Does an instruction that performs no row, calls nothing and touches more than the stack that runs, where the place is that of
/// the next one. The rooms for operands and for values are used again, whatever they hold.
///
/// The error is that of an operand's value, one of the instruction (101 and 205 of a limit, 103 and 306 of a scan, 118 and 215 of
/// a co-expression, 307 where cells are charged), or want of memory.
#[inline(never)]
pub fn do_off_stack<K: Stack<Cell> + Drop>(
    m: &mut Machine<K>,
    code: &Code,
    instr: Instr,
    items: &mut Vec<Item>,
    vals: &mut Vec<Val>,
) -> Result<RunState, Halt>
    requires kind { group_of instr ≢ Groups.Application }
    requires off_stack { group_of instr ≢ Groups.Stack }
    requires runs { IsSome m.old.stacks.table.running }
    requires sound { IsSoundMachine (tables_of code.now) m.old }
    requires goes_on { (outside : Outside) × (does (tables_of code.now) outside instr m.old ≢ stuck) }
    requires in_range { IsInRange (tables_of code.now) (flat.proc (stack_of m.old)) instr }
    requires case_mark { HasCaseMark instr (stack_seen m.old) }
    requires variables { (outside : Outside)
        × HasVariables (tables_of code.now) (store_seen (tables_of code.now) outside m.old) }
    ensures step { (outside : Outside)
        → ComesTo (tables_of code.now) outside (does (tables_of code.now) outside instr m.old) m.new result }
    ensures sound { UnlessEnded result (IsSoundMachine (tables_of code.now) m.new) }
    ensures halt { IfErr result (IsLiveHalt (world_reach m.new)) }
    ensures stack { HasItsStack m.new result }
    ensures limits { m.new.limits ≡ m.old.limits }
    ensures no_memory { takes_no_memory instr ≡ true → HasMemory result }
{
    match group_of(instr) {
        InstrGroup::Stack => unreachable!(),
        InstrGroup::World => do_in_world(m.stacks.frames(), &mut m.world, code, instr),
        InstrGroup::Machine => do_on_machine(m, code, instr, items, vals),
        InstrGroup::Coexpression => do_with_coexpressions(m, code, instr),
        InstrGroup::Application => unreachable!(),
    }
}

/// Does an instruction that touches nothing but the stack that runs. The numbers of the first statics of the code's procedures are
/// handed in. The next instruction is due then. The error is want of memory.
pub fn do_stack_instruction<K: Stack<Cell> + Drop>(
    m: &mut Machine<K>,
    code: &Code,
    firsts: &[u32],
    instr: Instr,
) -> Result<(), AllocError>
    requires group { group_of instr ≡ Groups.Stack }
    requires firsts { AreFirstStatics (tables_of code.now) firsts.now }
    requires runs { IsSome m.old.stacks.table.running }
    requires sound { IsSoundMachine (tables_of code.now) m.old }
    requires goes_on { (outside : Outside) × (does (tables_of code.now) outside instr m.old ≢ stuck) }
    requires in_range { IsInRange (tables_of code.now) (flat.proc (stack_of m.old)) instr }
    requires case_mark { HasCaseMark instr (stack_seen m.old) }
    requires variables { (outside : Outside)
        × HasVariables (tables_of code.now) (store_seen (tables_of code.now) outside m.old) }
    ensures step { OnOk result ((outside : Outside) → ComesTo (tables_of code.now) outside
        (does (tables_of code.now) outside instr m.old) m.new (Ok RunStates.Running)) }
    ensures sound { OnOk result (IsSoundMachine (tables_of code.now) m.new) }
    ensures stack { OnOk result (HasStack m.new RunStates.Running) }
    ensures limits { m.new.limits ≡ m.old.limits }
    ensures no_memory { takes_no_memory instr ≡ true → IsOk result }
{
    match do_on_stack(m.stacks.frames(), code, firsts, instr) {
        Ok(()) => Ok(()),
        Err(lack) => Err(lack),
    }
}
