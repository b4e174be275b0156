// Fields of records.
ghost use Rattle.std.specs.Prelude.{IsSome};
ghost use Rattle.icn_value.specs.Store.{Outside};
ghost use Rattle.icn_heap.specs.Heaps.{heap_of};
ghost use Rattle.law_names.specs.RowSizes.{FitSizes};
ghost use Rattle.icn_frames.specs.Stacks as flat;
ghost use Rattle.icn_code.specs.CodeTables.{tables_of};
ghost use Rattle.icn_code.specs.declared.instr.Instr.TheVariants as Instrs;
ghost use Rattle.law_steps.specs.KeepingSizes.{field_count};
ghost use Rattle.icn_control.specs.Machines.{ComesTo, does, stack_of};
ghost use Rattle.icn_control.specs.Soundness.{IsRunnable, StaysSound};

use icn_calls::push_field;
use icn_code::Code;
use icn_control::{Machine, RunState};
use icn_frames::{Cell, Stack};
use icn_vars::Halt;

/// Pushes the variable of a field of the record that is the top operand, which must be there, as a turn.
///
/// The error is that of the operand that has no value, 107 where it is no record, 207 where the record has no such field, or want
/// of memory.
pub fn field<K: Stack<Cell> + Drop>(
    m: &mut Machine<K>,
    code: &Code,
    field: u32,
) -> Result<RunState, Halt>
    requires stands { IsRunnable m.old }
    requires operand { IsSome (flat.pop (stack_of m.old)) }
    requires sizes { FitSizes (field_count (tables_of code.now)) (heap_of m.old.world.heap) }
    ensures step { (outside : Outside) → ComesTo (tables_of code.now) outside
        (does (tables_of code.now) outside (Instrs.Field field) m.old) m.new result }
    ensures keeps { StaysSound m.old m.new result }
{
    let item = m.stacks.frames().pop();
    if m.turns >= m.limits.turns {
        return Ok(RunState::AtBound);
    }
    m.turns += 1;
    push_field(m.stacks.frames(), &m.world, code, field, item)?;
    Ok(RunState::Running)
}
