// Operations on texts, assignments, and calls of functions that are done at once, as turns, on a machine.
ghost use Rattle.std.specs.Prelude.{◌≡◌, [], IsSome};
ghost use Rattle.icn_defs.specs.Arities.{arity};
ghost use Rattle.icn_vars.specs.Worlds.{reach_of};
ghost use Rattle.icn_code.specs.Codes.{Tables};
ghost use Rattle.icn_code.specs.CodeTables.{tables_of};
ghost use Rattle.icn_code.specs.declared.instr.Instr.TheVariants as Instrs;
ghost use Rattle.icn_machine.specs.AnsweredAtOnce.{DoneAtOnce};
ghost use Rattle.icn_control.specs.LiveStacks.{IsLiveStack};
ghost use Rattle.icn_control.specs.TakenOperands.{take_operands};
ghost use Rattle.icn_machine.specs.Stepping.{IsDoing};
ghost use Rattle.icn_machine.specs.TurnsAtOnce.{DoesAsTurn};

use crate::assignments_in_place::assign_in_place;
use crate::at_once::{AtOnce, is_not};
use crate::elements_in_place::give_elements;
use crate::functions_in_place::call_function_in_place;
use crate::texts_in_place::operate_on_texts;
use icn_code::{Code, Instr};
use icn_control::Machine;
use icn_frames::{Cell, Frames, Stack};
use icn_text::Op;
use icn_vars::World;
use law_steps::{steps_keep_names, steps_keep_sizes};

/// Performs an operation on texts that the operands are, or that locals or globals hold which they name, where slots tell them and a
/// turn is left. Elsewhere nothing changes.
#[inline(always)]
pub fn texts_at_once<K: Stack<Cell> + Drop>(
    m: &mut Machine<K>,
    code: &Code,
    instr: Instr,
    op: Op,
) -> AtOnce
    requires is { instr ≡ Instrs.Op op }
    requires doing { IsDoing (tables_of code.now) m.old instr }
    ensures { DoneAtOnce (tables_of code.now) instr m.old m.new result }
{
    steps_keep_names();
    steps_keep_sizes();
    if m.turns >= m.limits.turns {
        return AtOnce::Not;
    }
    let done = operate_on_texts(m.stacks.frames(), &mut m.world, op);
    if is_not(done) {
        return AtOnce::Not;
    }
    m.turns += 1;
    done
}

// Performs an assignment to a variable of the world that its slot tells, or begins to give the elements of a list. Elsewhere, and for
// other operations, nothing changes. Its operands must be there.
#[inline(always)]
fn operate_in_turn<K: Stack<Cell> + Drop>(
    frames: &mut Frames<K>,
    world: &mut World,
    op: Op,
) -> AtOnce
    requires operands { IsSome (take_operands (arity op) frames.old.flat) }
    requires live { (tables : Tables) × IsLiveStack tables (reach_of world.old []) frames.old.flat }
    ensures { (tables : Tables) → DoesAsTurn tables (Instrs.Op op) world.old frames.old.flat world.new
        frames.new.flat result }
{
    match op {
        Op::Elements => give_elements(frames, world),
        _ => assign_in_place(frames, world, op),
    }
}

/// Performs an assignment to a variable of the world that its slot tells, or begins to give the elements of a list, where a turn is left.
/// Elsewhere nothing changes.
#[inline(always)]
pub fn operation_at_once<K: Stack<Cell> + Drop>(
    m: &mut Machine<K>,
    code: &Code,
    instr: Instr,
    op: Op,
) -> AtOnce
    requires is { instr ≡ Instrs.Op op }
    requires doing { IsDoing (tables_of code.now) m.old instr }
    ensures { DoneAtOnce (tables_of code.now) instr m.old m.new result }
{
    steps_keep_names();
    steps_keep_sizes();
    if m.turns >= m.limits.turns {
        return AtOnce::Not;
    }
    let done = operate_in_turn(m.stacks.frames(), &mut m.world, op);
    if is_not(done) {
        return AtOnce::Not;
    }
    m.turns += 1;
    done
}

/// Calls the function below so many operands with them, where it is one that is done at once, slots tell what it takes and a turn is
/// left. Elsewhere nothing changes.
#[inline(always)]
pub fn function_at_once<K: Stack<Cell> + Drop>(
    m: &mut Machine<K>,
    code: &Code,
    instr: Instr,
    count: u32,
) -> AtOnce
    requires is { instr ≡ Instrs.Invoke count }
    requires doing { IsDoing (tables_of code.now) m.old instr }
    ensures { DoneAtOnce (tables_of code.now) instr m.old m.new result }
{
    if m.turns >= m.limits.turns {
        return AtOnce::Not;
    }
    let done = call_function_in_place(m.stacks.frames(), &mut m.world, code, count);
    if is_not(done) {
        return AtOnce::Not;
    }
    m.turns += 1;
    done
}
