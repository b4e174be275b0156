// `initial` of procedures.
ghost use Rattle.std.specs.Prelude.{◌≡◌, ◌<◌, IsSome, vec_len};
ghost use Rattle.icn_value.specs.Store.{Outside};
ghost use Rattle.icn_code.specs.Codes.{Tables};
ghost use Rattle.icn_code.specs.declared.instr.Instr.TheVariants as Instrs;
ghost use Rattle.icn_frames.specs.Stacks as flat;
ghost use Rattle.icn_control.specs.Machines.{IsSoundMachine, StandsAt, does, stack_of};
ghost use Rattle.icn_control.specs.declared.machine.RunState.TheVariants as RunStates;

use crate::machine::Machine;
use icn_frames::{Cell, Stack};

/// Goes to a label where the procedure that runs did its `initial` before, and else notes that it does. It takes no memory.
pub fn init<K: Stack<Cell> + Drop>(m: &mut Machine<K>, label: u32)
    requires runs { IsSome m.old.stacks.table.running }
    requires begun { flat.proc (stack_of m.old) < vec_len m.old.begun }
    ensures step { (tables : Tables) (outside : Outside)
        → StandsAt tables outside (does tables outside (Instrs.Init label) m.old) m.new RunStates.Running }
    ensures sound { (tables : Tables) → IsSoundMachine tables m.old → IsSoundMachine tables m.new }
    ensures limits { m.new.limits ≡ m.old.limits }
    ensures stack { IsSome m.new.stacks.table.running }
{
    let proc = m.stacks.frames().proc();
    if m.begun[proc as usize] {
        m.stacks.frames().go(label);
    } else {
        m.begun[proc as usize] = true;
    }
}
