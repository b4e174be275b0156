// Instructions that push what the code names, and touch nothing but the stack that runs.
ghost use Rattle.std.specs.Prelude.{◌≡◌, ◌+◌, ◌<◌, ◌^◌, Some, length, slice_get, OnOk};
ghost use Rattle.icn_code.specs.Codes.{Tables};
ghost use Rattle.icn_code.specs.CodeTables.{tables_of};
ghost use Rattle.icn_code.specs.declared.instr.Instr.TheVariants as Instrs;
ghost use Rattle.icn_frames.specs.Stacks as flat;
ghost use Rattle.icn_vars.specs.Worlds.{Reach};
ghost use Rattle.icn_run.specs.Step.{statics_before};
ghost use Rattle.icn_control.specs.LiveStacks.{IsLiveStack, StaysLive};
ghost use Rattle.icn_control.specs.StackViews.{GoesOn, GoesOnIn};

use icn_code::Code;
use icn_frames::{Cell, Frames, Stack};
use icn_value::{Cset, Item, Val};
use std::alloc::AllocError;

/// Pushes an integer of the code, by its index, which must be there. `AllocError` is want of memory.
pub fn push_integer<K: Stack<Cell> + Drop>(
    frames: &mut Frames<K>,
    code: &Code,
    index: u32,
) -> Result<(), AllocError>
    requires { index < length (tables_of code.now).integers }
    ensures step { OnOk result
        (GoesOnIn (tables_of code.now) (Instrs.Int index) frames.old.flat frames.new.flat) }
    ensures live { OnOk result (StaysLive frames.old.flat frames.new.flat) }
{
    let n = code.integers[index as usize];
    frames.push_plain(Cell::ValInteger(n))?;
    Ok(())
}

/// Pushes the variable of a local, by its index, which must be there. `AllocError` is want of memory.
pub fn push_local<K: Stack<Cell> + Drop>(
    frames: &mut Frames<K>,
    index: u32,
) -> Result<(), AllocError>
    requires { index < flat.local_count frames.old.flat }
    ensures step { OnOk result (GoesOn (Instrs.Local index) frames.old.flat frames.new.flat) }
    ensures live { OnOk result (StaysLive frames.old.flat frames.new.flat) }
{
    frames.push_plain(Cell::VarLocal(index))?;
    Ok(())
}

/// Pushes the variable of a global, by its index. `AllocError` is want of memory.
pub fn push_global<K: Stack<Cell> + Drop>(
    frames: &mut Frames<K>,
    index: u32,
) -> Result<(), AllocError>
    ensures step { OnOk result (GoesOn (Instrs.Global index) frames.old.flat frames.new.flat) }
    ensures live { OnOk result ((tables : Tables) (reach : Reach) → index < reach.globals
        → IsLiveStack tables reach frames.old.flat → IsLiveStack tables reach frames.new.flat) }
{
    frames.push_plain(Cell::VarGlobal(index))?;
    Ok(())
}

/// Pushes a cset of the code, by its index, which must be there. `AllocError` is want of memory.
pub fn push_cset<K: Stack<Cell> + Drop>(
    frames: &mut Frames<K>,
    code: &Code,
    index: u32,
) -> Result<(), AllocError>
    requires { index < length (tables_of code.now).csets }
    ensures step { OnOk result
        (GoesOnIn (tables_of code.now) (Instrs.Cset index) frames.old.flat frames.new.flat) }
    ensures live { OnOk result (StaysLive frames.old.flat frames.new.flat) }
{
    let set = cset_at(code, index);
    frames.push(Item::Val(Val::Chars(set)))?;
    Ok(())
}

/// Pushes the variable of a static of the procedure that runs, by its index among them; `first` is the number of the
/// procedure's first static, and so many there are below 2 ^ 32. `AllocError` is want of memory.
pub fn push_static<K: Stack<Cell> + Drop>(
    frames: &mut Frames<K>,
    first: u32,
    index: u32,
) -> Result<(), AllocError>
    requires few { first + index < 2 ^ 32 }
    ensures step { OnOk result ((tables : Tables) → first ≡ statics_before tables (flat.proc frames.old.flat)
        → GoesOnIn tables (Instrs.Static index) frames.old.flat frames.new.flat) }
    ensures live { OnOk result ((tables : Tables) (reach : Reach) → first + index < reach.statics
        → IsLiveStack tables reach frames.old.flat → IsLiveStack tables reach frames.new.flat) }
{
    frames.push_plain(Cell::VarStatic(first + index))?;
    Ok(())
}

// A cset of the code.
fn cset_at(code: &Code, index: u32) -> Cset
    requires { index < length (tables_of code.now).csets }
    ensures { slice_get (tables_of code.now).csets index ≡ Some result }
{
    match code.csets.get(index as usize) {
        Some(set) => *set,
        None => unreachable!(),
    }
}
