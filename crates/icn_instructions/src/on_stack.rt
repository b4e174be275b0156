// The instructions that touch nothing but the stack that runs.
ghost use Rattle.std.specs.Prelude.{◌≡◌, true, IsOk, OnOk};
ghost use Rattle.icn_code.specs.CodeTables.{tables_of};
ghost use Rattle.icn_frames.specs.Stacks as flat;
ghost use Rattle.icn_heap.specs.Extents.{Extent};
ghost use Rattle.icn_vars.specs.Worlds.{Reach};
ghost use Rattle.icn_control.specs.LiveStacks.{IsLiveStack};
ghost use Rattle.icn_control.specs.StackViews.{GoesOnIn, stack_in};
ghost use Rattle.icn_instructions.specs.InstructionEffects.{LacksNothing};
ghost use Rattle.icn_instructions.specs.FirstStatics.{AreFirstStatics};
ghost use Rattle.icn_instructions.specs.Groups.{group_of, takes_no_memory};
ghost use Rattle.icn_run.specs.InstructionNeeds.{HasCaseMark};
ghost use Rattle.icn_instructions.specs.Ranges.{IsInRange, MayName};
ghost use Rattle.icn_instructions.specs.declared.groups.InstrGroup.TheVariants as Groups;

use icn_code::{Code, Instr};
use icn_control::{
    change_label, drop_operand, duplicate, give_suspended, go_to, open_mark, push_below, push_cset,
    push_global, push_integer, push_local, push_null, push_static,
};
use icn_frames::{Cell, Frames, Stack};
use std::alloc::AllocError;

/// Does an instruction that touches nothing but the stack that runs, in a code with these first statics of its procedures. The
/// error is want of memory.
#[inline(always)]
pub fn do_on_stack<K: Stack<Cell> + Drop>(
    frames: &mut Frames<K>,
    code: &Code,
    firsts: &[u32],
    instr: Instr,
) -> Result<(), AllocError>
    requires group { group_of instr ≡ Groups.Stack }
    requires firsts { AreFirstStatics (tables_of code.now) firsts.now }
    requires goes_on { LacksNothing (tables_of code.now) instr frames.old.flat }
    requires in_range { IsInRange (tables_of code.now) (flat.proc frames.old.flat) instr }
    requires case_mark { (all : Extent) × HasCaseMark instr (stack_in all frames.old.flat) }
    requires live { (reach : Reach)
        × (MayName (tables_of code.now) reach × IsLiveStack (tables_of code.now) reach frames.old.flat) }
    ensures step { OnOk result (GoesOnIn (tables_of code.now) instr frames.old.flat frames.new.flat) }
    ensures live { OnOk result ((reach : Reach)
        → MayName (tables_of code.now) reach → IsLiveStack (tables_of code.now) reach frames.old.flat
        → IsLiveStack (tables_of code.now) reach frames.new.flat) }
    ensures no_memory { takes_no_memory instr ≡ true → IsOk result }
{
    match instr {
        Instr::Pnull => push_null(frames),
        Instr::Int(place) => push_integer(frames, code, place),
        Instr::Cset(place) => push_cset(frames, code, place),
        Instr::Local(place) => push_local(frames, place),
        Instr::Static(place) => {
            let first = firsts[frames.proc() as usize];
            push_static(frames, first, place)
        }
        Instr::Global(place) => push_global(frames, place),
        Instr::Pop => {
            drop_operand(frames);
            Ok(())
        }
        Instr::Dup => duplicate(frames),
        Instr::Mark(label) => open_mark(frames, Some(label)),
        Instr::Mark0 => open_mark(frames, None),
        Instr::Esusp => give_suspended(frames),
        Instr::Chfail(label) => {
            change_label(frames, label);
            Ok(())
        }
        Instr::Goto(label) => {
            go_to(frames, label);
            Ok(())
        }
        Instr::Ccase => push_below(frames),
        _ => unreachable!(),
    }
}
