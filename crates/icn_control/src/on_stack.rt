// The instructions that touch nothing but the stack that runs.
ghost use Rattle.std.specs.Prelude.{◌≡◌, ◌+◌, ◌<◌, ◌≤◌, true, false, Some, is_some, IsSome, IfSome, OnOk, IfOk, is_none};
ghost use Rattle.icn_value.specs.declared.item.Item.{Item};
ghost use Rattle.icn_value.specs.declared.item.Item.TheVariants.{Val as HeldVal};
ghost use Rattle.icn_value.specs.declared.val.Val.TheVariants.{Null};
ghost use Rattle.icn_code.specs.declared.instr.Instr.TheVariants as Instrs;
ghost use Rattle.icn_frames.specs.Slots.{plain_operand};
ghost use Rattle.icn_frames.specs.Stacks as flat;
ghost use Rattle.icn_frames.specs.Stacks.{FlatStack};
ghost use Rattle.icn_control.specs.LiveStacks.{MaybeStaysLive, StaysLive};
ghost use Rattle.icn_control.specs.StackViews.{GoesOn, GoesOnLeaving, mark_of};

use icn_frames::{Cell, Frames, Stack, Why, is_plain_operand};
use icn_value::{Item, Pair};
use std::alloc::AllocError;

/// Pushes null. `AllocError` is want of memory.
pub fn push_null<K: Stack<Cell> + Drop>(frames: &mut Frames<K>) -> Result<(), AllocError>
    ensures step { OnOk result (GoesOn Instrs.Pnull frames.old.flat frames.new.flat) }
    ensures live { OnOk result (StaysLive frames.old.flat frames.new.flat) }
{
    frames.push_plain(Cell::ValNull)?;
    Ok(())
}

/// Drops the top operand, which must be there. It takes no memory.
pub fn drop_operand<K: Stack<Cell> + Drop>(frames: &mut Frames<K>)
    requires { IsSome (flat.pop frames.old.flat) }
    ensures step { GoesOn Instrs.Pop frames.old.flat frames.new.flat }
    ensures live { StaysLive frames.old.flat frames.new.flat }
{
    frames.drop_top();
}

/// Pushes the top operand, which must be there, once more. `AllocError` is want of memory.
pub fn duplicate<K: Stack<Cell> + Drop>(frames: &mut Frames<K>) -> Result<(), AllocError>
    requires { IsSome (flat.pop frames.old.flat) }
    ensures step { OnOk result (GoesOn Instrs.Dup frames.old.flat frames.new.flat) }
    ensures live { OnOk result (StaysLive frames.old.flat frames.new.flat) }
{
    frames.reserve(1)?;
    let slot = frames.top();
    if is_plain_operand(slot) {
        put_slot(frames, slot);
        return Ok(());
    }
    let x = frames.pop();
    put(frames, x);
    put(frames, x);
    Ok(())
}

/// Opens a plain mark, with a label or without one. `AllocError` is want of memory.
pub fn open_mark<K: Stack<Cell> + Drop>(
    frames: &mut Frames<K>,
    label: Option<u32>,
) -> Result<(), AllocError>
    ensures step { OnOk result (GoesOn (mark_of label) frames.old.flat frames.new.flat) }
    ensures live { OnOk result (StaysLive frames.old.flat frames.new.flat) }
{
    frames.mark(label, None)?;
    Ok(())
}

/// Sets the label of the innermost mark, which must be a plain one. It takes no memory.
pub fn change_label<K: Stack<Cell> + Drop>(frames: &mut Frames<K>, label: u32)
    requires { IsSome (flat.relabel label frames.old.flat) }
    ensures step { GoesOn (Instrs.Chfail label) frames.old.flat frames.new.flat }
    ensures live { StaysLive frames.old.flat frames.new.flat }
{
    frames.relabel(label);
}

/// Goes to a label. It takes no memory.
pub fn go_to<K: Stack<Cell> + Drop>(frames: &mut Frames<K>, label: u32)
    ensures step { GoesOn (Instrs.Goto label) frames.old.flat frames.new.flat }
    ensures live { StaysLive frames.old.flat frames.new.flat }
{
    frames.go(label);
}

/// Drops the innermost mark, which must not be the frame, with all above it. It takes no memory. Gives the pair that comes
/// back.
pub fn drop_mark<K: Stack<Cell> + Drop>(frames: &mut Frames<K>) -> Option<Pair>
    requires { flat.at_base frames.old.flat ≡ false }
    ensures step { GoesOnLeaving Instrs.Unmark frames.old.flat result frames.new.flat }
    ensures live { StaysLive frames.old.flat frames.new.flat }
    ensures pair { MaybeStaysLive frames.old.flat result }
{
    frames.unmark()
}

/// Leaves the innermost mark suspended, with the top operand as its result outside. Both must be there. `AllocError` is want
/// of memory.
pub fn give_suspended<K: Stack<Cell> + Drop>(frames: &mut Frames<K>) -> Result<(), AllocError>
    requires operand { IsSome (flat.pop frames.old.flat) }
    requires mark { IfSome (flat.pop frames.old.flat) (λ popped. flat.at_base popped.1 ≡ false) }
    ensures step { OnOk result (GoesOn Instrs.Esusp frames.old.flat frames.new.flat) }
    ensures live { OnOk result (StaysLive frames.old.flat frames.new.flat) }
{
    let slot = frames.top();
    if is_plain_operand(slot) {
        frames.drop_top();
        frames.suspend_mark_plain(slot)?;
        return Ok(());
    }
    let x = frames.pop();
    frames.suspend(Why::Alt, Some(x))?;
    Ok(())
}

// The same as `give_limited`, with the slot of the operand, which tells it.
#[inline(always)]
fn give_limited_plain<K: Stack<Cell> + Drop>(
    frames: &mut Frames<K>,
    slot: Cell,
) -> Result<Option<Pair>, AllocError>
    requires operand { IsSome (flat.pop frames.old.flat) }
    requires plain { is_some (plain_operand slot) ≡ true }
    requires told { (x : Item) (rest : FlatStack) → flat.pop frames.old.flat ≡ Some (x, rest)
        → (y : Item) → plain_operand slot ≡ Some y → x ≡ y }
    requires mark { IfSome (flat.pop frames.old.flat) (λ popped. flat.at_base popped.1 ≡ false) }
    requires count { IfSome (flat.pop frames.old.flat) (λ popped. IsSome (flat.count_down popped.1)) }
    ensures step { IfOk result (λ pair. GoesOnLeaving Instrs.Lsusp frames.old.flat pair frames.new.flat) }
    ensures live { OnOk result (StaysLive frames.old.flat frames.new.flat) }
    ensures pair { IfOk result (MaybeStaysLive frames.old.flat) }
{
    frames.drop_top();
    if frames.count_down() > 0 {
        frames.suspend_mark_plain(slot)?;
        return Ok(None);
    }
    let pair = frames.unmark();
    frames.push_plain(slot)?;
    Ok(pair)
}

/// Counts a result of the innermost limit mark down, which must be there with an operand and a count above 0. After the last
/// one the mark is dropped, else it is left suspended. Gives the pair that comes back. `AllocError` is want of memory.
pub fn give_limited<K: Stack<Cell> + Drop>(
    frames: &mut Frames<K>,
) -> Result<Option<Pair>, AllocError>
    requires operand { IsSome (flat.pop frames.old.flat) }
    requires mark { IfSome (flat.pop frames.old.flat) (λ popped. flat.at_base popped.1 ≡ false) }
    requires count { IfSome (flat.pop frames.old.flat) (λ popped. IsSome (flat.count_down popped.1)) }
    ensures step { IfOk result (λ pair. GoesOnLeaving Instrs.Lsusp frames.old.flat pair frames.new.flat) }
    ensures live { OnOk result (StaysLive frames.old.flat frames.new.flat) }
    ensures pair { IfOk result (MaybeStaysLive frames.old.flat) }
{
    let slot = frames.top();
    if is_plain_operand(slot) {
        return give_limited_plain(frames, slot);
    }
    let x = frames.pop();
    if frames.count_down() > 0 {
        frames.suspend(Why::Alt, Some(x))?;
        return Ok(None);
    }
    let pair = frames.unmark();
    frames.push(x)?;
    Ok(pair)
}

/// Pushes the operand below the innermost mark, which must not be the frame, once more. It must be there. `AllocError` is
/// want of memory.
pub fn push_below<K: Stack<Cell> + Drop>(frames: &mut Frames<K>) -> Result<(), AllocError>
    requires operand { IsSome (flat.below frames.old.flat) }
    requires mark { is_none (flat.unmark frames.old.flat) ≡ false }
    ensures step { OnOk result (GoesOn Instrs.Ccase frames.old.flat frames.new.flat) }
    ensures live { OnOk result (StaysLive frames.old.flat frames.new.flat) }
{
    let slot = frames.below_slot();
    if is_plain_operand(slot) {
        frames.push_plain(slot)?;
        return Ok(());
    }
    let x = frames.below();
    frames.push(x)?;
    Ok(())
}

/// Puts an operand on a stack that has room for it. It takes no memory.
pub fn put<K: Stack<Cell> + Drop>(frames: &mut Frames<K>, x: Item)
    requires { 0 < frames.old.spare }
    ensures flat { frames.new.flat ≡ flat.push x frames.old.flat }
    ensures spare { frames.old.spare ≤ frames.new.spare + 1 }
{
    match frames.push(x) {
        Ok(()) => {}
        Err(_) => unreachable!(),
    }
}

/// Puts an operand on a stack that has room for it, by its slot, beside which nothing may be kept. It takes no memory.
#[inline(always)]
pub fn put_slot<K: Stack<Cell> + Drop>(frames: &mut Frames<K>, slot: Cell)
    requires room { 0 < frames.old.spare }
    requires plain { IsSome (plain_operand slot) }
    ensures flat { (x : Item) → plain_operand slot ≡ Some x → frames.new.flat ≡ flat.push x frames.old.flat }
    ensures spare { frames.old.spare ≤ frames.new.spare + 1 }
{
    match frames.push_plain(slot) {
        Ok(()) => {}
        Err(_) => unreachable!(),
    }
}
