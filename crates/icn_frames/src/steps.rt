// What calls do to the cells.
ghost use Rattle.std.specs.Prelude.{◌≡◌, ◌+◌, ◌<◌, ◌≤◌, ◌==◌, ℕ, ◌∷◌, true, false, length, map, replicate, Option, Bool, List, OnOk, OnErr, IfOk, IfSome};
ghost use Rattle.icn_value.specs.declared.val.Val.{Val};
ghost use Rattle.icn_value.specs.declared.val.Val.TheVariants.{Null};
ghost use Rattle.icn_frames.specs.CalledWith.{called_cell, Framed, HasOperands, HoldsLocals, IsArgument};
ghost use Rattle.icn_frames.specs.declared.slots.StackSlot.TheVariants as Slots;
ghost use Rattle.icn_frames.specs.Stacks as flat;
ghost use Rattle.icn_frames.specs.declared.layout.Cell.{Cell};
ghost use Rattle.icn_frames.specs.declared.layout.Cell.TheVariants as CellVariants;
ghost use Rattle.icn_frames.specs.Heights.{cell_at, with_copy};
ghost use Rattle.icn_frames.specs.Slots.{why_counting, why_moved};
ghost use Rattle.icn_frames.specs.declared.layout.Why.TheVariants as Whys;
ghost use Rattle.icn_frames.specs.StackInvariant.{shape, KindAt, IsScan, MayBeAt, Fit, bottom, FrameAt};

use crate::cells::Cells;
use crate::layout::{Count, NewFrame, Registers, Why};
use crate::slots::{StackSlot, is_plain_local, operand_as_local};
use crate::stack::Stack;
use icn_value::{Pair, Residual, Val};
use std::alloc::AllocError;

/// The registers of a procedure whose frame is at this height, as it begins.
pub fn at_frame(height: u64) -> Registers
    ensures { result ≡ flat.registers_at height }
{
    Registers {
        base: height,
        mark: height,
        newest: None,
        scan: None,
    }
}

/// Puts locals on top, for which there must be room.
pub fn put_locals<K: Stack<StackSlot> + Drop>(cells: &mut Cells<K>, locals: &[Val])
    requires { length locals.now ≤ cells.old.spare }
    ensures { cells.new.cells ≡ flat.put_above locals.now cells.old.cells }
{
    for v in locals {
        cells.push_local(*v);
    }
}

/// Puts this many locals on top that are null, for which there must be room.
pub fn put_nulls<K: Stack<StackSlot> + Drop>(cells: &mut Cells<K>, count: u32)
    requires { count ≤ cells.old.spare }
    ensures { cells.new.cells ≡ flat.put_above (replicate count Null) cells.old.cells }
{
    for _ in 0..count {
        cells.push_local_plain(StackSlot::LocalNull);
    }
}

// The slot of one of the `own` locals above a height, if it is one and nothing is kept beside it.
#[inline(always)]
fn local_argument<K: Stack<StackSlot> + Drop>(
    cells: &Cells<K>,
    base: u64,
    own: u64,
    slot: StackSlot,
    index: u32,
) -> Option<StackSlot>
    requires within { base + own ≤ length cells.now.cells }
    requires is { slot ≡ Slots.VarLocal index }
    ensures { IfSome result (IsArgument base own cells.now.cells slot) }
{
    if index as u64 >= own {
        return None;
    }
    let local = cells.slot_above(base, index as u64);
    if is_plain_local(local) {
        Some(local)
    } else {
        None
    }
}

// The slot of a local with the value that an operand is, if it is one and nothing is kept beside it.
#[inline(always)]
fn value_argument<K: Stack<StackSlot> + Drop>(
    cells: &Cells<K>,
    base: u64,
    own: u64,
    slot: StackSlot,
) -> Option<StackSlot>
    ensures { IfSome result (IsArgument base own cells.now.cells slot) }
{
    let local = operand_as_local(slot);
    if is_plain_local(local) {
        Some(local)
    } else {
        None
    }
}

// The slot of a local with the value of an operand, which is a value or one of the `own` locals above a height, if slots tell it.
#[inline(always)]
fn argument_slot<K: Stack<StackSlot> + Drop>(
    cells: &Cells<K>,
    base: u64,
    own: u64,
    slot: StackSlot,
) -> Option<StackSlot>
    requires { base + own ≤ length cells.now.cells }
    ensures { IfSome result (IsArgument base own cells.now.cells slot) }
{
    match slot {
        StackSlot::VarLocal(index) => local_argument(cells, base, own, slot, index),
        _ => value_argument(cells, base, own, slot),
    }
}

// Puts the frame of a call in the place of the top cell, which must be there.
fn put_frame<K: Stack<StackSlot> + Drop>(cells: &mut Cells<K>, frame: &NewFrame)
    requires { 0 < length cells.old.cells }
    ensures cells { (cell : Cell) (rest : List Cell) → cells.old.cells ≡ cell ∷ rest
        → cells.new.cells ≡ called_cell frame.now ∷ rest }
    ensures spare { cells.new.spare ≡ cells.old.spare }
{
    cells.drop_top();
    cells.push_call(
        frame.proc,
        frame.locals,
        frame.level,
        frame.saved,
        frame.address,
    );
}

/// Puts the frame of a call in the place of the operand below `left` others, which become its lowest locals by their values. The
/// `own` locals of the caller stand above a height. Where a value is not told by slots alone nothing changes.
pub fn frame_arguments<K: Stack<StackSlot> + Drop>(
    cells: &mut Cells<K>,
    frame: &NewFrame,
    base: u64,
    own: u64,
    left: u32,
) -> bool
    requires operands { HasOperands (left + 1) cells.old.cells }
    requires within { base + own + left < length cells.old.cells }
    ensures framed { result ≡ true → (held : List Val) → length held ≡ own
        → HoldsLocals base held cells.old.cells
        → Framed held left (called_cell frame.now) cells.old.cells cells.new.cells }
    ensures not { result ≡ false → cells.new.cells ≡ cells.old.cells }
    ensures spare { cells.new.spare ≡ cells.old.spare }
{
    if left == 0 {
        put_frame(cells, frame);
        return true;
    }
    let slot = cells.slot_at(cells.len() - 1);
    let Some(local) = argument_slot(cells, base, own, slot) else {
        return false;
    };
    cells.drop_top();
    let done = frame_arguments(cells, frame, base, own, left - 1);
    if done {
        cells.push_local_plain(local);
        return true;
    }
    cells.push_plain(slot);
    false
}

/// The newest open scan after a suspension.
pub fn scan_after(why: &Why, height: u64, older: Option<u64>, scan: Option<u64>) -> Option<u64>
    ensures { result ≡ flat.scan_by why.now height older scan }
{
    match why {
        Why::Scan(_) => Some(height),
        Why::Escan => older,
        _ => scan,
    }
}

/// The number of the procedure whose frame is in these registers.
pub fn running_proc<K: Stack<StackSlot> + Drop>(cells: &Cells<K>, r: Registers) -> u32
    requires { FrameAt (map shape cells.now.cells) r.base }
    ensures { result ≡ flat.proc_of (cell_at r.base cells.now.cells) }
{
    cells.proc_at(r.base - 1)
}

/// The height of the highest cell below the operands of the mark in these registers.
pub fn bottom_of<K: Stack<StackSlot> + Drop>(cells: &Cells<K>, r: Registers) -> u64
    requires { FrameAt (map shape cells.now.cells) r.base }
    ensures { result ≡ bottom (map shape cells.now.cells) r }
{
    match r.newest {
        Some(height) => height,
        None => {
            if r.mark == r.base {
                r.base + cells.locals_at(r.base - 1)
            } else {
                r.mark
            }
        }
    }
}

/// Puts a suspension on top, with the cells between two heights above it, and gives the suspension's height. There is room
/// for a result then. `AllocError` is want of memory; the cells are as they were then.
pub fn hang<K: Stack<StackSlot> + Drop>(
    cells: &mut Cells<K>,
    why: &Why,
    saved: Registers,
    address: u32,
    from: u64,
    to: u64,
) -> Result<u64, AllocError>
    requires order { from ≤ to }
    requires within { to ≤ length cells.old.cells }
    ensures height { IfOk result (λ height. height ≡ length cells.old.cells + 1) }
    ensures ok { OnOk result (cells.new.cells
        ≡ with_copy from to (CellVariants.Suspension why.now saved address ∷ cells.old.cells)) }
    ensures room { OnOk result (0 < cells.new.spare) }
    ensures err { OnErr result (cells.new.cells ≡ cells.old.cells) }
    ensures spare { OnErr result (cells.old.spare ≤ cells.new.spare) }
{
    let height = cells.len() + 1;
    cells.reserve(to - from + 2)?;
    cells.push_suspension(why, saved, address);
    cells.copy_up(from, to);
    Ok(height)
}

/// The same with the suspension of a count. `AllocError` is want of memory; the cells are as they were then.
pub fn hang_count<K: Stack<StackSlot> + Drop>(
    cells: &mut Cells<K>,
    count: Count,
    saved: Registers,
    address: u32,
    from: u64,
    to: u64,
) -> Result<u64, AllocError>
    requires order { from ≤ to }
    requires within { to ≤ length cells.old.cells }
    ensures height { IfOk result (λ height. height ≡ length cells.old.cells + 1) }
    ensures ok { OnOk result (cells.new.cells
        ≡ with_copy from to (CellVariants.Suspension (why_counting count.given count.last count.step) saved
        address ∷ cells.old.cells)) }
    ensures room { OnOk result (0 < cells.new.spare) }
    ensures err { OnErr result (cells.new.cells ≡ cells.old.cells) }
    ensures spare { OnErr result (cells.old.spare ≤ cells.new.spare) }
{
    let height = cells.len() + 1;
    cells.reserve(to - from + 2)?;
    cells.push_count(count, saved, address);
    cells.copy_up(from, to);
    Ok(height)
}

/// The same with the suspension of a move in the subject. `AllocError` is want of memory; the cells are as they were then.
pub fn hang_move<K: Stack<StackSlot> + Drop>(
    cells: &mut Cells<K>,
    old: u64,
    saved: Registers,
    address: u32,
    from: u64,
    to: u64,
) -> Result<u64, AllocError>
    requires order { from ≤ to }
    requires within { to ≤ length cells.old.cells }
    ensures height { IfOk result (λ height. height ≡ length cells.old.cells + 1) }
    ensures ok { OnOk result (cells.new.cells
        ≡ with_copy from to (CellVariants.Suspension (why_moved old) saved address ∷ cells.old.cells)) }
    ensures room { OnOk result (0 < cells.new.spare) }
    ensures err { OnErr result (cells.new.cells ≡ cells.old.cells) }
    ensures spare { OnErr result (cells.old.spare ≤ cells.new.spare) }
{
    let height = cells.len() + 1;
    cells.reserve(to - from + 2)?;
    cells.push_move(old, saved, address);
    cells.copy_few(from, to);
    Ok(height)
}

/// The same with the suspension of what an operation or a function left. `AllocError` is want of memory; the cells are as they were then.
pub fn hang_row<K: Stack<StackSlot> + Drop>(
    cells: &mut Cells<K>,
    rest: &Residual,
    saved: Registers,
    address: u32,
    from: u64,
    to: u64,
) -> Result<u64, AllocError>
    requires order { from ≤ to }
    requires within { to ≤ length cells.old.cells }
    ensures height { IfOk result (λ height. height ≡ length cells.old.cells + 1) }
    ensures ok { OnOk result (cells.new.cells
        ≡ with_copy from to (CellVariants.Suspension (Whys.Op rest.now) saved address ∷ cells.old.cells)) }
    ensures room { OnOk result (0 < cells.new.spare) }
    ensures err { OnErr result (cells.new.cells ≡ cells.old.cells) }
    ensures spare { OnErr result (cells.old.spare ≤ cells.new.spare) }
{
    let height = cells.len() + 1;
    cells.reserve(to - from + 2)?;
    cells.push_row(rest, saved, address);
    cells.copy_few(from, to);
    Ok(height)
}

/// The same with the suspension of a scan. `AllocError` is want of memory; the cells are as they were then.
pub fn hang_scan<K: Stack<StackSlot> + Drop>(
    cells: &mut Cells<K>,
    pair: Pair,
    saved: Registers,
    address: u32,
    from: u64,
    to: u64,
) -> Result<u64, AllocError>
    requires order { from ≤ to }
    requires within { to ≤ length cells.old.cells }
    ensures height { IfOk result (λ height. height ≡ length cells.old.cells + 1) }
    ensures ok { OnOk result (cells.new.cells
        ≡ with_copy from to (CellVariants.Suspension (Whys.Scan pair) saved address ∷ cells.old.cells)) }
    ensures room { OnOk result (0 < cells.new.spare) }
    ensures err { OnErr result (cells.new.cells ≡ cells.old.cells) }
    ensures spare { OnErr result (cells.old.spare ≤ cells.new.spare) }
{
    let height = cells.len() + 1;
    cells.reserve(to - from + 2)?;
    cells.push_scan(pair, saved, address);
    cells.copy_few(from, to);
    Ok(height)
}

/// The same with the suspension of a scan that was left. `AllocError` is want of memory; the cells are as they were then.
pub fn hang_escan<K: Stack<StackSlot> + Drop>(
    cells: &mut Cells<K>,
    saved: Registers,
    address: u32,
    from: u64,
    to: u64,
) -> Result<u64, AllocError>
    requires order { from ≤ to }
    requires within { to ≤ length cells.old.cells }
    ensures height { IfOk result (λ height. height ≡ length cells.old.cells + 1) }
    ensures ok { OnOk result (cells.new.cells
        ≡ with_copy from to (CellVariants.Suspension Whys.Escan saved address ∷ cells.old.cells)) }
    ensures room { OnOk result (0 < cells.new.spare) }
    ensures err { OnErr result (cells.new.cells ≡ cells.old.cells) }
    ensures spare { OnErr result (cells.old.spare ≤ cells.new.spare) }
{
    let height = cells.len() + 1;
    cells.reserve(to - from + 2)?;
    cells.push_escan(saved, address);
    cells.copy_few(from, to);
    Ok(height)
}

/// Whether two heights are one, or neither is there.
pub fn is_same(a: Option<u64>, b: Option<u64>) -> bool
    ensures { result ≡ flat.is_same a b }
{
    match (a, b) {
        (None, None) => true,
        (Some(a), Some(b)) => a == b,
        _ => false,
    }
}

/// From an open scan through older ones to the last before a given one.
pub fn oldest_from<K: Stack<StackSlot> + Drop>(
    cells: &Cells<K>,
    until: Option<u64>,
    scan: Option<u64>,
) -> Option<u64>
    requires fit { Fit (map shape cells.now.cells) }
    requires scan { MayBeAt IsScan (map shape cells.now.cells) scan }
    ensures value { result ≡ flat.oldest_from (length cells.now.cells) cells.now.cells until scan }
    ensures there { MayBeAt IsScan (map shape cells.now.cells) result }
{
    let mut at = scan;
    while let Some(height) = at {
        let older = older_than(cells, height);
        if is_same(older, until) {
            return at;
        }
        at = older;
    }
    None
}

/// The scan that was the newest when another was opened.
pub fn older_than<K: Stack<StackSlot> + Drop>(cells: &Cells<K>, height: u64) -> Option<u64>
    requires { KindAt IsScan (map shape cells.now.cells) height }
    ensures { result ≡ flat.older_scan cells.now.cells (Some height) }
{
    cells.saved_at(height - 1).scan
}

/// The scan that is the newest once the newest one is left.
pub fn older_scan<K: Stack<StackSlot> + Drop>(cells: &Cells<K>, scan: Option<u64>) -> Option<u64>
    requires { MayBeAt IsScan (map shape cells.now.cells) scan }
    ensures { result ≡ flat.older_scan cells.now.cells scan }
{
    match scan {
        None => None,
        Some(height) => older_than(cells, height),
    }
}

/// Exchanges the pair of a scan's frame.
pub fn swap_at<K: Stack<StackSlot> + Drop>(cells: &mut Cells<K>, height: u64, pair: Pair) -> Pair
    requires { KindAt IsScan (map shape cells.old.cells) height }
    ensures swaps { flat.SwapsAt height pair cells.old.cells result cells.new.cells }
    ensures spare { cells.new.spare ≡ cells.old.spare }
{
    let old = cells.pair_at(height - 1);
    cells.set_pair(height - 1, pair);
    old
}
