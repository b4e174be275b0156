// The calls of a stack.
ghost use Rattle.std.specs.Prelude.{◌≡◌, ◌+◌, ◌<◌, ◌≤◌, ◌^◌, ℕ, Option, None, Bool, List, ◌∷◌, true, false, OnOk, OnErr, IsOk, IfOk, IfSome, IsSome, is_some, is_none, length, map, slice_get, slice_set};
ghost use Rattle.icn_frames.specs.Heights.{cell_at};
ghost use Rattle.icn_frames.specs.Stacks as flat;
ghost use Rattle.icn_frames.specs.Stacks.{FlatStack};
ghost use Rattle.icn_frames.specs.StackInvariant.{shape, IsScan, MayBeAt};
ghost use Rattle.icn_frames.specs.Slots.{content_of, plain_operand, plain_local, why_counting, why_moved, value_only};
ghost use Rattle.icn_frames.specs.Newest.{IsCounting, IsHeldBy, IsNewest};
ghost use Rattle.icn_frames.specs.CalledWith.{DropsWith, EntersWith, HasOperands, operands_above};
ghost use Rattle.icn_frames.specs.declared.layout.Cell.{Cell};
ghost use Rattle.icn_frames.specs.declared.layout.Cell.TheVariants as CellVariants;
ghost use Rattle.icn_frames.specs.declared.layout.Why.{Why};
ghost use Rattle.icn_frames.specs.declared.layout.Why.TheVariants as Whys;
ghost use Rattle.icn_value.specs.declared.item.Item.TheVariants as Items;
ghost use Rattle.icn_value.specs.declared.val.Val.TheVariants as Vals;
ghost use Rattle.icn_value.specs.declared.item.Item.{Item};
ghost use Rattle.icn_value.specs.declared.val.Val.{Val};

use crate::cells::Cells;
use crate::layout::{CellContent, Count, NewFrame, NewestKind, Registers, Why};
use crate::slots::StackSlot;
use crate::stack::Stack;
use crate::steps::{
    at_frame, bottom_of, frame_arguments, hang, hang_count, hang_escan, hang_move, hang_row,
    hang_scan, is_same, older_scan, oldest_from, put_locals, put_nulls, running_proc, scan_after,
    swap_at,
};
use icn_value::{Item, Pair, Residual, Val};
use std::alloc::{AllocError, Global};
use std::marker::Model;

/// The stack of one co-expression.
///
/// A clause sees the stack as cells, registers and an address in the code, and for how many more cells there is room. The base,
/// and each procedure's frame, counts as the outermost mark of what runs in it. Only `new`, `reserve`, `mark`, `enter`,
/// `enter_with` and the calls that push or suspend take memory; after an error, which is want of memory, they leave all but the
/// room as it was, and the room does not shrink.
#[derive(Drop)]
pub struct Frames<K: Stack<StackSlot> + Drop> {
    cells: Cells<K>,
    registers: Registers,
    address: u32,
    // The number of the running procedure, as its frame has it, so that it is at hand for each instruction.
    proc: u32,
    ghost runs: { proc ≡ flat.proc_of (cell_at registers.base cells.cells) },
}

impl<K: Stack<StackSlot> + Drop> Model for Frames<K> {
    ghost use Rattle.icn_frames.specs.StackInvariant.{SeenStack, Sound};

    ghost Value = { SeenStack };

    ghost view = { λ m. record {
      flat = record { cells = m.cells.cells; registers = m.registers; address = m.address };
      spare = m.cells.spare;
    } };

    ghost invariant = { λ m. Sound m.cells.cells m.registers };
}

impl<K: Stack<StackSlot> + Drop> Frames<K> {
    /// A base frame with these locals. `AllocError` is want of memory.
    pub fn new(alloc: Global, proc: u32, locals: &[Val], address: u32) -> Result<Self, AllocError>
        ensures { IfOk result (λ m. m.flat ≡ flat.begin proc locals.now address) }
    {
        let mut cells = Cells::new(alloc);
        cells.reserve(locals.len() as u64 + 1)?;
        cells.push_base(proc, locals.len() as u64);
        let height = cells.len();
        put_locals(&mut cells, locals);
        let registers = at_frame(height);
        let running = running_proc(&cells, registers);
        Ok(Frames {
            cells,
            registers,
            address,
            proc: running,
        })
    }

    /// The number of the running procedure.
    #[inline(always)]
    pub fn proc(&self) -> u32
        ensures { result ≡ flat.proc self.now.flat }
    {
        self.proc
    }

    /// 1, and 1 more for each procedure frame from the running one down to the base.
    pub fn level(&self) -> u64
        ensures { result ≡ flat.level self.now.flat }
    {
        self.cells.level_at(self.registers.base - 1)
    }

    /// Whether the running procedure has no caller on this stack.
    pub fn is_base(&self) -> bool
        ensures { result ≡ flat.is_base self.now.flat }
    {
        self.cells.is_base_at(self.registers.base - 1)
    }

    /// How many locals the running procedure has.
    pub fn local_count(&self) -> u64
        ensures count { result ≡ flat.local_count self.now.flat }
        ensures all { result ≡ length (flat.locals self.now.flat) }

        // Each has a cell of its own, so that nothing changes where all are set to what they are.
        ensures same { flat.set_locals (flat.locals self.now.flat) self.now.flat ≡ self.now.flat }
    {
        self.cells.locals_at(self.registers.base - 1)
    }

    /// A local of the running procedure, by its index, which must be in range.
    pub fn local(&self, index: u64) -> Val
        requires { index < flat.local_count self.now.flat }
        ensures { slice_get (flat.locals self.now.flat) index ≡ Some result }
    {
        self.cells.local_at(self.registers.base, index)
    }

    /// Sets a local of the running procedure, by its index, which must be in range.
    pub fn set_local(&mut self, index: u64, v: Val)
        requires { index < flat.local_count self.old.flat }
        ensures flat { self.new.flat
            ≡ flat.set_locals (slice_set (flat.locals self.old.flat) index v) self.old.flat }
        ensures locals { flat.locals self.new.flat ≡ slice_set (flat.locals self.old.flat) index v }
        ensures spare { self.new.spare ≡ self.old.spare }
    {
        self.cells.set_local(self.registers.base, index, v);
    }

    /// Sets a local of the running procedure, by its index, which must be in range, by the slot of its value, beside which
    /// nothing may be kept.
    #[inline(always)]
    pub fn set_local_plain(&mut self, index: u64, slot: StackSlot)
        requires there { index < flat.local_count self.old.flat }
        requires plain { IsSome (plain_local slot) }
        ensures flat { (v : Val) → plain_local slot ≡ Some v → self.new.flat
            ≡ flat.set_locals (slice_set (flat.locals self.old.flat) index v) self.old.flat }
        ensures locals { (v : Val) → plain_local slot ≡ Some v
            → flat.locals self.new.flat ≡ slice_set (flat.locals self.old.flat) index v }
        ensures spare { self.new.spare ≡ self.old.spare }
    {
        self.cells.set_local_plain(self.registers.base, index, slot);
    }

    /// The address of the next instruction.
    #[inline(always)]
    pub fn address(&self) -> u32
        ensures { result ≡ self.now.flat.address }
    {
        self.address
    }

    /// Goes on at this address.
    #[inline(always)]
    pub fn go(&mut self, address: u32)
        ensures flat { self.new.flat ≡ flat.go address self.old.flat }
        ensures spare { self.new.spare ≡ self.old.spare }
    {
        self.address = address;
    }

    /// How many cells there are.
    pub fn len(&self) -> u64
        ensures { result ≡ length self.now.flat.cells }
    {
        self.cells.len()
    }

    /// What the cell above `i` others holds in which a value may stand.
    pub fn content_at(&self, i: u64) -> CellContent
        requires { i < length self.now.flat.cells }
        ensures { (cell : Cell) → cell_at (i + 1) self.now.flat.cells ≡ Some cell → result ≡ content_of cell }
    {
        self.cells.content_at(i)
    }

    /// Makes room for `n` more cells. Where there is so much room already it takes no memory.
    pub fn reserve(&mut self, n: u64) -> Result<(), AllocError>
        ensures flat { self.new.flat ≡ self.old.flat }
        ensures spare { self.old.spare ≤ self.new.spare }
        ensures ok { OnOk result (n ≤ self.new.spare) }
        ensures succeeds { n ≤ self.old.spare → IsOk result }
    {
        self.cells.reserve(n)
    }

    /// Puts an operand on top. `AllocError` is want of memory, which comes only where nothing is spare; the stack is as it
    /// was then.
    pub fn push(&mut self, x: Item) -> Result<(), AllocError>
        ensures ok { OnOk result (self.new.flat ≡ flat.push x self.old.flat) }
        ensures err { OnErr result (self.new.flat ≡ self.old.flat) }
        ensures spare { self.old.spare ≤ self.new.spare + 1 }
        ensures succeeds { 0 < self.old.spare → IsOk result }
    {
        self.cells.reserve_one()?;
        self.cells.push_operand(x);
        Ok(())
    }

    /// Whether the innermost mark has an operand, which `pop` takes.
    pub fn has_operand(&self) -> bool
        ensures { result ≡ is_some (flat.pop self.now.flat) }
    {
        self.cells.is_operand_at(self.cells.len() - 1)
    }

    /// Takes the top operand, which must be there.
    pub fn pop(&mut self) -> Item
        requires { IsSome (flat.pop self.old.flat) }
        ensures flat { flat.pop self.old.flat ≡ Some (result, self.new.flat) }
        ensures spare { self.new.spare ≡ self.old.spare + 1 }
    {
        self.cells.pop_operand()
    }

    /// The slot of the top operand, which must be there. Where nothing is kept beside it, it tells the operand.
    #[inline(always)]
    pub fn top(&self) -> StackSlot
        requires { IsSome (flat.pop self.now.flat) }
        ensures { (x : Item) (rest : FlatStack) → flat.pop self.now.flat ≡ Some (x, rest)
            → (y : Item) → plain_operand result ≡ Some y → x ≡ y }
    {
        self.cells.slot_at(self.cells.len() - 1)
    }

    /// Puts an operand on top by its slot, beside which nothing may be kept. `AllocError` is want of memory, which comes
    /// only where nothing is spare; the stack is as it was then.
    #[inline(always)]
    pub fn push_plain(&mut self, slot: StackSlot) -> Result<(), AllocError>
        requires { IsSome (plain_operand slot) }
        ensures ok { OnOk result ((x : Item) → plain_operand slot ≡ Some x
            → self.new.flat ≡ flat.push x self.old.flat) }
        ensures err { OnErr result (self.new.flat ≡ self.old.flat) }
        ensures spare { self.old.spare ≤ self.new.spare + 1 }
        ensures succeeds { 0 < self.old.spare → IsOk result }
    {
        self.cells.reserve_one()?;
        self.cells.push_plain(slot);
        Ok(())
    }

    /// Drops the top operand, which must be there.
    #[inline(always)]
    pub fn drop_top(&mut self)
        requires { IsSome (flat.pop self.old.flat) }
        ensures flat { (x : Item) (rest : FlatStack) → flat.pop self.old.flat ≡ Some (x, rest)
            → self.new.flat ≡ rest }
        ensures spare { self.new.spare ≡ self.old.spare + 1 }
    {
        self.cells.drop_top();
    }

    /// Puts another operand in the place of the top one, which must be there, by its slot, beside which nothing may be kept.
    #[inline(always)]
    pub fn replace_top(&mut self, slot: StackSlot)
        requires there { IsSome (flat.pop self.old.flat) }
        requires plain { IsSome (plain_operand slot) }
        ensures flat { (x y : Item) (rest : FlatStack) → flat.pop self.old.flat ≡ Some (x, rest)
            → plain_operand slot ≡ Some y → self.new.flat ≡ flat.push y rest }
        ensures spare { self.new.spare ≡ self.old.spare }
    {
        self.cells.drop_top();
        self.cells.push_plain(slot);
    }

    /// The slot of a local of the running procedure, by its index, which must be in range. Where nothing is kept beside
    /// it, it tells the value.
    #[inline(always)]
    pub fn local_slot(&self, index: u64) -> StackSlot
        requires { index < flat.local_count self.now.flat }
        ensures { (v : Val) → slice_get (flat.locals self.now.flat) index ≡ Some v
            → (w : Val) → plain_local result ≡ Some w → v ≡ w }
    {
        self.cells.slot_above(self.registers.base, index)
    }

    /// Opens a plain mark, or with a count a limit mark. `AllocError` is want of memory, which comes only where nothing is
    /// spare; the stack is as it was then.
    pub fn mark(&mut self, label: Option<u32>, count: Option<u64>) -> Result<(), AllocError>
        ensures ok { OnOk result (self.new.flat ≡ flat.open_either label count self.old.flat) }
        ensures err { OnErr result (self.new.flat ≡ self.old.flat) }
        ensures spare { self.old.spare ≤ self.new.spare + 1 }
        ensures succeeds { 0 < self.old.spare → IsOk result }
    {
        self.cells.reserve_one()?;
        self.cells.push_mark(label, count, self.registers);
        self.registers = Registers {
            base: self.registers.base,
            mark: self.cells.len(),
            newest: None,
            scan: self.registers.scan,
        };
        Ok(())
    }

    /// Whether the innermost mark is the base or the running procedure's frame.
    pub fn at_base(&self) -> bool
        ensures mark { result ≡ flat.at_base self.now.flat }

        // No other mark can be dropped.
        ensures drops { result ≡ is_none (flat.unmark self.now.flat) }
    {
        self.registers.mark == self.registers.base
    }

    /// The innermost mark's label.
    pub fn label(&self) -> Option<u32>
        ensures { result ≡ flat.label self.now.flat }
    {
        self.cells.label_at(self.registers.mark - 1)
    }

    /// Whether the innermost mark is a plain one, which `relabel` wants.
    pub fn is_plain(&self) -> bool
        ensures { (label : ℕ) → result ≡ is_some (flat.relabel label self.now.flat) }
    {
        self.cells.is_plain_at(self.registers.mark - 1)
    }

    /// Sets the label of the innermost mark, which must be a plain one.
    pub fn relabel(&mut self, label: u32)
        requires { IsSome (flat.relabel label self.old.flat) }
        ensures flat { flat.relabel label self.old.flat ≡ Some self.new.flat }
        ensures spare { self.new.spare ≡ self.old.spare }
    {
        self.cells.set_label(self.registers.mark - 1, label);
    }

    /// Whether `relabel` set the innermost mark's label.
    pub fn has_new_label(&self) -> bool
        ensures { result ≡ flat.is_relabelled self.now.flat }
    {
        self.cells.is_relabelled_at(self.registers.mark - 1)
    }

    /// Whether the innermost mark is a limit mark with a count above 0, which `count_down` wants.
    pub fn has_count(&self) -> bool
        ensures { result ≡ is_some (flat.count_down self.now.flat) }
    {
        self.cells.count_at(self.registers.mark - 1) > 0
    }

    /// Lowers the count of an innermost limit mark, which must be above 0, and gives the new count.
    pub fn count_down(&mut self) -> u64
        requires { IsSome (flat.count_down self.old.flat) }
        ensures flat { flat.count_down self.old.flat ≡ Some (result, self.new.flat) }
        ensures spare { self.new.spare ≡ self.old.spare }
    {
        let at = self.registers.mark - 1;
        let left = self.cells.count_at(at) - 1;
        self.cells.set_count(at, left);
        left
    }

    /// Whether an operand is directly below the innermost mark, which `below` gives.
    pub fn has_below(&self) -> bool
        ensures { result ≡ is_some (flat.below self.now.flat) }
    {
        if self.registers.mark < 2 {
            return false;
        }
        self.cells.is_operand_at(self.registers.mark - 2)
    }

    /// The operand directly below the innermost mark, which must be there.
    pub fn below(&self) -> Item
        requires { IsSome (flat.below self.now.flat) }
        ensures { flat.below self.now.flat ≡ Some result }
    {
        self.cells.operand_at(self.registers.mark - 2)
    }

    /// The slot of the operand directly below the innermost mark, which must be there. Where nothing is kept beside it, it
    /// tells the operand.
    #[inline(always)]
    pub fn below_slot(&self) -> StackSlot
        requires { IsSome (flat.below self.now.flat) }
        ensures { (x y : Item) → flat.below self.now.flat ≡ Some x → plain_operand result ≡ Some y → x ≡ y }
    {
        self.cells.slot_at(self.registers.mark - 2)
    }

    /// Drops the innermost mark, which `mark` opened, with all above it. Gives the pair that the oldest scan saved that was
    /// opened in it and is still open.
    pub fn unmark(&mut self) -> Option<Pair>
        requires { flat.at_base self.old.flat ≡ false }
        ensures flat { flat.unmark self.old.flat ≡ Some (self.new.flat, result) }
        ensures spare { self.old.spare ≤ self.new.spare }
    {
        let to = self.registers.mark - 1;
        let saved = self.cells.saved_at(to);
        let pair = self.pair_since(saved.scan);
        self.cells.cut(to);
        self.registers = saved;
        self.proc = running_proc(&self.cells, self.registers);
        pair
    }

    /// Drops the innermost mark, which `mark` opened, with all above it.
    #[inline(always)]
    pub fn drop_mark(&mut self)
        requires { flat.at_base self.old.flat ≡ false }
        ensures flat { (pair : Option Pair) × (flat.unmark self.old.flat ≡ Some (self.new.flat, pair)) }
        ensures spare { self.old.spare ≤ self.new.spare }
    {
        let to = self.registers.mark - 1;
        let saved = self.cells.saved_at(to);
        self.cells.cut(to);
        self.registers = saved;
        self.proc = running_proc(&self.cells, self.registers);
    }

    /// Suspends, and pushes a result if there is one. The mark that goes on is the next outer one for `Alt`, the caller's
    /// for `Proc`, and else the innermost one; it must be there. `AllocError` is want of memory; the stack is as it was
    /// then.
    pub fn suspend(&mut self, why: Why, given: Option<Item>) -> Result<(), AllocError>
        requires { flat.GoesOn why self.old.flat }
        ensures ok { OnOk result
            (flat.given_to given (flat.suspend_by why self.old.flat) ≡ Some self.new.flat) }
        ensures err { OnErr result (self.new.flat ≡ self.old.flat) }
        ensures spare { OnErr result (self.old.spare ≤ self.new.spare) }
    {
        self.suspend_bare(&why)?;
        self.give(given);
        Ok(())
    }

    /// Leaves the innermost mark, which must not be the frame, suspended, and pushes the operand of a slot, beside which
    /// nothing may be kept: `suspend` for `Alt`. `AllocError` is want of memory; the stack is as it was then.
    pub fn suspend_mark_plain(&mut self, slot: StackSlot) -> Result<(), AllocError>
        requires goes_on { flat.at_base self.old.flat ≡ false }
        requires plain { IsSome (plain_operand slot) }
        ensures ok { OnOk result ((x : Item) → plain_operand slot ≡ Some x
            → flat.given_to (Some x) (flat.suspend_mark self.old.flat) ≡ Some self.new.flat) }
        ensures err { OnErr result (self.new.flat ≡ self.old.flat) }
        ensures spare { OnErr result (self.old.spare ≤ self.new.spare) }
    {
        self.suspend_mark()?;
        self.cells.push_plain(slot);
        Ok(())
    }

    /// Suspends the procedure, which must have a caller here, and pushes the operand of a slot, beside which nothing may be
    /// kept: `suspend` for `Proc`. `AllocError` is want of memory; the stack is as it was then.
    pub fn suspend_proc_plain(&mut self, slot: StackSlot) -> Result<(), AllocError>
        requires goes_on { flat.is_base self.old.flat ≡ false }
        requires plain { IsSome (plain_operand slot) }
        ensures ok { OnOk result ((x : Item) → plain_operand slot ≡ Some x
            → flat.given_to (Some x) (flat.suspend_proc self.old.flat) ≡ Some self.new.flat) }
        ensures err { OnErr result (self.new.flat ≡ self.old.flat) }
        ensures spare { OnErr result (self.old.spare ≤ self.new.spare) }
    {
        self.suspend_proc()?;
        self.cells.push_plain(slot);
        Ok(())
    }

    /// Suspends a count in the innermost mark, and pushes the integer that it gives. `AllocError` is want of memory; the
    /// stack is as it was then.
    pub fn suspend_count(&mut self, count: Count) -> Result<(), AllocError>
        ensures ok { OnOk result (flat.given_to (Some (Items.Val (Vals.Integer count.given)))
            (flat.suspend_by (why_counting count.given count.last count.step) self.old.flat)
            ≡ Some self.new.flat) }
        ensures err { OnErr result (self.new.flat ≡ self.old.flat) }
        ensures spare { OnErr result (self.old.spare ≤ self.new.spare) }
    {
        let from = bottom_of(&self.cells, self.registers);
        let to = self.cells.len();
        let height = hang_count(
            &mut self.cells,
            count,
            self.registers,
            self.address,
            from,
            to,
        )?;
        self.registers.newest = Some(height);
        self.cells.push_plain(StackSlot::ValInteger(count.given));
        Ok(())
    }

    /// Suspends a move in the subject in the innermost mark, by the place at which it began, and pushes the operand of a
    /// slot, beside which nothing may be kept. `AllocError` is want of memory; the stack is as it was
    /// then.
    pub fn suspend_move(&mut self, old: u64, slot: StackSlot) -> Result<(), AllocError>
        requires plain { IsSome (plain_operand slot) }
        ensures ok { OnOk result ((x : Item) → plain_operand slot ≡ Some x
            → flat.given_to (Some x) (flat.suspend_by (why_moved old) self.old.flat) ≡ Some self.new.flat) }
        ensures err { OnErr result (self.new.flat ≡ self.old.flat) }
        ensures spare { OnErr result (self.old.spare ≤ self.new.spare) }
    {
        let from = bottom_of(&self.cells, self.registers);
        let to = self.cells.len();
        let height = hang_move(&mut self.cells, old, self.registers, self.address, from, to)?;
        self.registers.newest = Some(height);
        self.cells.push_plain(slot);
        Ok(())
    }

    /// Suspends what an operation or a function left in the innermost mark, and pushes the operand of a slot, beside which
    /// nothing may be kept. `AllocError` is want of memory; the stack is as it was
    /// then.
    pub fn suspend_row(&mut self, rest: &Residual, slot: StackSlot) -> Result<(), AllocError>
        requires plain { IsSome (plain_operand slot) }
        ensures ok { OnOk result ((x : Item) → plain_operand slot ≡ Some x
            → flat.given_to (Some x) (flat.suspend_by (Whys.Op rest.now) self.old.flat) ≡ Some self.new.flat) }
        ensures err { OnErr result (self.new.flat ≡ self.old.flat) }
        ensures spare { OnErr result (self.old.spare ≤ self.new.spare) }
    {
        let from = bottom_of(&self.cells, self.registers);
        let to = self.cells.len();
        let height = hang_row(
            &mut self.cells,
            rest,
            self.registers,
            self.address,
            from,
            to,
        )?;
        self.registers.newest = Some(height);
        self.cells.push_plain(slot);
        Ok(())
    }

    /// Opens a scan in the innermost mark, with the pair that it saves. `AllocError` is want of memory; the stack is as it was
    /// then.
    pub fn suspend_scan(&mut self, pair: Pair) -> Result<(), AllocError>
        ensures ok { OnOk result
            (flat.given_to None (flat.suspend_by (Whys.Scan pair) self.old.flat) ≡ Some self.new.flat) }
        ensures err { OnErr result (self.new.flat ≡ self.old.flat) }
        ensures spare { OnErr result (self.old.spare ≤ self.new.spare) }
    {
        let from = bottom_of(&self.cells, self.registers);
        let to = self.cells.len();
        let height = hang_scan(
            &mut self.cells,
            pair,
            self.registers,
            self.address,
            from,
            to,
        )?;
        self.registers.newest = Some(height);
        self.registers.scan = Some(height);
        Ok(())
    }

    /// Leaves the newest open scan, and pushes the operand of a slot, beside which nothing may be kept. `AllocError` is want of
    /// memory; the stack is as it was then.
    pub fn suspend_escan(&mut self, slot: StackSlot) -> Result<(), AllocError>
        requires plain { IsSome (plain_operand slot) }
        ensures ok { OnOk result ((x : Item) → plain_operand slot ≡ Some x
            → flat.given_to (Some x) (flat.suspend_by Whys.Escan self.old.flat) ≡ Some self.new.flat) }
        ensures err { OnErr result (self.new.flat ≡ self.old.flat) }
        ensures spare { OnErr result (self.old.spare ≤ self.new.spare) }
    {
        let from = bottom_of(&self.cells, self.registers);
        let to = self.cells.len();
        let older = older_scan(&self.cells, self.registers.scan);
        let height = hang_escan(&mut self.cells, self.registers, self.address, from, to)?;
        self.registers.newest = Some(height);
        self.registers.scan = older;
        self.cells.push_plain(slot);
        Ok(())
    }

    /// What the newest suspension of the innermost mark is, as far as its slot tells.
    #[inline(always)]
    pub fn newest_kind(&self) -> NewestKind
        ensures { IsNewest result self.now.flat }
    {
        match self.registers.newest {
            None => NewestKind::Nothing,
            Some(height) => self.cells.kind_at(height - 1),
        }
    }

    /// The newest suspension of the innermost mark, where it is that of a count and its slot tells so.
    pub fn newest_count(&self) -> Option<Count>
        ensures { IfSome result (λ count. IsCounting count self.now.flat) }
    {
        match self.registers.newest {
            None => None,
            Some(height) => self.cells.count_held_at(height - 1),
        }
    }

    /// The residual for which the newest suspension of the innermost mark comes back, where its slot tells that one is kept.
    pub fn newest_residual(&self) -> Option<Residual>
        ensures { IfSome result (λ rest. IsHeldBy (Whys.Op rest) self.now.flat) }
    {
        match self.registers.newest {
            None => None,
            Some(height) => self.cells.residual_held_at(height - 1),
        }
    }

    /// Resumes the newest suspension of the innermost mark, and does not say why it was suspended. Without one nothing changes.
    pub fn resume_newest(&mut self)
        ensures flat { (why : Why) (rest : FlatStack) → flat.resume self.old.flat ≡ Some (why, rest)
            → self.new.flat ≡ rest }
        ensures none { self.old.flat.registers.newest ≡ None → self.new.flat ≡ self.old.flat }
        ensures spare { self.old.spare ≤ self.new.spare }
    {
        match self.registers.newest {
            None => {}
            Some(height) => {
                let at = height - 1;
                let saved = self.cells.saved_at(at);
                let address = self.cells.address_at(at);
                self.cells.cut(at);
                self.registers = saved;
                self.address = address;
                self.proc = running_proc(&self.cells, self.registers);
            }
        }
    }

    /// Suspends a count in the place of the newest suspension of the innermost mark, which should be there, and pushes the
    /// integer that it gives: `resume_newest`, and then `suspend_count`. `AllocError` is want of memory; the stack is as it was
    /// then.
    pub fn count_anew(&mut self, count: Count) -> Result<(), AllocError>
        ensures ok { OnOk result ((why : Why) (rest : FlatStack)
            → flat.resume self.old.flat ≡ Some (why, rest)
            → flat.given_to (Some (Items.Val (Vals.Integer count.given)))
            (flat.suspend_by (why_counting count.given count.last count.step) rest)
            ≡ Some self.new.flat) }

        // What comes back has its locals, each in a cell of its own.
        ensures same { (why : Why) (rest : FlatStack) → flat.resume self.old.flat ≡ Some (why, rest)
            → flat.set_locals (flat.locals rest) rest ≡ rest }
        ensures err { OnErr result (self.new.flat ≡ self.old.flat) }
    {
        match self.registers.newest {
            None => Ok(()),
            Some(height) => {
                let at = height - 1;
                let saved = self.cells.saved_at(at);
                let from = bottom_of(&self.cells, saved);
                self.cells.reserve(at - from + 1)?;
                self.address = self.cells.address_at(at);
                self.cells.cut(height);
                self.cells.set_counting(at, count);
                self.cells.copy_few(from, at);
                self.registers = saved;
                self.registers.newest = Some(height);
                self.proc = running_proc(&self.cells, self.registers);
                self.cells.push_plain(StackSlot::ValInteger(count.given));
                Ok(())
            }
        }
    }

    /// Resumes the newest suspension of the innermost mark. Without one nothing changes.
    pub fn resume(&mut self) -> Option<Why>
        ensures flat { flat.Resumes self.old.flat result self.new.flat }
        ensures spare { self.old.spare ≤ self.new.spare }
    {
        match self.registers.newest {
            None => None,
            Some(height) => {
                let why = self.cells.why_at(height - 1);
                self.resume_newest();
                Some(why)
            }
        }
    }

    /// Whether a scan of the running procedure is open.
    pub fn is_scanning(&self) -> bool
        ensures { result ≡ is_some self.now.flat.registers.scan }
    {
        self.registers.scan.is_some()
    }

    /// Exchanges the pair with that of the newest open scan, or of the oldest one of the procedure. One must be open.
    pub fn swap_pair(&mut self, oldest: bool, pair: Pair) -> Pair
        requires { IsSome self.old.flat.registers.scan }
        ensures flat { flat.swap_by oldest pair self.old.flat ≡ Some (result, self.new.flat) }
        ensures spare { self.new.spare ≡ self.old.spare }
    {
        match self.scan_chosen(oldest) {
            Some(height) => swap_at(&mut self.cells, height, pair),
            None => unreachable!(),
        }
    }

    /// The pair that the oldest open scan of the procedure saved, if a scan is open.
    pub fn oldest_pair(&self) -> Option<Pair>
        ensures { result ≡ flat.pair_at self.now.flat.cells (flat.oldest None self.now.flat) }
    {
        self.pair_since(None)
    }

    /// Opens a procedure frame with these locals, and goes to an address. The level of the call must be a number of 64 bits.
    /// `AllocError` is want of memory; the stack is as it was then.
    pub fn enter(&mut self, proc: u32, locals: &[Val], address: u32) -> Result<(), AllocError>
        requires { flat.level self.old.flat + 1 < 2 ^ 64 }
        ensures ok { OnOk result (self.new.flat ≡ flat.enter proc locals.now address self.old.flat) }
        ensures err { OnErr result (self.new.flat ≡ self.old.flat) }
        ensures spare { OnErr result (self.old.spare ≤ self.new.spare) }
    {
        let level = self.level() + 1;
        self.cells.reserve(locals.len() as u64 + 1)?;
        self.cells.push_call(
            proc,
            locals.len() as u64,
            level,
            self.registers,
            self.address,
        );
        let height = self.cells.len();
        put_locals(&mut self.cells, locals);
        self.registers = at_frame(height);
        self.address = address;
        self.proc = running_proc(&self.cells, self.registers);
        Ok(())
    }

    /// The slot of the operand below `count` others, and there must be so many. Where nothing is kept beside it, it tells the
    /// operand.
    #[inline(always)]
    pub fn slot_below(&self, count: u32) -> StackSlot
        requires { HasOperands (count + 1) self.now.flat.cells }
        ensures { (x y : Item) (items : List Item) (rest : List Cell)
            → self.now.flat.cells ≡ operands_above items (CellVariants.Operand x ∷ rest)
            → length items ≡ count → plain_operand result ≡ Some y → x ≡ y }
    {
        self.cells.slot_at(self.cells.len() - 1 - count as u64)
    }

    /// The value of the operand below `count` others, if it is one, and there must be so many.
    #[inline(always)]
    pub fn value_below(&self, count: u32) -> Option<Val>
        requires { HasOperands (count + 1) self.now.flat.cells }
        ensures { (x : Item) (items : List Item) (rest : List Cell)
            → self.now.flat.cells ≡ operands_above items (CellVariants.Operand x ∷ rest)
            → length items ≡ count → result ≡ value_only x }
    {
        self.cells.value_above(self.cells.len() - 1 - count as u64)
    }

    /// Drops the operand below `count` others, and these; there must be so many.
    #[inline(always)]
    pub fn drop_with(&mut self, count: u32)
        requires { HasOperands (count + 1) self.old.flat.cells }
        ensures drops { DropsWith count self.old.flat self.new.flat }
        ensures spare { self.new.spare ≡ self.old.spare + count + 1 }
    {
        self.cells.cut(self.cells.len() - 1 - count as u64);
    }

    /// Puts an operand that is a value on top. `AllocError` is want of memory, which comes only where nothing is spare; the
    /// stack is as it was then.
    #[inline(always)]
    pub fn push_value(&mut self, v: Val) -> Result<(), AllocError>
        ensures ok { OnOk result (self.new.flat ≡ flat.push (Items.Val v) self.old.flat) }
        ensures err { OnErr result (self.new.flat ≡ self.old.flat) }
        ensures spare { self.old.spare ≤ self.new.spare + 1 }
        ensures succeeds { 0 < self.old.spare → IsOk result }
    {
        self.cells.reserve_one()?;
        self.cells.push_value(v);
        Ok(())
    }

    /// Opens the frame of a procedure in the place of the operand below `count` others, and goes to an address: the values of
    /// these are the first of its locals, and this many nulls come behind them. Whether it is so; it is not where the value of
    /// one of them is not told by slots alone, and nothing changes then. The level of the call must be a number of 64 bits.
    /// `AllocError` is want of memory; the stack is as it was then.
    pub fn enter_with(
        &mut self,
        proc: u32,
        count: u32,
        nulls: u32,
        address: u32,
    ) -> Result<bool, AllocError>
        requires level { flat.level self.old.flat + 1 < 2 ^ 64 }
        requires operands { HasOperands (count + 1) self.old.flat.cells }
        ensures enters { IfOk result (λ done. done ≡ true
            → EntersWith proc count nulls address self.old.flat self.new.flat) }
        ensures not { IfOk result (λ done. done ≡ false → self.new.flat ≡ self.old.flat) }
        ensures err { OnErr result (self.new.flat ≡ self.old.flat) }
        ensures spare { OnErr result (self.old.spare ≤ self.new.spare) }
    {
        let base = self.registers.base;
        let own = self.cells.locals_at(base - 1);
        let frame = NewFrame {
            proc,
            locals: count as u64 + nulls as u64,
            level: self.level() + 1,
            saved: self.registers,
            address: self.address,
        };
        self.cells.reserve(nulls as u64)?;
        let done = frame_arguments(&mut self.cells, &frame, base, own, count);
        if done {
            let height = self.cells.len() - count as u64;
            put_nulls(&mut self.cells, nulls);
            self.registers = at_frame(height);
            self.address = address;
            self.proc = running_proc(&self.cells, self.registers);
        }
        Ok(done)
    }

    /// Drops the running procedure's frame with all above it, and gives back what its caller had. There must be a caller.
    pub fn leave(&mut self)
        requires { flat.is_base self.old.flat ≡ false }
        ensures flat { flat.leave self.old.flat ≡ Some self.new.flat }
        ensures spare { self.old.spare ≤ self.new.spare }
    {
        let at = self.registers.base - 1;
        let saved = self.cells.saved_at(at);
        let address = self.cells.return_at(at);
        self.cells.cut(at);
        self.registers = saved;
        self.address = address;
        self.proc = running_proc(&self.cells, self.registers);
    }

    // Suspends, by the reason. There is room for a result then.
    fn suspend_bare(&mut self, why: &Why) -> Result<(), AllocError>
        requires { flat.GoesOn why.now self.old.flat }
        ensures ok { OnOk result (flat.suspend_by why.now self.old.flat ≡ Some self.new.flat) }
        ensures room { OnOk result (0 < self.new.spare) }
        ensures err { OnErr result (self.new.flat ≡ self.old.flat) }
        ensures spare { OnErr result (self.old.spare ≤ self.new.spare) }
    {
        match why {
            Why::Alt => self.suspend_mark(),
            Why::Proc => self.suspend_proc(),
            _ => self.suspend_here(why),
        }
    }

    // Pushes a result, if there is one. There must be room for it.
    fn give(&mut self, given: Option<Item>)
        requires { 0 < self.old.spare }
        ensures { flat.given_to given (Some self.old.flat) ≡ Some self.new.flat }
    {
        if let Some(x) = given {
            self.cells.push_operand(x);
        }
    }

    // Suspends in the innermost mark. There is room for a result then.
    fn suspend_here(&mut self, why: &Why) -> Result<(), AllocError>
        ensures ok { OnOk result (Some (flat.suspend why.now self.old.flat) ≡ Some self.new.flat) }
        ensures room { OnOk result (0 < self.new.spare) }
        ensures err { OnErr result (self.new.flat ≡ self.old.flat) }
        ensures spare { OnErr result (self.old.spare ≤ self.new.spare) }
    {
        let from = bottom_of(&self.cells, self.registers);
        let to = self.cells.len();
        let older = older_scan(&self.cells, self.registers.scan);
        let height = hang(&mut self.cells, why, self.registers, self.address, from, to)?;
        self.registers = Registers {
            base: self.registers.base,
            mark: self.registers.mark,
            newest: Some(height),
            scan: scan_after(why, height, older, self.registers.scan),
        };
        Ok(())
    }

    // Leaves the innermost mark suspended. There is room for a result then.
    fn suspend_mark(&mut self) -> Result<(), AllocError>
        requires { flat.at_base self.old.flat ≡ false }
        ensures ok { OnOk result (flat.suspend_mark self.old.flat ≡ Some self.new.flat) }
        ensures room { OnOk result (0 < self.new.spare) }
        ensures err { OnErr result (self.new.flat ≡ self.old.flat) }
        ensures spare { OnErr result (self.old.spare ≤ self.new.spare) }
    {
        let to = self.registers.mark - 1;
        let saved = self.cells.saved_at(to);
        let from = bottom_of(&self.cells, saved);
        let height = hang(
            &mut self.cells,
            &Why::Alt,
            self.registers,
            self.address,
            from,
            to,
        )?;
        self.registers = Registers {
            base: saved.base,
            mark: saved.mark,
            newest: Some(height),
            scan: saved.scan,
        };
        self.proc = running_proc(&self.cells, self.registers);
        Ok(())
    }

    // Suspends the procedure. There is room for a result then.
    fn suspend_proc(&mut self) -> Result<(), AllocError>
        requires { flat.is_base self.old.flat ≡ false }
        ensures ok { OnOk result (flat.suspend_proc self.old.flat ≡ Some self.new.flat) }
        ensures room { OnOk result (0 < self.new.spare) }
        ensures err { OnErr result (self.new.flat ≡ self.old.flat) }
        ensures spare { OnErr result (self.old.spare ≤ self.new.spare) }
    {
        let to = self.registers.base - 1;
        let saved = self.cells.saved_at(to);
        let address = self.cells.return_at(to);
        let from = bottom_of(&self.cells, saved);
        let height = hang(
            &mut self.cells,
            &Why::Proc,
            self.registers,
            self.address,
            from,
            to,
        )?;
        self.registers = Registers {
            base: saved.base,
            mark: saved.mark,
            newest: Some(height),
            scan: saved.scan,
        };
        self.proc = running_proc(&self.cells, self.registers);
        self.address = address;
        Ok(())
    }

    // The pair of the oldest open scan that is newer than a given one.
    fn pair_since(&self, until: Option<u64>) -> Option<Pair>
        ensures { result ≡ flat.pair_at self.now.flat.cells (flat.oldest until self.now.flat) }
    {
        match self.oldest(until) {
            None => None,
            Some(height) => Some(self.cells.pair_at(height - 1)),
        }
    }

    // The oldest open scan that is newer than a given one.
    fn oldest(&self, until: Option<u64>) -> Option<u64>
        ensures value { result ≡ flat.oldest until self.now.flat }
        ensures there { MayBeAt IsScan (map shape self.now.flat.cells) result }
    {
        if is_same(self.registers.scan, until) {
            None
        } else {
            oldest_from(&self.cells, until, self.registers.scan)
        }
    }

    // The newest open scan, or the oldest one.
    fn scan_chosen(&self, oldest: bool) -> Option<u64>
        ensures value { result ≡ flat.scan_chosen oldest self.now.flat }
        ensures there { MayBeAt IsScan (map shape self.now.flat.cells) result }
    {
        if oldest {
            self.oldest(None)
        } else {
            self.registers.scan
        }
    }
}
