// The cells of a stack over slots, with what is kept beside them.
ghost use Rattle.std.specs.Prelude.{◌≡◌, ◌+◌, ◌-◌, ◌<◌, ◌≤◌, ◌^◌, ℕ, List, [], ◌∷◌, length, Option, Some, is_some, IsSome, Bool, true, false, OnOk, IsOk, IfSome};
ghost use Rattle.icn_frames.specs.Heights.{cut, cell_at, set_cell, with_copy};
ghost use Rattle.icn_frames.specs.Slots.{operand_in, content_of, is_plain_cell, count_in, top_operand, plain_operand, plain_local, why_counting, why_moved, TellsWhy, value_only};
ghost use Rattle.icn_frames.specs.StackInvariant.{shape, outer_of};
ghost use Rattle.icn_frames.specs.Stacks as flat;
ghost use Rattle.icn_value.specs.declared.val.Val.{Val};
ghost use Rattle.icn_value.specs.declared.item.Item.{Item};
ghost use Rattle.icn_value.specs.declared.item.Item.TheVariants as Items;
ghost use Rattle.icn_value.specs.declared.item.Pair.{Pair};
ghost use Rattle.icn_frames.specs.declared.layout.Why.{Why};
ghost use Rattle.icn_frames.specs.declared.layout.Why.TheVariants as Whys;
ghost use Rattle.icn_frames.specs.declared.layout.Registers.{Registers};
ghost use Rattle.icn_frames.specs.declared.layout.Cell.{Cell};
ghost use Rattle.icn_frames.specs.declared.layout.Cell.TheVariants as CellVariants;

use crate::layout::{CellContent, Count, NewestKind, Registers, Why};
use crate::slots::{
    Control, CountRange, Extra, StackSlot, address_of, content_of, copy_beside, count_held,
    count_of, depth_of, is_base_cell, is_operand, is_plain, is_relabelled, is_sided, keep_local,
    keep_operand, keep_value, keep_why, kind_of, label_in, level_of, local_of, locals_of,
    make_beside, make_controls, mark_slot, operand_of, pair_at, proc_of, put_control, put_counted,
    put_pair, put_range, put_residual, put_saved, range_of, residual_held, return_of, saved_of,
    value_of, why_of,
};
use crate::stack::Stack;
use icn_value::{Item, Pair, Residual, Val};
use std::alloc::{AllocError, Global};
use std::marker::Model;

/// The cells. Only `reserve` takes memory.
///
/// A clause sees the cells, and for how many more there is room. A cell goes by how many stand below it.
#[derive(Drop)]
pub struct Cells<K: Stack<StackSlot> + Drop> {
    slots: K,
    controls: Vec<Control>,
    extras: Vec<Extra>,
}

impl<K: Stack<StackSlot> + Drop> Model for Cells<K> {
    ghost use Rattle.std.specs.Prelude.{◌-◌, length, vec_len, vec_capacity};
    ghost use Rattle.icn_frames.specs.Slots.{SeenCells, Roomy, cells_of};

    ghost Value = { SeenCells };

    ghost view = { λ m. record {
      cells = cells_of m.controls.items m.extras.items (K.cells m.slots);
      spare = vec_len m.controls - length (K.cells m.slots);
    } };

    ghost invariant = { λ m. Roomy (length (K.cells m.slots)) (K.spare m.slots) (vec_len m.controls)
        (vec_capacity m.extras) };
}

impl<K: Stack<StackSlot> + Drop> Cells<K> {
    /// No cells.
    pub fn new(alloc: Global) -> Self
        ensures { result.cells ≡ [] }
    {
        Cells {
            slots: K::empty(alloc),
            controls: Vec::new(alloc),
            extras: Vec::new(alloc),
        }
    }

    /// How many cells there are.
    #[inline(always)]
    pub fn len(&self) -> u64
        ensures is { result ≡ length self.now.cells }

        // No sum of heights is too large.
        ensures small { length self.now.cells < 2 ^ 63 }
    {
        self.slots.len()
    }

    /// Makes room for `n` more cells. Where there is so much room already it takes no memory.
    #[inline(always)]
    pub fn reserve(&mut self, n: u64) -> Result<(), AllocError>
        ensures cells { self.new.cells ≡ self.old.cells }
        ensures spare { self.old.spare ≤ self.new.spare }
        ensures ok { OnOk result (n ≤ self.new.spare) }
        ensures succeeds { n ≤ self.old.spare → IsOk result }
    {
        if n <= self.controls.len() as u64 - self.slots.len() {
            return Ok(());
        }
        self.grow(n)
    }

    /// Makes room for one more cell. Where there is room already it takes no memory.
    ///
    /// It stands beside `reserve` for speed: each push has its test in it, and `grow`, which is called at two places, stays a call.
    #[inline(always)]
    pub fn reserve_one(&mut self) -> Result<(), AllocError>
        ensures cells { self.new.cells ≡ self.old.cells }
        ensures spare { self.old.spare ≤ self.new.spare }
        ensures ok { OnOk result (1 ≤ self.new.spare) }
        ensures succeeds { 1 ≤ self.old.spare → IsOk result }
    {
        if 1 <= self.controls.len() as u64 - self.slots.len() {
            return Ok(());
        }
        self.grow(1)
    }

    // Makes room for `n` more cells, and for no fewer than there are.
    #[inline(never)]
    fn grow(&mut self, n: u64) -> Result<(), AllocError>
        ensures cells { self.new.cells ≡ self.old.cells }
        ensures spare { self.old.spare ≤ self.new.spare }
        ensures ok { OnOk result (n ≤ self.new.spare) }
    {
        let len = self.slots.len();
        let more = if n < len { len } else { n };
        self.slots.reserve(more)?;
        let want = len + more;
        if want <= self.controls.len() as u64 {
            return Ok(());
        }
        make_beside(&mut self.extras, want)?;
        make_controls(&mut self.controls, want)
    }

    /// Puts an operand on top. There must be room for it.
    pub fn push_operand(&mut self, x: Item)
        requires { 0 < self.old.spare }
        ensures cells { self.new.cells ≡ CellVariants.Operand x ∷ self.old.cells }
        ensures spare { self.new.spare + 1 ≡ self.old.spare }
    {
        let at = self.slots.len();
        let slot = keep_operand(&mut self.extras, at, x);
        self.slots.push(slot);
    }

    /// Puts an operand on top by its slot, beside which nothing may be kept. There must be room for it.
    #[inline(always)]
    pub fn push_plain(&mut self, slot: StackSlot)
        requires room { 0 < self.old.spare }
        requires plain { IsSome (plain_operand slot) }
        ensures cells { (x : Item) → plain_operand slot ≡ Some x
            → self.new.cells ≡ CellVariants.Operand x ∷ self.old.cells }
        ensures spare { self.new.spare + 1 ≡ self.old.spare }
    {
        self.slots.push(slot);
    }

    /// Drops the top cell, which must be there. Its room is free again.
    #[inline(always)]
    pub fn drop_top(&mut self)
        requires { 0 < length self.old.cells }
        ensures cells { (cell : Cell) (rest : List Cell) → self.old.cells ≡ cell ∷ rest
            → self.new.cells ≡ rest }
        ensures spare { self.new.spare ≡ self.old.spare + 1 }
    {
        let _ = self.slots.pop();
    }

    /// The slot of the cell above `i` others.
    #[inline(always)]
    pub fn slot_at(&self, i: u64) -> StackSlot
        requires { i < length self.now.cells }
        ensures { (x y : Item) → cell_at (i + 1) self.now.cells ≡ Some (CellVariants.Operand x)
            → plain_operand result ≡ Some y → x ≡ y }
    {
        self.slots.get(i)
    }

    /// The slot of the cell above `below + index` others.
    #[inline(always)]
    pub fn slot_above(&self, below: u64, index: u64) -> StackSlot
        requires { below + index < length self.now.cells }
        ensures { (v w : Val) → cell_at (below + index + 1) self.now.cells ≡ Some (CellVariants.Local v)
            → plain_local result ≡ Some w → v ≡ w }
    {
        let slots = &self.slots;
        slots.get(below + index)
    }

    /// Puts a local on top. There must be room for it.
    pub fn push_local(&mut self, v: Val)
        requires { 0 < self.old.spare }
        ensures cells { self.new.cells ≡ CellVariants.Local v ∷ self.old.cells }
        ensures spare { self.new.spare + 1 ≡ self.old.spare }
    {
        let at = self.slots.len();
        let slot = keep_local(&mut self.extras, at, v);
        self.slots.push(slot);
    }

    /// Puts a local on top by its slot, beside which nothing may be kept. There must be room for it.
    #[inline(always)]
    pub fn push_local_plain(&mut self, slot: StackSlot)
        requires room { 0 < self.old.spare }
        requires plain { IsSome (plain_local slot) }
        ensures cells { (v : Val) → plain_local slot ≡ Some v
            → self.new.cells ≡ CellVariants.Local v ∷ self.old.cells }
        ensures spare { self.new.spare + 1 ≡ self.old.spare }
    {
        self.slots.push(slot);
    }

    /// Puts the lowest frame on top. There must be room for it.
    pub fn push_base(&mut self, proc: u32, locals: u64)
        requires { 0 < self.old.spare }
        ensures cells { self.new.cells ≡ CellVariants.Base proc locals ∷ self.old.cells }
        ensures spare { self.new.spare + 1 ≡ self.old.spare }
    {
        self.slots.push(StackSlot::BaseFrame { proc, locals });
    }

    /// Puts the frame of a call on top. There must be room for it.
    pub fn push_call(&mut self, proc: u32, locals: u64, level: u64, saved: Registers, address: u32)
        requires { 0 < self.old.spare }
        ensures cells { self.new.cells ≡ CellVariants.Call proc locals level saved address ∷ self.old.cells }
        ensures spare { self.new.spare + 1 ≡ self.old.spare }
    {
        let at = self.slots.len();
        let control = Control {
            saved,
            level,
            address,
            range: CountRange { last: 0, step: 0 },
        };
        put_control(&mut self.controls, at, control);
        self.slots.push(StackSlot::CallFrame { proc, locals });
    }

    /// Puts a plain mark, or with a count a limit mark, on top. There must be room for it.
    pub fn push_mark(&mut self, label: Option<u32>, count: Option<u64>, saved: Registers)
        requires { 0 < self.old.spare }
        ensures cells { self.new.cells ≡ flat.mark_cell label count saved ∷ self.old.cells }
        ensures spare { self.new.spare + 1 ≡ self.old.spare }
    {
        let at = self.slots.len();
        put_saved(&mut self.controls, at, saved);
        self.slots.push(mark_slot(label, count));
    }

    /// Puts a suspension on top. There must be room for it.
    pub fn push_suspension(&mut self, why: &Why, saved: Registers, address: u32)
        requires { 0 < self.old.spare }
        ensures cells { self.new.cells ≡ CellVariants.Suspension why.now saved address ∷ self.old.cells }
        ensures spare { self.new.spare + 1 ≡ self.old.spare }
    {
        let at = self.slots.len();
        put_saved(&mut self.controls, at, saved);
        let slot = keep_why(&mut self.extras, at, why, address);
        self.slots.push(slot);
    }

    /// Puts the suspension of a count on top. There must be room for it.
    pub fn push_count(&mut self, count: Count, saved: Registers, address: u32)
        requires { 0 < self.old.spare }
        ensures cells { self.new.cells
            ≡ CellVariants.Suspension (why_counting count.given count.last count.step) saved address
            ∷ self.old.cells }
        ensures spare { self.new.spare + 1 ≡ self.old.spare }
    {
        let at = self.slots.len();
        let range = CountRange {
            last: count.last,
            step: count.step,
        };
        put_counted(&mut self.controls, at, saved, range);
        let given = count.given;
        self.slots.push(StackSlot::CountHeld { address, given });
    }

    /// Puts the suspension of a move in the subject on top. There must be room for it.
    pub fn push_move(&mut self, old: u64, saved: Registers, address: u32)
        requires { 0 < self.old.spare }
        ensures cells { self.new.cells ≡ CellVariants.Suspension (why_moved old) saved address ∷ self.old.cells }
        ensures spare { self.new.spare + 1 ≡ self.old.spare }
    {
        let at = self.slots.len();
        put_saved(&mut self.controls, at, saved);
        self.slots.push(StackSlot::MoveHeld { address, old });
    }

    /// Puts the suspension of what an operation or a function left on top. There must be room for it.
    pub fn push_row(&mut self, rest: &Residual, saved: Registers, address: u32)
        requires { 0 < self.old.spare }
        ensures cells { self.new.cells
            ≡ CellVariants.Suspension (Whys.Op rest.now) saved address ∷ self.old.cells }
        ensures spare { self.new.spare + 1 ≡ self.old.spare }
    {
        let at = self.slots.len();
        put_saved(&mut self.controls, at, saved);
        put_residual(&mut self.extras, at, rest);
        self.slots.push(StackSlot::OpHeld { address });
    }

    /// Puts the suspension of a scan on top. There must be room for it.
    pub fn push_scan(&mut self, pair: Pair, saved: Registers, address: u32)
        requires { 0 < self.old.spare }
        ensures cells { self.new.cells ≡ CellVariants.Suspension (Whys.Scan pair) saved address ∷ self.old.cells }
        ensures spare { self.new.spare + 1 ≡ self.old.spare }
    {
        let at = self.slots.len();
        put_saved(&mut self.controls, at, saved);
        put_pair(&mut self.extras, at, pair);
        self.slots.push(StackSlot::ScanHeld { address });
    }

    /// Puts the suspension of a scan that was left on top. There must be room for it.
    pub fn push_escan(&mut self, saved: Registers, address: u32)
        requires { 0 < self.old.spare }
        ensures cells { self.new.cells ≡ CellVariants.Suspension Whys.Escan saved address ∷ self.old.cells }
        ensures spare { self.new.spare + 1 ≡ self.old.spare }
    {
        let at = self.slots.len();
        put_saved(&mut self.controls, at, saved);
        self.slots.push(StackSlot::EscanHeld { address });
    }

    /// Takes the top operand, which must be there. Its room is free again.
    pub fn pop_operand(&mut self) -> Item
        requires { IsSome (top_operand self.old.cells) }
        ensures cells { self.old.cells ≡ CellVariants.Operand result ∷ self.new.cells }
        ensures spare { self.new.spare ≡ self.old.spare + 1 }
    {
        let slot = self.slots.pop();
        operand_of(&self.extras, self.slots.len(), slot)
    }

    /// Drops all cells but the lowest `len`, and there must be so many. The room of those that are dropped is free again.
    pub fn cut(&mut self, len: u64)
        requires { len ≤ length self.old.cells }
        ensures cells { self.new.cells ≡ cut len self.old.cells }
        ensures spare { self.new.spare + len ≡ self.old.spare + length self.old.cells }
    {
        self.slots.cut(len);
    }

    // Puts the cell above `i` others once more on top.
    fn copy_one(&mut self, i: u64)
        requires there { i < length self.old.cells }
        requires room { 0 < self.old.spare }
        ensures cells { (cell : Cell) → cell_at (i + 1) self.old.cells ≡ Some cell
            → self.new.cells ≡ cell ∷ self.old.cells }
        ensures spare { self.new.spare + 1 ≡ self.old.spare }
    {
        let at = self.slots.len();
        let slot = self.slots.get(i);
        copy_beside(&mut self.controls, &mut self.extras, slot, i, at);
        self.slots.push(slot);
    }

    /// Puts the cells `from` to `to - 1` once more on top, in their order. They must be there, and room for them.
    pub fn copy_up(&mut self, from: u64, to: u64)
        requires order { from ≤ to }
        requires within { to ≤ length self.old.cells }
        requires room { to - from ≤ self.old.spare }
        ensures cells { self.new.cells ≡ with_copy from to self.old.cells }
        ensures spare { self.new.spare + (to - from) ≡ self.old.spare }
    {
        for i in from..to {
            self.copy_one(i);
        }
    }

    // Puts the cell above `i` others once more on top, if nothing is kept beside its slot. Elsewhere nothing changes.
    #[inline(always)]
    fn copy_bare(&mut self, i: u64) -> bool
        requires there { i < length self.old.cells }
        requires room { 0 < self.old.spare }
        ensures cells { result ≡ true → (cell : Cell) → cell_at (i + 1) self.old.cells ≡ Some cell
            → self.new.cells ≡ cell ∷ self.old.cells }
        ensures spare { result ≡ true → self.new.spare + 1 ≡ self.old.spare }
        ensures not { result ≡ false → self.new ≡ self.old }
    {
        let slot = self.slots.get(i);
        if is_sided(slot) {
            return false;
        }
        self.slots.push(slot);
        true
    }

    /// The same as `copy_up`, and before it where there is one cell, beside whose slot nothing is kept.
    #[inline(always)]
    pub fn copy_few(&mut self, from: u64, to: u64)
        requires order { from ≤ to }
        requires within { to ≤ length self.old.cells }
        requires room { to - from ≤ self.old.spare }
        ensures cells { self.new.cells ≡ with_copy from to self.old.cells }
        ensures spare { self.new.spare + (to - from) ≡ self.old.spare }
    {
        if to - from == 1 {
            if self.copy_bare(from) {
                return;
            }
        }
        self.copy_up(from, to);
    }

    /// Whether an operand stands above `i` others.
    pub fn is_operand_at(&self, i: u64) -> bool
        requires { i < length self.now.cells }
        ensures { result ≡ is_some (operand_in (cell_at (i + 1) self.now.cells)) }
    {
        is_operand(self.slots.get(i))
    }

    /// The operand above `i` others.
    pub fn operand_at(&self, i: u64) -> Item
        requires { i < length self.now.cells }
        ensures { (x : Item) → cell_at (i + 1) self.now.cells ≡ Some (CellVariants.Operand x) → result ≡ x }
    {
        operand_of(&self.extras, i, self.slots.get(i))
    }

    /// The value of the operand above `i` others, if it is one.
    #[inline(always)]
    pub fn value_above(&self, i: u64) -> Option<Val>
        requires { i < length self.now.cells }
        ensures { (x : Item) → cell_at (i + 1) self.now.cells ≡ Some (CellVariants.Operand x)
            → result ≡ value_only x }
    {
        value_of(&self.extras, i, self.slots.get(i))
    }

    /// Puts an operand that is a value on top. There must be room for it.
    #[inline(always)]
    pub fn push_value(&mut self, v: Val)
        requires { 0 < self.old.spare }
        ensures cells { self.new.cells ≡ CellVariants.Operand (Items.Val v) ∷ self.old.cells }
        ensures spare { self.new.spare + 1 ≡ self.old.spare }
    {
        let at = self.slots.len();
        let slot = keep_value(&mut self.extras, at, v);
        self.slots.push(slot);
    }

    /// The local above `below + index` others.
    pub fn local_at(&self, below: u64, index: u64) -> Val
        requires { below + index < length self.now.cells }
        ensures { (v : Val) → cell_at (below + index + 1) self.now.cells ≡ Some (CellVariants.Local v)
            → result ≡ v }
    {
        let slots = &self.slots;
        let i = below + index;
        local_of(&self.extras, i, slots.get(i))
    }

    /// The procedure of the frame above `i` others.
    pub fn proc_at(&self, i: u64) -> u32
        requires { i < length self.now.cells }
        ensures { result ≡ flat.proc_of (cell_at (i + 1) self.now.cells) }
    {
        proc_of(self.slots.get(i))
    }

    /// How many locals the frame above `i` others has.
    pub fn locals_at(&self, i: u64) -> u64
        requires { i < length self.now.cells }
        ensures is { result ≡ flat.locals_of (cell_at (i + 1) self.now.cells) }

        // No sum of heights is too large.
        ensures small { length self.now.cells < 2 ^ 63 }
    {
        locals_of(self.slots.get(i))
    }

    /// The level of the frame above `i` others.
    pub fn level_at(&self, i: u64) -> u64
        requires { i < length self.now.cells }
        ensures { result ≡ flat.level_of (cell_at (i + 1) self.now.cells) }
    {
        level_of(self.slots.get(i), depth_of(&self.controls, i))
    }

    /// Whether the lowest frame stands above `i` others.
    pub fn is_base_at(&self, i: u64) -> bool
        requires { i < length self.now.cells }
        ensures { result ≡ flat.is_base_cell (cell_at (i + 1) self.now.cells) }
    {
        is_base_cell(self.slots.get(i))
    }

    /// The label of the mark above `i` others.
    pub fn label_at(&self, i: u64) -> Option<u32>
        requires { i < length self.now.cells }
        ensures { result ≡ flat.label_in (cell_at (i + 1) self.now.cells) }
    {
        label_in(self.slots.get(i))
    }

    /// Whether a plain mark stands above `i` others.
    pub fn is_plain_at(&self, i: u64) -> bool
        requires { i < length self.now.cells }
        ensures { result ≡ is_plain_cell (cell_at (i + 1) self.now.cells) }
    {
        is_plain(self.slots.get(i))
    }

    /// Whether the label of the mark above `i` others was set anew.
    pub fn is_relabelled_at(&self, i: u64) -> bool
        requires { i < length self.now.cells }
        ensures { result ≡ flat.is_relabelled_in (cell_at (i + 1) self.now.cells) }
    {
        is_relabelled(self.slots.get(i))
    }

    /// The count of the limit mark above `i` others.
    pub fn count_at(&self, i: u64) -> u64
        requires { i < length self.now.cells }
        ensures { result ≡ count_in (cell_at (i + 1) self.now.cells) }
    {
        count_of(self.slots.get(i))
    }

    /// The registers that the frame, the mark or the suspension above `i` others has saved.
    pub fn saved_at(&self, i: u64) -> Registers
        requires { i < length self.now.cells }
        ensures { (cell : Cell) (saved : Registers) → cell_at (i + 1) self.now.cells ≡ Some cell
            → outer_of (shape cell) ≡ Some saved → result ≡ saved }
    {
        saved_of(&self.controls, i)
    }

    /// Where the caller of the frame above `i` others goes on.
    pub fn return_at(&self, i: u64) -> u32
        requires { i < length self.now.cells }
        ensures { (proc locals level : ℕ) (saved : Registers) (address : ℕ)
            → cell_at (i + 1) self.now.cells ≡ Some (CellVariants.Call proc locals level saved address)
            → result ≡ address }
    {
        return_of(&self.controls, i)
    }

    /// Why what is above `i` others was suspended.
    pub fn why_at(&self, i: u64) -> Why
        requires { i < length self.now.cells }
        ensures { (why : Why) (saved : Registers) (address : ℕ)
            → cell_at (i + 1) self.now.cells ≡ Some (CellVariants.Suspension why saved address) → result ≡ why }
    {
        let range = range_of(&self.controls, i);
        why_of(&self.extras, i, self.slots.get(i), range)
    }

    /// What the cell above `i` others holds in which a value may stand.
    pub fn content_at(&self, i: u64) -> CellContent
        requires { i < length self.now.cells }
        ensures { (cell : Cell) → cell_at (i + 1) self.now.cells ≡ Some cell → result ≡ content_of cell }
    {
        let range = range_of(&self.controls, i);
        content_of(&self.extras, i, self.slots.get(i), range)
    }

    /// What the slot above `i` others tells of why something was suspended.
    pub fn kind_at(&self, i: u64) -> NewestKind
        requires { i < length self.now.cells }
        ensures { (why : Why) (saved : Registers) (address : ℕ)
            → cell_at (i + 1) self.now.cells ≡ Some (CellVariants.Suspension why saved address)
            → TellsWhy result why }
    {
        kind_of(self.slots.get(i))
    }

    /// The count that is suspended above `i` others, where its slot tells it.
    pub fn count_held_at(&self, i: u64) -> Option<Count>
        requires { i < length self.now.cells }
        ensures { (why : Why) (saved : Registers) (address : ℕ)
            → cell_at (i + 1) self.now.cells ≡ Some (CellVariants.Suspension why saved address)
            → IfSome result (λ count. why ≡ why_counting count.given count.last count.step) }
    {
        let range = range_of(&self.controls, i);
        count_held(self.slots.get(i), range)
    }

    /// The residual that the suspension above `i` others keeps, where its slot tells that one is kept beside it.
    pub fn residual_held_at(&self, i: u64) -> Option<Residual>
        requires { i < length self.now.cells }
        ensures { (why : Why) (saved : Registers) (address : ℕ)
            → cell_at (i + 1) self.now.cells ≡ Some (CellVariants.Suspension why saved address)
            → IfSome result (λ rest. why ≡ Whys.Op rest) }
    {
        residual_held(&self.extras, i, self.slots.get(i))
    }

    /// Where the suspension above `i` others goes on.
    pub fn address_at(&self, i: u64) -> u32
        requires { i < length self.now.cells }
        ensures { (why : Why) (saved : Registers) (address : ℕ)
            → cell_at (i + 1) self.now.cells ≡ Some (CellVariants.Suspension why saved address)
            → result ≡ address }
    {
        address_of(self.slots.get(i))
    }

    /// The pair of the scan above `i` others.
    pub fn pair_at(&self, i: u64) -> Pair
        requires { i < length self.now.cells }
        ensures { (pair : Pair) (saved : Registers) (address : ℕ)
            → cell_at (i + 1) self.now.cells ≡ Some (CellVariants.Suspension (Whys.Scan pair) saved address)
            → result ≡ pair }
    {
        pair_at(&self.extras, i)
    }

    /// Puts another local above `below + index` others.
    pub fn set_local(&mut self, below: u64, index: u64, v: Val)
        requires { below + index < length self.old.cells }
        ensures cells { self.new.cells ≡ set_cell (below + index + 1) (CellVariants.Local v) self.old.cells }
        ensures spare { self.new.spare ≡ self.old.spare }
    {
        let slots = &mut self.slots;
        let i = below + index;
        let slot = keep_local(&mut self.extras, i, v);
        slots.set(i, slot);
    }

    /// Puts another local above `below + index` others by its slot, beside which nothing may be kept.
    #[inline(always)]
    pub fn set_local_plain(&mut self, below: u64, index: u64, slot: StackSlot)
        requires within { below + index < length self.old.cells }
        requires plain { IsSome (plain_local slot) }
        ensures cells { (v : Val) → plain_local slot ≡ Some v
            → self.new.cells
            ≡ set_cell (below + index + 1) (CellVariants.Local v) self.old.cells }
        ensures spare { self.new.spare ≡ self.old.spare }
    {
        let slots = &mut self.slots;
        slots.set(below + index, slot);
    }

    /// Sets the label of the plain mark above `i` others anew.
    pub fn set_label(&mut self, i: u64, label: u32)
        requires { i < length self.old.cells }
        ensures cells { (cell : Cell) (saved : Registers) → cell_at (i + 1) self.old.cells ≡ Some cell
            → outer_of (shape cell) ≡ Some saved
            → self.new.cells ≡ set_cell (i + 1) (CellVariants.Mark (Some label) true saved) self.old.cells }
        ensures spare { self.new.spare ≡ self.old.spare }
    {
        self.slots.set(i, StackSlot::SetMark { label });
    }

    /// Sets the count of the limit mark above `i` others.
    pub fn set_count(&mut self, i: u64, count: u64)
        requires { i < length self.old.cells }
        ensures cells { (cell : Cell) (saved : Registers) → cell_at (i + 1) self.old.cells ≡ Some cell
            → outer_of (shape cell) ≡ Some saved
            → self.new.cells ≡ set_cell (i + 1) (CellVariants.Limit count saved) self.old.cells }
        ensures spare { self.new.spare ≡ self.old.spare }
    {
        self.slots.set(i, StackSlot::LimitMark { count });
    }

    /// Puts the suspension of a count in the place of the one above `i` others.
    pub fn set_counting(&mut self, i: u64, count: Count)
        requires { i < length self.old.cells }
        ensures cells { (why : Why) (saved : Registers) (address : ℕ)
            → cell_at (i + 1) self.old.cells ≡ Some (CellVariants.Suspension why saved address)
            → self.new.cells ≡ set_cell (i + 1)
            (CellVariants.Suspension (why_counting count.given count.last count.step) saved address)
            self.old.cells }
        ensures spare { self.new.spare ≡ self.old.spare }
    {
        let address = address_of(self.slots.get(i));
        let range = CountRange {
            last: count.last,
            step: count.step,
        };
        put_range(&mut self.controls, i, range);
        let given = count.given;
        self.slots.set(i, StackSlot::CountHeld { address, given });
    }

    /// Exchanges the pair of the scan above `i` others.
    pub fn set_pair(&mut self, i: u64, pair: Pair)
        requires { i < length self.old.cells }
        ensures cells { (old : Pair) (saved : Registers) (address : ℕ)
            → cell_at (i + 1) self.old.cells ≡ Some (CellVariants.Suspension (Whys.Scan old) saved address)
            → self.new.cells
            ≡ set_cell (i + 1) (CellVariants.Suspension (Whys.Scan pair) saved address) self.old.cells }
        ensures spare { self.new.spare ≡ self.old.spare }
    {
        put_pair(&mut self.extras, i, pair);
    }
}
