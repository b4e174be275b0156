// One forward pass over a procedure.
ghost use Rattle.std.specs.Prelude.{◌≡◌, ◌+◌, ◌<◌, ◌≤◌, ◌^◌, List, length, IfOk, OnOk};
ghost use Rattle.std.specs.Option.{ForSome};
ghost use Rattle.icn_verify.specs.declared.shape.Level.{Level as OneLevel};
ghost use Rattle.icn_verify.specs.Shapes.{with_mark};
ghost use Rattle.icn_verify.specs.Rows.{change_levels, after, next_by, forward_by, back_by, row_of, strays_by};
ghost use Rattle.icn_verify.specs.ShapeCounts.{FindsRoom, HasRoom, IsLowTable};
ghost use Rattle.icn_verify.specs.Passing.{misses, rule_of_one, rule_at, pass_on, seen_at, rule_at_end, first_table, first_fault, fault_of, one};
ghost use Rattle.icn_verify.specs.Stacks.{shape_in, table_in, sent_in, seen_in, IsHeld, AreKept, StacksGrow};

use crate::arena::Arena;
use crate::flat::Flat;
use crate::rows::{LevelChange, StackEffect, Way, meets, row_of};
use crate::shape::{Level, LevelKind};
use crate::table::{Slot, arrive, holds, slot_at};
use icn_code::Instr;
use icn_tree::Rule;
use std::alloc::{AllocError, Global};

// The shape with an empty mark inside its innermost level.
fn with_mark(arena: &mut Arena, kind: LevelKind, flat: Flat) -> Result<Flat, AllocError>
    requires held { IsHeld arena.old flat }
    requires room { length arena.old < 2 ^ 32 }
    ensures grows { OnOk result (StacksGrow arena.old arena.new) }
    ensures more { OnOk result (length arena.new ≤ length arena.old + 1) }
    ensures held { IfOk result (λ marked. IsHeld arena.new marked) }
    ensures shape { IfOk result
        (λ marked. shape_in arena.new marked ≡ with_mark kind (shape_in arena.old flat)) }
{
    let outer = arena.nest(flat.inner, flat.outer)?;
    Ok(Flat {
        in_create: flat.in_create,
        inner: Level::empty(kind),
        outer,
    })
}

fn with_scans(flat: Flat, scans: u32) -> Flat
    ensures { result ≡ record flat { inner = record flat.inner { scans = scans } } }
{
    Flat {
        inner: Level {
            scans,
            ..flat.inner
        },
        ..flat
    }
}

fn with_operands(flat: Flat, operands: u32) -> Flat
    ensures { result ≡ record flat { inner = record flat.inner { operands = operands } } }
{
    Flat {
        inner: Level {
            operands,
            ..flat.inner
        },
        ..flat
    }
}

// What a change leaves of the levels.
fn apply_change(arena: &mut Arena, change: LevelChange, flat: Flat) -> Result<Flat, AllocError>
    requires held { IsHeld arena.old flat }
    requires room { length arena.old < 2 ^ 32 }
    requires scans { flat.inner.scans + 1 < 2 ^ 32 }
    ensures grows { OnOk result (StacksGrow arena.old arena.new) }
    ensures more { OnOk result (length arena.new ≤ length arena.old + 1) }
    ensures held { IfOk result (λ left. IsHeld arena.new left) }
    ensures shape { IfOk result
        (λ left. shape_in arena.new left ≡ change_levels change (shape_in arena.old flat)) }
{
    match change {
        LevelChange::Keeps => Ok(flat),
        LevelChange::OpensPlain => with_mark(arena, LevelKind::Plain, flat),
        LevelChange::OpensLimit => with_mark(arena, LevelKind::Limit, flat),
        LevelChange::Drops => match arena.before_mark(flat) {
            Some(before) => Ok(before),
            None => Ok(flat),
        },
        LevelChange::OpensScan => Ok(with_scans(flat, flat.inner.scans + 1)),
        LevelChange::ClosesScan => Ok(with_scans(flat, flat.inner.scans.saturating_sub(1))),
    }
}

// The shape that an instruction leaves.
fn shape_after(arena: &mut Arena, row: StackEffect, flat: Flat) -> Result<Flat, AllocError>
    requires held { IsHeld arena.old flat }
    requires room { length arena.old < 2 ^ 32 }
    requires counts { HasRoom row (shape_in arena.old flat) }
    ensures grows { OnOk result (StacksGrow arena.old arena.new) }
    ensures more { OnOk result (length arena.new ≤ length arena.old + 1) }
    ensures held { IfOk result (λ left. IsHeld arena.new left) }
    ensures shape { IfOk result (λ left. shape_in arena.new left ≡ after row (shape_in arena.old flat)) }
{
    let kept = u64::from(flat.inner.operands).saturating_sub(row.takes);
    let flat = apply_change(arena, row.change, with_operands(flat, kept as u32))?;
    Ok(with_operands(flat, flat.inner.operands + row.leaves))
}

// The next instruction, if the code goes on there, and the shape there.
fn next_by(arena: &Arena, way: Way, address: usize, left: Flat) -> Option<(usize, Flat)>
    requires held { IsHeld arena.now left }
    requires room { address < 2 ^ 32 }
    ensures to { sent_in arena.now result ≡ next_by way address (shape_in arena.now left) }
    ensures held { ForSome result (λ p. IsHeld arena.now p.1) }
{
    match way {
        Way::On | Way::Fails(_) | Way::Retries(_) | Way::Skips(_) => Some((address + 1, left)),
        Way::Forks(_) => Some((address + 1, arena.start(true))),
        Way::Ends | Way::Jumps(_) | Way::Returns(_) => None,
    }
}

// The label to which the code goes forward, if there is one, and the shape there.
fn forward_by(way: Way, flat: Flat, left: Flat) -> Option<(usize, Flat)>
    ensures to { (stacks : List (List OneLevel))
        → sent_in stacks result ≡ forward_by way (shape_in stacks flat) (shape_in stacks left) }
    ensures held { (stacks : List (List OneLevel)) → IsHeld stacks flat → IsHeld stacks left
        → ForSome result (λ p. IsHeld stacks p.1) }
{
    match way {
        Way::Fails(label) => Some((label as usize, flat)),
        Way::Jumps(label) | Way::Skips(label) | Way::Forks(label) => Some((label as usize, left)),
        Way::On | Way::Ends | Way::Returns(_) | Way::Retries(_) => None,
    }
}

// The label to which the code goes back, if there is one, and the shape that is wanted there.
fn back_by(arena: &Arena, way: Way, flat: Flat) -> Option<(usize, Flat)>
    requires { IsHeld arena.now flat }
    ensures to { sent_in arena.now result ≡ back_by way (shape_in arena.now flat) }
    ensures held { ForSome result (λ p. IsHeld arena.now p.1) }
{
    match way {
        Way::Returns(label) => Some((label as usize, flat)),
        Way::Retries(label) => match arena.before_mark(flat) {
            Some(wanted) => Some((label as usize, wanted)),
            None => None,
        },
        _ => None,
    }
}

// Whether a label lies in the wrong direction.
fn strays_by(way: Way, address: usize) -> bool
    ensures { result ≡ strays_by way address }
{
    match way {
        Way::Fails(label) | Way::Jumps(label) | Way::Skips(label) | Way::Forks(label) => {
            label as usize <= address
        }
        Way::Returns(label) | Way::Retries(label) => address < label as usize,
        Way::On | Way::Ends => false,
    }
}

// Whether a label leads back to an address to which the wanted shape didn't come.
fn misses(arena: &Arena, slots: &[Slot], address: usize, back: Option<(usize, Flat)>) -> bool
    requires kept { AreKept arena.now slots.now }
    requires held { ForSome back (λ p. IsHeld arena.now p.1) }
    ensures { result ≡ misses (table_in arena.now slots.now) address (sent_in arena.now back) }
{
    match back {
        Some((label, wanted)) => label <= address && !holds(arena, slot_at(slots, label), wanted),
        None => false,
    }
}

// The least rule that is broken where one shape came.
fn rule_of_one(
    arena: &Arena,
    slots: &[Slot],
    address: usize,
    instr: Instr,
    flat: Flat,
) -> Option<Rule>
    requires kept { AreKept arena.now slots.now }
    requires held { IsHeld arena.now flat }
    ensures { result ≡ rule_of_one (table_in arena.now slots.now) address instr (shape_in arena.now flat) }
{
    let row = row_of(instr);
    let back = back_by(arena, row.way, flat);
    if u64::from(flat.inner.operands) < row.takes {
        Some(Rule::V1)
    } else if misses(arena, slots, address, back) {
        Some(Rule::V2)
    } else if strays_by(row.way, address) {
        Some(Rule::V3)
    } else if meets(row.asks, arena.look(flat)) {
        None
    } else {
        Some(Rule::V4)
    }
}

// The least rule that is broken at an address, where what came before is known.
fn rule_at(arena: &Arena, slots: &[Slot], address: usize, instr: Instr) -> Option<Rule>
    requires { AreKept arena.now slots.now }
    ensures { result
        ≡ rule_at (table_in arena.now slots.now) address instr
        (seen_at (table_in arena.now slots.now) address) }
{
    match slot_at(slots, address) {
        Slot::Free => None,
        Slot::One(flat) => rule_of_one(arena, slots, address, instr, flat),
        Slot::Several(fewest) => {
            if u64::from(fewest) < row_of(instr).takes {
                Some(Rule::V1)
            } else {
                Some(Rule::V2)
            }
        }
    }
}

// Sends out the one shape that came to an instruction.
fn send_one(
    arena: &mut Arena,
    slots: &mut [Slot],
    address: usize,
    instr: Instr,
    flat: Flat,
) -> Result<(), AllocError>
    requires kept { AreKept arena.old slots.old }
    requires held { IsHeld arena.old flat }
    requires room { address < 2 ^ 32 }
    requires few { length arena.old < 2 ^ 32 }
    requires counts { HasRoom (row_of instr) (shape_in arena.old flat) }
    ensures more { OnOk result (length arena.new ≤ length arena.old + 1) }
    ensures table { OnOk result (table_in arena.new slots.new
        ≡ pass_on (table_in arena.old slots.old) address instr (one (shape_in arena.old flat))) }
    ensures kept { OnOk result (AreKept arena.new slots.new) }
{
    let row = row_of(instr);
    let left = shape_after(arena, row, flat)?;
    arrive(arena, slots, next_by(arena, row.way, address, left));
    arrive(arena, slots, forward_by(row.way, flat, left));
    Ok(())
}

// Sends out what came to an instruction.
fn send(
    arena: &mut Arena,
    slots: &mut [Slot],
    address: usize,
    instr: Instr,
) -> Result<(), AllocError>
    requires kept { AreKept arena.old slots.old }
    requires room { address < 2 ^ 32 }
    requires few { length arena.old < 2 ^ 32 }
    requires counts { FindsRoom instr (seen_at (table_in arena.old slots.old) address) }
    ensures more { OnOk result (length arena.new ≤ length arena.old + 1) }
    ensures table { OnOk result (table_in arena.new slots.new
        ≡ pass_on (table_in arena.old slots.old) address instr
        (seen_at (table_in arena.old slots.old) address)) }
    ensures kept { OnOk result (AreKept arena.new slots.new) }
{
    match slot_at(slots, address) {
        Slot::One(flat) => send_one(arena, slots, address, instr, flat),
        Slot::Free | Slot::Several(_) => Ok(()),
    }
}

fn rule_at_end(slot: Slot) -> Option<Rule>
    ensures { (stacks : List (List OneLevel)) → result ≡ rule_at_end (seen_in stacks slot) }
{
    match slot {
        Slot::Free => None,
        Slot::One(_) => Some(Rule::V5),
        Slot::Several(_) => Some(Rule::V2),
    }
}

// The table of a procedure with so many instructions: the base alone comes to its start.
fn first_slots(alloc: Global, arena: &Arena, count: usize) -> Result<Vec<Slot>, AllocError>
    requires { count < 2 ^ 32 }
    ensures table { IfOk result (λ slots. table_in arena.now slots.items ≡ first_table count) }
    ensures kept { IfOk result (λ slots. AreKept arena.now slots.items) }
{
    let mut slots = vec![in alloc; Slot::Free; count + 1]?;
    slots[0] = Slot::One(arena.start(false));
    Ok(slots)
}

// The first rule that is broken from the table on, and its address.
fn judge(
    arena: &mut Arena,
    slots: &mut [Slot],
    instrs: &[Instr],
) -> Result<Option<(Rule, usize)>, AllocError>
    requires kept { AreKept arena.old slots.old }
    requires few { length arena.old ≤ 1 }
    requires room { length instrs.now < 2 ^ 32 }
    requires low { IsLowTable 0 (table_in arena.old slots.old) }
    ensures { IfOk result (λ found. found ≡ first_fault (table_in arena.old slots.old) 0 instrs.now) }
{
    for (address, instr) in instrs.iter().enumerate() {
        match rule_at(arena, slots, address, *instr) {
            Some(rule) => return Ok(Some((rule, address))),
            None => send(arena, slots, address, *instr)?,
        }
    }
    match rule_at_end(slot_at(slots, instrs.len())) {
        Some(rule) => Ok(Some((rule, instrs.len()))),
        None => Ok(None),
    }
}

/// The first rule that a procedure's instructions break, and its address. `None` comes exactly where they break none.
/// `AllocError` is want of memory.
pub fn fault_of(alloc: Global, instrs: &[Instr]) -> Result<Option<(Rule, usize)>, AllocError>
    requires { length instrs.now < 2 ^ 32 }
    ensures { IfOk result (λ found. found ≡ fault_of instrs.now) }
{
    let mut arena = Arena::new(alloc);
    let mut slots = first_slots(alloc, &arena, instrs.len())?;
    judge(&mut arena, &mut slots, instrs)
}
