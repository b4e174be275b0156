// What came to the addresses of a procedure.
ghost use Rattle.std.specs.Prelude.{◌≡◌, slice_index_or};
ghost use Rattle.std.specs.Option.{ForSome};
ghost use Rattle.icn_verify.specs.Passing.{with_shape, with_arrival, is_one};
ghost use Rattle.icn_verify.specs.Stacks.{shape_in, seen_in, table_in, sent_in, IsHeld, IsKept, AreKept};

use crate::arena::Arena;
use crate::flat::Flat;

/// What came to an address.
#[derive(Clone, Copy)]
pub enum Slot {
    Free,
    One(Flat),
    /// Shapes that differ; of their operands the fewest.
    Several(u32),
}

/// What came to an address. Nothing comes past the end.
pub fn slot_at(slots: &[Slot], address: usize) -> Slot
    ensures { result ≡ slice_index_or slots.now address Slot.Free }
{
    slots.get(address).copied().unwrap_or(Slot::Free)
}

fn join_slots(arena: &Arena, slot: Slot, flat: Flat) -> Slot
    requires kept { IsKept arena.now slot }
    requires held { IsHeld arena.now flat }
    ensures seen { seen_in arena.now result ≡ with_shape (seen_in arena.now slot) (shape_in arena.now flat) }
    ensures kept { IsKept arena.now result }
{
    match slot {
        Slot::Free => Slot::One(flat),
        Slot::One(before) => {
            if arena.are_same(before, flat) {
                Slot::One(before)
            } else {
                Slot::Several(before.inner.operands.min(flat.inner.operands))
            }
        }
        Slot::Several(fewest) => Slot::Several(fewest.min(flat.inner.operands)),
    }
}

/// A shape comes to an address.
pub fn arrive(arena: &Arena, slots: &mut [Slot], to: Option<(usize, Flat)>)
    requires kept { AreKept arena.now slots.old }
    requires held { ForSome to (λ p. IsHeld arena.now p.1) }
    ensures table { table_in arena.now slots.new
        ≡ with_arrival (table_in arena.now slots.old) (sent_in arena.now to) }
    ensures kept { AreKept arena.now slots.new }
{
    if let Some((address, flat)) = to {
        let slot = join_slots(arena, slot_at(slots, address), flat);
        if address < slots.len() {
            slots[address] = slot;
        }
    }
}

/// Whether this one shape came to an address.
pub fn holds(arena: &Arena, slot: Slot, flat: Flat) -> bool
    requires kept { IsKept arena.now slot }
    requires held { IsHeld arena.now flat }
    ensures { result ≡ is_one (seen_in arena.now slot) (shape_in arena.now flat) }
{
    match slot {
        Slot::One(before) => arena.are_same(before, flat),
        Slot::Free | Slot::Several(_) => false,
    }
}
