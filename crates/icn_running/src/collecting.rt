// When memory is given back.
ghost use Rattle.icn_code.specs.Codes.{Tables};
ghost use Rattle.icn_control.specs.Machines.{IsSoundMachine};
ghost use Rattle.icn_running.specs.SameMachines.{StandsForSame};

use icn_control::Machine;
use icn_frames::{Cell, Stack};

// How many bytes of texts may be held before memory is given back, at least and as a run begins.
const FIRST_BYTES: u64 = 262144;

// How many cells may be charged before memory is given back, at least and as a run begins.
const FIRST_CELLS: u64 = 16384;

// How many bytes may be built for each text that stayed, and for each value that was looked at: so finding them takes no more than a part of the time in
// which the bytes are built.
const BYTES_FOR_TEXT: u64 = 16;

const BYTES_FOR_VALUE: u64 = 4;

/// When memory is to be given back again.
#[derive(Clone, Copy, Debug)]
pub struct CollectionBounds {
    /// Once so many bytes of texts are held.
    bytes: u64,
    /// Once so many cells are charged.
    cells: u64,
}

impl CollectionBounds {
    /// As a run begins.
    pub fn first() -> CollectionBounds {
        CollectionBounds {
            bytes: FIRST_BYTES,
            cells: FIRST_CELLS,
        }
    }
}

// How many bytes of texts may be held, where so many were, so many texts stayed and so many values were looked at.
fn next_bytes(held: u64, texts: u64, values: u64) -> u64 {
    let looked = texts
        .saturating_mul(BYTES_FOR_TEXT)
        .saturating_add(values.saturating_mul(BYTES_FOR_VALUE));
    let bound = held.saturating_mul(2).saturating_add(looked);
    if bound < FIRST_BYTES {
        return FIRST_BYTES;
    }
    bound
}

// How many cells may be charged, where so many were, and so many values were looked at.
fn next_cells(charged: u64, values: u64) -> u64 {
    if values < FIRST_CELLS {
        return charged.saturating_add(FIRST_CELLS);
    }
    charged.saturating_add(values)
}

// Gives back the memory of what nothing reaches, and gives how many texts stay. Where memory is wanting for it, texts stay.
fn give_back<K: Stack<Cell> + Drop>(m: &mut Machine<K>) -> u64
    requires { (tables : Tables) × IsSoundMachine tables m.old }
    ensures { StandsForSame m.old m.new }
{
    match m.collect() {
        Ok(count) => count,
        Err(_) => 0,
    }
}

// Gives it back, and sets the next bound.
#[inline(never)]
fn collect<K: Stack<Cell> + Drop>(m: &mut Machine<K>, due: &mut CollectionBounds)
    requires { (tables : Tables) × IsSoundMachine tables m.old }
    ensures { StandsForSame m.old m.new }
{
    let texts = give_back(m);
    let values = m.held_values();
    *due = CollectionBounds {
        bytes: next_bytes(m.world.heap.held_bytes(), texts, values),
        cells: next_cells(m.world.heap.charged_cells(), values),
    };
}

/// Gives back the memory of what nothing reaches, where as many bytes are held or cells charged as `due` says, and sets when it
/// is due again. Where memory is wanting for it, texts stay.
#[inline(always)]
pub fn collect_if_due<K: Stack<Cell> + Drop>(m: &mut Machine<K>, due: &mut CollectionBounds)
    requires { (tables : Tables) × IsSoundMachine tables m.old }
    ensures { StandsForSame m.old m.new }
{
    if m.world.heap.held_bytes() >= due.bytes || m.world.heap.charged_cells() >= due.cells {
        collect(m, due);
    }
}
