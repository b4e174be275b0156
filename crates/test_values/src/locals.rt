// The locals that cases have.
ghost use Rattle.std.specs.Prelude.{◌≡◌, []};
ghost use Rattle.std.specs.List.{All};
ghost use Rattle.icn_heap.specs.Extents.{Extent, IsLive};

use icn_value::Val;
use icn_vars::Locals;
use std::alloc::Global;

/// Locals that are a vector.
#[derive(Drop)]
pub struct Slots {
    /// Their values.
    pub vals: Vec<Val>,
}

impl Locals for Slots {
    ghost items = { λ slots. slots.vals.items };

    fn get(&self, place: u64) -> Val {
        self.vals[place as usize]
    }

    fn set(&mut self, place: u64, val: Val) {
        self.vals[place as usize] = val;
    }
}

/// The locals of a procedure that has none.
pub fn no_locals(alloc: Global) -> Slots
    ensures none { result.vals.items ≡ [] }
    ensures live { (all : Extent) → All (IsLive all) result.vals.items }
{
    Slots {
        vals: Vec::new(alloc),
    }
}
