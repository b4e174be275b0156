// The machine.
use icn_coexp::Stacks;
use icn_frames::{Cell, Stack};
use icn_value::Limits;
use icn_vars::World;

/// The state of a run: its world, its co-expressions with their stacks, how many turns were made, which procedures did
/// `initial`, and the limits.
#[derive(Drop)]
pub struct Machine<K: Stack<Cell> + Drop> {
    pub world: World,
    pub stacks: Stacks<K>,
    pub turns: u64,
    pub begun: Vec<bool>,
    pub limits: Limits,
}

/// Where a machine stands after an instruction.
#[derive(Clone, Copy, Debug, PartialEq, Eq)]
pub enum RunState {
    /// The next instruction is due.
    Running,
    /// The code fails.
    Failing,
    /// An exhausted co-expression was reached, whose hop is due.
    Hopping,
    /// The starting call is over.
    Over,
    /// One turn more would be past the bound.
    AtBound,
}
