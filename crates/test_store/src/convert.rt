// Images of values, and their order.
#![tactic(auto, using(icn_heap::proofs::GrowingHeaps::keeps_trans))]

mod calls;
mod names;
mod structures;
mod values;

pub use calls::outcome;
