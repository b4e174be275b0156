//! Programs that are run by computing: what each means, and what its code does on flat stacks and on linked marks.
#![tactic(auto)]

mod table;

pub use table::{
    bounded_programs, coexpressions, errors, failures, generators, joinings, library, loops, plain,
    readings, scans,
};
