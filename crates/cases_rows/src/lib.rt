//! Cases of the rows of operations and functions, each of them proved by the definitions.
#![tactic(auto)]

mod table;

pub use table::{
    arithmetic, comparisons, input_and_output, limits, opened_files, reports, scans, structures,
    texts, variables, words,
};
