//! The functions over texts and positions: `any`, `bal`, `find`, `many`, `match`, `move`, `pos`, `tab` and `upto`.
#![tactic(auto)]

mod balancing;
mod defaults;
mod finding;
mod in_subject;
mod moving;
mod regions;
mod searches;
mod searching;
mod testing;

pub use balancing::{Sets, bal_row, balanced_again};
pub use finding::{among_again, find_row, found_again, upto_row};
pub use in_subject::{
    any_in_subject, find_in_subject, many_in_subject, match_in_subject, move_in_subject, move_to,
    pos_in_subject, tab_in_subject, upto_in_subject,
};
pub use moving::{move_row, pos_row, tab_row};
pub use testing::{any_row, many_row, match_row};
