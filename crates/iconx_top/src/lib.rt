//! The top call of the program `iconx`.
#![tactic(auto)]

mod job_laws;
mod load;
mod program;
mod top;
mod words;

pub use icn_answer::Answer;
pub use icn_defs::Ending;
pub use job_laws::{migration_keeps_runs, one_job};
pub use program::program_status;
pub use top::iconx_main;
