//! The top call of the program `icont`.
#![tactic(auto)]

mod job_laws;
mod loading;
mod program;
mod programs;
mod top;
mod writing;

pub use icn_answer::Answer;
pub use icn_defs::Ending;
pub use job_laws::{one_job, one_program, units_link_alike};
pub use program::program_status;
pub use top::icont_main;
