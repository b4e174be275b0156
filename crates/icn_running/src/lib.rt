//! The run of verified code, with its reports.
#![tactic(auto)]

mod collecting;
mod endings;
mod fault;
mod launching;
mod lending;
mod names;
mod report;
mod running;
mod settling;
mod shown;
mod verified_run_laws;

pub use fault::RunFault;
pub use launching::run;
pub use report::error_report;
pub use running::run_on;
