// Commands of `icont`, and of both programs on one store of files, over objects in memory of which calls can be made to fail.
mod case;
mod command;
mod failing;
mod notation;
mod outcome;
mod turns;
mod wanting;

pub use case::Case;
