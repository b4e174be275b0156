// Programs: commands of both programs over files in memory.
mod command;
mod row;

pub use row::CaseFiles;
