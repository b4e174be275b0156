//! What the programs are handed from outside: a source of input, a sink for output and a store of files. Each stands
//! here three times: over the real things, over memory, and over memory with faults at the calls that a list names.
//! Lines are put on a sink as far as it takes them.
#![tactic(auto)]

mod bytes;
mod disk;
mod failing;
mod fault;
mod input;
mod kept;
mod memory;
mod output;
mod put;
mod retry;
mod runtime;
mod store;
mod sure;
mod system;
mod traits;
mod whole;

pub use disk::DiskFiles;
pub use fault::{Fault, LineEnd, ReadFailure};
pub use input::StdSource;
pub use memory::{MemFiles, MemSink, MemSource};
pub use output::{Settling, StdSink};
pub use put::{put_line, try_put};
pub use runtime::RuntimeFiles;
pub use store::StoredFiles;
pub use sure::{SureFiles, SureSink, SureSource};
pub use system::{FileSystem, Standing};
pub use traits::{Files, Sink, Source};
