//! What the linker makes of the translations of files, and the code that the first law speaks of.
#![tactic(auto)]

mod laws;

pub use laws::{
    same_kept, translated_units_join, translations_are_joinable, translations_join,
    translations_run,
};
