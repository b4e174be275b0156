//! The unit of a checked file, and what the code of each procedure keeps, where it breaks no rule.
#![tactic(auto)]

mod bounds;
mod code_laws;
mod making;

pub use code_laws::{
    code_texts_fit, codes_have_room, file_names_differ, labels_have_one_place,
    names_and_literals_fit, names_stand_once, units_keep_rules,
};
pub use making::unit;
