//! The functions over integers, texts and csets.
#![tactic(auto)]

mod defaults;
mod endings;
mod integer_rows;
mod integers;
mod laid_rows;
mod layouts;
mod mapping;
mod new_texts;
mod origins;
mod text_arguments;
mod text_rows;
mod trimming;
mod value_rows;

pub use integer_rows::{
    abs_row, iand_row, icom_row, integer_row, ior_row, ishift_row, ixor_row, seq_row,
    sequence_again,
};
pub use integers::natural_number;
pub use laid_rows::{field_row, map_row};
pub use layouts::Layout;
pub use new_texts::text_in_field;
pub use text_rows::{ord_row, repl_row, reverse_row, string_row, trim_row};
pub use value_rows::{char_row, cset_row, image_row, type_row};
