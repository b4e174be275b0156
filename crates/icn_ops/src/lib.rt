//! What each operation does: a function for each row of the definitions, and all in one call.
#![tactic(auto)]

mod applying;
mod arithmetic;
mod comparisons;
mod counting;
mod elements;
mod lists;
mod null;
mod operands;
mod parts;
mod positions;
mod random;
mod scanning;
mod sections;
mod sets;
mod subscripts;
mod texts;
mod variables;
mod walks;

pub use applying::apply_operation;
pub use arithmetic::{
    add_row, divide_row, multiply_row, negate_row, number_row, power_row, remainder_row,
    subtract_row,
};
pub use comparisons::{
    equal_row, equivalent_row, greater_or_equal_row, greater_row, less_or_equal_row, less_row,
    lexically_equal_row, lexically_greater_or_equal_row, lexically_greater_row,
    lexically_less_or_equal_row, lexically_less_row, lexically_not_equal_row, not_equal_row,
    not_equivalent_row,
};
pub use counting::{counting_again, to_by_row};
pub use elements::{
    list_items_from, record_fields_from, set_members_from, table_values_from, text_bytes_from,
    variable_bytes_from,
};
pub use lists::concatenate_lists_row;
pub use null::{dereference_row, is_not_null_row, is_null_row, size_row};
pub use random::random_row;
pub use scanning::tab_match_row;
pub use sections::{section_minus_row, section_plus_row, section_row};
pub use sets::{difference_row, intersection_row, union_row};
pub use subscripts::subscript_row;
pub use texts::{complement_row, concatenate_row};
pub use variables::{
    assign_row, reversible_assign_row, reversible_swap_row, swap_row, undo_assign_again,
    undo_exchange_again,
};
pub use walks::elements_row;
