// A case: what its calls are made on, and the calls, which are made on two types of items.
use crate::containers::items::{BYTES, CELLS, ElementCell};
use crate::containers::lists::push_list_calls;
use crate::containers::pairs::{push_number_pairs, push_text_pairs};
use crate::containers::strings::push_string_calls;
use icn_structs::{numbers_stay, values_stay};
use std::alloc::{AllocError, Global};

/// What a case is of, and its calls with what comes of each, a line for each. Where a second type does not answer as the first one
/// does, its lines follow. `AllocError` is want of memory.
pub fn case_text(alloc: Global, line: &str) -> Result<String, AllocError> {
    let (name, calls) = line.split_once(";").unwrap_or((line, ""));
    let mut text = String::from_str(alloc, name)?;
    match name {
        "list" => push_lists(alloc, &mut text, calls)?,
        "pairs" => push_pairs(alloc, &mut text, calls)?,
        _ => push_string_calls(alloc, &mut text, name, calls)?,
    }
    Ok(text)
}

fn push_lists(alloc: Global, text: &mut String, calls: &str) -> Result<(), AllocError> {
    let mut first = String::new(alloc);
    push_list_calls(alloc, &mut first, BYTES.as_slice(), calls)?;
    let mut second = String::new(alloc);
    push_list_calls(alloc, &mut second, CELLS.as_slice(), calls)?;
    push_both(text, &first, &second)
}

fn push_pairs(alloc: Global, text: &mut String, calls: &str) -> Result<(), AllocError> {
    let mut first = String::new(alloc);
    push_text_pairs(alloc, &mut first, calls)?;
    let mut second = String::new(alloc);
    push_number_pairs(alloc, &mut second, calls)?;
    push_both(text, &first, &second)
}

// The lines of the first type, and those of the second one, if they differ.
fn push_both(text: &mut String, first: &str, second: &str) -> Result<(), AllocError> {
    text.push_str(first)?;
    if first == second {
        return Ok(());
    }
    text.push_str("\ndiffers")?;
    text.push_str(second)
}

/// The laws of the definitions, so that their clauses are seen by a caller.
pub fn laws_of_the_definitions() {
    numbers_stay::<ElementCell>();
    values_stay::<String, u8>();
}
