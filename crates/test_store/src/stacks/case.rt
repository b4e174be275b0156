// A case: what its calls are made on, and the calls, which are made on each kind of stack.
use crate::stacks::cells::push_cell_calls;
use crate::stacks::coexpressions::push_transfers;
use crate::stacks::frame_cases::push_frame_calls;
use icn_frames::{Cell, Stack, VecStack};
use icn_segments::RawStack;
use std::alloc::{AllocError, Global};

/// What a case is of, and its calls with what comes of each, a line for each call. Where a stack in segments does not answer as
/// one in one block does, its lines follow. `AllocError` is want of memory.
pub fn case_text(alloc: Global, line: &str) -> Result<String, AllocError> {
    let (name, calls) = line.split_once(";").unwrap_or((line, ""));
    let mut text = String::from_str(alloc, name)?;
    if name == "cells" {
        push_cells_case(alloc, &mut text, calls)?;
    } else {
        push_both(alloc, &mut text, name, calls)?;
    }
    Ok(text)
}

// Calls of stacks of cells: in one block as both functions make it, and in segments.
fn push_cells_case(alloc: Global, text: &mut String, calls: &str) -> Result<(), AllocError> {
    let mut block: VecStack<u64> = VecStack::new(alloc);
    let mut other: VecStack<u64> = Stack::empty(alloc);
    let mut segments: RawStack<u64> = RawStack::new(alloc);
    let first = cells_text(alloc, &mut block, calls)?;
    let second = cells_text(alloc, &mut other, calls)?;
    let third = cells_text(alloc, &mut segments, calls)?;
    text.push_str(&first)?;
    push_differing(text, &first, &second)?;
    push_differing(text, &first, &third)
}

fn cells_text<K: Stack<u64> + Drop>(
    alloc: Global,
    cells: &mut K,
    calls: &str,
) -> Result<String, AllocError> {
    let mut text = String::new(alloc);
    push_cell_calls(&mut text, cells, calls)?;
    Ok(text)
}

fn push_both(alloc: Global, text: &mut String, name: &str, calls: &str) -> Result<(), AllocError> {
    let first = calls_text::<VecStack<Cell>>(alloc, name, calls)?;
    let second = calls_text::<RawStack<Cell>>(alloc, name, calls)?;
    text.push_str(&first)?;
    push_differing(text, &first, &second)
}

// Calls of frames, or of co-expressions.
fn calls_text<K: Stack<Cell> + Drop>(
    alloc: Global,
    name: &str,
    calls: &str,
) -> Result<String, AllocError> {
    let mut text = String::new(alloc);
    match name {
        "frames" => push_frame_calls::<K>(alloc, &mut text, calls)?,
        "co-expressions" => push_transfers::<K>(alloc, &mut text, calls)?,
        _ => text.push_str(" -> no case")?,
    }
    Ok(text)
}

// Other lines than the first ones, if they differ.
fn push_differing(text: &mut String, first: &str, other: &str) -> Result<(), AllocError> {
    if first == other {
        return Ok(());
    }
    text.push_str("\ndiffers")?;
    text.push_str(other)
}
