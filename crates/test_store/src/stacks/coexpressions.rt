// Co-expressions and the transfers between them.
use crate::stacks::words::{integer_at, number_at};
use icn_coexp::{AfterTransfer, Stacks};
use icn_frames::{Cell, Frames, Stack};
use icn_value::Val;
use std::alloc::{AllocError, Global};

/// Makes the calls on co-expressions, of which `&main` runs from the address 10 on, and appends a line for each with its answer.
/// `AllocError` is want of memory.
pub fn push_transfers<K: Stack<Cell> + Drop>(
    alloc: Global,
    text: &mut String,
    calls: &str,
) -> Result<(), AllocError> {
    let mut stacks: Stacks<K> = new_stacks(alloc)?;
    for call in calls.split(';') {
        write!(text, "\n  {call} ->")?;
        let (name, words) = call.split_once(" ").unwrap_or((call, ""));
        push_transfer(alloc, text, &mut stacks, name, words)?;
    }
    Ok(())
}

fn new_stacks<K: Stack<Cell> + Drop>(alloc: Global) -> Result<Stacks<K>, AllocError> {
    Stacks::new(alloc, Frames::new(alloc, 0, &[], 10)?)
}

// A transfer, or one more co-expression.
fn push_transfer<K: Stack<Cell> + Drop>(
    alloc: Global,
    text: &mut String,
    stacks: &mut Stacks<K>,
    name: &str,
    words: &str,
) -> Result<(), AllocError> {
    let first = number_at(words, 0);
    match name {
        "activate" => {
            let after = activate(stacks, first, integer_at(words, 1))?;
            push_after(text, after)
        }
        "give" => {
            let after = give(stacks, i64::from(first))?;
            push_after(text, after)
        }
        "exhaust" => push_after(text, exhaust(stacks)),
        "transfers" => {
            let count = transfer_often(stacks, first)?;
            push_number(text, Some(count))
        }
        "create" => {
            let id = create(stacks, alloc, first)?;
            push_number(text, id)
        }
        "refresh" => {
            let id = refresh(stacks, alloc, first)?;
            push_number(text, id)
        }
        _ => push_state(text, stacks, name, first),
    }
}

// What the stacks tell.
fn push_state<K: Stack<Cell> + Drop>(
    text: &mut String,
    stacks: &mut Stacks<K>,
    name: &str,
    id: u32,
) -> Result<(), AllocError> {
    match name {
        "active" => push_number(text, Some(stacks.active())),
        "source" => push_number(text, Some(stacks.source())),
        "address" => push_number(text, address_of(stacks)),
        "runs" => text.push_str(if stacks.runs() { " yes" } else { " no" }),
        "values" => push_values(text, stacks, id),
        _ => text.push_str(" no call"),
    }
}

fn push_values<K: Stack<Cell> + Drop>(
    text: &mut String,
    stacks: &Stacks<K>,
    id: u32,
) -> Result<(), AllocError> {
    if u64::from(id) >= stacks.len() {
        return text.push_str(" not made");
    }
    let count = stacks.value_count(id);
    write!(text, " {count}")
}

fn push_number(text: &mut String, number: Option<u32>) -> Result<(), AllocError> {
    match number {
        Some(number) => write!(text, " {number}"),
        None => text.push_str(" not made"),
    }
}

fn push_after(text: &mut String, after: Option<AfterTransfer>) -> Result<(), AllocError> {
    match after {
        Some(AfterTransfer::Same(Val::Integer(n))) => write!(text, " the same {n}"),
        Some(AfterTransfer::Same(_)) => text.push_str(" another value"),
        Some(AfterTransfer::Moved) => text.push_str(" moved"),
        Some(AfterTransfer::Exhausted) => text.push_str(" exhausted"),
        None => text.push_str(" not made"),
    }
}

fn activate<K: Stack<Cell> + Drop>(
    stacks: &mut Stacks<K>,
    id: u32,
    n: i64,
) -> Result<Option<AfterTransfer>, AllocError> {
    if u64::from(id) >= stacks.len() || !stacks.runs() {
        return Ok(None);
    }
    stacks.frames().reserve(1)?;
    Ok(Some(stacks.activate(id, Val::Integer(n))))
}

fn give<K: Stack<Cell> + Drop>(
    stacks: &mut Stacks<K>,
    n: i64,
) -> Result<Option<AfterTransfer>, AllocError> {
    if stacks.active() == 0 || !stacks.runs() {
        return Ok(None);
    }
    stacks.frames().reserve(1)?;
    Ok(Some(stacks.give(Val::Integer(n))))
}

fn exhaust<K: Stack<Cell> + Drop>(stacks: &mut Stacks<K>) -> Option<AfterTransfer> {
    if stacks.active() == 0 {
        return None;
    }
    Some(stacks.exhaust())
}

// Enters the first co-expression, which gives back, so many times, and counts how often both moved.
fn transfer_often<K: Stack<Cell> + Drop>(
    stacks: &mut Stacks<K>,
    times: u32,
) -> Result<u32, AllocError> {
    let mut count = 0u32;
    for n in 0..times {
        let entered = activate(stacks, 1, i64::from(n))?;
        let given = give(stacks, i64::from(n))?;
        if entered == Some(AfterTransfer::Moved) && given == Some(AfterTransfer::Moved) {
            count = count.saturating_add(1);
        }
    }
    Ok(count)
}

fn create<K: Stack<Cell> + Drop>(
    stacks: &mut Stacks<K>,
    alloc: Global,
    address: u32,
) -> Result<Option<u32>, AllocError> {
    if stacks.len() > 1000 {
        return Ok(None);
    }
    let locals = [Val::Integer(7), Val::Null];
    Ok(Some(stacks.create(alloc, &locals, 3, address)?))
}

fn refresh<K: Stack<Cell> + Drop>(
    stacks: &mut Stacks<K>,
    alloc: Global,
    id: u32,
) -> Result<Option<u32>, AllocError> {
    if id == 0 || u64::from(id) >= stacks.len() || stacks.len() > 1000 {
        return Ok(None);
    }
    Ok(Some(stacks.refresh(alloc, id)?))
}

// The address of the stack that runs.
fn address_of<K: Stack<Cell> + Drop>(stacks: &mut Stacks<K>) -> Option<u32> {
    if stacks.runs() {
        Some(stacks.frames().address())
    } else {
        None
    }
}
