// Calls of a stack of cells.
use crate::stacks::words::index_at;
use icn_frames::Stack;
use std::alloc::AllocError;

// A call of a stack of cells.
#[derive(Clone, Copy)]
enum StackChange {
    Push(u64),
    Pop,
    Set(u64, u64),
    Cut(u64),
    CopyUp(u64, u64),
}

// Successive integers, from the first to the last one.
#[derive(Clone, Copy)]
struct CellRun {
    first: u64,
    last: u64,
}

/// Makes the calls, and appends a line for each: the cell that was taken, if one was, and all cells then. `AllocError` is want of
/// memory.
pub fn push_cell_calls<K: Stack<u64> + Drop>(
    text: &mut String,
    cells: &mut K,
    calls: &str,
) -> Result<(), AllocError> {
    for call in calls.split(';') {
        write!(text, "\n  {call} ->")?;
        push_call(text, cells, call)?;
        push_cells(text, cells)?;
    }
    Ok(())
}

fn push_call<K: Stack<u64> + Drop>(
    text: &mut String,
    cells: &mut K,
    call: &str,
) -> Result<(), AllocError> {
    let (name, words) = call.split_once(" ").unwrap_or((call, ""));
    match name {
        "fill" => fill(cells, index_at(words, 0)),
        "refuse" => push_refusal(text, cells),
        _ => match change_named(name, words) {
            Some(change) => push_taken(text, cells, change),
            None => text.push_str(" no call:"),
        },
    }
}

fn change_named(name: &str, words: &str) -> Option<StackChange> {
    let first = index_at(words, 0);
    let second = index_at(words, 1);
    match name {
        "push" => Some(StackChange::Push(first)),
        "pop" => Some(StackChange::Pop),
        "set" => Some(StackChange::Set(first, second)),
        "cut" => Some(StackChange::Cut(first)),
        "copy" => Some(StackChange::CopyUp(first, second)),
        _ => None,
    }
}

fn push_taken<K: Stack<u64>>(
    text: &mut String,
    cells: &mut K,
    change: StackChange,
) -> Result<(), AllocError> {
    match make_change(cells, change)? {
        Some(cell) => write!(text, " {cell}, left"),
        None => Ok(()),
    }
}

// Makes the call, if its conditions hold, and gives what it took.
fn make_change<K: Stack<u64>>(cells: &mut K, call: StackChange) -> Result<Option<u64>, AllocError> {
    let len = cells.len();
    match call {
        StackChange::Push(v) => {
            cells.reserve(1)?;
            cells.push(v);
        }
        StackChange::Pop => {
            if len > 0 {
                return Ok(Some(cells.pop()));
            }
        }
        StackChange::Set(i, v) => {
            if i < len {
                cells.set(i, v);
            }
        }
        StackChange::Cut(to) => {
            if to <= len {
                cells.cut(to);
            }
        }
        StackChange::CopyUp(from, to) => {
            if from <= to && to <= len {
                cells.reserve(to - from)?;
                cells.copy_up(from, to);
            }
        }
    }
    Ok(None)
}

// Puts the integers from 0 on, so many.
fn fill<K: Stack<u64>>(cells: &mut K, count: u64) -> Result<(), AllocError> {
    for v in 0..count {
        make_change(cells, StackChange::Push(v))?;
    }
    Ok(())
}

// Room for more cells than there may be is refused: the cells stay, and so does the room for the next ones.
fn push_refusal<K: Stack<u64>>(text: &mut String, cells: &mut K) -> Result<(), AllocError> {
    cells.cut(0);
    cells.reserve(3)?;
    cells.push(1);
    let is_refused = cells.reserve(u64::MAX).is_err();
    cells.push(2);
    cells.push(3);
    text.push_str(if is_refused {
        " refused, left"
    } else {
        " room, left"
    })
}

// Appends all cells, the lowest first.
fn push_cells<K: Stack<u64> + Drop>(text: &mut String, cells: &K) -> Result<(), AllocError> {
    let mut run: Option<CellRun> = None;
    for i in 0..cells.len() {
        let cell = cells.get(i);
        run = Some(with_cell(text, run, cell)?);
    }
    match run {
        Some(run) => push_run(text, run),
        None => text.push_str(" empty"),
    }
}

// The run that a cell goes on, or begins, behind the one that it ends.
fn with_cell(text: &mut String, run: Option<CellRun>, cell: u64) -> Result<CellRun, AllocError> {
    let begun = CellRun {
        first: cell,
        last: cell,
    };
    match run {
        Some(run) if cell > 0 && run.last == cell - 1 => Ok(CellRun {
            first: run.first,
            last: cell,
        }),
        Some(run) => {
            push_run(text, run)?;
            Ok(begun)
        }
        None => Ok(begun),
    }
}

fn push_run(text: &mut String, run: CellRun) -> Result<(), AllocError> {
    let first = run.first;
    let last = run.last;
    if first == last {
        write!(text, " {first}")
    } else {
        write!(text, " {first}..{last}")
    }
}
