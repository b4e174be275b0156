// The texts of cases.
use std::alloc::{AllocError, Global};

/// A part by its place, from 0 on; a bar stands behind each. It is empty where there is none.
pub fn part_at(parts: &str, place: usize) -> &str {
    parts.split('|').nth(place).unwrap_or("")
}

/// The text that a part writes, in which a pilcrow is the end of a line. `AllocError` is want of memory.
pub fn text_at(alloc: Global, parts: &str, place: usize) -> Result<String, AllocError> {
    part_at(parts, place).replace(alloc, "¶", "\n")
}

/// The text of a procedure with these lines between its head and its end. `AllocError` is want of memory.
pub fn of_body(alloc: Global, lines: &str) -> Result<String, AllocError> {
    format!(in alloc; "U9.1\nproc f 0 0\nname l a\n{lines}end\n")
}

/// The text of two procedures with these instructions. `AllocError` is want of memory.
pub fn of_two(alloc: Global, first: &str, second: &str) -> Result<String, AllocError> {
    format!(in alloc; "U9.1\nproc f 0 0\ncode\n{first}end\nproc g 0 0\ncode\n{second}end\n")
}

/// The text of one declaration: what stands in front, a text with the number of times that it stands there, and what stands behind.
/// `AllocError` is want of memory.
pub fn of_declaration(alloc: Global, parts: &str) -> Result<String, AllocError> {
    let front = part_at(parts, 0);
    let often = times(alloc, part_at(parts, 1), part_at(parts, 2))?;
    let behind = part_at(parts, 3);
    format!(in alloc; "U9.2\n{front}{often}{behind}\nend\n")
}

/// Both texts of a procedure whose name is a text so many times. `AllocError` is want of memory.
pub fn of_procedure(
    alloc: Global,
    text: &str,
    count: &str,
) -> Result<(String, String), AllocError> {
    let name = times(alloc, text, count)?;
    let first = format!(in alloc; "U9.1\nproc {name} 0 0\ncode\nend\n")?;
    let second = format!(in alloc; "U9.2\nproc {name}\nend\n")?;
    Ok((first, second))
}

// A text so many times.
fn times(alloc: Global, text: &str, count: &str) -> Result<String, AllocError> {
    let mut all = String::new(alloc);
    for _ in 0..count.parse::<u32>().unwrap_or(0) {
        all.push_str(text)?;
    }
    Ok(all)
}
