// The words of a case and of a call.
use std::alloc::{AllocError, Global};

/// A word by its place, from 0 on, or none.
pub fn word_at(words: &str, place: usize) -> &str {
    words.split(' ').nth(place).unwrap_or("")
}

/// The number that the word at a place writes, below 2 ^ 32, if it writes one.
pub fn written_number(words: &str, place: usize) -> Option<u32> {
    word_at(words, place).parse::<u32>().ok()
}

/// The number that the word at a place writes, or else 0.
pub fn number_at(words: &str, place: usize) -> u32 {
    written_number(words, place).unwrap_or(0)
}

/// The text that the word at a place writes, in which a pilcrow is a newline. `AllocError` is want of memory.
pub fn text_at(alloc: Global, words: &str, place: usize) -> Result<String, AllocError> {
    word_at(words, place).replace(alloc, "¶", "\n")
}

/// The calls of an object over memory that fail: the one of this number, if there is one. `AllocError` is want of memory.
pub fn failing_calls(alloc: Global, number: Option<u32>) -> Result<Vec<u64>, AllocError> {
    let mut calls = Vec::new(alloc);
    if let Some(number) = number {
        calls.push(u64::from(number))?;
    }
    Ok(calls)
}
