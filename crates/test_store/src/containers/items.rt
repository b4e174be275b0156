// What lists and pair lists hold, by letters.
use icn_text::read_integer;
use std::alloc::AllocError;

/// Two numbers in one item.
#[derive(Clone, Copy, PartialEq)]
pub struct ElementCell {
    kind: u8,
    place: u32,
}

/// The bytes that the letters `a` to `d` name.
pub const BYTES: [u8; 4] = [5, 6, 7, 8];

/// The cells that the letters `a` to `d` name.
pub const CELLS: [ElementCell; 4] = [
    ElementCell { kind: 0, place: 7 },
    ElementCell { kind: 1, place: 7 },
    ElementCell { kind: 1, place: 8 },
    ElementCell { kind: 2, place: 0 },
];

// The place of a letter, from 0 on, or that of `d`.
fn place_of(letter: &str) -> usize {
    match letter {
        "a" => 0,
        "b" => 1,
        "c" => 2,
        _ => 3,
    }
}

/// The item that a letter names.
pub fn item_named<T: Copy>(items: &[T], letter: &str) -> Option<T> {
    items.get(place_of(letter)).copied()
}

/// Appends a blank and the letter of an item, or that there is none. `AllocError` is want of memory.
pub fn push_item<T: Copy + PartialEq>(
    text: &mut String,
    items: &[T],
    item: Option<T>,
) -> Result<(), AllocError> {
    match item {
        Some(item) => {
            text.push(' ')?;
            push_letter(text, items.iter().position(|other| *other == item))
        }
        None => text.push_str(" none"),
    }
}

/// Appends the letter of a place, or that it has none. `AllocError` is want of memory.
pub fn push_letter(text: &mut String, place: Option<usize>) -> Result<(), AllocError> {
    match place {
        Some(0) => text.push_str("a"),
        Some(1) => text.push_str("b"),
        Some(2) => text.push_str("c"),
        Some(3) => text.push_str("d"),
        _ => text.push_str("another"),
    }
}

/// The integer that a word writes, or else 0.
pub fn integer_of(word: &str) -> i64 {
    read_integer(word.as_bytes()).unwrap_or(0)
}
