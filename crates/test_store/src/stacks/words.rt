// The words of a call.

/// A word by its place, from 0 on, or none.
pub fn word_at(words: &str, place: usize) -> &str {
    words.split(' ').nth(place).unwrap_or("")
}

/// The number that the word at a place writes, below 2 ^ 32, if it writes one.
pub fn written_number(words: &str, place: usize) -> Option<u32> {
    word_at(words, place).parse::<u32>().ok()
}

/// The number that the word at a place writes, or else 0.
pub fn number_at(words: &str, place: usize) -> u32 {
    written_number(words, place).unwrap_or(0)
}

/// The same as an integer.
pub fn integer_at(words: &str, place: usize) -> i64 {
    i64::from(number_at(words, place))
}

/// The same as a count or an index of cells.
pub fn index_at(words: &str, place: usize) -> u64 {
    u64::from(number_at(words, place))
}
