// Calls of a pair list.
use crate::containers::items::{BYTES, CELLS, ElementCell, item_named, push_item, push_letter};
use icn_structs::Pairs;
use std::alloc::{AllocError, Global};
use std::hash::Hash;

// The keys that the letters name.
const NUMBERS: [u32; 4] = [40, 10, 30, 20];

/// Makes the calls on no pairs of texts with bytes, and appends a line for each: its answer, if it has one, and in brackets all pairs
/// in their order. `AllocError` is want of memory.
pub fn push_text_pairs(alloc: Global, text: &mut String, calls: &str) -> Result<(), AllocError> {
    let keys = letters(alloc)?;
    let mut pairs: Pairs<String, u8> = Pairs::new(alloc);
    for call in calls.split(';') {
        write!(text, "\n  {call} ->")?;
        push_text_call(alloc, text, &mut pairs, call)?;
        push_all(text, &pairs, keys.as_slice(), BYTES.as_slice())?;
    }
    Ok(())
}

// The keys that are texts.
fn letters(alloc: Global) -> Result<Vec<String>, AllocError> {
    let mut keys = Vec::new(alloc);
    for letter in ["a", "b", "c", "d"] {
        keys.push(String::from_str(alloc, letter)?)?;
    }
    Ok(keys)
}

fn push_text_call(
    alloc: Global,
    text: &mut String,
    pairs: &mut Pairs<String, u8>,
    call: &str,
) -> Result<(), AllocError> {
    let (name, words) = call.split_once(" ").unwrap_or((call, ""));
    let (letter, value) = words.split_once(" ").unwrap_or((words, ""));
    let key = String::from_str(alloc, letter)?;
    let value = item_named(BYTES.as_slice(), value);
    push_call(text, pairs, name, key, value, BYTES.as_slice())
}

/// The same on pairs of numbers with cells.
pub fn push_number_pairs(alloc: Global, text: &mut String, calls: &str) -> Result<(), AllocError> {
    let mut pairs: Pairs<u32, ElementCell> = Pairs::new(alloc);
    for call in calls.split(';') {
        write!(text, "\n  {call} ->")?;
        push_number_call(text, &mut pairs, call)?;
        push_all(text, &pairs, NUMBERS.as_slice(), CELLS.as_slice())?;
    }
    Ok(())
}

fn push_number_call(
    text: &mut String,
    pairs: &mut Pairs<u32, ElementCell>,
    call: &str,
) -> Result<(), AllocError> {
    let (name, words) = call.split_once(" ").unwrap_or((call, ""));
    let (letter, value) = words.split_once(" ").unwrap_or((words, ""));
    let key = item_named(NUMBERS.as_slice(), letter).unwrap_or(0);
    let value = item_named(CELLS.as_slice(), value);
    push_call(text, pairs, name, key, value, CELLS.as_slice())
}

fn push_call<K: Eq + Hash + Drop, V: Copy + PartialEq>(
    text: &mut String,
    pairs: &mut Pairs<K, V>,
    name: &str,
    key: K,
    value: Option<V>,
    values: &[V],
) -> Result<(), AllocError> {
    match name {
        "store" => match value {
            Some(value) => {
                let is_new = pairs.store(key, value)?;
                text.push_str(if is_new { " new" } else { " again" })
            }
            None => text.push_str(" no call"),
        },
        "remove" => {
            let found = pairs.remove(&key);
            text.push_str(if found { " yes" } else { " no" })
        }
        "look" => push_item(text, values, pairs.look(&key)),
        "all" => Ok(()),
        _ => text.push_str(" no call"),
    }
}

// Appends all pairs, and that there are no others.
fn push_all<K: Eq + Hash + Drop, V: Copy + PartialEq>(
    text: &mut String,
    pairs: &Pairs<K, V>,
    keys: &[K],
    values: &[V],
) -> Result<(), AllocError> {
    text.push_str(" [")?;
    for place in 0..pairs.len() {
        push_blank(text, place)?;
        push_pair(text, pairs, keys, values, place)?;
    }
    if has_others(pairs) {
        text.push_str(", and others")?;
    }
    text.push(']')
}

// Appends a blank, unless it is the first pair.
fn push_blank(text: &mut String, place: u64) -> Result<(), AllocError> {
    if place > 0 { text.push(' ') } else { Ok(()) }
}

// Appends the pair at a place, whose value is the same by place and by key.
fn push_pair<K: Eq + Hash + Drop, V: Copy + PartialEq>(
    text: &mut String,
    pairs: &Pairs<K, V>,
    keys: &[K],
    values: &[V],
    place: u64,
) -> Result<(), AllocError> {
    match pairs.pair_at(place) {
        Some((key, value)) => {
            push_letter(text, keys.iter().position(|other| *other == *key))?;
            text.push('=')?;
            push_letter(text, values.iter().position(|other| *other == value))?;
            if pairs.look(key) != Some(value) {
                text.push_str(", another by its key,")?;
            }
            Ok(())
        }
        None => text.push_str("none"),
    }
}

// Whether a pair stands at a place behind the last one.
fn has_others<K: Eq + Hash + Drop, V: Copy>(pairs: &Pairs<K, V>) -> bool {
    pairs.pair_at(pairs.len()).is_some()
        || pairs.pair_at(1 << 32).is_some()
        || pairs.pair_at(u64::MAX).is_some()
}
