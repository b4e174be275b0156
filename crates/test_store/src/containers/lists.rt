// Calls of a list.
use crate::containers::items::{integer_of, item_named, push_item};
use icn_structs::Deque;
use std::alloc::{AllocError, Global};

/// Makes the calls on an empty list, and appends a line for each: its answer, if it has one, and in brackets the number of the first
/// item and all items. `AllocError` is want of memory.
pub fn push_list_calls<T: Copy + PartialEq>(
    alloc: Global,
    text: &mut String,
    items: &[T],
    calls: &str,
) -> Result<(), AllocError> {
    let mut list: Deque<T> = Deque::new(alloc);
    for call in calls.split(';') {
        write!(text, "\n  {call} ->")?;
        push_call(text, &mut list, items, call)?;
        push_list(text, &list, items)?;
    }
    Ok(())
}

fn push_call<T: Copy + PartialEq>(
    text: &mut String,
    list: &mut Deque<T>,
    items: &[T],
    call: &str,
) -> Result<(), AllocError> {
    let (name, words) = call.split_once(" ").unwrap_or((call, ""));
    match name {
        "put" => put(list, item_named(items, words)),
        "push" => push(list, item_named(items, words)),
        "get" => {
            let item = list.get();
            push_item(text, items, item)
        }
        "pull" => {
            let item = list.pull();
            push_item(text, items, item)
        }
        "number" => push_item(text, items, list.by_number(integer_of(words))),
        "set" => push_set(text, list, items, words),
        "all" => Ok(()),
        _ => text.push_str(" no call"),
    }
}

// Adds an item at the right, if there is one and the numbers go so far.
fn put<T: Copy>(list: &mut Deque<T>, item: Option<T>) -> Result<(), AllocError> {
    let after = list.first() + list.len() as i64;
    match item {
        Some(item) if after < i64::MAX => list.put(item),
        _ => Ok(()),
    }
}

// Adds an item at the left, if there is one and the numbers go so far.
fn push<T: Copy>(list: &mut Deque<T>, item: Option<T>) -> Result<(), AllocError> {
    match item {
        Some(item) if i64::MIN < list.first() => list.push(item),
        _ => Ok(()),
    }
}

// Puts another item in the place of the one with a number, and appends whether there was one.
fn push_set<T: Copy>(
    text: &mut String,
    list: &mut Deque<T>,
    items: &[T],
    words: &str,
) -> Result<(), AllocError> {
    let (number, letter) = words.split_once(" ").unwrap_or((words, ""));
    match item_named(items, letter) {
        Some(item) => {
            let found = list.set_number(integer_of(number), item);
            text.push_str(if found { " yes" } else { " no" })
        }
        None => text.push_str(" no call"),
    }
}

// Appends the number of the first item and all items, which are the same by place and by number, and that there are no others.
fn push_list<T: Copy + PartialEq>(
    text: &mut String,
    list: &Deque<T>,
    items: &[T],
) -> Result<(), AllocError> {
    let first = list.first();
    write!(text, " [{first}:")?;
    for place in 0..list.len() {
        push_item(text, items, list.at(place))?;
        let number = first.saturating_add(i64::try_from(place).unwrap_or(0));
        if list.by_number(number) != list.at(place) {
            text.push_str(", another by its number,")?;
        }
    }
    if has_others(list) {
        text.push_str(", and others")?;
    }
    text.push(']')
}

// Whether an item stands at a place behind the last one, or has a number before the first one or the greatest number.
fn has_others<T: Copy>(list: &Deque<T>) -> bool {
    let before = list.first().saturating_sub(1);
    list.at(list.len()).is_some()
        || list.at(1 << 32).is_some()
        || list.at(u64::MAX).is_some()
        || list.by_number(i64::MIN).is_some()
        || list.by_number(before).is_some()
        || list.by_number(i64::MAX).is_some()
}
