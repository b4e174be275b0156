// The objects of the outside, and their calls that fail.
use std::alloc::{AllocError, Global};

/// An object of the outside.
#[derive(Clone, Copy, PartialEq, Eq)]
pub enum HandedObject {
    Files,
    Input,
    Output,
    Errors,
}

/// A call that fails, by its object and its number, from 0.
#[derive(Clone, Copy)]
pub struct FailingCall {
    pub object: HandedObject,
    pub number: u64,
}

/// The object of this name.
pub fn object_named(name: &str) -> Option<HandedObject> {
    match name {
        "files" => Some(HandedObject::Files),
        "input" => Some(HandedObject::Input),
        "output" => Some(HandedObject::Output),
        "errors" => Some(HandedObject::Errors),
        _ => None,
    }
}

/// The calls that a line names: an object and a number each, with blanks between them. The error is want of memory.
pub fn failing_calls(alloc: Global, text: &str) -> Result<Vec<FailingCall>, AllocError> {
    let mut calls = Vec::new(alloc);
    let mut object = HandedObject::Files;
    for word in text.split(' ') {
        match object_named(word) {
            Some(named) => object = named,
            None => {
                let number = u64::from(word.parse::<u32>().unwrap_or(0));
                calls.push(FailingCall { object, number })?;
            }
        }
    }
    Ok(calls)
}

/// The numbers of the calls of this object that fail. The error is want of memory.
pub fn numbers_of(
    alloc: Global,
    failing: &[FailingCall],
    object: HandedObject,
) -> Result<Vec<u64>, AllocError> {
    let mut numbers = Vec::new(alloc);
    for call in failing {
        if call.object == object {
            numbers.push(call.number)?;
        }
    }
    Ok(numbers)
}
