// The calls of the outside that fail.
use std::alloc::{AllocError, Global};

// An object of the outside.
#[derive(Clone, Copy)]
enum FailedObject {
    Files,
    Input,
    Output,
    Errors,
}

/// The numbers, from 0, of the calls of each object that fail.
#[derive(Drop)]
pub struct FailedCalls {
    pub files: Vec<u64>,
    pub input: Vec<u64>,
    pub output: Vec<u64>,
    pub errors: Vec<u64>,
}

impl FailedCalls {
    /// No call fails.
    pub fn new(alloc: Global) -> FailedCalls {
        FailedCalls {
            files: Vec::new(alloc),
            input: Vec::new(alloc),
            output: Vec::new(alloc),
            errors: Vec::new(alloc),
        }
    }

    /// The calls that a line names: the name of an object, and numbers, with blanks between them. The error is want of memory.
    pub fn of_line(alloc: Global, line: &str) -> Result<FailedCalls, AllocError> {
        let mut calls = FailedCalls::new(alloc);
        let mut object = FailedObject::Files;
        for word in line.split(' ') {
            match object_named(word) {
                Some(named) => object = named,
                None => calls.push(object, u64::from(word.parse::<u32>().unwrap_or(0)))?,
            }
        }
        Ok(calls)
    }

    fn push(&mut self, object: FailedObject, number: u64) -> Result<(), AllocError> {
        match object {
            FailedObject::Files => self.files.push(number)?,
            FailedObject::Input => self.input.push(number)?,
            FailedObject::Output => self.output.push(number)?,
            FailedObject::Errors => self.errors.push(number)?,
        }
        Ok(())
    }
}

fn object_named(name: &str) -> Option<FailedObject> {
    match name {
        "files" => Some(FailedObject::Files),
        "input" => Some(FailedObject::Input),
        "output" => Some(FailedObject::Output),
        "errors" => Some(FailedObject::Errors),
        _ => None,
    }
}
