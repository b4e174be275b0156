// Integers, and names with their numbers.
use icn_text::{Func, Keyword, Op, decimal, func_named, keyword_named, read_integer};
use std::alloc::{AllocError, Global};
use std::fmt::Write;

/// The integer that a text writes. `AllocError` is want of memory.
pub fn integer(alloc: Global, text: &[u8]) -> Result<String, AllocError> {
    match read_integer(text) {
        Ok(value) => String::from_utf8_lossy(alloc, decimal(value).as_bytes()),
        Err(_) => String::from_str(alloc, "none"),
    }
}

/// The number of the function and that of the keyword of this name. `AllocError` is want of memory.
pub fn numbers(alloc: Global, name: &[u8]) -> Result<String, AllocError> {
    let function = func_named(name).map_or(0, |found| found.number());
    let keyword = keyword_named(name).map_or(0, |found| found.number());
    format!(in alloc; "{function} {keyword}")
}

/// The functions, the keywords and the operations with their numbers. `AllocError` is want of memory.
pub fn tables(alloc: Global) -> Result<String, AllocError> {
    let mut shown = String::new(alloc);
    for func in Func::ALL {
        push_named(&mut shown, func.number(), func.name())?;
    }
    for keyword in Keyword::ALL {
        push_named(&mut shown, keyword.number(), keyword.name())?;
    }
    for op in Op::ALL {
        push_named(&mut shown, op.number(), b"")?;
    }
    Ok(shown)
}

fn push_named(shown: &mut String, number: u8, name: &[u8]) -> Result<(), AllocError> {
    write!(shown, " {number}")?;
    for byte in name {
        shown.push(char::from(*byte))?;
    }
    Ok(())
}
