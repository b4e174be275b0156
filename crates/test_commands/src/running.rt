// Programs over two kinds of stacks, and with each call of the outside failing in turn.
mod case;
mod code;
mod observed;

use case::show_case;
use std::alloc::{AllocError, Global};

/// What comes of a line. An empty line and a remark have no outcome. The error is want of memory.
pub fn outcome(alloc: Global, line: &str) -> Result<String, AllocError> {
    if line.is_empty() || line.starts_with('#') {
        Ok(String::new(alloc))
    } else {
        show_case(alloc, line)
    }
}
