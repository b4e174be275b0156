// Readers that are slow, interrupted or broken, as sources.
use crate::showing::push_line_end;
use crate::sources::push_source_call;
use crate::words::{number_at, text_at, written_number};
use icn_host::{Source, StdSource};
use std::alloc::{AllocError, Global};
use std::io;
use std::io::{ErrorKind, Read};

// Gives a byte at a time. It is interrupted at first, and fails once where so many bytes are left.
#[derive(Drop)]
struct SlowReader {
    bytes: Vec<u8>,
    given: usize,
    interruptions: u32,
    fails_at: Option<usize>,
}

impl Read for SlowReader {
    fn read(&mut self, buffer: &mut [u8]) -> io::Result<usize> {
        if self.interruptions > 0 {
            self.interruptions -= 1;
            return Err(ErrorKind::Interrupted.into());
        }
        if self.fails_at == Some(self.bytes.len().saturating_sub(self.given)) {
            self.fails_at = None;
            return Err(ErrorKind::Other.into());
        }
        if buffer.is_empty() {
            return Ok(0);
        }
        match self.bytes.get(self.given) {
            Some(byte) => {
                buffer[0] = *byte;
                self.given = self.given.saturating_add(1);
                Ok(1)
            }
            None => Ok(0),
        }
    }
}

/// Makes the calls on a source over a slow reader of a text, and appends a line for each. `AllocError` is want of memory.
pub fn push_reader(
    alloc: Global,
    text: &mut String,
    words: &str,
    calls: &str,
) -> Result<(), AllocError> {
    let given = text_at(alloc, words, 0)?;
    let reader = SlowReader {
        bytes: given.as_bytes().to_vec(alloc)?,
        given: 0,
        interruptions: number_at(words, 1),
        fails_at: written_number(words, 2).map(|left| left as usize),
    };
    let mut source = StdSource::new(reader);
    for call in calls.split(';') {
        push_source_call(alloc, text, &mut source, call)?;
    }
    Ok(())
}

/// Reads a line from a reader that repeats a byte so often, and appends how it ended and its length. `AllocError` is want of memory.
pub fn push_repeated(alloc: Global, text: &mut String, count: u64) -> Result<(), AllocError> {
    let mut source = StdSource::new(io::repeat(b'x').take(count));
    let mut bytes = Vec::new(alloc);
    text.push_str(" -> ")?;
    push_line_end(text, source.line(&mut bytes))?;
    let length = bytes.len();
    write!(text, ", {length} bytes")
}
