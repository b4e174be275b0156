// Writers that are slow, interrupted or broken, as sinks.
use crate::showing::{push_done, push_held};
use crate::sinks::push_puts;
use crate::words::{number_at, word_at};
use icn_host::{Settling, Sink, StdSink};
use std::alloc::{AllocError, Global};
use std::io;
use std::io::{ErrorKind, Write};

// Takes a byte at a time. It is interrupted at first, and once it is full it fails or takes nothing.
#[derive(Drop)]
struct SlowWriter {
    taken: Vec<u8>,
    interruptions: u32,
    room: usize,
    when_full: Option<ErrorKind>,
}

impl Write for SlowWriter {
    fn write(&mut self, piece: &[u8]) -> io::Result<usize> {
        if self.interruptions > 0 {
            self.interruptions -= 1;
            return Err(ErrorKind::Interrupted.into());
        }
        if self.taken.len() >= self.room {
            return match self.when_full {
                Some(kind) => Err(kind.into()),
                None => Ok(0),
            };
        }
        match piece.first() {
            Some(byte) => match self.taken.push(*byte) {
                Ok(()) => Ok(1),
                Err(_) => Err(ErrorKind::OutOfMemory.into()),
            },
            None => Ok(0),
        }
    }

    fn flush(&mut self) -> io::Result<()> {
        Ok(())
    }
}

fn settling(word: &str) -> Settling {
    match word {
        "piece" => Settling::EachPiece,
        "line" => Settling::EachLine,
        _ => Settling::WhenFull,
    }
}

fn error_kind(word: &str) -> Option<ErrorKind> {
    match word {
        "other" => Some(ErrorKind::Other),
        "memory" => Some(ErrorKind::OutOfMemory),
        "storage" => Some(ErrorKind::StorageFull),
        _ => None,
    }
}

/// Makes the calls on a sink over a slow writer, and appends a line for each, and what was written when the sink was dropped.
/// `AllocError` is want of memory.
pub fn push_writer(
    alloc: Global,
    text: &mut String,
    words: &str,
    calls: &str,
) -> Result<(), AllocError> {
    let mut writer = SlowWriter {
        taken: Vec::new(alloc),
        interruptions: number_at(words, 1),
        room: number_at(words, 2) as usize,
        when_full: error_kind(word_at(words, 3)),
    };
    let mut sink = StdSink::new(alloc, &mut writer, settling(word_at(words, 0)));
    let pushed = push_puts(alloc, text, &mut sink, calls);
    drop(sink);
    pushed?;
    push_held(text, "written", writer.taken.as_slice())
}

/// Puts a piece of a length so many times on a sink that settles when it is full, and appends how often it was put, how the flush went
/// and how many bytes were written. `AllocError` is want of memory.
pub fn push_many(
    alloc: Global,
    text: &mut String,
    length: u32,
    times: u32,
) -> Result<(), AllocError> {
    let mut piece = Vec::new(alloc);
    for _ in 0..length {
        piece.push(b'x')?;
    }
    let mut taken = Vec::new(alloc);
    let mut sink = StdSink::new(alloc, &mut taken, Settling::WhenFull);
    let count = put_often(&mut sink, &piece, times);
    let flushed = sink.flush();
    drop(sink);
    let written = taken.len();
    text.push_str(&format!(in alloc; " -> {count} put, flush ")?)?;
    push_done(text, flushed)?;
    text.push_str(&format!(in alloc; ", {written} written")?)
}

// How often a piece was put, of so many times.
fn put_often<S: Sink>(sink: &mut S, piece: &[u8], times: u32) -> u32 {
    let mut count = 0u32;
    for _ in 0..times {
        if sink.put(piece) == Ok(()) {
            count = count.saturating_add(1);
        }
    }
    count
}
