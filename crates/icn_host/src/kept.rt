// A writer, and what is kept to be written.
ghost use Rattle.std.specs.Prelude.{◌≡◌, ◌≤◌, length, OnOk, OnErr};
ghost use Rattle.std.specs.Io.KnownBytes.{Keeps};
ghost use Rattle.icn_host.specs.Sinks.{Gains, GainsPart, StaysSettled};

use crate::fault::Fault;
use crate::retry::{write_some, write_whole};
use std::io::Write;

// No more bytes are kept.
const ROOM: usize = 65536;

// A writer, and the bytes that are kept, from `at` on.
#[derive(Drop)]
pub struct Kept<W> {
    writer: W,
    bytes: Vec<u8>,
    at: usize,
    ghost within: { at ≤ length bytes.items },
}

impl<W: Write> Kept<W> {
    ghost use Rattle.icn_host.specs.Writers.{kept_held, kept_pending};

    /// A writer, with room for what is kept.
    pub fn new(writer: W, room: Vec<u8>) -> Self
        requires { length room.items ≡ 0 }
        ensures held { Keeps (W.contents writer) (kept_held W.contents result) }
        ensures pending { kept_pending result ≡ 0 }
    {
        Kept {
            writer,
            bytes: room,
            at: 0,
        }
    }

    /// Writes what is kept. After a failure what was not written is kept still.
    pub fn flush(&mut self) -> Result<(), Fault>
        ensures same { Keeps (kept_held W.contents self.old) (kept_held W.contents self.new) }
        ensures settled { OnOk result (kept_pending self.new ≡ 0) }
        ensures kept { kept_pending self.new ≤ kept_pending self.old }
    {
        while self.at < self.bytes.len() {
            let count = write_some(&mut self.writer, &self.bytes[self.at..])?;
            self.at += count;
        }
        self.at = 0;
        self.bytes.clear();
        Ok(())
    }

    /// Keeps or writes the piece, and writes all where that is due. The error is that of the writer; some first part of the
    /// piece is kept or written then.
    pub fn put_settling(&mut self, piece: &[u8], is_due: bool) -> Result<(), Fault>
        ensures ok { OnOk result
            (Gains (kept_held W.contents self.old) (kept_held W.contents self.new) piece.now) }
        ensures err { OnErr result
            (GainsPart (kept_held W.contents self.old) (kept_held W.contents self.new) piece.now) }
        ensures settled { StaysSettled (kept_held W.contents self.old) (kept_held W.contents self.new)
            (kept_pending self.old) (kept_pending self.new) }
    {
        self.put(piece)?;
        if is_due {
            self.flush()?;
        }
        Ok(())
    }

    // Keeps the piece, where there is room for it behind what is kept, or else writes both.
    fn put(&mut self, piece: &[u8]) -> Result<(), Fault>
        ensures ok { OnOk result
            (Gains (kept_held W.contents self.old) (kept_held W.contents self.new) piece.now) }
        ensures err { OnErr result
            (GainsPart (kept_held W.contents self.old) (kept_held W.contents self.new) piece.now) }
        ensures settled { StaysSettled (kept_held W.contents self.old) (kept_held W.contents self.new)
            (kept_pending self.old) (kept_pending self.new) }
    {
        if piece.len() > ROOM.saturating_sub(self.bytes.len()) {
            self.flush()?;
        }
        self.put_behind(piece)
    }

    // Keeps a piece that is not too long, where there is memory for it, or else writes it behind what is kept.
    fn put_behind(&mut self, piece: &[u8]) -> Result<(), Fault>
        ensures ok { OnOk result
            (Gains (kept_held W.contents self.old) (kept_held W.contents self.new) piece.now) }
        ensures err { OnErr result
            (GainsPart (kept_held W.contents self.old) (kept_held W.contents self.new) piece.now) }
        ensures settled { StaysSettled (kept_held W.contents self.old) (kept_held W.contents self.new)
            (kept_pending self.old) (kept_pending self.new) }
    {
        if piece.len() > ROOM {
            return self.write_behind(piece);
        }
        match self.bytes.extend_from_slice(piece) {
            Ok(()) => Ok(()),
            Err(_) => self.write_behind(piece),
        }
    }

    // Writes a piece behind what is kept.
    fn write_behind(&mut self, piece: &[u8]) -> Result<(), Fault>
        ensures ok { OnOk result
            (Gains (kept_held W.contents self.old) (kept_held W.contents self.new) piece.now) }
        ensures err { OnErr result
            (GainsPart (kept_held W.contents self.old) (kept_held W.contents self.new) piece.now) }
        ensures settled { StaysSettled (kept_held W.contents self.old) (kept_held W.contents self.new)
            (kept_pending self.old) (kept_pending self.new) }
    {
        self.flush()?;
        write_whole(&mut self.writer, piece)
    }
}
