// Calls of the system, made again where they are interrupted.
ghost use Rattle.std.specs.Prelude.{◌≡◌, ◌↔◌, ℕ, ◌<◌, ◌≤◌, length, take, IfOk, OnOk, OnErr};
ghost use Rattle.std.specs.Io.KnownBytes.{Consumes, IsAtEnd, Keeps};
ghost use Rattle.std.specs.IoError.{error_kind};
ghost use Rattle.icn_host.specs.Sinks.{Gains, GainsPart};

use crate::fault::Fault;
use std::io;
use std::io::{ErrorKind, Read, Write};

// An interrupted call is made again at most so often in a row.
pub const RETRIES: u32 = 1000;

/// Want of memory is told apart from every other error.
pub fn fault_of(error: &io::Error) -> Fault
    ensures { (result ≡ Fault.NoMemory) ↔ (error_kind error.now ≡ ErrorKind.OutOfMemory) }
{
    match error.kind() {
        ErrorKind::OutOfMemory => Fault::NoMemory,
        _ => Fault::Failed,
    }
}

/// Fills a part of the buffer from its start: none of it at the end of the input. After an error nothing was taken.
pub fn read_some<R: Read>(reader: &mut R, buffer: &mut [u8]) -> Result<usize, Fault>
    ensures within { IfOk result (λ n. n ≤ length buffer.new) }
    ensures taken { IfOk result
        (λ n. Consumes (R.remaining reader.old) (R.remaining reader.new) (take n buffer.new)) }
    ensures end { IfOk result (λ n. n ≡ 0 → 0 < length buffer.old → IsAtEnd (R.remaining reader.new)) }
    ensures same { OnErr result (Keeps (R.remaining reader.old) (R.remaining reader.new)) }
{
    for _ in 0..=RETRIES {
        match reader.read(buffer) {
            Ok(n) => return Ok(n),
            Err(e) if e.kind() == ErrorKind::Interrupted => {}
            Err(e) => return Err(fault_of(&e)),
        }
    }
    Err(Fault::Failed)
}

/// Writes a part of the piece from its start, at least a byte. After an error nothing was written.
pub fn write_some<W: Write>(writer: &mut W, piece: &[u8]) -> Result<usize, Fault>
    ensures within { IfOk result (λ n. (0 < n) × (n ≤ length piece.now)) }
    ensures gains { IfOk result
        (λ n. Gains (W.contents writer.old) (W.contents writer.new) (take n piece.now)) }
    ensures same { OnErr result (Keeps (W.contents writer.old) (W.contents writer.new)) }
{
    for _ in 0..=RETRIES {
        match writer.write(piece) {
            Ok(0) => return Err(Fault::Failed),
            Ok(n) => return Ok(n),
            Err(e) if e.kind() == ErrorKind::Interrupted => {}
            Err(e) => return Err(fault_of(&e)),
        }
    }
    Err(Fault::Failed)
}

/// Writes the piece. After an error a first part of it was written.
pub fn write_whole<W: Write>(writer: &mut W, piece: &[u8]) -> Result<(), Fault>
    ensures ok { OnOk result (Gains (W.contents writer.old) (W.contents writer.new) piece.now) }
    ensures err { OnErr result (GainsPart (W.contents writer.old) (W.contents writer.new) piece.now) }
{
    let mut rest = piece;
    while !rest.is_empty() {
        let n = write_some(writer, rest)?;
        rest = rest.split_at(n).1;
    }
    Ok(())
}
