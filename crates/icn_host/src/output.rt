// A writer as a sink.
ghost use Rattle.std.specs.Prelude.{◌≡◌, IsErrOf};
ghost use Rattle.std.specs.Io.KnownBytes.{Keeps};
ghost use Rattle.icn_host.specs.Counts.{CountsOnce};
ghost use Rattle.icn_host.specs.Sinks.{sink_state};

use crate::fault::Fault;
use crate::kept::Kept;
use crate::traits::Sink;
use std::alloc::Global;
use std::io::Write;

/// When a sink settles what it accepted, unless it is flushed before.
#[derive(Clone, Copy, Debug, PartialEq, Eq)]
pub enum Settling {
    /// Behind each piece.
    EachPiece,

    /// Behind each piece with a newline in it.
    EachLine,

    /// Where it has no room left.
    WhenFull,
}

impl Settling {
    // Whether a sink settles behind this piece.
    fn is_due(self, piece: &[u8]) -> bool {
        match self {
            Settling::EachPiece => true,
            Settling::EachLine => piece.contains(&b'\n'),
            Settling::WhenFull => false,
        }
    }
}

/// A writer as a sink, for a standard output. It keeps at most 65536 bytes, and then it writes them. Where the writer tells
/// what it holds, the sink tells that and what it keeps.
///
/// Its count of faults rises at each error of the writer but want of memory. A write that takes nothing of a piece
/// that is not empty is such an error, and so is an interruption after 1000 others in a row. Its count of wants rises
/// where the writer wants memory.
#[derive(Drop)]
pub struct StdSink<W> {
    kept: Kept<W>,
    settling: Settling,
    faults: u64,
    wants: u64,
}

impl<W: Write> StdSink<W> {
    ghost use Rattle.icn_host.specs.Writers.{sink_held};

    /// The sink over this writer. Nothing is written yet, and no memory taken.
    pub fn new(alloc: Global, writer: W, settling: Settling) -> Self
        ensures held { Keeps (W.contents writer) (sink_held W.contents result) }
        ensures pending { ⟦<StdSink<W> as Sink>⟧.pending result ≡ 0 }
        ensures faults { (⟦<StdSink<W> as Sink>⟧.state result).faults ≡ 0 }
        ensures wants { (⟦<StdSink<W> as Sink>⟧.state result).wants ≡ 0 }
    {
        StdSink {
            kept: Kept::new(writer, Vec::new(alloc)),
            settling,
            faults: 0,
            wants: 0,
        }
    }

    // Counts what a call came to.
    fn count_answer(&mut self, answer: Result<(), Fault>) -> Result<(), Fault>
        ensures same { result ≡ answer }
        ensures kept { self.new.kept ≡ self.old.kept }
        ensures cause { CountsOnce (⟦<StdSink<W> as Sink>⟧.state self.old).faults
            (⟦<StdSink<W> as Sink>⟧.state self.new).faults (IsErrOf answer Fault.Failed) }
        ensures want { CountsOnce (⟦<StdSink<W> as Sink>⟧.state self.old).wants
            (⟦<StdSink<W> as Sink>⟧.state self.new).wants (IsErrOf answer Fault.NoMemory) }
    {
        match answer {
            Err(Fault::Failed) => self.faults = self.faults.saturating_add(1),
            Err(Fault::NoMemory) => self.wants = self.wants.saturating_add(1),
            Ok(()) => {}
        }
        answer
    }
}

impl<W: Write> Sink for StdSink<W> {
    ghost use Rattle.icn_host.specs.Writers.{sink_held, sink_pending};

    ghost state = { λ s. sink_state (sink_held W.contents s) s.faults s.wants };

    ghost pending = { λ s. sink_pending s };

    fn put(&mut self, piece: &[u8]) -> Result<(), Fault> {
        let is_due = self.settling.is_due(piece);
        let answer = self.kept.put_settling(piece, is_due);
        self.count_answer(answer)
    }

    fn flush(&mut self) -> Result<(), Fault> {
        let answer = self.kept.flush();
        self.count_answer(answer)
    }
}
