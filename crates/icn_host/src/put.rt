// Puts of lines.
ghost use Rattle.std.specs.Prelude.{◌≡◌, ◌≤◌, OnOk, IfErr, IsErrOf};
ghost use Rattle.icn_host.specs.Counts.{CountsOnce};
ghost use Rattle.icn_host.specs.Puts.{Puts, PutsAll, StopsBy};

use crate::fault::Fault;
use crate::traits::Sink;

/// Puts a line, if it is not empty, and settles all.
///
/// # Errors
///
/// The sink's: a part of the line was put then.
pub fn put_line<E: Sink>(line: &[u8], err: &mut E) -> Result<(), Fault>
    ensures ok { OnOk result (PutsAll (E.state err.old) (E.state err.new) line.now) }
    ensures err { IfErr result (λ fault. StopsBy fault (E.state err.old) (E.state err.new) line.now) }
    ensures settled { OnOk result (E.pending err.new ≡ 0) }
    ensures cause { CountsOnce (E.state err.old).faults (E.state err.new).faults
        (IsErrOf result Fault.Failed) }
    ensures want { CountsOnce (E.state err.old).wants (E.state err.new).wants
        (IsErrOf result Fault.NoMemory) }
{
    put_piece(line, err)?;
    err.flush()
}

// Puts a piece, if it is not empty.
fn put_piece<E: Sink>(piece: &[u8], err: &mut E) -> Result<(), Fault>
    ensures ok { OnOk result (PutsAll (E.state err.old) (E.state err.new) piece.now) }
    ensures err { IfErr result (λ fault. StopsBy fault (E.state err.old) (E.state err.new) piece.now) }
    ensures cause { CountsOnce (E.state err.old).faults (E.state err.new).faults
        (IsErrOf result Fault.Failed) }
    ensures want { CountsOnce (E.state err.old).wants (E.state err.new).wants
        (IsErrOf result Fault.NoMemory) }
{
    if piece.is_empty() {
        return Ok(());
    }
    err.put(piece)
}

/// Puts a line as far as it can be put, and settles as much as can be settled.
pub fn try_put<E: Sink>(line: &[u8], err: &mut E)
    ensures puts { Puts (E.state err.old) (E.state err.new) line.now }
    ensures faults { (E.state err.old).faults ≤ (E.state err.new).faults }
    ensures wants { (E.state err.old).wants ≤ (E.state err.new).wants }
{
    let _ = put_line(line, err);
}
