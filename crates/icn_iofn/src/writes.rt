// Writing.
ghost use Rattle.std.specs.Prelude.{◌≡◌, ℕ, List, Option, map};
ghost use Rattle.std.specs.List.{All};
ghost use Rattle.icn_host.specs.FileMaps.{StoreState};
ghost use Rattle.icn_host.specs.Sources.{SourceCounts};
ghost use Rattle.icn_defs.specs.InputOutput as rows;
ghost use Rattle.icn_heap.specs.Extents.{Extent, IsLive, value_in};
ghost use Rattle.icn_heap.specs.Heaps.{extent_of};
ghost use Rattle.icn_vars.specs.Outcomes.{answer_of};
ghost use Rattle.icn_streams.specs.Answers.{call_state};
ghost use Rattle.icn_streams.specs.Applies.{Applies};
ghost use Rattle.icn_streams.specs.Handed.{call_streams};
ghost use Rattle.icn_iofn.specs.WriteRows.{write_by};

use crate::pieces::check_pieces;
use crate::putting::put_line;
use icn_args::arg;
use icn_host::{Fault, Sink};
use icn_value::{File, Val};
use icn_vars::{Halt, Locals, ValueOutcome, World};

/// `write(x, ..)`: puts its arguments as a line. It gives its last argument, or null. The errors are 109 about a value that is
/// neither a text nor a file nor null, and 213 about a file that is not open for writing. All arguments are checked before anything
/// is put.
pub fn write<L: Locals, O: Sink, E: Sink>(
    vals: &[Val],
    w: &mut World,
    l: &L,
    buffer: &mut Vec<u8>,
    out: &mut O,
    err: &mut E,
) -> Result<ValueOutcome, Halt>
    requires locals { All (IsLive (extent_of w.old.heap)) (L.items l.now) }
    requires live { All (IsLive (extent_of w.old.heap)) vals.now }
    ensures { (files : StoreState) (left : Option (List ℕ)) (counts : SourceCounts)
        → Applies (rows.write_row (map (value_in (extent_of w.old.heap)) vals.now))
        (call_state w.old (L.items l.now)
        (call_streams files left counts (O.state out.old) (E.state err.old)))
        (call_state w.new (L.items l.now)
        (call_streams files left counts (O.state out.new) (E.state err.new)))
        (answer_of result) }
{
    put_all(true, vals, w, l, buffer, out, err)
}

/// `writes(x, ..)`: puts its arguments, and ends no line. It gives its last argument, or null. The errors are those of `write`.
pub fn writes<L: Locals, O: Sink, E: Sink>(
    vals: &[Val],
    w: &mut World,
    l: &L,
    buffer: &mut Vec<u8>,
    out: &mut O,
    err: &mut E,
) -> Result<ValueOutcome, Halt>
    requires locals { All (IsLive (extent_of w.old.heap)) (L.items l.now) }
    requires live { All (IsLive (extent_of w.old.heap)) vals.now }
    ensures { (files : StoreState) (left : Option (List ℕ)) (counts : SourceCounts)
        → Applies (rows.writes_row (map (value_in (extent_of w.old.heap)) vals.now))
        (call_state w.old (L.items l.now)
        (call_streams files left counts (O.state out.old) (E.state err.old)))
        (call_state w.new (L.items l.now)
        (call_streams files left counts (O.state out.new) (E.state err.new)))
        (answer_of result) }
{
    put_all(false, vals, w, l, buffer, out, err)
}

// Puts the arguments, which are checked first, and ends a line where lines end.
fn put_all<L: Locals, O: Sink, E: Sink>(
    ends: bool,
    vals: &[Val],
    w: &mut World,
    l: &L,
    buffer: &mut Vec<u8>,
    out: &mut O,
    err: &mut E,
) -> Result<ValueOutcome, Halt>
    requires locals { All (IsLive (extent_of w.old.heap)) (L.items l.now) }
    requires live { All (IsLive (extent_of w.old.heap)) vals.now }
    ensures { (files : StoreState) (left : Option (List ℕ)) (counts : SourceCounts)
        → Applies (write_by ends (map (value_in (extent_of w.old.heap)) vals.now))
        (call_state w.old (L.items l.now)
        (call_streams files left counts (O.state out.old) (E.state err.old)))
        (call_state w.new (L.items l.now)
        (call_streams files left counts (O.state out.new) (E.state err.new)))
        (answer_of result) }
{
    check_pieces(&w.heap, vals)?;
    match put_line(w, l, vals, ends, File::Output, buffer, out, err) {
        Ok(()) => Ok(ValueOutcome::Gives(last_of(vals))),
        Err(Fault::Failed) => Err(Halt::WriteFault),
        Err(Fault::NoMemory) => Err(Halt::NoMemory),
    }
}

/// `stop(x, ..)`: what `write` puts is put from the error output on, and the program ends with status 1. The errors are those of
/// `write`.
pub fn stop<L: Locals, O: Sink, E: Sink>(
    vals: &[Val],
    w: &mut World,
    l: &L,
    buffer: &mut Vec<u8>,
    out: &mut O,
    err: &mut E,
) -> Result<ValueOutcome, Halt>
    requires locals { All (IsLive (extent_of w.old.heap)) (L.items l.now) }
    requires live { All (IsLive (extent_of w.old.heap)) vals.now }
    ensures { (files : StoreState) (left : Option (List ℕ)) (counts : SourceCounts)
        → Applies (rows.stop_row (map (value_in (extent_of w.old.heap)) vals.now))
        (call_state w.old (L.items l.now)
        (call_streams files left counts (O.state out.old) (E.state err.old)))
        (call_state w.new (L.items l.now)
        (call_streams files left counts (O.state out.new) (E.state err.new)))
        (answer_of result) }
{
    check_pieces(&w.heap, vals)?;
    match put_line(w, l, vals, true, File::Errout, buffer, out, err) {
        Ok(()) => Err(Halt::Ends(1)),
        Err(Fault::Failed) => Err(Halt::WriteFault),
        Err(Fault::NoMemory) => Err(Halt::NoMemory),
    }
}

// The last argument, or null.
fn last_of(vals: &[Val]) -> Val
    ensures value { (all : Extent) → value_in all result ≡ rows.last_of (map (value_in all) vals.now) }
    ensures live { (all : Extent) → All (IsLive all) vals.now → IsLive all result }
{
    if vals.is_empty() {
        return Val::Null;
    }
    arg(vals, vals.len() - 1)
}
