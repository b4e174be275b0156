// Closing a file.
ghost use Rattle.std.specs.Prelude.{◌≡◌, ℕ, List, Option, IfErr, map, true};
ghost use Rattle.std.specs.List.{All};
ghost use Rattle.icn_host.specs.Sources.{SourceCounts};
ghost use Rattle.icn_value.specs.declared.val.File.TheVariants.{Opened};
ghost use Rattle.icn_value.specs.declared.val.Val.TheVariants.{Std};
ghost use Rattle.icn_value.specs.Store.{Outside, file_at, having_heap};
ghost use Rattle.icn_value.specs.Changes.{shut};
ghost use Rattle.icn_defs.specs.Files as rows;
ghost use Rattle.icn_defs.specs.OpenFiles.{is_open_to_write};
ghost use Rattle.icn_heap.specs.Extents.{IsLive, value_in};
ghost use Rattle.icn_heap.specs.Heaps.{extent_of, heap_of};
ghost use Rattle.icn_heap.specs.Keys.{file_of};
ghost use Rattle.icn_streams.specs.Answers.{call_state};
ghost use Rattle.icn_streams.specs.Applies.{Applies};
ghost use Rattle.icn_streams.specs.Handed.{call_streams};
ghost use Rattle.icn_streams.specs.Settling.{IsSettled};
ghost use Rattle.icn_vars.specs.Outcomes.{answer_of};
ghost use Rattle.icn_vars.specs.Worlds.{KeepsLive, setting_of};
ghost use Rattle.icn_filefn.specs.ClosedFiles.{ClosesBy};
ghost use Rattle.icn_filefn.specs.OpenParts.{closes_then};

use crate::writing::write_out;
use icn_args::{arg, file_of};
use icn_heap::FileEntry;
use icn_host::{Fault, Files, Sink};
use icn_streams::{is_open_to_write, settle};
use icn_value::{File, Val};
use icn_vars::{Halt, Locals, ValueOutcome, World};

/// `close(f)`: a file that is open to be written is written, once both outputs are settled, and what it holds is let go. Standard files
/// and closed ones are left as they are. It gives the file. The error is 105 about a value that is no file.
pub fn close_row<L: Locals, F: Files, O: Sink, E: Sink>(
    vals: &[Val],
    w: &mut World,
    l: &L,
    files: &mut F,
    out: &mut O,
    err: &mut E,
) -> Result<ValueOutcome, Halt>
    requires locals { All (IsLive (extent_of w.old.heap)) (L.items l.now) }
    requires live { All (IsLive (extent_of w.old.heap)) vals.now }
    ensures { (left : Option (List ℕ)) (counts : SourceCounts)
        → Applies (rows.close_row (map (value_in (extent_of w.old.heap)) vals.now))
        (call_state w.old (L.items l.now)
        (call_streams (F.state files.old) left counts (O.state out.old) (E.state err.old)))
        (call_state w.new (L.items l.now)
        (call_streams (F.state files.new) left counts (O.state out.new) (E.state err.new))) (answer_of result) }
{
    let file = file_of(arg(vals, 0))?;
    match file {
        File::Opened(number) => close_opened(number, w, l, files, out, err),
        _ => Ok(ValueOutcome::Gives(Val::Std(file))),
    }
}

// Closes an opened file, and gives it.
fn close_opened<L: Locals, F: Files, O: Sink, E: Sink>(
    number: u32,
    w: &mut World,
    l: &L,
    files: &mut F,
    out: &mut O,
    err: &mut E,
) -> Result<ValueOutcome, Halt>
    requires locals { All (IsLive (extent_of w.old.heap)) (L.items l.now) }
    requires file { IsLive (extent_of w.old.heap) (Std (Opened number)) }
    ensures applies { (left : Option (List ℕ)) (counts : SourceCounts)
        → Applies (closes_then (file_of (Opened number)))
        (call_state w.old (L.items l.now)
        (call_streams (F.state files.old) left counts (O.state out.old) (E.state err.old)))
        (call_state w.new (L.items l.now)
        (call_streams (F.state files.new) left counts (O.state out.new) (E.state err.new))) (answer_of result) }
    ensures settled { is_open_to_write (file_at (heap_of w.old.heap) number) ≡ true
        → IsSettled result (O.pending out.new) (E.pending err.new) }
{
    write_closed(w.heap.file(number), files, out, err)?;
    shut_file(number, w, l);
    Ok(ValueOutcome::Gives(Val::Std(File::Opened(number))))
}

// Writes a file that is to be closed, if it is open to be written, once both outputs are settled.
fn write_closed<F: Files, O: Sink, E: Sink>(
    file: &FileEntry,
    files: &mut F,
    out: &mut O,
    err: &mut E,
) -> Result<(), Halt>
    ensures closes { (left : Option (List ℕ)) (counts : SourceCounts) → ClosesBy file.now
        (call_streams (F.state files.old) left counts (O.state out.old) (E.state err.old))
        (call_streams (F.state files.new) left counts (O.state out.new) (E.state err.new)) result }
    ensures asked { IfErr result (λ halt. is_open_to_write file.now ≡ true) }
    ensures settled { is_open_to_write file.now ≡ true
        → IsSettled result (O.pending out.new) (E.pending err.new) }
{
    if !is_open_to_write(file) {
        return Ok(());
    }
    settle(out, err)?;
    match write_out(file, files) {
        Ok(()) => Ok(()),
        Err(Fault::Failed) => Err(Halt::FileFault),
        Err(Fault::NoMemory) => Err(Halt::NoMemory),
    }
}

// Closes a file of the heap, which holds nothing then.
#[tactic(auto, using(icn_vars::proofs::GrowingWorlds::grows, icn_vars::proofs::GrowingWorlds::locals_grow))]
fn shut_file<L: Locals>(number: u32, w: &mut World, l: &L)
    requires locals { All (IsLive (extent_of w.old.heap)) (L.items l.now) }
    requires file { IsLive (extent_of w.old.heap) (Std (Opened number)) }
    ensures step { (outside : Outside) → setting_of outside w.new (L.items l.now)
        ≡ having_heap (shut number) (setting_of outside w.old (L.items l.now)) }
    ensures kept { KeepsLive w.old (L.items l.now) w.new (L.items l.now) }
{
    w.heap.shut(number);
}
