// Reading.
ghost use Rattle.std.specs.Prelude.{◌≡◌, map};
ghost use Rattle.std.specs.List.{All};
ghost use Rattle.icn_host.specs.FileMaps.{StoreState};
ghost use Rattle.icn_host.specs.Sinks.{SinkState};
ghost use Rattle.icn_value.specs.declared.val.File.TheVariants.{Input, Opened};
ghost use Rattle.icn_value.specs.declared.val.Val.TheVariants.{Std};
ghost use Rattle.icn_defs.specs.InputOutput as rows;
ghost use Rattle.icn_heap.specs.Extents.{IsLive, value_in};
ghost use Rattle.icn_heap.specs.Heaps.{extent_of};
ghost use Rattle.icn_heap.specs.Keys as keys;
ghost use Rattle.icn_vars.specs.Outcomes.{answer_of};
ghost use Rattle.icn_streams.specs.Answers.{call_state};
ghost use Rattle.icn_streams.specs.Applies.{Applies};
ghost use Rattle.icn_streams.specs.Handed.{CallStreams, call_streams};
ghost use Rattle.icn_streams.specs.Readings.{asked_in};
ghost use Rattle.icn_streams.specs.Settling.{IsSettled, IsSettledWhereRead, ReadsInput};
ghost use Rattle.icn_iofn.specs.ReadParts.{read_from, reads_input, reads_opened};

use crate::arguments::{count_arg, file_arg};
use icn_args::arg;
use icn_host::{Sink, Source};
use icn_streams::{Ask, ReadFrom, read_opened, read_text, readable, settle};
use icn_value::{File, Val};
use icn_vars::{Halt, Locals, ValueOutcome, World};

/// `read(f)`: the next line. It fails at the end of the file. The errors are 105 about a value that is no file, 212 about a file
/// that is not open for reading, and 306. Both outputs are settled before the input is read.
pub fn read<L: Locals, I: Source, O: Sink, E: Sink>(
    vals: &[Val],
    w: &mut World,
    l: &L,
    buffer: &mut Vec<u8>,
    input: &mut I,
    out: &mut O,
    err: &mut E,
) -> Result<ValueOutcome, Halt>
    requires locals { All (IsLive (extent_of w.old.heap)) (L.items l.now) }
    requires live { All (IsLive (extent_of w.old.heap)) vals.now }
    ensures row { (files : StoreState) → Applies
        (rows.read_row (map (value_in (extent_of w.old.heap)) vals.now)) (call_state w.old
        (L.items l.now)
        (call_streams files (I.left input.old) (I.counts input.old) (O.state out.old) (E.state err.old)))
        (call_state w.new (L.items l.now)
        (call_streams files (I.left input.new) (I.counts input.new) (O.state out.new) (E.state err.new)))
        (answer_of result) }
    ensures settled { ReadsInput (map (value_in (extent_of w.old.heap)) vals.now)
        → IsSettledWhereRead result (O.pending out.new) (E.pending err.new) }
{
    let file = file_arg(vals)?;
    read_from(Ask::Line, file, arg(vals, 0), w, l, buffer, input, out, err)
}

/// `reads(f, i)`: the next bytes, one or so many, or all where fewer are left. It fails at the end of the file. The errors are
/// 105, 101 about a value that is no integer, 205 about a number that is not above 0, 212 and 306, whichever comes first.
pub fn reads<L: Locals, I: Source, O: Sink, E: Sink>(
    vals: &[Val],
    w: &mut World,
    l: &L,
    buffer: &mut Vec<u8>,
    input: &mut I,
    out: &mut O,
    err: &mut E,
) -> Result<ValueOutcome, Halt>
    requires locals { All (IsLive (extent_of w.old.heap)) (L.items l.now) }
    requires live { All (IsLive (extent_of w.old.heap)) vals.now }
    ensures row { (files : StoreState) → Applies
        (rows.reads_row (map (value_in (extent_of w.old.heap)) vals.now)) (call_state w.old
        (L.items l.now)
        (call_streams files (I.left input.old) (I.counts input.old) (O.state out.old) (E.state err.old)))
        (call_state w.new (L.items l.now)
        (call_streams files (I.left input.new) (I.counts input.new) (O.state out.new) (E.state err.new)))
        (answer_of result) }
    ensures settled { ReadsInput (map (value_in (extent_of w.old.heap)) vals.now)
        → IsSettledWhereRead result (O.pending out.new) (E.pending err.new) }
{
    let file = file_arg(vals)?;
    let count = count_arg(&w.heap, vals)?;
    read_from(
        Ask::Bytes(count),
        file,
        arg(vals, 0),
        w,
        l,
        buffer,
        input,
        out,
        err,
    )
}

// Reads a text from a file: 212 where that is not open for reading.
fn read_from<L: Locals, I: Source, O: Sink, E: Sink>(
    ask: Ask,
    file: File,
    named: Val,
    w: &mut World,
    l: &L,
    buffer: &mut Vec<u8>,
    input: &mut I,
    out: &mut O,
    err: &mut E,
) -> Result<ValueOutcome, Halt>
    requires locals { All (IsLive (extent_of w.old.heap)) (L.items l.now) }
    requires file { IsLive (extent_of w.old.heap) (Std file) }
    requires live { IsLive (extent_of w.old.heap) named }
    ensures row { (files : StoreState) → Applies
        (read_from (asked_in ask) (keys.file_of file) (value_in (extent_of w.old.heap) named))
        (call_state w.old (L.items l.now)
        (call_streams files (I.left input.old) (I.counts input.old) (O.state out.old) (E.state err.old)))
        (call_state w.new (L.items l.now)
        (call_streams files (I.left input.new) (I.counts input.new) (O.state out.new) (E.state err.new)))
        (answer_of result) }
    ensures settled { file ≡ Input → IsSettled result (O.pending out.new) (E.pending err.new) }
{
    match readable(&w.heap, file) {
        Some(ReadFrom::Input) => read_input(ask, w, l, buffer, input, out, err),
        Some(ReadFrom::Opened(number)) => give_opened(ask, number, w, l),
        None => Err(Halt::Error(212, Some(named))),
    }
}

// Settles both outputs, reads a text from the input, and gives it.
fn read_input<L: Locals, I: Source, O: Sink, E: Sink>(
    ask: Ask,
    w: &mut World,
    l: &L,
    buffer: &mut Vec<u8>,
    input: &mut I,
    out: &mut O,
    err: &mut E,
) -> Result<ValueOutcome, Halt>
    requires { All (IsLive (extent_of w.old.heap)) (L.items l.now) }
    ensures row { (files : StoreState) → Applies (reads_input (asked_in ask))
        (call_state w.old (L.items l.now)
        (call_streams files (I.left input.old) (I.counts input.old) (O.state out.old) (E.state err.old)))
        (call_state w.new (L.items l.now)
        (call_streams files (I.left input.new) (I.counts input.new) (O.state out.new) (E.state err.new)))
        (answer_of result) }
    ensures settled { IsSettled result (O.pending out.new) (E.pending err.new) }
{
    settle(out, err)?;
    give_text(ask, w, l, buffer, input)
}

// Reads a text from the input, and gives it.
fn give_text<L: Locals, I: Source>(
    ask: Ask,
    w: &mut World,
    l: &L,
    buffer: &mut Vec<u8>,
    input: &mut I,
) -> Result<ValueOutcome, Halt>
    requires { All (IsLive (extent_of w.old.heap)) (L.items l.now) }
    ensures { (files : StoreState) (output errors : SinkState)
        → Applies (reads_input (asked_in ask)) (call_state w.old
        (L.items l.now) (call_streams files (I.left input.old) (I.counts input.old) output errors))
        (call_state w.new (L.items l.now)
        (call_streams files (I.left input.new) (I.counts input.new) output errors)) (answer_of result) }
{
    match read_text(ask, w, l, buffer, input)? {
        Some(text) => Ok(ValueOutcome::Gives(Val::Text(text))),
        None => Ok(ValueOutcome::Fails),
    }
}

// Reads a text from an opened file that may be read, and gives it.
fn give_opened<L: Locals>(ask: Ask, number: u32, w: &mut World, l: &L) -> Result<ValueOutcome, Halt>
    requires locals { All (IsLive (extent_of w.old.heap)) (L.items l.now) }
    requires file { IsLive (extent_of w.old.heap) (Std (Opened number)) }
    ensures { (handed : CallStreams) → Applies (reads_opened (asked_in ask) number)
        (call_state w.old (L.items l.now) handed) (call_state w.new (L.items l.now) handed) (answer_of result) }
{
    match read_opened(ask, number, w, l)? {
        Some(text) => Ok(ValueOutcome::Gives(Val::Text(text))),
        None => Ok(ValueOutcome::Fails),
    }
}
