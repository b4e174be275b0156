// The lines of a file, one after another.
ghost use Rattle.std.specs.Prelude.{◌≡◌};
ghost use Rattle.std.specs.List.{All};
ghost use Rattle.icn_host.specs.FileMaps.{StoreState};
ghost use Rattle.icn_host.specs.Sinks.{SinkState};
ghost use Rattle.icn_value.specs.Values as values;
ghost use Rattle.icn_value.specs.declared.val.File.TheVariants.{Input, Opened};
ghost use Rattle.icn_value.specs.declared.val.Val.TheVariants.{Std};
ghost use Rattle.icn_defs.specs.Lines as rows;
ghost use Rattle.icn_heap.specs.Extents.{IsLive};
ghost use Rattle.icn_heap.specs.Heaps.{extent_of};
ghost use Rattle.icn_heap.specs.Keys.{file_of};
ghost use Rattle.icn_streams.specs.Answers.{call_state};
ghost use Rattle.icn_streams.specs.Applies.{Applies};
ghost use Rattle.icn_streams.specs.Handed.{CallStreams, call_streams};
ghost use Rattle.icn_streams.specs.Readings.{lines_from};
ghost use Rattle.icn_streams.specs.Settling.{IsSettled, IsSettledWhereRead};

use crate::access::{ReadFrom, readable};
use crate::ask::Ask;
use crate::opened::read_opened;
use crate::reading::read_text;
use crate::settling::settle;
use icn_host::{Sink, Source};
use icn_value::{File, Item, Residual, Val};
use icn_vars::{Halt, Locals, Outcome, World};

/// `!f`: the next line of a file, and then those behind it. Where that is the input, both outputs are settled before it is read. It
/// fails at the end. The buffer is room for the line.
///
/// # Errors
///
/// `Error` is 212 where the file is not open for reading, and 306. `ReadFault` where the input failed in this call, `WriteFault`
/// where an output did, `NoMemory` where memory ran out.
pub fn lines_row<L: Locals, I: Source, O: Sink, E: Sink>(
    file: File,
    w: &mut World,
    l: &L,
    buffer: &mut Vec<u8>,
    input: &mut I,
    out: &mut O,
    err: &mut E,
) -> Result<Outcome, Halt>
    requires locals { All (IsLive (extent_of w.old.heap)) (L.items l.now) }
    requires live { IsLive (extent_of w.old.heap) (Std file) }
    ensures row { (files : StoreState) → Applies (rows.lines_row (file_of file))
        (call_state w.old (L.items l.now)
        (call_streams files (I.left input.old) (I.counts input.old) (O.state out.old) (E.state err.old)))
        (call_state w.new (L.items l.now)
        (call_streams files (I.left input.new) (I.counts input.new) (O.state out.new) (E.state err.new)))
        result }
    ensures settled { file ≡ Input → IsSettled result (O.pending out.new) (E.pending err.new) }
{
    match readable(&w.heap, file) {
        Some(ReadFrom::Input) => input_lines(w, l, buffer, input, out, err),
        Some(ReadFrom::Opened(number)) => opened_lines(number, w, l),
        None => Err(Halt::Error(212, Some(Val::Std(file)))),
    }
}

// The next line of the input, once both outputs are settled.
fn input_lines<L: Locals, I: Source, O: Sink, E: Sink>(
    w: &mut World,
    l: &L,
    buffer: &mut Vec<u8>,
    input: &mut I,
    out: &mut O,
    err: &mut E,
) -> Result<Outcome, Halt>
    requires { All (IsLive (extent_of w.old.heap)) (L.items l.now) }
    ensures row { (files : StoreState) → Applies (rows.lines_row values.Input)
        (call_state w.old (L.items l.now)
        (call_streams files (I.left input.old) (I.counts input.old) (O.state out.old) (E.state err.old)))
        (call_state w.new (L.items l.now)
        (call_streams files (I.left input.new) (I.counts input.new) (O.state out.new) (E.state err.new)))
        result }
    ensures settled { IsSettled result (O.pending out.new) (E.pending err.new) }
{
    settle(out, err)?;
    next_line(w, l, buffer, input)
}

// The next line of the input.
fn next_line<L: Locals, I: Source>(
    w: &mut World,
    l: &L,
    buffer: &mut Vec<u8>,
    input: &mut I,
) -> Result<Outcome, Halt>
    requires { All (IsLive (extent_of w.old.heap)) (L.items l.now) }
    ensures { (files : StoreState) (output errors : SinkState)
        → Applies (rows.lines_row values.Input) (call_state w.old (L.items l.now)
        (call_streams files (I.left input.old) (I.counts input.old) output errors)) (call_state w.new
        (L.items l.now) (call_streams files (I.left input.new) (I.counts input.new) output errors)) result }
{
    match read_text(Ask::Line, w, l, buffer, input)? {
        Some(line) => Ok(Outcome::Suspends(
            Item::Val(Val::Text(line)),
            Residual::FileLines { file: File::Input },
        )),
        None => Ok(Outcome::Fails),
    }
}

// The next line of an opened file that may be read.
fn opened_lines<L: Locals>(number: u32, w: &mut World, l: &L) -> Result<Outcome, Halt>
    requires locals { All (IsLive (extent_of w.old.heap)) (L.items l.now) }
    requires file { IsLive (extent_of w.old.heap) (Std (Opened number)) }
    ensures { (handed : CallStreams) → Applies (lines_from number) (call_state w.old (L.items l.now) handed)
        (call_state w.new (L.items l.now) handed) result }
{
    match read_opened(Ask::Line, number, w, l)? {
        Some(line) => Ok(Outcome::Suspends(
            Item::Val(Val::Text(line)),
            Residual::FileLines {
                file: File::Opened(number),
            },
        )),
        None => Ok(Outcome::Fails),
    }
}
