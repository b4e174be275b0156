// Putting the pieces of a line.
ghost use Rattle.std.specs.Prelude.{◌≡◌, ◌<◌, ◌&&◌, ◌++◌, [], IfErr, IfOk, OnErr, OnOk, length, map, not, true, if◌then◌else◌};
ghost use Rattle.std.specs.List.{All};
ghost use Rattle.icn_defs.specs.InputOutput.{line_put, newline, put_on};
ghost use Rattle.icn_value.specs.Store.{Outside, having_heap};
ghost use Rattle.icn_value.specs.Changes.{added_to};
ghost use Rattle.icn_value.specs.declared.val.File.TheVariants.{Opened};
ghost use Rattle.icn_value.specs.declared.val.Val.TheVariants.{Std};
ghost use Rattle.icn_heap.specs.Extents.{IsLive, value_in};
ghost use Rattle.icn_heap.specs.Heaps.{extent_of};
ghost use Rattle.icn_heap.specs.Keys as keys;
ghost use Rattle.icn_vars.specs.Worlds.{KeepsLive, setting_of};
ghost use Rattle.icn_args.specs.RowWords.{the_text};
ghost use Rattle.icn_iofn.specs.PutPieces.{HasEffect, BrokenBy, GainsOutputs, GainedPart, HasPut, IsOneSettled, IsSettledBeside, KeepsBoth, PutsBehind, PutsPartBehind, PutsPartOn, StopsEffect, file_after, outputs, piece_in, pieces_in, put_state, text_of_piece, waiting_text};

use crate::members::push_members;
use icn_heap::Heap;
use icn_host::{Fault, Sink};
use icn_text::decimal;
use icn_value::{File, Val};
use icn_vars::{Locals, World};
use std::alloc::AllocError;

/// Puts the arguments as the pieces of a line, which begins on a file, and what ends it. What goes to one file before another one
/// is selected is put as one piece, if it is not empty; the buffer is room for it. To an opened file it is added, in the heap.
///
/// # Errors
///
/// `Failed` where an output failed, `NoMemory` where an output, the buffer or an opened file wanted memory. Each output has gained
/// some first part of what is put there.
pub fn put_line<L: Locals, O: Sink, E: Sink>(
    w: &mut World,
    l: &L,
    vals: &[Val],
    ends: bool,
    file: File,
    buffer: &mut Vec<u8>,
    out: &mut O,
    err: &mut E,
) -> Result<(), Fault>
    requires locals { All (IsLive (extent_of w.old.heap)) (L.items l.now) }
    requires live { All (IsLive (extent_of w.old.heap)) vals.now }
    requires file { IsLive (extent_of w.old.heap) (Std file) }
    ensures ok { OnOk result ((was : Outside) → HasPut
        (put_state w.old (L.items l.now) (outputs (O.state out.old) (E.state err.old)))
        (put_state w.new (L.items l.now) (outputs (O.state out.new) (E.state err.new))) was
        (line_put (if ends then newline else []) true
        (pieces_in (map (value_in (extent_of w.old.heap)) vals.now)) (keys.file_of file))) }
    ensures counts { OnOk result (KeepsBoth (outputs (O.state out.old) (E.state err.old))
        (outputs (O.state out.new) (E.state err.new))) }
    ensures err { OnErr result ((was : Outside) → GainedPart (outputs (O.state out.old) (E.state err.old))
        (outputs (O.state out.new) (E.state err.new)) was
        (line_put (if ends then newline else []) true
        (pieces_in (map (value_in (extent_of w.old.heap)) vals.now)) (keys.file_of file)
        (setting_of was w.old (L.items l.now))).outside) }
    ensures cause { IfErr result (BrokenBy (outputs (O.state out.old) (E.state err.old))
        (outputs (O.state out.new) (E.state err.new))) }
    ensures kept { KeepsLive w.old (L.items l.now) w.new (L.items l.now) }
    ensures one_settled { IsOneSettled (O.pending out.old) (E.pending err.old)
        → IsOneSettled (O.pending out.new) (E.pending err.new) }
{
    buffer.clear();
    let mut selected = file;
    let mut is_first = true;
    let mut rest = vals;
    while let Some((first, others)) = rest.split_first() {
        selected = put_piece(
            w,
            l,
            *first,
            ends_line(ends, is_first),
            selected,
            buffer,
            out,
            err,
        )?;
        is_first = false;
        rest = others;
    }
    end_line(ends, buffer)?;
    flush(selected, buffer, w, l, out, err)
}

// Puts one piece: a text waits in the buffer; where another file is selected, what waits is put.
fn put_piece<L: Locals, O: Sink, E: Sink>(
    w: &mut World,
    l: &L,
    val: Val,
    ends: bool,
    file: File,
    buffer: &mut Vec<u8>,
    out: &mut O,
    err: &mut E,
) -> Result<File, Fault>
    requires locals { All (IsLive (extent_of w.old.heap)) (L.items l.now) }
    requires live { IsLive (extent_of w.old.heap) val }
    requires file { IsLive (extent_of w.old.heap) (Std file) }
    ensures ok { IfOk result (λ now. HasEffect (waiting_text (keys.file_of file) buffer.old.items
        (put_state w.old (L.items l.now) (outputs (O.state out.old) (E.state err.old))))
        (waiting_text (keys.file_of now) buffer.new.items
        (put_state w.new (L.items l.now) (outputs (O.state out.new) (E.state err.new))))
        (put_on (keys.file_of file)
        (text_of_piece newline (not ends) (piece_in (value_in (extent_of w.old.heap) val))))) }
    ensures file { IfOk result (λ now. keys.file_of now
        ≡ file_after (keys.file_of file) (piece_in (value_in (extent_of w.old.heap) val))) }
    ensures live { IfOk result (λ now. IsLive (extent_of w.new.heap) (Std now)) }
    ensures err { IfErr result (StopsEffect (waiting_text (keys.file_of file) buffer.old.items
        (put_state w.old (L.items l.now) (outputs (O.state out.old) (E.state err.old))))
        (outputs (O.state out.new) (E.state err.new))
        (put_on (keys.file_of file)
        (text_of_piece newline (not ends) (piece_in (value_in (extent_of w.old.heap) val))))) }
    ensures kept { KeepsLive w.old (L.items l.now) w.new (L.items l.now) }
    ensures one_settled { IsOneSettled (O.pending out.old) (E.pending err.old)
        → IsOneSettled (O.pending out.new) (E.pending err.new) }
{
    match val {
        Val::Std(other) => select(other, ends, file, buffer, w, l, out, err),
        _ => {
            push_text(&w.heap, val, buffer)?;
            Ok(file)
        }
    }
}

// Ends the line where lines end, and puts what waits where another file is selected.
fn select<L: Locals, O: Sink, E: Sink>(
    other: File,
    ends: bool,
    file: File,
    buffer: &mut Vec<u8>,
    w: &mut World,
    l: &L,
    out: &mut O,
    err: &mut E,
) -> Result<File, Fault>
    requires locals { All (IsLive (extent_of w.old.heap)) (L.items l.now) }
    requires file { IsLive (extent_of w.old.heap) (Std file) }
    requires other { IsLive (extent_of w.old.heap) (Std other) }
    ensures ok { IfOk result (λ now. HasEffect (waiting_text (keys.file_of file) buffer.old.items
        (put_state w.old (L.items l.now) (outputs (O.state out.old) (E.state err.old))))
        (waiting_text (keys.file_of now) buffer.new.items
        (put_state w.new (L.items l.now) (outputs (O.state out.new) (E.state err.new))))
        (put_on (keys.file_of file) (if ends then newline else []))) }
    ensures file { IfOk result (λ now. now ≡ other) }
    ensures err { IfErr result (StopsEffect (waiting_text (keys.file_of file) buffer.old.items
        (put_state w.old (L.items l.now) (outputs (O.state out.old) (E.state err.old))))
        (outputs (O.state out.new) (E.state err.new))
        (put_on (keys.file_of file) (if ends then newline else []))) }
    ensures kept { KeepsLive w.old (L.items l.now) w.new (L.items l.now) }
    ensures one_settled { IsOneSettled (O.pending out.old) (E.pending err.old)
        → IsOneSettled (O.pending out.new) (E.pending err.new) }
{
    end_line(ends, buffer)?;
    if other != file {
        flush(file, buffer, w, l, out, err)?;
        buffer.clear();
    }
    Ok(other)
}

// Whether a file that is selected ends a line: where lines end, and it is not the first argument.
fn ends_line(ends: bool, is_first: bool) -> bool
    ensures { result ≡ (ends && not is_first) }
{
    ends && !is_first
}

// Appends a newline, where lines end.
fn end_line(ends: bool, buffer: &mut Vec<u8>) -> Result<(), AllocError>
    ensures { OnOk result (buffer.new.items ≡ buffer.old.items ++ (if ends then newline else [])) }
{
    if ends {
        buffer.push(b'\n')?;
    }
    Ok(())
}

// Puts a text on a file, if it is not empty: on an output once the other one is settled, and behind what an opened file holds.
// Nothing is put on the input.
fn flush<L: Locals, O: Sink, E: Sink>(
    file: File,
    text: &[u8],
    w: &mut World,
    l: &L,
    out: &mut O,
    err: &mut E,
) -> Result<(), Fault>
    requires locals { All (IsLive (extent_of w.old.heap)) (L.items l.now) }
    requires file { IsLive (extent_of w.old.heap) (Std file) }
    ensures ok { OnOk result ((was : Outside) → HasPut
        (put_state w.old (L.items l.now) (outputs (O.state out.old) (E.state err.old)))
        (put_state w.new (L.items l.now) (outputs (O.state out.new) (E.state err.new))) was
        (put_on (keys.file_of file) text.now)) }
    ensures counts { OnOk result (KeepsBoth (outputs (O.state out.old) (E.state err.old))
        (outputs (O.state out.new) (E.state err.new))) }
    ensures err { IfErr result (PutsPartOn (keys.file_of file) text.now
        (outputs (O.state out.old) (E.state err.old)) (outputs (O.state out.new) (E.state err.new))) }
    ensures kept { KeepsLive w.old (L.items l.now) w.new (L.items l.now) }
    ensures settled { OnOk result (0 < length text.now
        → IsSettledBeside (keys.file_of file) (O.pending out.new) (E.pending err.new)) }
    ensures one_settled { IsOneSettled (O.pending out.old) (E.pending err.old)
        → IsOneSettled (O.pending out.new) (E.pending err.new) }
{
    if text.is_empty() {
        return Ok(());
    }
    match file {
        File::Input => Ok(()),
        File::Output => put_behind(text, out, err),
        File::Errout => put_behind(text, err, out),
        File::Opened(number) => Ok(add_text(number, text, w, l)?),
    }
}

// Adds a text behind what an opened file holds.
#[tactic(auto, using(icn_vars::proofs::GrowingWorlds::grows, icn_vars::proofs::GrowingWorlds::locals_grow))]
fn add_text<L: Locals>(number: u32, text: &[u8], w: &mut World, l: &L) -> Result<(), AllocError>
    requires locals { All (IsLive (extent_of w.old.heap)) (L.items l.now) }
    requires file { IsLive (extent_of w.old.heap) (Std (Opened number)) }
    ensures step { OnOk result ((outside : Outside) → setting_of outside w.new (L.items l.now)
        ≡ having_heap (added_to number text.now) (setting_of outside w.old (L.items l.now))) }
    ensures kept { KeepsLive w.old (L.items l.now) w.new (L.items l.now) }
{
    w.heap.add_to_file(number, text)
}

// Puts a text on a sink, once the other one is settled.
fn put_behind<S: Sink, T: Sink>(text: &[u8], sink: &mut S, other: &mut T) -> Result<(), Fault>
    ensures ok { OnOk result
        (PutsBehind text.now (S.state sink.old) (S.state sink.new) (T.state other.old) (T.state other.new)) }
    ensures err { IfErr result (PutsPartBehind text.now (S.state sink.old) (S.state sink.new)
        (T.state other.old) (T.state other.new)) }
    ensures settled { OnOk result (T.pending other.new ≡ 0) }
    ensures one_settled { IsOneSettled (S.pending sink.old) (T.pending other.old)
        → IsOneSettled (S.pending sink.new) (T.pending other.new) }
{
    other.flush()?;
    sink.put(text)
}

// Appends the text of a value that has one, and nothing for null.
fn push_text(heap: &Heap, val: Val, buffer: &mut Vec<u8>) -> Result<(), AllocError>
    requires { IsLive (extent_of heap.now) val }
    ensures { OnOk result
        (buffer.new.items ≡ buffer.old.items ++ the_text (value_in (extent_of heap.now) val)) }
{
    match val {
        Val::Integer(n) => buffer.extend_from_slice(decimal(n).as_bytes()),
        Val::Text(text) => buffer.extend_from_slice(heap.bytes(text)),
        Val::Chars(cset) => push_members(&cset, buffer),
        _ => Ok(()),
    }
}
