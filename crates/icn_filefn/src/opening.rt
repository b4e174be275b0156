// Opening a file.
ghost use Rattle.std.specs.Prelude.{◌≡◌, ℕ, List, Option, IfErr, IfOk, IfSome, is_some, map, string_bytes};
ghost use Rattle.std.specs.Str.{is_utf8};
ghost use Rattle.std.specs.List.{All};
ghost use Rattle.icn_host.specs.Sources.{SourceCounts};
ghost use Rattle.icn_value.specs.Store.{Outside};
ghost use Rattle.icn_value.specs.Changes.{new_file};
ghost use Rattle.icn_defs.specs.Files as rows;
ghost use Rattle.icn_defs.specs.Files.{new_file_of};
ghost use Rattle.icn_defs.specs.Rows.{costs_text};
ghost use Rattle.icn_heap.specs.Extents.{IsLive, IsText, text_in, value_in};
ghost use Rattle.icn_heap.specs.Heaps.{extent_of};
ghost use Rattle.icn_vars.specs.Stops.{IsLiveStop};
ghost use Rattle.icn_vars.specs.declared.stop.Stop.TheVariants.{NoMemory};
ghost use Rattle.icn_vars.specs.Outcomes.{answer_of};
ghost use Rattle.icn_vars.specs.Worlds.{KeepsLive, setting_of};
ghost use Rattle.icn_args.specs.RowWords.{IsFound, IsPassed};
ghost use Rattle.icn_streams.specs.Answers.{call_state};
ghost use Rattle.icn_streams.specs.Applies.{Applies};
ghost use Rattle.icn_streams.specs.Handed.{call_streams};
ghost use Rattle.icn_filefn.specs.OpenParts.{opens_named, opens_text};

use crate::finding::first_content;
use crate::modes::mode_arg;
use icn_args::{arg, check_text, text_of};
use icn_host::{Files, Sink};
use icn_value::{FileMode, Span, Val};
use icn_vars::{Halt, Locals, Stop, ValueOutcome, World};
use std::alloc::Global;

/// `open(s1, s2)`: the file of a name, opened in a mode. It fails where the name is no UTF-8, and where there is nothing to be read or
/// too much. The errors are 103 about a name or a mode that is no text, 209 about a mode that is none, 306 and 307.
pub fn open_row<L: Locals, F: Files, O: Sink, E: Sink>(
    vals: &[Val],
    w: &mut World,
    l: &L,
    files: &mut F,
    out: &mut O,
    err: &mut E,
) -> Result<ValueOutcome, Halt>
    requires locals { All (IsLive (extent_of w.old.heap)) (L.items l.now) }
    requires live { All (IsLive (extent_of w.old.heap)) vals.now }
    ensures { (left : Option (List ℕ)) (counts : SourceCounts)
        → Applies (rows.open_row (map (value_in (extent_of w.old.heap)) vals.now))
        (call_state w.old (L.items l.now)
        (call_streams (F.state files.old) left counts (O.state out.old) (E.state err.old)))
        (call_state w.new (L.items l.now)
        (call_streams (F.state files.new) left counts (O.state out.new) (E.state err.new))) (answer_of result) }
{
    let named = arg(vals, 0);
    let said = arg(vals, 1);
    check_text(named)?;
    let mode = mode_arg(&w.heap, said)?;
    let name = text_of(w, l, named)?;
    charge_mode(w, l, said)?;
    open_text(name, mode, w, l, files, out, err)
}

// Charges a mode that is no text as it becomes one. The errors are 306 and want of memory.
#[tactic(auto, using(icn_vars::proofs::KeptItems::keeps_items_refl))]
fn charge_mode<L: Locals>(w: &mut World, l: &L, said: Val) -> Result<(), Stop>
    requires locals { All (IsLive (extent_of w.old.heap)) (L.items l.now) }
    requires live { IsLive (extent_of w.old.heap) said }
    ensures step { (outside : Outside) → IsPassed (extent_of w.new.heap)
        (costs_text (value_in (extent_of w.old.heap) said))
        (setting_of outside w.old (L.items l.now)) (setting_of outside w.new (L.items l.now)) result }
    ensures stops { IfErr result (IsLiveStop (extent_of w.new.heap)) }
    ensures kept { KeepsLive w.old (L.items l.now) w.new (L.items l.now) }
{
    match said {
        Val::Integer(_) | Val::Chars(_) => {
            text_of(w, l, said)?;
            Ok(())
        }
        _ => Ok(()),
    }
}

// Opens the file whose name a text is, if it is UTF-8.
fn open_text<L: Locals, F: Files, O: Sink, E: Sink>(
    text: Span,
    mode: FileMode,
    w: &mut World,
    l: &L,
    files: &mut F,
    out: &mut O,
    err: &mut E,
) -> Result<ValueOutcome, Halt>
    requires locals { All (IsLive (extent_of w.old.heap)) (L.items l.now) }
    requires text { IsText (extent_of w.old.heap) text }
    ensures { (left : Option (List ℕ)) (counts : SourceCounts)
        → Applies (opens_text (text_in (extent_of w.old.heap) text) mode)
        (call_state w.old (L.items l.now)
        (call_streams (F.state files.old) left counts (O.state out.old) (E.state err.old)))
        (call_state w.new (L.items l.now)
        (call_streams (F.state files.new) left counts (O.state out.new) (E.state err.new))) (answer_of result) }
{
    let alloc = *w.globals.allocator();
    match name_of(alloc, w.heap.bytes(text))? {
        Some(name) => open_named(name, mode, w, l, files, out, err),
        None => Ok(ValueOutcome::Fails),
    }
}

// The name that these bytes are, if they are UTF-8. The error is want of memory.
fn name_of(alloc: Global, bytes: &[u8]) -> Result<Option<String>, Stop>
    ensures name { IfOk result (λ found. IfSome found (λ name. string_bytes name ≡ bytes.now)) }
    ensures text { IfOk result (λ found. is_some found ≡ is_utf8 bytes.now) }
    ensures want { IfErr result (λ stop. stop ≡ NoMemory) }
{
    let Ok(text) = str::from_utf8(bytes) else {
        return Ok(None);
    };
    Ok(Some(String::from_str(alloc, text)?))
}

// Opens the file of a name.
fn open_named<L: Locals, F: Files, O: Sink, E: Sink>(
    name: String,
    mode: FileMode,
    w: &mut World,
    l: &L,
    files: &mut F,
    out: &mut O,
    err: &mut E,
) -> Result<ValueOutcome, Halt>
    requires { All (IsLive (extent_of w.old.heap)) (L.items l.now) }
    ensures { (left : Option (List ℕ)) (counts : SourceCounts)
        → Applies (opens_named (string_bytes name) mode)
        (call_state w.old (L.items l.now)
        (call_streams (F.state files.old) left counts (O.state out.old) (E.state err.old)))
        (call_state w.new (L.items l.now)
        (call_streams (F.state files.new) left counts (O.state out.new) (E.state err.new))) (answer_of result) }
{
    let alloc = *w.globals.allocator();
    match first_content(alloc, &name, mode, files, out, err)? {
        Some(content) => Ok(ValueOutcome::Gives(make_file(name, mode, content, w, l)?)),
        None => Ok(ValueOutcome::Fails),
    }
}

// A file that is opened, which costs a cell. The errors are 307 and want of memory.
#[tactic(auto, using(icn_vars::proofs::GrowingWorlds::grows, icn_vars::proofs::GrowingWorlds::locals_grow))]
fn make_file<L: Locals>(
    name: String,
    mode: FileMode,
    content: Vec<u8>,
    w: &mut World,
    l: &L,
) -> Result<Val, Stop>
    requires { All (IsLive (extent_of w.old.heap)) (L.items l.now) }
    ensures found { (outside : Outside) → IsFound (extent_of w.new.heap)
        (new_file_of (new_file (string_bytes name) mode content.items))
        (setting_of outside w.old (L.items l.now)) (setting_of outside w.new (L.items l.now))
        (value_in (extent_of w.new.heap)) result }
    ensures live { IfOk result (IsLive (extent_of w.new.heap)) }
    ensures stops { IfErr result (IsLiveStop (extent_of w.new.heap)) }
    ensures kept { KeepsLive w.old (L.items l.now) w.new (L.items l.now) }
{
    Ok(w.heap.open_file(name, mode, content)?)
}
