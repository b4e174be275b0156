// The mode of a file that is opened.
ghost use Rattle.std.specs.Prelude.{◌≡◌, IfErr, Some, codes};
ghost use Rattle.icn_value.specs.Store.{Setting};
ghost use Rattle.icn_value.specs.Members.{members_of};
ghost use Rattle.icn_value.specs.Values.{Text};
ghost use Rattle.icn_value.specs.declared.mode.FileMode.{FileMode};
ghost use Rattle.icn_defs.specs.Files.{mode_of};
ghost use Rattle.icn_defs.specs.Rows.{present};
ghost use Rattle.icn_heap.specs.Extents.{Extent, IsLive, value_in};
ghost use Rattle.icn_heap.specs.Heaps.{extent_of};
ghost use Rattle.icn_vars.specs.Stops.{IsLiveStop};
ghost use Rattle.icn_args.specs.RowWords.{IsFound};
ghost use Rattle.icn_filefn.specs.OpenParts.{mode_named};

use icn_heap::Heap;
use icn_text::decimal;
use icn_value::{Cset, FileMode, Val};
use icn_vars::Stop;

/// The mode that an argument names; null is to read. The errors are 103 about a value that is no text, and 209 about a text that
/// names none. Nothing is charged yet.
pub fn mode_arg(heap: &Heap, val: Val) -> Result<FileMode, Stop>
    requires { IsLive (extent_of heap.now) val }
    ensures found { (setting : Setting) → IsFound (extent_of heap.now)
        (mode_named (Text (codes "r")) (value_in (extent_of heap.now) val)) setting setting
        (λ (mode : FileMode). mode) result }
    ensures stops { IfErr result (IsLiveStop (extent_of heap.now)) }
{
    match val {
        Val::Null => Ok(FileMode::ToRead),
        Val::Text(span) => or_error(mode_of(heap.bytes(span)), val),
        Val::Chars(cset) => or_error(mode_of_cset(cset), val),
        Val::Integer(n) => or_error(mode_of(decimal(n).as_bytes()), val),
        _ => Err(Stop::Error(103, Some(val))),
    }
}

// A mode that a value names, or error 209 about the value.
fn or_error(named: Option<FileMode>, val: Val) -> Result<FileMode, Stop>
    ensures found { (all : Extent) (setting : Setting) → IsFound all
        (present named 209 (Some (value_in all val))) setting setting (λ (mode : FileMode). mode) result }
    ensures stops { (all : Extent) → IsLive all val → IfErr result (IsLiveStop all) }
{
    named.ok_or(Stop::Error(209, Some(val)))
}

// The mode that a text names.
fn mode_of(text: &[u8]) -> Option<FileMode>
    ensures { result ≡ mode_of text.now }
{
    match text {
        b"r" => Some(FileMode::ToRead),
        b"w" => Some(FileMode::ToWrite),
        b"a" => Some(FileMode::ToAdd),
        _ => None,
    }
}

// The mode that a cset names, as the text of its members.
fn mode_of_cset(cset: Cset) -> Option<FileMode>
    ensures { result ≡ mode_of (members_of cset) }
{
    if cset.size() != 1 {
        return None;
    }
    if cset.has(b'r') {
        Some(FileMode::ToRead)
    } else if cset.has(b'w') {
        Some(FileMode::ToWrite)
    } else if cset.has(b'a') {
        Some(FileMode::ToAdd)
    } else {
        None
    }
}
