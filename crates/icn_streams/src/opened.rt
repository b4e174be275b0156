// Reading a text from a file that the program opened.
ghost use Rattle.std.specs.Prelude.{◌≡◌, ◌≤◌, ◌+◌, drop, length, min, take, IfErr, IfOk, IfSome, MatchResult};
ghost use Rattle.std.specs.List.{All, position_or_len};
ghost use Rattle.icn_host.specs.Sources.{is_newline};
ghost use Rattle.icn_value.specs.Store.{Outside, file_at, having_heap, with_opened};
ghost use Rattle.icn_value.specs.declared.val.File.TheVariants.{Opened};
ghost use Rattle.icn_value.specs.declared.val.Val.TheVariants.{Std};
ghost use Rattle.icn_defs.specs.Calls.{Passes};
ghost use Rattle.icn_defs.specs.Interruptions.{asked_of};
ghost use Rattle.icn_defs.specs.OpenFiles.{left_in};
ghost use Rattle.icn_defs.specs.Rows.{costs_bytes};
ghost use Rattle.icn_heap.specs.Extents.{IsLive, IsText, text_in};
ghost use Rattle.icn_heap.specs.Heaps.{extent_of, heap_of};
ghost use Rattle.icn_vars.specs.Stops.{IsLiveStop, StopsPassing};
ghost use Rattle.icn_vars.specs.Worlds.{KeepsLive, setting_of};
ghost use Rattle.icn_streams.specs.Readings.{ReadsOpened, asked_in, read_of};

use crate::ask::Ask;
use icn_heap::FileEntry;
use icn_value::Span;
use icn_vars::{Locals, Stop, World};
use memchr::memchr;

/// Reads a text from an opened file, which is charged once it is taken; `None` comes where there is none. What is left is not copied: a
/// line costs its length.
///
/// # Errors
///
/// `Error` is 306. `NoMemory` where memory ran out.
pub fn read_opened<L: Locals>(
    ask: Ask,
    number: u32,
    w: &mut World,
    l: &L,
) -> Result<Option<Span>, Stop>
    requires locals { All (IsLive (extent_of w.old.heap)) (L.items l.now) }
    requires file { IsLive (extent_of w.old.heap) (Std (Opened number)) }
    ensures reads { (outside : Outside) → ReadsOpened (asked_in ask) number (extent_of w.new.heap)
        (setting_of outside w.old (L.items l.now)) (setting_of outside w.new (L.items l.now)) result }
    ensures live { IfOk result (λ found. IfSome found (IsText (extent_of w.new.heap))) }
    ensures stops { IfErr result (IsLiveStop (extent_of w.new.heap)) }
    ensures kept { KeepsLive w.old (L.items l.now) w.new (L.items l.now) }
{
    let file = w.heap.file(number);
    let from = file.place();
    let part = first_of_file(ask, file);
    if part.taken == 0 {
        return Ok(None);
    }
    let place = place_behind(file.content(), from, part.taken);
    move_to(number, place, w, l);
    Ok(Some(text_in_file(number, from, part.len, w, l)?))
}

// Has so many bytes of an opened file read.
#[tactic(auto, using(icn_vars::proofs::GrowingWorlds::grows, icn_vars::proofs::GrowingWorlds::locals_grow))]
fn move_to<L: Locals>(number: u32, place: u64, w: &mut World, l: &L)
    requires locals { All (IsLive (extent_of w.old.heap)) (L.items l.now) }
    requires file { IsLive (extent_of w.old.heap) (Std (Opened number)) }
    requires within { place ≤ length (file_at (heap_of w.old.heap) number).content }
    ensures step { (outside : Outside) → setting_of outside w.new (L.items l.now) ≡ having_heap
        (with_opened number (record (file_at (heap_of w.old.heap) number) { place = place }))
        (setting_of outside w.old (L.items l.now)) }
    ensures content { (file_at (heap_of w.new.heap) number).content
        ≡ (file_at (heap_of w.old.heap) number).content }
    ensures kept { KeepsLive w.old (L.items l.now) w.new (L.items l.now) }
{
    w.heap.read_to(number, place);
}

// A text of a part of what an opened file holds, from a place on, which is charged.
#[tactic(auto, using(icn_vars::proofs::GrowingWorlds::grows, icn_vars::proofs::GrowingWorlds::locals_grow))]
fn text_in_file<L: Locals>(
    number: u32,
    from: u64,
    len: u64,
    w: &mut World,
    l: &L,
) -> Result<Span, Stop>
    requires locals { All (IsLive (extent_of w.old.heap)) (L.items l.now) }
    requires file { IsLive (extent_of w.old.heap) (Std (Opened number)) }
    requires within { from + len ≤ length (file_at (heap_of w.old.heap) number).content }
    ensures live { IfOk result (IsText (extent_of w.new.heap)) }
    ensures text { IfOk result (λ span. text_in (extent_of w.new.heap) span
        ≡ take len (drop from (file_at (heap_of w.old.heap) number).content)) }
    ensures stops { IfErr result (IsLiveStop (extent_of w.new.heap)) }
    ensures step { (outside : Outside) → MatchResult result (λ _. Passes (costs_bytes len)
        (setting_of outside w.old (L.items l.now)) (setting_of outside w.new (L.items l.now)))
        (StopsPassing (extent_of w.new.heap) (costs_bytes len)
        (setting_of outside w.old (L.items l.now)) (setting_of outside w.new (L.items l.now))) }
    ensures kept { KeepsLive w.old (L.items l.now) w.new (L.items l.now) }
{
    Ok(w.heap.build_of_file(number, from, len)?)
}

// A first part of bytes that is read: how many bytes of it are given, and how many it takes.
#[derive(Clone, Copy)]
struct FirstPart {
    len: u64,
    taken: u64,
}

// The part that is asked for of what is left of an opened file.
fn first_of_file(ask: Ask, file: &FileEntry) -> FirstPart
    requires { file.now.place ≤ length file.now.content }
    ensures within { result.len ≤ length (left_in file.now) }
    ensures read { take result.len (left_in file.now) ≡ read_of (asked_in ask) (left_in file.now) }
    ensures taken { result.taken
        ≡ min (asked_of (asked_in ask) (left_in file.now)) (length (left_in file.now)) }
{
    first_part(ask, left_of(file))
}

// What is left to be read of an opened file.
fn left_of(file: &FileEntry) -> &[u8]
    requires { file.now.place ≤ length file.now.content }
    ensures { result.now ≡ left_in file.now }
{
    rest_of(file.content(), file.place())
}

// The bytes from a place on.
fn rest_of(bytes: &[u8], place: u64) -> &[u8]
    requires { place ≤ length bytes.now }
    ensures { result.now ≡ drop place bytes.now }
{
    &bytes[place as usize..]
}

// The place behind so many bytes more.
fn place_behind(bytes: &[u8], place: u64, count: u64) -> u64
    requires { place + count ≤ length bytes.now }
    ensures { result ≡ place + count }
{
    place + count
}

// The part that is asked for of these bytes: a line takes its newline too.
fn first_part(ask: Ask, bytes: &[u8]) -> FirstPart
    ensures within { result.len ≤ length bytes.now }
    ensures read { take result.len bytes.now ≡ read_of (asked_in ask) bytes.now }
    ensures taken { result.taken ≡ min (asked_of (asked_in ask) bytes.now) (length bytes.now) }
{
    match ask {
        Ask::Line => {
            let len = line_length(bytes);
            FirstPart {
                len,
                taken: (len + 1).min(bytes.len() as u64),
            }
        }
        Ask::Bytes(count) => {
            let len = count.min(bytes.len() as u64);
            FirstPart { len, taken: len }
        }
    }
}

// How many bytes stand before the next newline, or how many there are.
fn line_length(bytes: &[u8]) -> u64
    ensures length { result ≡ position_or_len is_newline bytes.now }
    ensures within { result ≤ length bytes.now }
{
    match memchr(b'\n', bytes) {
        Some(place) => place as u64,
        None => bytes.len() as u64,
    }
}
