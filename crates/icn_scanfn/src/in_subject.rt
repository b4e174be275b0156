// What functions of scanning come to on one argument that is of the type they want, in the subject from the position on: nothing is
// converted, and nothing is charged. None of them takes memory.
ghost use Rattle.std.specs.Prelude.{◌≡◌, ◌∷◌, [], ◌+◌, ◌<◌, ◌≤◌, ◌^◌, List, length, IfSome};
ghost use Rattle.icn_value.specs.Members.{members_of};
ghost use Rattle.icn_value.specs.Store.{Outside};
ghost use Rattle.icn_value.specs.Values.{Chars, Integer, Text};
ghost use Rattle.icn_value.specs.declared.val.Val.{Val as ValData};
ghost use Rattle.icn_defs.specs.Rows.{thing_or_failure};
ghost use Rattle.icn_defs.specs.Scanning.{any_row, find_row, gives_position, many_row, match_row, move_row, pos_row, tab_row, tabs_to, upto_row};
ghost use Rattle.icn_heap.specs.Extents.{IsText, text_in};
ghost use Rattle.icn_heap.specs.Heaps.{extent_of};
ghost use Rattle.icn_vars.specs.Worlds.{setting_of};
ghost use Rattle.icn_scanfn.specs.InSubject.{gives_found, gives_member, gives_moved, place_behind, subject_of};

use crate::moving::moved_place;
use crate::searching::{next_member, next_occurrence, run_length};
use crate::testing::has_behind;
use icn_args::stands;
use icn_heap::short_text;
use icn_value::{Cset, Span};
use icn_vars::{World, position_of};

/// `any(c)`: the place behind the byte at the position, where that is of the cset.
pub fn any_in_subject(w: &World, wanted: &Cset) -> Option<u64>
    ensures row { (outside : Outside) (locals : List ValData)
        → any_row (Chars (members_of wanted.now) ∷ []) (setting_of outside w.now locals)
        ≡ thing_or_failure result gives_position (setting_of outside w.now locals) }
    ensures small { IfSome result (λ place. place < 2 ^ 63) }
{
    short_text(&w.heap, w.pair.subject);
    let text = w.heap.bytes(w.pair.subject);
    let from = w.pair.position;
    if has_behind(wanted, text, from, text.len() as u64 + 1) {
        Some(from + 1)
    } else {
        None
    }
}

/// `many(c)`: the place behind the bytes of the cset that stand at the position, where there are some.
pub fn many_in_subject(w: &World, wanted: &Cset) -> Option<u64>
    ensures row { (outside : Outside) (locals : List ValData)
        → many_row (Chars (members_of wanted.now) ∷ []) (setting_of outside w.now locals)
        ≡ thing_or_failure result gives_position (setting_of outside w.now locals) }
    ensures small { IfSome result (λ place. place < 2 ^ 63) }
{
    short_text(&w.heap, w.pair.subject);
    let text = w.heap.bytes(w.pair.subject);
    let from = w.pair.position;
    let count = run_length(wanted, text, from, text.len() as u64 + 1);
    if count > 0 { Some(from + count) } else { None }
}

/// `match(s)`: the place behind a text that stands at the position.
pub fn match_in_subject(w: &World, wanted: Span) -> Option<u64>
    requires { IsText (extent_of w.now.heap) wanted }
    ensures row { (outside : Outside) (locals : List ValData)
        → match_row (Text (text_in (extent_of w.now.heap) wanted) ∷ []) (setting_of outside w.now locals)
        ≡ thing_or_failure result gives_position (setting_of outside w.now locals) }
    ensures found { result
        ≡ place_behind (text_in (extent_of w.now.heap) wanted) (subject_of w.now) w.now.pair.position }
    ensures low { IfSome result (λ place. 1 ≤ place) }
    ensures small { IfSome result (λ place. place < 2 ^ 63) }
    ensures high { IfSome result (λ place. place ≤ length (subject_of w.now) + 1) }
{
    short_text(&w.heap, w.pair.subject);
    let bytes = w.heap.bytes(wanted);
    let text = w.heap.bytes(w.pair.subject);
    let from = w.pair.position;
    if stands(bytes, text, from, text.len() as u64 + 1) {
        Some(from + bytes.len() as u64)
    } else {
        None
    }
}

/// `pos(i)`: the place of the position, where this position means it.
pub fn pos_in_subject(w: &World, n: i64) -> Option<u64>
    ensures row { (outside : Outside) (locals : List ValData)
        → pos_row (Integer n ∷ []) (setting_of outside w.now locals)
        ≡ thing_or_failure result gives_position (setting_of outside w.now locals) }
    ensures small { IfSome result (λ place. place < 2 ^ 63) }
{
    short_text(&w.heap, w.pair.subject);
    let size = w.heap.bytes(w.pair.subject).len() as u64;
    let place = position_of(n, size)?;
    if place == w.pair.position {
        Some(place)
    } else {
        None
    }
}

/// `upto(c)`: the first place from the position on before a byte of the cset.
pub fn upto_in_subject(w: &World, wanted: &Cset) -> Option<u64>
    ensures row { (outside : Outside) (locals : List ValData)
        → upto_row (Chars (members_of wanted.now) ∷ []) (setting_of outside w.now locals)
        ≡ thing_or_failure result (gives_member (members_of wanted.now) (subject_of w.now))
        (setting_of outside w.now locals) }
    ensures low { IfSome result (λ place. 1 ≤ place) }
    ensures small { IfSome result (λ place. place < 2 ^ 63) }
    ensures high { IfSome result (λ place. place ≤ length (subject_of w.now) + 1) }
{
    short_text(&w.heap, w.pair.subject);
    let text = w.heap.bytes(w.pair.subject);
    next_member(wanted, text, w.pair.position, text.len() as u64 + 1)
}

/// `find(s)`: the first place from the position on at which a text stands.
pub fn find_in_subject(w: &World, wanted: Span) -> Option<u64>
    requires { IsText (extent_of w.now.heap) wanted }
    ensures row { (outside : Outside) (locals : List ValData)
        → find_row (Text (text_in (extent_of w.now.heap) wanted) ∷ []) (setting_of outside w.now locals)
        ≡ thing_or_failure result (gives_found (text_in (extent_of w.now.heap) wanted) (subject_of w.now))
        (setting_of outside w.now locals) }
    ensures low { IfSome result (λ place. 1 ≤ place) }
    ensures small { IfSome result (λ place. place < 2 ^ 63) }
    ensures high { IfSome result (λ place. place ≤ length (subject_of w.now) + 1) }
{
    short_text(&w.heap, w.pair.subject);
    let text = w.heap.bytes(w.pair.subject);
    let bytes = w.heap.bytes(wanted);
    next_occurrence(bytes, text, w.pair.position, text.len() as u64 + 1)
}

/// The place of the subject to which `tab(i)` moves, if there is one.
pub fn tab_in_subject(w: &World, n: i64) -> Option<u64>
    ensures row { (outside : Outside) (locals : List ValData)
        → tab_row (Integer n ∷ []) (setting_of outside w.now locals)
        ≡ thing_or_failure result tabs_to (setting_of outside w.now locals) }
    ensures low { IfSome result (λ place. 1 ≤ place) }
    ensures high { IfSome result (λ place. place ≤ length (subject_of w.now) + 1) }
{
    short_text(&w.heap, w.pair.subject);
    let size = w.heap.bytes(w.pair.subject).len() as u64;
    position_of(n, size)
}

/// The place of the subject to which `move(i)` moves, if there is one.
pub fn move_in_subject(w: &World, n: i64) -> Option<u64>
    ensures row { (outside : Outside) (locals : List ValData)
        → move_row (Integer n ∷ []) (setting_of outside w.now locals)
        ≡ thing_or_failure result tabs_to (setting_of outside w.now locals) }
    ensures low { IfSome result (λ place. 1 ≤ place) }
    ensures high { IfSome result (λ place. place ≤ length (subject_of w.now) + 1) }
{
    short_text(&w.heap, w.pair.subject);
    let size = w.heap.bytes(w.pair.subject).len() as u64;
    moved_place(w.pair.position, n, size)
}

/// Moves to a place of the subject, and gives the bytes between it and the old place.
pub fn move_to(w: &mut World, place: u64) -> Span
    requires low { 1 ≤ place }
    requires high { place ≤ length (subject_of w.old) + 1 }
    ensures live { IsText (extent_of w.new.heap) result }
    ensures row { (outside : Outside) (locals : List ValData) → tabs_to place (setting_of outside w.old locals)
        ≡ gives_moved (text_in (extent_of w.new.heap) result) w.old.pair.position
        (setting_of outside w.new locals) }
    ensures short { length (text_in (extent_of w.new.heap) result) ≤ length (subject_of w.old) }
    ensures heap { w.new.heap ≡ w.old.heap }
    ensures subject { w.new.pair.subject ≡ w.old.pair.subject }
    ensures words { w.new.words ≡ w.old.words }
    ensures globals { w.new.globals.items ≡ w.old.globals.items }
    ensures statics { w.new.statics.items ≡ w.old.statics.items }
{
    let old = w.pair.position;
    let from = old.min(place);
    let to = old.max(place);
    let text = w.heap.part(w.pair.subject, from - 1, to - from);
    w.pair.position = place;
    text
}
