// Texts that are made for an assignment, and charged.
ghost use Rattle.std.specs.Prelude.{◌≡◌, ◌+◌, ◌-◌, ◌≤◌, true, length, is_some, IfErr, IfOk, MatchResult, Some};
ghost use Rattle.std.specs.List.{All};
ghost use Rattle.icn_value.specs.Store.{Outside};
ghost use Rattle.icn_defs.specs.Calls.{Passes};
ghost use Rattle.icn_defs.specs.Conversions.{text_of};
ghost use Rattle.icn_defs.specs.ReadAndAssign.{with_part};
ghost use Rattle.icn_defs.specs.Rows.{costs_bytes, costs_text};
ghost use Rattle.icn_heap.specs.Extents.{Extent, IsLive, IsText, text_in, value_in};
ghost use Rattle.icn_heap.specs.Heaps.{extent_of};
ghost use Rattle.icn_vars.specs.Stops.{IsLiveStop, StopsPassing};
ghost use Rattle.icn_vars.specs.Worlds.{KeepsLive, setting_of};

use crate::locals::Locals;
use crate::stop::Stop;
use crate::world::World;
use icn_convert::to_text;
use icn_heap::short_text;
use icn_value::{Span, Val};
use std::alloc::{AllocError, Global};

/// Whether a value is or converts to a text.
pub fn has_text(val: Val) -> bool
    ensures { (all : Extent) → result ≡ is_some (text_of (value_in all val)) }
{
    matches!(val, Val::Integer(_) | Val::Text(_) | Val::Chars(_))
}

/// The text of a value that has one. A text that is made is charged. `Stop` is error 306 where the limit refuses the charge,
/// or want of memory.
#[tactic(auto, using(crate::proofs::GrowingWorlds::grows, crate::proofs::GrowingWorlds::locals_grow))]
pub fn made_text<L: Locals>(w: &mut World, l: &L, val: Val) -> Result<Span, Stop>
    requires locals { All (IsLive (extent_of w.old.heap)) (L.items l.now) }
    requires live { IsLive (extent_of w.old.heap) val }
    requires has { is_some (text_of (value_in (extent_of w.old.heap) val)) ≡ true }
    ensures live { IfOk result (IsText (extent_of w.new.heap)) }
    ensures text { IfOk result
        (λ span. text_of (value_in (extent_of w.old.heap) val) ≡ Some (text_in (extent_of w.new.heap) span)) }
    ensures passes { (outside : Outside)
        → MatchResult result (λ _. Passes (costs_text (value_in (extent_of w.old.heap) val))
        (setting_of outside w.old (L.items l.now)) (setting_of outside w.new (L.items l.now)))
        (StopsPassing (extent_of w.new.heap) (costs_text (value_in (extent_of w.old.heap) val))
        (setting_of outside w.old (L.items l.now)) (setting_of outside w.new (L.items l.now))) }
    ensures stops { IfErr result (IsLiveStop (extent_of w.new.heap)) }
    ensures kept { KeepsLive w.old (L.items l.now) w.new (L.items l.now) }
{
    match to_text(&mut w.heap, val)? {
        Some(span) => Ok(span),
        None => unreachable!(),
    }
}

// The bytes with others in the place of a part of them.
fn replaced_bytes(
    alloc: Global,
    whole: &[u8],
    place: u64,
    len: u64,
    new: &[u8],
) -> Result<Vec<u8>, AllocError>
    requires place { 1 ≤ place }
    requires within { place - 1 + len ≤ length whole.now }
    ensures { IfOk result (λ bytes. bytes.items ≡ with_part whole.now place len new.now) }
{
    let from = (place - 1) as usize;
    let mut bytes = Vec::new(alloc);
    bytes.extend_from_slice(&whole[..from])?;
    bytes.extend_from_slice(new)?;
    bytes.extend_from_slice(&whole[from + len as usize..])?;
    Ok(bytes)
}

/// A text with another in the place of a part of it, which is charged. `Stop` is error 306 where the limit refuses the
/// charge, or want of memory.
#[tactic(auto, using(crate::proofs::GrowingWorlds::grows, crate::proofs::GrowingWorlds::locals_grow))]
pub fn replace<L: Locals>(
    w: &mut World,
    l: &L,
    whole: Span,
    place: u64,
    len: u64,
    new: Span,
) -> Result<Span, Stop>
    requires locals { All (IsLive (extent_of w.old.heap)) (L.items l.now) }
    requires whole { IsText (extent_of w.old.heap) whole }
    requires new { IsText (extent_of w.old.heap) new }
    requires place { 1 ≤ place }
    requires within { place - 1 + len ≤ length (text_in (extent_of w.old.heap) whole) }
    ensures live { IfOk result (IsText (extent_of w.new.heap)) }
    ensures text { IfOk result (λ span. text_in (extent_of w.new.heap) span
        ≡ with_part (text_in (extent_of w.old.heap) whole) place len (text_in (extent_of w.old.heap) new)) }
    ensures passes { (outside : Outside) → MatchResult result (λ _. Passes (costs_bytes (length
        (with_part (text_in (extent_of w.old.heap) whole) place len (text_in (extent_of w.old.heap) new))))
        (setting_of outside w.old (L.items l.now)) (setting_of outside w.new (L.items l.now)))
        (StopsPassing (extent_of w.new.heap) (costs_bytes (length
        (with_part (text_in (extent_of w.old.heap) whole) place len (text_in (extent_of w.old.heap) new))))
        (setting_of outside w.old (L.items l.now)) (setting_of outside w.new (L.items l.now))) }
    ensures stops { IfErr result (IsLiveStop (extent_of w.new.heap)) }
    ensures kept { KeepsLive w.old (L.items l.now) w.new (L.items l.now) }
{
    let bytes = replaced_bytes(
        *w.globals.allocator(),
        w.heap.bytes(whole),
        place,
        len,
        w.heap.bytes(new),
    )?;
    Ok(w.heap.build(&bytes)?)
}

/// How many bytes a text has.
pub fn length_of(w: &World, text: Span) -> u64
    requires { IsText (extent_of w.now.heap) text }
    ensures { result ≡ length (text_in (extent_of w.now.heap) text) }
{
    w.heap.bytes(text).len() as u64
}
