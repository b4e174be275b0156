// Reading a text from the input.
ghost use Rattle.std.specs.Prelude.{◌≡◌, List, length, IfErr, IfOk, IfSome, MatchResult, Some};
ghost use Rattle.std.specs.List.{All};
ghost use Rattle.icn_host.specs.Counts.{one_more};
ghost use Rattle.icn_host.specs.FileMaps.{StoreState};
ghost use Rattle.icn_host.specs.Sinks.{SinkState};
ghost use Rattle.icn_value.specs.Store.{Outside};
ghost use Rattle.icn_defs.specs.Calls.{Passes};
ghost use Rattle.icn_defs.specs.Rows.{costs_bytes};
ghost use Rattle.icn_heap.specs.Extents.{IsLive, IsText, text_in};
ghost use Rattle.icn_heap.specs.Heaps.{extent_of};
ghost use Rattle.icn_vars.specs.Stops.{IsLiveStop, StopsPassing};
ghost use Rattle.icn_vars.specs.Outcomes.{IsLiveHalt};
ghost use Rattle.icn_vars.specs.Worlds.{KeepsLive, reach_of, setting_of};
ghost use Rattle.icn_streams.specs.Answers.{call_state};
ghost use Rattle.icn_streams.specs.Handed.{call_streams};
ghost use Rattle.icn_streams.specs.Readings.{InputCause, Reads, ReadsOfSome, asked_in};

use crate::ask::Ask;
use crate::filling::fill;
use icn_host::{Fault, Source};
use icn_value::Span;
use icn_vars::{Halt, Locals, Stop, World};

/// Reads a text from the input, which is charged once it is taken; `None` comes where there is none. The buffer is room
/// for it.
///
/// # Errors
///
/// `Error` is 306. `ReadFault` where the input failed in this call, `NoMemory` where memory ran out.
pub fn read_text<L: Locals, I: Source>(
    ask: Ask,
    w: &mut World,
    l: &L,
    buffer: &mut Vec<u8>,
    input: &mut I,
) -> Result<Option<Span>, Halt>
    requires locals { All (IsLive (extent_of w.old.heap)) (L.items l.now) }
    ensures reads { (was : Outside) (files : StoreState) (output errors : SinkState)
        → I.left input.old ≡ Some was.left → Reads (asked_in ask) was (call_state w.old (L.items l.now)
        (call_streams files (I.left input.old) (I.counts input.old) output errors)) (call_state w.new
        (L.items l.now) (call_streams files (I.left input.new) (I.counts input.new) output errors)) result }
    ensures some { (files : StoreState) (output errors : SinkState) → ReadsOfSome (asked_in ask)
        (call_state w.old
        (L.items l.now) (call_streams files (I.left input.old) (I.counts input.old) output errors))
        (call_state w.new
        (L.items l.now) (call_streams files (I.left input.new) (I.counts input.new) output errors)) result }
    ensures cause { InputCause (I.counts input.old) (I.counts input.new) result }
    ensures called { (I.counts input.new).calls ≡ one_more (I.counts input.old).calls }
    ensures live { IfOk result (λ found. IfSome found (IsText (extent_of w.new.heap))) }
    ensures halts { IfErr result (IsLiveHalt (reach_of w.new (L.items l.now))) }
    ensures kept { KeepsLive w.old (L.items l.now) w.new (L.items l.now) }
{
    match fill(ask, input, buffer) {
        Ok(true) => Ok(Some(text_of(w, l, buffer)?)),
        Ok(false) => Ok(None),
        Err(Fault::Failed) => Err(Halt::ReadFault),
        Err(Fault::NoMemory) => Err(Halt::NoMemory),
    }
}

/// A text of these bytes, which is charged.
#[tactic(auto, using(icn_vars::proofs::GrowingWorlds::grows, icn_vars::proofs::GrowingWorlds::locals_grow))]
pub fn text_of<L: Locals>(w: &mut World, l: &L, bytes: &[u8]) -> Result<Span, Stop>
    requires locals { All (IsLive (extent_of w.old.heap)) (L.items l.now) }
    ensures live { IfOk result (IsText (extent_of w.new.heap)) }
    ensures text { IfOk result (λ span. text_in (extent_of w.new.heap) span ≡ bytes.now) }
    ensures stops { IfErr result (IsLiveStop (extent_of w.new.heap)) }
    ensures step { (outside : Outside) → MatchResult result (λ _. Passes (costs_bytes (length bytes.now))
        (setting_of outside w.old (L.items l.now)) (setting_of outside w.new (L.items l.now)))
        (StopsPassing (extent_of w.new.heap) (costs_bytes (length bytes.now))
        (setting_of outside w.old (L.items l.now)) (setting_of outside w.new (L.items l.now))) }
    ensures kept { KeepsLive w.old (L.items l.now) w.new (L.items l.now) }
{
    Ok(w.heap.build(bytes)?)
}
