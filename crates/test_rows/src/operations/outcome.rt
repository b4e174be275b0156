// What comes of a case.
ghost use Rattle.std.specs.Prelude.{IfOk, IfSome};
ghost use Rattle.std.specs.List.{All};
ghost use Rattle.icn_heap.specs.Extents.{IsLive};
ghost use Rattle.icn_heap.specs.Heaps.{extent_of};
ghost use Rattle.icn_vars.specs.Outcomes.{IsLiveAnswer, IsLiveResidual};
ghost use Rattle.icn_vars.specs.Worlds.{Reach, reach_of};

use crate::operations::operands::{items_of, operands};
use crate::operations::showing::{show, show_locals};
use icn_args::undo_position_again;
use icn_defs::op_numbered;
use icn_host::{MemSource, SureFiles, SureSink};
use icn_iofn::HeldStreams;
use icn_ops::{
    apply_operation, counting_again, list_items_from, record_fields_from, set_members_from,
    table_values_from, text_bytes_from, undo_assign_again, undo_exchange_again,
    variable_bytes_from,
};
use icn_streams::Streams;
use icn_text::Op;
use icn_value::Residual;
use icn_vars::{Halt, Outcome, World};
use std::alloc::{AllocError, Global};
use std::collections::BTreeMap;
use test_values::{Slots, new_world};

// Files, an input and two outputs in memory.
type SureStreams = HeldStreams<SureFiles, MemSource, SureSink, SureSink>;

/// What comes of a case. Each has a world of its own, of 20 string bytes and 10 cells. `AllocError` is want of memory.
pub fn outcome(alloc: Global, line: &str) -> Result<String, AllocError> {
    let mut w = new_world(alloc, 20, 10)?;
    match operands(alloc, &mut w, line) {
        Ok(vals) => {
            let mut slots = Slots { vals };
            apply_line(alloc, &mut w, &mut slots, line)
        }
        Err(_) => String::from_str(alloc, "too large"),
    }
}

// Applies the operation of a line's first field.
fn apply_line(
    alloc: Global,
    w: &mut World,
    slots: &mut Slots,
    line: &str,
) -> Result<String, AllocError>
    requires { All (IsLive (extent_of w.old.heap)) slots.old.vals.items }
{
    let mut out = String::new(alloc);
    let items = items_of(alloc, w, line, &slots.vals)?;
    let Some(op) = operation(line) else {
        out.push_str("no case")?;
        return Ok(out);
    };
    let lines = Vec::from_slice(alloc, b"one\ntwo".as_slice())?;
    let mut streams = HeldStreams {
        files: SureFiles::new(alloc, BTreeMap::new(alloc)),
        input: MemSource::new(lines, Vec::new(alloc)),
        output: SureSink::new(Vec::new(alloc)),
        errors: SureSink::new(Vec::new(alloc)),
        buffer: Vec::new(alloc),
    };
    let answer = apply_operation(op, &items, w, slots, &mut streams);
    show_all(&mut out, w, slots, answer, &mut streams)?;
    show_locals(&mut out, w, slots, line)?;
    Ok(out)
}

// What an operation gives, and then what it gives as it is resumed, up to four times.
fn show_all(
    out: &mut String,
    w: &mut World,
    slots: &mut Slots,
    answer: Result<Outcome, Halt>,
    streams: &mut SureStreams,
) -> Result<(), AllocError>
    requires answer { IsLiveAnswer (reach_of w.old slots.old.vals.items) answer }
    requires locals { All (IsLive (extent_of w.old.heap)) slots.old.vals.items }
    ensures { IfOk result (λ done. All (IsLive (extent_of w.new.heap)) slots.new.vals.items) }
{
    let mut answer = answer;
    for _ in 0..4 {
        show(out, w, slots, answer)?;
        match rest_of(answer) {
            Some(rest) => {
                out.push_str(", ")?;
                answer = resume_residual(rest, w, slots, streams);
            }
            None => return Ok(()),
        }
    }
    show(out, w, slots, answer)
}

// What an operation left, if it may be resumed.
fn rest_of(answer: Result<Outcome, Halt>) -> Option<Residual>
    ensures { (reach : Reach) → IsLiveAnswer reach answer → IfSome result (IsLiveResidual reach) }
{
    match answer {
        Ok(Outcome::Suspends(_, rest)) => Some(rest),
        _ => None,
    }
}

// What an operation comes to as it is resumed; what a function left fails.
fn resume_residual(
    rest: Residual,
    w: &mut World,
    l: &mut Slots,
    streams: &mut SureStreams,
) -> Result<Outcome, Halt>
    requires rest { IsLiveResidual (reach_of w.old l.old.vals.items) rest }
    requires locals { All (IsLive (extent_of w.old.heap)) l.old.vals.items }
    ensures live { IsLiveAnswer (reach_of w.new l.new.vals.items) result }
    ensures locals { All (IsLive (extent_of w.new.heap)) l.new.vals.items }
{
    match rest {
        Residual::TextBytes { text, place } => text_bytes_from(w, l, text, place),
        Residual::VariableBytes { variable, place } => variable_bytes_from(w, l, variable, place),
        Residual::ListItems { list, place } => list_items_from(w, l, list, place),
        Residual::SetMembers { set, place } => set_members_from(w, l, set, place),
        Residual::TableValues { table, place } => table_values_from(w, l, table, place),
        Residual::RecordFields { rec, place } => record_fields_from(w, l, rec, place),
        Residual::FileLines { file } => streams.lines(file, w, l),
        Residual::UndoAssign { variable, old } => undo_assign_again(w, l, variable, old),
        Residual::UndoExchange {
            mover,
            left,
            right,
            old_left,
            old_right,
        } => undo_exchange_again(w, l, mover, left, right, old_left, old_right),
        Residual::UndoPosition { old } => undo_position_again(w, l, old),
        Residual::Counting { given, last, step } => Ok(counting_again(given, last, step)),
        _ => Ok(Outcome::Fails),
    }
}

// The operation of a line's first field, if it is one.
fn operation(line: &str) -> Option<Op> {
    let field = line.split(' ').next()?;
    op_numbered(field.parse::<u32>().ok()?)
}
