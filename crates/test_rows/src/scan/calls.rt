// Calls of the functions of scanning, and what they left.
ghost use Rattle.std.specs.List.{All};
ghost use Rattle.icn_heap.specs.Extents.{IsLive};
ghost use Rattle.icn_heap.specs.Heaps.{extent_of};
ghost use Rattle.icn_vars.specs.Outcomes.{IsLiveAnswer, IsLiveResidual, answer_of};
ghost use Rattle.icn_vars.specs.Worlds.{reach_of};

use icn_args::undo_position_again;
use icn_scanfn::{
    Sets, among_again, any_row, bal_row, balanced_again, find_row, found_again, many_row,
    match_row, move_row, pos_row, tab_row, upto_row,
};
use icn_text::Func;
use icn_value::{Residual, Val};
use icn_vars::{Halt, Outcome, ValueOutcome, World};
use test_values::Slots;

/// What a function of scanning comes to; another one fails. The errors are those of its row.
pub fn call_function(func: Func, args: &[Val], w: &mut World, l: &Slots) -> Result<Outcome, Halt>
    requires locals { All (IsLive (extent_of w.old.heap)) l.now.vals.items }
    requires args { All (IsLive (extent_of w.old.heap)) args.now }
    ensures live { IsLiveAnswer (reach_of w.new l.now.vals.items) result }
    ensures locals { All (IsLive (extent_of w.new.heap)) l.now.vals.items }
{
    match func {
        Func::Bal => bal_row(w, l, args),
        Func::Find => find_row(w, l, args),
        Func::Move => move_row(w, l, args),
        Func::Tab => tab_row(w, l, args),
        Func::Upto => upto_row(w, l, args),
        _ => {
            let given = row_answer(func, args, w, l)?;
            Ok(given.outcome())
        }
    }
}

// What a function of scanning comes to that gives a value at most.
fn row_answer(func: Func, args: &[Val], w: &mut World, l: &Slots) -> Result<ValueOutcome, Halt>
    requires locals { All (IsLive (extent_of w.old.heap)) l.now.vals.items }
    requires args { All (IsLive (extent_of w.old.heap)) args.now }
    ensures live { IsLiveAnswer (reach_of w.new l.now.vals.items) (answer_of result) }
    ensures locals { All (IsLive (extent_of w.new.heap)) l.now.vals.items }
{
    match func {
        Func::Any => any_row(w, l, args),
        Func::Many => many_row(w, l, args),
        Func::Match => match_row(w, l, args),
        Func::Pos => pos_row(w, l, args),
        _ => Ok(ValueOutcome::Fails),
    }
}

/// What a function of scanning comes to as it is resumed; what another one left fails. The error is 205, of a move that is taken
/// back where the subject is too short now.
pub fn resume_residual(rest: Residual, w: &mut World, l: &Slots) -> Result<Outcome, Halt>
    requires rest { IsLiveResidual (reach_of w.old l.now.vals.items) rest }
    requires locals { All (IsLive (extent_of w.old.heap)) l.now.vals.items }
    ensures live { IsLiveAnswer (reach_of w.new l.now.vals.items) result }
    ensures locals { All (IsLive (extent_of w.new.heap)) l.now.vals.items }
{
    match rest {
        Residual::UndoPosition { old } => undo_position_again(w, l, old),
        Residual::Balanced {
            wanted,
            opening,
            closing,
            text,
            place,
            last,
        } => {
            let sets = Sets {
                wanted,
                opening,
                closing,
            };
            Ok(balanced_again(w, l, sets, text, place, last))
        }
        Residual::Found {
            wanted,
            text,
            place,
            last,
        } => Ok(found_again(w, l, wanted, text, place, last)),
        Residual::Among {
            wanted,
            text,
            place,
            last,
        } => Ok(among_again(w, l, wanted, text, place, last)),
        _ => Ok(Outcome::Fails),
    }
}

/// Whether a move is taken back.
pub fn is_move(rest: Residual) -> bool {
    matches!(rest, Residual::UndoPosition { .. })
}
