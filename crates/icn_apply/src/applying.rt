// All rows in one call.
ghost use Rattle.std.specs.Prelude.{◌≡◌, ◌≢◌, ◌∷◌, [], IfErr, map, true};
ghost use Rattle.std.specs.List.{All};
ghost use Rattle.icn_text.specs.declared.op.Op.TheVariants as Ops;
ghost use Rattle.icn_value.specs.Store.{bare_outside};
ghost use Rattle.icn_defs.specs.Applying as rows;
ghost use Rattle.icn_defs.specs.StepRows as step_rows;
ghost use Rattle.icn_heap.specs.Extents.{IsLive};
ghost use Rattle.icn_heap.specs.Heaps.{extent_of};
ghost use Rattle.law_names.specs.NamedSettings.{ItemNamed, ResidualNamed, SettingNamed};
ghost use Rattle.icn_vars.specs.Outcomes.{IsLiveResidual, answer_of, residual_in};
ghost use Rattle.icn_vars.specs.Worlds.{IsLiveItem, item_in, reach_of, setting_of};
ghost use Rattle.icn_vars.specs.declared.outcome.Halt.TheVariants.{NoMemory};
ghost use Rattle.icn_streams.specs.Answers.{call_state};
ghost use Rattle.icn_streams.specs.Applies.{Applies};
ghost use Rattle.icn_apply.specs.AppliedRows.{applied_of};
ghost use Rattle.icn_apply.specs.NamesAfter.{AnswerNamed};
ghost use Rattle.icn_apply.specs.SizesAfter.{AnswerKeepsSizes};
ghost use Rattle.icn_apply.specs.Undoing.{undoes_in_place};

use crate::applied::Applied;
use crate::functions::apply_function;
use icn_args::undo_position_again;
use icn_convert::Names;
use icn_ops::{
    apply_operation, assign_row, concatenate_row, counting_again, list_items_from,
    record_fields_from, set_members_from, table_values_from, text_bytes_from, undo_assign_again,
    undo_exchange_again, variable_bytes_from,
};
use icn_scanfn::{Sets, among_again, balanced_again, found_again};
use icn_streams::Streams;
use icn_strfn::sequence_again;
use icn_structfn::key_again;
use icn_value::{Item, Residual};
use icn_vars::{Halt, Locals, Outcome, ValueOutcome, World};

/// Applies an operation or a function. An operand that is missing is null, and one that is too many does nothing. The refreshing
/// of a co-expression is no row: it fails here.
///
/// # Errors
///
/// `Error` and `Ends` where the row says so. `ReadFault` where the input failed in this call, `WriteFault` where an output did, and
/// `FileFault` where the store of files did, `NoMemory` where memory ran out: the run is over then, and the row was broken off
/// before it read or put anything, as it read, as it put, or in a call of the store of files.
pub fn apply<L: Locals, N: Names, S: Streams>(
    what: Applied,
    args: &[Item],
    w: &mut World,
    l: &mut L,
    names: &N,
    streams: &mut S,
) -> Result<Outcome, Halt>
    requires locals { All (IsLive (extent_of w.old.heap)) (L.items l.old) }
    requires args { All (IsLiveItem (reach_of w.old (L.items l.old))) args.now }
    requires named { SettingNamed (N.known names.now) (setting_of bare_outside w.old (L.items l.old)) }
    requires args_named { All (ItemNamed (N.known names.now))
        (map (item_in (extent_of w.old.heap)) args.now) }
    ensures applies { Applies (step_rows.apply (N.known names.now) (applied_of what)
        (map (item_in (extent_of w.old.heap)) args.now))
        (call_state w.old (L.items l.old) (S.state streams.old))
        (call_state w.new (L.items l.new) (S.state streams.new)) result }
    ensures named { AnswerNamed (N.known names.now) w.new (L.items l.new) result }
    ensures sized { AnswerKeepsSizes w.old w.new result }
{
    match what {
        Applied::Op(op) => apply_operation(op, args, w, l, streams),
        Applied::Func(func) => apply_function(func, args, w, l, names, streams),
    }
}

/// Puts two texts together, as `x || y` does. The errors are those of `apply`.
pub fn concatenate<L: Locals, N: Names, S: Streams>(
    x: Item,
    y: Item,
    w: &mut World,
    l: &L,
    names: &N,
    streams: &mut S,
) -> Result<ValueOutcome, Halt>
    requires locals { All (IsLive (extent_of w.old.heap)) (L.items l.now) }
    requires args { All (IsLiveItem (reach_of w.old (L.items l.now))) (x ∷ y ∷ []) }
    requires named { SettingNamed (N.known names.now) (setting_of bare_outside w.old (L.items l.now)) }
    requires args_named { All (ItemNamed (N.known names.now))
        (map (item_in (extent_of w.old.heap)) (x ∷ y ∷ [])) }
    ensures applies { Applies (step_rows.apply (N.known names.now) (step_rows.Operation Ops.Concatenate)
        (map (item_in (extent_of w.old.heap)) (x ∷ y ∷ [])))
        (call_state w.old (L.items l.now) (S.state streams.old))
        (call_state w.new (L.items l.now) (S.state streams.new)) (answer_of result) }
    ensures named { AnswerNamed (N.known names.now) w.new (L.items l.now) (answer_of result) }
    ensures sized { AnswerKeepsSizes w.old w.new (answer_of result) }
{
    concatenate_row(w, l, x, y)
}

/// Assigns the value of `y` to the variable `x`, as `x := y` does. The errors are those of `apply`.
pub fn assign<L: Locals, N: Names, S: Streams>(
    x: Item,
    y: Item,
    w: &mut World,
    l: &mut L,
    names: &N,
    streams: &mut S,
) -> Result<Outcome, Halt>
    requires locals { All (IsLive (extent_of w.old.heap)) (L.items l.old) }
    requires args { All (IsLiveItem (reach_of w.old (L.items l.old))) (x ∷ y ∷ []) }
    requires named { SettingNamed (N.known names.now) (setting_of bare_outside w.old (L.items l.old)) }
    requires args_named { All (ItemNamed (N.known names.now))
        (map (item_in (extent_of w.old.heap)) (x ∷ y ∷ [])) }
    ensures applies { Applies (step_rows.apply (N.known names.now) (step_rows.Operation Ops.Assign)
        (map (item_in (extent_of w.old.heap)) (x ∷ y ∷ [])))
        (call_state w.old (L.items l.old) (S.state streams.old))
        (call_state w.new (L.items l.new) (S.state streams.new)) result }
    ensures named { AnswerNamed (N.known names.now) w.new (L.items l.new) result }
    ensures sized { AnswerKeepsSizes w.old w.new result }
{
    assign_row(w, l, x, y)
}

/// Resumes what an operation or a function left. The errors are those of `apply`. An assignment or an exchange is taken back without
/// memory where no variable of it is a part of a text or a value at a key of a table, and a move always is.
pub fn again<L: Locals, N: Names, S: Streams>(
    rest: Residual,
    w: &mut World,
    l: &mut L,
    names: &N,
    streams: &mut S,
) -> Result<Outcome, Halt>
    requires locals { All (IsLive (extent_of w.old.heap)) (L.items l.old) }
    requires rest { IsLiveResidual (reach_of w.old (L.items l.old)) rest }
    requires named { SettingNamed (N.known names.now) (setting_of bare_outside w.old (L.items l.old)) }
    requires rest_named { ResidualNamed (N.known names.now) (residual_in (extent_of w.old.heap) rest) }
    ensures applies { Applies (rows.again (residual_in (extent_of w.old.heap) rest))
        (call_state w.old (L.items l.old) (S.state streams.old))
        (call_state w.new (L.items l.new) (S.state streams.new)) result }
    ensures named { AnswerNamed (N.known names.now) w.new (L.items l.new) result }
    ensures sized { AnswerKeepsSizes w.old w.new result }
    ensures memory { undoes_in_place (residual_in (extent_of w.old.heap) rest) ≡ true
        → IfErr result (λ halt. halt ≢ NoMemory) }
{
    resume(rest, w, l, streams)
}

// Resumes what was left.
fn resume<L: Locals, S: Streams>(
    rest: Residual,
    w: &mut World,
    l: &mut L,
    streams: &mut S,
) -> Result<Outcome, Halt>
    requires locals { All (IsLive (extent_of w.old.heap)) (L.items l.old) }
    requires rest { IsLiveResidual (reach_of w.old (L.items l.old)) rest }
    ensures applies { Applies (rows.again (residual_in (extent_of w.old.heap) rest))
        (call_state w.old (L.items l.old) (S.state streams.old))
        (call_state w.new (L.items l.new) (S.state streams.new)) result }
    ensures memory { undoes_in_place (residual_in (extent_of w.old.heap) rest) ≡ true
        → IfErr result (λ halt. halt ≢ NoMemory) }
{
    match rest {
        Residual::TextBytes { text, place } => text_bytes_from(w, l, text, place),
        Residual::VariableBytes { variable, place } => variable_bytes_from(w, l, variable, place),
        Residual::ListItems { list, place } => list_items_from(w, l, list, place),
        Residual::SetMembers { set, place } => set_members_from(w, l, set, place),
        Residual::TableValues { table, place } => table_values_from(w, l, table, place),
        Residual::TableKeys { table, place } => Ok(key_again(w, l, table, place)),
        Residual::RecordFields { rec, place } => record_fields_from(w, l, rec, place),
        Residual::FileLines { file } => streams.lines(file, w, l),
        Residual::UndoAssign { variable, old } => undo_assign_again(w, l, variable, old),
        Residual::UndoExchange {
            mover,
            left,
            right,
            old_left,
            old_right,
        } => undo_exchange_again(w, l, mover, left, right, old_left, old_right),
        Residual::UndoPosition { old } => undo_position_again(w, l, old),
        Residual::Counting { given, last, step } => Ok(counting_again(given, last, step)),
        Residual::Sequence { given, step } => sequence_again(given, step),
        Residual::Balanced {
            wanted,
            opening,
            closing,
            text,
            place,
            last,
        } => {
            let sets = Sets {
                wanted,
                opening,
                closing,
            };
            Ok(balanced_again(w, l, sets, text, place, last))
        }
        Residual::Found {
            wanted,
            text,
            place,
            last,
        } => Ok(found_again(w, l, wanted, text, place, last)),
        Residual::Among {
            wanted,
            text,
            place,
            last,
        } => Ok(among_again(w, l, wanted, text, place, last)),
    }
}
