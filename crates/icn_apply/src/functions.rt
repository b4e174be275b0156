// The row of each function.
ghost use Rattle.std.specs.Prelude.{◌≡◌, [], map};
ghost use Rattle.std.specs.List.{All};
ghost use Rattle.icn_value.specs.Store.{bare_outside};
ghost use Rattle.icn_defs.specs.Applying.{function_of, function_row};
ghost use Rattle.icn_heap.specs.Extents.{IsLive, value_in};
ghost use Rattle.icn_heap.specs.Heaps.{extent_of, heap_of};
ghost use Rattle.icn_convert.specs.ProgramNames.{IsNamed};
ghost use Rattle.law_names.specs.NamedSettings.{HeapNamed, ItemNamed, SettingNamed, ValueNamed};
ghost use Rattle.icn_vars.specs.Outcomes.{answer_of};
ghost use Rattle.icn_vars.specs.Worlds.{IsLiveItem, item_in, reach_of, setting_of};
ghost use Rattle.icn_streams.specs.Answers.{call_state};
ghost use Rattle.icn_streams.specs.Applies.{Applies};
ghost use Rattle.icn_apply.specs.NamesAfter.{AnswerNamed};
ghost use Rattle.icn_apply.specs.ResumedFunctions.{GivesOneAtMost};
ghost use Rattle.icn_apply.specs.SizesAfter.{AnswerKeepsSizes};

use crate::errors::errorclear_row;
use crate::naming::{args_row, proc_row};
use icn_args::values_of;
use icn_convert::Names;
use icn_iofn::exit;
use icn_scanfn::{
    any_row, bal_row, find_row, many_row, match_row, move_row, pos_row, tab_row, upto_row,
};
use icn_streams::Streams;
use icn_strfn::{
    Layout, abs_row, char_row, cset_row, field_row, iand_row, icom_row, image_row, integer_row,
    ior_row, ishift_row, ixor_row, map_row, ord_row, repl_row, reverse_row, seq_row, string_row,
    trim_row, type_row,
};
use icn_text::Func;
use icn_value::{Item, Val};
use icn_vars::{Halt, Locals, Outcome, ValueOutcome, World};

/// Applies a function to items. `Halt` is the run-time error of its row, the end of the program by `exit`, a reading or a
/// writing or a call of the store of files that failed, or want of memory.
pub fn apply_function<L: Locals, N: Names, S: Streams>(
    func: Func,
    args: &[Item],
    w: &mut World,
    l: &L,
    names: &N,
    streams: &mut S,
) -> Result<Outcome, Halt>
    requires locals { All (IsLive (extent_of w.old.heap)) (L.items l.now) }
    requires args { All (IsLiveItem (reach_of w.old (L.items l.now))) args.now }
    requires named { SettingNamed (N.known names.now) (setting_of bare_outside w.old (L.items l.now)) }
    requires args_named { All (ItemNamed (N.known names.now))
        (map (item_in (extent_of w.old.heap)) args.now) }
    ensures applies { Applies (function_row (N.known names.now) func
        (map (item_in (extent_of w.old.heap)) args.now))
        (call_state w.old (L.items l.now) (S.state streams.old))
        (call_state w.new (L.items l.now) (S.state streams.new)) result }
    ensures named { AnswerNamed (N.known names.now) w.new (L.items l.now) result }
    ensures sized { AnswerKeepsSizes w.old w.new result }
{
    let vals = values_of(w, l, args)?;
    apply_to_values(func, &vals, w, l, names, streams)
}

// Applies a function to the values of its arguments; one that is missing is null.
fn apply_to_values<L: Locals, N: Names, S: Streams>(
    func: Func,
    vals: &[Val],
    w: &mut World,
    l: &L,
    names: &N,
    streams: &mut S,
) -> Result<Outcome, Halt>
    requires locals { All (IsLive (extent_of w.old.heap)) (L.items l.now) }
    requires vals { All (IsLive (extent_of w.old.heap)) vals.now }
    requires named { All (IsNamed (N.known names.now)) vals.now }
    requires heap_named { HeapNamed (N.known names.now) (heap_of w.old.heap) }
    ensures { Applies (function_of (N.known names.now) func (map (value_in (extent_of w.old.heap)) vals.now))
        (call_state w.old (L.items l.now) (S.state streams.old))
        (call_state w.new (L.items l.now) (S.state streams.new)) result }
{
    match func {
        // What may be resumed is answered at once.
        Func::Bal => return bal_row(w, l, vals),
        Func::Find => return find_row(w, l, vals),
        Func::Key => return icn_structfn::key(w, l, vals),
        Func::Move => return move_row(w, l, vals),
        Func::Seq => return seq_row(w, l, vals),
        Func::Tab => return tab_row(w, l, vals),
        Func::Upto => return upto_row(w, l, vals),
        _ => {}
    }
    as_answer(value_answer(func, vals, w, l, names, streams))
}

// Applies a function that gives a value at most.
fn value_answer<L: Locals, N: Names, S: Streams>(
    func: Func,
    vals: &[Val],
    w: &mut World,
    l: &L,
    names: &N,
    streams: &mut S,
) -> Result<ValueOutcome, Halt>
    requires locals { All (IsLive (extent_of w.old.heap)) (L.items l.now) }
    requires vals { All (IsLive (extent_of w.old.heap)) vals.now }
    requires named { All (IsNamed (N.known names.now)) vals.now }
    requires heap_named { HeapNamed (N.known names.now) (heap_of w.old.heap) }
    requires once { GivesOneAtMost func }
    ensures { Applies (function_of (N.known names.now) func (map (value_in (extent_of w.old.heap)) vals.now))
        (call_state w.old (L.items l.now) (S.state streams.old))
        (call_state w.new (L.items l.now) (S.state streams.new)) (answer_of result) }
{
    match func {
        Func::Abs => abs_row(w, l, vals),
        Func::Any => any_row(w, l, vals),
        Func::Bal => unreachable!(),
        Func::Center => field_row(w, l, Layout::Center, vals),
        Func::Char => char_row(w, l, vals),
        Func::Copy => icn_structfn::copy(w, l, vals),
        Func::Cset => cset_row(w, l, vals),
        Func::Delete => icn_structfn::delete(w, l, vals),
        Func::Exit => exit(&w.heap, vals),
        Func::Find => unreachable!(),
        Func::Get => icn_structfn::get(w, l, vals),
        Func::Iand => iand_row(w, l, vals),
        Func::Icom => icom_row(w, l, vals),
        Func::Image => image_row(names, w, l, vals),
        Func::Insert => icn_structfn::insert(w, l, vals),
        Func::Integer => integer_row(w, l, vals),
        Func::Ior => ior_row(w, l, vals),
        Func::Ishift => ishift_row(w, l, vals),
        Func::Ixor => ixor_row(w, l, vals),
        Func::Key => unreachable!(),
        Func::Left => field_row(w, l, Layout::Left, vals),
        Func::List => icn_structfn::list(w, l, vals),
        Func::Many => many_row(w, l, vals),
        Func::Map => map_row(w, l, vals),
        Func::Match => match_row(w, l, vals),
        Func::Member => icn_structfn::member(w, l, vals),
        Func::Move => unreachable!(),
        Func::Numeric => integer_row(w, l, vals),
        Func::Ord => ord_row(w, l, vals),
        Func::Pop => icn_structfn::get(w, l, vals),
        Func::Pos => pos_row(w, l, vals),
        Func::Pull => icn_structfn::pull(w, l, vals),
        Func::Push => icn_structfn::push(w, l, vals),
        Func::Put => icn_structfn::put(w, l, vals),
        Func::Read => streams.read(vals, w, l),
        Func::Reads => streams.reads(vals, w, l),
        Func::Repl => repl_row(w, l, vals),
        Func::Reverse => reverse_row(w, l, vals),
        Func::Right => field_row(w, l, Layout::Right, vals),
        Func::Seq => unreachable!(),
        Func::Set => icn_structfn::set(w, l, vals),
        Func::Sort => icn_structfn::sort(w, l, names, vals),
        Func::Stop => streams.stop(vals, w, l),
        Func::String => string_row(w, l, vals),
        Func::Tab => unreachable!(),
        Func::Table => icn_structfn::table(w, l, vals),
        Func::Trim => trim_row(w, l, vals),
        Func::TypeOf => type_row(names, w, l, vals),
        Func::Upto => unreachable!(),
        Func::Write => streams.write(vals, w, l),
        Func::Writes => streams.writes(vals, w, l),
        Func::ErrorClear => errorclear_row(w, l),
        Func::Open => streams.open_file(vals, w, l),
        Func::Close => streams.close_file(vals, w, l),
        Func::Proc => proc_row(names, w, l, vals),
        Func::Args => args_row(names, w, l, vals),
    }
}

/// Applies a function that gives a value at most to the values of its arguments; one that is missing is null. The errors are those
/// of `apply`.
#[inline(always)]
pub fn function_answer<L: Locals, N: Names, S: Streams>(
    func: Func,
    vals: &[Val],
    w: &mut World,
    l: &L,
    names: &N,
    streams: &mut S,
) -> Result<ValueOutcome, Halt>
    requires locals { All (IsLive (extent_of w.old.heap)) (L.items l.now) }
    requires vals { All (IsLive (extent_of w.old.heap)) vals.now }
    requires named { SettingNamed (N.known names.now) (setting_of bare_outside w.old (L.items l.now)) }
    requires vals_named { All (ValueNamed (N.known names.now))
        (map (value_in (extent_of w.old.heap)) vals.now) }
    requires once { GivesOneAtMost func }
    ensures applies { Applies (function_of (N.known names.now) func
        (map (value_in (extent_of w.old.heap)) vals.now))
        (call_state w.old (L.items l.now) (S.state streams.old))
        (call_state w.new (L.items l.now) (S.state streams.new)) (answer_of result) }
    ensures named { AnswerNamed (N.known names.now) w.new (L.items l.now) (answer_of result) }
    ensures sized { AnswerKeepsSizes w.old w.new (answer_of result) }
{
    value_answer(func, vals, w, l, names, streams)
}

/// Applies a function to the values of its arguments, whatever it gives; one that is missing is null. The errors are those of `apply`.
pub fn function_outcome<L: Locals, N: Names, S: Streams>(
    func: Func,
    vals: &[Val],
    w: &mut World,
    l: &L,
    names: &N,
    streams: &mut S,
) -> Result<Outcome, Halt>
    requires locals { All (IsLive (extent_of w.old.heap)) (L.items l.now) }
    requires vals { All (IsLive (extent_of w.old.heap)) vals.now }
    requires named { SettingNamed (N.known names.now) (setting_of bare_outside w.old (L.items l.now)) }
    requires vals_named { All (ValueNamed (N.known names.now))
        (map (value_in (extent_of w.old.heap)) vals.now) }
    ensures applies { Applies (function_of (N.known names.now) func
        (map (value_in (extent_of w.old.heap)) vals.now))
        (call_state w.old (L.items l.now) (S.state streams.old))
        (call_state w.new (L.items l.now) (S.state streams.new)) result }
    ensures named { AnswerNamed (N.known names.now) w.new (L.items l.now) result }
    ensures sized { AnswerKeepsSizes w.old w.new result }
{
    apply_to_values(func, vals, w, l, names, streams)
}

// What a row answers that gives a value at most, as an answer that could suspend.
fn as_answer(answer: Result<ValueOutcome, Halt>) -> Result<Outcome, Halt>
    ensures { result ≡ answer_of answer }
{
    match answer {
        Ok(given) => Ok(given.outcome()),
        Err(halt) => Err(halt),
    }
}
