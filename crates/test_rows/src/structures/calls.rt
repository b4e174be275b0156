// Calls over a world in which all has a name.
ghost use Rattle.std.specs.Prelude.{◌≡◌, [], map, IfOk};
ghost use Rattle.std.specs.List.{All};
ghost use Rattle.icn_heap.specs.Extents.{IsLive, value_in};
ghost use Rattle.icn_heap.specs.Heaps.{extent_of};
ghost use Rattle.law_names.specs.NamedSettings.{ValueNamed};
ghost use Rattle.icn_vars.specs.Outcomes.{IsLiveAnswer, answer_of};
ghost use Rattle.icn_vars.specs.Worlds.{reach_of};
ghost use Rattle.test_rows.specs.Naming.{AllNamed, ComesNamed};
ghost use Rattle.test_values.specs.OneRecord.{one_record};

use icn_structfn::key_again;
use icn_text::{Func, func_named};
use icn_value::Val;
use icn_vars::{Halt, Outcome, ValueOutcome, World};
use std::alloc::AllocError;
use test_values::{OneRecord, Slots};

/// Calls what a name says with the arguments: a function over structures, or else `next`. The error is that of the row, or
/// want of memory.
pub fn call_by_name(w: &mut World, l: &Slots, name: &[u8]) -> Result<Outcome, Halt>
    requires locals { l.now.vals.items ≡ [] }
    requires named { AllNamed w.old l.now.vals.items }
    ensures live { IsLiveAnswer (reach_of w.new l.now.vals.items) result }
    ensures named { IfOk result (ComesNamed w.new l.now.vals.items) }
{
    match func_named(name) {
        Some(func) => apply_to_arguments(w, l, func),
        None => next(w, l),
    }
}

// Applies a function over structures to the arguments.
fn apply_to_arguments(w: &mut World, l: &Slots, func: Func) -> Result<Outcome, Halt>
    requires locals { l.now.vals.items ≡ [] }
    requires named { AllNamed w.old l.now.vals.items }
    ensures live { IsLiveAnswer (reach_of w.new l.now.vals.items) result }
    ensures named { IfOk result (ComesNamed w.new l.now.vals.items) }
{
    match values(w, l) {
        Ok(args) => apply_to_values(w, l, func, &args),
        Err(_) => Err(Halt::NoMemory),
    }
}

// The arguments apart from their world.
fn values(w: &World, _l: &Slots) -> Result<Vec<Val>, AllocError>
    requires { AllNamed w.now _l.now.vals.items }
    ensures live { IfOk result (λ args. All (IsLive (extent_of w.now.heap)) args.items) }
    ensures named { IfOk result
        (λ args. All (ValueNamed one_record) (map (value_in (extent_of w.now.heap)) args.items)) }
{
    Ok(w.statics.as_slice().to_vec(*w.globals.allocator())?)
}

// Applies it to these values; a function that is over no structures fails.
#[tactic(auto, using(crate::proofs::NamesKept::function_comes))]
fn apply_to_values(w: &mut World, l: &Slots, func: Func, args: &[Val]) -> Result<Outcome, Halt>
    requires locals { All (IsLive (extent_of w.old.heap)) l.now.vals.items }
    requires named { AllNamed w.old l.now.vals.items }
    requires args { All (IsLive (extent_of w.old.heap)) args.now }
    requires args_named { All (ValueNamed one_record) (map (value_in (extent_of w.old.heap)) args.now) }
    ensures live { IsLiveAnswer (reach_of w.new l.now.vals.items) result }
    ensures named { IfOk result (ComesNamed w.new l.now.vals.items) }
{
    match func {
        Func::Key => icn_structfn::key(w, l, args),
        _ => {
            let given = row_answer(w, l, func, args)?;
            Ok(given.outcome())
        }
    }
}

// Applies one that gives a value at most.
#[tactic(auto, using(crate::proofs::NamesKept::function_comes))]
fn row_answer(w: &mut World, l: &Slots, func: Func, args: &[Val]) -> Result<ValueOutcome, Halt>
    requires locals { All (IsLive (extent_of w.old.heap)) l.now.vals.items }
    requires named { AllNamed w.old l.now.vals.items }
    requires args { All (IsLive (extent_of w.old.heap)) args.now }
    requires args_named { All (ValueNamed one_record) (map (value_in (extent_of w.old.heap)) args.now) }
    ensures live { IsLiveAnswer (reach_of w.new l.now.vals.items) (answer_of result) }
    ensures named { IfOk (answer_of result) (ComesNamed w.new l.now.vals.items) }
{
    match func {
        Func::Copy => icn_structfn::copy(w, l, args),
        Func::Delete => icn_structfn::delete(w, l, args),
        Func::Get => icn_structfn::get(w, l, args),
        Func::Insert => icn_structfn::insert(w, l, args),
        Func::List => icn_structfn::list(w, l, args),
        Func::Member => icn_structfn::member(w, l, args),
        Func::Pop => icn_structfn::get(w, l, args),
        Func::Pull => icn_structfn::pull(w, l, args),
        Func::Push => icn_structfn::push(w, l, args),
        Func::Put => icn_structfn::put(w, l, args),
        Func::Set => icn_structfn::set(w, l, args),
        Func::Sort => icn_structfn::sort(w, l, &OneRecord, args),
        Func::Table => icn_structfn::table(w, l, args),
        _ => Ok(ValueOutcome::Fails),
    }
}

// The key of a table, the first argument, at a place, the second.
#[tactic(auto, using(crate::proofs::NamesKept::key_comes))]
fn next(w: &World, l: &Slots) -> Result<Outcome, Halt>
    requires named { AllNamed w.now l.now.vals.items }
    ensures live { IsLiveAnswer (reach_of w.now l.now.vals.items) result }
    ensures named { IfOk result (ComesNamed w.now l.now.vals.items) }
{
    match argument(w, 0) {
        Val::Table(table) => Ok(key_again(w, l, table, place_of(argument(w, 1)))),
        _ => Ok(Outcome::Fails),
    }
}

/// An argument by its place, or null.
pub fn argument(w: &World, place: usize) -> Val
    ensures { IsLive (extent_of w.now.heap) result }
{
    if place < w.statics.len() {
        w.statics[place]
    } else {
        Val::Null
    }
}

fn place_of(val: Val) -> u64 {
    match val {
        Val::Integer(n) => n.unsigned_abs(),
        _ => 0,
    }
}
