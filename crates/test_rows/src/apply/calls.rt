// Calls of a row, and of what it leaves until it fails.
ghost use Rattle.std.specs.Prelude.{map, IfOk, IsTrue, OnOk};
ghost use Rattle.std.specs.List.{All};
ghost use Rattle.icn_heap.specs.Extents.{IsLive};
ghost use Rattle.icn_heap.specs.Heaps.{extent_of};
ghost use Rattle.law_names.specs.NamedSettings.{ItemNamed, ResidualNamed};
ghost use Rattle.icn_vars.specs.Outcomes.{IsLiveOutcome, IsLiveResidual, residual_in};
ghost use Rattle.icn_vars.specs.Worlds.{IsLiveItem, item_in, reach_of};
ghost use Rattle.test_rows.specs.Ready.{ComesNamed, IsReadySetting, IsReadyAnswer};

use crate::apply::showing::{push_halt, push_item};
use crate::apply::streams::TestStreams;
use crate::apply::worlds::keep;
use icn_apply::{Applied, again, apply};
use icn_convert::Names;
use icn_defs::op_numbered;
use icn_text::func_named;
use icn_value::{Item, Residual, Val};
use icn_vars::{Halt, Outcome, World};
use std::alloc::AllocError;
use test_values::Slots;

/// What a word names that may be applied: a function by its name, an operation by its number.
pub fn applied_named(word: &str) -> Option<Applied> {
    match func_named(word.as_bytes()) {
        Some(func) => Some(Applied::Func(func)),
        None => Some(Applied::Op(op_numbered(word.parse::<u32>().ok()?)?)),
    }
}

/// Applies it, and appends what it gives and what it gives as it is resumed. Whether the case goes on. `AllocError` is want
/// of memory.
pub fn push_applied<N: Names>(
    out: &mut String,
    w: &mut World,
    l: &mut Slots,
    names: &N,
    streams: &mut TestStreams,
    what: Applied,
    items: &[Item],
) -> Result<bool, AllocError>
    requires ready { IsReadySetting (N.known names.now) w.old l.old.vals.items }
    requires items { All (IsLiveItem (reach_of w.old l.old.vals.items)) items.now }
    requires items_named { All (ItemNamed (N.known names.now))
        (map (item_in (extent_of w.old.heap)) items.now) }
    ensures { IfOk result
        (λ goes_on. IsTrue goes_on → IsReadySetting (N.known names.now) w.new l.new.vals.items) }
{
    let answer = first(w, l, names, streams, what, items);
    push_resumed(out, w, l, names, streams, answer)
}

fn first<N: Names>(
    w: &mut World,
    l: &mut Slots,
    names: &N,
    streams: &mut TestStreams,
    what: Applied,
    items: &[Item],
) -> Result<Outcome, Halt>
    requires ready { IsReadySetting (N.known names.now) w.old l.old.vals.items }
    requires items { All (IsLiveItem (reach_of w.old l.old.vals.items)) items.now }
    requires items_named { All (ItemNamed (N.known names.now))
        (map (item_in (extent_of w.old.heap)) items.now) }
    ensures { IsReadyAnswer (N.known names.now) w.new l.new.vals.items result }
{
    apply(what, items, w, l, names, streams)
}

// Appends what was given, and up to five times what comes of resuming it.
#[tactic(auto, using(crate::proofs::Named::ok_comes, crate::proofs::Named::ok_live, crate::proofs::Named::suspends_ready, crate::proofs::Named::rest_named, crate::proofs::Named::item_live, crate::proofs::Named::rest_live))]
fn push_resumed<N: Names>(
    out: &mut String,
    w: &mut World,
    l: &mut Slots,
    names: &N,
    streams: &mut TestStreams,
    answer: Result<Outcome, Halt>,
) -> Result<bool, AllocError>
    requires { IsReadyAnswer (N.known names.now) w.old l.old.vals.items answer }
    ensures { IfOk result
        (λ goes_on. IsTrue goes_on → IsReadySetting (N.known names.now) w.new l.new.vals.items) }
{
    let mut answer = answer;
    for _ in 0..5 {
        match answer {
            Ok(outcome) => match outcome {
                Outcome::Fails => return push_last(out, w, l, names, answer),
                Outcome::Gives(_) => return push_last(out, w, l, names, answer),
                Outcome::Suspends(item, rest) => {
                    push_item(out, w, l, item)?;
                    out.push_str(" .. ")?;
                    answer = resume_residual(w, l, names, streams, rest);
                }
            },
            Err(_) => return push_last(out, w, l, names, answer),
        }
    }
    push_last(out, w, l, names, answer)
}

fn resume_residual<N: Names>(
    w: &mut World,
    l: &mut Slots,
    names: &N,
    streams: &mut TestStreams,
    rest: Residual,
) -> Result<Outcome, Halt>
    requires ready { IsReadySetting (N.known names.now) w.old l.old.vals.items }
    requires live { IsLiveResidual (reach_of w.old l.old.vals.items) rest }
    requires named { ResidualNamed (N.known names.now) (residual_in (extent_of w.old.heap) rest) }
    ensures { IsReadyAnswer (N.known names.now) w.new l.new.vals.items result }
{
    again(rest, w, l, names, streams)
}

// Appends what a call came to at last.
#[tactic(auto, using(crate::proofs::Named::ok_comes, crate::proofs::Named::ok_live, crate::proofs::Named::err_live))]
fn push_last<N: Names>(
    out: &mut String,
    w: &mut World,
    l: &Slots,
    names: &N,
    answer: Result<Outcome, Halt>,
) -> Result<bool, AllocError>
    requires { IsReadyAnswer (N.known names.now) w.old l.now.vals.items answer }
    ensures { IfOk result
        (λ goes_on. IsTrue goes_on → IsReadySetting (N.known names.now) w.new l.now.vals.items) }
{
    match answer {
        Ok(outcome) => {
            push_outcome(out, w, l, names, outcome)?;
            Ok(true)
        }
        Err(halt) => {
            push_halt(out, w, l, halt)?;
            Ok(false)
        }
    }
}

// Appends what is given. A value becomes the next one by its number, and what is none counts as null.
#[tactic(auto, using(crate::proofs::Named::fails_ready, crate::proofs::Named::gives_ready, crate::proofs::Named::gives_named, crate::proofs::Named::suspends_ready, crate::proofs::Named::item_live))]
fn push_outcome<N: Names>(
    out: &mut String,
    w: &mut World,
    l: &Slots,
    names: &N,
    outcome: Outcome,
) -> Result<(), AllocError>
    requires live { IsLiveOutcome (reach_of w.old l.now.vals.items) outcome }
    requires named { ComesNamed (N.known names.now) w.old l.now.vals.items outcome }
    requires locals { All (IsLive (extent_of w.old.heap)) l.now.vals.items }
    ensures { OnOk result (IsReadySetting (N.known names.now) w.new l.now.vals.items) }
{
    match outcome {
        Outcome::Fails => {
            out.push_str("fails")?;
            keep(w, l, names, Val::Null)
        }
        Outcome::Gives(item) => {
            push_item(out, w, l, item)?;
            keep_item(w, l, names, item)
        }
        Outcome::Suspends(item, _) => {
            push_item(out, w, l, item)?;
            out.push_str(" ..")?;
            keep(w, l, names, Val::Null)
        }
    }
}

fn keep_item<N: Names>(w: &mut World, l: &Slots, names: &N, item: Item) -> Result<(), AllocError>
    requires ready { IsReadySetting (N.known names.now) w.old l.now.vals.items }
    requires live { IsLiveItem (reach_of w.old l.now.vals.items) item }
    requires named { ItemNamed (N.known names.now) (item_in (extent_of w.old.heap) item) }
    ensures { OnOk result (IsReadySetting (N.known names.now) w.new l.now.vals.items) }
{
    match item {
        Item::Val(val) => keep(w, l, names, val),
        Item::Var(_) => keep(w, l, names, Val::Null),
    }
}
