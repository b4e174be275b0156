// The values of a call's words.
ghost use Rattle.std.specs.Prelude.{OnOk};
ghost use Rattle.icn_heap.specs.Extents.{Extent, IsLive, value_in};
ghost use Rattle.icn_heap.specs.Heaps.{extent_of};
ghost use Rattle.icn_value.specs.Store.{Names as NamesData};
ghost use Rattle.law_names.specs.NamedSettings.{ValueNamed};
ghost use Rattle.test_rows.specs.Ready.{IsReadySetting};

use crate::apply::worlds::{add_value, no_words, value_at};
use icn_convert::Names;
use icn_text::{Func, read_integer};
use icn_value::Val;
use icn_vars::World;
use std::alloc::AllocError;
use test_values::{Slots, number, plain};

/// Makes the values of a call's words the statics. `AllocError` is want of memory.
pub fn take_words<N: Names>(
    w: &mut World,
    l: &Slots,
    names: &N,
    words: &str,
) -> Result<(), AllocError>
    requires { IsReadySetting (N.known names.now) w.old l.now.vals.items }
    ensures { OnOk result (IsReadySetting (N.known names.now) w.new l.now.vals.items) }
{
    no_words(w, l, names);
    for word in words.split(' ') {
        add_word(w, l, names, word.as_bytes())?;
    }
    Ok(())
}

fn add_word<N: Names>(w: &mut World, l: &Slots, names: &N, word: &[u8]) -> Result<(), AllocError>
    requires { IsReadySetting (N.known names.now) w.old l.now.vals.items }
    ensures { OnOk result (IsReadySetting (N.known names.now) w.new l.now.vals.items) }
{
    match word.split_first() {
        Some((b'"', rest)) => add_text(w, l, names, rest),
        Some((b'$', rest)) => {
            let val = earlier(w, l, names, rest);
            add_value(w, l, names, val)
        }
        _ => add_value(w, l, names, constant(word)),
    }
}

// Adds the text of these bytes.
#[tactic(auto, using(icn_vars::proofs::GrowingWorlds::grows))]
fn add_text<N: Names>(w: &mut World, l: &Slots, names: &N, bytes: &[u8]) -> Result<(), AllocError>
    requires { IsReadySetting (N.known names.now) w.old l.now.vals.items }
    ensures { OnOk result (IsReadySetting (N.known names.now) w.new l.now.vals.items) }
{
    let span = w.heap.hold(bytes)?;
    add_value(w, l, names, Val::Text(span))
}

// What an earlier call gave, by its number.
fn earlier<N: Names>(w: &World, _l: &Slots, _names: &N, digits: &[u8]) -> Val
    requires { IsReadySetting (N.known _names.now) w.now _l.now.vals.items }
    ensures live { IsLive (extent_of w.now.heap) result }
    ensures named { ValueNamed (N.known _names.now) (value_in (extent_of w.now.heap) result) }
{
    value_at(&w.globals, number(digits) as usize)
}

// The value of a word that is neither a text nor an earlier value.
fn constant(word: &[u8]) -> Val
    ensures live { (all : Extent) → IsLive all result }
    ensures named { (names : NamesData) (all : Extent) → ValueNamed names (value_in all result) }
{
    match word.split_first() {
        Some((b'^', rest)) => procedure(rest),
        _ => plain(word),
    }
}

// The procedure value of a number that each program has, or null.
fn procedure(digits: &[u8]) -> Val
    ensures live { (all : Extent) → IsLive all result }
    ensures named { (names : NamesData) (all : Extent) → ValueNamed names (value_in all result) }
{
    match read_integer(digits) {
        Ok(n) => {
            if 0 <= n && n < Func::ALL.len() as i64 {
                Val::Proc(n as u32)
            } else {
                Val::Null
            }
        }
        Err(_) => Val::Null,
    }
}
