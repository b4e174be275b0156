// A case: what fails, and calls.
ghost use Rattle.std.specs.Prelude.{◌<◌, length, IfOk, IsTrue};
ghost use Rattle.test_rows.specs.Ready.{IsReadySetting};

use crate::apply::calls::{applied_named, push_applied};
use crate::apply::items::items_of;
use crate::apply::streams::{TestStreams, new_streams, push_streams};
use crate::apply::words::take_words;
use crate::apply::worlds::{one_local, start};
use icn_convert::Names;
use icn_vars::World;
use std::alloc::{AllocError, Global};
use test_values::Slots;

/// What the calls of a line come to, what is left of the input, and what was put on both outputs. `AllocError` is want of
/// memory.
pub fn outcome<N: Names>(alloc: Global, names: &N, line: &str) -> Result<String, AllocError>
    requires { 0 < length (N.known names.now).records }
{
    let mut out = String::new(alloc);
    let (word, calls) = line.split_once(";").unwrap_or((line, ""));
    let mut streams = new_streams(alloc, word, b"one\ntwo")?;
    let mut l = one_local(alloc)?;
    match start(alloc, names, &l) {
        Ok(mut w) => push_calls(&mut out, &mut w, &mut l, names, &mut streams, calls)?,
        Err(_) => out.push_str("no world")?,
    }
    push_streams(&mut out, &streams)?;
    Ok(out)
}

// Appends what calls come to, up to the first that gives nothing and does not fail.
fn push_calls<N: Names>(
    out: &mut String,
    w: &mut World,
    l: &mut Slots,
    names: &N,
    streams: &mut TestStreams,
    calls: &str,
) -> Result<(), AllocError>
    requires { IsReadySetting (N.known names.now) w.old l.old.vals.items }
{
    for call in calls.split(';') {
        if push_call(out, w, l, names, streams, call)? {
            out.push_str("; ")?;
        } else {
            return out.push(' ');
        }
    }
    Ok(())
}

// Makes a call, and appends what it comes to. Whether the case goes on.
fn push_call<N: Names>(
    out: &mut String,
    w: &mut World,
    l: &mut Slots,
    names: &N,
    streams: &mut TestStreams,
    call: &str,
) -> Result<bool, AllocError>
    requires { IsReadySetting (N.known names.now) w.old l.old.vals.items }
    ensures { IfOk result
        (λ goes_on. IsTrue goes_on → IsReadySetting (N.known names.now) w.new l.new.vals.items) }
{
    let (name, words) = call.split_once(" ").unwrap_or((call, ""));
    take_words(w, l, names, words)?;
    let items = items_of(*w.globals.allocator(), w, l, names, words)?;
    match applied_named(name) {
        Some(what) => push_applied(out, w, l, names, streams, what, &items),
        None => {
            out.push_str("no call")?;
            Ok(false)
        }
    }
}
