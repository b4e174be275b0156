// The values of a case's words.
ghost use Rattle.std.specs.Prelude.{IfOk, ◌++◌, ◌∷◌, [], ◌≡◌};
ghost use Rattle.icn_value.specs.Store.{Names as NamesData};
ghost use Rattle.icn_heap.specs.Extents.{Extent, IsLive, KeepsValues, value_in};
ghost use Rattle.icn_heap.specs.Heaps.{extent_of, heap_of};
ghost use Rattle.law_names.specs.NamedSettings.{ValueNamed};

use icn_text::read_integer;
use icn_value::{Cset, File, Val};
use icn_vars::World;
use std::alloc::AllocError;

/// What stands in front of the first of these bytes, and what stands behind it.
pub fn split(text: &[u8], at: u8) -> (&[u8], &[u8]) {
    match text.iter().position(|byte| *byte == at) {
        Some(place) => (&text[..place], &text[place + 1..]),
        None => (text, b""),
    }
}

/// What stands in front of the first blank, and what stands behind it.
pub fn split_word(text: &[u8]) -> (&[u8], &[u8]) {
    split(text, b' ')
}

/// The number that a word writes, without its sign, or else 0.
pub fn number(word: &[u8]) -> u64 {
    read_integer(word).unwrap_or(0).unsigned_abs()
}

/// Adds a value to some. `AllocError` is want of memory.
pub fn add(vals: &mut Vec<Val>, val: Val) -> Result<(), AllocError>
    ensures { IfOk result (λ done. vals.new.items ≡ vals.old.items ++ val ∷ []) }
{
    vals.push(val)?;
    Ok(())
}

/// The text of these bytes, which is not charged. `AllocError` is want of memory.
#[tactic(auto, using(icn_vars::proofs::GrowingWorlds::grows))]
pub fn text_value(w: &mut World, bytes: &[u8]) -> Result<Val, AllocError>
    ensures live { IfOk result (IsLive (extent_of w.new.heap)) }
    ensures kept { KeepsValues (extent_of w.old.heap) (extent_of w.new.heap) }
    ensures unchanged { heap_of w.new.heap ≡ heap_of w.old.heap }
{
    Ok(Val::Text(w.heap.hold(bytes)?))
}

/// The value of a word that takes no memory: a file, a cset behind a single quote, an integer, or else null.
pub fn plain(word: &[u8]) -> Val
    ensures live { (all : Extent) → IsLive all result }
    ensures named { (names : NamesData) (all : Extent) → ValueNamed names (value_in all result) }
{
    match word.split_first() {
        Some((b'&', name)) => file_or_null(name),
        Some((b'\'', rest)) => Val::Chars(members(rest)),
        _ => match read_integer(word) {
            Ok(n) => Val::Integer(n),
            Err(_) => Val::Null,
        },
    }
}

fn file_or_null(name: &[u8]) -> Val
    ensures live { (all : Extent) → IsLive all result }
    ensures named { (names : NamesData) (all : Extent) → ValueNamed names (value_in all result) }
{
    if name == b"input".as_slice() {
        Val::Std(File::Input)
    } else if name == b"output".as_slice() {
        Val::Std(File::Output)
    } else if name == b"errout".as_slice() {
        Val::Std(File::Errout)
    } else {
        Val::Null
    }
}

/// The cset of these members.
pub fn members(bytes: &[u8]) -> Cset {
    let mut cset = Cset::empty();
    for byte in bytes {
        cset = cset.with(*byte);
    }
    cset
}
