// The values of a case's words.
ghost use Rattle.std.specs.Prelude.{IfOk, OnOk, ◌++◌, ◌∷◌, [], ◌≡◌};
ghost use Rattle.std.specs.List.{All};
ghost use Rattle.icn_convert.specs.ProgramNames.{AreRecordsNamed};
ghost use Rattle.icn_heap.specs.Extents.{Extent, IsLive, KeepsValues};
ghost use Rattle.icn_heap.specs.Heaps.{extent_of, heap_of};
ghost use Rattle.test_store.specs.SomeNames.{some_names};

use crate::convert::structures::{list, rec, set, table, text};
use icn_heap::{Full, Heap, main_is_live};
use icn_text::read_integer;
use icn_value::{Cset, File, Val};
use std::alloc::{AllocError, Global};

/// The values of some words. The error is the limit that refuses the charge, or want of memory.
pub fn values(alloc: Global, heap: &mut Heap, words: &str) -> Result<Vec<Val>, Full>
    requires { AreRecordsNamed some_names (heap_of heap.old) }
    ensures live { IfOk result (λ vals. All (IsLive (extent_of heap.new)) vals.items) }
    ensures records { OnOk result (AreRecordsNamed some_names (heap_of heap.new)) }
{
    let mut vals = Vec::new(alloc);
    for word in words.split(' ') {
        let val = value_of(alloc, heap, word.as_bytes())?;
        add(&mut vals, val)?;
    }
    Ok(vals)
}

// Adds a value.
fn add(vals: &mut Vec<Val>, val: Val) -> Result<(), AllocError>
    ensures { IfOk result (λ done. vals.new.items ≡ vals.old.items ++ val ∷ []) }
{
    vals.push(val)?;
    Ok(())
}

fn value_of(alloc: Global, heap: &mut Heap, word: &[u8]) -> Result<Val, Full>
    requires { AreRecordsNamed some_names (heap_of heap.old) }
    ensures live { IfOk result (IsLive (extent_of heap.new)) }
    ensures kept { KeepsValues (extent_of heap.old) (extent_of heap.new) }
    ensures records { AreRecordsNamed some_names (heap_of heap.new) }
{
    match word.split_first() {
        Some((b'"', rest)) => Ok(text(heap, rest)?),
        Some((b'%', rest)) => Ok(text(heap, &bytes_of(alloc, rest)?)?),
        Some((b'[', rest)) => list(heap, number(rest).unsigned_abs()),
        Some((b'{', _)) => set(heap),
        Some((b'<', _)) => table(heap),
        Some((b'(', b"q")) => rec(heap, 1, &[Val::Null]),
        Some((b'(', _)) => rec(heap, 0, &[Val::Null]),
        Some((b'~', _)) => Ok(main_coexpression(heap)),
        _ => Ok(plain(alloc, word)?),
    }
}

fn main_coexpression(heap: &Heap) -> Val
    ensures { IsLive (extent_of heap.now) result }
{
    main_is_live(heap);
    Val::Coexp(0)
}

fn number(digits: &[u8]) -> i64 {
    read_integer(digits).unwrap_or(0)
}

// The bytes that pairs of digits of base 16 write.
fn bytes_of(alloc: Global, digits: &[u8]) -> Result<Vec<u8>, AllocError> {
    let mut bytes = Vec::new(alloc);
    for pair in digits.chunks(2) {
        bytes.push(byte_of(pair))?;
    }
    Ok(bytes)
}

fn byte_of(digits: &[u8]) -> u8 {
    match digits {
        [high, low] => digit(*high) << 4 | digit(*low),
        _ => 0,
    }
}

fn digit(byte: u8) -> u8 {
    match byte {
        b'0'..=b'9' => byte - b'0',
        b'a'..=b'f' => byte - b'a' + 10,
        _ => 0,
    }
}

// The value of a word that takes no memory.
fn plain(alloc: Global, word: &[u8]) -> Result<Val, AllocError>
    ensures { (all : Extent) → IfOk result (IsLive all) }
{
    match word.split_first() {
        Some((b'\'', rest)) => Ok(Val::Chars(members(rest))),
        Some((b'@', rest)) => Ok(Val::Chars(ranges(&bytes_of(alloc, rest)?))),
        Some((b'^', rest)) => Ok(Val::Proc(u32::try_from(number(rest)).unwrap_or(0))),
        Some((b'&', rest)) => Ok(file_or_null(rest)),
        _ => Ok(Val::Integer(number(word))),
    }
}

fn file_or_null(name: &[u8]) -> Val
    ensures { (all : Extent) → IsLive all result }
{
    if name == b"input".as_slice() {
        Val::Std(File::Input)
    } else if name == b"output".as_slice() {
        Val::Std(File::Output)
    } else if name == b"errout".as_slice() {
        Val::Std(File::Errout)
    } else {
        Val::Null
    }
}

fn members(bytes: &[u8]) -> Cset {
    let mut cset = Cset::empty();
    for byte in bytes {
        cset = cset.with(*byte);
    }
    cset
}

// The bytes from the first to the second of each pair.
fn ranges(bytes: &[u8]) -> Cset {
    let mut cset = Cset::empty();
    for byte in 0..=u8::MAX {
        if is_within(bytes, byte) {
            cset = cset.with(byte);
        }
    }
    cset
}

fn is_within(bytes: &[u8], byte: u8) -> bool {
    for pair in bytes.chunks(2) {
        if let [first, last] = pair {
            if *first <= byte && byte <= *last {
                return true;
            }
        }
    }
    false
}
