// Values as keys of tables and members of sets.
ghost use Rattle.std.specs.Prelude.{◌≡◌, ◌<◌, ◌^◌, length, IfOk};
ghost use Rattle.std.specs.List.{All};
ghost use Rattle.icn_value.specs.Values.{Text, Chars};
ghost use Rattle.icn_value.specs.Members.{members_of};
ghost use Rattle.icn_heap.specs.Keys.{key_value, IsKey};

use icn_value::{Cset, File};
use std::alloc::{AllocError, Global};

/// A value as a key, which hashes. A text is a copy of its bytes, so that two keys are equal where the values are the same.
#[derive(Debug, PartialEq, Eq, Hash, Drop)]
pub enum Key {
    Null,
    Integer(i64),
    Text(Vec<u8>),
    Chars(Cset),
    Std(File),
    Proc(u32),
    Rec(u32),
    List(u32),
    Set(u32),
    Table(u32),
    Coexp(u32),
}

/// A text as a key, for which its bytes are copied. `AllocError` is want of memory.
pub fn text_key(alloc: Global, bytes: &[u8]) -> Result<Key, AllocError>
    ensures value { IfOk result (λ key. key_value key ≡ Text bytes.now) }
    ensures formed { IfOk result IsKey }
{
    let mut held = Vec::new(alloc);
    held.extend_from_slice(bytes)?;
    Ok(Key::Text(held))
}

/// A cset as a key.
pub fn chars_key(cset: Cset) -> Key
    ensures value { key_value result ≡ Chars (members_of cset) }
    ensures formed { IsKey result }
{
    words_of_cset(&cset.words);
    Key::Chars(cset)
}

// The truth values of a cset stand in four words. A call does nothing: it tells a caller's proof so.
fn words_of_cset(words: &[u64; 4])
    ensures len { length words.now ≡ 4 }
    ensures words { All (λ word. word < 2 ^ 64) words.now }
{
    are_words(words);
}

// Each item of a slice of words is one.
fn are_words(words: &[u64])
    ensures { All (λ word. word < 2 ^ 64) words.now }
{}
