// A line with its defined words replaced.
ghost use Rattle.std.specs.Prelude.{◌≡◌, ◌<◌, ◌&&◌, ◌^◌, IfOk, IfSome, MatchOption, None, if◌then◌else◌, is_some, nat_lt, not, length};
ghost use Rattle.std.specs.Option.{option_map};
ghost use Rattle.std.specs.Str.{bytes_eq};
ghost use Rattle.indexmap.specs.IndexMap.{get_by, index_map_len};
ghost use Rattle.icn_prep.specs.Replacement.{begins_word, replace_words};
ghost use Rattle.icn_prep.specs.TextViews.{texts_of};

use crate::literal::LiteralState;
use crate::texts::Texts;
use icn_tree::characters::{continues_identifier, identifier_len};
use indexmap::IndexMap;
use std::alloc::{AllocError, Global};

// The texts that are read again, by their names, the innermost last. Each name has what stands behind it.
type Outer<'a> = IndexMap<&'a [u8], &'a [u8]>;

/// The bytes that come of a line, and how its end stands to literals and comments. `None` where there are more than `most`
/// bytes, and then no memory was taken for them.
pub fn replace_in_line<'a>(
    alloc: Global,
    texts: &'a Texts,
    literal: LiteralState,
    line: &'a [u8],
    most: usize,
) -> Result<Option<(Vec<u8>, LiteralState)>, AllocError>
    ensures { IfOk result (λ found.
        let all = replace_words (texts_of texts.now).count (texts_of texts.now).text_of literal line.now in
        MatchOption found (most < length all.bytes)
        (λ read. all ≡ record { bytes = read.0.items; state = read.1 })) }
{
    let mut given = Vec::with_capacity(alloc, line.len().min(most))?;
    let mut outer: Outer<'a> = IndexMap::new(alloc);
    let mut state = literal;
    let mut rest = line;
    loop {
        let Some((first, others)) = rest.split_first() else {
            let Some((_, behind)) = outer.pop() else {
                return Ok(Some((given, state)));
            };
            rest = behind;
            continue;
        };
        if begins_word(state, *first) {
            let (word, behind) = rest.split_at(identifier_len(rest));
            if let Some(text) = text_for(texts, &outer, word) {
                outer.insert(word, behind)?;
                rest = text;
                continue;
            }
            if word.len() > most - given.len() {
                return Ok(None);
            }
            given.extend_from_slice(word)?;
            rest = behind;
        } else {
            if given.len() == most {
                return Ok(None);
            }
            given.push(*first)?;
            state = state.after(*first);
            rest = others;
        }
    }
}

// Whether a word begins at this byte.
fn begins_word(state: LiteralState, byte: u8) -> bool
    ensures { result ≡ begins_word state byte }
{
    match state {
        LiteralState::Outside => continues_identifier(byte),
        _ => false,
    }
}

// The text that a word is replaced by, if it is defined and not switched off. No more names than are defined can be.
fn text_for<'a>(texts: &'a Texts, outer: &Outer<'a>, word: &[u8]) -> Option<&'a [u8]>
    ensures value { option_map (λ text. text.now) result ≡
        (if nat_lt (index_map_len outer.now) (texts_of texts.now).count
        && not (is_some (get_by (λ name. bytes_eq word.now name.now) outer.now))
        then (texts_of texts.now).text_of word.now else None) }
    ensures bounded { IfSome result (λ text. length text.now < 2 ^ 64) }
{
    let text = texts.get(word)?;
    if outer.len() < texts.len() && !outer.contains_key(word) {
        Some(text)
    } else {
        None
    }
}
