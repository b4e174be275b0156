// The reserved words.
ghost use Rattle.std.specs.Prelude.{◌≡◌};
ghost use Rattle.icn_tree.specs.Spellings.{lookup_text, words_of};

use icn_tree::Word;

/// The reserved word that a name is, by its first letter.
pub fn reserved_word(first: u8, name: &[u8]) -> Option<Word>
    ensures { result ≡ lookup_text (words_of first) name.now }
{
    match first {
        b'b' => word_in_b(name),
        b'c' => word_in_c(name),
        b'd' => word_in_d(name),
        b'e' => word_in_e(name),
        b'f' => word_in_f(name),
        b'g' => word_in_g(name),
        b'i' => word_in_i(name),
        b'l' => word_in_l(name),
        b'n' => word_in_n(name),
        b'o' => word_in_o(name),
        b'p' => word_in_p(name),
        b'r' => word_in_r(name),
        b's' => word_in_s(name),
        b't' => word_in_t(name),
        b'u' => word_in_u(name),
        b'w' => word_in_w(name),
        _ => None,
    }
}

#[tactic(auto, unfolding(icn_tree::specs::Spellings::words_of))]
fn word_in_b(name: &[u8]) -> Option<Word>
    ensures { result ≡ lookup_text (words_of 98) name.now }
{
    if name == b"break".as_slice() {
        Some(Word::Break)
    } else if name == b"by".as_slice() {
        Some(Word::By)
    } else {
        None
    }
}

#[tactic(auto, unfolding(icn_tree::specs::Spellings::words_of))]
fn word_in_c(name: &[u8]) -> Option<Word>
    ensures { result ≡ lookup_text (words_of 99) name.now }
{
    if name == b"case".as_slice() {
        Some(Word::Case)
    } else if name == b"create".as_slice() {
        Some(Word::Create)
    } else {
        None
    }
}

#[tactic(auto, unfolding(icn_tree::specs::Spellings::words_of))]
fn word_in_d(name: &[u8]) -> Option<Word>
    ensures { result ≡ lookup_text (words_of 100) name.now }
{
    if name == b"default".as_slice() {
        Some(Word::Default)
    } else if name == b"do".as_slice() {
        Some(Word::Do)
    } else {
        None
    }
}

#[tactic(auto, unfolding(icn_tree::specs::Spellings::words_of))]
fn word_in_e(name: &[u8]) -> Option<Word>
    ensures { result ≡ lookup_text (words_of 101) name.now }
{
    if name == b"else".as_slice() {
        Some(Word::Else)
    } else if name == b"end".as_slice() {
        Some(Word::End)
    } else if name == b"every".as_slice() {
        Some(Word::Every)
    } else {
        None
    }
}

#[tactic(auto, unfolding(icn_tree::specs::Spellings::words_of))]
fn word_in_f(name: &[u8]) -> Option<Word>
    ensures { result ≡ lookup_text (words_of 102) name.now }
{
    if name == b"fail".as_slice() {
        Some(Word::Fail)
    } else {
        None
    }
}

#[tactic(auto, unfolding(icn_tree::specs::Spellings::words_of))]
fn word_in_g(name: &[u8]) -> Option<Word>
    ensures { result ≡ lookup_text (words_of 103) name.now }
{
    if name == b"global".as_slice() {
        Some(Word::Global)
    } else {
        None
    }
}

#[tactic(auto, unfolding(icn_tree::specs::Spellings::words_of))]
fn word_in_i(name: &[u8]) -> Option<Word>
    ensures { result ≡ lookup_text (words_of 105) name.now }
{
    if name == b"if".as_slice() {
        Some(Word::If)
    } else if name == b"initial".as_slice() {
        Some(Word::Initial)
    } else if name == b"invocable".as_slice() {
        Some(Word::Invocable)
    } else {
        None
    }
}

#[tactic(auto, unfolding(icn_tree::specs::Spellings::words_of))]
fn word_in_l(name: &[u8]) -> Option<Word>
    ensures { result ≡ lookup_text (words_of 108) name.now }
{
    if name == b"link".as_slice() {
        Some(Word::Link)
    } else if name == b"local".as_slice() {
        Some(Word::Local)
    } else {
        None
    }
}

#[tactic(auto, unfolding(icn_tree::specs::Spellings::words_of))]
fn word_in_n(name: &[u8]) -> Option<Word>
    ensures { result ≡ lookup_text (words_of 110) name.now }
{
    if name == b"next".as_slice() {
        Some(Word::Next)
    } else if name == b"not".as_slice() {
        Some(Word::Not)
    } else {
        None
    }
}

#[tactic(auto, unfolding(icn_tree::specs::Spellings::words_of))]
fn word_in_o(name: &[u8]) -> Option<Word>
    ensures { result ≡ lookup_text (words_of 111) name.now }
{
    if name == b"of".as_slice() {
        Some(Word::Of)
    } else {
        None
    }
}

#[tactic(auto, unfolding(icn_tree::specs::Spellings::words_of))]
fn word_in_p(name: &[u8]) -> Option<Word>
    ensures { result ≡ lookup_text (words_of 112) name.now }
{
    if name == b"procedure".as_slice() {
        Some(Word::Procedure)
    } else {
        None
    }
}

#[tactic(auto, unfolding(icn_tree::specs::Spellings::words_of))]
fn word_in_r(name: &[u8]) -> Option<Word>
    ensures { result ≡ lookup_text (words_of 114) name.now }
{
    if name == b"record".as_slice() {
        Some(Word::Record)
    } else if name == b"repeat".as_slice() {
        Some(Word::Repeat)
    } else if name == b"return".as_slice() {
        Some(Word::Return)
    } else {
        None
    }
}

#[tactic(auto, unfolding(icn_tree::specs::Spellings::words_of))]
fn word_in_s(name: &[u8]) -> Option<Word>
    ensures { result ≡ lookup_text (words_of 115) name.now }
{
    if name == b"static".as_slice() {
        Some(Word::Static)
    } else if name == b"suspend".as_slice() {
        Some(Word::Suspend)
    } else {
        None
    }
}

#[tactic(auto, unfolding(icn_tree::specs::Spellings::words_of))]
fn word_in_t(name: &[u8]) -> Option<Word>
    ensures { result ≡ lookup_text (words_of 116) name.now }
{
    if name == b"then".as_slice() {
        Some(Word::Then)
    } else if name == b"to".as_slice() {
        Some(Word::To)
    } else {
        None
    }
}

#[tactic(auto, unfolding(icn_tree::specs::Spellings::words_of))]
fn word_in_u(name: &[u8]) -> Option<Word>
    ensures { result ≡ lookup_text (words_of 117) name.now }
{
    if name == b"until".as_slice() {
        Some(Word::Until)
    } else {
        None
    }
}

#[tactic(auto, unfolding(icn_tree::specs::Spellings::words_of))]
fn word_in_w(name: &[u8]) -> Option<Word>
    ensures { result ≡ lookup_text (words_of 119) name.now }
{
    if name == b"while".as_slice() {
        Some(Word::While)
    } else {
        None
    }
}
