// The first words of instruction lines.
ghost use Rattle.std.specs.Prelude.{◌≡◌};
ghost use Rattle.icn_tree.specs.Spellings.{lookup_text};
ghost use Rattle.icn_unit.specs.InstrWords.{alone_of, instr_word_of, instr_words, labelled_of, word_of, word_text};

use crate::unit::UnitInstr;

/// The first word of an instruction line.
#[derive(Clone, Copy, Debug, PartialEq, Eq)]
pub enum InstrWord {
    Pnull,
    Int,
    Str,
    Cset,
    Var,
    Keywd,
    Pop,
    Dup,
    Op,
    Llist,
    Field,
    Invoke,
    Appl,
    Mark,
    Mark0,
    Unmark,
    Eret,
    Esusp,
    Limit,
    Lsusp,
    Efail,
    Chfail,
    Goto,
    Loop,
    Bscan,
    Escan,
    Ccase,
    Init,
    Psusp,
    Pret,
    Pfail,
    Create,
    Coact,
    Coret,
    Cofail,
    Lab,
}

impl InstrWord {
    /// The word as it is spelled.
    pub fn text(self) -> &'static [u8]
        ensures { result.now ≡ word_text self }
    {
        match self {
            InstrWord::Pnull => b"pnull",
            InstrWord::Int => b"int",
            InstrWord::Str => b"str",
            InstrWord::Cset => b"cset",
            InstrWord::Var => b"var",
            InstrWord::Keywd => b"keywd",
            InstrWord::Pop => b"pop",
            InstrWord::Dup => b"dup",
            InstrWord::Op => b"op",
            InstrWord::Llist => b"llist",
            InstrWord::Field => b"field",
            InstrWord::Invoke => b"invoke",
            InstrWord::Appl => b"appl",
            InstrWord::Mark => b"mark",
            InstrWord::Mark0 => b"mark0",
            InstrWord::Unmark => b"unmark",
            InstrWord::Eret => b"eret",
            InstrWord::Esusp => b"esusp",
            InstrWord::Limit => b"limit",
            InstrWord::Lsusp => b"lsusp",
            InstrWord::Efail => b"efail",
            InstrWord::Chfail => b"chfail",
            InstrWord::Goto => b"goto",
            InstrWord::Loop => b"loop",
            InstrWord::Bscan => b"bscan",
            InstrWord::Escan => b"escan",
            InstrWord::Ccase => b"ccase",
            InstrWord::Init => b"init",
            InstrWord::Psusp => b"psusp",
            InstrWord::Pret => b"pret",
            InstrWord::Pfail => b"pfail",
            InstrWord::Create => b"create",
            InstrWord::Coact => b"coact",
            InstrWord::Coret => b"coret",
            InstrWord::Cofail => b"cofail",
            InstrWord::Lab => b"lab",
        }
    }
}

/// The first word of an instruction line that is spelled so.
pub fn word_named(text: &[u8]) -> Option<InstrWord>
    ensures { result ≡ instr_word_of text.now }
{
    match text.split_first() {
        Some((first, _)) => word_by_letter(*first, text),
        None => None,
    }
}

fn word_by_letter(first: u8, text: &[u8]) -> Option<InstrWord>
    ensures { result ≡ lookup_text (instr_words first) text.now }
{
    match first {
        b'a' => word_in_a(text),
        b'b' => word_in_b(text),
        b'c' => word_in_c(text),
        b'd' => word_in_d(text),
        b'e' => word_in_e(text),
        b'f' => word_in_f(text),
        b'g' => word_in_g(text),
        b'i' => word_in_i(text),
        b'k' => word_in_k(text),
        b'l' => word_in_l(text),
        b'm' => word_in_m(text),
        b'o' => word_in_o(text),
        b'p' => word_in_p(text),
        b's' => word_in_s(text),
        b'u' => word_in_u(text),
        b'v' => word_in_v(text),
        _ => None,
    }
}

#[tactic(auto, unfolding(crate::specs::InstrWords::instr_words))]
fn word_in_a(text: &[u8]) -> Option<InstrWord>
    ensures { result ≡ lookup_text (instr_words 97) text.now }
{
    if text == b"appl".as_slice() {
        Some(InstrWord::Appl)
    } else {
        None
    }
}

#[tactic(auto, unfolding(crate::specs::InstrWords::instr_words))]
fn word_in_b(text: &[u8]) -> Option<InstrWord>
    ensures { result ≡ lookup_text (instr_words 98) text.now }
{
    if text == b"bscan".as_slice() {
        Some(InstrWord::Bscan)
    } else {
        None
    }
}

#[tactic(auto, unfolding(crate::specs::InstrWords::instr_words))]
fn word_in_c(text: &[u8]) -> Option<InstrWord>
    ensures { result ≡ lookup_text (instr_words 99) text.now }
{
    if text == b"cset".as_slice() {
        Some(InstrWord::Cset)
    } else if text == b"chfail".as_slice() {
        Some(InstrWord::Chfail)
    } else if text == b"ccase".as_slice() {
        Some(InstrWord::Ccase)
    } else if text == b"create".as_slice() {
        Some(InstrWord::Create)
    } else if text == b"coact".as_slice() {
        Some(InstrWord::Coact)
    } else if text == b"coret".as_slice() {
        Some(InstrWord::Coret)
    } else if text == b"cofail".as_slice() {
        Some(InstrWord::Cofail)
    } else {
        None
    }
}

#[tactic(auto, unfolding(crate::specs::InstrWords::instr_words))]
fn word_in_d(text: &[u8]) -> Option<InstrWord>
    ensures { result ≡ lookup_text (instr_words 100) text.now }
{
    if text == b"dup".as_slice() {
        Some(InstrWord::Dup)
    } else {
        None
    }
}

#[tactic(auto, unfolding(crate::specs::InstrWords::instr_words))]
fn word_in_e(text: &[u8]) -> Option<InstrWord>
    ensures { result ≡ lookup_text (instr_words 101) text.now }
{
    if text == b"eret".as_slice() {
        Some(InstrWord::Eret)
    } else if text == b"esusp".as_slice() {
        Some(InstrWord::Esusp)
    } else if text == b"efail".as_slice() {
        Some(InstrWord::Efail)
    } else if text == b"escan".as_slice() {
        Some(InstrWord::Escan)
    } else {
        None
    }
}

#[tactic(auto, unfolding(crate::specs::InstrWords::instr_words))]
fn word_in_f(text: &[u8]) -> Option<InstrWord>
    ensures { result ≡ lookup_text (instr_words 102) text.now }
{
    if text == b"field".as_slice() {
        Some(InstrWord::Field)
    } else {
        None
    }
}

#[tactic(auto, unfolding(crate::specs::InstrWords::instr_words))]
fn word_in_g(text: &[u8]) -> Option<InstrWord>
    ensures { result ≡ lookup_text (instr_words 103) text.now }
{
    if text == b"goto".as_slice() {
        Some(InstrWord::Goto)
    } else {
        None
    }
}

#[tactic(auto, unfolding(crate::specs::InstrWords::instr_words))]
fn word_in_i(text: &[u8]) -> Option<InstrWord>
    ensures { result ≡ lookup_text (instr_words 105) text.now }
{
    if text == b"int".as_slice() {
        Some(InstrWord::Int)
    } else if text == b"invoke".as_slice() {
        Some(InstrWord::Invoke)
    } else if text == b"init".as_slice() {
        Some(InstrWord::Init)
    } else {
        None
    }
}

#[tactic(auto, unfolding(crate::specs::InstrWords::instr_words))]
fn word_in_k(text: &[u8]) -> Option<InstrWord>
    ensures { result ≡ lookup_text (instr_words 107) text.now }
{
    if text == b"keywd".as_slice() {
        Some(InstrWord::Keywd)
    } else {
        None
    }
}

#[tactic(auto, unfolding(crate::specs::InstrWords::instr_words))]
fn word_in_l(text: &[u8]) -> Option<InstrWord>
    ensures { result ≡ lookup_text (instr_words 108) text.now }
{
    if text == b"llist".as_slice() {
        Some(InstrWord::Llist)
    } else if text == b"limit".as_slice() {
        Some(InstrWord::Limit)
    } else if text == b"lsusp".as_slice() {
        Some(InstrWord::Lsusp)
    } else if text == b"loop".as_slice() {
        Some(InstrWord::Loop)
    } else if text == b"lab".as_slice() {
        Some(InstrWord::Lab)
    } else {
        None
    }
}

#[tactic(auto, unfolding(crate::specs::InstrWords::instr_words))]
fn word_in_m(text: &[u8]) -> Option<InstrWord>
    ensures { result ≡ lookup_text (instr_words 109) text.now }
{
    if text == b"mark".as_slice() {
        Some(InstrWord::Mark)
    } else if text == b"mark0".as_slice() {
        Some(InstrWord::Mark0)
    } else {
        None
    }
}

#[tactic(auto, unfolding(crate::specs::InstrWords::instr_words))]
fn word_in_o(text: &[u8]) -> Option<InstrWord>
    ensures { result ≡ lookup_text (instr_words 111) text.now }
{
    if text == b"op".as_slice() {
        Some(InstrWord::Op)
    } else {
        None
    }
}

#[tactic(auto, unfolding(crate::specs::InstrWords::instr_words))]
fn word_in_p(text: &[u8]) -> Option<InstrWord>
    ensures { result ≡ lookup_text (instr_words 112) text.now }
{
    if text == b"pnull".as_slice() {
        Some(InstrWord::Pnull)
    } else if text == b"pop".as_slice() {
        Some(InstrWord::Pop)
    } else if text == b"psusp".as_slice() {
        Some(InstrWord::Psusp)
    } else if text == b"pret".as_slice() {
        Some(InstrWord::Pret)
    } else if text == b"pfail".as_slice() {
        Some(InstrWord::Pfail)
    } else {
        None
    }
}

#[tactic(auto, unfolding(crate::specs::InstrWords::instr_words))]
fn word_in_s(text: &[u8]) -> Option<InstrWord>
    ensures { result ≡ lookup_text (instr_words 115) text.now }
{
    if text == b"str".as_slice() {
        Some(InstrWord::Str)
    } else {
        None
    }
}

#[tactic(auto, unfolding(crate::specs::InstrWords::instr_words))]
fn word_in_u(text: &[u8]) -> Option<InstrWord>
    ensures { result ≡ lookup_text (instr_words 117) text.now }
{
    if text == b"unmark".as_slice() {
        Some(InstrWord::Unmark)
    } else {
        None
    }
}

#[tactic(auto, unfolding(crate::specs::InstrWords::instr_words))]
fn word_in_v(text: &[u8]) -> Option<InstrWord>
    ensures { result ≡ lookup_text (instr_words 118) text.now }
{
    if text == b"var".as_slice() {
        Some(InstrWord::Var)
    } else {
        None
    }
}

/// The instruction of a word that stands alone.
pub fn instr_alone(word: InstrWord) -> Option<UnitInstr>
    ensures { result ≡ alone_of word }
{
    match word {
        InstrWord::Pnull => Some(UnitInstr::Pnull),
        InstrWord::Pop => Some(UnitInstr::Pop),
        InstrWord::Dup => Some(UnitInstr::Dup),
        InstrWord::Appl => Some(UnitInstr::Appl),
        InstrWord::Mark0 => Some(UnitInstr::Mark0),
        InstrWord::Unmark => Some(UnitInstr::Unmark),
        InstrWord::Eret => Some(UnitInstr::Eret),
        InstrWord::Esusp => Some(UnitInstr::Esusp),
        InstrWord::Limit => Some(UnitInstr::Limit),
        InstrWord::Lsusp => Some(UnitInstr::Lsusp),
        InstrWord::Efail => Some(UnitInstr::Efail),
        InstrWord::Bscan => Some(UnitInstr::Bscan),
        InstrWord::Escan => Some(UnitInstr::Escan),
        InstrWord::Ccase => Some(UnitInstr::Ccase),
        InstrWord::Psusp => Some(UnitInstr::Psusp),
        InstrWord::Pret => Some(UnitInstr::Pret),
        InstrWord::Pfail => Some(UnitInstr::Pfail),
        InstrWord::Coact => Some(UnitInstr::Coact),
        InstrWord::Coret => Some(UnitInstr::Coret),
        InstrWord::Cofail => Some(UnitInstr::Cofail),
        _ => None,
    }
}

/// The instruction of a word before a label.
pub fn instr_with_label(word: InstrWord, label: u32) -> Option<UnitInstr>
    ensures { result ≡ labelled_of word label }
{
    match word {
        InstrWord::Mark => Some(UnitInstr::Mark(label)),
        InstrWord::Chfail => Some(UnitInstr::Chfail(label)),
        InstrWord::Goto => Some(UnitInstr::Goto(label)),
        InstrWord::Loop => Some(UnitInstr::Loop(label)),
        InstrWord::Init => Some(UnitInstr::Init(label)),
        InstrWord::Create => Some(UnitInstr::Create(label)),
        InstrWord::Lab => Some(UnitInstr::Lab(label)),
        _ => None,
    }
}

/// The word of an instruction.
pub fn word_of(instr: &UnitInstr) -> InstrWord
    ensures { result ≡ word_of instr.now }
{
    match instr {
        UnitInstr::Pnull => InstrWord::Pnull,
        UnitInstr::Int(_) => InstrWord::Int,
        UnitInstr::Str(_) => InstrWord::Str,
        UnitInstr::Cset(_) => InstrWord::Cset,
        UnitInstr::Var(_) => InstrWord::Var,
        UnitInstr::Keywd(_) => InstrWord::Keywd,
        UnitInstr::Pop => InstrWord::Pop,
        UnitInstr::Dup => InstrWord::Dup,
        UnitInstr::Op(_) => InstrWord::Op,
        UnitInstr::Llist(_) => InstrWord::Llist,
        UnitInstr::Field(_) => InstrWord::Field,
        UnitInstr::Invoke(_) => InstrWord::Invoke,
        UnitInstr::Appl => InstrWord::Appl,
        UnitInstr::Mark(_) => InstrWord::Mark,
        UnitInstr::Mark0 => InstrWord::Mark0,
        UnitInstr::Unmark => InstrWord::Unmark,
        UnitInstr::Eret => InstrWord::Eret,
        UnitInstr::Esusp => InstrWord::Esusp,
        UnitInstr::Limit => InstrWord::Limit,
        UnitInstr::Lsusp => InstrWord::Lsusp,
        UnitInstr::Efail => InstrWord::Efail,
        UnitInstr::Chfail(_) => InstrWord::Chfail,
        UnitInstr::Goto(_) => InstrWord::Goto,
        UnitInstr::Loop(_) => InstrWord::Loop,
        UnitInstr::Bscan => InstrWord::Bscan,
        UnitInstr::Escan => InstrWord::Escan,
        UnitInstr::Ccase => InstrWord::Ccase,
        UnitInstr::Init(_) => InstrWord::Init,
        UnitInstr::Psusp => InstrWord::Psusp,
        UnitInstr::Pret => InstrWord::Pret,
        UnitInstr::Pfail => InstrWord::Pfail,
        UnitInstr::Create(_) => InstrWord::Create,
        UnitInstr::Coact => InstrWord::Coact,
        UnitInstr::Coret => InstrWord::Coret,
        UnitInstr::Cofail => InstrWord::Cofail,
        UnitInstr::Lab(_) => InstrWord::Lab,
    }
}
