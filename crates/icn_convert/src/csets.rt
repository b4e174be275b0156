// Texts as csets, and csets as texts.
ghost use Rattle.std.specs.Prelude.{◌≡◌, ◌≤◌, ℕ, List, take};
ghost use Rattle.icn_value.specs.Members.{contains, members, members_of};

use icn_value::Cset;
use std::marker::Model;

/// The members of a cset as a text, ascending.
#[derive(Drop)]
pub struct CsetText {
    bytes: [u8; 256],
    len: usize,
}

impl Model for CsetText {
    ghost Value = { List ℕ };

    ghost view = { λ m. take m.len m.bytes };

    ghost invariant = { λ m. m.len ≤ 256 };
}

impl CsetText {
    /// The bytes of the text.
    pub fn as_bytes(&self) -> &[u8]
        ensures { result.now ≡ self.now }
    {
        &self.bytes[..self.len]
    }
}

/// The members of a cset as a text. It takes no memory.
pub fn text_of_cset(cset: &Cset) -> CsetText
    ensures { result ≡ members_of cset.now }
{
    let mut bytes = [0; 256];
    let mut len = 0;
    for byte in 0..256u16 {
        if cset.has(byte as u8) {
            bytes[len] = byte as u8;
            len += 1;
        }
    }
    CsetText { bytes, len }
}

/// The bytes of a text as a cset. It takes no memory.
pub fn cset_of_text(text: &[u8]) -> Cset
    ensures { members_of result ≡ members (contains text.now) }
{
    let mut cset = Cset::empty();
    for byte in text {
        cset = cset.with(*byte);
    }
    cset
}
