// Sets of bytes as truth values.
ghost use Rattle.std.specs.Prelude.{◌≡◌, ◌==◌, ◌&&◌, ◌||◌, false, length, not};

/// A set of bytes, with a truth value for each. No call takes memory.
#[derive(Clone, Copy, Debug, PartialEq, Eq, Hash)]
pub struct Cset {
    /// Byte b is a member where bit b mod 64 of the word at b div 64 is set.
    pub words: [u64; 4],
}

impl Cset {
    ghost use Rattle.icn_value.specs.Csets.{has, HasMembers};
    ghost use Rattle.icn_value.specs.Members.{members_of};

    /// The cset without members.
    pub fn empty() -> Cset
        ensures { HasMembers result (λ byte. false) }
    {
        Cset { words: [0; 4] }
    }

    /// Whether a byte is a member.
    pub fn has(&self, byte: u8) -> bool
        ensures { result ≡ has self.now byte }
    {
        (self.words[usize::from(byte / 64)] >> (byte % 64)) & 1 == 1
    }

    /// These members and this byte.
    pub fn with(self, byte: u8) -> Cset
        ensures { HasMembers result (λ other. other == byte || has self other) }
    {
        let mut words = self.words;
        words[usize::from(byte / 64)] |= 1 << (byte % 64);
        Cset { words }
    }

    /// The bytes that are a member of this or of the other.
    pub fn either(self, other: Cset) -> Cset
        ensures { HasMembers result (λ byte. has self byte || has other byte) }
    {
        let mut words = self.words;
        for place in 0..4 {
            words[place] |= other.words[place];
        }
        Cset { words }
    }

    /// The members that the other lacks.
    pub fn less(self, other: Cset) -> Cset
        ensures { HasMembers result (λ byte. has self byte && not (has other byte)) }
    {
        self.both(other.other())
    }

    /// The bytes that are a member of both.
    pub fn both(self, other: Cset) -> Cset
        ensures { HasMembers result (λ byte. has self byte && has other byte) }
    {
        let mut words = self.words;
        for place in 0..4 {
            words[place] &= other.words[place];
        }
        Cset { words }
    }

    /// The bytes that are no members.
    pub fn other(self) -> Cset
        ensures { HasMembers result (λ byte. not (has self byte)) }
    {
        let mut words = self.words;
        for place in 0..4 {
            words[place] = !words[place];
        }
        Cset { words }
    }

    /// How many members there are.
    pub fn size(&self) -> u16
        ensures { result ≡ length (members_of self.now) }
    {
        let mut count = 0;
        for byte in 0..256u16 {
            if self.has(byte as u8) {
                count += 1;
            }
        }
        count
    }
}
