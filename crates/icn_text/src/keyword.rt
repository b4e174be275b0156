// The keywords.
ghost use Rattle.std.specs.Prelude.{◌≡◌, ◌≢◌, IfSome, IfNone};
ghost use Rattle.icn_text.specs.Keywords.{keyword_number, keyword_name};
ghost use Rattle.icn_text.specs.declared.keyword.Keyword.{Keyword};

/// A keyword.
#[derive(Clone, Copy, Debug, PartialEq, Eq)]
pub enum Keyword {
    Ascii = 1,
    Cset = 2,
    Current = 3,
    Digits = 4,
    Errout = 5,
    Fail = 6,
    Input = 7,
    Lcase = 8,
    Letters = 9,
    Level = 10,
    Main = 11,
    Null = 12,
    Output = 13,
    Pos = 14,
    Random = 15,
    Source = 16,
    Subject = 17,
    Ucase = 18,
    Error = 19,
    ErrorNumber = 20,
    ErrorValue = 21,
    ErrorText = 22,
}

impl Keyword {
    /// All of them, in the order of their numbers.
    pub const ALL: [Keyword; 22] = [
        Keyword::Ascii,
        Keyword::Cset,
        Keyword::Current,
        Keyword::Digits,
        Keyword::Errout,
        Keyword::Fail,
        Keyword::Input,
        Keyword::Lcase,
        Keyword::Letters,
        Keyword::Level,
        Keyword::Main,
        Keyword::Null,
        Keyword::Output,
        Keyword::Pos,
        Keyword::Random,
        Keyword::Source,
        Keyword::Subject,
        Keyword::Ucase,
        Keyword::Error,
        Keyword::ErrorNumber,
        Keyword::ErrorValue,
        Keyword::ErrorText,
    ];

    /// The number, from 1 to how many there are.
    pub fn number(self) -> u8
        ensures { result ≡ keyword_number self }
    {
        self as u8
    }

    /// The name that stands behind its `&`.
    pub fn name(self) -> &'static [u8]
        ensures { result.now ≡ keyword_name self }
    {
        match self {
            Keyword::Ascii => b"ascii",
            Keyword::Cset => b"cset",
            Keyword::Current => b"current",
            Keyword::Digits => b"digits",
            Keyword::Errout => b"errout",
            Keyword::Fail => b"fail",
            Keyword::Input => b"input",
            Keyword::Lcase => b"lcase",
            Keyword::Letters => b"letters",
            Keyword::Level => b"level",
            Keyword::Main => b"main",
            Keyword::Null => b"null",
            Keyword::Output => b"output",
            Keyword::Pos => b"pos",
            Keyword::Random => b"random",
            Keyword::Source => b"source",
            Keyword::Subject => b"subject",
            Keyword::Ucase => b"ucase",
            Keyword::Error => b"error",
            Keyword::ErrorNumber => b"errornumber",
            Keyword::ErrorValue => b"errorvalue",
            Keyword::ErrorText => b"errortext",
        }
    }
}

/// The keyword of this name, which stands behind the `&`. It takes no memory.
pub fn keyword_named(name: &[u8]) -> Option<Keyword>
    ensures named { IfSome result (λ found. keyword_name found ≡ name.now) }
    ensures none { IfNone result ((any : Keyword) → keyword_name any ≢ name.now) }
{
    for found in &Keyword::ALL {
        if found.name() == name {
            return Some(*found);
        }
    }
    None
}
