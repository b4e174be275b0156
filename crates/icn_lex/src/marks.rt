// Operators and punctuation marks.
ghost use Rattle.std.specs.Prelude.{◌≡◌};
ghost use Rattle.icn_lex.specs.Reading.{first_match};
ghost use Rattle.icn_tree.specs.Spellings.{marks_of};

use icn_tree::{Kind, Operator, Punctuation};

// The first of some spellings that bytes start with: what it stands for, and how many bytes it has.
macro_rules! first_spelling {
    ($bytes:expr; $($text:literal => $kind:ident($mark:expr)),+) => {{
        $(
            if $bytes.starts_with($text) {
                return Some((Kind::$kind($mark), $text.len()));
            }
        )+
        None
    }};
}

/// The longest operator or punctuation mark at the front of bytes, by the first of them. Marks that begin with a dot are
/// not among these.
pub fn mark(first: u8, bytes: &[u8]) -> Option<(Kind, usize)>
    ensures { result ≡ first_match (marks_of first) bytes.now }
{
    match first {
        b'!' => bang(bytes),
        b'$' => dollar(bytes),
        b'%' => percent(bytes),
        b'&' => ampersand(bytes),
        b'(' => open_parenthesis(bytes),
        b')' => close_parenthesis(bytes),
        b'*' => star(bytes),
        b'+' => plus(bytes),
        b',' => comma(bytes),
        b'-' => minus(bytes),
        b'/' => slash(bytes),
        b':' => colon(bytes),
        b';' => semicolon(bytes),
        b'<' => less(bytes),
        b'=' => equal(bytes),
        b'>' => greater(bytes),
        b'?' => question(bytes),
        b'@' => at(bytes),
        b'[' => open_bracket(bytes),
        b'\\' => backslash(bytes),
        b']' => close_bracket(bytes),
        b'^' => caret(bytes),
        b'{' => open_brace(bytes),
        b'|' => bar(bytes),
        b'}' => close_brace(bytes),
        b'~' => tilde(bytes),
        _ => None,
    }
}

#[tactic(auto, unfolding(icn_tree::specs::Spellings::marks_of))]
fn bang(bytes: &[u8]) -> Option<(Kind, usize)>
    ensures { result ≡ first_match (marks_of 33) bytes.now }
{
    first_spelling!(bytes;
        b"!" => Operator(Operator::Bang)
    )
}

#[tactic(auto, unfolding(icn_tree::specs::Spellings::marks_of))]
fn dollar(bytes: &[u8]) -> Option<(Kind, usize)>
    ensures { result ≡ first_match (marks_of 36) bytes.now }
{
    first_spelling!(bytes;
        b"$<" => Punctuation(Punctuation::OpenBracket),
        b"$>" => Punctuation(Punctuation::CloseBracket),
        b"$(" => Punctuation(Punctuation::OpenBrace),
        b"$)" => Punctuation(Punctuation::CloseBrace)
    )
}

#[tactic(auto, unfolding(icn_tree::specs::Spellings::marks_of))]
fn percent(bytes: &[u8]) -> Option<(Kind, usize)>
    ensures { result ≡ first_match (marks_of 37) bytes.now }
{
    first_spelling!(bytes;
        b"%:=" => Augmented(Operator::Percent),
        b"%" => Operator(Operator::Percent)
    )
}

#[tactic(auto, unfolding(icn_tree::specs::Spellings::marks_of))]
fn ampersand(bytes: &[u8]) -> Option<(Kind, usize)>
    ensures { result ≡ first_match (marks_of 38) bytes.now }
{
    first_spelling!(bytes;
        b"&:=" => Augmented(Operator::Ampersand),
        b"&" => Operator(Operator::Ampersand)
    )
}

#[tactic(auto, unfolding(icn_tree::specs::Spellings::marks_of))]
fn open_parenthesis(bytes: &[u8]) -> Option<(Kind, usize)>
    ensures { result ≡ first_match (marks_of 40) bytes.now }
{
    first_spelling!(bytes;
        b"(" => Punctuation(Punctuation::OpenParenthesis)
    )
}

#[tactic(auto, unfolding(icn_tree::specs::Spellings::marks_of))]
fn close_parenthesis(bytes: &[u8]) -> Option<(Kind, usize)>
    ensures { result ≡ first_match (marks_of 41) bytes.now }
{
    first_spelling!(bytes;
        b")" => Punctuation(Punctuation::CloseParenthesis)
    )
}

#[tactic(auto, unfolding(icn_tree::specs::Spellings::marks_of))]
fn star(bytes: &[u8]) -> Option<(Kind, usize)>
    ensures { result ≡ first_match (marks_of 42) bytes.now }
{
    first_spelling!(bytes;
        b"**:=" => Augmented(Operator::StarStar),
        b"*:=" => Augmented(Operator::Star),
        b"**" => Operator(Operator::StarStar),
        b"*" => Operator(Operator::Star)
    )
}

#[tactic(auto, unfolding(icn_tree::specs::Spellings::marks_of))]
fn plus(bytes: &[u8]) -> Option<(Kind, usize)>
    ensures { result ≡ first_match (marks_of 43) bytes.now }
{
    first_spelling!(bytes;
        b"++:=" => Augmented(Operator::PlusPlus),
        b"+:=" => Augmented(Operator::Plus),
        b"++" => Operator(Operator::PlusPlus),
        b"+:" => Punctuation(Punctuation::PlusColon),
        b"+" => Operator(Operator::Plus)
    )
}

#[tactic(auto, unfolding(icn_tree::specs::Spellings::marks_of))]
fn comma(bytes: &[u8]) -> Option<(Kind, usize)>
    ensures { result ≡ first_match (marks_of 44) bytes.now }
{
    first_spelling!(bytes;
        b"," => Punctuation(Punctuation::Comma)
    )
}

#[tactic(auto, unfolding(icn_tree::specs::Spellings::marks_of))]
fn minus(bytes: &[u8]) -> Option<(Kind, usize)>
    ensures { result ≡ first_match (marks_of 45) bytes.now }
{
    first_spelling!(bytes;
        b"--:=" => Augmented(Operator::MinusMinus),
        b"-:=" => Augmented(Operator::Minus),
        b"--" => Operator(Operator::MinusMinus),
        b"-:" => Punctuation(Punctuation::MinusColon),
        b"-" => Operator(Operator::Minus)
    )
}

#[tactic(auto, unfolding(icn_tree::specs::Spellings::marks_of))]
fn slash(bytes: &[u8]) -> Option<(Kind, usize)>
    ensures { result ≡ first_match (marks_of 47) bytes.now }
{
    first_spelling!(bytes;
        b"/:=" => Augmented(Operator::Slash),
        b"/" => Operator(Operator::Slash)
    )
}

#[tactic(auto, unfolding(icn_tree::specs::Spellings::marks_of))]
fn colon(bytes: &[u8]) -> Option<(Kind, usize)>
    ensures { result ≡ first_match (marks_of 58) bytes.now }
{
    first_spelling!(bytes;
        b":=:" => Operator(Operator::Swap),
        b":=" => Operator(Operator::Assign),
        b":" => Punctuation(Punctuation::Colon)
    )
}

#[tactic(auto, unfolding(icn_tree::specs::Spellings::marks_of))]
fn semicolon(bytes: &[u8]) -> Option<(Kind, usize)>
    ensures { result ≡ first_match (marks_of 59) bytes.now }
{
    first_spelling!(bytes;
        b";" => Punctuation(Punctuation::Semicolon)
    )
}

#[tactic(auto, unfolding(icn_tree::specs::Spellings::marks_of))]
fn less(bytes: &[u8]) -> Option<(Kind, usize)>
    ensures { result ≡ first_match (marks_of 60) bytes.now }
{
    first_spelling!(bytes;
        b"<<=:=" => Augmented(Operator::LessLessEqual),
        b"<=:=" => Augmented(Operator::LessEqual),
        b"<<:=" => Augmented(Operator::LessLess),
        b"<<=" => Operator(Operator::LessLessEqual),
        b"<->" => Operator(Operator::ReversibleSwap),
        b"<:=" => Augmented(Operator::Less),
        b"<=" => Operator(Operator::LessEqual),
        b"<<" => Operator(Operator::LessLess),
        b"<-" => Operator(Operator::ReversibleAssign),
        b"<" => Operator(Operator::Less)
    )
}

#[tactic(auto, unfolding(icn_tree::specs::Spellings::marks_of))]
fn equal(bytes: &[u8]) -> Option<(Kind, usize)>
    ensures { result ≡ first_match (marks_of 61) bytes.now }
{
    first_spelling!(bytes;
        b"===:=" => Augmented(Operator::EqualEqualEqual),
        b"==:=" => Augmented(Operator::EqualEqual),
        b"===" => Operator(Operator::EqualEqualEqual),
        b"=:=" => Augmented(Operator::Equal),
        b"==" => Operator(Operator::EqualEqual),
        b"=" => Operator(Operator::Equal)
    )
}

#[tactic(auto, unfolding(icn_tree::specs::Spellings::marks_of))]
fn greater(bytes: &[u8]) -> Option<(Kind, usize)>
    ensures { result ≡ first_match (marks_of 62) bytes.now }
{
    first_spelling!(bytes;
        b">>=:=" => Augmented(Operator::GreaterGreaterEqual),
        b">=:=" => Augmented(Operator::GreaterEqual),
        b">>:=" => Augmented(Operator::GreaterGreater),
        b">>=" => Operator(Operator::GreaterGreaterEqual),
        b">:=" => Augmented(Operator::Greater),
        b">=" => Operator(Operator::GreaterEqual),
        b">>" => Operator(Operator::GreaterGreater),
        b">" => Operator(Operator::Greater)
    )
}

#[tactic(auto, unfolding(icn_tree::specs::Spellings::marks_of))]
fn question(bytes: &[u8]) -> Option<(Kind, usize)>
    ensures { result ≡ first_match (marks_of 63) bytes.now }
{
    first_spelling!(bytes;
        b"?:=" => Augmented(Operator::Question),
        b"?" => Operator(Operator::Question)
    )
}

#[tactic(auto, unfolding(icn_tree::specs::Spellings::marks_of))]
fn at(bytes: &[u8]) -> Option<(Kind, usize)>
    ensures { result ≡ first_match (marks_of 64) bytes.now }
{
    first_spelling!(bytes;
        b"@:=" => Augmented(Operator::At),
        b"@" => Operator(Operator::At)
    )
}

#[tactic(auto, unfolding(icn_tree::specs::Spellings::marks_of))]
fn open_bracket(bytes: &[u8]) -> Option<(Kind, usize)>
    ensures { result ≡ first_match (marks_of 91) bytes.now }
{
    first_spelling!(bytes;
        b"[" => Punctuation(Punctuation::OpenBracket)
    )
}

#[tactic(auto, unfolding(icn_tree::specs::Spellings::marks_of))]
fn backslash(bytes: &[u8]) -> Option<(Kind, usize)>
    ensures { result ≡ first_match (marks_of 92) bytes.now }
{
    first_spelling!(bytes;
        b"\\" => Operator(Operator::Backslash)
    )
}

#[tactic(auto, unfolding(icn_tree::specs::Spellings::marks_of))]
fn close_bracket(bytes: &[u8]) -> Option<(Kind, usize)>
    ensures { result ≡ first_match (marks_of 93) bytes.now }
{
    first_spelling!(bytes;
        b"]" => Punctuation(Punctuation::CloseBracket)
    )
}

#[tactic(auto, unfolding(icn_tree::specs::Spellings::marks_of))]
fn caret(bytes: &[u8]) -> Option<(Kind, usize)>
    ensures { result ≡ first_match (marks_of 94) bytes.now }
{
    first_spelling!(bytes;
        b"^:=" => Augmented(Operator::Caret),
        b"^" => Operator(Operator::Caret)
    )
}

#[tactic(auto, unfolding(icn_tree::specs::Spellings::marks_of))]
fn open_brace(bytes: &[u8]) -> Option<(Kind, usize)>
    ensures { result ≡ first_match (marks_of 123) bytes.now }
{
    first_spelling!(bytes;
        b"{" => Punctuation(Punctuation::OpenBrace)
    )
}

#[tactic(auto, unfolding(icn_tree::specs::Spellings::marks_of))]
fn bar(bytes: &[u8]) -> Option<(Kind, usize)>
    ensures { result ≡ first_match (marks_of 124) bytes.now }
{
    first_spelling!(bytes;
        b"|||:=" => Augmented(Operator::BarBarBar),
        b"||:=" => Augmented(Operator::BarBar),
        b"|||" => Operator(Operator::BarBarBar),
        b"||" => Operator(Operator::BarBar),
        b"|" => Operator(Operator::Bar)
    )
}

#[tactic(auto, unfolding(icn_tree::specs::Spellings::marks_of))]
fn close_brace(bytes: &[u8]) -> Option<(Kind, usize)>
    ensures { result ≡ first_match (marks_of 125) bytes.now }
{
    first_spelling!(bytes;
        b"}" => Punctuation(Punctuation::CloseBrace)
    )
}

#[tactic(auto, unfolding(icn_tree::specs::Spellings::marks_of))]
fn tilde(bytes: &[u8]) -> Option<(Kind, usize)>
    ensures { result ≡ first_match (marks_of 126) bytes.now }
{
    first_spelling!(bytes;
        b"~===:=" => Augmented(Operator::NotEqualEqualEqual),
        b"~==:=" => Augmented(Operator::NotEqualEqual),
        b"~===" => Operator(Operator::NotEqualEqualEqual),
        b"~=:=" => Augmented(Operator::NotEqual),
        b"~==" => Operator(Operator::NotEqualEqual),
        b"~=" => Operator(Operator::NotEqual),
        b"~" => Operator(Operator::Tilde)
    )
}
