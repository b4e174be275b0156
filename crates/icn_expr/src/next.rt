// What token stands next.
ghost use Rattle.std.specs.Prelude.{◌≡◌};
ghost use Rattle.icn_tree.specs.Phrases.{next, place_of as place_at};
ghost use Rattle.icn_tree.specs.Levels.{is_else, is_do, is_by};
ghost use Rattle.icn_tree.specs.Grammar.{ByComma, BySemicolon};
ghost use Rattle.icn_expr.specs.Automata.{behind as behind_first, is_separator, is_close_parenthesis, is_close_bracket, is_close_brace, is_open_brace, is_colon, is_then, is_of, is_default, section_kind as section_kind_of};

use icn_tree::{Kind, Place, Punctuation, SectionKind, Token, Word};

/// The tokens behind the first.
pub fn behind(tokens: &[Token]) -> &[Token]
    ensures { result.now ≡ behind_first tokens.now }
{
    match tokens.split_first() {
        Some((_, rest)) => rest,
        None => tokens,
    }
}

/// Where the first token stands.
pub fn place_of(tokens: &[Token]) -> Place
    ensures { result ≡ place_at tokens.now }
{
    match tokens.split_first() {
        Some((token, _)) => Place {
            line: token.line,
            file: token.file,
        },
        None => Place { line: 0, file: 0 },
    }
}

/// The kind of section whose sign stands next.
pub fn section_next(tokens: &[Token]) -> Option<SectionKind>
    ensures { result ≡ section_kind_of (next tokens.now) }
{
    let (token, _) = tokens.split_first()?;
    match token.kind {
        Kind::Punctuation(Punctuation::Colon) => Some(SectionKind::Between),
        Kind::Punctuation(Punctuation::PlusColon) => Some(SectionKind::Forward),
        Kind::Punctuation(Punctuation::MinusColon) => Some(SectionKind::Backward),
        _ => None,
    }
}

/// Whether `then` stands next.
pub fn then_next(tokens: &[Token]) -> bool
    ensures { result ≡ is_then (next tokens.now) }
{
    match tokens.split_first() {
        Some((token, _)) => matches!(token.kind, Kind::Word(Word::Then)),
        None => false,
    }
}

/// Whether `else` stands next.
pub fn else_next(tokens: &[Token]) -> bool
    ensures { result ≡ is_else (next tokens.now) }
{
    match tokens.split_first() {
        Some((token, _)) => matches!(token.kind, Kind::Word(Word::Else)),
        None => false,
    }
}

/// Whether `do` stands next.
pub fn do_next(tokens: &[Token]) -> bool
    ensures { result ≡ is_do (next tokens.now) }
{
    match tokens.split_first() {
        Some((token, _)) => matches!(token.kind, Kind::Word(Word::Do)),
        None => false,
    }
}

/// Whether `by` stands next.
pub fn by_next(tokens: &[Token]) -> bool
    ensures { result ≡ is_by (next tokens.now) }
{
    match tokens.split_first() {
        Some((token, _)) => matches!(token.kind, Kind::Word(Word::By)),
        None => false,
    }
}

/// Whether `of` stands next.
pub fn of_next(tokens: &[Token]) -> bool
    ensures { result ≡ is_of (next tokens.now) }
{
    match tokens.split_first() {
        Some((token, _)) => matches!(token.kind, Kind::Word(Word::Of)),
        None => false,
    }
}

/// Whether `default` stands next.
pub fn default_next(tokens: &[Token]) -> bool
    ensures { result ≡ is_default (next tokens.now) }
{
    match tokens.split_first() {
        Some((token, _)) => matches!(token.kind, Kind::Word(Word::Default)),
        None => false,
    }
}

/// Whether a comma stands next.
pub fn comma_next(tokens: &[Token]) -> bool
    ensures { result ≡ is_separator ByComma (next tokens.now) }
{
    match tokens.split_first() {
        Some((token, _)) => matches!(token.kind, Kind::Punctuation(Punctuation::Comma)),
        None => false,
    }
}

/// Whether a semicolon stands next.
pub fn semicolon_next(tokens: &[Token]) -> bool
    ensures { result ≡ is_separator BySemicolon (next tokens.now) }
{
    match tokens.split_first() {
        Some((token, _)) => matches!(token.kind, Kind::Punctuation(Punctuation::Semicolon)),
        None => false,
    }
}

/// Whether a colon stands next.
pub fn colon_next(tokens: &[Token]) -> bool
    ensures { result ≡ is_colon (next tokens.now) }
{
    match tokens.split_first() {
        Some((token, _)) => matches!(token.kind, Kind::Punctuation(Punctuation::Colon)),
        None => false,
    }
}

/// Whether an opening brace stands next.
pub fn open_brace_next(tokens: &[Token]) -> bool
    ensures { result ≡ is_open_brace (next tokens.now) }
{
    match tokens.split_first() {
        Some((token, _)) => matches!(token.kind, Kind::Punctuation(Punctuation::OpenBrace)),
        None => false,
    }
}

/// Whether a closing parenthesis stands next.
pub fn close_parenthesis_next(tokens: &[Token]) -> bool
    ensures { result ≡ is_close_parenthesis (next tokens.now) }
{
    match tokens.split_first() {
        Some((token, _)) => matches!(token.kind, Kind::Punctuation(Punctuation::CloseParenthesis)),
        None => false,
    }
}

/// Whether a closing bracket stands next.
pub fn close_bracket_next(tokens: &[Token]) -> bool
    ensures { result ≡ is_close_bracket (next tokens.now) }
{
    match tokens.split_first() {
        Some((token, _)) => matches!(token.kind, Kind::Punctuation(Punctuation::CloseBracket)),
        None => false,
    }
}

/// Whether a closing brace stands next.
pub fn close_brace_next(tokens: &[Token]) -> bool
    ensures { result ≡ is_close_brace (next tokens.now) }
{
    match tokens.split_first() {
        Some((token, _)) => matches!(token.kind, Kind::Punctuation(Punctuation::CloseBrace)),
        None => false,
    }
}
