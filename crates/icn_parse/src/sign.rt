// Signs: the tokens that a declaration must have, beside its names.
ghost use Rattle.std.specs.Prelude.{◌≡◌, Some, MatchResult};
ghost use Rattle.icn_tree.specs.Phrases.{next};
ghost use Rattle.icn_expr.specs.Automata.{is_close_parenthesis, is_close_bracket};
ghost use Rattle.icn_parse.specs.FileReading.{sign_by, is_semicolon, is_open_parenthesis, is_open_bracket, is_initial, is_end, local_kind as local_kind_of};
ghost use Rattle.icn_parse.specs.PartReading.{is_comma_next};
ghost use Rattle.icn_parse.specs.Views.{ReadsNothing};

use crate::stop::ParseStop;
use icn_expr::behind;
use icn_tree::{Kind, LocalKind, Punctuation, Token, Word};

/// The tokens behind a sign, where it stands next. The error is `NotHere`, where it does not.
pub fn sign(stands: bool, tokens: &[Token]) -> Result<&[Token], ParseStop>
    ensures { MatchResult result (λ rest. sign_by stands tokens.now ≡ Some rest.now)
        (ReadsNothing (sign_by stands tokens.now)) }
{
    if !stands {
        return Err(ParseStop::NotHere);
    }
    Ok(behind(tokens))
}

/// Which word of names that a procedure declares stands next.
pub fn local_kind(tokens: &[Token]) -> Option<LocalKind>
    ensures { result ≡ local_kind_of (next tokens.now) }
{
    let (token, _) = tokens.split_first()?;
    match token.kind {
        Kind::Word(Word::Local) => Some(LocalKind::Local),
        Kind::Word(Word::Static) => Some(LocalKind::Static),
        _ => None,
    }
}

/// Whether a semicolon stands next.
pub fn semicolon_next(tokens: &[Token]) -> bool
    ensures { result ≡ is_semicolon (next tokens.now) }
{
    match tokens.split_first() {
        Some((token, _)) => matches!(token.kind, Kind::Punctuation(Punctuation::Semicolon)),
        None => false,
    }
}

/// Whether a comma stands next.
pub fn comma_next(tokens: &[Token]) -> bool
    ensures { result ≡ is_comma_next (next tokens.now) }
{
    match tokens.split_first() {
        Some((token, _)) => matches!(token.kind, Kind::Punctuation(Punctuation::Comma)),
        None => false,
    }
}

/// Whether an opening parenthesis stands next.
pub fn open_parenthesis_next(tokens: &[Token]) -> bool
    ensures { result ≡ is_open_parenthesis (next tokens.now) }
{
    match tokens.split_first() {
        Some((token, _)) => matches!(token.kind, Kind::Punctuation(Punctuation::OpenParenthesis)),
        None => false,
    }
}

/// Whether a closing parenthesis stands next.
pub fn close_parenthesis_next(tokens: &[Token]) -> bool
    ensures { result ≡ is_close_parenthesis (next tokens.now) }
{
    match tokens.split_first() {
        Some((token, _)) => matches!(token.kind, Kind::Punctuation(Punctuation::CloseParenthesis)),
        None => false,
    }
}

/// Whether an opening bracket stands next.
pub fn open_bracket_next(tokens: &[Token]) -> bool
    ensures { result ≡ is_open_bracket (next tokens.now) }
{
    match tokens.split_first() {
        Some((token, _)) => matches!(token.kind, Kind::Punctuation(Punctuation::OpenBracket)),
        None => false,
    }
}

/// Whether a closing bracket stands next.
pub fn close_bracket_next(tokens: &[Token]) -> bool
    ensures { result ≡ is_close_bracket (next tokens.now) }
{
    match tokens.split_first() {
        Some((token, _)) => matches!(token.kind, Kind::Punctuation(Punctuation::CloseBracket)),
        None => false,
    }
}

/// Whether the word `initial` stands next.
pub fn initial_next(tokens: &[Token]) -> bool
    ensures { result ≡ is_initial (next tokens.now) }
{
    match tokens.split_first() {
        Some((token, _)) => matches!(token.kind, Kind::Word(Word::Initial)),
        None => false,
    }
}

/// Whether the word `end` stands next.
pub fn end_next(tokens: &[Token]) -> bool
    ensures { result ≡ is_end (next tokens.now) }
{
    match tokens.split_first() {
        Some((token, _)) => matches!(token.kind, Kind::Word(Word::End)),
        None => false,
    }
}
