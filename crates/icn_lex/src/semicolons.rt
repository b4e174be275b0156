// The semicolons that the ends of lines stand for.
ghost use Rattle.std.specs.Prelude.{◌≡◌, ◌∷◌, [], ◌++◌, OnOk};
ghost use Rattle.icn_tree.specs.Semicolons.{is_ender, is_beginner, word_ends, mark_ends, word_begins, operator_begins, mark_begins};
ghost use Rattle.icn_lex.specs.Reading.{with_piece, semicolon_of};

use icn_tree::{Kind, Operator, Punctuation, Token, Word};
use std::alloc::AllocError;

/// Adds a token, behind the semicolon that the end of a line before it stands for. Whether it is the first token on its line
/// is told. `AllocError` is want of memory.
pub fn push(tokens: &mut Vec<Token>, is_first: bool, token: Token) -> Result<(), AllocError>
    ensures { OnOk result (tokens.new.items ≡ tokens.old.items
        ++ with_piece tokens.old.items (record { token = token; is_first = is_first }) ++ token ∷ []) }
{
    let end = statement_end(tokens, is_first, &token);
    if let Some((line, file)) = end {
        let kind = Kind::Punctuation(Punctuation::Semicolon);
        tokens.push(Token { kind, line, file })?;
    }
    tokens.push(token)?;
    Ok(())
}

// The place of the last token, where a semicolon stands between it and this one.
fn statement_end(tokens: &[Token], is_first: bool, token: &Token) -> Option<(u32, u32)>
    ensures { with_piece tokens.now (record { token = token.now; is_first = is_first })
        ≡ semicolon_of result }
{
    match tokens.last() {
        Some(last) if is_first && is_ender(&last.kind) && is_beginner(&token.kind) => {
            Some((last.line, last.file))
        }
        _ => None,
    }
}

// A token that can end an expression.
#[tactic(auto, unfolding(icn_tree::specs::Semicolons::is_ender))]
fn is_ender(kind: &Kind) -> bool
    ensures { result ≡ is_ender kind.now }
{
    match kind {
        Kind::Identifier(_) | Kind::Integer(_) | Kind::Text(_) | Kind::Cset(_) => true,
        Kind::Word(word) => word_ends(*word),
        Kind::Operator(_) | Kind::Augmented(_) => false,
        Kind::Punctuation(mark) => mark_ends(*mark),
    }
}

fn word_ends(word: Word) -> bool
    ensures { result ≡ word_ends word }
{
    matches!(
        word,
        Word::Break | Word::Fail | Word::Next | Word::Return | Word::Suspend
    )
}

fn mark_ends(mark: Punctuation) -> bool
    ensures { result ≡ mark_ends mark }
{
    matches!(
        mark,
        Punctuation::CloseParenthesis | Punctuation::CloseBracket | Punctuation::CloseBrace
    )
}

// A token that can begin an expression, a declaration inside a procedure or a clause `default`, or that ends a procedure.
#[tactic(auto, unfolding(icn_tree::specs::Semicolons::is_beginner))]
fn is_beginner(kind: &Kind) -> bool
    ensures { result ≡ is_beginner kind.now }
{
    match kind {
        Kind::Identifier(_) | Kind::Integer(_) | Kind::Text(_) | Kind::Cset(_) => true,
        Kind::Word(word) => word_begins(*word),
        Kind::Operator(operator) => operator_begins(*operator),
        Kind::Augmented(_) => false,
        Kind::Punctuation(mark) => mark_begins(*mark),
    }
}

fn word_begins(word: Word) -> bool
    ensures { result ≡ word_begins word }
{
    matches!(
        word,
        Word::Break
            | Word::Case
            | Word::Create
            | Word::Default
            | Word::End
            | Word::Every
            | Word::Fail
            | Word::If
            | Word::Initial
            | Word::Local
            | Word::Next
            | Word::Not
            | Word::Repeat
            | Word::Return
            | Word::Static
            | Word::Suspend
            | Word::Until
            | Word::While
    )
}

fn operator_begins(operator: Operator) -> bool
    ensures { result ≡ operator_begins operator }
{
    match operator {
        Operator::Dot
        | Operator::Bang
        | Operator::At
        | Operator::Bar
        | Operator::BarBar
        | Operator::BarBarBar
        | Operator::Plus
        | Operator::PlusPlus
        | Operator::Minus
        | Operator::MinusMinus
        | Operator::Star
        | Operator::StarStar
        | Operator::Slash
        | Operator::Backslash
        | Operator::Caret
        | Operator::Tilde
        | Operator::NotEqual
        | Operator::NotEqualEqual
        | Operator::NotEqualEqualEqual
        | Operator::Equal
        | Operator::EqualEqual
        | Operator::EqualEqualEqual
        | Operator::Question
        | Operator::Ampersand => true,
        Operator::Percent
        | Operator::Less
        | Operator::LessEqual
        | Operator::Greater
        | Operator::GreaterEqual
        | Operator::LessLess
        | Operator::LessLessEqual
        | Operator::GreaterGreater
        | Operator::GreaterGreaterEqual
        | Operator::Assign
        | Operator::Swap
        | Operator::ReversibleAssign
        | Operator::ReversibleSwap => false,
    }
}

fn mark_begins(mark: Punctuation) -> bool
    ensures { result ≡ mark_begins mark }
{
    matches!(
        mark,
        Punctuation::OpenParenthesis | Punctuation::OpenBracket | Punctuation::OpenBrace
    )
}
