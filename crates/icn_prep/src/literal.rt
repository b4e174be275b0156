// How the bytes of a line stand to literals and comments.
ghost use Rattle.std.specs.Prelude.{◌≡◌};
ghost use Rattle.icn_prep.specs.LiteralStates.{after_in_literal, after, after_in, next_line_state, without_escape};

use icn_profile::{BACKSLASH, CARET, DOUBLE_QUOTE, NUMBER_SIGN, SINGLE_QUOTE, UNDERSCORE};

/// How a byte stands to literals and comments. A literal goes by its quote.
#[derive(Clone, Copy, Debug, PartialEq, Eq)]
pub enum LiteralState {
    /// Outside literals and comments.
    Outside,
    /// In a literal.
    Inside(u8),
    /// In a literal behind an underscore that no escape holds.
    Joining(u8),
    /// Behind a backslash in a literal.
    Escape(u8),
    /// Behind `\^` in a literal.
    Control(u8),
    /// In a comment, which goes to the line's end.
    Comment,
}

impl LiteralState {
    /// How the byte behind this one stands.
    pub fn after(self, byte: u8) -> Self
        ensures { result ≡ after self byte }
    {
        match self {
            LiteralState::Outside => match byte {
                NUMBER_SIGN => LiteralState::Comment,
                DOUBLE_QUOTE | SINGLE_QUOTE => LiteralState::Inside(byte),
                _ => LiteralState::Outside,
            },
            LiteralState::Inside(quote) | LiteralState::Joining(quote) => within(quote, byte),
            LiteralState::Escape(quote) if byte == CARET => LiteralState::Control(quote),
            LiteralState::Escape(quote) | LiteralState::Control(quote) => {
                LiteralState::Inside(quote)
            }
            LiteralState::Comment => LiteralState::Comment,
        }
    }

    /// How the byte behind this one of a directive's operand stands, where a name has no escapes.
    pub fn after_in(self, is_name: bool, byte: u8) -> Self
        ensures { result ≡ after_in is_name self byte }
    {
        let state = self.after(byte);
        if is_name {
            state.without_backslash()
        } else {
            state
        }
    }

    // The same where a backslash is a byte like another.
    fn without_backslash(self) -> Self
        ensures { result ≡ without_escape self }
    {
        match self {
            LiteralState::Escape(quote) => LiteralState::Inside(quote),
            state => state,
        }
    }

    /// How the next line begins, behind a line that ends so.
    pub fn at_next_line(self) -> Self
        ensures { result ≡ next_line_state self }
    {
        match self {
            LiteralState::Joining(quote) => LiteralState::Inside(quote),
            _ => LiteralState::Outside,
        }
    }
}

// How the byte behind this one stands in a literal.
fn within(quote: u8, byte: u8) -> LiteralState
    ensures { result ≡ after_in_literal quote byte }
{
    if byte == quote {
        LiteralState::Outside
    } else if byte == BACKSLASH {
        LiteralState::Escape(quote)
    } else if byte == UNDERSCORE {
        LiteralState::Joining(quote)
    } else {
        LiteralState::Inside(quote)
    }
}
