// Bytes that source texts, literals and images of values give a sense to.

/// The quote of a string.
pub const DOUBLE_QUOTE: u8 = b'"';

/// What a comment begins with.
pub const NUMBER_SIGN: u8 = b'#';

/// The quote of a cset.
pub const SINGLE_QUOTE: u8 = b'\'';

/// The dot.
pub const FULL_STOP: u8 = b'.';

/// What an escape begins with.
pub const BACKSLASH: u8 = b'\\';

/// What stands in front of a control character in an escape.
pub const CARET: u8 = b'^';

/// The underscore, which is a letter of names, and joins the lines of a literal.
pub const UNDERSCORE: u8 = b'_';
