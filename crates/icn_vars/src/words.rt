// What keywords hold, beside the subject and its position.
use icn_value::Val;

/// An error that became failure.
#[derive(Clone, Copy, Debug, PartialEq, Eq)]
pub struct HeldError {
    /// Its number.
    pub number: u16,
    /// The value that it is about, if there is one.
    pub value: Option<Val>,
}

/// `&random`, `&error`, and the last error that became failure, if one did.
#[derive(Clone, Copy, Debug, PartialEq, Eq)]
pub struct Words {
    /// `&random`.
    pub random: u32,
    /// `&error`.
    pub error: i64,
    /// What `&errornumber`, `&errorvalue` and `&errortext` are about.
    pub kept: Option<HeldError>,
}
