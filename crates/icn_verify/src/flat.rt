// A shape in a few words.
use crate::shape::Level;

/// A shape whose levels outside the innermost stand in an arena, by the number of their stack.
#[derive(Clone, Copy, PartialEq, Eq)]
pub struct Flat {
    pub in_create: bool,
    pub inner: Level,
    /// The number of the stack of the levels outside.
    pub outer: u32,
}
