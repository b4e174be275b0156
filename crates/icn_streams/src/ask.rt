// What a reading asks for.

/// What a reading asks for.
#[derive(Clone, Copy, Debug, PartialEq, Eq)]
pub enum Ask {
    /// The next line.
    Line,
    /// So many bytes.
    Bytes(u64),
}
