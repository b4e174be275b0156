// Where in a file reading is.

/// A conditional that is open.
#[derive(Clone, Copy, Debug)]
pub struct Conditional {
    /// Whether what stands round it is taken.
    pub around: bool,
    /// Whether its `$else` was met.
    pub in_else: bool,
    /// The index of the name of the file where it began.
    pub file: u32,
    /// The number of the line where it began.
    pub line: u32,
}

/// Where in a file reading is.
#[derive(Drop)]
pub struct Cursor {
    /// The index of the file's name.
    pub file: u32,
    /// The number of the line that comes next.
    pub line: u32,
    /// Whether what stands there is taken.
    pub taken: bool,
    /// The conditionals that are open there, the innermost last.
    pub conditionals: Vec<Conditional>,
}
