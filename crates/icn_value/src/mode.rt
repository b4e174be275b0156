// How a file is opened.

/// How a program opens a file.
#[derive(Clone, Copy, Debug, PartialEq, Eq)]
pub enum FileMode {
    /// Mode `r`: it is read, from its start on.
    ToRead,
    /// Mode `w`: it is written anew.
    ToWrite,
    /// Mode `a`: what is written goes behind what it holds.
    ToAdd,
}
