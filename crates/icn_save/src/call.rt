// A call of a store of files, as a save has it.
use icn_tree::Bytes;

/// What a call of a store of files was answered.
#[derive(Debug, Drop)]
pub enum CallAnswer {
    /// The file was read, and these bytes were appended.
    Found(Bytes),
    /// There was no such file.
    Absent,
    /// The file was written, with these bytes.
    Written(Bytes),
}

/// A call of a store of files: the name that it asked for, and what it was answered.
#[derive(Debug, Drop)]
pub struct SavedCall {
    pub name: String,
    pub answer: CallAnswer,
}
