// How a run ends.

/// How a run ended.
#[derive(Clone, Copy, Debug, PartialEq, Eq)]
pub enum Ending {
    /// The starting call of `main` gave a result or failed.
    Done,
    /// The program ended itself with this status.
    Exit(u8),
    /// A run-time error of this number ended it.
    Errored(u16),
    /// It stands at the bound of turns.
    AtBound,
}
