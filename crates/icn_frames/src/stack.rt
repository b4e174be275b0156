// What a stack of cells does.
ghost use Rattle.std.specs.Prelude.{◌≡◌, ◌+◌, ◌-◌, ◌^◌, ◌<◌, ◌≤◌, ℕ, List, [], ◌∷◌, length, Option, OnOk, IsOk};
ghost use Rattle.icn_frames.specs.Heights.{cut, cell_at, set_cell, with_copy};

use std::alloc::{AllocError, Global};

/// Cells one above another, with room for more. Only `reserve` takes memory.
///
/// A clause sees the list of the cells, the newest first, and for how many more there is room. A cell goes by how many
/// stand below it, so that the lowest has the index 0.
pub trait Stack<T: Copy> {
    /// The cells, the newest first.
    ghost cells: { Self → List T };

    /// For how many more there is room.
    ghost spare: { Self → ℕ };

    /// A stack without cells, and without room.
    fn empty(alloc: Global) -> Self
        ensures cells { cells result ≡ [] }
        ensures spare { spare result ≡ 0 };

    /// How many cells there are.
    fn len(&self) -> u64
        ensures { result ≡ length (cells self.now) };

    /// Makes room for `n` more cells. Where there is so much room already it takes no memory.
    ///
    /// An error is want of memory. Whatever the answer, the cells stay, and the room does not shrink.
    fn reserve(&mut self, n: u64) -> Result<(), AllocError>
        ensures cells { cells self.new ≡ cells self.old }
        ensures spare { spare self.old ≤ spare self.new }
        ensures ok { OnOk result (n ≤ spare self.new) }
        ensures succeeds { n ≤ spare self.old → IsOk result };

    /// Puts a cell on top. There must be room for it.
    fn push(&mut self, v: T)
        requires { 0 < spare self.old }
        ensures cells { cells self.new ≡ v ∷ cells self.old }
        ensures spare { spare self.new + 1 ≡ spare self.old };

    /// Takes the top cell, which must be there. Its room is free again.
    fn pop(&mut self) -> T
        requires { 0 < length (cells self.old) }
        ensures cells { cells self.old ≡ result ∷ cells self.new }
        ensures spare { spare self.new ≡ spare self.old + 1 };

    /// The cell above `i` others, which must be there.
    fn get(&self, i: u64) -> T
        requires { i < length (cells self.now) }
        ensures { cell_at (i + 1) (cells self.now) ≡ Some result };

    /// Puts another cell in the place of the one above `i` others, which must be there.
    fn set(&mut self, i: u64, v: T)
        requires { i < length (cells self.old) }
        ensures cells { cells self.new ≡ set_cell (i + 1) v (cells self.old) }
        ensures spare { spare self.new ≡ spare self.old };

    /// Drops all cells but the lowest `len`, and there must be so many. The room of those that are dropped is free again.
    fn cut(&mut self, len: u64)
        requires { len ≤ length (cells self.old) }
        ensures cells { cells self.new ≡ cut len (cells self.old) }
        ensures spare { spare self.new + len ≡ spare self.old + length (cells self.old) };

    /// Puts the cells `from` to `to - 1` once more on top, in their order. They must be there, and room for them.
    fn copy_up(&mut self, from: u64, to: u64)
        requires order { from ≤ to }
        requires within { to ≤ length (cells self.old) }
        requires room { to - from ≤ spare self.old }
        ensures cells { cells self.new ≡ with_copy from to (cells self.old) }
        ensures spare { spare self.new + (to - from) ≡ spare self.old };

    /// The cells and the room are fewer than half of what 64 bits count, so that no sum of indices is too large.
    ghost small: { (s : Self) → length (cells s) + spare s < 2 ^ 63 };
}
