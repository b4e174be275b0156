// All bytes that were ever written, which proofs alone know: the struct has no bytes, and its functions do nothing.
ghost use Rattle.std.specs.Prelude.{◌≡◌, ℕ, List, [], ◌++◌, take};
ghost use Rattle.std.specs.Borrow.{ftrue};

use crate::chunk::Chunk;
use std::marker::Model;

/// All bytes that were ever written to a region, one behind the other.
#[derive(Drop)]
pub struct AllBytes {
    pub ghost bytes: { List ℕ },
}

impl Model for AllBytes {
    ghost also_owns = { λ _. ftrue };
}

impl AllBytes {
    /// Nothing was written.
    pub fn nothing() -> AllBytes
        ensures { result.bytes ≡ [] }
    {
        AllBytes {}
    }

    /// What lies before a chunk, and then the chunk's bytes.
    pub fn up_to(_before: &AllBytes, _last: &Chunk) -> AllBytes
        ensures { result.bytes ≡ take _last.now.first _before.now.bytes ++ _last.now.bytes.items }
    {
        AllBytes {}
    }
}
