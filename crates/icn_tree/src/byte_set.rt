// A set of bytes.
ghost use Rattle.std.specs.Prelude.{◌≡◌, ◌==◌, ◌<◌, ℕ, List, IfOk, slice_index_or, false};
ghost use Rattle.std.specs.List.{list_any};
ghost use Rattle.icn_tree.specs.ByteSets.{members_of};

use std::alloc::{AllocError, Global};
use std::marker::Model;

/// A set of bytes, which contracts see as the list of its members in ascending order.
#[derive(Debug, Drop)]
pub struct ByteSet {
    members: Vec<u8>,
}

impl Model for ByteSet {
    ghost Value = { List ℕ };

    ghost view = { λ s. s.members.items };
}

impl ByteSet {
    /// The set of the bytes that stand in a list, in whatever order and however often. An error is want of memory.
    pub fn from_slice(alloc: Global, bytes: &[u8]) -> Result<Self, AllocError>
        ensures { IfOk result (λ set. set ≡ members_of bytes.now) }
    {
        let members = members(alloc, bytes)?;
        Ok(ByteSet { members })
    }

    /// A copy of this set. An error is want of memory.
    pub fn copy(&self, alloc: Global) -> Result<Self, AllocError>
        ensures { IfOk result (λ set. set ≡ self.now) }
    {
        let members = Vec::from_slice(alloc, &self.members)?;
        Ok(ByteSet { members })
    }

    /// The members in ascending order.
    pub fn as_slice(&self) -> &[u8]
        ensures { result.now ≡ self.now }
    {
        &self.members
    }
}

// The bytes that stand in a list, each once and in ascending order.
fn members(alloc: Global, bytes: &[u8]) -> Result<Vec<u8>, AllocError>
    ensures { IfOk result (λ members. members.items ≡ members_of bytes.now) }
{
    let present = present(bytes);
    let mut members = Vec::new(alloc);
    for (byte, is_present) in present.iter().enumerate() {
        if *is_present {
            members.push(byte as u8)?;
        }
    }
    Ok(members)
}

// Of each byte, whether it stands in a list.
fn present(bytes: &[u8]) -> [bool; 256]
    ensures { (byte : ℕ) → byte < 256
        → slice_index_or result byte false ≡ list_any (λ b. b == byte) bytes.now }
{
    let mut present = [false; 256];
    for byte in bytes {
        present[usize::from(*byte)] = true;
    }
    present
}
