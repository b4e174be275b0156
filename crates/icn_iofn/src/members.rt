// The members of a cset as a text.
ghost use Rattle.std.specs.Prelude.{◌≡◌, ◌++◌, ◌∷◌, [], OnOk, if◌then◌else◌};
ghost use Rattle.icn_value.specs.Csets.{has};
ghost use Rattle.icn_value.specs.Members.{members_of};

use icn_value::Cset;
use std::alloc::AllocError;

/// Appends the members, ascending. The error is want of memory.
pub fn push_members(cset: &Cset, buffer: &mut Vec<u8>) -> Result<(), AllocError>
    ensures { OnOk result (buffer.new.items ≡ buffer.old.items ++ members_of cset.now) }
{
    for byte in 0..256u16 {
        push_member(cset, byte as u8, buffer)?;
    }
    Ok(())
}

// Appends a byte where it is a member.
fn push_member(cset: &Cset, byte: u8, buffer: &mut Vec<u8>) -> Result<(), AllocError>
    ensures { OnOk result (buffer.new.items ≡ buffer.old.items ++ (if has cset.now byte then byte ∷ []
        else [])) }
{
    if cset.has(byte) {
        buffer.push(byte)?;
    }
    Ok(())
}
