// Bytes, numbers and strings at the front of a save.
ghost use Rattle.std.specs.Int.{w32, w64};
ghost use Rattle.icn_save.specs.Readers.{Gives, byte_at, bytes_at, number_at, string_at};

use crate::fault::SaveFault;
use icn_tree::Rule;

/// So many bytes, and what stands behind them. The error is G2, where fewer are there.
fn bytes_at(count: u64, bytes: &[u8]) -> Result<(&[u8], &[u8]), SaveFault>
    ensures { Gives (λ x. (x.0.now, x.1.now)) result (bytes_at count bytes.now) }
{
    if (bytes.len() as u64) < count {
        return Err(SaveFault::Broken(Rule::G2));
    }
    Ok(bytes.split_at(count as usize))
}

/// A byte. The error is G2, where there is none.
pub fn byte_at(bytes: &[u8]) -> Result<(u8, &[u8]), SaveFault>
    ensures { Gives (λ x. (x.0, x.1.now)) result (byte_at bytes.now) }
{
    match bytes {
        [] => Err(SaveFault::Broken(Rule::G2)),
        [byte, rest @ ..] => Ok((*byte, rest)),
    }
}

/// A count or a length of 32 bits. The error is G2.
#[tactic(auto, unfolding(crate::specs::Readers::number_at))]
pub fn count_at(bytes: &[u8]) -> Result<(u32, &[u8]), SaveFault>
    ensures { Gives (λ x. (x.0, x.1.now)) result (number_at w32 bytes.now) }
{
    let (front, rest) = bytes_at(4, bytes)?;
    let count = u32::from_le_bytes([front[0], front[1], front[2], front[3]]);
    Ok((count, rest))
}

/// A number of 64 bits. The error is G2.
#[tactic(auto, unfolding(crate::specs::Readers::number_at))]
pub fn number_at(bytes: &[u8]) -> Result<(u64, &[u8]), SaveFault>
    ensures { Gives (λ x. (x.0, x.1.now)) result (number_at w64 bytes.now) }
{
    let (front, rest) = bytes_at(8, bytes)?;
    let number = u64::from_le_bytes([
        front[0], front[1], front[2], front[3], front[4], front[5], front[6], front[7],
    ]);
    Ok((number, rest))
}

/// A string, behind its length of 32 bits. The error is G2.
#[tactic(auto, unfolding(crate::specs::Readers::string_at))]
pub fn string_at(bytes: &[u8]) -> Result<(&[u8], &[u8]), SaveFault>
    ensures { Gives (λ x. (x.0.now, x.1.now)) result (string_at w32 bytes.now) }
{
    let (count, rest) = count_at(bytes)?;
    bytes_at(u64::from(count), rest)
}

/// A string, behind its length of 64 bits. The error is G2.
#[tactic(auto, unfolding(crate::specs::Readers::string_at))]
pub fn long_string_at(bytes: &[u8]) -> Result<(&[u8], &[u8]), SaveFault>
    ensures { Gives (λ x. (x.0.now, x.1.now)) result (string_at w64 bytes.now) }
{
    let (count, rest) = number_at(bytes)?;
    bytes_at(count, rest)
}
