// Bytes and numbers at the front of an image.
ghost use Rattle.std.specs.Prelude.{◌<◌, IfOk};
ghost use Rattle.std.specs.Int.{w16, w32};
ghost use Rattle.icn_image.specs.Readers.{Gives, byte_at, bytes_at, count_at, number_at, index_at};
ghost use Rattle.icn_image.specs.Versions.{width_of};

use crate::fault::ImageFault;
use crate::version::Version;
use icn_tree::Rule;

/// So many bytes, and what stands behind them. The error is I2, where fewer are there.
pub fn bytes_at(count: usize, bytes: &[u8]) -> Result<(&[u8], &[u8]), ImageFault>
    ensures { Gives (λ x. (x.0.now, x.1.now)) result (bytes_at count bytes.now) }
{
    if bytes.len() < count {
        return Err(ImageFault::Broken(Rule::I2));
    }
    Ok(bytes.split_at(count))
}

/// A byte. The error is I2, where there is none.
pub fn byte_at(bytes: &[u8]) -> Result<(u8, &[u8]), ImageFault>
    ensures { Gives (λ x. (x.0, x.1.now)) result (byte_at bytes.now) }
{
    match bytes {
        [] => Err(ImageFault::Broken(Rule::I2)),
        [byte, rest @ ..] => Ok((*byte, rest)),
    }
}

/// A count, a length, a place in a table or an operand, as wide as the version has them. The error is I2.
pub fn number_at(version: Version, bytes: &[u8]) -> Result<(u32, &[u8]), ImageFault>
    ensures { Gives (λ x. (x.0, x.1.now)) result (number_at (width_of version) bytes.now) }
{
    match version {
        Version::First => short_number_at(bytes),
        Version::Second => label_at(bytes),
    }
}

// A number of 16 bits.
#[tactic(auto, unfolding(crate::specs::Readers::number_at))]
fn short_number_at(bytes: &[u8]) -> Result<(u32, &[u8]), ImageFault>
    ensures { Gives (λ x. (x.0, x.1.now)) result (number_at w16 bytes.now) }
{
    let (number, rest) = bytes_at(2, bytes)?;
    let number = u16::from_le_bytes([number[0], number[1]]);
    Ok((u32::from(number), rest))
}

/// A number of 32 bits, as every version has labels, and how many instructions a procedure has. The error is I2.
#[tactic(auto, unfolding(crate::specs::Readers::number_at))]
pub fn label_at(bytes: &[u8]) -> Result<(u32, &[u8]), ImageFault>
    ensures { Gives (λ x. (x.0, x.1.now)) result (number_at w32 bytes.now) }
{
    let (number, rest) = bytes_at(4, bytes)?;
    let number = u32::from_le_bytes([number[0], number[1], number[2], number[3]]);
    Ok((number, rest))
}

/// A count that is at most this one. The error is I2, or I4 where it is more.
#[tactic(auto, unfolding(crate::specs::Readers::count_at))]
pub fn count_at(version: Version, most: u64, bytes: &[u8]) -> Result<(u32, &[u8]), ImageFault>
    ensures { Gives (λ x. (x.0, x.1.now)) result (count_at (width_of version) most bytes.now) }
{
    let (count, rest) = number_at(version, bytes)?;
    if u64::from(count) > most {
        return Err(ImageFault::Broken(Rule::I4));
    }
    Ok((count, rest))
}

/// A place in a table of so many entries. The error is I2, or I4 where the table has no such place.
#[tactic(auto, unfolding(crate::specs::Readers::index_at))]
pub fn place_at(version: Version, count: usize, bytes: &[u8]) -> Result<(u32, &[u8]), ImageFault>
    ensures gives { Gives (λ x. (x.0, x.1.now)) result (index_at (width_of version) count bytes.now) }
    ensures there { IfOk result (λ x. x.0 < count) }
{
    let (place, rest) = number_at(version, bytes)?;
    if place as usize >= count {
        return Err(ImageFault::Broken(Rule::I4));
    }
    Ok((place, rest))
}
