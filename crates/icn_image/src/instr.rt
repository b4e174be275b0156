// An instruction in an image.
ghost use Rattle.icn_image.specs.Readers.{Gives};
ghost use Rattle.icn_image.specs.Reading.{instr_at, operand_at};
ghost use Rattle.icn_image.specs.Versions.{width_of};

use crate::fault::ImageFault;
use crate::number::{byte_at, label_at, number_at};
use crate::operand::{Operand, instr_of, operand_of};
use crate::scope::TableSizes;
use crate::version::Version;
use icn_code::Instr;
use icn_tree::Rule;

fn operand_at(
    version: Version,
    operand: Option<Operand>,
    bytes: &[u8],
) -> Result<(u32, &[u8]), ImageFault>
    ensures { Gives (λ x. (x.0, x.1.now)) result (operand_at (width_of version) operand bytes.now) }
{
    match operand {
        None => Err(ImageFault::Broken(Rule::I3)),
        Some(Operand::Nothing) => Ok((0, bytes)),
        Some(Operand::Number) => number_at(version, bytes),
        Some(Operand::Label) => label_at(bytes),
    }
}

/// An instruction, of what may be named where it stands. The error is the first rule that is broken.
#[tactic(auto, unfolding(crate::specs::Reading::instr_at))]
pub fn instr_at<'b>(
    version: Version,
    scope: &TableSizes,
    bytes: &'b [u8],
) -> Result<(Instr, &'b [u8]), ImageFault>
    ensures { Gives (λ x. (x.0, x.1.now)) result (instr_at (width_of version) scope.now bytes.now) }
{
    let (number, rest) = byte_at(bytes)?;
    let (operand, rest) = operand_at(version, operand_of(number), rest)?;
    match instr_of(number, operand) {
        Some(instr) if scope.has(instr) => Ok((instr, rest)),
        _ => Err(ImageFault::Broken(Rule::I4)),
    }
}
