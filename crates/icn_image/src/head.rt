// What an image says of a procedure in front of all instructions.
ghost use Rattle.std.specs.Prelude.{◌+◌, ◌≤◌, IfOk, length};
ghost use Rattle.icn_profile.specs.Numbers.{most_statics};
ghost use Rattle.icn_image.specs.Readers.{Gives};
ghost use Rattle.icn_image.specs.Reading.{collects_at, head_at, locals_at, statics_at};
ghost use Rattle.icn_image.specs.Versions.{width_of};

use crate::fault::ImageFault;
use crate::number::{byte_at, count_at, label_at, number_at, place_at};
use crate::version::Version;
use icn_profile::{MOST_STATICS, MOST_VARIABLES};
use icn_tree::Rule;

// A procedure without its instructions.
#[derive(Clone, Copy, Debug)]
pub struct ImageHead {
    pub name: u32,
    pub parameters: u32,
    pub collects: bool,
    pub locals: u32,
    pub statics: u32,
    // How many instructions it has.
    pub instrs: u32,
}

#[tactic(auto, unfolding(crate::specs::Reading::collects_at))]
fn collects_at(parameters: u32, bytes: &[u8]) -> Result<(bool, &[u8]), ImageFault>
    ensures { Gives (λ x. (x.0, x.1.now)) result (collects_at parameters bytes.now) }
{
    let (flag, rest) = byte_at(bytes)?;
    if flag == 0 {
        Ok((false, rest))
    } else if flag == 1 && parameters > 0 {
        Ok((true, rest))
    } else {
        Err(ImageFault::Broken(Rule::I3))
    }
}

#[tactic(auto, unfolding(crate::specs::Reading::locals_at))]
fn locals_at(version: Version, parameters: u32, bytes: &[u8]) -> Result<(u32, &[u8]), ImageFault>
    ensures { Gives (λ x. (x.0, x.1.now)) result (locals_at (width_of version) parameters bytes.now) }
{
    let (locals, rest) = number_at(version, bytes)?;
    if u64::from(parameters) + u64::from(locals) > MOST_VARIABLES {
        return Err(ImageFault::Broken(Rule::I4));
    }
    Ok((locals, rest))
}

// The statics of a procedure, behind procedures that have so many together.
#[tactic(auto, unfolding(crate::specs::Reading::statics_at))]
fn statics_at(version: Version, before: u64, bytes: &[u8]) -> Result<(u32, &[u8]), ImageFault>
    requires { before ≤ most_statics }
    ensures gives { Gives (λ x. (x.0, x.1.now)) result (statics_at (width_of version) before bytes.now) }
    ensures within { IfOk result (λ x. before + x.0 ≤ most_statics) }
{
    let (statics, rest) = count_at(version, MOST_VARIABLES, bytes)?;
    if before + u64::from(statics) > MOST_STATICS {
        return Err(ImageFault::Broken(Rule::I4));
    }
    Ok((statics, rest))
}

/// The head of a procedure, in a code with so many strings, behind procedures that have so many statics together. The error
/// is the first rule that is broken.
#[tactic(auto, unfolding(crate::specs::Reading::head_at))]
pub fn head_at(
    version: Version,
    strings: usize,
    before: u64,
    bytes: &[u8],
) -> Result<(ImageHead, &[u8]), ImageFault>
    requires { before ≤ most_statics }
    ensures gives { Gives (λ x. (x.0, x.1.now)) result (head_at (width_of version) strings before bytes.now) }
    ensures within { IfOk result (λ x. before + x.0.statics ≤ most_statics) }
{
    let (name, rest) = place_at(version, strings, bytes)?;
    let (parameters, rest) = number_at(version, rest)?;
    let (collects, rest) = collects_at(parameters, rest)?;
    let (locals, rest) = locals_at(version, parameters, rest)?;
    let (statics, rest) = statics_at(version, before, rest)?;
    let (instrs, rest) = label_at(rest)?;
    let head = ImageHead {
        name,
        parameters,
        collects,
        locals,
        statics,
        instrs,
    };
    Ok((head, rest))
}
