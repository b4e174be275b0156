// Reading an image.
ghost use Rattle.icn_code.specs.Codes.{procs_of};
ghost use Rattle.icn_code.specs.CodeTables.{tables_of};
ghost use Rattle.icn_image.specs.Fronts.{tables_in, with_procs};
ghost use Rattle.icn_image.specs.Readers.{Gives};
ghost use Rattle.icn_image.specs.Reading.{image_read, tables_at, version_at};
ghost use Rattle.icn_image.specs.Versions.{width_of};

use crate::fault::ImageFault;
use crate::front::{Front, front_at};
use crate::procs::{heads_at, procs_at};
use crate::version::Version;
use crate::writing::IMAGE_HEAD;
use icn_code::{Code, LinkedProcedure};
use icn_tree::Rule;
use std::alloc::Global;

// The head of an image of the first version: `Icn9img` and the version.
const FIRST_HEAD: [u8; 8] = *b"Icn9img\x01";

// The version of an image, by its head.
fn version_at(bytes: &[u8]) -> Result<(Version, &[u8]), ImageFault>
    ensures { Gives (λ x. (x.0, x.1.now)) result (version_at bytes.now) }
{
    if bytes.starts_with(&FIRST_HEAD) {
        Ok((Version::First, &bytes[FIRST_HEAD.len()..]))
    } else if bytes.starts_with(&IMAGE_HEAD) {
        Ok((Version::Second, &bytes[IMAGE_HEAD.len()..]))
    } else {
        Err(ImageFault::Broken(Rule::I1))
    }
}

#[tactic(auto, unfolding(crate::specs::Reading::tables_at))]
fn tables_at(
    alloc: Global,
    version: Version,
    bytes: &[u8],
) -> Result<((Front, Vec<LinkedProcedure>), &[u8]), ImageFault>
    ensures { Gives (λ x. (with_procs (tables_in x.0.0) (procs_of x.0.1.items), x.1.now)) result
        (tables_at (width_of version) bytes.now) }
{
    let (front, rest) = front_at(alloc, version, bytes)?;
    let (heads, rest) = heads_at(alloc, version, &front, rest)?;
    let (procs, rest) = procs_at(alloc, version, &front, &heads, rest)?;
    Ok(((front, procs), rest))
}

#[tactic(auto, unfolding(crate::specs::Reading::image_read))]
fn all_tables(alloc: Global, bytes: &[u8]) -> Result<(Front, Vec<LinkedProcedure>), ImageFault>
    ensures { Gives (λ x. with_procs (tables_in x.0) (procs_of x.1.items)) result (image_read bytes.now) }
{
    let (version, rest) = version_at(bytes)?;
    let (tables, rest) = tables_at(alloc, version, rest)?;
    if !rest.is_empty() {
        return Err(ImageFault::Broken(Rule::I5));
    }
    Ok(tables)
}

/// The code that an image of either version spells. An error is the first rule that the bytes break, from the left (I1: the head
/// is that of neither version; I2: the bytes end too early; I3: an unknown instruction, kind or flag; I4: something out of range;
/// I5: bytes behind the end), or want of memory.
pub fn read_image(alloc: Global, bytes: &[u8]) -> Result<Code, ImageFault>
    ensures exact { Gives tables_of result (image_read bytes.now) }
{
    let (front, procs) = all_tables(alloc, bytes)?;
    let Front {
        strings,
        csets,
        integers,
        fields,
        records,
        globals,
    } = front;
    Ok(Code {
        strings,
        csets,
        integers,
        fields,
        records,
        globals,
        procs,
    })
}
