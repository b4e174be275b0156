// The tables in front of the procedures.
ghost use Rattle.icn_image.specs.Fronts.{tables_in};
ghost use Rattle.icn_image.specs.Readers.{Gives};
ghost use Rattle.icn_image.specs.Reading.{front_at};
ghost use Rattle.icn_image.specs.Versions.{width_of};

use crate::fault::ImageFault;
use crate::global::globals_at;
use crate::table::{csets_at, integers_at, places_at, records_at, strings_at};
use crate::version::Version;
use icn_code::LinkedRecord;
use icn_tree::Bytes;
use icn_value::Cset;
use std::alloc::Global;

// The tables in front of the procedures.
#[derive(Drop)]
pub struct Front {
    pub strings: Vec<Bytes>,
    pub csets: Vec<Cset>,
    pub integers: Vec<i64>,
    pub fields: Vec<u32>,
    pub records: Vec<LinkedRecord>,
    pub globals: Vec<icn_code::Global>,
}

/// These tables, where the numbers of the globals' procedures are not judged yet. The error is the first rule that is
/// broken, or want of memory.
#[tactic(auto, unfolding(crate::specs::Reading::front_at))]
pub fn front_at(alloc: Global, version: Version, bytes: &[u8]) -> Result<(Front, &[u8]), ImageFault>
    ensures { Gives (λ x. (tables_in x.0, x.1.now)) result (front_at (width_of version) bytes.now) }
{
    let (strings, rest) = strings_at(alloc, version, bytes)?;
    let (csets, rest) = csets_at(alloc, version, rest)?;
    let (integers, rest) = integers_at(alloc, version, rest)?;
    let (fields, rest) = places_at(alloc, version, strings.len(), rest)?;
    let (records, rest) = records_at(alloc, version, strings.len(), fields.len(), rest)?;
    let (globals, rest) = globals_at(alloc, version, &strings, records.len(), rest)?;
    let front = Front {
        strings,
        csets,
        integers,
        fields,
        records,
        globals,
    };
    Ok((front, rest))
}
