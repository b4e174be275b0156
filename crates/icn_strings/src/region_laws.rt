// What holds of every region. A call does nothing: it tells a caller's proof the law.
ghost use Rattle.std.specs.Prelude.{◌≡◌, ◌+◌, ◌-◌, ◌^◌, ◌<◌, ◌≤◌, [], length, take, drop};
ghost use Rattle.icn_strings.specs.Ranges.{IsPart};
ghost use Rattle.icn_strings.specs.Regions.{limit_of, sum_of, IsOf, IsWritten, bytes_of};

use crate::byte_range::ByteRange;
use crate::region::Region;

/// A range of length 0 is of every region, and has no bytes.
#[tactic(auto, unfolding(crate::specs::Regions::IsHeld, crate::specs::Regions::bytes_of))]
pub fn empty_range(region: &Region, range: ByteRange)
    requires { range.len ≡ 0 }
    ensures of { IsOf region.now range }
    ensures bytes { bytes_of region.now range ≡ [] }
{}

/// A part of a range of a region is of it too, and has its part of the bytes.
#[tactic(auto, using(crate::proofs::KeptRegions::part_is_of, crate::proofs::KeptRegions::part_bytes))]
pub fn part_of_range(region: &Region, part: ByteRange, whole: ByteRange)
    requires of { IsOf region.now whole }
    requires part { IsPart part whole }
    ensures of { IsOf region.now part }
    ensures bytes { bytes_of region.now part
        ≡ take part.len (drop (part.start - whole.start) (bytes_of region.now whole)) }
{}

/// A range of a region has as many bytes as it says.
#[tactic(auto, using(crate::proofs::KeptRegions::bytes_are))]
pub fn length_of_bytes(region: &Region, range: ByteRange)
    requires { IsOf region.now range }
    ensures { length (bytes_of region.now range) ≡ range.len }
{}

/// What is of a region was written.
#[tactic(auto, using(crate::proofs::KeptRegions::was_written_there))]
pub fn was_written(region: &Region, range: ByteRange)
    requires { IsOf region.now range }
    ensures { IsWritten region.now range }
{}

/// The end of a range of a region is a `u64`, so that the range of a part can be computed.
#[tactic(auto, using(crate::proofs::KeptRegions::lies_within))]
pub fn end_of_range(region: &Region, range: ByteRange)
    requires { IsOf region.now range }
    ensures { range.start + range.len < 2 ^ 64 }
{}

/// No region has charged more than its limit.
#[tactic(auto, using(crate::proofs::KeptRegions::sum_within))]
pub fn within_limit(region: &Region)
    ensures { sum_of region.now ≤ limit_of region.now }
{}

/// A string of a region has so few bytes that each position in it is an `i64`, the one behind its last byte too.
#[tactic(auto, using(crate::proofs::KeptRegions::short_bytes))]
pub fn short_string(region: &Region, range: ByteRange)
    requires { IsOf region.now range }
    ensures { length (bytes_of region.now range) < 2 ^ 63 - 1 }
{}
