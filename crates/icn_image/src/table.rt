// The tables of strings, csets, integers, fields and records.
ghost use Rattle.std.specs.Prelude.{map};
ghost use Rattle.std.specs.Int.{w64};
ghost use Rattle.icn_profile.specs.Numbers.{most_fields};
ghost use Rattle.icn_code.specs.Codes.{record_of, records_of};
ghost use Rattle.icn_image.specs.Readers.{Gives, bounded_table_at, index_at, number_at, table_at, times};
ghost use Rattle.icn_image.specs.Reading.{cset_at, integer_at, record_at, string_at};
ghost use Rattle.icn_image.specs.Versions.{width_of};

use crate::fault::ImageFault;
use crate::number::{bytes_at, count_at, number_at, place_at};
use crate::version::Version;
use icn_code::LinkedRecord;
use icn_profile::MOST_FIELDS;
use icn_tree::Bytes;
use icn_value::Cset;
use std::alloc::Global;

// A count may be greater than what the bytes hold, so each table grows as its entries are read, and never takes room by its
// count.

#[tactic(auto, unfolding(crate::specs::Reading::string_at))]
fn string_at(alloc: Global, version: Version, bytes: &[u8]) -> Result<(Bytes, &[u8]), ImageFault>
    ensures { Gives (λ x. (x.0, x.1.now)) result (string_at (width_of version) bytes.now) }
{
    let (count, rest) = number_at(version, bytes)?;
    let (text, rest) = bytes_at(count as usize, rest)?;
    Ok((Bytes::from_slice(alloc, text)?, rest))
}

fn so_many_strings(
    alloc: Global,
    version: Version,
    count: u32,
    bytes: &[u8],
) -> Result<(Vec<Bytes>, &[u8]), ImageFault>
    ensures { Gives (λ x. (x.0.items, x.1.now)) result (times (string_at (width_of version)) count bytes.now) }
{
    let mut strings = Vec::new(alloc);
    let mut rest = bytes;
    for _ in 0..count {
        let (string, after) = string_at(alloc, version, rest)?;
        strings.push(string)?;
        rest = after;
    }
    Ok((strings, rest))
}

/// The table of strings. The error is I2, or want of memory.
#[tactic(auto, unfolding(crate::specs::Readers::table_at))]
pub fn strings_at(
    alloc: Global,
    version: Version,
    bytes: &[u8],
) -> Result<(Vec<Bytes>, &[u8]), ImageFault>
    ensures { Gives (λ x. (x.0.items, x.1.now)) result (table_at (width_of version) (string_at (width_of version)) bytes.now) }
{
    let (count, rest) = number_at(version, bytes)?;
    so_many_strings(alloc, version, count, rest)
}

#[tactic(auto, unfolding(crate::specs::Reading::cset_at, crate::specs::Readers::times))]
fn cset_at(bytes: &[u8]) -> Result<(Cset, &[u8]), ImageFault>
    ensures { Gives (λ x. (x.0, x.1.now)) result (cset_at bytes.now) }
{
    let (first, rest) = word_at(bytes)?;
    let (second, rest) = word_at(rest)?;
    let (third, rest) = word_at(rest)?;
    let (fourth, rest) = word_at(rest)?;
    let words = [first, second, third, fourth];
    Ok((Cset { words }, rest))
}

#[tactic(auto, unfolding(crate::specs::Readers::number_at))]
fn word_at(bytes: &[u8]) -> Result<(u64, &[u8]), ImageFault>
    ensures { Gives (λ x. (x.0, x.1.now)) result (number_at w64 bytes.now) }
{
    let (front, rest) = bytes_at(8, bytes)?;
    let word = u64::from_le_bytes([
        front[0], front[1], front[2], front[3], front[4], front[5], front[6], front[7],
    ]);
    Ok((word, rest))
}

fn so_many_csets(alloc: Global, count: u32, bytes: &[u8]) -> Result<(Vec<Cset>, &[u8]), ImageFault>
    ensures { Gives (λ x. (x.0.items, x.1.now)) result (times cset_at count bytes.now) }
{
    let mut csets = Vec::new(alloc);
    let mut rest = bytes;
    for _ in 0..count {
        let (cset, after) = cset_at(rest)?;
        csets.push(cset)?;
        rest = after;
    }
    Ok((csets, rest))
}

/// The table of csets. The error is I2, or want of memory.
#[tactic(auto, unfolding(crate::specs::Readers::table_at))]
pub fn csets_at(
    alloc: Global,
    version: Version,
    bytes: &[u8],
) -> Result<(Vec<Cset>, &[u8]), ImageFault>
    ensures { Gives (λ x. (x.0.items, x.1.now)) result (table_at (width_of version) cset_at bytes.now) }
{
    let (count, rest) = number_at(version, bytes)?;
    so_many_csets(alloc, count, rest)
}

#[tactic(auto, unfolding(crate::specs::Reading::integer_at, crate::specs::Readers::number_at))]
fn integer_at(bytes: &[u8]) -> Result<(i64, &[u8]), ImageFault>
    ensures { Gives (λ x. (x.0, x.1.now)) result (integer_at bytes.now) }
{
    let (front, rest) = bytes_at(8, bytes)?;
    let integer = i64::from_le_bytes([
        front[0], front[1], front[2], front[3], front[4], front[5], front[6], front[7],
    ]);
    Ok((integer, rest))
}

fn so_many_integers(
    alloc: Global,
    count: u32,
    bytes: &[u8],
) -> Result<(Vec<i64>, &[u8]), ImageFault>
    ensures { Gives (λ x. (x.0.items, x.1.now)) result (times integer_at count bytes.now) }
{
    let mut integers = Vec::new(alloc);
    let mut rest = bytes;
    for _ in 0..count {
        let (integer, after) = integer_at(rest)?;
        integers.push(integer)?;
        rest = after;
    }
    Ok((integers, rest))
}

/// The table of integers. The error is I2, or want of memory.
#[tactic(auto, unfolding(crate::specs::Readers::table_at))]
pub fn integers_at(
    alloc: Global,
    version: Version,
    bytes: &[u8],
) -> Result<(Vec<i64>, &[u8]), ImageFault>
    ensures { Gives (λ x. (x.0.items, x.1.now)) result (table_at (width_of version) integer_at bytes.now) }
{
    let (count, rest) = number_at(version, bytes)?;
    so_many_integers(alloc, count, rest)
}

fn so_many_places(
    alloc: Global,
    version: Version,
    among: usize,
    count: u32,
    bytes: &[u8],
) -> Result<(Vec<u32>, &[u8]), ImageFault>
    ensures { Gives (λ x. (x.0.items, x.1.now)) result (times (index_at (width_of version) among) count bytes.now) }
{
    let mut places = Vec::new(alloc);
    let mut rest = bytes;
    for _ in 0..count {
        let (place, after) = place_at(version, among, rest)?;
        places.push(place)?;
        rest = after;
    }
    Ok((places, rest))
}

/// A table of places in a table of so many entries: the fields of a code, or those of a record. The error is the first rule
/// that is broken, I2 or I4, or want of memory.
#[tactic(auto, unfolding(crate::specs::Readers::bounded_table_at))]
pub fn places_at(
    alloc: Global,
    version: Version,
    among: usize,
    bytes: &[u8],
) -> Result<(Vec<u32>, &[u8]), ImageFault>
    ensures { Gives (λ x. (x.0.items, x.1.now)) result
        (bounded_table_at (width_of version) most_fields (index_at (width_of version) among) bytes.now) }
{
    let (count, rest) = count_at(version, MOST_FIELDS, bytes)?;
    so_many_places(alloc, version, among, count, rest)
}

#[tactic(auto, unfolding(crate::specs::Reading::record_at))]
fn record_at(
    alloc: Global,
    version: Version,
    strings: usize,
    fields: usize,
    bytes: &[u8],
) -> Result<(LinkedRecord, &[u8]), ImageFault>
    ensures { Gives (λ x. (record_of x.0, x.1.now)) result (record_at (width_of version) strings fields bytes.now) }
{
    let (name, rest) = place_at(version, strings, bytes)?;
    let (fields, rest) = places_at(alloc, version, fields, rest)?;
    Ok((LinkedRecord { name, fields }, rest))
}

fn so_many_records(
    alloc: Global,
    version: Version,
    strings: usize,
    fields: usize,
    count: u32,
    bytes: &[u8],
) -> Result<(Vec<LinkedRecord>, &[u8]), ImageFault>
    ensures { Gives (λ x. (records_of x.0.items, x.1.now)) result
        (times (record_at (width_of version) strings fields) count bytes.now) }
{
    let mut records = Vec::new(alloc);
    let mut rest = bytes;
    for _ in 0..count {
        let (kind, after) = record_at(alloc, version, strings, fields, rest)?;
        records.push(kind)?;
        rest = after;
    }
    Ok((records, rest))
}

/// The table of records, in a code with so many strings and fields. The error is the first rule that is broken, I2 or I4, or
/// want of memory.
#[tactic(auto, unfolding(crate::specs::Readers::bounded_table_at))]
pub fn records_at(
    alloc: Global,
    version: Version,
    strings: usize,
    fields: usize,
    bytes: &[u8],
) -> Result<(Vec<LinkedRecord>, &[u8]), ImageFault>
    ensures { Gives (λ x. (records_of x.0.items, x.1.now)) result
        (bounded_table_at (width_of version) most_fields (record_at (width_of version) strings fields) bytes.now) }
{
    let (count, rest) = count_at(version, MOST_FIELDS, bytes)?;
    so_many_records(alloc, version, strings, fields, count, rest)
}
