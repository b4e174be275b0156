// The table of globals.
ghost use Rattle.std.specs.Prelude.{◌≡◌, [], IfOk, slice_index_or};
ghost use Rattle.icn_code.specs.Rules.{name_of};
ghost use Rattle.icn_defs.specs.Numbers.{func_of};
ghost use Rattle.icn_tree.specs.NameSets.{has, none_met, with_name};
ghost use Rattle.icn_image.specs.Readers.{Gives};
ghost use Rattle.icn_image.specs.Reading.{func_start, global_at, globals_at, globals_from, new_name_at, start_at, start_of};
ghost use Rattle.icn_image.specs.Versions.{width_of};

use crate::fault::ImageFault;
use crate::number::{byte_at, number_at, place_at};
use crate::version::Version;
use icn_code::Start;
use icn_defs::func_numbered;
use icn_tree::{Bytes, NameSet, Rule};
use std::alloc::Global;

// The function of a number.
fn function_start(number: u32) -> Result<Start, ImageFault>
    ensures { Gives (λ start. start) result (func_start (func_of number)) }
{
    match func_numbered(number) {
        Some(func) => Ok(Start::Function(func)),
        None => Err(ImageFault::Broken(Rule::I4)),
    }
}

// What a global begins with, by its kind up to 3 and its number.
#[tactic(auto, unfolding(crate::specs::Reading::start_of))]
fn start_of(records: usize, kind: u8, number: u32) -> Result<Start, ImageFault>
    ensures { Gives (λ start. start) result (start_of records kind number) }
{
    match kind {
        0 if number == 0 => Ok(Start::Null),
        0 => Err(ImageFault::Broken(Rule::I4)),
        1 => Ok(Start::Procedure(number)),
        2 if (number as usize) < records => Ok(Start::Record(number)),
        2 => Err(ImageFault::Broken(Rule::I4)),
        _ => function_start(number),
    }
}

#[tactic(auto, unfolding(crate::specs::Reading::start_at))]
fn start_at(version: Version, records: usize, bytes: &[u8]) -> Result<(Start, &[u8]), ImageFault>
    ensures { Gives (λ x. (x.0, x.1.now)) result (start_at (width_of version) records bytes.now) }
{
    let (kind, rest) = byte_at(bytes)?;
    if kind > 3 {
        return Err(ImageFault::Broken(Rule::I3));
    }
    let (number, rest) = number_at(version, rest)?;
    let start = start_of(records, kind, number)?;
    Ok((start, rest))
}

// The place of a name that no global has yet, which is met now.
#[tactic(auto, unfolding(crate::specs::Reading::new_name_at))]
fn new_name_at<'a, 'b>(
    version: Version,
    strings: &'a [Bytes],
    met: &mut NameSet<'a>,
    bytes: &'b [u8],
) -> Result<(u32, &'b [u8]), ImageFault>
    ensures gives { Gives (λ x. (x.0, x.1.now)) result (new_name_at (width_of version) strings.now (has met.old) bytes.now) }
    ensures has { IfOk result
        (λ x. has met.new ≡ with_name (has met.old) (slice_index_or strings.now x.0 [])) }
{
    let (name, rest) = place_at(version, strings.len(), bytes)?;
    if met.meet(strings[name as usize].as_slice())? {
        Ok((name, rest))
    } else {
        Err(ImageFault::Broken(Rule::I4))
    }
}

#[tactic(auto, unfolding(crate::specs::Reading::global_at))]
fn global_at<'a, 'b>(
    version: Version,
    strings: &'a [Bytes],
    records: usize,
    met: &mut NameSet<'a>,
    bytes: &'b [u8],
) -> Result<(icn_code::Global, &'b [u8]), ImageFault>
    ensures gives { Gives (λ x. (x.0, x.1.now)) result
        (global_at (width_of version) strings.now records (has met.old) bytes.now) }
    ensures has { IfOk result (λ x. has met.new ≡ with_name (has met.old) (name_of strings.now x.0)) }
{
    let (name, rest) = new_name_at(version, strings, met, bytes)?;
    let (start, rest) = start_at(version, records, rest)?;
    Ok((icn_code::Global { name, start }, rest))
}

fn so_many_globals<'b>(
    alloc: Global,
    version: Version,
    strings: &[Bytes],
    records: usize,
    count: u32,
    bytes: &'b [u8],
) -> Result<(Vec<icn_code::Global>, &'b [u8]), ImageFault>
    ensures { Gives (λ x. (x.0.items, x.1.now)) result
        (globals_from (width_of version) strings.now records none_met count bytes.now) }
{
    let mut met = NameSet::new(alloc);
    let mut globals = Vec::new(alloc);
    let mut rest = bytes;
    for _ in 0..count {
        let (global, after) = global_at(version, strings, records, &mut met, rest)?;
        globals.push(global)?;
        rest = after;
    }
    Ok((globals, rest))
}

/// The table of globals, in a code with these strings and so many records. The error is the first rule that is broken, or
/// want of memory.
#[tactic(auto, unfolding(crate::specs::Reading::globals_at))]
pub fn globals_at<'b>(
    alloc: Global,
    version: Version,
    strings: &[Bytes],
    records: usize,
    bytes: &'b [u8],
) -> Result<(Vec<icn_code::Global>, &'b [u8]), ImageFault>
    ensures { Gives (λ x. (x.0.items, x.1.now)) result (globals_at (width_of version) strings.now records bytes.now) }
{
    let (count, rest) = number_at(version, bytes)?;
    so_many_globals(alloc, version, strings, records, count, rest)
}
