// The procedures: their heads, and behind all of them their instructions.
ghost use Rattle.std.specs.Prelude.{◌≡◌, length};
ghost use Rattle.icn_code.specs.Codes.{proc_of, procs_of};
ghost use Rattle.icn_image.specs.Fronts.{scope_of, tables_in, with_instrs};
ghost use Rattle.icn_image.specs.Readers.{Gives, times};
ghost use Rattle.icn_image.specs.Reading.{has_proc, have_procs, heads_at, heads_from, instr_at, proc_at, procs_at};
ghost use Rattle.icn_image.specs.Versions.{width_of};

use crate::fault::ImageFault;
use crate::front::Front;
use crate::head::{ImageHead, head_at};
use crate::instr::instr_at;
use crate::number::count_at;
use crate::scope::TableSizes;
use crate::version::Version;
use icn_code::{Instr, LinkedProcedure, Start};
use icn_profile::MOST_PROCEDURES;
use icn_tree::Rule;
use std::alloc::Global;

fn has_proc(procs: u32, start: Start) -> bool
    ensures { result ≡ has_proc procs start }
{
    match start {
        Start::Procedure(place) => place < procs,
        _ => true,
    }
}

#[tactic(auto, unfolding(crate::specs::Reading::have_procs))]
fn have_procs(procs: u32, globals: &[icn_code::Global]) -> bool
    ensures { result ≡ have_procs procs globals.now }
{
    globals.iter().all(|global| has_proc(procs, global.start))
}

fn so_many_heads(
    alloc: Global,
    version: Version,
    strings: usize,
    count: u32,
    bytes: &[u8],
) -> Result<(Vec<ImageHead>, &[u8]), ImageFault>
    ensures { Gives (λ x. (x.0.items, x.1.now)) result
        (heads_from (width_of version) strings 0 count bytes.now) }
{
    let mut heads = Vec::new(alloc);
    let mut statics: u64 = 0;
    let mut rest = bytes;
    for _ in 0..count {
        let (head, after) = head_at(version, strings, statics, rest)?;
        heads.push(head)?;
        statics += u64::from(head.statics);
        rest = after;
    }
    Ok((heads, rest))
}

/// The heads of all procedures. Their count judges the globals. The error is the first rule that is broken, or want of
/// memory.
#[tactic(auto, unfolding(crate::specs::Reading::heads_at))]
pub fn heads_at<'b>(
    alloc: Global,
    version: Version,
    front: &Front,
    bytes: &'b [u8],
) -> Result<(Vec<ImageHead>, &'b [u8]), ImageFault>
    ensures { Gives (λ x. (x.0.items, x.1.now)) result (heads_at (width_of version) (tables_in front.now) bytes.now) }
{
    let (count, rest) = count_at(version, MOST_PROCEDURES, bytes)?;
    if have_procs(count, &front.globals) {
        so_many_heads(alloc, version, front.strings.len(), count, rest)
    } else {
        Err(ImageFault::Broken(Rule::I4))
    }
}

fn instrs_at<'b>(
    alloc: Global,
    version: Version,
    scope: &TableSizes,
    count: u32,
    bytes: &'b [u8],
) -> Result<(Vec<Instr>, &'b [u8]), ImageFault>
    ensures { Gives (λ x. (x.0.items, x.1.now)) result (times (instr_at (width_of version) scope.now) count bytes.now) }
{
    let mut instrs = Vec::new(alloc);
    let mut rest = bytes;
    for _ in 0..count {
        let (instr, after) = instr_at(version, scope, rest)?;
        instrs.push(instr)?;
        rest = after;
    }
    Ok((instrs, rest))
}

// What an instruction of a procedure may name.
fn scope_of(front: &Front, head: ImageHead) -> TableSizes
    ensures { result ≡ scope_of (tables_in front.now) head }
{
    TableSizes {
        integers: front.integers.len() as u64,
        strings: front.strings.len() as u64,
        csets: front.csets.len() as u64,
        globals: front.globals.len() as u64,
        fields: front.fields.len() as u64,
        variables: u64::from(head.parameters) + u64::from(head.locals),
        statics: u64::from(head.statics),
        labels: u64::from(head.instrs),
    }
}

fn with_instrs(head: ImageHead, instrs: Vec<Instr>) -> LinkedProcedure
    ensures { proc_of result ≡ with_instrs head instrs.items }
{
    LinkedProcedure {
        name: head.name,
        parameters: head.parameters,
        collects: head.collects,
        locals: head.locals,
        statics: head.statics,
        instrs,
    }
}

#[tactic(auto, unfolding(crate::specs::Reading::proc_at))]
fn proc_at<'b>(
    alloc: Global,
    version: Version,
    front: &Front,
    head: ImageHead,
    bytes: &'b [u8],
) -> Result<(LinkedProcedure, &'b [u8]), ImageFault>
    ensures { Gives (λ x. (proc_of x.0, x.1.now)) result (proc_at (width_of version) (tables_in front.now) head bytes.now) }
{
    let scope = scope_of(front, head);
    let (instrs, rest) = instrs_at(alloc, version, &scope, head.instrs, bytes)?;
    Ok((with_instrs(head, instrs), rest))
}

/// The procedures of these heads, by their instructions. The error is the first rule that is broken, or want of memory.
pub fn procs_at<'b>(
    alloc: Global,
    version: Version,
    front: &Front,
    heads: &[ImageHead],
    bytes: &'b [u8],
) -> Result<(Vec<LinkedProcedure>, &'b [u8]), ImageFault>
    ensures { Gives (λ x. (procs_of x.0.items, x.1.now)) result
        (procs_at (width_of version) (tables_in front.now) heads.now bytes.now) }
{
    let mut procs = Vec::new(alloc);
    let mut rest = bytes;
    for head in heads {
        let (proc, after) = proc_at(alloc, version, front, *head, rest)?;
        procs.push(proc)?;
        rest = after;
    }
    Ok((procs, rest))
}
