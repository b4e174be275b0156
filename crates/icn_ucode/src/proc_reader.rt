// Reads the procedures of a unit, line by line.
ghost use Rattle.std.specs.Prelude.{◌≡◌, List, map};
ghost use Rattle.std.specs.Option.{option_copied, option_map};
ghost use Rattle.icn_unit.specs.InstrWords.{instr_word_of};
ghost use Rattle.icn_unit.specs.PlainUnits.{PlainProc};
ghost use Rattle.icn_unit.specs.UnitRules.{rank};
ghost use Rattle.icn_unit.specs.UnitViews.{proc_seen};
ghost use Rattle.icn_ucode.specs.UnitReading.{Coding, Heading, Naming, Outside, end_line, entry_read, flag_of, head_read, instr_line, is_indented, kind_of, last_rank, procs_line, procs_of, stage_end, stage_line};
ghost use Rattle.icn_ucode.specs.UnitViews.{EntryIs, LineIs, ProcsAre, StageIs, head_seen, reading_seen, stage_seen};

use crate::instr_reader::instr;
use crate::proc_lists::{Begun, Coded, ProcReading, ProcStage, Procs};
use icn_tree::Rule;
use icn_unit::{
    NameKind, UnitName, UnitStop, cut, cut_line, is_name, params_in, small_number, word_named,
};
use std::alloc::Global;

// The head of a procedure.
#[derive(Drop)]
struct UcodeHead<'a> {
    name: &'a [u8],
    params: u32,
    collects: bool,
}

// The head of a procedure, `NAME P C`.
fn read_head(operand: Option<&[u8]>) -> Option<UcodeHead<'_>>
    ensures { option_map head_seen result ≡ head_read (option_copied operand.entry) }
{
    let (name, rest) = cut(operand?);
    let (params, rest) = cut(rest?);
    let params = small_number(params)?;
    let collects = flag(rest?)?;
    if is_name(name) && (!collects || params > 0) {
        Some(UcodeHead {
            name,
            params,
            collects,
        })
    } else {
        None
    }
}

fn flag(text: &[u8]) -> Option<bool>
    ensures { result ≡ flag_of text.now }
{
    if text == b"0".as_slice() {
        Some(false)
    } else if text == b"1".as_slice() {
        Some(true)
    } else {
        None
    }
}

fn name_kind(text: &[u8]) -> Option<NameKind>
    ensures { result ≡ kind_of text.now }
{
    match text {
        [b'p'] => Some(NameKind::Parameter),
        [b'l'] => Some(NameKind::Local),
        [b's'] => Some(NameKind::Static),
        [b'u'] => Some(NameKind::Undeclared),
        _ => None,
    }
}

fn rank(kind: NameKind) -> u8
    ensures { result ≡ rank kind }
{
    match kind {
        NameKind::Parameter => 0,
        NameKind::Local | NameKind::Static => 1,
        NameKind::Undeclared => 2,
    }
}

fn last_rank(names: &[UnitName]) -> u8
    ensures { result ≡ last_rank names.now }
{
    match names.last() {
        Some(name) => rank(name.kind),
        None => 0,
    }
}

// A name of a procedure, `K NAME`.
fn read_entry<'a>(begun: &Begun<'a>, operand: Option<&'a [u8]>) -> Option<(NameKind, &'a [u8])>
    ensures { EntryIs result (entry_read begun.now.proc.names.items (option_copied operand.entry)) }
{
    let (kind, rest) = cut(operand?);
    let name = rest?;
    let kind = name_kind(kind)?;
    if is_name(name) && last_rank(&begun.proc.names) <= rank(kind) && !begun.has(name) {
        Some((kind, name))
    } else {
        None
    }
}

/// Whether a line begins with a blank.
pub fn is_indented(line: &[u8]) -> bool
    ensures { result ≡ is_indented line.now }
{
    match line.split_first() {
        Some((first, _)) => *first == b' ',
        None => false,
    }
}

// Takes a line.
#[tactic(auto, unfolding(crate::specs::UnitReading::procs_line))]
fn take_line<'a>(
    alloc: Global,
    reading: ProcReading<'a>,
    line: &'a [u8],
) -> Result<ProcReading<'a>, UnitStop>
    ensures { LineIs result (procs_line (reading_seen reading.entry) line.now) }
{
    if is_indented(line) {
        return Err(UnitStop::Broken(Rule::U3));
    }
    let ProcReading { procs, stage } = reading;
    let stage = match stage {
        ProcStage::Heading => heading_line(line)?,
        ProcStage::Outside => outside_line(alloc, &procs, line)?,
        ProcStage::Naming(begun) => name_line(alloc, begun, line)?,
        ProcStage::Coding(coded) => return code_line(alloc, procs, coded, line),
    };
    Ok(ProcReading { procs, stage })
}

fn heading_line<'a>(line: &[u8]) -> Result<ProcStage<'a>, UnitStop>
    ensures { (procs : List PlainProc) → StageIs procs result (stage_line procs Heading line.now) }
{
    let (word, operand) = cut(line);
    if word != b"U9.1".as_slice() {
        return Err(UnitStop::Broken(Rule::U1));
    }
    match operand {
        None => Ok(ProcStage::Outside),
        Some(_) => Err(UnitStop::Broken(Rule::U3)),
    }
}

// A line behind the heading or a procedure begins one.
fn outside_line<'a>(
    alloc: Global,
    procs: &Procs<'a>,
    line: &'a [u8],
) -> Result<ProcStage<'a>, UnitStop>
    ensures { StageIs (map proc_seen procs.now.procs.items) result
        (stage_line (map proc_seen procs.now.procs.items) Outside line.now) }
{
    let (word, operand) = cut(line);
    if word != b"proc".as_slice() {
        return Err(UnitStop::Broken(Rule::U1));
    }
    let Some(head) = read_head(operand) else {
        return Err(UnitStop::Broken(Rule::U3));
    };
    if procs.has(head.name) {
        return Err(UnitStop::Broken(Rule::U3));
    }
    let begun = Begun::new(alloc, head.name, head.params, head.collects)?;
    Ok(ProcStage::Naming(begun))
}

// A line in front of a procedure's code is a name, or the begin of the code.
fn name_line<'a>(alloc: Global, begun: Begun<'a>, line: &'a [u8]) -> Result<ProcStage<'a>, UnitStop>
    ensures { (procs : List PlainProc) → StageIs procs result
        (stage_line procs (Naming begun.entry.params (proc_seen begun.entry.proc)) line.now) }
{
    let (word, operand) = cut(line);
    if word == b"name".as_slice() {
        let Some((kind, name)) = read_entry(&begun, operand) else {
            return Err(UnitStop::Broken(Rule::U3));
        };
        Ok(ProcStage::Naming(begun.with(alloc, kind, name)?))
    } else if word == b"code".as_slice() {
        if operand.is_none() && params_in(&begun.proc.names) == begun.params as usize {
            Ok(ProcStage::Coding(begun.at_code(alloc)))
        } else {
            Err(UnitStop::Broken(Rule::U3))
        }
    } else {
        Err(UnitStop::Broken(Rule::U1))
    }
}

// A line of a procedure's code is an instruction, the place of a label, or the end.
fn code_line<'a>(
    alloc: Global,
    procs: Procs<'a>,
    coded: Coded<'a>,
    line: &'a [u8],
) -> Result<ProcReading<'a>, UnitStop>
    ensures { LineIs result
        (stage_line (map proc_seen procs.entry.procs.items) (Coding (proc_seen coded.entry.proc)) line.now) }
{
    let (word, operand) = cut(line);
    if word == b"end".as_slice() {
        end(procs, coded, operand)
    } else {
        let stage = instr_line(alloc, coded, word, operand)?;
        Ok(ProcReading { procs, stage })
    }
}

fn end<'a>(
    procs: Procs<'a>,
    coded: Coded<'a>,
    operand: Option<&[u8]>,
) -> Result<ProcReading<'a>, UnitStop>
    ensures { LineIs result (end_line (map proc_seen procs.entry.procs.items) (proc_seen coded.entry.proc)
        (option_copied operand.entry)) }
{
    if operand.is_some() {
        return Err(UnitStop::Broken(Rule::U3));
    }
    if !coded.labels_placed() {
        return Err(UnitStop::Broken(Rule::U4));
    }
    let procs = coded.behind(procs)?;
    Ok(ProcReading {
        procs,
        stage: ProcStage::Outside,
    })
}

fn instr_line<'a>(
    alloc: Global,
    coded: Coded<'a>,
    word: &[u8],
    operand: Option<&[u8]>,
) -> Result<ProcStage<'a>, UnitStop>
    ensures { (procs : List PlainProc) → StageIs procs result (instr_line procs (proc_seen coded.entry.proc)
        (instr_word_of word.now) (option_copied operand.entry)) }
{
    let Some(word) = word_named(word) else {
        return Err(UnitStop::Broken(Rule::U2));
    };
    let Some(instr) = instr(alloc, word, operand, coded.proc.names.len())? else {
        return Err(UnitStop::Broken(Rule::U3));
    };
    if coded.is_repeated(&instr) {
        return Err(UnitStop::Broken(Rule::U5));
    }
    Ok(ProcStage::Coding(coded.with(instr)?))
}

/// The procedures of a text. The error is the first rule that the text breaks, or want of memory.
pub fn read_procs<'a>(alloc: Global, text: &'a [u8]) -> Result<Procs<'a>, UnitStop>
    ensures { ProcsAre result (procs_of text.now) }
{
    let mut reading = ProcReading {
        procs: Procs::new(alloc),
        stage: ProcStage::Heading,
    };
    let mut rest = text;
    while !rest.is_empty() {
        let (line, behind) = cut_line(rest);
        reading = take_line(alloc, reading, line)?;
        let Some(behind) = behind else {
            return Err(UnitStop::Broken(Rule::U3));
        };
        rest = behind;
    }
    finish(reading)
}

fn finish(reading: ProcReading<'_>) -> Result<Procs<'_>, UnitStop>
    ensures { ProcsAre result
        (stage_end (map proc_seen reading.entry.procs.procs.items) (stage_seen reading.entry.stage)) }
{
    match reading.stage {
        ProcStage::Heading => Err(UnitStop::Broken(Rule::U1)),
        ProcStage::Outside => Ok(reading.procs),
        ProcStage::Naming(_) | ProcStage::Coding(_) => Err(UnitStop::Broken(Rule::U6)),
    }
}
