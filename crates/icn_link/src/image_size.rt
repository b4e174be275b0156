// How many bytes the image of a code has.
ghost use Rattle.std.specs.Prelude.{◌≡◌, ◌+◌, ◌*◌, length};
ghost use Rattle.icn_code.specs.Codes.{proc_of, procs_of, record_of, records_of};
ghost use Rattle.icn_code.specs.CodeTables.{tables_of};
ghost use Rattle.icn_image.specs.Spelling.{image_of};
ghost use Rattle.icn_link.specs.ImageSizes.{body_size, bodies_size, instr_size, records_size, strings_size};
ghost use Rattle.icn_link.specs.LinkFaults.{count_told};

use icn_code::{Code, Instr, LinkedProcedure, LinkedRecord};
use icn_tree::Bytes;

/// How many bytes the image of a code has, as far as 64 bits can tell it.
pub fn image_size(code: &Code) -> u64
    ensures { result ≡ count_told (length (image_of (tables_of code.now))) }
{
    let size = strings_size(&code.strings).saturating_add(36);
    let size = size.saturating_add(entries_size(&code.csets, 32));
    let size = size.saturating_add(entries_size(&code.integers, 8));
    let size = size.saturating_add(entries_size(&code.fields, 4));
    let size = size.saturating_add(records_size(&code.records));
    let size = size.saturating_add(entries_size(&code.globals, 9));
    let size = size.saturating_add(entries_size(&code.procs, 21));
    size.saturating_add(bodies_size(&code.procs))
}

// Entries of so many bytes each.
fn entries_size<T>(entries: &[T], each: u64) -> u64
    ensures { result ≡ count_told (length entries.now * each) }
{
    (entries.len() as u64).saturating_mul(each)
}

// Strings, each behind its length.
fn strings_size(strings: &[Bytes]) -> u64
    ensures { result ≡ count_told (strings_size strings.now) }
{
    let mut size: u64 = 0;
    for string in strings {
        size = size.saturating_add(string_size(string.as_slice()));
    }
    size
}

fn string_size(string: &[u8]) -> u64
    ensures { result ≡ count_told (length string.now + 4) }
{
    (string.len() as u64).saturating_add(4)
}

// Records, each with its name and the count of its fields.
fn records_size(records: &[LinkedRecord]) -> u64
    ensures { result ≡ count_told (records_size (records_of records.now)) }
{
    let mut size: u64 = 0;
    for record in records {
        size = size.saturating_add(record_size(&record.fields));
    }
    size
}

// A record of these fields.
fn record_size(fields: &[u32]) -> u64
    ensures { result ≡ count_told (length fields.now * 4 + 8) }
{
    entries_size(fields, 4).saturating_add(8)
}

// The instructions of procedures.
fn bodies_size(procs: &[LinkedProcedure]) -> u64
    ensures { result ≡ count_told (bodies_size (procs_of procs.now)) }
{
    let mut size: u64 = 0;
    for proc in procs {
        size = size.saturating_add(body_size(&proc.instrs));
    }
    size
}

fn body_size(instrs: &[Instr]) -> u64
    ensures { result ≡ count_told (body_size instrs.now) }
{
    let mut size: u64 = 0;
    for instr in instrs {
        size = size.saturating_add(instr_size(*instr));
    }
    size
}

// An instruction: its number, and an operand or a label of four bytes.
fn instr_size(instr: Instr) -> u64
    ensures { result ≡ instr_size instr }
{
    match instr {
        Instr::Int(_)
        | Instr::Str(_)
        | Instr::Cset(_)
        | Instr::Local(_)
        | Instr::Static(_)
        | Instr::Global(_)
        | Instr::Keywd(_)
        | Instr::Op(_)
        | Instr::Llist(_)
        | Instr::Field(_)
        | Instr::Invoke(_)
        | Instr::Mark(_)
        | Instr::Chfail(_)
        | Instr::Goto(_)
        | Instr::Loop(_)
        | Instr::Init(_)
        | Instr::Create(_) => 5,
        Instr::Pnull
        | Instr::Pop
        | Instr::Dup
        | Instr::Appl
        | Instr::Mark0
        | Instr::Unmark
        | Instr::Eret
        | Instr::Esusp
        | Instr::Limit
        | Instr::Lsusp
        | Instr::Efail
        | Instr::Bscan
        | Instr::Escan
        | Instr::Ccase
        | Instr::Psusp
        | Instr::Pret
        | Instr::Pfail
        | Instr::Coact
        | Instr::Coret
        | Instr::Cofail => 1,
    }
}
