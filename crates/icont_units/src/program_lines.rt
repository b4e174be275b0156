// The lines of the program of a number.
ghost use Rattle.std.specs.Prelude.{◌≡◌, ◌<◌, ◌+◌, ◌*◌, ℕ, List, [], ◌∷◌, ◌++◌, map, decimal, IfOk, OnOk};
ghost use Rattle.std.specs.List.{flat_map};
ghost use Rattle.icont_units.specs.Generated.{generated_lines, generated_name, line_at, numbered_from, numbers, procedure_lines, sizes_line, sizes_text, sum_line};

use icn_text::decimal;
use icn_tree::{Bytes, Lines, SourceLine};
use std::alloc::{AllocError, Global};

/// The lines of the program of this number, under the name that refusals give.
pub fn generated_lines(alloc: Global, number: u16) -> Result<Lines, AllocError>
    ensures lines { IfOk result (λ made. made.lines.items ≡ generated_lines number) }
    ensures names { IfOk result (λ made. made.names.items ≡ generated_name ∷ []) }
{
    let lines = source_lines(alloc, u32::from(number))?;
    let mut names = Vec::new(alloc);
    names.push(Bytes::from_slice(alloc, b"gen.icn")?)?;
    Ok(Lines { names, lines })
}

/// The line that says how many lines and procedures the program of this number has. `AllocError` is want of memory.
pub fn sizes_line(alloc: Global, number: u16) -> Result<Vec<u8>, AllocError>
    ensures { IfOk result (λ line. line.items ≡ sizes_line number) }
{
    let count = u32::from(number);
    sizes_text(alloc, 4 * count + 4, count + 1)
}

fn sizes_text(alloc: Global, lines: u32, procedures: u32) -> Result<Vec<u8>, AllocError>
    ensures { IfOk result (λ line. line.items ≡ sizes_text lines procedures) }
{
    let mut line = Vec::from_slice(alloc, b"lines ")?;
    line.extend_from_slice(decimal(i64::from(lines)).as_bytes())?;
    line.extend_from_slice(b" procedures ")?;
    line.extend_from_slice(decimal(i64::from(procedures)).as_bytes())?;
    line.extend_from_slice(b"\n")?;
    Ok(line)
}

fn source_lines(alloc: Global, count: u32) -> Result<Vec<SourceLine>, AllocError>
    requires few { count < 65536 }
    ensures { IfOk result (λ lines. lines.items ≡ generated_lines count) }
{
    let mut lines = Vec::new(alloc);
    add_procedures(alloc, count, &mut lines)?;
    lines.push(plain_line(alloc, b"procedure main()", 3 * count + 1)?)?;
    lines.push(plain_line(alloc, b"t := 0", 3 * count + 2)?)?;
    add_sums(alloc, count, &mut lines)?;
    lines.push(plain_line(alloc, b"write(t)", 4 * count + 3)?)?;
    lines.push(plain_line(alloc, b"end", 4 * count + 4)?)?;
    Ok(lines)
}

// Adds the procedures, in front of whatever follows.
fn add_procedures(alloc: Global, count: u32, lines: &mut Vec<SourceLine>) -> Result<(), AllocError>
    requires few { count < 65536 }
    ensures { OnOk result ((later : List (List ℕ)) → lines.new.items ++ numbered_from (3 * count + 1) later
        ≡ lines.old.items ++ numbered_from 1 (flat_map procedure_lines (numbers count) ++ later)) }
{
    for i in 0..count {
        add_procedure(alloc, i + 1, 3 * i + 1, lines)?;
    }
    Ok(())
}

fn add_procedure(
    alloc: Global,
    i: u32,
    number: u32,
    lines: &mut Vec<SourceLine>,
) -> Result<(), AllocError>
    requires few { number < 262144 }
    ensures { OnOk result (lines.new.items ≡ lines.old.items ++ numbered_from number (procedure_lines i)) }
{
    lines.push(line_of(alloc, b"procedure p", i, b"(n)", number)?)?;
    lines.push(line_of(alloc, b"suspend (n to n + 2) * ", i, b"", number + 1)?)?;
    lines.push(plain_line(alloc, b"end", number + 2)?)?;
    Ok(())
}

// Adds the lines of the sum, in front of whatever follows.
fn add_sums(alloc: Global, count: u32, lines: &mut Vec<SourceLine>) -> Result<(), AllocError>
    requires few { count < 65536 }
    ensures { OnOk result ((later : List (List ℕ)) → lines.new.items ++ numbered_from (4 * count + 3) later
        ≡ lines.old.items ++ numbered_from (3 * count + 3) (map sum_line (numbers count) ++ later)) }
{
    for i in 0..count {
        let line = line_of(
            alloc,
            b"every t +:= p",
            i + 1,
            b"(1 to 3)",
            3 * count + 3 + i,
        )?;
        lines.push(line)?;
    }
    Ok(())
}

// A line with a number in it.
fn line_of(
    alloc: Global,
    front: &[u8],
    i: u32,
    end: &[u8],
    number: u32,
) -> Result<SourceLine, AllocError>
    ensures { IfOk result (λ line. line ≡ line_at number (front.now ++ decimal i ++ end.now)) }
{
    let mut bytes = Vec::from_slice(alloc, front)?;
    bytes.extend_from_slice(decimal(i64::from(i)).as_bytes())?;
    bytes.extend_from_slice(end)?;
    Ok(SourceLine {
        bytes: Bytes::new(bytes),
        file: 0,
        number,
    })
}

fn plain_line(alloc: Global, bytes: &[u8], number: u32) -> Result<SourceLine, AllocError>
    ensures { IfOk result (λ line. line ≡ line_at number bytes.now) }
{
    Ok(SourceLine {
        bytes: Bytes::from_slice(alloc, bytes)?,
        file: 0,
        number,
    })
}
