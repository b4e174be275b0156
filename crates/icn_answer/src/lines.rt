// The lines of answers.
ghost use Rattle.std.specs.Prelude.{◌≡◌, [], IfOk};
ghost use Rattle.icn_answer.specs.declared.answer.Answer.TheVariants.{BadImage, BadUcode, Missing, Refused};
ghost use Rattle.icn_answer.specs.Lines.{line_of, rule_code};

use crate::answer::Answer;
use icn_text::decimal;
use icn_tree::{Bytes, Rule};
use std::alloc::{AllocError, Global};

pub const FILE_FAULT: &[u8] = b"file fault\n";

pub const READ_FAULT: &[u8] = b"read fault\n";

pub const NO_MEMORY: &[u8] = b"no memory\n";

/// The line of an answer of a program with this usage line, where the image has this name. The error is want of memory.
pub fn line_of(
    alloc: Global,
    usage: &[u8],
    name: &str,
    answer: &Answer,
) -> Result<Vec<u8>, AllocError>
    ensures { IfOk result (λ line. line.items ≡ line_of usage.now name.now answer.now) }
{
    match answer {
        Answer::Refused { file, line, rule } => refusal_line(alloc, file, *line, *rule),
        Answer::Command(_) => Vec::from_slice(alloc, usage),
        Answer::Missing(missing) => missing_line(alloc, missing),
        Answer::BadUcode { name, rule } => bad_ucode_line(alloc, name, *rule),
        Answer::BadImage(rule) => bad_image_line(alloc, name, *rule),
        Answer::FileFault => Vec::from_slice(alloc, FILE_FAULT),
        Answer::ReadFault => Vec::from_slice(alloc, READ_FAULT),
        Answer::NoMemory => Vec::from_slice(alloc, NO_MEMORY),
        _ => Ok(Vec::new(alloc)),
    }
}

fn refusal_line(alloc: Global, file: &Bytes, number: u32, rule: Rule) -> Result<Vec<u8>, AllocError>
    ensures { IfOk result (λ line. line.items ≡ line_of [] [] (Refused file.now number rule)) }
{
    let mut line = Vec::from_slice(alloc, file.as_slice())?;
    line.extend_from_slice(b":")?;
    line.extend_from_slice(decimal(i64::from(number)).as_bytes())?;
    line.extend_from_slice(b": ")?;
    line.extend_from_slice(rule.text())?;
    line.extend_from_slice(b"\n")?;
    Ok(line)
}

fn missing_line(alloc: Global, name: &Bytes) -> Result<Vec<u8>, AllocError>
    ensures { IfOk result (λ line. line.items ≡ line_of [] [] (Missing name.now)) }
{
    let mut line = Vec::from_slice(alloc, name.as_slice())?;
    line.extend_from_slice(b": not there\n")?;
    Ok(line)
}

fn bad_ucode_line(alloc: Global, name: &Bytes, rule: Rule) -> Result<Vec<u8>, AllocError>
    ensures { IfOk result (λ line. line.items ≡ line_of [] [] (BadUcode name.now rule)) }
{
    let mut line = Vec::from_slice(alloc, name.as_slice())?;
    line.extend_from_slice(b": bad ucode, ")?;
    line.extend_from_slice(rule_code(rule))?;
    line.push(b'\n')?;
    Ok(line)
}

fn bad_image_line(alloc: Global, name: &str, rule: Rule) -> Result<Vec<u8>, AllocError>
    ensures { IfOk result (λ line. line.items ≡ line_of [] name.now (BadImage rule)) }
{
    let mut line = Vec::from_slice(alloc, name.as_bytes())?;
    line.extend_from_slice(b": bad image, ")?;
    line.extend_from_slice(rule_code(rule))?;
    line.push(b'\n')?;
    Ok(line)
}

// The code of a rule, which its text begins with.
fn rule_code(rule: Rule) -> &'static [u8]
    ensures { result.now ≡ rule_code rule }
{
    let text = rule.text();
    let (code, _) = text.split_at(text.len().min(2));
    code
}
