// Reads instructions.
ghost use Rattle.std.specs.Prelude.{◌≡◌, IfOk};
ghost use Rattle.std.specs.Option.{option_copied};
ghost use Rattle.icn_ucode.specs.UnitReading.{instr_of, operand_instr};
ghost use Rattle.icn_ucode.specs.UnitViews.{label_read};

use icn_defs::op_numbered;
use icn_profile::GREATEST_INTEGER;
use icn_tree::{ByteSet, Bytes};
use icn_unit::{
    InstrWord, UnitInstr, ascends, byte_text, instr_alone, instr_with_label, is_name, keyword,
    label, number, small_number,
};
use std::alloc::{AllocError, Global};

/// The instruction of a word with its operand, in a procedure of so many names. `None` comes exactly where the operand does
/// not fit the word. `AllocError` is want of memory.
pub fn instr(
    alloc: Global,
    word: InstrWord,
    operand: Option<&[u8]>,
    names: usize,
) -> Result<Option<UnitInstr>, AllocError>
    ensures { IfOk result (λ found. found ≡ instr_of word (option_copied operand.entry) names) }
{
    match operand {
        None => Ok(instr_alone(word)),
        Some(text) => operand_instr(alloc, word, text, names),
    }
}

fn operand_instr(
    alloc: Global,
    word: InstrWord,
    text: &[u8],
    names: usize,
) -> Result<Option<UnitInstr>, AllocError>
    ensures { IfOk result (λ found. found ≡ operand_instr word text.now names) }
{
    match word {
        InstrWord::Int => Ok(int_instr(text)),
        InstrWord::Str => str_instr(alloc, text),
        InstrWord::Cset => cset_instr(alloc, text),
        InstrWord::Var => Ok(var_instr(text, names)),
        InstrWord::Keywd => Ok(keywd_instr(text)),
        InstrWord::Op => Ok(op_instr(text)),
        InstrWord::Field => field_instr(alloc, text),
        InstrWord::Llist => Ok(llist_instr(text)),
        InstrWord::Invoke => Ok(invoke_instr(text)),
        _ => Ok(label_instr(word, text)),
    }
}

fn int_instr(text: &[u8]) -> Option<UnitInstr>
    ensures { result ≡ operand_instr InstrWord.Int text.now 0 }
{
    let n = number(text, GREATEST_INTEGER)?;
    Some(UnitInstr::Int(n as i64))
}

fn str_instr(alloc: Global, text: &[u8]) -> Result<Option<UnitInstr>, AllocError>
    ensures { IfOk result (λ found. found ≡ operand_instr InstrWord.Str text.now 0) }
{
    match byte_text(alloc, text)? {
        Some(bytes) => Ok(Some(UnitInstr::Str(Bytes::new(bytes)))),
        None => Ok(None),
    }
}

fn cset_instr(alloc: Global, text: &[u8]) -> Result<Option<UnitInstr>, AllocError>
    ensures { IfOk result (λ found. found ≡ operand_instr InstrWord.Cset text.now 0) }
{
    match byte_text(alloc, text)? {
        Some(bytes) if ascends(&bytes) => {
            Ok(Some(UnitInstr::Cset(ByteSet::from_slice(alloc, &bytes)?)))
        }
        _ => Ok(None),
    }
}

fn var_instr(text: &[u8], names: usize) -> Option<UnitInstr>
    ensures { result ≡ operand_instr InstrWord.Var text.now names }
{
    let n = small_number(text)?;
    if (n as usize) < names {
        Some(UnitInstr::Var(n))
    } else {
        None
    }
}

fn keywd_instr(text: &[u8]) -> Option<UnitInstr>
    ensures { result ≡ operand_instr InstrWord.Keywd text.now 0 }
{
    let keyword = keyword(text)?;
    Some(UnitInstr::Keywd(keyword))
}

fn op_instr(text: &[u8]) -> Option<UnitInstr>
    ensures { result ≡ operand_instr InstrWord.Op text.now 0 }
{
    let n = small_number(text)?;
    let op = op_numbered(n)?;
    Some(UnitInstr::Op(op))
}

fn field_instr(alloc: Global, text: &[u8]) -> Result<Option<UnitInstr>, AllocError>
    ensures { IfOk result (λ found. found ≡ operand_instr InstrWord.Field text.now 0) }
{
    if is_name(text) {
        Ok(Some(UnitInstr::Field(Bytes::from_slice(alloc, text)?)))
    } else {
        Ok(None)
    }
}

fn llist_instr(text: &[u8]) -> Option<UnitInstr>
    ensures { result ≡ operand_instr InstrWord.Llist text.now 0 }
{
    let n = small_number(text)?;
    Some(UnitInstr::Llist(n))
}

fn invoke_instr(text: &[u8]) -> Option<UnitInstr>
    ensures { result ≡ operand_instr InstrWord.Invoke text.now 0 }
{
    let n = small_number(text)?;
    Some(UnitInstr::Invoke(n))
}

fn label_instr(word: InstrWord, text: &[u8]) -> Option<UnitInstr>
    ensures { result ≡ label_read word text.now }
{
    let label = label(text)?;
    instr_with_label(word, label)
}
