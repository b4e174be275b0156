// Instructions, as cases write them.
use icn_code::Instr;
use icn_defs::op_numbered;
use std::alloc::{AllocError, Global};

/// The instructions that a text writes, with a comma between two of them; none, where a word is no instruction. `AllocError` is want of
/// memory.
pub fn instructions(alloc: Global, text: &str) -> Result<Option<Vec<Instr>>, AllocError> {
    let mut instrs = Vec::new(alloc);
    if text.is_empty() {
        return Ok(Some(instrs));
    }
    for word in text.split(", ") {
        match instruction(word) {
            Some(instr) => instrs.push(instr)?,
            None => return Ok(None),
        }
    }
    Ok(Some(instrs))
}

/// The instruction that a word writes, with a number behind it where it has one.
pub fn instruction(text: &str) -> Option<Instr> {
    match text.split_once(" ") {
        Some((name, number)) => numbered(name, number.parse::<u32>().ok()?),
        None => stacked(text).or(ended(text)),
    }
}

fn numbered(name: &str, number: u32) -> Option<Instr> {
    match name {
        "int" => Some(Instr::Int(number)),
        "str" => Some(Instr::Str(number)),
        "global" => Some(Instr::Global(number)),
        "op" => Some(Instr::Op(op_numbered(number)?)),
        "llist" => Some(Instr::Llist(number)),
        "field" => Some(Instr::Field(number)),
        "invoke" => Some(Instr::Invoke(number)),
        _ => labelled(name, number),
    }
}

fn labelled(name: &str, label: u32) -> Option<Instr> {
    match name {
        "mark" => Some(Instr::Mark(label)),
        "chfail" => Some(Instr::Chfail(label)),
        "goto" => Some(Instr::Goto(label)),
        "loop" => Some(Instr::Loop(label)),
        "init" => Some(Instr::Init(label)),
        "create" => Some(Instr::Create(label)),
        _ => None,
    }
}

// An instruction without a number that pushes, pops, opens or closes.
fn stacked(name: &str) -> Option<Instr> {
    match name {
        "pnull" => Some(Instr::Pnull),
        "pop" => Some(Instr::Pop),
        "dup" => Some(Instr::Dup),
        "appl" => Some(Instr::Appl),
        "mark0" => Some(Instr::Mark0),
        "unmark" => Some(Instr::Unmark),
        "limit" => Some(Instr::Limit),
        "bscan" => Some(Instr::Bscan),
        "escan" => Some(Instr::Escan),
        "ccase" => Some(Instr::Ccase),
        _ => None,
    }
}

// An instruction without a number that returns, suspends, fails or transfers.
fn ended(name: &str) -> Option<Instr> {
    match name {
        "eret" => Some(Instr::Eret),
        "esusp" => Some(Instr::Esusp),
        "lsusp" => Some(Instr::Lsusp),
        "efail" => Some(Instr::Efail),
        "psusp" => Some(Instr::Psusp),
        "pret" => Some(Instr::Pret),
        "pfail" => Some(Instr::Pfail),
        "coact" => Some(Instr::Coact),
        "coret" => Some(Instr::Coret),
        "cofail" => Some(Instr::Cofail),
        _ => None,
    }
}
