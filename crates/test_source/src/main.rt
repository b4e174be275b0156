//! Runs the stages from a text up to the checked tree, and up to the code of a unit, and builds trees: each line of the standard input is a case of the part
//! whose name stands above it, and is printed with what comes of it. The head of each part in `stdin` says how its cases are written.
#![tactic(auto)]

mod bytes;
mod cases;
mod marks;
mod notation;
mod operators;
mod outcome;
mod parts;
mod shown;
mod shown_decls;
mod signs;
mod sources;
mod stop;
mod text;
mod translate;
mod trees;
mod words;

use cases::CaseSettings;
use parts::{SourcePart, part_named};
use std::io;

fn main(rt: HostRuntime) -> io::Result<()> {
    let alloc = rt.alloc();
    let input = io::read_to_string(alloc, rt.reader())?;
    let mut tables = CaseSettings::new(alloc);
    let mut part = SourcePart::Front;
    for line in input.lines() {
        let name = line.strip_prefix("== ");
        if let Some(name) = name {
            part = part_named(name);
        }
        if name.is_some() || line.is_empty() || line.starts_with('#') {
            println!(rt; "{line}")?;
        } else {
            let (sign, outcome) = match part {
                SourcePart::Front => ("", String::new(alloc)),
                SourcePart::Source => ("", cases::outcome(alloc, &mut tables, line)?),
                SourcePart::Translate => (" → ", translate::code(alloc, line.as_bytes())?),
                SourcePart::Trees => ("", trees::outcome(alloc, line)?),
            };
            println!(rt; "{line}{sign}{outcome}")?;
        }
    }
    Ok(())
}
