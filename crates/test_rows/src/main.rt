//! Applies operations and functions, and resumes what they leave: each line of the standard input is a case of the part whose name
//! stands above it, and is printed with what comes of it. The head of each part in `stdin` says how its cases are written.
#![tactic(auto)]

mod apply;
mod input_output;
mod operations;
mod parts;
mod scan;
mod strings;
mod structures;

use icn_apply::CodeNames;
use parts::{RowPart, part_named};
use std::io;

fn main(rt: HostRuntime) -> io::Result<()> {
    let alloc = rt.alloc();
    let code = apply::one_record(alloc)?;
    let names = CodeNames::new(&code);
    let input = io::read_to_string(alloc, rt.reader())?;
    let mut part = RowPart::Front;
    for line in input.lines() {
        let name = line.strip_prefix("== ");
        if let Some(name) = name {
            part = part_named(name);
        }
        if name.is_some() || line.is_empty() || line.starts_with('#') {
            println!(rt; "{line}")?;
        } else {
            let (sign, outcome) = match part {
                RowPart::Front => ("", String::new(alloc)),
                RowPart::Operations => (" = ", operations::outcome(alloc, line)?),
                RowPart::Strings => ("", strings::outcome(alloc, line.as_bytes())?),
                RowPart::Scan => ("", scan::outcome(alloc, line.as_bytes())?),
                RowPart::Structures => ("", structures::outcome(alloc, line.as_bytes())?),
                RowPart::InputOutput => (" -> ", input_output::outcome(alloc, line)?),
                RowPart::Apply => (" -> ", apply::outcome(alloc, &names, line)?),
            };
            println!(rt; "{line}{sign}{outcome}")?;
        }
    }
    Ok(())
}
