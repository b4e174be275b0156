//! Makes calls of what a run keeps its values in: regions, lists and pairs, a heap, conversions, variables, and stacks. Each line of the
//! standard input is a case of the part whose name stands above it, and is printed with what comes of it. The head of each part in `stdin`
//! says how its cases are written.
#![tactic(auto)]

mod containers;
mod convert;
mod heap;
mod parts;
mod stacks;
mod variables;

use parts::{StorePart, part_named};
use std::io;
use test_values::new_world;

fn main(rt: HostRuntime) -> io::Result<()> {
    let alloc = rt.alloc();
    containers::laws_of_the_definitions();
    let input = io::read_to_string(alloc, rt.reader())?;
    let mut w = new_world(alloc, 0, 0)?;
    let mut part = StorePart::Front;
    for line in input.lines() {
        let name = line.strip_prefix("== ");
        if let Some(name) = name {
            part = part_named(name);
        }
        if name.is_some() || line.is_empty() || line.starts_with('#') {
            println!(rt; "{line}")?;
        } else {
            let (case, sign, outcome) = match part {
                StorePart::Front => (line, "", String::new(alloc)),
                StorePart::Containers => ("", "", containers::case_text(alloc, line)?),
                StorePart::Heap => (line, "", heap::outcome(alloc, &mut w, line)?),
                StorePart::Convert => (line, " -> ", convert::outcome(alloc, line)?),
                StorePart::Variables => (line, " -> ", variables::outcome(alloc, line)?),
                StorePart::Stacks => ("", "", stacks::case_text(alloc, line)?),
            };
            println!(rt; "{case}{sign}{outcome}")?;
        }
    }
    Ok(())
}
