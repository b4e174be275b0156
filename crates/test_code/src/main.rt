//! Units and code as texts and bytes: texts of units are read and written again, units are linked, images are read and written again, and
//! code is checked. Each line of the standard input is a case of the part whose name stands above it, and is printed with what comes of it.
//! The head of each part in `stdin` says how its cases are written.
#![tactic(auto)]

mod image;
mod link;
mod parts;
mod ucode;
mod verify;

use icn_image::one_spelling;
use image::Cases;
use parts::{CodePart, part_named};
use std::io;

fn main(rt: HostRuntime) -> io::Result<()> {
    let alloc = rt.alloc();
    one_spelling();
    let input = io::read_to_string(alloc, rt.reader())?;
    let mut images = Cases::new(alloc);
    let mut part = CodePart::Front;
    for line in input.lines() {
        let name = line.strip_prefix("== ");
        if let Some(name) = name {
            part = part_named(name);
        }
        if name.is_some() || line.is_empty() || line.starts_with('#') {
            println!(rt; "{line}")?;
        } else {
            let (sign, outcome) = match part {
                CodePart::Front => ("", String::new(alloc)),
                CodePart::Ucode => (" -> ", ucode::case_outcome(alloc, line)?),
                CodePart::Link => ("", link::outcome(alloc, line)?),
                CodePart::Image => ("", images.outcome(alloc, line)?),
                CodePart::Verify => (" -> ", verify::outcome(alloc, line)?),
            };
            println!(rt; "{line}{sign}{outcome}")?;
        }
    }
    Ok(())
}
