//! Runs commands of both programs over objects in memory: each line of the standard input belongs to the part whose name stands above it,
//! and is printed with what comes of it. The head of each part in `stdin` says how its cases are written.
#![tactic(auto)]

mod icont;
mod parts;
mod programs;
mod running;

use icn_host::{DiskFiles, RuntimeFiles};
use parts::{CommandPart, part_named};
use std::io;

fn main(rt: HostRuntime) -> io::Result<()> {
    let alloc = rt.alloc();
    let input = io::read_to_string(alloc, rt.reader())?;
    let mut disk = DiskFiles::new(alloc, RuntimeFiles::new(&rt));
    let mut program = programs::CaseFiles::new(alloc);
    let mut commands = icont::Case::new(alloc);
    let mut part = CommandPart::Front;
    for line in input.lines() {
        if let Some(name) = line.strip_prefix("== ") {
            part = part_named(name);
            println!(rt; "{line}")?;
            continue;
        }
        let outcome = match part {
            CommandPart::Front => String::new(alloc),
            CommandPart::Icont => commands.read(alloc, line)?,
            CommandPart::Programs => {
                let shown = program.read(alloc, &mut disk, line)?;
                print!(rt; "{shown}")?;
                continue;
            }
            CommandPart::Running => running::outcome(alloc, line)?,
        };
        println!(rt; "{line}{outcome}")?;
    }
    Ok(())
}
