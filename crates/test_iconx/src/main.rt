//! Runs commands of `iconx` over objects in memory, of which calls can be made to fail: the standard input has images and cases, and
//! each command is printed with what comes of it. The head of `stdin` says how a case is written.
#![tactic(auto)]

mod case;
mod command;
mod damage;
mod failing;
mod hex;
mod outcome;

use case::CommandCase;
use std::io;

fn main(rt: HostRuntime) -> io::Result<()> {
    let alloc = rt.alloc();
    let input = io::read_to_string(alloc, rt.reader())?;
    let mut case = CommandCase::new(alloc);
    for line in input.lines() {
        let outcome = case.read(alloc, line)?;
        println!(rt; "{line}{outcome}")?;
    }
    Ok(())
}
