//! Makes calls of what the programs are handed from outside: each line of the standard input is a case, several calls of one object, and is
//! printed with a line for each; or a command of `icont`, and is printed with what its words come to. The head of `stdin` says how a case is
//! written.
#![tactic(auto)]

mod case;
mod disk;
mod files;
mod readers;
mod reading;
mod showing;
mod sinks;
mod small;
mod sources;
mod words;
mod writers;

use case::case_text;
use std::io;

fn main(rt: HostRuntime) -> io::Result<()> {
    let alloc = rt.alloc();
    let input = io::read_to_string(alloc, rt.reader())?;
    for line in input.lines() {
        if line.is_empty() || line.starts_with('#') {
            println!(rt; "{line}")?;
        } else {
            let text = case_text(&rt, line)?;
            println!(rt; "{text}")?;
        }
    }
    Ok(())
}
