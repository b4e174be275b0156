//! The program `icont`: it translates a program of the Icon language, and runs it.
#![tactic(auto)]

use icn_host::{DiskFiles, RuntimeFiles, Settling, StdSink, StdSource};
use icont_top::program_status;
use std::alloc::AllocError;
use std::io::IsTerminal;
use std::process::ExitCode;
use std::rt::Env;
use std::{env, io};

fn main(rt: HostRuntime) -> ExitCode {
    let alloc = rt.alloc();
    program_status(
        alloc,
        words(&rt),
        &mut DiskFiles::new(alloc, RuntimeFiles::new(&rt)),
        &mut StdSource::new(rt.stdin()),
        &mut StdSink::new(alloc, rt.stdout(), settling_for(rt.stdout().is_terminal())),
        &mut StdSink::new(alloc, rt.stderr(), settling_for(rt.stderr().is_terminal())),
    )
}

// A terminal sees each line as it is put.
fn settling_for(is_terminal: bool) -> Settling {
    if is_terminal {
        Settling::EachLine
    } else {
        Settling::WhenFull
    }
}

// The words of the command line. Where one of them is no text there are none, so that the command is faulty.
fn words(rt: &(impl Env + AllocGlobal)) -> Result<Vec<String>, AllocError> {
    match env::args(rt) {
        Ok(words) => words.collect(rt.alloc()),
        Err(e) if e.kind() == io::ErrorKind::OutOfMemory => Err(AllocError),
        Err(_) => Ok(Vec::new(rt.alloc())),
    }
}
