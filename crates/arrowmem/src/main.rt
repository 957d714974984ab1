//! The command `arrowmem`: scripts and queries over a tree of allocators.
#![tactic(auto)]

mod answer;
mod command;
mod laws;
mod program;
mod query;
mod say;
mod status;
mod top;

use mem_io::{FileShelf, StdSink, SystemFiles};
use program::run;
use std::process::ExitCode;
use std::rt::Env;
use std::{env, io};

// The arguments without the program's name.
fn arguments<R: Env + AllocGlobal>(rt: &R) -> io::Result<Vec<String>> {
    let mut words = Vec::new(rt.alloc());
    for word in env::args(rt)?.skip(1) {
        words.push(word)?;
    }
    Ok(words)
}

fn main(rt: HostRuntime) -> ExitCode {
    let mut shelf = FileShelf::new(SystemFiles(&rt));
    let mut out = StdSink::new(io::writer(&rt));
    run(rt.alloc(), arguments(&rt), &mut shelf, &mut out)
}
