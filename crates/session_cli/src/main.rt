//! The program: reads a script, runs its commands one by one and writes what each answers.
#![tactic(auto)]

mod options;
mod output;
mod program;
mod reading;
mod running;
mod status;

use program::start;
use q_io::{ReadSource, WriteSink};
use status::Status;
use std::env;
use std::process::ExitCode;

fn main(rt: HostRuntime) -> ExitCode {
    ExitCode::from(run(&rt) as u8)
}

// A word that isn't UTF-8 is none that the program takes.
fn run(rt: &HostRuntime) -> Status {
    let Ok(args) = env::args(rt) else {
        return Status::Usage;
    };
    let Ok(words) = args.skip(1).collect::<Vec<String>>(rt.alloc()) else {
        return Status::NoMemory;
    };
    let mut source = ReadSource::new(rt.stdin());
    let mut sink = WriteSink::new(rt.stdout());
    start(rt.alloc(), words.as_slice(), &mut source, &mut sink)
}

#[cfg(test)]
mod tests;
