//! How long an operation of a container takes where it holds many entries.
//!
//! Run by hand with two words, a container and a count of entries, it prints a line for each operation:
//! its name, how often it was done, and the processor's time that this took, in seconds and the
//! nanoseconds past them. Without words it does nothing.
#![tactic(auto)]

mod entries;
mod report;
mod rows;
mod sources;

use report::Failed;
use std::env;
use std::process::ExitCode;

/// The most entries, below the most rows that may be live.
const MOST: u32 = 1_000_000;

fn main(rt: HostRuntime) -> ExitCode {
    match run(&rt) {
        Ok(()) => ExitCode::SUCCESS,
        Err(Failed::Words) => ExitCode::from(2),
        Err(Failed::Other) => ExitCode::FAILURE,
    }
}

fn run(rt: &HostRuntime) -> Result<(), Failed> {
    let words = env::args(rt)?.skip(1).collect::<Vec<String>>(rt.alloc())?;
    match words.as_slice() {
        [] => Ok(()),
        [container, count] => run_one(rt, container.as_str(), count_of(count.as_str())?),
        _ => Err(Failed::Words),
    }
}

fn count_of(word: &str) -> Result<u32, Failed> {
    match word.parse::<u32>() {
        Ok(count) if count <= MOST => Ok(count),
        _ => Err(Failed::Words),
    }
}

fn run_one(rt: &HostRuntime, container: &str, count: u32) -> Result<(), Failed> {
    match container {
        "row_versions" => rows::run(rt, count),
        "row_index" => entries::run(rt, count),
        "plan_invalid" => sources::run(rt, count),
        _ => Err(Failed::Words),
    }
}
