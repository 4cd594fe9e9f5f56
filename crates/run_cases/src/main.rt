//! Runs files of worked cases through the engines, from memory to memory, and prints how many of each file differ from
//! what the file wants, with the first that differ. The form of the files stands in docs/CASES.md, so that any other
//! implementation can run them too.
#![tactic(auto)]

mod commanding;
mod counting;
mod running;

use counting::report_on;
use std::alloc::Global;
use std::io::Write;
use std::process::ExitCode;
use std::sync::Wait;
use std::thread::Threads;
use std::{fs, io};

/// The files of cases, in the order in which they are run.
const FILES: [&str; 17] = [
    "instructions_refused",
    "instructions_accepted",
    "instructions_cut_short",
    "stems_refused",
    "stems_accepted",
    "stems_cut_short",
    "cuttings",
    "fleets",
    "journals",
    "journals_cut_short",
    "commands",
    "requests",
    "trials",
    "pages",
    "mistakes",
    "sentences",
    "reasons",
];

/// Prints a line for each file of cases, below it what differs.
fn run<T: Threads + Wait + Sync>(threads: &T, rt: &HostRuntime, alloc: Global) -> io::Result<()> {
    let mut output = io::writer(rt);
    for name in FILES {
        let text = fs::read_to_string(rt, name)?;
        let mut report = Vec::new(alloc);
        if report_on(threads, alloc, name, text.as_str(), &mut report).is_err() {
            return Err(io::ErrorKind::OutOfMemory.into());
        }
        output.write_all(report.as_slice())?;
    }
    Ok(())
}

fn main(rt: HostRuntime) -> ExitCode {
    let alloc = rt.alloc();
    match run(&rt, &rt, alloc) {
        Ok(()) => ExitCode::from(0),
        Err(_) => ExitCode::from(1),
    }
}
