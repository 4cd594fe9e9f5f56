//! Calls that bench/ times or counts, by the first word:
//!
//! - `commits PERIODS`: commits to a book of one thread, at most 10,000 periods (bench/commits.py);
//! - `read NUMBER THREADS` and `put NUMBER THREADS`: a board, so often on each of so many threads (bench/board.py);
//! - `time HARVESTERS APT STM..` and `plans HARVESTERS APT STM..`: a fleet (bench/fleet.py);
//! - `stems APT STM TIMES`: the stems of a file, cut so often into a book of one thread; bench/stems.py counts the
//!   instructions of that, and of the same stems through the C library;
//! - `brief HARVESTERS APT STM TIMES`: a little of each.
#![tactic(auto)]

mod board;
mod commits;
mod fleet;
mod input;
mod stems;

use std::env;
use std::process::ExitCode;
use std::sync::Wait;
use std::thread::Threads;
use std::time::Clock;

/// The number that the word at a place is.
fn number_at(words: &[String], place: usize) -> Option<u32> {
    words.get(place)?.as_str().parse::<u32>().ok()
}

/// Does what the words ask for. None is for words that aren't right, and for work that fails.
fn run<R: Threads + Wait + Clock + Sync>(
    rt: &R,
    host: &HostRuntime,
    words: &[String],
) -> Option<()> {
    let rest = words.get(1..)?;
    match words.first()?.as_str() {
        "commits" => commits::run(host, number_at(rest, 0)?),
        "read" => {
            let threads = number_at(rest, 1)?;
            board::run(rt, host.alloc(), true, number_at(rest, 0)?, threads)
        }
        "put" => {
            let threads = number_at(rest, 1)?;
            board::run(rt, host.alloc(), false, number_at(rest, 0)?, threads)
        }
        "time" => fleet::run(rt, host, true, rest),
        "plans" => fleet::run(rt, host, false, rest),
        "stems" => stems::run(host, rest),
        "brief" => {
            commits::run(host, 10)?;
            board::run(rt, host.alloc(), true, 1000, 2)?;
            board::run(rt, host.alloc(), false, 1000, 2)?;
            fleet::run(rt, host, false, rest.get(..3)?)?;
            stems::run(host, rest.get(1..)?)
        }
        _ => None,
    }
}

fn main(rt: HostRuntime) -> ExitCode {
    let Ok(args) = env::args(&rt) else {
        return ExitCode::from(1);
    };
    let Ok(words) = args.collect::<Vec<String>>(rt.alloc()) else {
        return ExitCode::from(1);
    };
    let Some(words) = words.get(1..) else {
        return ExitCode::from(1);
    };
    match run(&rt, &rt, words) {
        Some(()) => ExitCode::from(0),
        None => ExitCode::from(2),
    }
}
