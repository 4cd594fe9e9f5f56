//! Whole runs in one process, one after the other: long work from memory to memory, pages and tables of stored journals,
//! and a morning as the program's commands make it. The morning's last run is of an instruction that is refused. So the
//! status is 1, and the line of that fault stands on standard error: `apt fault 9 3050`.
#![tactic(auto)]

mod long;
mod morning;
mod shown;

use std::process::ExitCode;

fn main(rt: HostRuntime) -> ExitCode {
    if long::print_lines(&rt, &rt, rt.alloc()).is_err() {
        return ExitCode::from(8);
    }
    if shown::compare(&rt, &rt).is_err() {
        return ExitCode::from(9);
    }
    ExitCode::from(morning::status(&rt, &rt))
}
