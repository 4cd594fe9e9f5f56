//! Files of cases, run.
use crate::running::outcome_of;
use buck_record::Memory;
use fixture_cases::{Case, Count, put_report, read_line};
use std::alloc::Global;
use std::sync::Wait;
use std::thread::Threads;

/// Runs a case that was read whole, and counts it.
fn run_case<T: Threads + Wait + Sync>(
    rt: &T,
    alloc: Global,
    case: &Case<'_>,
    count: &mut Count,
) -> Result<(), Memory> {
    let got = outcome_of(rt, alloc, case);
    count.compare(case, &got)
}

/// Runs the cases of a file, one after the other.
fn run_all<'a, T: Threads + Wait + Sync>(
    rt: &T,
    alloc: Global,
    text: &'a str,
    case: &mut Case<'a>,
    count: &mut Count,
) -> Result<(), Memory> {
    for line in text.lines() {
        if case.is_begun() && line.starts_with("== ") {
            run_case(rt, alloc, case, count)?;
        }
        read_line(alloc, line, case, count)?;
    }
    if case.is_begun() {
        run_case(rt, alloc, case, count)?;
    }
    Ok(())
}

/// Runs the cases of a file, and puts what is said of them.
pub fn report_on<T: Threads + Wait + Sync>(
    rt: &T,
    alloc: Global,
    name: &str,
    text: &str,
    out: &mut Vec<u8>,
) -> Result<(), Memory> {
    let mut count = Count::none(alloc);
    let mut case = Case::none(alloc);
    run_all(rt, alloc, text, &mut case, &mut count)?;
    put_report(out, name, &count)
}
