//! Wrong bodies of what is said of a fault.
use buckfleet_engine::{conclude, explain};
use buckfleet_engine_files::{EngineFault, status, write_fault};
use std::alloc::Global;

/// Status 1, as after a refused file, if there are not 1 to 64 stem files.
pub fn seats_as_a_refused_file() {
    let wrong = 1;
    let right = status(&EngineFault::Seats);
    prove!(right != wrong);
}

/// Status 0 after a fault.
pub fn conclude_status_0_after_a_fault(errors: &mut Vec<u8>) {
    let wrong = 0;
    let right = conclude(errors, &Err(EngineFault::Write));
    prove!(right != wrong);
}

/// Says that the line was written if nothing was.
pub fn write_fault_always_true(alloc: Global) {
    let mut line = Vec::new(alloc);
    let is_whole = write_fault(&mut line, &EngineFault::Seats);
    let is_wrong = is_whole && line.is_empty();
    prove!(!is_wrong);
}

/// Status 0 if nothing of the help was written.
pub fn write_fault_taken_for_success(alloc: Global, errors: &mut Vec<u8>) {
    let mut output = Vec::new(alloc);
    let status = explain(&mut output, errors, b"help\n", false);
    let is_wrong = status == 0 && output.is_empty();
    prove!(!is_wrong);
}
