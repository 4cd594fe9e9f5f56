//! Files at the limit of length, and an input without end.
use crate::streams::Blanks;
use buck_apt::AptFault;
use buckfleet_engine::{run_bare, run_buck};
use buckfleet_engine_files::EngineFault;
use std::alloc::Global;

/// The most bytes that a file may have.
const LIMIT: usize = 67_108_864;

const NOT_APT: EngineFault = EngineFault::Apt(AptFault::NotApt);

const UNREAD: EngineFault = EngineFault::Read { file: 0 };

/// How many blanks a file has, and how a run over it ends.
const FILES: [(usize, EngineFault); 3] = [
    (LIMIT, NOT_APT),
    (LIMIT + 1, UNREAD),
    (usize::MAX, UNREAD),
];

/// Whether a run over an input of blanks and one over an instruction file of blanks are refused by this fault, with
/// nothing written and nothing read of the stem file.
fn is_refused(alloc: Global, left: usize, fault: EngineFault) -> bool {
    let mut written = Vec::new(alloc);
    let one = run_bare(alloc, &mut Blanks { left }, &mut written);
    let mut stems = Blanks { left: 1 };
    let two = run_buck(alloc, &mut Blanks { left }, &mut stems, &mut written);
    one == Err(fault) && two == Err(fault) && written.is_empty() && stems.left == 1
}

#[test]
fn files_of_the_greatest_length(rt: HostRuntime) {
    for (left, fault) in FILES {
        assert!(rt; is_refused(rt.alloc(), left, fault), "{left}");
    }
}
