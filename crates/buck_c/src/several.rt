//! The calls over several files.
ghost use Rattle.std.specs.Prelude.{◌≡◌};
ghost use Rattle.buck_c_calls.specs.Room.{IsPut};
ghost use Rattle.buck_c_calls.specs.Ledger.{IsAppraised, IsCheckedWith, IsCompared};
ghost use Rattle.buck_c_calls.specs.Trials.{IsSwept, IsTuned, IsWished};

use buck_c_calls::{DrawnRun, DrawnRuns, Numbers, Orders, Pair, Run};
use std::alloc::Global;

/// [`buckfleet_check_with`](buck_c_calls::buckfleet_check_with), for C.
#[unsafe(no_mangle)]
pub extern "C" fn buckfleet_check_with(
    alloc: Global,
    files: &[u8],
    lengths: &[usize],
    run: &Run,
    out: &mut [u8],
    written: &mut usize,
) -> u8
    ensures { IsPut (IsCheckedWith run.now lengths.now files.now) out.old out.new written.new result }
{
    buck_c_calls::buckfleet_check_with(alloc, files, lengths, run, out, written)
}

/// [`buckfleet_appraise`](buck_c_calls::buckfleet_appraise), for C.
#[unsafe(no_mangle)]
pub extern "C" fn buckfleet_appraise(
    alloc: Global,
    files: &[u8],
    lengths: &[usize],
    numbers: &Numbers,
    out: &mut [u8],
    written: &mut usize,
) -> u8
    ensures { IsPut (IsAppraised numbers.now lengths.now files.now) out.old out.new written.new result }
{
    buck_c_calls::buckfleet_appraise(alloc, files, lengths, numbers, out, written)
}

/// [`buckfleet_compare`](buck_c_calls::buckfleet_compare), for C.
#[unsafe(no_mangle)]
pub extern "C" fn buckfleet_compare(
    alloc: Global,
    files: &[u8],
    lengths: &[usize],
    pair: &Pair,
    out: &mut [u8],
    written: &mut usize,
) -> u8
    ensures { IsPut (IsCompared pair.now lengths.now files.now) out.old out.new written.new result }
{
    buck_c_calls::buckfleet_compare(alloc, files, lengths, pair, out, written)
}

/// [`buckfleet_sweep`](buck_c_calls::buckfleet_sweep), for C.
#[unsafe(no_mangle)]
pub extern "C" fn buckfleet_sweep(
    alloc: Global,
    files: &[u8],
    lengths: &[usize],
    runs: &[Run],
    draws: &Orders,
    out: &mut [u8],
    written: &mut usize,
) -> u8
    ensures { IsPut (IsSwept runs.now draws.now lengths.now files.now) out.old out.new written.new result }
{
    let runs = DrawnRuns { runs, draws };
    buck_c_calls::buckfleet_sweep(alloc, files, lengths, &runs, out, written)
}

/// [`buckfleet_wishes`](buck_c_calls::buckfleet_wishes), for C.
#[unsafe(no_mangle)]
pub extern "C" fn buckfleet_wishes(
    alloc: Global,
    files: &[u8],
    lengths: &[usize],
    run: &DrawnRun,
    out: &mut [u8],
    written: &mut usize,
) -> u8
    ensures { IsPut (IsWished run.now lengths.now files.now) out.old out.new written.new result }
{
    buck_c_calls::buckfleet_wishes(alloc, files, lengths, run, out, written)
}

/// [`buckfleet_tune`](buck_c_calls::buckfleet_tune), for C.
#[unsafe(no_mangle)]
pub extern "C" fn buckfleet_tune(
    alloc: Global,
    files: &[u8],
    lengths: &[usize],
    run: &Run,
    out: &mut [u8],
    written: &mut usize,
) -> u8
    ensures { IsPut (IsTuned run.now lengths.now files.now) out.old out.new written.new result }
{
    buck_c_calls::buckfleet_tune(alloc, files, lengths, run, out, written)
}
