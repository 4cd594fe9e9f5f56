//! The calls over the bytes of files.
ghost use Rattle.std.specs.Prelude.{◌≡◌};
ghost use Rattle.buck_c_calls.specs.Room.{IsPut};
ghost use Rattle.buck_c_calls.specs.Files.{IsBucked, IsChecked, IsReported};
ghost use Rattle.buck_c_calls.specs.Pages.{IsListed, IsViewed};
ghost use Rattle.buck_c_calls.specs.Turns.{ArePut, IsTurned};

use buck_c_calls::Texts;
use std::alloc::Global;

/// [`buckfleet_version`](buck_c_calls::buckfleet_version), for C.
#[unsafe(no_mangle)]
pub extern "C" fn buckfleet_version() -> u32
    ensures { result ≡ 8 }
{
    buck_c_calls::buckfleet_version()
}

/// [`buckfleet_buck`](buck_c_calls::buckfleet_buck), for C.
#[unsafe(no_mangle)]
pub extern "C" fn buckfleet_buck(
    alloc: Global,
    apt: &[u8],
    stm: &[u8],
    out: &mut [u8],
    written: &mut usize,
) -> u8
    ensures { IsPut (IsBucked apt.now stm.now) out.old out.new written.new result }
{
    buck_c_calls::buckfleet_buck(alloc, apt, stm, out, written)
}

/// [`buckfleet_check`](buck_c_calls::buckfleet_check), for C.
#[unsafe(no_mangle)]
pub extern "C" fn buckfleet_check(
    alloc: Global,
    apt: &[u8],
    journal: &[u8],
    out: &mut [u8],
    written: &mut usize,
) -> u8
    ensures { IsPut (IsChecked apt.now journal.now) out.old out.new written.new result }
{
    buck_c_calls::buckfleet_check(alloc, apt, journal, out, written)
}

/// [`buckfleet_report`](buck_c_calls::buckfleet_report), for C.
#[unsafe(no_mangle)]
pub extern "C" fn buckfleet_report(
    alloc: Global,
    apt: &[u8],
    journal: &[u8],
    out: &mut [u8],
    written: &mut usize,
) -> u8
    ensures { IsPut (IsReported apt.now journal.now) out.old out.new written.new result }
{
    buck_c_calls::buckfleet_report(alloc, apt, journal, out, written)
}

/// [`buckfleet_view`](buck_c_calls::buckfleet_view), for C.
#[unsafe(no_mangle)]
pub extern "C" fn buckfleet_view(
    alloc: Global,
    apt: &[u8],
    journal: &[u8],
    names: &[u8],
    out: &mut [u8],
    written: &mut usize,
) -> u8
    ensures { IsPut (IsViewed apt.now journal.now) out.old out.new written.new result }
{
    buck_c_calls::buckfleet_view(alloc, apt, journal, names, out, written)
}

/// [`buckfleet_table`](buck_c_calls::buckfleet_table), for C.
#[unsafe(no_mangle)]
pub extern "C" fn buckfleet_table(
    alloc: Global,
    apt: &[u8],
    journal: &[u8],
    table: u8,
    out: &mut [u8],
    written: &mut usize,
) -> u8
    ensures { IsPut (IsListed table apt.now journal.now) out.old out.new written.new result }
{
    buck_c_calls::buckfleet_table(alloc, apt, journal, table, out, written)
}

/// [`buckfleet_in_turn`](buck_c_calls::buckfleet_in_turn), for C.
#[unsafe(no_mangle)]
pub extern "C" fn buckfleet_in_turn(
    alloc: Global,
    files: &[u8],
    lengths: &[usize],
    rule: u8,
    out: &mut [u8],
    texts: &mut Texts,
) -> u8
    ensures { ArePut (IsTurned rule lengths.now files.now) out.old out.new texts.new result }
{
    buck_c_calls::buckfleet_in_turn(alloc, files, lengths, rule, out, texts)
}
