//! Lists of prices and of targets, calls, and the heads of stems.
ghost use Rattle.std.specs.Prelude.{◌≡◌, ◌≤◌, IfOk, IfErr, OnOk, Ok, Err};
ghost use Rattle.buck_book_journal.specs.Reading.{says, list_form, is_call, call_form, head_form};

use buck_book_journal::{Call, JournalFault};
use buck_book_postings::MOST_POSTINGS;
use buck_record::check::check;
use buck_record::rules::all_within;
use buck_stem_shape::slots::SPECIES;

/// Whether numbers can be the prices of a sheet, or the targets of a demand.
pub(crate) fn check_list(
    low: u32,
    high: u32,
    place: usize,
    numbers: &[u32],
) -> Result<(), JournalFault>
    ensures ok { OnOk result (says (list_form low high) place numbers.now ≡ Ok numbers.now) }
    ensures refused { IfErr result (λ e. says (list_form low high) place numbers.now ≡ Err e) }
{
    check(numbers.len() <= 16_384, JournalFault::Count { item: place })?;
    check(
        all_within(low, high, numbers),
        JournalFault::Range { item: place },
    )
}

/// Whether harvester, number and version are in range.
fn is_call(call: Call) -> bool
    ensures { result ≡ is_call call }
{
    1 <= call.harvester
        && call.harvester <= 64
        && 1 <= call.number
        && call.number <= MOST_POSTINGS
        && call.version <= MOST_POSTINGS
}

/// What numbers say of a call.
pub(crate) fn call_in(place: usize, numbers: &[u32]) -> Result<Call, JournalFault>
    ensures { result ≡ says call_form place numbers.now }
{
    if numbers.len() != 3 {
        return Err(JournalFault::Count { item: place });
    }
    let call = Call {
        harvester: numbers[0],
        number: numbers[1],
        version: numbers[2],
    };
    if !is_call(call) {
        return Err(JournalFault::Range { item: place });
    }
    Ok(call)
}

/// The number and the species of a stem.
pub(crate) fn head_in(place: usize, numbers: &[u32]) -> Result<(u32, u8), JournalFault>
    ensures value { result ≡ says head_form place numbers.now }
    ensures species { IfOk result (λ head. (SPECIES.low ≤ head.1) × (head.1 ≤ SPECIES.high)) }
{
    if numbers.len() != 2 {
        return Err(JournalFault::Count { item: place });
    }
    let species = numbers[1];
    if species < SPECIES.low {
        return Err(JournalFault::Range { item: place });
    }
    if species > SPECIES.high {
        return Err(JournalFault::Range { item: place });
    }
    Ok((numbers[0], species as u8))
}
