//! The diameters, the zones and the logs that numbers say.
ghost use Rattle.std.specs.Prelude.{◌≡◌, ◌≤◌, IfOk, length};
ghost use Rattle.buck_record.specs.Reading.{Gives, listed};
ghost use Rattle.buck_book_journal.specs.declared.journal_fault.JournalFault.TheVariants.{Memory};
ghost use Rattle.buck_book_reader.specs.Limits.{AreSamples, AreZones};
ghost use Rattle.buck_book_journal.specs.Reading.{says, samples_form, is_zone, zones_form, is_log, logs_form};

use buck_apt_instruction::slots::LENGTHS;
use buck_book_journal::JournalFault;
use buck_record::check::check;
use buck_record::rules::{all_within, one_to};
use buck_stem_shape::slots::{GRADES, MOST_SAMPLES, MOST_ZONES, SAMPLES, STARTS};
use buck_value::Log;
use std::alloc::{AllocError, Global};

/// The samples as they are kept.
fn samples_of(alloc: Global, numbers: &[u32]) -> Result<Vec<u16>, AllocError>
    requires { AreSamples numbers.now }
    ensures { IfOk result (λ samples. samples.items ≡ numbers.now) }
{
    let mut samples = Vec::with_capacity(alloc, numbers.len())?;
    for number in numbers {
        samples.push(*number as u16)?;
    }
    Ok(samples)
}

/// The diameters of a stem.
#[tactic(auto, using(crate::proofs::Limits::are_samples_ok))]
pub(crate) fn samples_in(
    alloc: Global,
    place: usize,
    numbers: &[u32],
) -> Result<Vec<u16>, JournalFault>
    ensures value { Gives Memory (listed result) (says samples_form place numbers.now) }
    ensures valid { IfOk result (λ samples. AreSamples samples.items) }
{
    if !one_to(MOST_SAMPLES, numbers.len()) {
        return Err(JournalFault::Count { item: place });
    }
    if !all_within(SAMPLES.low, SAMPLES.high, numbers) {
        return Err(JournalFault::Range { item: place });
    }
    Ok(samples_of(alloc, numbers)?)
}

fn is_zone(low: u32, start: u32, grade: u32) -> bool
    ensures { result ≡ is_zone low start grade }
{
    low <= start && start <= STARTS.high && GRADES.low <= grade && grade <= GRADES.high
}

fn is_log(start: u32, length: u32, assortment: u32) -> bool
    ensures { result ≡ is_log start length assortment }
{
    start <= STARTS.high && length <= LENGTHS.high && assortment <= 15
}

/// The zones of a stem: starts and grades, two by two.
pub(crate) fn zones_in(
    alloc: Global,
    place: usize,
    numbers: &[u32],
) -> Result<Vec<(u32, u8)>, JournalFault>
    ensures value { Gives Memory (listed result) (says zones_form place numbers.now) }
    ensures valid { IfOk result (λ zones. AreZones zones.items) }
{
    if numbers.len() % 2 != 0 {
        return Err(JournalFault::Count { item: place });
    }
    if numbers.len() > 2 * MOST_ZONES {
        return Err(JournalFault::Count { item: place });
    }
    let mut zones = Vec::with_capacity(alloc, numbers.len() / 2)?;
    let mut low = 0;
    for k in 0..numbers.len() / 2 {
        let (start, grade) = (numbers[2 * k], numbers[2 * k + 1]);
        if !is_zone(low, start, grade) {
            return Err(JournalFault::Range { item: place });
        }
        zones.push((start, grade as u8))?;
        low = start + 1;
    }
    Ok(zones)
}

/// The logs of a cutting: starts, lengths and assortments, three by three.
pub(crate) fn logs_in(
    alloc: Global,
    place: usize,
    numbers: &[u32],
) -> Result<Vec<Log>, JournalFault>
    ensures { Gives Memory (listed result) (says logs_form place numbers.now) }
{
    if numbers.len() % 3 != 0 {
        return Err(JournalFault::Count { item: place });
    }
    if numbers.len() > 240 {
        return Err(JournalFault::Count { item: place });
    }
    let mut logs = Vec::with_capacity(alloc, numbers.len() / 3)?;
    for k in 0..numbers.len() / 3 {
        let (start, length) = (numbers[3 * k], numbers[3 * k + 1]);
        let assortment = numbers[3 * k + 2];
        if !is_log(start, length, assortment) {
            return Err(JournalFault::Range { item: place });
        }
        logs.push(Log {
            start,
            length,
            assortment: assortment as u8,
        })?;
    }
    Ok(logs)
}
