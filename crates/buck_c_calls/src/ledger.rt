//! The calls that say what journals brought, and whether one is of stem files and by a rule, over the bytes of files.
ghost use Rattle.std.specs.Prelude.{◌≡◌};
ghost use Rattle.buck_record.specs.Reading.{listed};
ghost use Rattle.buck_c_calls.specs.Room.{IsPut};
ghost use Rattle.buck_c_calls.specs.Ledger.{IsAppraised, IsCheckedWith, IsCompared};
ghost use Rattle.buck_c_calls.specs.inner.Stopped.{Tells};

use crate::asked::{Numbers, Pair, Run, cross_check_of, settings_of};
use crate::several::{Handed, Stop, ended, hand_over, in_terms, put_answer};
use buckfleet_engine_cross_check::run_check_with;
use buckfleet_engine_files::OneThread;
use buckfleet_proceeds::{CompareTask, Opened, run_appraise, run_compare};
use std::alloc::Global;

/// The line of a journal that is tied to stem files and a rule.
#[tactic(auto, using(crate::proofs::Ran::refusals))]
fn checked_with(alloc: Global, files: &[u8], lengths: &[usize], run: &Run) -> Result<Vec<u8>, Stop>
    ensures { Tells (IsCheckedWith run.now lengths.now files.now) (listed result) }
{
    let Some(by) = cross_check_of(run) else {
        return Err(Stop::Misused);
    };
    let Handed {
        mut apt,
        other: mut journal,
        more: mut stms,
    } = hand_over(alloc, files, lengths)?;
    let stms = stms.as_mut_slice();
    let mut text = Vec::new(alloc);
    let outcome = run_check_with(
        &OneThread,
        alloc,
        &by,
        &mut apt,
        &mut journal,
        stms,
        &mut text,
    );
    ended(in_terms(outcome), text)
}

/// The table of an appraisal.
#[tactic(auto, using(crate::proofs::Ran::refusals))]
fn appraised(
    alloc: Global,
    files: &[u8],
    lengths: &[usize],
    numbers: &Numbers,
) -> Result<Vec<u8>, Stop>
    ensures { Tells (IsAppraised numbers.now lengths.now files.now) (listed result) }
{
    let Some(settings) = settings_of(numbers) else {
        return Err(Stop::Misused);
    };
    let Handed { apt, other, more } = hand_over(alloc, files, lengths)?;
    let number = more.len();
    if number == 0 {
        return Err(Stop::Misused);
    }
    if number > 64 {
        return Err(Stop::Misused);
    }
    let files = Opened {
        apt,
        journals: more,
        own: (other, number as u32 + 1),
    };
    let mut text = Vec::new(alloc);
    let outcome = run_appraise(&OneThread, alloc, &settings, files, &mut text);
    ended(outcome, text)
}

/// The table of a comparison.
#[tactic(auto, using(crate::proofs::Ran::refusals))]
fn compared(alloc: Global, files: &[u8], lengths: &[usize], pair: &Pair) -> Result<Vec<u8>, Stop>
    ensures { Tells (IsCompared pair.now lengths.now files.now) (listed result) }
{
    let Some(first) = settings_of(&pair.first) else {
        return Err(Stop::Misused);
    };
    let Some(second) = settings_of(&pair.second) else {
        return Err(Stop::Misused);
    };
    let task = CompareTask {
        first,
        second,
        apt: "",
        journals: ["", ""],
        threads: None,
    };
    let Handed {
        mut apt,
        other,
        more,
    } = hand_over(alloc, files, lengths)?;
    if more.len() != 1 {
        return Err(Stop::Misused);
    }
    let mut journals = [other, more[0]];
    let journals = journals.as_mut_slice();
    let mut text = Vec::new(alloc);
    let outcome = run_compare(&OneThread, alloc, &task, &mut apt, journals, &mut text);
    ended(in_terms(outcome), text)
}

/// Checks a journal by its instruction, by stem files and by a rule, as the program's `check` does. `files` has the
/// bytes of the instruction file, of the journal and of stem files, if there are some, one after the other, and
/// `lengths` the length of each in bytes. The line of a lawful journal that is tied to them, or of a fault, goes to the
/// start of `out`, and its length to `written`. The answer is the program's exit status, 6 if `out` is too small:
/// then nothing else is written, or 8 if the run isn't as [`Run`] says, there are not these files, or the lengths
/// aren't those of the bytes: then no text is put.
#[tactic(auto, using(crate::proofs::Ran::told))]
pub fn buckfleet_check_with(
    alloc: Global,
    files: &[u8],
    lengths: &[usize],
    run: &Run,
    out: &mut [u8],
    written: &mut usize,
) -> u8
    ensures { IsPut (IsCheckedWith run.now lengths.now files.now) out.old out.new written.new result }
{
    let answer = checked_with(alloc, files, lengths, run);
    put_answer(alloc, answer, out, written)
}

/// Says what journals bring under an owner's contract, as the program's `appraise` does. `files` has the bytes of the
/// instruction file, of the contract, and of 1 to 64 journals; all else is as of [`buckfleet_check_with`].
#[tactic(auto, using(crate::proofs::Ran::told))]
pub fn buckfleet_appraise(
    alloc: Global,
    files: &[u8],
    lengths: &[usize],
    numbers: &Numbers,
    out: &mut [u8],
    written: &mut usize,
) -> u8
    ensures { IsPut (IsAppraised numbers.now lengths.now files.now) out.old out.new written.new result }
{
    let answer = appraised(alloc, files, lengths, numbers);
    put_answer(alloc, answer, out, written)
}

/// Sets two journals of one instruction side by side, as the program's `compare` does. `files` has the bytes of the
/// instruction file and of the two journals; all else is as of [`buckfleet_check_with`].
#[tactic(auto, using(crate::proofs::Ran::told))]
pub fn buckfleet_compare(
    alloc: Global,
    files: &[u8],
    lengths: &[usize],
    pair: &Pair,
    out: &mut [u8],
    written: &mut usize,
) -> u8
    ensures { IsPut (IsCompared pair.now lengths.now files.now) out.old out.new written.new result }
{
    let answer = compared(alloc, files, lengths, pair);
    put_answer(alloc, answer, out, written)
}
