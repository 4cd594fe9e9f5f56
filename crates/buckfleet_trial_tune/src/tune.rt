//! Prices tuned on stems.
ghost use Rattle.std.specs.Prelude.{◌≡◌, ◌≤◌, All, IfErr, IfOk, length, map, slice_index};
ghost use Rattle.buck_value.specs.Sheet.{base_prices};
ghost use Rattle.buck_book_postings.specs.History.{prices_at, version_of};
ghost use Rattle.buck_book_postings.specs.Posting.{planned_version};
ghost use Rattle.buckfleet_engine_files.specs.Written.{WritesText};
ghost use Rattle.buckfleet_trial_sweep.specs.Runs.{IsStop};
ghost use Rattle.buckfleet_terms_files.specs.Telling.{WritesTerms};
ghost use Rattle.buckfleet_trial.specs.Inputs.{held_with};
ghost use Rattle.buckfleet_trial_tune.specs.Serving.{RunsTune};
ghost use Rattle.buckfleet_trial_tune.specs.Tune.{AnswersTune, AreTuned, IsTunedText, price_sum, tuned_price};
ghost use Rattle.buckfleet_trial.specs.Running.{AnswersOver};

use buck_apt::instruction_text;
use buck_book_postings::{Parts, Posting};
use buck_page_figures::number_at;
use buck_page_text::half_up;
use buck_record::Memory;
use buck_stem_shape::Stem;
use buck_value::Sheet;
use buckfleet_engine_files::{EngineFault, Onlooker, Open, SeveralThreads, Workers, write_text};
use buckfleet_engine_input::Input;
use buckfleet_tasks::TuneTask;
use buckfleet_terms_files::TermsFault;
use buckfleet_trial::{Opened, cut_by_name, of_run, open_files, read_files};
use std::alloc::Global;
use std::io;
use std::sync::Arc;
use std::thread::Threads;

/// The most that a base price may be.
const MOST_PRICE: u128 = 10_000_000;

/// The version of the sheet that was in force for a posting.
fn version_for(posting: &Posting) -> u32
    ensures { result ≡ planned_version posting.now }
{
    match posting {
        Posting::Cut(entry) => entry.version,
        Posting::Demand(demand) => demand.version,
    }
}

/// The price of a class that was in force for a posting.
#[tactic(auto, using(crate::proofs::Tuned::shown_within, crate::proofs::Tuned::shown_is))]
fn price_for(parts: &Parts, posting: &Posting, class: usize) -> u32
    requires { planned_version posting.now ≤ version_of parts.now }
    ensures { result ≡ slice_index (prices_at parts.now.sheets (planned_version posting.now)) class }
{
    let sheet = &parts.sheets()[version_for(posting) as usize];
    number_at(sheet.prices(), class)
}

/// The prices of a class that were in force for each posting, together.
fn price_sum(parts: &Parts, class: usize) -> u64
    ensures { result ≡ price_sum parts.now class }
{
    let mut all: u64 = 0;
    for posting in parts.entries() {
        all += u64::from(price_for(parts, posting, class));
    }
    all
}

/// The new base price of a class that has this one.
fn tuned_price(parts: &Parts, class: usize, base: u32) -> u32
    requires base { base ≡ slice_index (base_prices parts.now.instruction) class }
    requires low { base ≤ 10000000 }
    ensures price { result ≡ tuned_price parts.now class }
    ensures low { result ≤ 10000000 }
{
    let number = parts.entries().len();
    if base == 0 {
        return base;
    }
    if number == 0 {
        return base;
    }
    let mean = half_up(u128::from(price_sum(parts, class)), number as u128);
    mean.max(1).min(MOST_PRICE) as u32
}

/// The base prices that a history tunes, one for each class, assortment by assortment and row by row: that of a class
/// is the mean of its prices in force over all postings, rounded to the nearest, a half upwards, and at least 1 and at
/// most 10,000,000. A class that isn't bought stays so; without postings all prices stay. Refused as `Memory` alone.
#[tactic(auto, using(crate::proofs::Tuned::base_low))]
pub fn tuned_prices(alloc: Global, parts: &Parts) -> Result<Vec<u32>, Memory>
    ensures tuned { IfOk result (λ prices. AreTuned parts.now prices.items) }
    ensures low { IfOk result (λ prices. All (λ p. p ≤ 10000000) prices.items) }
{
    let base = Sheet::base(alloc, parts.instruction().clone()?)?;
    let base = base.prices();
    let mut prices = Vec::new(alloc);
    for class in 0..base.len() {
        prices.push(tuned_price(parts, class, base[class]))?;
    }
    Ok(prices)
}

/// How many stems lists have; only the onlooker needs it.
fn number_of(lists: &[Vec<Arc<Stem>>]) -> usize {
    let mut number = 0usize;
    for list in lists {
        number = number.saturating_add(list.len());
    }
    number
}

/// The text of the instruction that files say, tuned on their stems.
fn text_of<L: Onlooker>(
    alloc: Global,
    task: &TuneTask<'_>,
    onlooker: &L,
    input: &Input,
) -> Result<Vec<u8>, EngineFault>
    requires few { length input.now.lists.items ≤ 64 }
    ensures ok { IfOk result (λ text. IsTunedText task.now.rule task.now.settings input.now.instruction
        input.now.lists.items text.items) }
    ensures stop { IfErr result (IsStop input.now.lists.items) }
{
    onlooker.cutting(number_of(input.lists.as_slice()));
    let own = input.instruction.copy(alloc)?;
    let instruction = Arc::new(alloc, own.with(&task.settings))?;
    let parts = cut_by_name(alloc, &instruction, task.rule, input.lists.as_slice())?;
    let prices = tuned_prices(alloc, &parts)?;
    let tuned = input.instruction.with_prices(alloc, prices.as_slice())?;
    Ok(instruction_text(alloc, &tuned)?)
}

/// Tunes the instruction that files say, and writes it.
fn write_tuned<L: Onlooker, W: io::Write>(
    alloc: Global,
    task: &TuneTask<'_>,
    onlooker: &L,
    input: &Input,
    out: &mut W,
) -> Result<(), EngineFault>
    requires few { length input.now.lists.items ≤ 64 }
    ensures { WritesText (AnswersOver input.now.lists.items (IsTunedText task.now.rule task.now.settings
        input.now.instruction input.now.lists.items)) (W.contents out.old) (W.contents out.new) result }
{
    let text = text_of(alloc, task, onlooker, input)?;
    write_text(out, text.as_slice())
}

/// Reads an instruction file, stem files and a file of targets, if there is one, cuts the stems in turn by a rule,
/// and writes the instruction with other base prices, in its normal form: that of a class is the mean of its prices in
/// force over all stems, rounded to the nearest, a half upwards, and at least 1 and at most 10,000,000. A class that
/// isn't bought stays so, and without stems all prices stay. The targets are those of the file of targets, if there
/// is one; the settings are the run's alone. Nothing is written before the whole text is there.
pub fn run_tune<T: Workers, L: Onlooker, R: io::Read + Drop, W: io::Write>(
    workers: &T,
    alloc: Global,
    task: &TuneTask<'_>,
    onlooker: &L,
    files: Opened<R>,
    out: &mut W,
) -> Result<(), TermsFault>
    requires share { T.can_share }
    // What is written is the text of the instruction that the files have, with prices that are these means over the
    // history of the run; reading it gives that instruction. A fault is that of the first file that has one, or comes
    // after all of them, and nothing is written; a write fault leaves a prefix of the text.
    ensures { WritesTerms (AnswersTune task.now.rule task.now.settings (R.remaining files.apt)
        (map R.remaining files.stms.items) (held_with R.remaining files.targets))
        (W.contents out.old) (W.contents out.new) result }
{
    let input = read_files(workers, alloc, files)?;
    of_run(write_tuned(alloc, task, onlooker, &input, out))
}

/// Tunes an instruction over the files of a task's names. The files are opened as by
/// [`serve_trial`](buckfleet_trial::serve_trial); else the faults are those of [`run_tune`].
pub fn serve_tune<T: Threads + Sync, L: Onlooker, O: Open, W: io::Write>(
    rt: &T,
    alloc: Global,
    task: &TuneTask<'_>,
    onlooker: &L,
    opener: &mut O,
    out: &mut W,
) -> Result<(), TermsFault>
    ensures { RunsTune O.opens O.File.remaining opener.old opener.new task.now
        (W.contents out.old) (W.contents out.new) result }
{
    let stms = task.stms.as_slice();
    let files = open_files(alloc, opener, task.apt, stms, task.targets)?;
    let workers = SeveralThreads::of(rt, task.threads, onlooker);
    run_tune(&workers, alloc, task, onlooker, files, out)
}
