//! The text of a bucking.
ghost use Rattle.std.specs.Prelude.{◌≡◌, ◌++◌, ◌+◌, ◌<◌, ◌^◌, ◌∷◌, [], IfOk, OnOk, All, codes};
ghost use Rattle.std.specs.List.{flat_map};
ghost use Rattle.std.specs.Thread.{IsSync};
ghost use Rattle.buck_record.specs.writing.Written.{spelled};
ghost use Rattle.buck_value.specs.Allowed.{IsAllowed};
ghost use Rattle.buckfleet_engine_text.specs.inner.Text.{AreLinesOf, AreRunsOf, IsPut};
ghost use Rattle.buckfleet_engine_text.specs.Text.{joined};
ghost use Rattle.buckfleet_engine_text.specs.Bucking.{IsBuckText, IsTextUnder, base_sheet, log_line, named_line_of, stem_line, total_line};

use crate::fault::TextFault;
use buck_apt_instruction::Instruction;
use buck_dp::Planner;
use buck_record::{Memory, put_line, put_number, put_numbers};
use buck_stem_shape::Stem;
use buck_value::{Log, Sheet, Valuation, valuation_of_allowed};
use std::alloc::Global;
use std::sync::Arc;
use std::thread;
use std::thread::Threads;

/// The lines of stems that were cut one after the other, how many logs there are, and their worth.
#[derive(Drop)]
struct Lines {
    text: Vec<u8>,
    logs: u128,
    worth: u128,
}

/// Puts a name behind a space, and ends the line.
fn end_with_name(out: &mut Vec<u8>, name: &[u8]) -> Result<(), Memory>
    ensures { OnOk result (out.new.items ≡ out.old.items ++ (codes " " ++ (name.now ++ codes "\n"))) }
{
    out.push(b' ')?;
    out.extend_from_slice(name)?;
    out.push(b'\n')?;
    Ok(())
}

/// Puts a line that ends with a name.
pub(crate) fn put_named_line(
    out: &mut Vec<u8>,
    words: &[u8],
    numbers: &[u128],
    name: &[u8],
) -> Result<(), Memory>
    ensures { OnOk result (out.new.items ≡ out.old.items ++ named_line_of words.now numbers.now name.now) }
{
    out.extend_from_slice(words)?;
    put_numbers(out, numbers)?;
    end_with_name(out, name)
}

/// Puts three numbers in decimal, each after a space.
#[inline(always)]
fn put_three(out: &mut Vec<u8>, first: u64, second: u64, third: u64) -> Result<(), Memory>
    ensures { OnOk result (out.new.items ≡ out.old.items ++ spelled (first ∷ second ∷ third ∷ [])) }
{
    // One by one: a list of them would be written in a loop, which costs a hundredth of `buck`.
    put_number(out, u128::from(first))?;
    put_number(out, u128::from(second))?;
    put_number(out, u128::from(third))
}

/// Puts the numbers of a log's line.
#[inline(always)]
fn put_numbers_of(out: &mut Vec<u8>, log: &Log, found: Valuation) -> Result<(), Memory>
    ensures { OnOk result (out.new.items ≡ out.old.items ++ spelled
        (log.now.start ∷ log.now.length ∷ found.top
        ∷ found.class.row ∷ found.class.column ∷ found.worth ∷ [])) }
{
    put_three(out, log.start.into(), log.length.into(), found.top.into())?;
    put_three(
        out,
        found.class.row.into(),
        found.class.column.into(),
        found.worth,
    )
}

/// Puts the line of a log of the assortment of this name, which was found to be so.
fn put_found(out: &mut Vec<u8>, log: &Log, found: Valuation, name: &[u8]) -> Result<(), Memory>
    ensures { OnOk result (out.new.items ≡ out.old.items ++ named_line_of (codes "LOG")
        (log.now.start ∷ log.now.length ∷ found.top
        ∷ found.class.row ∷ found.class.column ∷ found.worth ∷ []) name.now) }
{
    out.extend_from_slice(b"LOG")?;
    put_numbers_of(out, log, found)?;
    end_with_name(out, name)
}

/// Puts the line of a log.
#[tactic(auto, unfolding(crate::specs::Bucking::log_line))]
fn put_log(out: &mut Vec<u8>, sheet: &Sheet, stem: &Stem, log: &Log) -> Result<(), Memory>
    requires { IsAllowed sheet.now.instruction stem.now log.now }
    ensures { OnOk result (out.new.items ≡ out.old.items ++ log_line sheet.now stem.now log.now) }
{
    let found = valuation_of_allowed(sheet, stem, log);
    let assortment = &sheet.instruction().assortments()[log.assortment as usize];
    put_found(out, log, found, assortment.name())
}

/// Puts a line for each log, as [`buck_text`] does, by the prices of a sheet. `Memory` if an allocation failed.
pub fn put_logs(out: &mut Vec<u8>, sheet: &Sheet, stem: &Stem, logs: &[Log]) -> Result<(), Memory>
    requires { All (λ g. IsAllowed sheet.now.instruction stem.now g) logs.now }
    ensures { OnOk result (out.new.items ≡ out.old.items ++ flat_map (log_line sheet.now stem.now) logs.now) }
{
    for log in logs {
        put_log(out, sheet, stem, log)?;
    }
    Ok(())
}

/// Puts the line of a stem, as [`buck_text`] does: it says how many logs there are and their worth. `Memory` if an
/// allocation failed.
#[tactic(auto, unfolding(crate::specs::Bucking::stem_line))]
pub fn put_stem(out: &mut Vec<u8>, stem: &Stem, logs: usize, worth: u64) -> Result<(), Memory>
    ensures { OnOk result (out.new.items ≡ out.old.items ++ stem_line stem.now logs worth) }
{
    let number = u128::from(stem.number());
    let length = u128::from(stem.length());
    put_line(
        out,
        b"STEM",
        &[number, length, logs as u128, u128::from(worth)],
    )
}

/// Puts the line of the total.
#[tactic(auto, unfolding(crate::specs::Bucking::total_line))]
pub(crate) fn put_total(
    out: &mut Vec<u8>,
    stems: usize,
    logs: u128,
    worth: u128,
) -> Result<(), Memory>
    ensures { OnOk result (out.new.items ≡ out.old.items ++ total_line stems logs worth) }
{
    put_line(out, b"TOTAL", &[stems as u128, logs, worth])
}

/// Cuts a stem, and puts its lines. The answer is how many logs there are, and their worth.
fn put_cut(
    alloc: Global,
    out: &mut Vec<u8>,
    planner: &mut Planner,
    stem: &Stem,
) -> Result<(usize, u64), Memory>
    ensures same { planner.new ≡ planner.old }
    ensures put { IfOk result (λ cut. IsPut planner.old stem.now out.old.items out.new.items cut.0 cut.1) }
    ensures logs_fit { IfOk result (λ cut. cut.0 < 2 ^ 64) }
    ensures worth_fits { IfOk result (λ cut. cut.1 < 2 ^ 64) }
{
    let (cutting, worth) = planner.best(alloc, stem)?;
    let logs = cutting.logs.as_slice();
    put_stem(out, stem, logs.len(), worth)?;
    put_logs(out, planner.sheet(), stem, logs)?;
    Ok((logs.len(), worth))
}

/// The sheet of the base prices.
fn base_sheet(alloc: Global, instruction: &Instruction) -> Result<Arc<Sheet>, Memory>
    ensures { IfOk result (λ sheet. sheet.value ≡ base_sheet instruction.now) }
{
    let shared = Arc::new(alloc, instruction.copy(alloc)?)?;
    let sheet = Sheet::base(alloc, shared)?;
    Ok(Arc::new(alloc, sheet)?)
}

/// Cuts stems one after the other under a sheet, and puts their lines.
fn lines_under(alloc: Global, sheet: Arc<Sheet>, stems: &[Stem]) -> Result<Lines, Memory>
    ensures { IfOk result (λ lines. AreLinesOf sheet.value stems.now lines) }
{
    let mut text = Vec::new(alloc);
    let mut logs = 0;
    let mut worth = 0;
    let mut planner = Planner::make(alloc, sheet)?;
    for stem in stems {
        let (count, value) = put_cut(alloc, &mut text, &mut planner, stem)?;
        logs += count as u128;
        worth += u128::from(value);
    }
    Ok(Lines { text, logs, worth })
}

/// The text of stems whose lines are these: the lines, and then the total.
fn text_of(lines: Lines, stems: usize) -> Result<Vec<u8>, Memory>
    ensures { IfOk result (λ text. text.items ≡ lines.text.items ++ total_line stems lines.logs lines.worth) }
{
    let Lines {
        mut text,
        logs,
        worth,
    } = lines;
    put_total(&mut text, stems, logs, worth)?;
    Ok(text)
}

/// The text of the stems, bucked under a sheet.
fn text_under(alloc: Global, sheet: Arc<Sheet>, stems: &[Stem]) -> Result<Vec<u8>, Memory>
    ensures { IfOk result (λ text. IsTextUnder sheet.value stems.now text.items) }
{
    let lines = lines_under(alloc, sheet, stems)?;
    text_of(lines, stems.len())
}

/// What was cut of runs of neighbours: the lines of each run, and how many logs there are and their worth together.
#[derive(Drop)]
struct Runs {
    texts: Vec<Vec<u8>>,
    logs: u128,
    worth: u128,
}

/// Cuts stems one after the other under a sheet that others share, and gives them up: a thread frees its own stems.
fn run_of(alloc: Global, sheet: &Arc<Sheet>, stems: Vec<Stem>) -> Result<Runs, Memory>
    ensures { IfOk result (AreRunsOf sheet.now.value stems.items) }
{
    let Lines { text, logs, worth } = lines_under(alloc, sheet.clone()?, stems.as_slice())?;
    let mut texts = Vec::new(alloc);
    texts.push(text)?;
    Ok(Runs { texts, logs, worth })
}

/// Puts what was cut of the next runs behind that of the runs before them.
fn put_runs(runs: &mut Runs, mut more: Runs) -> Result<(), Memory>
    requires { (runs.old.logs + more.logs < 2 ^ 128) × (runs.old.worth + more.worth < 2 ^ 128) }
    ensures texts { OnOk result (joined runs.new.texts.items ≡ joined runs.old.texts.items ++ joined more.texts.items) }
    ensures logs { OnOk result (runs.new.logs ≡ runs.old.logs + more.logs) }
    ensures worth { OnOk result (runs.new.worth ≡ runs.old.worth + more.worth) }
{
    runs.texts.append(&mut more.texts)?;
    runs.logs += more.logs;
    runs.worth += more.worth;
    Ok(())
}

/// Cuts stems under a sheet, in at most so many threads at once, a run of neighbours in each.
fn runs_of<T: Threads + Sync>(
    rt: &T,
    alloc: Global,
    sheet: &Arc<Sheet>,
    mut stems: Vec<Stem>,
    threads: usize,
) -> Result<Runs, Memory>
    ensures { IfOk result (AreRunsOf sheet.now.value stems.items) }
{
    if threads < 2 {
        return run_of(alloc, sheet, stems);
    }
    // Divided first: so no product is above the length.
    let back = stems.split_off(stems.len() / threads * (threads / 2))?;
    let (first, second) = thread::join(
        rt,
        move || -> Result<Runs, Memory>
            requires { IsSync T.row }
            ensures { IfOk result (AreRunsOf sheet.entry.now.value stems.items) }
        { runs_of(rt, alloc, sheet, stems, threads / 2) },
        move || -> Result<Runs, Memory>
            requires { IsSync T.row }
            ensures { IfOk result (AreRunsOf sheet.entry.now.value back.items) }
        { runs_of(rt, alloc, sheet, back, threads - threads / 2) },
    );
    let mut runs = first?;
    let more = second?;
    put_runs(&mut runs, more)?;
    Ok(runs)
}

/// The text of the stems in file order, each bucked under the base prices by the first of its best cuttings:
///
/// ```text
/// STEM <stem number> <stem length> <number of logs> <worth>
/// LOG <start> <length> <top diameter> <row> <column> <worth> <assortment name>
/// TOTAL <stems> <logs> <worth>
/// ```
///
/// a `STEM` line for each stem with a `LOG` line for each of its logs, from the butt on, and the `TOTAL` once. Places,
/// lengths and diameters are in mm, worths in millionths of the price unit. `Memory` if an allocation failed.
pub fn buck_text(
    alloc: Global,
    instruction: &Instruction,
    stems: &[Stem],
) -> Result<Vec<u8>, TextFault>
    ensures { IfOk result (λ text. IsBuckText instruction.now stems.now text.items) }
{
    let sheet = base_sheet(alloc, instruction)?;
    Ok(text_under(alloc, sheet, stems)?)
}

/// The pieces of the text of stems that were cut in runs: their lines, and then the total.
fn with_total(alloc: Global, runs: Runs, stems: usize) -> Result<Vec<Vec<u8>>, Memory>
    ensures { IfOk result (λ pieces. joined pieces.items
        ≡ joined runs.texts.items ++ total_line stems runs.logs runs.worth) }
{
    let Runs {
        mut texts,
        logs,
        worth,
    } = runs;
    let mut total = Vec::new(alloc);
    put_total(&mut total, stems, logs, worth)?;
    texts.push(total)?;
    Ok(texts)
}

/// The fewest stems that are worth a thread of their own.
const FEWEST: usize = 64;

/// The text of [`buck_text`], for which stems are cut in at most so many threads at once, in pieces: one for each
/// thread, and last the total. The stems are freed by the threads that cut them.
pub fn buck_text_in_parts<T: Threads + Sync>(
    rt: &T,
    alloc: Global,
    instruction: &Instruction,
    stems: Vec<Stem>,
    threads: usize,
) -> Result<Vec<Vec<u8>>, TextFault>
    ensures { IfOk result (λ pieces. IsBuckText instruction.now stems.items (joined pieces.items)) }
{
    let sheet = base_sheet(alloc, instruction)?;
    let count = stems.len();
    let runs = runs_of(rt, alloc, &sheet, stems, threads.min(count / FEWEST))?;
    Ok(with_total(alloc, runs, count)?)
}
