//! Wrong answers about cuttings: what is admissible, what a cutting is worth, and which is the first of the best.
ghost use Rattle.std.specs.Prelude.{◌≡◌, ◌<◌, ◌↔◌, IsTrue, List, [], ◌∷◌};
ghost use Rattle.buck_value.specs.declared.log.Log.{Log};
ghost use Rattle.buck_value.specs.Allowed.{IsAllowed, top_of, end_of, trim_of, worth_of};
ghost use Rattle.buck_dp.specs.Best.{IsAdmissible, IsFirstBest, cutting_worth};
ghost use Rattle.buck_dp.specs.Order.{IsLogBefore};

use buck_dp::{Cutting, Planner, admissible, best, worth, worth_if_admissible};
use buck_record::Memory;
use buck_stem_shape::Stem;
use buck_value::{Log, Sheet, log_worth};
use std::alloc::Global;
use std::sync::Arc;

/// Whether two lists of logs are equal.
fn are_same(these: &[Log], those: &[Log]) -> bool
    ensures { IsTrue result ↔ (these.now ≡ those.now) }
{
    if these.len() != those.len() {
        return false;
    }
    for i in 0..these.len() {
        if these[i] != those[i] {
            return false;
        }
    }
    true
}

/// A log that starts before the end of the one before is let in.
pub fn admissible_lets_logs_overlap(
    sheet: &Sheet,
    stem: &Stem,
    cutting: &Cutting,
    first: &Log,
    second: &Log,
)
    requires logs { cutting.now.logs.items ≡ first.now ∷ second.now ∷ [] }
    requires overlap { second.now.start < end_of sheet.now.instruction first.now }
{
    let right = admissible(sheet, stem, cutting);
    let wrong = true;
    prove!(right != wrong);
}

/// A log is let in that starts in the trim of the one before.
pub fn end_of_without_trim(sheet: &Sheet, stem: &Stem, cutting: &Cutting, first: &Log, second: &Log)
    requires logs { cutting.now.logs.items ≡ first.now ∷ second.now ∷ [] }
    requires at_the_top { second.now.start ≡ top_of first.now }
    requires trim { 0 < trim_of sheet.now.instruction first.now }
{
    let right = admissible(sheet, stem, cutting);
    let wrong = true;
    prove!(right != wrong);
}

/// A log that isn't allowed is let in.
pub fn admissible_lets_any_log_in(sheet: &Sheet, stem: &Stem, cutting: &Cutting, log: &Log)
    requires logs { cutting.now.logs.items ≡ log.now ∷ [] }
    requires not_allowed { IsAllowed sheet.now.instruction stem.now log.now → ⊥ }
{
    let right = admissible(sheet, stem, cutting);
    let wrong = true;
    prove!(right != wrong);
}

/// A cutting of no log is refused.
pub fn empty_cutting_refused(alloc: Global, sheet: &Sheet, stem: &Stem) {
    let none = Cutting {
        logs: Vec::new(alloc),
    };
    let right = admissible(sheet, stem, &none);
    let wrong = false;
    prove!(right != wrong);
}

/// A cutting of no log has no worth.
pub fn cutting_of_no_log_without_worth(alloc: Global, sheet: &Sheet, stem: &Stem) {
    let none = Cutting {
        logs: Vec::new(alloc),
    };
    let right = worth_if_admissible(sheet, stem, &none);
    let wrong: Option<u64> = None;
    prove!(right != wrong);
}

/// The last log alone is counted.
pub fn worth_of_the_last_log_alone(
    sheet: &Sheet,
    stem: &Stem,
    cutting: &Cutting,
    first: &Log,
    last: &Log,
)
    requires admissible { IsAdmissible sheet.now stem.now cutting.now.logs.items }
    requires logs { cutting.now.logs.items ≡ first.now ∷ last.now ∷ [] }
    requires dear { 0 < worth_of sheet.now stem.now first.now }
{
    let right = worth(sheet, stem, cutting);
    let wrong = log_worth(sheet, stem, last);
    prove!(right != wrong);
}

/// No log at all, though one that is worth something may be cut.
pub fn greedy_or_empty_cutting_empty(
    alloc: Global,
    sheet: &Sheet,
    stem: &Stem,
    log: &Log,
) -> Result<(), Memory>
    requires allowed { IsAllowed sheet.now.instruction stem.now log.now }
    requires dear { 0 < worth_of sheet.now stem.now log.now }
{
    let (cutting, _worth) = best(alloc, sheet, stem)?;
    let right = are_same(cutting.logs.as_slice(), &[]);
    let wrong = true;
    prove!(right != wrong);
    Ok(())
}

/// The dearest log is taken, though other logs are worth more together.
pub fn greedy_or_empty_cutting_dearest(
    alloc: Global,
    sheet: &Sheet,
    stem: &Stem,
    dearest: &Log,
    others: &Cutting,
) -> Result<(), Memory>
    requires admissible { IsAdmissible sheet.now stem.now others.now.logs.items }
    requires more { worth_of sheet.now stem.now dearest.now
        < cutting_worth sheet.now stem.now others.now.logs.items }
{
    let (cutting, _worth) = best(alloc, sheet, stem)?;
    let right = are_same(cutting.logs.as_slice(), &[*dearest]);
    let wrong = true;
    prove!(right != wrong);
    Ok(())
}

/// An admissible cutting that is worth more is missed.
pub fn dearer_cutting_missed(
    alloc: Global,
    sheet: &Sheet,
    stem: &Stem,
    dearer: &Cutting,
    cheaper: &Cutting,
) -> Result<(), Memory>
    requires admissible { IsAdmissible sheet.now stem.now dearer.now.logs.items }
    requires less { cutting_worth sheet.now stem.now cheaper.now.logs.items
        < cutting_worth sheet.now stem.now dearer.now.logs.items }
{
    let (cutting, _worth) = best(alloc, sheet, stem)?;
    let right = are_same(cutting.logs.as_slice(), cheaper.logs.as_slice());
    let wrong = true;
    prove!(right != wrong);
    Ok(())
}

/// A cutting that isn't admissible is given.
pub fn cutting_of_any_logs(
    alloc: Global,
    sheet: &Sheet,
    stem: &Stem,
    others: &Cutting,
) -> Result<(), Memory>
    requires { IsAdmissible sheet.now stem.now others.now.logs.items → ⊥ }
{
    let (cutting, _worth) = best(alloc, sheet, stem)?;
    let right = are_same(cutting.logs.as_slice(), others.logs.as_slice());
    let wrong = true;
    prove!(right != wrong);
    Ok(())
}

/// Of two logs of which each alone would be best, the later one is taken.
pub fn last_of_ties(
    alloc: Global,
    sheet: &Sheet,
    stem: &Stem,
    early: &Log,
    late: &Log,
) -> Result<(), Memory>
    requires allowed { IsAllowed sheet.now.instruction stem.now early.now }
    requires tie { worth_of sheet.now stem.now early.now ≡ worth_of sheet.now stem.now late.now }
    requires before { IsLogBefore early.now late.now }
{
    let (cutting, _worth) = best(alloc, sheet, stem)?;
    let right = are_same(cutting.logs.as_slice(), &[*late]);
    let wrong = true;
    prove!(right != wrong);
    Ok(())
}

/// A log that is allowed and worth nothing is left out.
pub fn zero_log_left_out(alloc: Global, sheet: &Sheet, stem: &Stem, log: &Log) -> Result<(), Memory>
    requires allowed { IsAllowed sheet.now.instruction stem.now log.now }
    requires free { worth_of sheet.now stem.now log.now ≡ 0 }
{
    let (cutting, _worth) = best(alloc, sheet, stem)?;
    let right = are_same(cutting.logs.as_slice(), &[]);
    let wrong = true;
    prove!(right != wrong);
    Ok(())
}

/// The worth is that of no log, though one that is worth something may be cut.
pub fn worth_of_the_top_row(
    alloc: Global,
    sheet: &Sheet,
    stem: &Stem,
    log: &Log,
) -> Result<(), Memory>
    requires allowed { IsAllowed sheet.now.instruction stem.now log.now }
    requires dear { 0 < worth_of sheet.now stem.now log.now }
{
    let (_cutting, right) = best(alloc, sheet, stem)?;
    let wrong = 0;
    prove!(right != wrong);
    Ok(())
}

/// A planner leaves a stem whole, though a log that is worth something may be cut.
pub fn wanted_species_left(
    alloc: Global,
    planner: &mut Planner,
    stem: &Stem,
    log: &Log,
) -> Result<(), Memory>
    requires allowed { IsAllowed planner.old.instruction stem.now log.now }
    requires dear { 0 < worth_of planner.old stem.now log.now }
{
    let (cutting, _worth) = planner.best(alloc, stem)?;
    let right = are_same(cutting.logs.as_slice(), &[]);
    let wrong = true;
    prove!(right != wrong);
    Ok(())
}

/// A planner goes on under the sheet that it had before it was renewed.
pub fn tables_of_another_sheet(
    alloc: Global,
    planner: &mut Planner,
    sheet: Arc<Sheet>,
    stem: &Stem,
) -> Result<(), Memory>
    requires { (logs : List Log) → IsFirstBest planner.old stem.now logs
        → IsFirstBest sheet.value stem.now logs → ⊥ }
{
    let (before, _worth) = planner.best(alloc, stem)?;
    planner.renew(alloc, sheet)?;
    let (after, _worth) = planner.best(alloc, stem)?;
    let right = are_same(after.logs.as_slice(), before.logs.as_slice());
    let wrong = true;
    prove!(right != wrong);
    Ok(())
}
