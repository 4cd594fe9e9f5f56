//! The appraisal of lawful journals under an owner's instruction.
ghost use Rattle.std.specs.Prelude.{◌≡◌, ℕ, ◌+◌, ◌*◌, ◌<◌, ◌≤◌, List, ◌∷◌, [], ◌++◌, All, IfOk, IfSome, OnOk, length};
ghost use Rattle.std.specs.Ordering.{nat_cmp};
ghost use Rattle.std.specs.BTreeMap.{get};
ghost use Rattle.buck_apt_instruction.specs.Instruction.{InstructionParts};
ghost use Rattle.buck_dp.specs.Best.{IsAdmissible};
ghost use Rattle.buck_book_postings.specs.declared.posting.Posting.{Posting};
ghost use Rattle.buck_book_postings.specs.declared.posting.Posting.TheVariants.{Cut};
ghost use Rattle.buck_book_postings.specs.declared.posting.TheConstants.{MOST_POSTINGS};
ghost use Rattle.buck_book_postings.specs.History.{IsLawful};
ghost use Rattle.buck_book_journal.specs.Journal.{history_of};
ghost use Rattle.buck_page_figures.specs.Figures.{base_sheet};
ghost use Rattle.buck_page_figures.specs.Journals.{postings_of};
ghost use Rattle.buckfleet_terms_files.specs.Own.{HasShapeOf};
ghost use Rattle.buckfleet_proceeds.specs.Appraisal.{IsAppraisal};
ghost use Rattle.buckfleet_proceeds.specs.inner.Logs.{AreFew, AreNone};
ghost use Rattle.buckfleet_proceeds.specs.inner.Passed.{ArePassed, HasRoom, IsAccounted, IsPassable};

use crate::adding::add_own;
use crate::paid::{Account, Paid};
use crate::paying::add_logs;
use buck_apt_instruction::Instruction;
use buck_book_journal::Journal;
use buck_book_postings::{Entry, Posting};
use buck_dp::Planner;
use buck_record::Memory;
use buck_value::Sheet;
use std::alloc::Global;
use std::collections::BTreeMap;
use std::sync::Arc;

/// What a cut comes to. Each of its logs is added to its assortment, and each of the best cutting's. The planner plans
/// at the owner's base prices.
fn account_of_cut(
    alloc: Global,
    assortments: &mut Vec<Paid>,
    best_assortments: &mut Vec<Paid>,
    planner: &mut Planner,
    entry: &Entry,
) -> Result<Account, Memory>
    requires base { planner.old ≡ base_sheet planner.old.instruction }
    requires passable { IsPassable planner.old.instruction (Cut entry.now) }
    requires cut { (length assortments.old.items ≡ length planner.old.instruction.assortments)
        × AreFew 80000000 assortments.old.items }
    requires best { (length best_assortments.old.items ≡ length planner.old.instruction.assortments)
        × AreFew 80000000 best_assortments.old.items }
    ensures same { planner.new ≡ planner.old }
    ensures accounted { IfOk result (IsAccounted planner.old.instruction (Cut entry.now)
        assortments.old.items assortments.new.items best_assortments.old.items best_assortments.new.items) }
{
    // `length` brings that the stem is within its limits, so that there are few logs.
    let _valid = entry.stem.length();
    let (best, _) = planner.best(alloc, &entry.stem)?;
    let sheet = planner.sheet();
    Ok(Account {
        stems: 1,
        cut: add_logs(
            assortments,
            sheet,
            &entry.stem,
            entry.cutting.logs.as_slice(),
        ),
        best: add_logs(best_assortments, sheet, &entry.stem, best.logs.as_slice()),
    })
}

/// What a posting comes to. A demand cuts nothing.
fn account_of(
    alloc: Global,
    assortments: &mut Vec<Paid>,
    best_assortments: &mut Vec<Paid>,
    planner: &mut Planner,
    posting: &Posting,
) -> Result<Account, Memory>
    requires base { planner.old ≡ base_sheet planner.old.instruction }
    requires passable { IsPassable planner.old.instruction posting.now }
    requires cut { (length assortments.old.items ≡ length planner.old.instruction.assortments)
        × AreFew 80000000 assortments.old.items }
    requires best { (length best_assortments.old.items ≡ length planner.old.instruction.assortments)
        × AreFew 80000000 best_assortments.old.items }
    ensures same { planner.new ≡ planner.old }
    ensures accounted { IfOk result (IsAccounted planner.old.instruction posting.now
        assortments.old.items assortments.new.items best_assortments.old.items best_assortments.new.items) }
{
    match posting {
        Posting::Cut(entry) => account_of_cut(alloc, assortments, best_assortments, planner, entry),
        Posting::Demand(_) => Ok(Account::NONE),
    }
}

/// The appraisal of journals under an owner's instruction.
#[derive(Drop)]
pub struct Appraisal {
    /// By the harvester's number, from 1: those that have a posting.
    pub harvesters: BTreeMap<u32, Account>,
    /// The logs as cut, for each assortment.
    pub assortments: Vec<Paid>,
    /// The logs of the best cuttings, for each assortment.
    pub best_assortments: Vec<Paid>,
    pub total: Account,
}

/// What no log of each assortment comes to.
fn no_parts(alloc: Global, own: &Instruction) -> Result<Vec<Paid>, Memory>
    ensures { IfOk result (λ parts. AreNone own.now parts.items) }
{
    let assortments = own.assortments().len();
    Ok(vec![in alloc; Paid::NONE; assortments]?)
}

/// Of no posting.
fn no_appraisal(alloc: Global, own: &Instruction) -> Result<Appraisal, Memory>
    ensures { IfOk result (ArePassed own.now []) }
{
    Ok(Appraisal {
        harvesters: BTreeMap::new(alloc),
        assortments: no_parts(alloc, own)?,
        best_assortments: no_parts(alloc, own)?,
        total: Account::NONE,
    })
}

/// Adds a posting.
fn add_posting(
    alloc: Global,
    appraisal: &mut Appraisal,
    planner: &mut Planner,
    posting: &Posting,
) -> Result<(), Memory>
    requires base { planner.old ≡ base_sheet planner.old.instruction }
    requires passable { IsPassable planner.old.instruction posting.now }
    requires room { HasRoom planner.old.instruction (posting.now ∷ []) appraisal.old }
    ensures same { planner.new ≡ planner.old }
    ensures passed { OnOk result ((ps : List Posting) → ArePassed planner.old.instruction ps appraisal.old
        → ArePassed planner.old.instruction (ps ++ posting.now ∷ []) appraisal.new) }
{
    let cut = &mut appraisal.assortments;
    let best = &mut appraisal.best_assortments;
    let account = account_of(alloc, cut, best, planner, posting)?;
    add_own(&mut appraisal.harvesters, posting.harvester(), &account)?;
    appraisal.total = appraisal.total.plus(&account);
    Ok(())
}

/// Adds the postings of a journal.
fn add_journal(
    alloc: Global,
    appraisal: &mut Appraisal,
    planner: &mut Planner,
    journal: &Journal,
) -> Result<(), Memory>
    requires base { planner.old ≡ base_sheet planner.old.instruction }
    requires passable { All (λ x. IsPassable planner.old.instruction x) journal.now.entries }
    requires room { HasRoom planner.old.instruction journal.now.entries appraisal.old }
    ensures same { planner.new ≡ planner.old }
    ensures passed { OnOk result ((ps : List Posting) → ArePassed planner.old.instruction ps appraisal.old
        → ArePassed planner.old.instruction (ps ++ journal.now.entries) appraisal.new) }
{
    for posting in journal.entries.as_slice() {
        add_posting(alloc, appraisal, planner, posting)?;
    }
    Ok(())
}

/// A planner at an instruction's base prices.
fn base_planner(alloc: Global, instruction: Instruction) -> Result<Planner, Memory>
    ensures { IfOk result (λ planner. planner ≡ base_sheet instruction) }
{
    let base = Sheet::base(alloc, Arc::new(alloc, instruction)?)?;
    Ok(Planner::make(alloc, Arc::new(alloc, base)?)?)
}

/// Appraises journals of at most 1,000,000 postings together under an owner's instruction, beside the best cuttings
/// under it: plans each stem once more. The journals are each lawful for an instruction beside which the owner's may
/// stand. No loss of a harvester or of all is below 0. Refused as `Memory` alone.
pub fn appraise(alloc: Global, own: Instruction, journals: &[Journal]) -> Result<Appraisal, Memory>
    requires few { length (postings_of journals.now) ≤ MOST_POSTINGS }
    requires lawful { (i : InstructionParts) × HasShapeOf i own × All (λ j. IsLawful (history_of i j)) journals.now }
    ensures appraisal { IfOk result (IsAppraisal own (postings_of journals.now)) }
    ensures none_lost { IfOk result (λ p. (p.total.cut.worth ≤ p.total.best.worth)
        × ((h : ℕ) → IfSome (get nat_cmp p.harvesters h) (λ a. a.cut.worth ≤ a.best.worth))) }
{
    let mut appraisal = no_appraisal(alloc, &own)?;
    let mut planner = base_planner(alloc, own)?;
    for journal in journals {
        add_journal(alloc, &mut appraisal, &mut planner, journal)?;
    }
    Ok(appraisal)
}
