//! Wrong bodies of appraisals of journals under an owner's instruction.
ghost use Rattle.std.specs.Prelude.{◌≡◌, ◌≢◌, ◌≤◌, List, [], All, length, sum_by};
ghost use Rattle.buck_apt_instruction.specs.Instruction.{InstructionParts};
ghost use Rattle.buck_book_postings.specs.Counts.{assortment_logs_in};
ghost use Rattle.buck_book_postings.specs.History.{IsLawful};
ghost use Rattle.buck_book_postings.specs.declared.posting.Posting.{Posting};
ghost use Rattle.buck_book_postings.specs.declared.posting.TheConstants.{MOST_POSTINGS};
ghost use Rattle.buck_book_journal.specs.Journal.{history_of};
ghost use Rattle.buck_page_figures.specs.Figures.{AreUnsteered, at_base_in, cuts_in, logs_in, volume_in};
ghost use Rattle.buck_page_figures.specs.Journals.{postings_of};
ghost use Rattle.buck_page_figures.specs.Owns.{own_of};
ghost use Rattle.buckfleet_terms_files.specs.Own.{HasShapeOf};
ghost use Rattle.buckfleet_proceeds.specs.Paid.{AreAllBought};

use buck_apt_instruction::Instruction;
use buck_book_journal::Journal;
use buckfleet_proceeds::appraise;
use std::alloc::Global;

/// What the best cuttings bring is paid, and not what was cut and bought.
pub fn appraise_pays_the_best_cuttings(alloc: Global, own: Instruction, journals: &[Journal])
    requires few { length (postings_of journals.now) ≤ MOST_POSTINGS }
    requires lawful { (i : InstructionParts) × HasShapeOf i own × All (λ j. IsLawful (history_of i j)) journals.now }
    requires lost { (bought best : List Posting) → AreAllBought own (postings_of journals.now) bought
        → AreUnsteered own (postings_of journals.now) best
        → sum_by (at_base_in own) bought ≢ sum_by (at_base_in own) best }
{
    if let Ok(made) = appraise(alloc, own, journals) {
        let right = made.total.cut.worth;
        let wrong = made.total.best.worth;
        prove!(right != wrong);
    }
}

/// Logs are paid that the owner doesn't buy.
pub fn appraise_pays_unbought_logs(
    alloc: Global,
    own: Instruction,
    journals: &[Journal],
    wrong: u128,
)
    requires few { length (postings_of journals.now) ≤ MOST_POSTINGS }
    requires lawful { (i : InstructionParts) × HasShapeOf i own × All (λ j. IsLawful (history_of i j)) journals.now }
    requires wrong { wrong ≡ sum_by (at_base_in own) (postings_of journals.now) }
    requires unbought { (bought : List Posting) → AreAllBought own (postings_of journals.now) bought
        → sum_by (at_base_in own) bought ≢ wrong }
{
    if let Ok(made) = appraise(alloc, own, journals) {
        let right = made.total.cut.worth;
        prove!(right != wrong);
    }
}

/// Every log counts as bought.
pub fn appraise_counts_no_log_as_unbought(alloc: Global, own: Instruction, journals: &[Journal])
    requires few { length (postings_of journals.now) ≤ MOST_POSTINGS }
    requires lawful { (i : InstructionParts) × HasShapeOf i own × All (λ j. IsLawful (history_of i j)) journals.now }
    requires unbought { (bought : List Posting) → AreAllBought own (postings_of journals.now) bought
        → sum_by logs_in bought ≢ sum_by logs_in (postings_of journals.now) }
{
    if let Ok(made) = appraise(alloc, own, journals) {
        let right = made.total.cut.unbought;
        let wrong = 0;
        prove!(right != wrong);
    }
}

/// The volume is that of the bought logs alone.
pub fn appraise_measures_bought_logs_alone(
    alloc: Global,
    own: Instruction,
    journals: &[Journal],
    wrong: u128,
)
    requires few { length (postings_of journals.now) ≤ MOST_POSTINGS }
    requires lawful { (i : InstructionParts) × HasShapeOf i own × All (λ j. IsLawful (history_of i j)) journals.now }
    requires wrong { (bought : List Posting) → AreAllBought own (postings_of journals.now) bought
        → wrong ≡ sum_by volume_in bought }
    requires unbought { wrong ≢ sum_by volume_in (postings_of journals.now) }
{
    if let Ok(made) = appraise(alloc, own, journals) {
        let right = made.total.cut.volume;
        prove!(right != wrong);
    }
}

/// Less than nothing is lost by a harvester: what was cut brings more than the best cuttings.
pub fn appraise_loses_less_than_nothing(
    alloc: Global,
    own: Instruction,
    journals: &[Journal],
    harvester: u32,
)
    requires few { length (postings_of journals.now) ≤ MOST_POSTINGS }
    requires lawful { (i : InstructionParts) × HasShapeOf i own × All (λ j. IsLawful (history_of i j)) journals.now }
{
    if let Ok(made) = appraise(alloc, own, journals) {
        if let Some(account) = made.harvesters.get(&harvester) {
            let is_wrong = account.best.worth < account.cut.worth;
            prove!(!is_wrong);
        }
    }
}

/// A harvester has the stems of all.
pub fn appraise_has_all_stems_at_each_harvester(
    alloc: Global,
    own: Instruction,
    journals: &[Journal],
    harvester: u32,
)
    requires few { length (postings_of journals.now) ≤ MOST_POSTINGS }
    requires lawful { (i : InstructionParts) × HasShapeOf i own × All (λ j. IsLawful (history_of i j)) journals.now }
    requires others { sum_by cuts_in (own_of harvester (postings_of journals.now))
        ≢ sum_by cuts_in (postings_of journals.now) }
{
    if let Ok(made) = appraise(alloc, own, journals) {
        if let Some(account) = made.harvesters.get(&harvester) {
            let right = account.stems;
            let wrong = made.total.stems;
            prove!(right != wrong);
        }
    }
}

/// A harvester is left out that has a posting.
pub fn appraise_leaves_a_harvester_out(
    alloc: Global,
    own: Instruction,
    journals: &[Journal],
    harvester: u32,
)
    requires few { length (postings_of journals.now) ≤ MOST_POSTINGS }
    requires lawful { (i : InstructionParts) × HasShapeOf i own × All (λ j. IsLawful (history_of i j)) journals.now }
    requires some { own_of harvester (postings_of journals.now) ≢ [] }
{
    if let Ok(made) = appraise(alloc, own, journals) {
        let right = made.harvesters.get(&harvester);
        prove!(right.is_some());
    }
}

/// A harvester is there that has no posting.
pub fn appraise_has_a_harvester_without_postings(
    alloc: Global,
    own: Instruction,
    journals: &[Journal],
    harvester: u32,
)
    requires few { length (postings_of journals.now) ≤ MOST_POSTINGS }
    requires lawful { (i : InstructionParts) × HasShapeOf i own × All (λ j. IsLawful (history_of i j)) journals.now }
    requires none { own_of harvester (postings_of journals.now) ≡ [] }
{
    if let Ok(made) = appraise(alloc, own, journals) {
        let right = made.harvesters.get(&harvester);
        prove!(right.is_none());
    }
}

/// The logs of each assortment are those of all.
pub fn appraise_has_all_logs_at_each_assortment(
    alloc: Global,
    own: Instruction,
    journals: &[Journal],
    assortment: usize,
)
    requires few { length (postings_of journals.now) ≤ MOST_POSTINGS }
    requires lawful { (i : InstructionParts) × HasShapeOf i own × All (λ j. IsLawful (history_of i j)) journals.now }
    requires others { sum_by (assortment_logs_in assortment) (postings_of journals.now)
        ≢ sum_by logs_in (postings_of journals.now) }
{
    if let Ok(made) = appraise(alloc, own, journals) {
        if assortment < made.assortments.len() {
            let right = made.assortments[assortment].logs;
            let wrong = made.total.cut.logs;
            prove!(right != wrong);
        }
    }
}

/// The logs of the best cuttings are those that were cut.
pub fn appraise_has_the_cut_logs_as_the_best(
    alloc: Global,
    own: Instruction,
    journals: &[Journal],
    assortment: usize,
)
    requires few { length (postings_of journals.now) ≤ MOST_POSTINGS }
    requires lawful { (i : InstructionParts) × HasShapeOf i own × All (λ j. IsLawful (history_of i j)) journals.now }
    requires differ { (best : List Posting) → AreUnsteered own (postings_of journals.now) best
        → sum_by (assortment_logs_in assortment) best
        ≢ sum_by (assortment_logs_in assortment) (postings_of journals.now) }
{
    if let Ok(made) = appraise(alloc, own, journals) {
        if assortment < made.assortments.len() && assortment < made.best_assortments.len() {
            let right = made.best_assortments[assortment].logs;
            let wrong = made.assortments[assortment].logs;
            prove!(right != wrong);
        }
    }
}

/// The best cuttings are those under another instruction than the owner's, as that of the journals.
pub fn appraise_plans_by_another_instruction(
    alloc: Global,
    own: Instruction,
    other: &Instruction,
    journals: &[Journal],
    wrong: u128,
)
    requires few { length (postings_of journals.now) ≤ MOST_POSTINGS }
    requires lawful { (i : InstructionParts) × HasShapeOf i own × All (λ j. IsLawful (history_of i j)) journals.now }
    requires wrong { (best : List Posting) → AreUnsteered other.now (postings_of journals.now) best
        → wrong ≡ sum_by (at_base_in own) best }
    requires differ { (best : List Posting) → AreUnsteered own (postings_of journals.now) best
        → sum_by (at_base_in own) best ≢ wrong }
{
    if let Ok(made) = appraise(alloc, own, journals) {
        let right = made.total.best.worth;
        prove!(right != wrong);
    }
}
