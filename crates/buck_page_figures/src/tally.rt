//! What all postings come to, added up one after the other.
ghost use Rattle.std.specs.Prelude.{◌≡◌, ◌+◌, ℕ, [], List, IfOk, OnOk, IfSome, length};
ghost use Rattle.std.specs.Ordering.{nat_cmp};
ghost use Rattle.std.specs.BTreeMap.{get};
ghost use Rattle.buck_apt_instruction.specs.Instruction.{classes};
ghost use Rattle.buck_book_postings.specs.declared.posting.Posting.{Posting};
ghost use Rattle.buck_page_figures.specs.Figures.{base_sheet};
ghost use Rattle.buck_page_figures.specs.inner.Counted.{AreOfPosting};
ghost use Rattle.buck_page_figures.specs.inner.Adding.{IsCuttable, logs_of, logs_in_some};
ghost use Rattle.buck_page_figures.specs.inner.Owned.{cut_place};
ghost use Rattle.buck_page_figures.specs.inner.Tally.{IsTally, IsTallyWith, AreAtMost, IsBelow};

use crate::adding::sums_of;
use crate::counting::{count_posting, no_counts};
use crate::owns::{Own, add_own, no_owns};
use crate::sums::Sums;
use buck_book_postings::Posting;
use buck_dp::{Cutting, Planner};
use buck_record::Memory;
use buck_value::{Log, Sheet};
use std::alloc::Global;
use std::collections::BTreeMap;

/// What some postings come to: all of them, each harvester's by its number, and the logs of each class.
#[derive(Drop)]
pub(crate) struct Tally {
    pub total: Sums,
    pub owns: BTreeMap<u32, Own>,
    /// How many logs were cut of each class, and how many the best cuttings at base prices have.
    pub counts: Vec<u32>,
    pub unsteered: Vec<u32>,
}

/// The logs into which a stem was cut, if it is a cut.
pub(crate) fn logs_of(posting: &Posting) -> &[Log]
    ensures { result.now ≡ logs_of posting.now }
{
    match posting {
        Posting::Cut(entry) => entry.cutting.logs.as_slice(),
        Posting::Demand(_) => &[],
    }
}

/// The logs of a cutting, if there is one.
pub(crate) fn logs_in(cutting: &Option<Cutting>) -> &[Log]
    ensures { result.now ≡ logs_in_some cutting.now }
{
    match cutting {
        Some(cutting) => cutting.logs.as_slice(),
        None => &[],
    }
}

/// The place of a posting, if it is a cut.
fn cut_place(at: usize, posting: &Posting) -> Option<usize>
    ensures { result ≡ cut_place at posting.now }
{
    match posting {
        Posting::Cut(_) => Some(at),
        Posting::Demand(_) => None,
    }
}

/// Adds a posting at a place. The answer is what it comes to, and the best cutting of its stem at base prices, if it is
/// a cut.
pub(crate) fn add_posting(
    alloc: Global,
    tally: &mut Tally,
    planner: &mut Planner,
    at: usize,
    posting: &Posting,
) -> Result<(Sums, Option<Cutting>), Memory>
    requires base { planner.old ≡ base_sheet planner.old.instruction }
    requires cuttable { IsCuttable planner.old.instruction posting.now }
    requires total { IsBelow tally.old.total }
    requires owns { (h : ℕ) → IfSome (get nat_cmp tally.old.owns h) (λ o. IsBelow o.sums) }
    requires counts { (length tally.old.counts.items ≡ classes planner.old.instruction)
        × AreAtMost 80000000 tally.old.counts.items }
    requires unsteered { (length tally.old.unsteered.items ≡ classes planner.old.instruction)
        × AreAtMost 80000000 tally.old.unsteered.items }
    ensures same { planner.new ≡ planner.old }
    ensures added { IfOk result (λ r. (ps us : List Posting) → length ps ≡ at
        → IsTally planner.old.instruction ps us tally.old
        → IsTallyWith planner.old.instruction ps us posting.now r.0 (logs_in_some r.1) tally.new) }
    ensures own { OnOk result (AreOfPosting planner.old.instruction posting.now (logs_of posting.now)) }
    ensures unsteered { IfOk result (λ r. AreOfPosting planner.old.instruction posting.now (logs_in_some r.1)) }
    ensures low { OnOk result ((most : ℕ) → AreAtMost most tally.old.counts.items
        → AreAtMost most tally.old.unsteered.items
        → AreAtMost (most + 80) tally.new.counts.items × AreAtMost (most + 80) tally.new.unsteered.items) }
{
    let (sums, unsteered) = sums_of(alloc, planner, posting)?;
    let cut = cut_place(at, posting);
    add_own(&mut tally.owns, posting.harvester(), &sums, cut)?;
    tally.total = tally.total.plus(&sums);
    let base = planner.sheet();
    count_posting(&mut tally.counts, base, posting, logs_of(posting));
    count_posting(&mut tally.unsteered, base, posting, logs_in(&unsteered));
    Ok((sums, unsteered))
}

/// What no posting comes to.
pub(crate) fn no_tally(alloc: Global, base: &Sheet) -> Result<Tally, Memory>
    ensures tally { IfOk result (IsTally base.now.instruction [] []) }
    ensures low { IfOk result (λ t. AreAtMost 0 t.counts.items × AreAtMost 0 t.unsteered.items) }
{
    Ok(Tally {
        total: Sums::none(),
        owns: no_owns(alloc),
        counts: no_counts(alloc, base)?,
        unsteered: no_counts(alloc, base)?,
    })
}
