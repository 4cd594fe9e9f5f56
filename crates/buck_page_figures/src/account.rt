//! What the postings of a journal come to, posting by posting.
ghost use Rattle.std.specs.Prelude.{◌≡◌, ℕ, ◌<◌, [], List, IfOk, OnOk, length};
ghost use Rattle.buck_page_figures.specs.Figures.{base_sheet};
ghost use Rattle.buck_page_figures.specs.inner.Adding.{IsCuttable};
ghost use Rattle.buck_page_figures.specs.inner.Account.{IsAccount, IsAccountWith, GoesOn};

use crate::assorted::{add_parts, no_parts};
use crate::figures::Part;
use crate::greatest::Greatest;
use crate::tally::{Tally, add_posting, logs_in, logs_of, no_tally};
use buck_book_postings::Posting;
use buck_dp::Planner;
use buck_record::Memory;
use buck_value::Sheet;
use std::alloc::Global;

/// What some postings come to.
#[derive(Drop)]
pub(crate) struct Account {
    pub tally: Tally,
    /// The logs cut, for each assortment.
    pub parts: Vec<Part>,
    /// The logs of the best cuttings at base prices, for each assortment.
    pub unsteered_parts: Vec<Part>,
    pub longest: Greatest,
    pub dearest: Greatest,
}

/// What no posting comes to.
pub(crate) fn no_account(alloc: Global, base: &Sheet) -> Result<Account, Memory>
    ensures { IfOk result (IsAccount base.now.instruction [] []) }
{
    Ok(Account {
        tally: no_tally(alloc, base)?,
        parts: no_parts(alloc, base)?,
        unsteered_parts: no_parts(alloc, base)?,
        longest: Greatest::none(),
        dearest: Greatest::none(),
    })
}

/// Adds a posting, which stands at a place. The planner plans at base prices.
pub(crate) fn account_posting(
    alloc: Global,
    account: &mut Account,
    planner: &mut Planner,
    at: usize,
    posting: &Posting,
) -> Result<(), Memory>
    requires base { planner.old ≡ base_sheet planner.old.instruction }
    requires cuttable { IsCuttable planner.old.instruction posting.now }
    requires before { GoesOn planner.old.instruction at account.old }
    ensures same { planner.new ≡ planner.old }
    ensures passed { OnOk result ((ps us : List Posting) → length ps ≡ at
        → IsAccount planner.old.instruction ps us account.old
        → IsAccountWith planner.old.instruction ps us posting.now account.new) }
{
    let (sums, unsteered) = add_posting(alloc, &mut account.tally, planner, at, posting)?;
    let base = planner.sheet();
    add_parts(&mut account.parts, base, posting, logs_of(posting));
    add_parts(
        &mut account.unsteered_parts,
        base,
        posting,
        logs_in(&unsteered),
    );
    let length = u128::from(sums.stems) + sums.length;
    account.longest = account.longest.with(at, length);
    account.dearest = account.dearest.with(at, sums.cost());
    Ok(())
}
