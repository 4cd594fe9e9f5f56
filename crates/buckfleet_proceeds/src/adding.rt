//! What logs and postings come to together.
ghost use Rattle.std.specs.Prelude.{◌≡◌, ◌≢◌, ℕ, ◌+◌, ◌<◌, ◌≤◌, ◌^◌, OnOk, IfSome, Some};
ghost use Rattle.std.specs.Ordering.{nat_cmp};
ghost use Rattle.std.specs.BTreeMap.{get};
ghost use Rattle.buck_book_postings.specs.declared.posting.TheConstants.{MOST_POSTINGS};
ghost use Rattle.buckfleet_proceeds.specs.inner.Together.{ArePaidTogether, AreTogether, IsAdded};

use crate::paid::{Account, Paid};
use buck_record::Memory;
use std::collections::BTreeMap;

impl Paid {
    /// What both come to together.
    pub(crate) fn plus(&self, other: &Paid) -> Paid
        requires { self.now.logs + other.now.logs < 2 ^ 32 }
        ensures { ArePaidTogether self.now other.now result }
    {
        Paid {
            logs: self.logs + other.logs,
            unbought: self.unbought + other.unbought,
            volume: self.volume + other.volume,
            worth: self.worth + other.worth,
        }
    }
}

impl Account {
    /// What both come to together.
    pub(crate) fn plus(&self, other: &Account) -> Account
        requires { self.now.stems + other.now.stems ≤ MOST_POSTINGS }
        ensures { AreTogether self.now other.now result }
    {
        Account {
            stems: self.stems + other.stems,
            cut: self.cut.plus(&other.cut),
            best: self.best.plus(&other.best),
        }
    }
}

/// What a harvester's postings come to, with one more.
fn own_with(before: Option<Account>, account: &Account) -> Account
    requires { IfSome before (λ a. a.stems + account.now.stems ≤ MOST_POSTINGS) }
    ensures { IsAdded before account.now (Some result) }
{
    match before {
        None => *account,
        Some(before) => before.plus(account),
    }
}

/// Adds what a posting of a harvester comes to.
pub(crate) fn add_own(
    harvesters: &mut BTreeMap<u32, Account>,
    harvester: u32,
    account: &Account,
) -> Result<(), Memory>
    requires { IfSome (get nat_cmp harvesters.old harvester) (λ a. a.stems + account.now.stems ≤ MOST_POSTINGS) }
    ensures own { OnOk result (IsAdded (get nat_cmp harvesters.old harvester) account.now
        (get nat_cmp harvesters.new harvester)) }
    ensures others { OnOk result ((h : ℕ) → h ≢ harvester
        → get nat_cmp harvesters.new h ≡ get nat_cmp harvesters.old h) }
{
    let own = own_with(harvesters.get(&harvester).copied(), account);
    harvesters.insert(harvester, own)?;
    Ok(())
}
