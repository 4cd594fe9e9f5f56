//! What each harvester's postings come to.
ghost use Rattle.std.specs.Prelude.{◌≡◌, ◌≢◌, ℕ, ◌+◌, ◌≤◌, OnOk, IfSome, Some, None};
ghost use Rattle.std.specs.Ordering.{nat_cmp};
ghost use Rattle.std.specs.BTreeMap.{get};
ghost use Rattle.buck_page_figures.specs.inner.Owned.{IsAdded};
ghost use Rattle.buck_book_postings.specs.declared.posting.TheConstants.{MOST_POSTINGS};

use crate::sums::Sums;
use buck_record::Memory;
use std::alloc::Global;
use std::collections::BTreeMap;

/// The sums of a harvester's postings.
#[derive(Clone, Copy)]
pub struct Own {
    /// Number of the harvester, from 1.
    pub harvester: u32,
    pub sums: Sums,
    /// Index of its first cut, from 0 through all journals, if there is one.
    pub first: Option<usize>,
}

/// What a harvester's postings come to with one more, which is a cut at a place or a demand.
fn own_with(before: Option<Own>, harvester: u32, sums: &Sums, cut: Option<usize>) -> Own
    requires low { IfSome before (λ o. (o.sums.stems + sums.now.stems ≤ MOST_POSTINGS)
        × (o.sums.demands + sums.now.demands ≤ MOST_POSTINGS)) }
    ensures { IsAdded before harvester sums.now cut (Some result) }
{
    match before {
        None => Own {
            harvester,
            sums: *sums,
            first: cut,
        },
        Some(own) => Own {
            harvester,
            sums: own.sums.plus(sums),
            first: own.first.or(cut),
        },
    }
}

/// No harvester has a posting.
pub fn no_owns(alloc: Global) -> BTreeMap<u32, Own>
    ensures { (h : ℕ) → get nat_cmp result h ≡ None }
{
    BTreeMap::new(alloc)
}

/// Adds what a posting of a harvester comes to. Refused as `Memory` alone.
pub fn add_own(
    owns: &mut BTreeMap<u32, Own>,
    harvester: u32,
    sums: &Sums,
    cut: Option<usize>,
) -> Result<(), Memory>
    requires low { IfSome (get nat_cmp owns.old harvester) (λ o. (o.sums.stems + sums.now.stems ≤ MOST_POSTINGS)
        × (o.sums.demands + sums.now.demands ≤ MOST_POSTINGS)) }
    ensures own { OnOk result (IsAdded (get nat_cmp owns.old harvester) harvester sums.now cut
        (get nat_cmp owns.new harvester)) }
    ensures others { OnOk result ((h : ℕ) → h ≢ harvester → get nat_cmp owns.new h ≡ get nat_cmp owns.old h) }
{
    let own = own_with(owns.get(&harvester).copied(), harvester, sums, cut);
    owns.insert(harvester, own)?;
    Ok(())
}
