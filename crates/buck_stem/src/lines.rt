//! The lines of the order of refusals.
ghost use Rattle.std.specs.Prelude.{◌≡◌, IfOk};
ghost use Rattle.buck_stem.specs.inner.Ready.{IsReadyDraft};
ghost use Rattle.buck_stem.specs.Stm.{
  groups,
  present,
  single,
  draft_range,
  draft_order,
  draft_count,
  checked,
};

use crate::draft::Draft;
use crate::fault::StmFault;
use crate::rules::{grades_within, is_count_of_zones, starts_rise, starts_within};
use buck_record::check::{all_absent, all_single, all_there, check, each};
use buck_record::rules::{FILE, all_in_range, counted_to};
use buck_record::table::front;
use buck_record::{FormFault, Group, Piece};
use buck_stem_shape::slots::{
    GRADES, MEMBERS, MOST_SAMPLES, NEEDED, SAMPLES, SPECIES, STARTS, STEM, ZONES,
};

/// Each item that must be there is.
#[tactic(auto, unfolding(crate::specs::Stm::present, crate::specs::Stm::stem_present))]
pub(crate) fn present<'a>(items: &'a [Piece<'a>], stems: &[Group<'_>]) -> Result<(), StmFault>
    requires { stems.now ≡ groups items.now }
    ensures { result ≡ present items.now }
{
    check(
        all_absent(&MEMBERS, front(items, STEM)),
        StmFault::missing(STEM),
    )?;
    each(stems, |stem| all_there::<StmFault>(&NEEDED, stem.items()))
}

/// No item stands twice in the file or in its stem.
#[tactic(auto, unfolding(crate::specs::Stm::single, crate::specs::Stm::stem_single))]
pub(crate) fn single<'a>(items: &'a [Piece<'a>], stems: &[Group<'_>]) -> Result<(), StmFault>
    requires { stems.now ≡ groups items.now }
    ensures { result ≡ single items.now }
{
    all_single::<StmFault>(&[FILE], items)?;
    each(stems, |stem| all_single::<StmFault>(&MEMBERS, stem.items()))
}

#[tactic(auto, unfolding(crate::specs::Stm::draft_range))]
fn draft_range(draft: &Draft) -> Result<(), StmFault>
    ensures { result ≡ draft_range draft.now }
{
    all_in_range::<StmFault>(SPECIES, draft.species.as_slice())?;
    all_in_range::<StmFault>(SAMPLES, draft.samples.as_slice())?;
    let zones = draft.zones.as_slice();
    check(starts_within(STARTS, zones), StmFault::range(ZONES))?;
    check(grades_within(GRADES, zones), StmFault::range(ZONES))
}

#[tactic(auto, unfolding(crate::specs::Stm::draft_order))]
fn draft_order(draft: &Draft) -> Result<(), StmFault>
    ensures { result ≡ draft_order draft.now }
{
    check(starts_rise(draft.zones.as_slice()), StmFault::order(ZONES))
}

#[tactic(auto, unfolding(crate::specs::Stm::draft_count))]
fn draft_count(draft: &Draft) -> Result<(), StmFault>
    ensures { result ≡ draft_count draft.now }
{
    counted_to::<StmFault>(STEM, 1, draft.number.as_slice())?;
    counted_to::<StmFault>(SPECIES, 1, draft.species.as_slice())?;
    counted_to::<StmFault>(SAMPLES, MOST_SAMPLES, draft.samples.as_slice())?;
    check(is_count_of_zones(draft.zones.len()), StmFault::count(ZONES))
}

/// Each stem's numbers are in range, in order and as many as there should be.
#[tactic(auto, unfolding(crate::specs::Stm::checked, crate::specs::Stm::in_range, crate::specs::Stm::in_order, crate::specs::Stm::in_number))]
pub(crate) fn checked(drafts: &[Draft]) -> Result<(), StmFault>
    ensures { result ≡ checked drafts.now }
{
    each(drafts, draft_range)?;
    each(drafts, draft_order)?;
    each(drafts, draft_count)
}

/// The numbers of a stem pass the last three lines.
pub(crate) fn ready(draft: &Draft) -> Result<(), StmFault>
    ensures { IfOk result (λ _. IsReadyDraft draft.now) }
{
    draft_range(draft)?;
    draft_order(draft)?;
    draft_count(draft)
}
