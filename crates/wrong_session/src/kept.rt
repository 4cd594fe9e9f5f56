//! Wrong answers of a kept book.
ghost use Rattle.std.specs.Prelude.{◌≡◌, ◌≢◌, ◌<◌, ◌≤◌, ◌+◌, length, slice_index};
ghost use Rattle.buck_book_postings.specs.History.{version_of};

use buck_apt_instruction::Instruction;
use buck_book_postings::{CutFault, DemandRefusal};
use buck_c_session::{FellFault, Felled, KeptBook, Zone};
use buck_rule::NamedRule;
use buck_stem_shape::Stem;
use std::alloc::Global;
use std::sync::Arc;

/// A book is opened with a posting.
pub fn opened_with_a_posting(alloc: Global, instruction: Arc<Instruction>, rule: NamedRule) {
    if let Ok(kept) = KeptBook::open(alloc, instruction, rule, 8) {
        let right = kept.book().len();
        let wrong = 1;
        prove!(right != wrong);
    }
}

/// A book is opened with another capacity.
pub fn opened_with_another_capacity(
    alloc: Global,
    instruction: Arc<Instruction>,
    rule: NamedRule,
    wrong: u32,
)
    requires { wrong ≢ 8 }
{
    if let Ok(kept) = KeptBook::open(alloc, instruction, rule, 8) {
        let right = kept.book().capacity();
        prove!(right != wrong);
    }
}

/// A cut that is refused leaves a posting in the book.
pub fn refused_cut_changes_the_book(
    alloc: Global,
    kept: &mut KeptBook,
    harvester: u32,
    stem: Arc<Stem>,
)
    requires { (0 < harvester) × (harvester ≤ 64) }
{
    let before = kept.book().len();
    if kept.cut(alloc, harvester, stem).is_err() {
        let right = kept.book().len();
        let wrong = before + 1;
        prove!(right != wrong);
    }
}

/// A cut that is done isn't added to the book.
pub fn cut_not_added(alloc: Global, kept: &mut KeptBook, harvester: u32, stem: Arc<Stem>)
    requires { (0 < harvester) × (harvester ≤ 64) }
{
    let wrong = kept.book().len();
    if kept.cut(alloc, harvester, stem).is_ok() {
        let right = kept.book().len();
        prove!(right != wrong);
    }
}

/// A stem of harvester 65 is cut, of whom there is none.
pub fn harvester_65_let_by(alloc: Global, kept: &mut KeptBook, samples: &[u16], zones: &[Zone]) {
    let felled = Felled {
        harvester: 65,
        number: 1,
        species: 1,
    };
    let right = kept.fell(alloc, &felled, samples, zones).is_ok();
    let wrong = true;
    prove!(right != wrong);
}

/// The entry of a cut is another harvester's.
pub fn cut_of_another_harvester(
    alloc: Global,
    kept: &mut KeptBook,
    harvester: u32,
    stem: Arc<Stem>,
    wrong: u32,
) -> Result<(), CutFault>
    requires harvester { (0 < harvester) × (harvester ≤ 64) }
    requires differ { wrong ≢ harvester }
{
    let entry = kept.cut(alloc, harvester, stem)?;
    let right = entry.harvester;
    prove!(right != wrong);
    Ok(())
}

/// The entry has the version that comes into force after the cut.
pub fn cut_with_the_version_after_it(
    alloc: Global,
    kept: &mut KeptBook,
    harvester: u32,
    stem: Arc<Stem>,
) -> Result<(), CutFault>
    requires harvester { (0 < harvester) × (harvester ≤ 64) }
{
    let wrong = kept.book().version() + 1;
    let entry = kept.cut(alloc, harvester, stem)?;
    let right = entry.version;
    prove!(right != wrong);
    Ok(())
}

/// New targets don't end the period: the same version stays in force.
pub fn retarget_without_end(
    alloc: Global,
    kept: &mut KeptBook,
    harvester: u32,
    targets: &Arc<Vec<u32>>,
) -> Result<(), DemandRefusal>
    requires harvester { (0 < harvester) × (harvester ≤ 64) }
{
    let wrong = kept.book().version();
    kept.retarget(alloc, harvester, targets)?;
    let right = kept.book().version();
    prove!(right != wrong);
    Ok(())
}

/// New targets that are refused are in force all the same.
pub fn refused_targets_in_force(
    alloc: Global,
    kept: &mut KeptBook,
    harvester: u32,
    targets: &Arc<Vec<u32>>,
)
    requires { (0 < harvester) × (harvester ≤ 64) }
{
    let wrong = kept.book().version() + 1;
    if kept.retarget(alloc, harvester, targets).is_err() {
        let right = kept.book().version();
        prove!(right != wrong);
    }
}

/// A felled stem's diameters are dropped: it is cut as a stem of its zones alone.
pub fn felled_stem_without_diameters(
    alloc: Global,
    kept: &mut KeptBook,
    felled: &Felled,
    samples: &[u16],
    zones: &[Zone],
) -> Result<(), FellFault>
    requires { 0 < length samples.now }
{
    let entry = kept.fell(alloc, felled, samples, zones)?;
    let right = entry.stem.samples().len();
    let wrong = 0;
    prove!(right != wrong);
    Ok(())
}

/// The capacity is looked at before the harvester: a full book says of harvester 65 that it is full.
pub fn capacity_before_the_harvester(
    alloc: Global,
    kept: &mut KeptBook,
    samples: &[u16],
    zones: &[Zone],
) {
    let felled = Felled {
        harvester: 65,
        number: 1,
        species: 1,
    };
    let outcome = kept.fell(alloc, &felled, samples, zones);
    let is_full = matches!(outcome, Err(FellFault::Full));
    prove!(!is_full);
}

/// The capacity is looked at before the stem: a full book says of a stem without diameters that it is full.
pub fn capacity_before_the_stem(
    alloc: Global,
    kept: &mut KeptBook,
    felled: &Felled,
    zones: &[Zone],
) {
    let outcome = kept.fell(alloc, felled, &[], zones);
    let is_full = matches!(outcome, Err(FellFault::Full));
    prove!(!is_full);
}

/// The stem is looked at before the harvester: harvester 65 is refused because its stem is outside the limits.
pub fn stem_before_the_harvester(
    alloc: Global,
    kept: &mut KeptBook,
    samples: &[u16],
    zones: &[Zone],
) {
    let felled = Felled {
        harvester: 65,
        number: 1,
        species: 1,
    };
    let outcome = kept.fell(alloc, &felled, samples, zones);
    let is_stem = matches!(outcome, Err(FellFault::Stem));
    prove!(!is_stem);
}
