//! How many logs there are of each class.
ghost use Rattle.std.specs.Prelude.{◌≡◌, ℕ, ◌+◌, ◌<◌, ◌^◌, All, IfOk, length, replicate, slice_index};
ghost use Rattle.buck_apt_instruction.specs.Instruction.{IsClass, classes, index_of};
ghost use Rattle.buck_value.specs.Allowed.{IsAllowed, class_of};
ghost use Rattle.buck_page_figures.specs.inner.Counted.{AreCountsOn, AreCountsWith, AreOfPosting};

use buck_book_postings::Posting;
use buck_record::Memory;
use buck_stem_shape::Stem;
use buck_value::{Log, Sheet, class_of};
use std::alloc::Global;

/// The place of an allowed log's class among all.
fn place_of(base: &Sheet, stem: &Stem, log: &Log) -> usize
    requires { IsAllowed base.now.instruction stem.now log.now }
    ensures place { result ≡ index_of base.now.instruction (class_of base.now.instruction stem.now log.now) }
    ensures class { IsClass base.now.instruction (class_of base.now.instruction stem.now log.now) }
    ensures within { result < classes base.now.instruction }
{
    let Some(class) = class_of(base, stem, log.start, log.assortment, log.length) else {
        unreachable!()
    };
    base.instruction().index(class)
}

/// A count of 0 for each class. Refused as `Memory` alone.
pub fn no_counts(alloc: Global, base: &Sheet) -> Result<Vec<u32>, Memory>
    ensures { IfOk result (λ counts. counts.items ≡ replicate (classes base.now.instruction) 0) }
{
    let classes = base.instruction().classes();
    Ok(vec![in alloc; 0; classes]?)
}

/// Counts the class of each of some allowed logs.
pub fn count_logs(counts: &mut Vec<u32>, base: &Sheet, stem: &Stem, logs: &[Log])
    requires number { length counts.old.items ≡ classes base.now.instruction }
    requires allowed { All (λ g. IsAllowed base.now.instruction stem.now g) logs.now }
    requires low { (p : ℕ) → slice_index counts.old.items p + length logs.now < 2 ^ 32 }
    ensures { AreCountsWith base.now.instruction stem.now logs.now counts.old.items counts.new.items }
{
    for log in logs {
        let place = place_of(base, stem, log);
        counts[place] += 1;
    }
}

/// Counts the logs into which a posting's stem is cut, if it is a cut.
pub fn count_posting(counts: &mut Vec<u32>, base: &Sheet, posting: &Posting, logs: &[Log])
    requires number { length counts.old.items ≡ classes base.now.instruction }
    requires logs { AreOfPosting base.now.instruction posting.now logs.now }
    requires low { (p : ℕ) → slice_index counts.old.items p + 80 < 2 ^ 32 }
    ensures { AreCountsOn base.now.instruction posting.now logs.now counts.old.items counts.new.items }
{
    match posting {
        Posting::Cut(entry) => count_logs(counts, base, &entry.stem, logs),
        Posting::Demand(_) => {}
    }
}
