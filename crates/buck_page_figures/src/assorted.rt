//! What the logs of each assortment come to.
ghost use Rattle.std.specs.Prelude.{◌≡◌, ◌+◌, ◌<◌, ◌≤◌, ◌^◌, All, IfOk, length};
ghost use Rattle.buck_value.specs.Allowed.{IsAllowed};
ghost use Rattle.buck_page_figures.specs.inner.Adding.{IsLow};
ghost use Rattle.buck_page_figures.specs.inner.Assorted.{AreFew, AreNone, ArePartsOn, ArePartsWith};
ghost use Rattle.buck_page_figures.specs.inner.Counted.{AreOfPosting};

use crate::adding::{Wood, wood_in};
use crate::figures::Part;
use buck_book_postings::Posting;
use buck_record::Memory;
use buck_stem_shape::Stem;
use buck_value::{Log, Sheet};
use std::alloc::Global;

impl Part {
    /// What no log comes to.
    const NONE: Part = Part {
        logs: 0,
        volume: 0,
        logged: 0,
        at_base: 0,
    };

    /// With one log more.
    fn with(self, wood: &Wood) -> Part
        requires few { self.logs + 1 < 2 ^ 32 }
        requires low { IsLow wood.now }
        ensures logs { result.logs ≡ self.logs + 1 }
        ensures volume { result.volume ≡ self.volume + wood.now.volume }
        ensures logged { result.logged ≡ self.logged + wood.now.logged }
        ensures at_base { result.at_base ≡ self.at_base + wood.now.at_base }
    {
        Part {
            logs: self.logs + 1,
            volume: self.volume + wood.volume,
            logged: self.logged + wood.logged,
            at_base: self.at_base + wood.at_base,
        }
    }
}

/// What no log of each assortment comes to.
pub(crate) fn no_parts(alloc: Global, base: &Sheet) -> Result<Vec<Part>, Memory>
    ensures { IfOk result (λ parts. AreNone base.now.instruction parts.items) }
{
    let assortments = base.instruction().assortments().len();
    Ok(vec![in alloc; Part::NONE; assortments]?)
}

/// Adds allowed logs of a stem, each to its assortment.
fn add_logs(parts: &mut Vec<Part>, base: &Sheet, stem: &Stem, logs: &[Log])
    requires number { length parts.old.items ≡ length base.now.instruction.assortments }
    requires allowed { All (λ g. IsAllowed base.now.instruction stem.now g) logs.now }
    requires few { length logs.now ≤ 80 }
    requires low { AreFew 80000000 parts.old.items }
    ensures { ArePartsWith base.now stem.now logs.now parts.old.items parts.new.items }
{
    for log in logs {
        let wood = wood_in(base, stem, log);
        let at = log.assortment as usize;
        parts[at] = parts[at].with(&wood);
    }
}

/// Adds the logs into which a posting's stem is cut, if it is a cut, each to its assortment.
pub(crate) fn add_parts(parts: &mut Vec<Part>, base: &Sheet, posting: &Posting, logs: &[Log])
    requires number { length parts.old.items ≡ length base.now.instruction.assortments }
    requires logs { AreOfPosting base.now.instruction posting.now logs.now }
    requires low { AreFew 80000000 parts.old.items }
    ensures { ArePartsOn base.now posting.now logs.now parts.old.items parts.new.items }
{
    match posting {
        Posting::Cut(entry) => add_logs(parts, base, &entry.stem, logs),
        Posting::Demand(_) => {}
    }
}
