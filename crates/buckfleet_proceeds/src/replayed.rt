//! Journals that are replayed before anything is said of them.
ghost use Rattle.std.specs.Prelude.{◌≡◌, ◌⊎◌, ◌≢◌, ◌+◌, ◌<◌, ◌≤◌, ℕ, OnOk, IfErr, length};
ghost use Rattle.buck_book_postings.specs.declared.posting.TheConstants.{MOST_POSTINGS};
ghost use Rattle.buck_book_journal.specs.declared.replay_fault.ReplayFault.{ReplayFault};
ghost use Rattle.buck_page_figures.specs.Journals.{postings_of};
ghost use Rattle.buckfleet_engine_files.specs.declared.fault.EngineFault.TheVariants.{Memory};
ghost use Rattle.buckfleet_engine_files.specs.Several.{AreLawful, IsFirstUnlawful, replay_fault};

use buck_book_journal::ReplayFault;
use buckfleet_engine_files::{EngineFault, FirstUnlawful, Journals, Workers, replay_several};
use std::alloc::Global;

/// The fault of the first of so many journals that isn't lawful: it has the journal's number, if there are several.
fn unlawful_of(number: usize, place: usize, fault: ReplayFault) -> EngineFault
    requires { (place < number) × (number ≤ 64) }
    ensures { result ≡ replay_fault number place fault }
{
    if number == 1 {
        EngineFault::Replay(fault)
    } else {
        EngineFault::ReplayOf {
            journal: place as u32 + 1,
            fault,
        }
    }
}

/// That each journal is lawful; else the first fault of the first that isn't.
pub(crate) fn check_lawful<T: Workers>(
    workers: &T,
    alloc: Global,
    several: &Journals,
) -> Result<(), EngineFault>
    requires share { T.can_share }
    requires number { length several.now.journals.items ≤ 64 }
    requires few { length (postings_of several.now.journals.items) ≤ MOST_POSTINGS }
    ensures lawful { OnOk result (AreLawful several.now.instruction.value several.now.journals.items) }
    ensures refused { IfErr result (λ e. (e ≡ Memory)
        ⊎ ((place : ℕ) × (why : ReplayFault) × (e ≡ replay_fault (length several.now.journals.items) place why)
        × IsFirstUnlawful several.now.instruction.value several.now.journals.items place why)) }
{
    match replay_several(workers, alloc, several) {
        Ok(()) => Ok(()),
        Err(FirstUnlawful { place, fault }) => match fault {
            ReplayFault::Memory => Err(EngineFault::Memory),
            _ => Err(unlawful_of(several.journals.len(), place, fault)),
        },
    }
}
