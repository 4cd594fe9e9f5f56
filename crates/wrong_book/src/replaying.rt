//! Wrong answers of a replay.
ghost use Rattle.std.specs.Prelude.{◌≡◌, ◌≢◌, ◌+◌, ◌<◌, ◌≤◌, [], ◌∷◌, length};
ghost use Rattle.buck_value.specs.Sheet.{base_prices};
ghost use Rattle.buck_dp.specs.Best.{IsAdmissible, cutting_worth};
ghost use Rattle.buck_book_postings.specs.Posting.{ends_of};
ghost use Rattle.buck_book_postings.specs.Targets.{AreTargets};
ghost use Rattle.buck_book_postings.specs.History.{IsLawful, PricesMeet, prices_at, sheet_at};
ghost use Rattle.buck_book_journal.specs.Journal.{history_of};
ghost use Rattle.buck_book_postings.specs.declared.posting.TheConstants.{MOST_POSTINGS};

use buck_apt_instruction::Instruction;
use buck_book_journal::{Journal, ReplayFault};
use buck_book_postings::{Demand, Entry, Posting};
use buck_book_replay::laws::faults_are_unlawful;
use buck_book_replay::{replay, replay_in_order};
use buck_dp::Cutting;
use std::alloc::Global;
use std::sync::Arc;

/// A first call with the number 2 is taken.
pub fn numbering_with_gaps(
    alloc: Global,
    instruction: &Arc<Instruction>,
    journal: &Journal,
    entry: &Entry,
)
    requires only { journal.now.entries ≡ Posting.Cut entry.now ∷ [] }
    requires number { entry.now.number ≡ 2 }
{
    let right = replay(alloc, instruction, journal).is_ok();
    let wrong = true;
    prove!(right != wrong);
}

/// A cut under a sheet that isn't in force yet is taken.
pub fn later_version_taken(
    alloc: Global,
    instruction: &Arc<Instruction>,
    journal: &Journal,
    entry: &Entry,
)
    requires only { journal.now.entries ≡ Posting.Cut entry.now ∷ [] }
    requires version { entry.now.version ≡ 1 }
{
    let right = replay(alloc, instruction, journal).is_ok();
    let wrong = true;
    prove!(right != wrong);
}

/// A cut under a sheet that was in force before is taken.
pub fn older_version_taken(
    alloc: Global,
    instruction: &Arc<Instruction>,
    journal: &Journal,
    demand: &Demand,
    entry: &Entry,
)
    requires both { journal.now.entries ≡ Posting.Demand demand.now ∷ Posting.Cut entry.now ∷ [] }
    requires version { entry.now.version ≡ 0 }
{
    let right = replay(alloc, instruction, journal).is_ok();
    let wrong = true;
    prove!(right != wrong);
}

/// A cut whose printed worth is more than that of its logs is taken.
pub fn greater_worth_taken(
    alloc: Global,
    instruction: &Arc<Instruction>,
    journal: &Journal,
    entry: &Entry,
)
    requires only { journal.now.entries ≡ Posting.Cut entry.now ∷ [] }
    requires more { cutting_worth (sheet_at instruction.now.value journal.now.sheets entry.now.version)
        entry.now.stem entry.now.logs < entry.now.worth }
{
    let right = replay(alloc, instruction, journal).is_ok();
    let wrong = true;
    prove!(right != wrong);
}

/// A cut of logs that aren't an admissible cutting is taken.
pub fn inadmissible_cutting_taken(
    alloc: Global,
    instruction: &Arc<Instruction>,
    journal: &Journal,
    entry: &Entry,
)
    requires only { journal.now.entries ≡ Posting.Cut entry.now ∷ [] }
    requires not_admissible { IsAdmissible
        (sheet_at instruction.now.value journal.now.sheets entry.now.version) entry.now.stem entry.now.logs → ⊥ }
{
    let right = replay(alloc, instruction, journal).is_ok();
    let wrong = true;
    prove!(right != wrong);
}

/// The printed worth is trusted: a cut that another cutting outvalues is taken.
pub fn replay_trusts_worth(
    alloc: Global,
    instruction: &Arc<Instruction>,
    journal: &Journal,
    entry: &Entry,
    dearer: &Cutting,
)
    requires only { journal.now.entries ≡ Posting.Cut entry.now ∷ [] }
    requires admissible { IsAdmissible
        (sheet_at instruction.now.value journal.now.sheets entry.now.version) entry.now.stem dearer.now.logs.items }
    requires more { cutting_worth (sheet_at instruction.now.value journal.now.sheets entry.now.version)
        entry.now.stem entry.now.logs
        < cutting_worth (sheet_at instruction.now.value journal.now.sheets entry.now.version)
        entry.now.stem dearer.now.logs.items }
{
    let right = replay(alloc, instruction, journal).is_ok();
    let wrong = true;
    prove!(right != wrong);
}

/// A demand of targets that aren't valid is taken.
pub fn targets_not_checked(
    alloc: Global,
    instruction: &Arc<Instruction>,
    journal: &Journal,
    demand: &Demand,
)
    requires only { journal.now.entries ≡ Posting.Demand demand.now ∷ [] }
    requires not_valid { AreTargets instruction.now.value demand.now.targets → ⊥ }
{
    let right = replay(alloc, instruction, journal).is_ok();
    let wrong = true;
    prove!(right != wrong);
}

/// Whatever prices the first sheet has, it is taken.
pub fn first_sheet_not_looked_at(alloc: Global, instruction: &Arc<Instruction>, journal: &Journal)
    requires few { length journal.now.entries ≤ 1000000 }
    requires moved { prices_at journal.now.sheets 0 ≢ base_prices instruction.now.value }
{
    let right = replay(alloc, instruction, journal).is_ok();
    let wrong = true;
    prove!(right != wrong);
}

/// Whatever prices the sheet after the last posting has, it is taken.
pub fn last_sheet_not_looked_at(
    alloc: Global,
    instruction: &Arc<Instruction>,
    journal: &Journal,
    demand: &Demand,
)
    requires only { journal.now.entries ≡ Posting.Demand demand.now ∷ [] }
    requires against { PricesMeet instruction.now.value (Posting.Demand demand.now ∷ [])
        (prices_at journal.now.sheets 1) → ⊥ }
{
    let right = replay(alloc, instruction, journal).is_ok();
    let wrong = true;
    prove!(right != wrong);
}

/// A sheet too many is taken.
pub fn surplus_sheet_taken(alloc: Global, instruction: &Arc<Instruction>, journal: &Journal)
    requires few { length journal.now.entries ≤ 1000000 }
    requires more { ends_of instruction.now.value journal.now.entries + 1 < length journal.now.sheets }
{
    let right = replay(alloc, instruction, journal).is_ok();
    let wrong = true;
    prove!(right != wrong);
}

/// A journal without its last sheet is taken.
pub fn missing_sheet_taken(alloc: Global, instruction: &Arc<Instruction>, journal: &Journal)
    requires few { length journal.now.entries ≤ 1000000 }
    requires less { length journal.now.sheets ≡ ends_of instruction.now.value journal.now.entries }
{
    let right = replay(alloc, instruction, journal).is_ok();
    let wrong = true;
    prove!(right != wrong);
}

/// A lawful journal, of which each cutting is one of the best, is refused as outvalued.
pub fn best_is_outvalued(alloc: Global, instruction: &Arc<Instruction>, journal: &Journal)
    requires few { length journal.now.entries ≤ 1000000 }
    requires lawful { IsLawful (history_of instruction.now.value journal.now) }
{
    faults_are_unlawful();
    let _classes = instruction.classes();
    let refused = replay(alloc, instruction, journal);
    let right = matches!(&refused, Err(ReplayFault::Outvalued { at: _ }));
    let wrong = true;
    prove!(right != wrong);
}

/// A cut of logs that aren't an admissible cutting is refused for its worth.
pub fn inadmissible_as_wrong_worth(
    alloc: Global,
    instruction: &Arc<Instruction>,
    journal: &Journal,
    entry: &Entry,
)
    requires only { journal.now.entries ≡ Posting.Cut entry.now ∷ [] }
    requires not_admissible { IsAdmissible
        (sheet_at instruction.now.value journal.now.sheets 0) entry.now.stem entry.now.logs → ⊥ }
{
    let refused = replay(alloc, instruction, journal);
    let right = matches!(&refused, Err(ReplayFault::Worth { at: _ }));
    let wrong = true;
    prove!(right != wrong);
}

/// A cut of another worth than that of its logs is refused as outvalued.
pub fn outvalued_before_worth(
    alloc: Global,
    instruction: &Arc<Instruction>,
    journal: &Journal,
    entry: &Entry,
)
    requires only { journal.now.entries ≡ Posting.Cut entry.now ∷ [] }
    requires differ { entry.now.worth
        ≢ cutting_worth (sheet_at instruction.now.value journal.now.sheets 0) entry.now.stem entry.now.logs }
{
    let refused = replay(alloc, instruction, journal);
    let right = matches!(&refused, Err(ReplayFault::Outvalued { at: _ }));
    let wrong = true;
    prove!(right != wrong);
}

/// A first call with the number 2 is refused for its version.
pub fn version_before_numbering(
    alloc: Global,
    instruction: &Arc<Instruction>,
    journal: &Journal,
    entry: &Entry,
)
    requires only { journal.now.entries ≡ Posting.Cut entry.now ∷ [] }
    requires number { entry.now.number ≡ 2 }
{
    let refused = replay(alloc, instruction, journal);
    let right = matches!(&refused, Err(ReplayFault::Version { at: _ }));
    let wrong = true;
    prove!(right != wrong);
}

/// A price of the last sheet is reported, though there is a sheet too many.
pub fn last_sheet_before_their_number(
    alloc: Global,
    instruction: &Arc<Instruction>,
    journal: &Journal,
)
    requires none { journal.now.entries ≡ [] }
    requires two { length journal.now.sheets ≡ 2 }
{
    let refused = replay(alloc, instruction, journal);
    let right = matches!(
        &refused,
        Err(ReplayFault::Price {
            version: _,
            class: _
        })
    );
    let wrong = true;
    prove!(right != wrong);
}

/// A way in order ends well before the last posting.
pub fn order_ends_too_soon(
    alloc: Global,
    instruction: &Arc<Instruction>,
    journal: &Journal,
    wrong: usize,
) -> Result<(), buck_record::Memory>
    requires few { length journal.now.entries ≤ MOST_POSTINGS }
    requires before { wrong < length journal.now.entries }
{
    let stop = replay_in_order(alloc, instruction, journal)?;
    if stop.outcome.is_ok() {
        let right = stop.walk.at();
        prove!(right != wrong);
    }
    Ok(())
}

/// A way in order goes past a first call with the number 2.
pub fn order_goes_past_a_wrong_number(
    alloc: Global,
    instruction: &Arc<Instruction>,
    journal: &Journal,
    entry: &Entry,
) -> Result<(), buck_record::Memory>
    requires only { journal.now.entries ≡ Posting.Cut entry.now ∷ [] }
    requires number { entry.now.number ≡ 2 }
{
    let stop = replay_in_order(alloc, instruction, journal)?;
    let right = stop.outcome.is_ok();
    let wrong = true;
    prove!(right != wrong);
    Ok(())
}
