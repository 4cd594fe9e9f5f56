//! Wrong figures of a journal.
ghost use Rattle.std.specs.Prelude.{◌≡◌, ◌≢◌, ◌<◌, [], ◌∷◌, length, slice_index};
ghost use Rattle.buck_apt_instruction.specs.Instruction.{IsClass};
ghost use Rattle.buck_dp.specs.Best.{cutting_worth};
ghost use Rattle.buck_book_postings.specs.Counts.{assortment_logs};
ghost use Rattle.buck_book_postings.specs.History.{IsLawful, prices_at};
ghost use Rattle.buck_book_journal.specs.Journal.{history_of};
ghost use Rattle.buck_page_figures.specs.Figures.{base_sheet};
ghost use Rattle.wrong_page.specs.Cuts.{AreAsLong, AreOfTwoHarvesters, IsAfterDemand, IsOneCutInto, IsOutvalued};

use buck_apt_instruction::{Class, Instruction};
use buck_book_journal::Journal;
use buck_book_postings::{Demand, Entry, Posting};
use buck_dp::Planner;
use buck_page_figures::{Sums, figures_of, number_at};
use std::alloc::Global;
use std::slice::from_ref;

/// What postings come to of which one stem was cut.
const ONE: Sums = Sums {
    stems: 1,
    demands: 0,
    logs: 2,
    volume: 500,
    length: 100,
    logged: 60,
    trim: 10,
    worth: 70,
    at_base: 80,
    best: 90,
};

/// The cost of steering is counted at the prices then in force.
pub fn cost_by_the_prices_in_force() {
    let right = ONE.cost();
    let wrong = 20;
    prove!(right != wrong);
}

/// Trim is counted as length left.
pub fn trim_is_left() {
    let right = ONE.left();
    let wrong = 40;
    prove!(right != wrong);
}

/// A demand is counted as a stem.
pub fn demand_counted_as_a_stem(
    alloc: Global,
    planner: &mut Planner,
    instruction: &Instruction,
    journal: &Journal,
    demand: &Demand,
)
    requires base { planner.old ≡ base_sheet instruction.now }
    requires lawful { IsLawful (history_of instruction.now journal.now) }
    requires only { journal.now.entries ≡ Posting.Demand demand.now ∷ [] }
{
    let Ok(figures) = figures_of(alloc, planner, instruction, from_ref(journal)) else {
        return;
    };
    let right = figures.total.stems;
    let wrong = 1;
    prove!(right != wrong);
}

/// The logs are priced by the prices then in force in the place of base prices.
pub fn at_base_by_the_prices_in_force(
    alloc: Global,
    planner: &mut Planner,
    instruction: &Instruction,
    journal: &Journal,
    entry: &Entry,
)
    requires base { planner.old ≡ base_sheet instruction.now }
    requires lawful { IsLawful (history_of instruction.now journal.now) }
    requires after_a_demand { IsAfterDemand journal.now.entries entry.now }
    requires differ { cutting_worth (base_sheet instruction.now) entry.now.stem entry.now.logs ≢ entry.now.worth }
{
    let Ok(figures) = figures_of(alloc, planner, instruction, from_ref(journal)) else {
        return;
    };
    let right = figures.total.at_base;
    let wrong = u128::from(entry.worth);
    prove!(right != wrong);
}

/// What was cut is taken for the best cuttings at base prices.
pub fn unsteered_taken_as_cut(
    alloc: Global,
    planner: &mut Planner,
    instruction: &Instruction,
    journal: &Journal,
    entry: &Entry,
)
    requires base { planner.old ≡ base_sheet instruction.now }
    requires lawful { IsLawful (history_of instruction.now journal.now) }
    requires after_a_demand { IsAfterDemand journal.now.entries entry.now }
    requires outvalued { IsOutvalued instruction.now entry.now }
{
    let Ok(figures) = figures_of(alloc, planner, instruction, from_ref(journal)) else {
        return;
    };
    let right = figures.total.best;
    let wrong = figures.total.at_base;
    prove!(right != wrong);
}

/// The classes of the last cut's logs are not counted.
pub fn count_of_the_last_cut_forgotten(
    alloc: Global,
    planner: &mut Planner,
    instruction: &Instruction,
    journal: &Journal,
    class: Class,
)
    requires base { planner.old ≡ base_sheet instruction.now }
    requires lawful { IsLawful (history_of instruction.now journal.now) }
    requires class { IsClass instruction.now class }
    requires only { IsOneCutInto instruction.now journal.now.entries class }
{
    let Ok(figures) = figures_of(alloc, planner, instruction, from_ref(journal)) else {
        return;
    };
    let right = number_at(figures.counts.as_slice(), instruction.index(class));
    let wrong = 0;
    prove!(right != wrong);
}

/// The targets of the instruction in the place of those of the last demand.
pub fn targets_at_the_opening(
    alloc: Global,
    planner: &mut Planner,
    instruction: &Instruction,
    journal: &Journal,
    demand: &Demand,
)
    requires base { planner.old ≡ base_sheet instruction.now }
    requires lawful { IsLawful (history_of instruction.now journal.now) }
    requires only { journal.now.entries ≡ Posting.Demand demand.now ∷ [] }
    requires wanted { 0 < slice_index demand.now.targets 0 }
{
    let Ok(figures) = figures_of(alloc, planner, instruction, from_ref(journal)) else {
        return;
    };
    let right = number_at(figures.targets.as_slice(), 0);
    let wrong = 0;
    prove!(right != wrong);
}

/// The prices of the first sheet in the place of those of the last one.
pub fn prices_at_the_opening(
    alloc: Global,
    planner: &mut Planner,
    instruction: &Instruction,
    journal: &Journal,
    demand: &Demand,
)
    requires base { planner.old ≡ base_sheet instruction.now }
    requires lawful { IsLawful (history_of instruction.now journal.now) }
    requires only { journal.now.entries ≡ Posting.Demand demand.now ∷ [] }
    requires differ { slice_index (prices_at journal.now.sheets 1) 0 ≢ slice_index (prices_at journal.now.sheets 0) 0 }
{
    let Ok(figures) = figures_of(alloc, planner, instruction, from_ref(journal)) else {
        return;
    };
    let Some(opening) = journal.sheets.get(0) else {
        return;
    };
    let right = number_at(figures.prices, 0);
    let wrong = number_at(opening.as_slice(), 0);
    prove!(right != wrong);
}

/// The first posting of a harvester is taken for its first cut.
pub fn first_cut_is_the_first_posting(
    alloc: Global,
    planner: &mut Planner,
    instruction: &Instruction,
    journal: &Journal,
    entry: &Entry,
)
    requires base { planner.old ≡ base_sheet instruction.now }
    requires lawful { IsLawful (history_of instruction.now journal.now) }
    requires after_a_demand { IsAfterDemand journal.now.entries entry.now }
    requires harvester { entry.now.harvester ≡ 1 }
{
    let Ok(figures) = figures_of(alloc, planner, instruction, from_ref(journal)) else {
        return;
    };
    let Some(own) = figures.harvesters.get(&1).copied() else {
        return;
    };
    let right = own.first;
    let wrong = Some(0);
    prove!(right != wrong);
}

/// Each harvester is given the sums over all harvesters' postings.
pub fn sums_of_all_for_each_harvester(
    alloc: Global,
    planner: &mut Planner,
    instruction: &Instruction,
    journal: &Journal,
)
    requires base { planner.old ≡ base_sheet instruction.now }
    requires lawful { IsLawful (history_of instruction.now journal.now) }
    requires two { AreOfTwoHarvesters journal.now.entries }
{
    let Ok(figures) = figures_of(alloc, planner, instruction, from_ref(journal)) else {
        return;
    };
    let Some(own) = figures.harvesters.get(&1).copied() else {
        return;
    };
    let right = own.sums.stems;
    let wrong = 2;
    prove!(right != wrong);
}

/// Each assortment is given the logs of all.
pub fn logs_of_all_for_each_assortment(
    alloc: Global,
    planner: &mut Planner,
    instruction: &Instruction,
    journal: &Journal,
    entry: &Entry,
)
    requires base { planner.old ≡ base_sheet instruction.now }
    requires lawful { IsLawful (history_of instruction.now journal.now) }
    requires only { journal.now.entries ≡ Posting.Cut entry.now ∷ [] }
    requires others { assortment_logs 0 entry.now.logs < length entry.now.logs }
{
    let Ok(figures) = figures_of(alloc, planner, instruction, from_ref(journal)) else {
        return;
    };
    let Some(part) = figures.assortments.get(0) else {
        return;
    };
    let right = u128::from(part.logs);
    let wrong = figures.total.logs;
    prove!(right != wrong);
}

/// Of equals the last is taken for the longest stem.
pub fn longest_is_the_last_of_equals(
    alloc: Global,
    planner: &mut Planner,
    instruction: &Instruction,
    journal: &Journal,
)
    requires base { planner.old ≡ base_sheet instruction.now }
    requires lawful { IsLawful (history_of instruction.now journal.now) }
    requires two { AreAsLong journal.now.entries }
{
    let Ok(figures) = figures_of(alloc, planner, instruction, from_ref(journal)) else {
        return;
    };
    let Some(right) = figures.longest else {
        return;
    };
    let wrong = 1;
    prove!(right != wrong);
}

/// A stem is named as the one whose steering cost most, though steering cost nothing.
pub fn dearest_where_steering_cost_nothing(
    alloc: Global,
    planner: &mut Planner,
    instruction: &Instruction,
    journal: &Journal,
    demand: &Demand,
)
    requires base { planner.old ≡ base_sheet instruction.now }
    requires lawful { IsLawful (history_of instruction.now journal.now) }
    requires only { journal.now.entries ≡ Posting.Demand demand.now ∷ [] }
{
    let Ok(figures) = figures_of(alloc, planner, instruction, from_ref(journal)) else {
        return;
    };
    let right = figures.dearest.is_some();
    let wrong = true;
    prove!(right != wrong);
}
