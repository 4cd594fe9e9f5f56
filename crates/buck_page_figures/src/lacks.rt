//! The classes that lack logs, most first.
ghost use Rattle.std.specs.Prelude.{◌≡◌, ◌+◌, ◌*◌, ◌<◌, ◌≤◌, ◌^◌, All, IfOk, OnOk, length};
ghost use Rattle.std.specs.Ordering.{nat_cmp};
ghost use Rattle.buck_page_text.specs.Words.{half_up};
ghost use Rattle.buck_page_figures.specs.Lacking.{AreMostFirst, EachOnce, IsLackOf, gap_of};
ghost use Rattle.buck_page_figures.specs.inner.Lacking.{AreLacksBefore};

use crate::figures::Figures;
use crate::lack::Lack;
use crate::parts::{number_at, part, sum_of};
use buck_page_text::half_up;
use buck_record::Memory;
use std::alloc::Global;
use std::cmp::Ordering;

/// A number of logs or targets, times one of a whole assortment.
#[tactic(auto, using(crate::proofs::LackLemmas::low_product))]
fn times(one: u32, all: u64) -> u128
    requires { all ≤ 1024 * 2 ^ 32 }
    ensures product { result ≡ one * all }
    ensures low { result < 2 ^ 80 }
{
    u128::from(one) * u128::from(all)
}

impl Lack {
    /// How far the logs lie below the target's share, times the targets of the assortment together.
    fn gap(&self) -> u128
        ensures gap { result + self.now.count * self.now.targets ≡ self.now.target * self.now.counts }
        ensures low { result < 2 ^ 80 }
    {
        times(self.target, self.counts) - times(self.count, self.targets)
    }

    /// How many logs are wanted of the class at this count, in tenths of a log.
    pub fn wanted_tenths(&self) -> u128
        ensures { result ≡ half_up (10 * (self.now.target * self.now.counts)) self.now.targets }
    {
        half_up(
            10 * times(self.target, self.counts),
            u128::from(self.targets),
        )
    }

    /// How many logs lack, in tenths of a log.
    pub fn tenths(&self) -> u128
        ensures { result ≡ half_up (10 * gap_of self.now) self.now.targets }
    {
        half_up(10 * self.gap(), u128::from(self.targets))
    }

    /// Points of the degree that the class costs, in ten-thousandths.
    #[tactic(auto, using(crate::proofs::LackLemmas::whole_product))]
    pub fn cost(&self) -> u128
        ensures { result ≡ half_up (10000 * gap_of self.now) (self.now.targets * self.now.counts) }
    {
        let whole = u128::from(self.targets) * u128::from(self.counts);
        half_up(10_000 * self.gap(), whole)
    }
}

/// More logs that lack first.
#[tactic(auto, using(crate::proofs::LackLemmas::far_product))]
fn by_logs(one: &Lack, other: &Lack) -> Ordering
    ensures { result ≡ nat_cmp (gap_of other.now * one.now.targets) (gap_of one.now * other.now.targets) }
{
    let mine = one.gap() * u128::from(other.targets);
    let theirs = other.gap() * u128::from(one.targets);
    theirs.cmp(&mine)
}

/// Adds the classes of the assortment at a place that lack logs, once those of the assortments before it are found.
fn add_lacking(found: &mut Vec<Lack>, figures: &Figures<'_>, at: usize) -> Result<(), Memory>
    requires exists { at < length figures.now.instruction.now.assortments }
    requires before { AreLacksBefore figures.now.instruction.now figures.now.targets.value.items
        figures.now.counts.items figures.now.unsteered.items at 0 found.old.items }
    ensures { OnOk result (AreLacksBefore figures.now.instruction.now figures.now.targets.value.items
        figures.now.counts.items figures.now.unsteered.items (at + 1) 0 found.new.items) }
{
    let instruction = figures.instruction;
    let targets = part(instruction, figures.targets.as_slice(), at);
    let counts = part(instruction, figures.counts.as_slice(), at);
    let unsteered = part(instruction, figures.unsteered.as_slice(), at);
    let wanted = sum_of(targets);
    let cut = sum_of(counts);
    if wanted == 0 {
        return Ok(());
    }
    if cut == 0 {
        return Ok(());
    }
    for class in 0..targets.len() {
        let target = targets[class];
        let count = number_at(counts, class);
        if times(count, wanted) < times(target, cut) {
            found.push(Lack {
                assortment: at,
                class,
                target,
                count,
                unsteered: number_at(unsteered, class),
                targets: wanted,
                counts: cut,
            })?;
        }
    }
    Ok(())
}

/// All classes that lack logs, most logs first; of as many the lower class. Refused as `Memory` alone.
pub fn lacking(alloc: Global, figures: &Figures<'_>) -> Result<Vec<Lack>, Memory>
    ensures each_lacks { IfOk result (λ found. All (IsLackOf figures.now.instruction.now figures.now.targets.value.items
        figures.now.counts.items figures.now.unsteered.items) found.items) }
    ensures each_once { IfOk result (λ found. EachOnce figures.now.instruction.now figures.now.targets.value.items
        figures.now.counts.items found.items) }
    ensures most_first { IfOk result (λ found. AreMostFirst figures.now.instruction.now found.items) }
{
    let mut found = Vec::new(alloc);
    for at in 0..figures.instruction.assortments().len() {
        add_lacking(&mut found, figures, at)?;
    }
    found.sort_by(by_logs)?;
    Ok(found)
}
