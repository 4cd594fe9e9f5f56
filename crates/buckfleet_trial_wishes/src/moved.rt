//! A target that is moved half way to what its class has unsteered.
ghost use Rattle.std.specs.Prelude.{◌≡◌, ◌<◌, ◌≤◌, ◌*◌, ◌^◌, ◌++◌, ◌↔◌, All, IfOk, IsTrue, OnOk, Some, length, slice_get, slice_index, sum};
ghost use Rattle.buck_apt_instruction.specs.Instruction.{AssortmentParts, classes};
ghost use Rattle.buck_apt_instruction.specs.Wanted.{MayBeWanted};
ghost use Rattle.buck_book_postings.specs.Degree.{part_of};
ghost use Rattle.buckfleet_trial_wishes.specs.Wishes.{IsMoved, IsWish, IsWishIn, factor, greatest, moved_part, moved_target};

use buck_apt_instruction::Instruction;
use buck_page_figures::{number_at, part, sum_of};
use buck_page_text::half_up;
use buck_record::Memory;
use std::alloc::Global;

/// Greatest target of a class, in logs.
const MOST: u128 = 1_000_000;

/// Greatest sum of the targets of an assortment, in logs.
const MOST_TOGETHER: u128 = 1_000_000_000;

/// What is wanted of the classes of an assortment, and how many logs they have unsteered.
#[derive(Clone, Copy)]
pub(crate) struct Asked<'a> {
    pub targets: &'a [u32],
    pub unsteered: &'a [u32],
    /// All of these together.
    pub wanted: u64,
    pub cut: u64,
    ghost wanted_is: { wanted ≡ sum targets.now },
    ghost cut_is: { cut ≡ sum unsteered.now },
}

impl<'a> Asked<'a> {
    /// The numbers of the assortment at an index, from 0, out of those of all classes.
    pub(crate) fn of(
        instruction: &Instruction,
        targets: &'a [u32],
        unsteered: &'a [u32],
        at: usize,
    ) -> Asked<'a>
        requires exists { at < length instruction.now.assortments }
        requires targets { length targets.now ≡ classes instruction.now }
        requires unsteered { length unsteered.now ≡ classes instruction.now }
        ensures targets { (a : AssortmentParts) → slice_get instruction.now.assortments at ≡ Some a
            → result.targets.now ≡ part_of instruction.now a at targets.now }
        ensures unsteered { (a : AssortmentParts) → slice_get instruction.now.assortments at ≡ Some a
            → result.unsteered.now ≡ part_of instruction.now a at unsteered.now }
    {
        let targets = part(instruction, targets, at);
        let unsteered = part(instruction, unsteered, at);
        Asked {
            targets,
            unsteered,
            wanted: sum_of(targets),
            cut: sum_of(unsteered),
        }
    }

    /// The target of a class times all logs.
    fn of_target(&self, class: usize) -> u128
        ensures is { result ≡ slice_index self.now.targets.now class * sum self.now.unsteered.now }
        ensures low { result < 2 ^ 96 }
    {
        u128::from(number_at(self.targets, class)) * u128::from(self.cut)
    }

    /// The logs of a class times all targets.
    fn of_logs(&self, class: usize) -> u128
        ensures is { result ≡ slice_index self.now.unsteered.now class * sum self.now.targets.now }
        ensures low { result < 2 ^ 96 }
    {
        u128::from(number_at(self.unsteered, class)) * u128::from(self.wanted)
    }

    /// Whether a class isn't wanted in the share that it has unsteered.
    pub(crate) fn is_wish(&self, class: usize) -> bool
        ensures { IsTrue result ↔ IsWish self.now.targets.now self.now.unsteered.now class }
    {
        self.wanted > 0 && self.cut > 0 && self.of_target(class) != self.of_logs(class)
    }

    /// The greatest target.
    #[tactic(auto, using(crate::proofs::MovedLemmas::greatest_more))]
    fn greatest(&self) -> u32
        ensures { result ≡ greatest self.now.targets.now }
    {
        let mut greatest = 0u32;
        for target in self.targets {
            greatest = greatest.max(*target);
        }
        greatest
    }

    /// By how much all targets are multiplied before that of a class is moved: by as much as they may be, so that
    /// rounding the new one loses little.
    fn factor(&self, class: usize) -> u128
        requires { IsWish self.now.targets.now self.now.unsteered.now class }
        ensures factor { result ≡ factor self.now.targets.now self.now.unsteered.now class }
        ensures low { result ≤ 1000000 }
    {
        let far = self.of_logs(class).div_ceil(u128::from(self.cut));
        let of_one = MOST / u128::from(self.greatest()).max(far);
        let of_all = MOST_TOGETHER / (u128::from(self.wanted) + far);
        of_one.min(of_all).max(1)
    }

    /// The target of a class, moved half way to the share that it has unsteered, or as far as it may be: that share can
    /// be greater than any target.
    fn moved(&self, class: usize, times: u128) -> u128
        requires wish { IsWish self.now.targets.now self.now.unsteered.now class }
        requires times { times ≡ factor self.now.targets.now self.now.unsteered.now class }
        requires low { times ≤ 1000000 }
        ensures { result ≡ moved_target self.now.targets.now self.now.unsteered.now class }
    {
        let half = half_up(
            times * (self.of_target(class) + self.of_logs(class)),
            2 * u128::from(self.cut),
        );
        let others = u128::from(self.wanted) - u128::from(number_at(self.targets, class));
        let room = MOST_TOGETHER.saturating_sub(times * others);
        half.min(MOST).min(room)
    }

    /// Puts the targets of the assortment with that of a class moved.
    fn put_moved(&self, out: &mut Vec<u32>, class: usize) -> Result<(), Memory>
        requires wish { IsWish self.now.targets.now self.now.unsteered.now class }
        requires low { All (λ t. t ≤ 1000000) self.now.targets.now }
        ensures { OnOk result (out.new.items
            ≡ out.old.items ++ moved_part self.now.targets.now self.now.unsteered.now class) }
    {
        let factor = self.factor(class);
        let moved = self.moved(class, factor);
        for at in 0..self.targets.len() {
            let target = if at == class {
                moved
            } else {
                factor * u128::from(self.targets[at])
            };
            out.push(target as u32)?;
        }
        Ok(())
    }
}

/// The targets of all classes, of which that of a class of the assortment at a place is moved half way to the share of
/// logs that it has unsteered, while the others of its assortment keep their proportions: these are multiplied by as
/// much as they may be, and the moved one is rounded to the nearest, a half upwards. It stays within what a target may
/// be, and the targets of its assortment together. The class must be a wish. Refused as `Memory` alone.
pub(crate) fn moved_targets(
    alloc: Global,
    instruction: &Instruction,
    targets: &[u32],
    unsteered: &[u32],
    at: usize,
    class: usize,
) -> Result<Vec<u32>, Memory>
    requires targets { MayBeWanted instruction.now targets.now }
    requires unsteered { length unsteered.now ≡ classes instruction.now }
    requires wish { IsWishIn instruction.now targets.now unsteered.now at class }
    ensures moved { IfOk result (λ moved. IsMoved instruction.now targets.now unsteered.now at class moved.items) }
    ensures valid { IfOk result (λ moved. MayBeWanted instruction.now moved.items) }
{
    let mut moved = Vec::new(alloc);
    for place in 0..instruction.assortments().len() {
        let asked = Asked::of(instruction, targets, unsteered, place);
        if place == at {
            asked.put_moved(&mut moved, class)?;
        } else {
            moved.extend_from_slice(asked.targets)?;
        }
    }
    Ok(moved)
}
