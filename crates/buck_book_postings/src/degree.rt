//! The degree of apportionment.
ghost use Rattle.std.specs.Prelude.{◌≡◌, ◌*◌, ◌<◌, ◌≤◌, ◌^◌, length};
ghost use Rattle.buck_apt_instruction.specs.Instruction.{classes};
ghost use Rattle.buck_book_postings.specs.Degree.{IsDegreeBy, shared_of};

use crate::targets::sum_of;
use buck_apt_instruction::{Class, Instruction};

/// Over all classes, the lesser of what is wanted as a share of all wanted and what was cut as a share of all cut.
fn shared(targets: &[u32], counts: &[u32], wanted: u128, cut: u128) -> u128
    requires few { length targets.now ≤ 1024 }
    requires one_each { length counts.now ≡ length targets.now }
    requires low { (wanted ≤ 1024 * 2 ^ 32) × (cut ≤ 1024 * 2 ^ 32) }
    ensures { result ≡ shared_of wanted cut targets.now counts.now }
{
    let mut all = 0;
    for i in 0..targets.len() {
        let by_target = u128::from(targets[i]) * cut;
        let by_count = u128::from(counts[i]) * wanted;
        all += by_target.min(by_count);
    }
    all
}

/// The degree of apportionment of the assortment at a place, in ten-thousandths, rounded down once, given what is
/// wanted of each class of the instruction and how many logs were cut in each: how far these logs have the proportions
/// of those wanted. None if nothing is wanted of the assortment or nothing was cut.
pub fn degree_at(
    instruction: &Instruction,
    targets: &[u32],
    counts: &[u32],
    at: usize,
) -> Option<u32>
    requires exists { at < length instruction.now.assortments }
    requires targets { length targets.now ≡ classes instruction.now }
    requires counts { length counts.now ≡ classes instruction.now }
    ensures { IsDegreeBy instruction.now targets.now counts.now at result }
{
    let assortment = &instruction.assortments()[at];
    let number = assortment.classes();
    let first = instruction.index(Class {
        assortment: at as u8,
        row: 0,
        column: 0,
    });
    let after = first + number;
    let targets = &targets[first..after];
    let counts = &counts[first..after];
    let wanted = u128::from(sum_of(targets));
    let cut = u128::from(sum_of(counts));
    if wanted * cut == 0 {
        return None;
    }
    Some((shared(targets, counts, wanted, cut) * 10_000 / (wanted * cut)) as u32)
}
