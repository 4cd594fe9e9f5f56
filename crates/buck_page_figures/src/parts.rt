//! Numbers of the classes of one assortment, out of those of all classes.
ghost use Rattle.std.specs.Prelude.{◌≡◌, ◌*◌, ◌<◌, ◌≤◌, ◌^◌, Some, drop, length, slice_get, slice_index, sum, take};
ghost use Rattle.buck_apt_instruction.specs.Instruction.{AssortmentParts, classes, classes_before, classes_of};

use buck_apt_instruction::{Class, Instruction};

/// All of some numbers together.
pub fn sum_of(numbers: &[u32]) -> u64
    ensures sum { sum numbers.now < 2 ^ 64 → result ≡ sum numbers.now }
    ensures few { length numbers.now ≤ 1024 → result ≡ sum numbers.now }
    ensures low { result ≤ length numbers.now * 2 ^ 32 }
{
    let mut all: u64 = 0;
    for number in numbers {
        all = all.saturating_add(u64::from(*number));
    }
    all
}

/// Of some numbers with one for each class of the instruction, those of the assortment at a place; none if there are
/// fewer numbers.
pub fn part<'a, T>(instruction: &Instruction, numbers: &'a [T], at: usize) -> &'a [T]
    requires { at < length instruction.now.assortments }
    ensures part { (a : AssortmentParts) → slice_get instruction.now.assortments at ≡ Some a
        → length numbers.now ≡ classes instruction.now
        → result.now ≡ take (classes_of a) (drop (classes_before instruction.now at) numbers.now) }
    ensures few { length result.now ≤ 1024 }
{
    if numbers.len() < instruction.classes() {
        return &[];
    }
    let number = instruction.assortments()[at].classes();
    let first = instruction.index(Class {
        assortment: at as u8,
        row: 0,
        column: 0,
    });
    &numbers[first..first + number]
}

/// The number at a place of some, 0 past their end.
pub fn number_at(numbers: &[u32], at: usize) -> u32
    ensures { result ≡ slice_index numbers.now at }
{
    match numbers.get(at) {
        Some(number) => *number,
        None => 0,
    }
}
