//! What an instruction is made of: lists of numbers.
ghost use Rattle.std.specs.Prelude.{◌≡◌, length, slice_index};

use buck_record::Listed;

/// What the items of an assortment say, before it is tested: the bytes of its `name`, and the numbers of each other
/// item, in the units of [`Assortment`](crate::Assortment). Of `species`, `price_kind`, `upper` and `trim` there should
/// be one; `grades`, `diameters`, `lengths`, `prices` and `targets` are lists.
#[derive(Drop)]
pub struct Draft {
    pub name: Listed<u8>,
    pub species: Listed<u32>,
    pub grades: Listed<u32>,
    pub price_kind: Listed<u32>,
    pub diameters: Listed<u32>,
    pub upper: Listed<u32>,
    pub lengths: Listed<u32>,
    pub prices: Listed<u32>,
    pub targets: Listed<u32>,
    pub trim: Listed<u32>,
}

/// What the items of a file say, before it is tested: the numbers of each, and its assortments (`drafts`). Of `module`
/// in mm, `period` in stems, `limit` in per mille and `count`, the number of assortments, there should be one.
#[derive(Drop)]
pub struct FileDraft {
    pub module: Listed<u32>,
    pub period: Listed<u32>,
    pub limit: Listed<u32>,
    pub count: Listed<u32>,
    pub drafts: Listed<Draft>,
}

/// The one number of an item that has no other.
pub(crate) fn only(numbers: Listed<u32>) -> u32
    requires { length numbers ≡ 1 }
    ensures { result ≡ slice_index numbers 0 }
{
    numbers.as_slice()[0]
}
