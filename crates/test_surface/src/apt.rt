//! Instructions.
ghost use Rattle.std.specs.Prelude.{length, ◌<◌};
ghost use Rattle.buck_apt.specs.Instruction.{IsClass};

use buck_apt::{AptFault, Assortment, Class, Instruction};
use std::alloc::Global;

/// `buck_apt::read_apt`.
pub fn read_apt(alloc: Global, bytes: &[u8]) -> Result<Instruction, AptFault> {
    buck_apt::read_apt(alloc, bytes)
}

/// `buck_apt::Assortment`: `price`, `target`, `targets_sum` and `classes`.
pub fn assortment(assortment: &Assortment, row: usize, column: usize)
    requires row { row < length assortment.now.diameters }
    requires column { column < length assortment.now.lengths }
{
    let _price: u32 = assortment.price(row, column);
    let _target: u32 = assortment.target(row, column);
    let _targets: u64 = assortment.targets_sum();
    let _classes: usize = assortment.classes();
}

/// `buck_apt::Instruction`: `classes`, `index` and `same`.
pub fn instruction(instruction: &Instruction, class: Class, other: &Instruction)
    requires { IsClass instruction.now class }
{
    let _classes: usize = instruction.classes();
    let _index: usize = instruction.index(class);
    let _is_same: bool = instruction.same(other);
}
