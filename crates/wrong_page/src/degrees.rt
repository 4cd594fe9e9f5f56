//! Wrong degrees of apportionment, taken apart.
ghost use Rattle.std.specs.Prelude.{◌≡◌, ◌<◌, length};
ghost use Rattle.buck_apt_instruction.specs.Instruction.{classes};
ghost use Rattle.wrong_page.specs.Wanted.{AreTwoOfOne};

use buck_apt_instruction::Instruction;
use buck_page_figures::degrees_at;

/// The degree of lengths is taken for that of diameters.
pub fn lengths_taken_for_diameters(instruction: &Instruction, targets: &[u32], counts: &[u32])
    requires exists { 0 < length instruction.now.assortments }
    requires targets { length targets.now ≡ classes instruction.now }
    requires counts { length counts.now ≡ classes instruction.now }
    requires two_rows { AreTwoOfOne 2 1 instruction.now targets.now counts.now }
{
    let degrees = degrees_at(instruction, targets, counts, 0);
    let right = degrees.diameter;
    let wrong = degrees.length;
    prove!(right != wrong);
}

/// The whole degree is taken for that of diameters.
pub fn whole_taken_for_diameters(instruction: &Instruction, targets: &[u32], counts: &[u32])
    requires exists { 0 < length instruction.now.assortments }
    requires targets { length targets.now ≡ classes instruction.now }
    requires counts { length counts.now ≡ classes instruction.now }
    requires one_row { AreTwoOfOne 1 2 instruction.now targets.now counts.now }
{
    let degrees = degrees_at(instruction, targets, counts, 0);
    let right = degrees.diameter;
    let wrong = degrees.whole;
    prove!(right != wrong);
}
