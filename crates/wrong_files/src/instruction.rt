//! Wrong bodies of instructions and their reader.
ghost use Rattle.std.specs.Prelude.{◌≡◌, ◌≢◌, ◌<◌, ◌+◌, ◌*◌, length, slice_get, slice_index, sum};
ghost use Rattle.buck_apt_instruction.specs.Instruction.{IsClass, classes, classes_before, place_in};

use buck_apt::{instruction_text, read_apt};
use buck_apt_instruction::{Assortment, Class, Instruction};
use std::alloc::Global;

/// An instruction has no assortment.
pub fn assortments_are_none(instruction: &Instruction) {
    let right = instruction.assortments().len();
    let wrong = 0;
    prove!(right != wrong);
}

/// The classes are the rows.
pub fn classes_are_rows(assortment: &Assortment)
    requires rows { 0 < length assortment.now.diameters }
    requires columns { 1 < length assortment.now.lengths }
{
    let right = assortment.classes();
    let wrong = assortment.diameters().len();
    prove!(right != wrong);
}

/// A class's price is its target.
pub fn price_is_target(assortment: &Assortment, row: usize, column: usize)
    requires class { (row < length assortment.now.diameters) × (column < length assortment.now.lengths) }
    requires differ { slice_index assortment.now.prices (row * length assortment.now.lengths + column)
        ≢ slice_index assortment.now.targets (row * length assortment.now.lengths + column) }
{
    let right = assortment.price(row, column);
    let wrong = assortment.target(row, column);
    prove!(right != wrong);
}

/// Each column is given the target of the row's first.
pub fn target_of_first_column(assortment: &Assortment, row: usize, column: usize)
    requires class { (row < length assortment.now.diameters) × (column < length assortment.now.lengths) }
    requires differ { slice_index assortment.now.targets (row * length assortment.now.lengths + column)
        ≢ slice_index assortment.now.targets (row * length assortment.now.lengths) }
{
    let right = assortment.target(row, column);
    let wrong = assortment.target(row, 0);
    prove!(right != wrong);
}

/// The targets of an assortment together are nothing.
pub fn targets_sum_is_nothing(assortment: &Assortment)
    requires { 0 < sum assortment.now.targets }
{
    let right = assortment.targets_sum();
    let wrong = 0;
    prove!(right != wrong);
}

/// The assortments are counted in the place of their classes.
pub fn classes_are_assortments(instruction: &Instruction)
    requires { classes instruction.now ≢ length instruction.now.assortments }
{
    let right = instruction.classes();
    let wrong = instruction.assortments().len();
    prove!(right != wrong);
}

/// A class is placed within its assortment alone, without the classes of the assortments before.
pub fn index_without_offset(instruction: &Instruction, class: Class, wrong: usize)
    requires class { IsClass instruction.now class }
    requires wrong { wrong ≡ place_in (slice_get instruction.now.assortments class.assortment) class.row class.column }
    requires offset { classes_before instruction.now class.assortment ≢ 0 }
{
    let right = instruction.index(class);
    prove!(right != wrong);
}

/// Two instructions are called equal though their assortments differ.
pub fn same_by_number_of_assortments(one: &Instruction, other: &Instruction)
    requires { one.now.assortments ≢ other.now.assortments }
{
    let right = one.same(other);
    let wrong = true;
    prove!(right != wrong);
}

/// Two assortments are called equal though their targets differ.
pub fn same_without_targets(one: &Assortment, other: &Assortment)
    requires { one.now.targets ≢ other.now.targets }
{
    let right = one.same(other);
    let wrong = true;
    prove!(right != wrong);
}

/// A copy's period is the limit.
pub fn copy_of_another_period(alloc: Global, instruction: &Instruction)
    requires { instruction.now.period ≢ instruction.now.limit }
{
    let Ok(copy) = instruction.copy(alloc) else {
        return;
    };
    let right = copy.period();
    let wrong = instruction.limit();
    prove!(right != wrong);
}

/// A trim allowance of 1 mm is left out of a text.
#[tactic(auto, unfolding(buck_record::specs::bytes::Record::numbers_of, buck_record::specs::bytes::Record::number_at_most, buck_record::specs::bytes::Record::item_of, buck_record::specs::bytes::Record::items_of, buck_record::specs::bytes::White::words, buck_record::specs::bytes::White::first_word, buck_record::specs::bytes::White::after_word, buck_record::specs::bytes::White::trim_start, buck_record::specs::bytes::White::trim_end, buck_record::specs::Reading::each_from, buck_record::specs::checking::Table::rest_in, buck_record::specs::checking::Table::groups_of, buck_record::specs::checking::Rules::numbers_in, buck_record::specs::checking::Check::each, buck_record::specs::checking::Check::make_each, buck_apt::specs::Apt::apt_of, buck_apt::specs::Apt::draft_in, buck_apt::specs::Apt::within_limits, buck_apt::specs::Apt::group_present, buck_apt::specs::Apt::present, buck_apt::specs::Apt::group_single, buck_apt::specs::Apt::single, buck_apt::specs::Apt::numbers_or, buck_apt::specs::Apt::draft_of, buck_apt::specs::Apt::file_draft_of, buck_apt::specs::Apt::draft_range, buck_apt::specs::Apt::in_range, buck_apt::specs::Apt::draft_order, buck_apt::specs::Apt::in_order, buck_apt::specs::Apt::draft_count, buck_apt::specs::Apt::in_number, buck_apt::specs::Apt::on_module, buck_apt::specs::Apt::in_targets, buck_record::specs::writing::Written::spaced, buck_apt::specs::Text::wood_text, buck_apt::specs::Text::sizes_text, buck_apt::specs::Text::tables_text, buck_apt::specs::Text::assortment_text, buck_apt::specs::Text::text_of))]
pub fn text_without_a_trim_of_1(alloc: Global) {
    let Ok(instruction) = read_apt(
        alloc,
        b"1 2 APT~901 1 100~902 1 7~903 1 500~910 1 1~911 1 SAW~912 1 1~913 1 1~914 1 2~915 1 100~915 2 900~916 1 3000~917 1 600~918 1 4~919 1 1~",
    ) else {
        return;
    };
    let Ok(right) = instruction_text(alloc, &instruction) else {
        return;
    };
    let wrong: &[u8] =
        b"1 2 APT~\n901 1 100~\n902 1 7~\n903 1 500~\n910 1 1~\n911 1 SAW~\n912 1 1~\n913 1 1~\n914 1 2~\n915 1 100~\n915 2 900~\n916 1 3000~\n917 1\n600~\n918 1\n4~\n";
    prove!(right.as_slice() != wrong);
}
