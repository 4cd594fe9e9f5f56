//! Wrong bodies of stems, their profiles and their reader.
ghost use Rattle.std.specs.Int.{bit_at};
ghost use Rattle.std.specs.Prelude.{◌≡◌, ◌≢◌, ◌<◌, ◌≤◌, ◌+◌, ◌-◌, ◌*◌, ◌/◌, [], IfSome};
ghost use Rattle.buck_stem_shape.specs.points.Profile.{IsMaskBetween, points_of};
ghost use Rattle.buck_stem_shape.specs.Stem.{stem_of, stem_length, diameter_at, grade_at, HasGrade};

use buck_stem::{StmFault, read_stm, read_stm_in_parts};
use buck_stem_shape::{Profile, ProfileLists, Stem, StemFault};
use std::alloc::Global;
use std::thread::Threads;

/// A range is looked at before items that stand twice.
#[tactic(auto, unfolding(buck_record::specs::bytes::Record::numbers_of, buck_record::specs::bytes::Record::number_at_most, buck_record::specs::bytes::Record::item_of, buck_record::specs::bytes::Record::items_of, buck_record::specs::bytes::White::words, buck_record::specs::bytes::White::first_word, buck_record::specs::bytes::White::after_word, buck_record::specs::bytes::White::trim_start, buck_record::specs::bytes::White::trim_end, buck_record::specs::Reading::each_from, buck_record::specs::checking::Table::rest_in, buck_record::specs::checking::Table::groups_of, buck_record::specs::checking::Rules::numbers_in, buck_record::specs::checking::Check::each, buck_record::specs::checking::Check::make_each, buck_stem::specs::Stm::stm_of, buck_stem::specs::Stm::drafts_in, buck_stem::specs::Stm::checked, buck_stem::specs::Stm::stem_present, buck_stem::specs::Stm::present, buck_stem::specs::Stm::stem_single, buck_stem::specs::Stm::single, buck_stem::specs::Stm::draft_of, buck_stem::specs::Stm::draft_range, buck_stem::specs::Stm::in_range, buck_stem::specs::Stm::draft_order, buck_stem::specs::Stm::in_order, buck_stem::specs::Stm::draft_count, buck_stem::specs::Stm::in_number, buck_stem::specs::Stm::parts_of))]
pub fn range_before_twice(alloc: Global) {
    if let Err(fault) = read_stm(alloc, b"1 2 STM~951 1 7~952 1 0~952 1 0~953 1 300 290~") {
        let wrong = StmFault::Range {
            number: 952,
            kind: 1,
        };
        prove!(fault != wrong);
    }
}

/// Of two parts that are read side by side, the second comes first.
#[tactic(auto, unfolding(buck_record::specs::bytes::Record::numbers_of, buck_record::specs::bytes::Record::number_at_most, buck_record::specs::bytes::Record::item_of, buck_record::specs::bytes::Record::items_of, buck_record::specs::bytes::White::words, buck_record::specs::bytes::White::first_word, buck_record::specs::bytes::White::after_word, buck_record::specs::bytes::White::trim_start, buck_record::specs::bytes::White::trim_end, buck_record::specs::Reading::each_from, buck_record::specs::checking::Table::rest_in, buck_record::specs::checking::Table::groups_of, buck_record::specs::checking::Rules::numbers_in, buck_record::specs::checking::Check::each, buck_record::specs::checking::Check::make_each, buck_stem::specs::Stm::stm_of, buck_stem::specs::Stm::drafts_in, buck_stem::specs::Stm::checked, buck_stem::specs::Stm::stem_present, buck_stem::specs::Stm::present, buck_stem::specs::Stm::stem_single, buck_stem::specs::Stm::single, buck_stem::specs::Stm::draft_of, buck_stem::specs::Stm::draft_range, buck_stem::specs::Stm::in_range, buck_stem::specs::Stm::draft_order, buck_stem::specs::Stm::in_order, buck_stem::specs::Stm::draft_count, buck_stem::specs::Stm::in_number, buck_stem::specs::Stm::parts_of))]
pub fn later_part_read_first<T: Threads + Sync>(rt: &T, alloc: Global) {
    let file = b"1 2 STM~951 1 7~952 1 1~953 1 300 290~951 1 8~952 1 1~953 1 300~";
    let Ok(stems) = read_stm_in_parts(rt, alloc, file, 2) else {
        return;
    };
    if let Some(stem) = stems.first() {
        let right = stem.number();
        let wrong = 8;
        prove!(right != wrong);
    }
}

fn stem(alloc: Global, samples: &[u16], zones: &[(u32, u8)]) -> Option<Stem>
    ensures { IfSome result (λ stem. stem ≡ stem_of 7 1 samples.now zones.now) }
{
    let Ok(samples) = Vec::from_slice(alloc, samples) else {
        return None;
    };
    let Ok(zones) = Vec::from_slice(alloc, zones) else {
        return None;
    };
    match Stem::make(alloc, 7, 1, samples, zones) {
        Ok(stem) => Some(stem),
        Err(_) => None,
    }
}

/// Parts within all limits are refused.
pub fn make_refuses_a_stem(alloc: Global) {
    let Ok(samples) = Vec::from_slice(alloc, &[300, 290]) else {
        return;
    };
    if let Err(fault) = Stem::make(alloc, 7, 1, samples, Vec::new(alloc)) {
        let wrong = StemFault::Limits;
        prove!(fault != wrong);
    }
}

/// A number past 65,535 is cut down.
pub fn of_parts_number_of_16_bits(alloc: Global, stem: &Stem)
    requires { 65535 < stem.now.number }
{
    let _valid = stem.length();
    let Ok(samples) = Vec::from_slice(alloc, stem.samples()) else {
        return;
    };
    let Ok(zones) = Vec::from_slice(alloc, stem.zones()) else {
        return;
    };
    let Ok(made) = Stem::of_parts(alloc, stem.number(), stem.species(), samples, zones) else {
        return;
    };
    let right = made.number();
    let wrong = 65_535;
    prove!(right != wrong);
}

/// The length counts the sample at the butt.
pub fn length_of_all_samples(stem: &Stem) {
    let right = stem.length() as usize;
    let wrong = 100 * stem.samples().len();
    prove!(right != wrong);
}

/// A sample is the least so far.
pub fn samples_are_the_least_ones(alloc: Global) {
    let Some(stem) = stem(alloc, &[300, 280, 290, 280, 280, 280, 280, 280], &[]) else {
        return;
    };
    let right = stem.samples();
    let wrong: &[u16] = &[300, 280, 280, 280, 280, 280, 280, 280];
    prove!(right != wrong);
}

/// A stem of few samples loses its one zone.
pub fn short_without_its_zones(alloc: Global) {
    let Some(stem) = stem(alloc, &[300, 290], &[(50, 2)]) else {
        return;
    };
    let right = stem.zones().len();
    let wrong = 0;
    prove!(right != wrong);
}

/// Two stems are called equal though their zones differ.
pub fn same_without_zones(one: &Stem, other: &Stem)
    requires { one.now.zones ≢ other.now.zones }
{
    let right = one.same(other);
    let wrong = true;
    prove!(right != wrong);
}

/// A diameter is that of the sample itself, and not the least so far.
pub fn diameter_of_the_raw_sample(alloc: Global) {
    let Some(stem) = stem(alloc, &[300, 280, 290], &[]) else {
        return;
    };
    let right = stem.diameter_at(200);
    let wrong = 290;
    prove!(right != wrong);
}

/// The grade at the first place stands for all: a mask without the grade of some place.
pub fn grade_at_start_alone(stem: &Stem, a: u32, b: u32, x: u32, wrong: u8)
    requires place { (a ≤ x) × (x < b) }
    requires lacks { bit_at wrong (grade_at stem.now.zones x - 1) ≢ 1 }
{
    let _grade = stem.grade_at(x);
    let right = stem.grades_between(a, b);
    prove!(right != wrong);
}

/// The butt isn't counted among the points.
pub fn points_without_the_butt(profile: &Profile<'_>, wrong: usize)
    requires { wrong ≡ stem_length profile.now.stem.samples / profile.now.module }
{
    let right = profile.points();
    prove!(right != wrong);
}

/// The diameter is that at an earlier point.
pub fn diameter_of_an_earlier_point(profile: &Profile<'_>, i: usize, earlier: usize)
    requires points { (earlier < i) × (i < points_of profile.now) }
    requires differ { diameter_at profile.now.stem.samples (earlier * profile.now.module)
        ≢ diameter_at profile.now.stem.samples (i * profile.now.module) }
{
    let right = profile.diameter(i);
    let wrong = profile.diameter(earlier);
    prove!(right != wrong);
}

/// A diameter of an earlier profile is kept.
pub fn make_in_keeps_a_diameter(lists: &mut ProfileLists, stem: &Stem)
    requires { stem_length stem.now.samples ≡ 100 }
{
    let Ok(profile) = Profile::make_in(lists, stem, 100) else {
        return;
    };
    let right = profile.diameters().len();
    let wrong = 3;
    prove!(right != wrong);
}

/// The grades from an earlier point on: a mask with a grade that no place has.
pub fn grades_from_an_earlier_point(profile: &Profile<'_>, i: usize, j: usize, grade: u8, wrong: u8)
    requires points { (i ≤ j) × (j < points_of profile.now) }
    requires shows { (1 ≤ grade) × (bit_at wrong (grade - 1) ≡ 1) }
    requires none { HasGrade profile.now.stem.zones (i * profile.now.module) (j * profile.now.module) grade → ⊥ }
{
    let right = profile.grades(i, j);
    prove!(right != wrong);
}

/// The grades from a point on without those of the step there: a mask that lacks one of these.
pub fn grades_without_the_step(profile: &Profile<'_>, i: usize, grades: u8, grade: u8, wrong: u8)
    requires points { i + 1 < points_of profile.now }
    requires rest { IsMaskBetween profile.now (i + 1) (i + 1) grades }
    requires shows { (1 ≤ grade) × HasGrade profile.now.stem.zones (i * profile.now.module) ((i + 1) * profile.now.module) grade }
    requires lacks { bit_at wrong (grade - 1) ≢ 1 }
{
    let right = profile.grades_from(i, grades);
    prove!(right != wrong);
}

/// The first step of an earlier run: a step with a grade that step `i` hasn't.
pub fn run_start_of_an_earlier_run(profile: &Profile<'_>, i: usize, grade: u8, wrong: usize)
    requires points { (wrong ≤ i) × (i + 1 < points_of profile.now) }
    requires shows { (1 ≤ grade) × HasGrade profile.now.stem.zones (wrong * profile.now.module) ((wrong + 1) * profile.now.module) grade }
    requires none { HasGrade profile.now.stem.zones (i * profile.now.module) ((i + 1) * profile.now.module) grade → ⊥ }
{
    let right = profile.run_start(i);
    prove!(right != wrong);
}
