//! The items of a journal as people speak of them: a new one is a row here.
use crate::slots::{CUT, CUT_SAMPLES, CUT_ZONES, DEMAND, DEMAND_TARGETS, HEAD, LOGS, SHEET, WORTH};
use buck_apt_instruction::slots::{LENGTHS, TARGETS};
use buck_book_postings::MOST_POSTINGS;
use buck_record::Count::{AtMost, One, Pairs, Slots, Triples, UpTo};
use buck_record::Level::{Head, Member, Opener};
use buck_record::Order::Rising;
use buck_record::{Described, Slot, described};
use buck_stem_shape::slots::{GRADES, MOST_SAMPLES, MOST_ZONES, SAMPLES, SPECIES, STARTS};
use buck_value::HIGHEST_PRICE;

/// A slot with the range of some of its numbers.
macro_rules! within {
    ($slot:expr, $low:expr, $high:expr) => {
        Slot {
            number: $slot.number,
            kind: $slot.kind,
            low: $low,
            high: $high,
        }
    };
}

/// The most numbers of a list by classes.
const MOST_CLASSES: usize = 16_384;

/// In table order.
pub static ITEMS: [Described; 9] = [
    described!(
        [within!(SHEET, 0, HIGHEST_PRICE)],
        "prices of a version",
        Head,
        AtMost(MOST_CLASSES)
    ),
    described!(
        [
            within!(CUT, 1, 64),
            within!(CUT, 1, MOST_POSTINGS),
            within!(CUT, 0, MOST_POSTINGS)
        ],
        "cut",
        Opener,
        Slots
    ),
    described!(
        [HEAD, within!(HEAD, SPECIES.low, SPECIES.high)],
        "stem and species",
        Member,
        Slots
    ),
    described!(
        [within!(CUT_SAMPLES, SAMPLES.low, SAMPLES.high)],
        "diameters",
        Member,
        UpTo(MOST_SAMPLES)
    ),
    described!(
        [
            within!(CUT_ZONES, STARTS.low, STARTS.high),
            within!(CUT_ZONES, GRADES.low, GRADES.high)
        ],
        "grade zones",
        Member,
        Pairs(MOST_ZONES),
        Rising(2)
    ),
    described!(
        [
            within!(LOGS, 0, STARTS.high),
            within!(LOGS, 0, LENGTHS.high),
            within!(LOGS, 0, 15)
        ],
        "logs",
        Member,
        Triples(80)
    ),
    described!([WORTH], "worth", Member, One),
    described!(
        [
            within!(DEMAND, 1, 64),
            within!(DEMAND, 1, MOST_POSTINGS),
            within!(DEMAND, 0, MOST_POSTINGS)
        ],
        "demand",
        Opener,
        Slots
    ),
    described!(
        [within!(DEMAND_TARGETS, TARGETS.low, TARGETS.high)],
        "targets",
        Member,
        AtMost(MOST_CLASSES)
    ),
];
