//! The items of a stem file as people speak of them: a new one is a row here.
use crate::slots::{GRADES, MOST_SAMPLES, MOST_ZONES, SAMPLES, SPECIES, STARTS, STEM};
use buck_record::Count::{Any, One, Pairs, UpTo};
use buck_record::Level::{Head, Member, Opener};
use buck_record::Order::Rising;
use buck_record::rules::FILE;
use buck_record::{Described, described};

/// In table order.
pub static ITEMS: [Described; 5] = [
    described!([FILE], "kind of file", Head, Any),
    described!([STEM], "stem number", Opener, One),
    described!([SPECIES], "species", Member, One),
    described!([SAMPLES], "diameters", Member, UpTo(MOST_SAMPLES)),
    described!(
        [STARTS, GRADES],
        "grade zones",
        Member,
        Pairs(MOST_ZONES),
        Rising(2)
    ),
];
