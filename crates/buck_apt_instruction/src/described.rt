//! The items of an instruction file as people speak of them: a new one is a row here.
use crate::slots::{
    COUNT, DIAMETERS, GRADES, LENGTHS, LIMIT, LONGEST_NAME, MODULE, MOST_COLUMNS, MOST_GRADES,
    MOST_ROWS, NAME, PERIOD, PRICE_KIND, PRICES, SPECIES, TARGETS, TRIM, UPPER,
};
use buck_record::Count::{Any, Classes, Names, One, Text, UpTo};
use buck_record::Level::{Head, Member, Opener};
use buck_record::Order::{AboveLower, Rising};
use buck_record::rules::FILE;
use buck_record::{Described, described};

/// In table order.
pub static ITEMS: [Described; 15] = [
    described!([FILE], "kind of file", Head, Any),
    described!([MODULE], "module", Head, One),
    described!([PERIOD], "period", Head, One),
    described!([LIMIT], "limit", Head, One),
    described!([COUNT], "number of assortments", Head, Names),
    described!([NAME], "name", Opener, Text(LONGEST_NAME)),
    described!([SPECIES], "species", Member, One),
    described!([GRADES], "grades", Member, UpTo(MOST_GRADES), Rising(1)),
    described!([PRICE_KIND], "price kind", Member, One),
    described!(
        [DIAMETERS],
        "lower diameters",
        Member,
        UpTo(MOST_ROWS),
        Rising(1)
    ),
    described!([UPPER], "upper diameter", Member, One, AboveLower),
    described!([LENGTHS], "lengths", Member, UpTo(MOST_COLUMNS), Rising(1)),
    described!([PRICES], "base prices", Member, Classes),
    described!([TARGETS], "targets", Member, Classes),
    described!([TRIM], "trim allowance", Member, One),
];
