//! The table of an instruction file: each item by number and kind, the range of its numbers, and how many there may be.
//! `MOST_..` is how many numbers an item may have, if more than one. Code and definitions take all of these
//! from here. What a valid instruction is (`IsInstruction`) has the limits once more, written out.
use buck_record::rules::FILE;
use buck_record::{Slot, slot};

/// The module in mm.
pub const MODULE: Slot = slot!(901, 1, 10..=1000);

/// The period in stems.
pub const PERIOD: Slot = slot!(902, 1, 1..=1000);

/// The limit per mille.
pub const LIMIT: Slot = slot!(903, 1, 0..=1000);

/// The number of assortments.
pub const COUNT: Slot = slot!(910, 1, 1..=16);

/// The name, which begins an assortment, a text of one byte or more.
pub const NAME: Slot = slot!(911, 1);

/// Greatest number of bytes of a name.
pub const LONGEST_NAME: usize = 32;

/// The species.
pub const SPECIES: Slot = slot!(912, 1, 1..=255);

/// The grades that are allowed, strictly rising, one or more.
pub const GRADES: Slot = slot!(913, 1, 1..=8);

/// Greatest number of grades of an assortment.
pub const MOST_GRADES: usize = 8;

/// The price kind, 1 per cubic metre and 2 per piece.
pub const PRICE_KIND: Slot = slot!(914, 1, 1..=2);

/// The lower limit of each row in mm, strictly rising, one or more.
pub const DIAMETERS: Slot = slot!(915, 1, 0..=1500);

/// Greatest number of rows of an assortment.
pub const MOST_ROWS: usize = 32;

/// The exclusive upper diameter in mm, above each lower limit.
pub const UPPER: Slot = slot!(915, 2, 1..=2000);

/// The length of each column in mm, strictly rising, one or more.
pub const LENGTHS: Slot = slot!(916, 1, 500..=30_000);

/// Greatest number of columns of an assortment.
pub const MOST_COLUMNS: usize = 32;

/// The base prices, row by row.
pub const PRICES: Slot = slot!(917, 1, 0..=10_000_000);

/// The targets, row by row, which have a limit together, too.
pub const TARGETS: Slot = slot!(918, 1, 0..=1_000_000);

/// Greatest sum of the targets of one assortment, in logs.
pub const MOST_TARGETS_TOGETHER: u64 = 1_000_000_000;

/// The trim allowance in mm; if it is absent, 0.
pub const TRIM: Slot = slot!(919, 1, 0..=200);

/// What stands once in a file, after the kind of file.
pub const HEAD: [Slot; 4] = [MODULE, PERIOD, LIMIT, COUNT];

/// What may stand only once in a file.
pub const ALONE: [Slot; 5] = [FILE, MODULE, PERIOD, LIMIT, COUNT];

/// What each assortment has once, after its name.
pub const MEMBERS: [Slot; 8] = [
    SPECIES, GRADES, PRICE_KIND, DIAMETERS, UPPER, LENGTHS, PRICES, TARGETS,
];

/// What may stand only once in an assortment, after its name.
pub const IN_ASSORTMENT: [Slot; 9] = [
    SPECIES, GRADES, PRICE_KIND, DIAMETERS, UPPER, LENGTHS, PRICES, TARGETS, TRIM,
];

/// All slots of the table: those that stand once in a file, the name, and those of an assortment. Items in others are
/// skipped.
pub const TABLE: [Slot; 15] = [
    FILE, MODULE, PERIOD, LIMIT, COUNT, NAME, SPECIES, GRADES, PRICE_KIND, DIAMETERS, UPPER,
    LENGTHS, PRICES, TARGETS, TRIM,
];
