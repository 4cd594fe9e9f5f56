//! The table of a stem file: each item by number and kind, the range of its numbers, and how many there may be.
//! `MOST_..` is how many numbers an item may have, if more than one. Code and definitions take all of these
//! from here. What a valid stem is (`IsStem`) has the limits once more, written out.
use buck_record::rules::FILE;
use buck_record::{Slot, slot};

/// The number of a stem, which begins it; it may be any.
pub const STEM: Slot = slot!(951, 1);

/// The species.
pub const SPECIES: Slot = slot!(952, 1, 1..=255);

/// The diameters in mm, one or more.
pub const SAMPLES: Slot = slot!(953, 1, 0..=1500);

/// Greatest number of diameters of a stem: one every 100 mm, from 0 to 40,000 mm.
pub const MOST_SAMPLES: usize = 401;

/// The zones, which may be absent, alternating a start in mm and a grade; each starts after the one before.
pub const ZONES: Slot = slot!(954, 1);

/// The starts of zones.
pub const STARTS: Slot = slot!(ZONES.number, ZONES.kind, 0..=40_000);

/// The grades of zones.
pub const GRADES: Slot = slot!(ZONES.number, ZONES.kind, 1..=8);

/// Greatest number of zones of a stem.
pub const MOST_ZONES: usize = 100;

/// The items that stand once in a stem, after its number.
pub const NEEDED: [Slot; 2] = [SPECIES, SAMPLES];

/// The items that may stand once in a stem, after its number.
pub const MEMBERS: [Slot; 3] = [SPECIES, SAMPLES, ZONES];

/// All slots of the table: the kind of file, the number, and those of a stem. Items in others are skipped.
pub const TABLE: [Slot; 5] = [FILE, STEM, SPECIES, SAMPLES, ZONES];
