//! The items of a journal's table.
use buck_record::{Slot, slot};

/// The prices of a sheet.
pub const SHEET: Slot = slot!(971, 1);

/// The first item of a cut.
pub const CUT: Slot = slot!(981, 1);

/// The number and the species of a stem.
pub const HEAD: Slot = slot!(981, 2);

/// The diameters.
pub const CUT_SAMPLES: Slot = slot!(981, 3);

/// The zones: pairs of a start in mm and a grade.
pub const CUT_ZONES: Slot = slot!(981, 4);

/// The logs: start, length and assortment of each.
pub const LOGS: Slot = slot!(981, 5);

/// The worth of a cutting.
pub const WORTH: Slot = slot!(981, 6);

/// The first item of a demand.
pub const DEMAND: Slot = slot!(982, 1);

/// The targets of a demand.
pub const DEMAND_TARGETS: Slot = slot!(982, 2);
