//! The items of a line of the input; those of a stem are as in a stem file.
use buck_record::{Slot, slot};
use buck_stem_shape::slots::{SAMPLES, SPECIES, STEM, ZONES};

/// Who asks; if it is absent, the first.
pub(crate) const HARVESTER: Slot = slot!(950, 1);

/// That a stem is previewed.
pub(crate) const PREVIEW: Slot = slot!(955, 1, 1..=1);

/// An operator's own logs of a stem: for each its start and its length in mm, and its assortment, from 0.
pub(crate) const OWN: Slot = slot!(956, 1);

/// Greatest index of the assortment of an operator's own log, from 0.
pub(crate) const HIGHEST_ASSORTMENT: u32 = 15;

/// The most logs of an operator's own.
pub(crate) const MOST_OWN: usize = 80;

pub(crate) const TARGETS: Slot = slot!(982, 2);

/// The items of a stem that a stem file has too.
pub(crate) const STEM_ITEMS: [Slot; 4] = [STEM, SPECIES, SAMPLES, ZONES];

/// What may stand once in a stem, after its number.
pub(crate) const AFTER_STEM: [Slot; 5] = [SPECIES, SAMPLES, ZONES, PREVIEW, OWN];

/// All items of the table, in its order.
pub(crate) const TABLE: [Slot; 8] = [
    HARVESTER, STEM, SPECIES, SAMPLES, ZONES, PREVIEW, OWN, TARGETS,
];
