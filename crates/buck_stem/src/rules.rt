//! Tests of the numbers of zones, and the zones of numbers.
ghost use Rattle.std.specs.Prelude.{◌≡◌, ◌*◌, ◌%◌, ◌==◌, ◌&&◌, nat_le, IfOk, true};
ghost use Rattle.buck_record.specs.checking.Rules.{within, all_within, is_rising};
ghost use Rattle.buck_stem_shape.specs.declared.slots.TheConstants.{GRADES};
ghost use Rattle.buck_stem.specs.Stm.{starts, grades, zones_of};

use buck_record::Slot;
use buck_stem_shape::slots::MOST_ZONES;
use std::alloc::{AllocError, Global};

/// The number is in the range of the slot.
fn is_within(slot: Slot, n: u32) -> bool
    ensures { result ≡ within slot.low slot.high n }
{
    slot.low <= n && n <= slot.high
}

/// Each number at an odd place is in the range of the item.
pub(crate) fn starts_within(slot: Slot, zones: &[u32]) -> bool
    ensures { result ≡ all_within slot.low slot.high (starts zones.now) }
{
    let mut rest = zones;
    while rest.len() > 1 {
        if !is_within(slot, rest[0]) {
            return false;
        }
        rest = &rest[2..];
    }
    rest.is_empty() || is_within(slot, rest[0])
}

/// Each number at an even place is in the range of the item.
pub(crate) fn grades_within(slot: Slot, zones: &[u32]) -> bool
    ensures { result ≡ all_within slot.low slot.high (grades zones.now) }
{
    zones.is_empty() || starts_within(slot, &zones[1..])
}

/// Each number at an odd place is above the one at the odd place before.
pub(crate) fn starts_rise(zones: &[u32]) -> bool
    ensures { result ≡ is_rising (starts zones.now) }
{
    let mut rest = zones;
    while rest.len() > 2 {
        if rest[2] <= rest[0] {
            return false;
        }
        rest = &rest[2..];
    }
    true
}

/// An even count, of no more zones than there may be.
pub(crate) fn is_count_of_zones(count: usize) -> bool
    ensures { result ≡ (count % 2 == 0 && nat_le count (2 * MOST_ZONES)) }
{
    count % 2 == 0 && count <= 2 * MOST_ZONES
}

/// Starts and grades, two by two.
pub(crate) fn zones_of(alloc: Global, numbers: &[u32]) -> Result<Vec<(u32, u8)>, AllocError>
    requires { all_within GRADES.low GRADES.high (grades numbers.now) ≡ true }
    ensures { IfOk result (λ zones. zones.items ≡ zones_of numbers.now) }
{
    let mut zones = Vec::with_capacity(alloc, numbers.len() / 2)?;
    let mut rest = numbers;
    while rest.len() > 1 {
        zones.push((rest[0], rest[1] as u8))?;
        rest = &rest[2..];
    }
    Ok(zones)
}
