//! Whether two instructions ask for the same cuttings: an owner's contract may have other prices, and other diameters,
//! but not other logs.
ghost use Rattle.std.specs.Prelude.{IfNone, IfSome, MatchOption};
ghost use Rattle.buckfleet_terms_files.specs.Own.{HasLogsOf, HasShapeOf, IsOther, IsShapeFault};

use crate::fault::OwnFault;
use buck_apt_instruction::{Assortment, Instruction};

/// The number and the kind of the item by which two assortments differ though they may not: the species, else the
/// grades, the lengths or the trim.
fn other_part(one: &Assortment, other: &Assortment) -> Option<u16>
    ensures { MatchOption result (HasLogsOf one.now other.now) (IsOther one.now other.now) }
{
    if one.species() != other.species() {
        return Some(912);
    }
    if one.grades() != other.grades() {
        return Some(913);
    }
    if one.lengths() != other.lengths() {
        return Some(916);
    }
    if one.trim() != other.trim() {
        return Some(919);
    }
    None
}

/// Finds the first difference for which an owner's instruction may not stand beside another: the module, else the
/// number of assortments, else the least assortment with other species, grades, lengths or trim, in this order. None if
/// it may stand beside it: all else may differ. The fault is `Whole` or `Part`.
pub fn shape_fault(instruction: &Instruction, own: &Instruction) -> Option<OwnFault>
    ensures same { IfNone result (HasShapeOf instruction.now own.now) }
    ensures other { IfSome result (IsShapeFault instruction.now own.now) }
{
    if own.module() != instruction.module() {
        return Some(OwnFault::Whole {
            number: 901,
            kind: 1,
        });
    }
    let theirs = instruction.assortments();
    let assortments = own.assortments();
    if assortments.len() != theirs.len() {
        return Some(OwnFault::Whole {
            number: 910,
            kind: 1,
        });
    }
    for assortment in 0..theirs.len() {
        if let Some(number) = other_part(&theirs[assortment], &assortments[assortment]) {
            return Some(OwnFault::Part {
                number,
                kind: 1,
                assortment,
            });
        }
    }
    None
}
