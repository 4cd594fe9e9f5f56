//! Wrong answers over the bytes of two files.
ghost use Rattle.std.specs.Prelude.{◌≡◌, Ok, Err, List, length};
ghost use Rattle.buck_apt.specs.declared.fault.AptFault.{AptFault};
ghost use Rattle.buck_apt.specs.Apt.{apt_of};
ghost use Rattle.buck_apt_instruction.specs.Instruction.{InstructionParts};
ghost use Rattle.buck_stem_shape.specs.Stem.{StemParts};
ghost use Rattle.buck_stem.specs.Stm.{stm_of};

use buck_c_calls::{buckfleet_buck, buckfleet_check, buckfleet_table};
use std::alloc::Global;

/// The two files are handed on in the other order: one that is read is refused, since it has stems and no instruction.
#[tactic(auto, using(crate::proofs::Statuses::never_refused))]
pub fn files_swapped(alloc: Global, apt: &[u8], stm: &[u8], out: &mut [u8], written: &mut usize)
    requires apt { (i : InstructionParts) × (apt_of apt.now ≡ Ok i) }
    requires stm { (stems : List StemParts) × (stm_of stm.now ≡ Ok stems) }
{
    let right = buckfleet_buck(alloc, apt, stm, out, written);
    let wrong = 1;
    prove!(right != wrong);
}

/// The status of a refused file is lost: the line is put, and the answer says that all is well.
#[tactic(auto, using(crate::proofs::Statuses::never_done))]
pub fn status_lost(alloc: Global, apt: &[u8], stm: &[u8], out: &mut [u8], written: &mut usize)
    requires { (why : AptFault) × (apt_of apt.now ≡ Err why) }
{
    let right = buckfleet_buck(alloc, apt, stm, out, written);
    let wrong = 0;
    prove!(right != wrong);
}

/// A text that is longer than the room is cut off there, and the answer says that all is well.
#[tactic(auto, using(crate::proofs::Fits::done_fits))]
pub fn text_cut_off_at_the_room(
    alloc: Global,
    apt: &[u8],
    journal: &[u8],
    out: &mut [u8],
    written: &mut usize,
) {
    let room = out.len();
    let status = buckfleet_check(alloc, apt, journal, out, written);
    let is_wrong = status == 0 && *written > room;
    prove!(!is_wrong);
}

/// No text is said to have a length of one.
pub fn length_of_no_text_one_off(
    alloc: Global,
    apt: &[u8],
    journal: &[u8],
    out: &mut [u8],
    right: &mut usize,
) {
    if buckfleet_table(alloc, apt, journal, 6, out, right) == 8 {
        let wrong = 1;
        prove!(*right != wrong);
    }
}

/// There is a table of the number 6.
#[tactic(auto, using(crate::proofs::Misuse::never_listed))]
pub fn table_of_no_number(
    alloc: Global,
    apt: &[u8],
    journal: &[u8],
    out: &mut [u8],
    written: &mut usize,
) {
    let right = buckfleet_table(alloc, apt, journal, 6, out, written);
    let wrong = 0;
    prove!(right != wrong);
}
