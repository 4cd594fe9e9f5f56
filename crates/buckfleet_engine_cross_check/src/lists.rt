//! Stem files that are read one after the other, behind an instruction file and a journal.
ghost use Rattle.std.specs.Prelude.{◌≡◌, ◌-◌, ◌≤◌, length, map, drop, IfOk, IfErr};
ghost use Rattle.buckfleet_engine_files.specs.Reading.{IfStopped};
ghost use Rattle.buckfleet_engine_cross_check.specs.Answers.{IsStemsFileFault};
ghost use Rattle.buckfleet_engine_cross_check.specs.inner.Tie.{AreStemsOf, stems_in_lists};

use buck_stem_shape::Stem;
use buckfleet_engine_files::{EngineFault, Workers, read_stems};
use std::alloc::Global;
use std::io;

/// The stems of all stem files, file by file: each is read, and refused if it must be, before the next. The first is
/// file 2.
pub(crate) fn read_files<T: Workers, R: io::Read>(
    workers: &T,
    alloc: Global,
    stms: &mut [R],
) -> Result<Vec<Vec<Stem>>, EngineFault>
    requires share { T.can_share }
    requires few { length stms.old ≤ 64 }
    ensures number { IfOk result (λ files. length files.items ≡ length stms.old) }
    ensures files { IfOk result (λ files.
        AreStemsOf (length stms.old) (map R.remaining stms.old) (stems_in_lists files.items)) }
    ensures refused { IfErr result (IsStemsFileFault (map R.remaining stms.old)) }
    ensures order { IfErr result (IfStopped (λ last. drop (last - 1) stms.new ≡ drop (last - 1) stms.old)) }
{
    let mut files = Vec::new(alloc);
    for k in 0..stms.len() {
        match read_stems(workers, alloc, &mut stms[k], k as u32 + 2) {
            Ok(stems) => files.push(stems)?,
            Err(fault) => return Err(fault),
        }
    }
    Ok(files)
}
