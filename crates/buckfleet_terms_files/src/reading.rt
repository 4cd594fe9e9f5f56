//! Files beside an instruction that are opened and read.
ghost use Rattle.std.specs.Prelude.{◌≡◌, IfErr, IfOk, Ok, min};
ghost use Rattle.std.specs.Option.{option_map};
ghost use Rattle.buck_apt.specs.Apt.{apt_of};
ghost use Rattle.buckfleet_engine_files.specs.Reading.{Says};
ghost use Rattle.buck_book_postings.specs.Targets.{AreTargets};
ghost use Rattle.buckfleet_terms_files.specs.Own.{HasShapeOf};
ghost use Rattle.buckfleet_terms_files.specs.Reading.{AnswersLast, AnswersMore, IsOwnFileFault, IsTargetsFileFault, SaysTargets};

use crate::fault::{OwnFault, TermsFault};
use crate::own::shape_fault;
use crate::wanted::targets_in;
use buck_apt_instruction::Instruction;
use buckfleet_engine_files::{EngineFault, Open, read_file, read_instruction};
use std::alloc::Global;
use std::io;

/// The number of the file behind so many others, of which the first is file 0. A number that a fault can't hold becomes
/// 4,294,967,295.
fn number_behind(others: usize) -> u32
    ensures { result ≡ min others 4294967295 }
{
    if others < 4_294_967_295 {
        others as u32
    } else {
        4_294_967_295
    }
}

/// Opens the last file, behind so many others. The answer is the file with its number. One that can't be opened is
/// `Read` with its number.
pub fn open_last<O: Open>(
    opener: &mut O,
    name: &str,
    others: usize,
) -> Result<(O::File, u32), EngineFault>
    ensures { AnswersLast O.opens opener.old opener.new name.now (min others 4294967295) result }
{
    let file = number_behind(others);
    match opener.open(name) {
        Some(opened) => Ok((opened, file)),
        None => Err(EngineFault::Read { file }),
    }
}

/// Opens the last file, if it is named, as [`open_last`].
pub fn open_more<O: Open>(
    opener: &mut O,
    name: Option<&str>,
    others: usize,
) -> Result<Option<(O::File, u32)>, EngineFault>
    ensures { AnswersMore O.opens opener.old opener.new (option_map (λ s. s.now) name.entry)
        (min others 4294967295) result }
{
    match name {
        None => Ok(None),
        Some(name) => Ok(Some(open_last(opener, name, others)?)),
    }
}

/// The targets that the file of a number has for an instruction; see [`targets_in`](crate::targets_in). `Read` if the
/// reader fails or the file is longer than 67,108,864 bytes, and `Memory` if an allocation failed.
pub fn read_wanted<R: io::Read>(
    alloc: Global,
    reader: &mut R,
    file: u32,
    instruction: &Instruction,
) -> Result<Vec<u32>, TermsFault>
    ensures ok { IfOk result (λ targets. SaysTargets instruction.now (R.remaining reader.old) targets.items) }
    ensures valid { IfOk result (λ targets. AreTargets instruction.now targets.items) }
    ensures refused { IfErr result (IsTargetsFileFault file instruction.now (R.remaining reader.old)) }
{
    let bytes = read_file(alloc, reader, file)?;
    Ok(targets_in(alloc, bytes.as_slice(), instruction)?)
}

/// The owner's instruction that the file of a number has, which may stand beside an instruction; see
/// [`shape_fault`](crate::shape_fault). `Read` and `Memory` as of a file of targets.
pub fn read_own<R: io::Read>(
    alloc: Global,
    reader: &mut R,
    file: u32,
    instruction: &Instruction,
) -> Result<Instruction, TermsFault>
    ensures ok { IfOk result (λ own. Says apt_of (R.remaining reader.old) (Ok own)) }
    ensures shape { IfOk result (HasShapeOf instruction.now) }
    ensures refused { IfErr result (IsOwnFileFault file instruction.now (R.remaining reader.old)) }
{
    let own = match read_instruction(alloc, reader) {
        Ok(own) => own,
        Err(EngineFault::Read { .. }) => return Err(TermsFault::Run(EngineFault::Read { file })),
        Err(EngineFault::Apt(fault)) => return Err(TermsFault::Own(OwnFault::Refused(fault))),
        Err(fault) => return Err(TermsFault::Run(fault)),
    };
    match shape_fault(instruction, &own) {
        None => Ok(own),
        Some(fault) => Err(TermsFault::Own(fault)),
    }
}
