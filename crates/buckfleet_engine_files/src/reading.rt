//! Files that are read to their end, and the instruction and the stems that they have.
ghost use Rattle.std.specs.Prelude.{◌≡◌, ◌⊎◌, Ok, OnOk, IfOk, IfErr, IfSome};
ghost use Rattle.buck_apt.specs.Apt.{apt_of};
ghost use Rattle.buck_stem.specs.Stm.{stm_of};
ghost use Rattle.buckfleet_engine_files.specs.declared.fault.EngineFault.TheVariants.{Apt, Memory, Read, Stm};
ghost use Rattle.buckfleet_engine_files.specs.Reading.{IsAccepted, IsAptFault, IsStmFault, IsWithinLimit, Says, apt_with};
ghost use Rattle.buckfleet_engine_files.specs.Reading.{AreRefused};

use crate::fault::EngineFault;
use crate::workers::Workers;
use buck_apt::{AptFault, read_apt};
use buck_apt_instruction::{Instruction, Settings};
use buck_stem::StmFault;
use buck_stem_shape::Stem;
use std::alloc::Global;
use std::io;

/// The most bytes that a file may have.
const LIMIT: usize = 67_108_864;

/// All bytes of the file of this number. `Read` if the reader fails or gives more than 67,108,864 bytes, and `Memory`
/// if an allocation failed.
pub fn read_file<R: io::Read>(
    alloc: Global,
    reader: &mut R,
    file: u32,
) -> Result<Vec<u8>, EngineFault>
    ensures whole { IfOk result (λ bytes. IfSome (R.remaining reader.old) (λ input. bytes.items ≡ input)) }
    ensures limit { IfOk result (λ bytes. IsWithinLimit bytes.items) }
    ensures faults { IfErr result (λ e. (e ≡ Read file) ⊎ (e ≡ Memory)) }
{
    let mut bytes = Vec::new(alloc);
    let mut chunk = [0u8; 65_536];
    // Each turn reads a byte at least, so the end or a byte too many comes before the turns run out.
    for _ in 0..LIMIT + 2 {
        let Ok(count) = reader.read(&mut chunk) else {
            return Err(EngineFault::Read { file });
        };
        if count == 0 {
            return Ok(bytes);
        }
        if count > LIMIT - bytes.len() {
            return Err(EngineFault::Read { file });
        }
        bytes.extend_from_slice(&chunk[..count])?;
    }
    Err(EngineFault::Read { file })
}

/// The instruction of the bytes of file 0.
pub fn instruction_in(alloc: Global, bytes: &[u8]) -> Result<Instruction, EngineFault>
    ensures ok { IfOk result (λ instruction. apt_of bytes.now ≡ Ok instruction) }
    ensures refused { IfErr result (AreRefused Apt apt_of bytes.now) }
{
    match read_apt(alloc, bytes) {
        Ok(instruction) => Ok(instruction),
        Err(AptFault::Memory) => Err(EngineFault::Memory),
        Err(fault) => Err(EngineFault::Apt(fault)),
    }
}

/// The stems of the bytes of the file of this number.
pub fn stems_in<T: Workers>(
    workers: &T,
    alloc: Global,
    bytes: &[u8],
    file: u32,
) -> Result<Vec<Stem>, EngineFault>
    requires share { T.can_share }
    ensures ok { IfOk result (λ stems. stm_of bytes.now ≡ Ok stems.items) }
    ensures refused { IfErr result (AreRefused (Stm file) stm_of bytes.now) }
{
    match workers.read_stm(alloc, bytes) {
        Ok(stems) => Ok(stems),
        Err(StmFault::Memory) => Err(EngineFault::Memory),
        Err(fault) => Err(EngineFault::Stm { file, fault }),
    }
}

/// The instruction that the instruction file has, file 0. `Read` if the reader fails or the file is longer than
/// 67,108,864 bytes, `Apt` if its bytes are refused, and `Memory` if an allocation failed.
pub fn read_instruction<R: io::Read>(alloc: Global, apt: &mut R) -> Result<Instruction, EngineFault>
    ensures ok { IfOk result (λ instruction. Says apt_of (R.remaining apt.old) (Ok instruction)) }
    ensures refused { IfErr result (IsAptFault (R.remaining apt.old)) }
{
    let bytes = read_file(alloc, apt, 0)?;
    instruction_in(alloc, bytes.as_slice())
}

/// [`read_instruction`], with a run's numbers in the place of the instruction's own, by which it is read and refused.
#[tactic(auto, using(crate::proofs::Numbers::says_with))]
pub fn read_instruction_with<R: io::Read>(
    alloc: Global,
    apt: &mut R,
    settings: &Settings,
) -> Result<Instruction, EngineFault>
    ensures ok { IfOk result (λ instruction. Says (apt_with settings.now) (R.remaining apt.old) (Ok instruction)) }
    ensures accepted { OnOk result (IsAccepted apt_of (R.remaining apt.old)) }
    ensures refused { IfErr result (IsAptFault (R.remaining apt.old)) }
{
    let own = read_instruction(alloc, apt)?;
    Ok(own.with(settings))
}

/// The stems that the stem file of this number has.
pub fn read_stems<T: Workers, R: io::Read>(
    workers: &T,
    alloc: Global,
    stm: &mut R,
    file: u32,
) -> Result<Vec<Stem>, EngineFault>
    requires share { T.can_share }
    ensures ok { IfOk result (λ stems. Says stm_of (R.remaining stm.old) (Ok stems.items)) }
    ensures refused { IfErr result (IsStmFault file (R.remaining stm.old)) }
{
    let bytes = read_file(alloc, stm, file)?;
    stems_in(workers, alloc, bytes.as_slice(), file)
}
