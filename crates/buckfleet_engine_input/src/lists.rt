//! An instruction file and stem files that are read one after the other, and the stems, which threads can share.
ghost use Rattle.std.specs.Prelude.{◌≡◌, ◌≢◌, ◌<◌, ◌≤◌, length, map, drop, IfOk, IfErr, OnOk, Ok};
ghost use Rattle.std.specs.Result.{IsErrAnd};
ghost use Rattle.buck_apt.specs.Apt.{apt_of};
ghost use Rattle.buck_stem.specs.Stm.{stm_of};
ghost use Rattle.buck_book_postings.specs.Replies.{stems_of};
ghost use Rattle.buckfleet_engine_files.specs.declared.fault.EngineFault.TheVariants.{Full, Seats};
ghost use Rattle.buckfleet_engine_files.specs.Reading.{IfStopped, IsAccepted, IsStmFault, Says, apt_with};
ghost use Rattle.buckfleet_engine_input.specs.Harvest.{AreListsOf, AreNoSeats, IsFleetFault, IsListFault};

use buck_apt_instruction::{Instruction, Settings};
use buck_stem_shape::Stem;
use buckfleet_engine_files::{EngineFault, Workers, read_instruction, read_stems};
use std::alloc::Global;
use std::io;
use std::sync::Arc;

/// Stems that threads can share.
fn share(alloc: Global, stems: Vec<Stem>) -> Result<Vec<Arc<Stem>>, EngineFault>
    ensures ok { IfOk result (λ list. stems_of list.items ≡ stems.items) }
    ensures fault { IfErr result (λ e. e ≡ EngineFault.Memory) }
{
    let mut list = Vec::with_capacity(alloc, stems.len())?;
    for stem in stems {
        list.push(Arc::new(alloc, stem)?)?;
    }
    Ok(list)
}

/// The stems of the stem file of this number.
fn stems_of_file<T: Workers, R: io::Read>(
    workers: &T,
    alloc: Global,
    reader: &mut R,
    file: u32,
) -> Result<Vec<Arc<Stem>>, EngineFault>
    requires share { T.can_share }
    ensures ok { IfOk result (λ list. Says stm_of (R.remaining reader.old) (Ok (stems_of list.items))) }
    ensures refused { IfErr result (IsStmFault file (R.remaining reader.old)) }
{
    let stems = read_stems(workers, alloc, reader, file)?;
    share(alloc, stems)
}

/// The stems of all stem files, file by file: each is read, and refused if it must be, before the next.
fn read_lists<T: Workers, R: io::Read>(
    workers: &T,
    alloc: Global,
    stms: &mut [R],
) -> Result<Vec<Vec<Arc<Stem>>>, EngineFault>
    requires share { T.can_share }
    requires few { length stms.old ≤ 64 }
    ensures number { IfOk result (λ lists. length lists.items ≡ length stms.old) }
    ensures lists { IfOk result (λ lists. AreListsOf (length stms.old) (map R.remaining stms.old) lists.items) }
    ensures refused { IfErr result (IsListFault (map R.remaining stms.old)) }
    ensures order { IfErr result (IfStopped (λ last. drop last stms.new ≡ drop last stms.old)) }
{
    let mut lists = Vec::new(alloc);
    for k in 0..stms.len() {
        match stems_of_file(workers, alloc, &mut stms[k], k as u32 + 1) {
            Ok(list) => lists.push(list)?,
            Err(fault) => return Err(fault),
        }
    }
    Ok(lists)
}

/// That a fleet has so many seats: 1 to 64.
fn check_seats(number: usize) -> Result<(), EngineFault>
    ensures seats { OnOk result ((0 < number) × (number ≤ 64)) }
    ensures fault { IfErr result (λ fault. AreNoSeats number × (fault ≡ Seats)) }
{
    if number == 0 {
        return Err(EngineFault::Seats);
    }
    if number > 64 {
        return Err(EngineFault::Seats);
    }
    Ok(())
}

/// The content of a run's files.
#[derive(Drop)]
pub struct Input {
    /// The instruction.
    pub instruction: Instruction,
    /// A list of stems for each harvester, in the order of the stem files.
    pub lists: Vec<Vec<Arc<Stem>>>,
}

/// Reads an instruction file and stem files, if there are 1 to 64 stem files: else `Seats`, before anything is read.
/// The instruction file is file 0, the k-th stem file is file k; each is read, and refused if it must be, before the
/// next. `Read` comes if a reader fails or a file is longer than 67,108,864 bytes, `Apt` and `Stm` if the bytes of a
/// file are refused, and `Memory` if an allocation failed. The onlooker of the workers is shown the instruction.
pub fn read_input<T: Workers, R: io::Read>(
    workers: &T,
    alloc: Global,
    apt: &mut R,
    stms: &mut [R],
) -> Result<Input, EngineFault>
    requires share { T.can_share }
    ensures seats { AreNoSeats (length stms.old) → IsErrAnd result (λ fault. fault ≡ Seats) }
    ensures some { OnOk result ((0 < length stms.old) × (length stms.old ≤ 64)) }
    ensures instruction { IfOk result (λ input. Says apt_of (R.remaining apt.old) (Ok input.instruction)) }
    ensures number { IfOk result (λ input. length input.lists.items ≡ length stms.old) }
    ensures lists { IfOk result (λ input.
        AreListsOf (length stms.old) (map R.remaining stms.old) input.lists.items) }
    ensures refused { IfErr result (IsFleetFault (R.remaining apt.old) (map R.remaining stms.old)) }
    ensures not_full { IfErr result (λ fault. fault ≢ Full) }
    ensures order { IfErr result (IfStopped (λ last. drop last stms.new ≡ drop last stms.old)) }
    ensures unread { IfErr result (λ fault. fault ≡ Seats → apt.new ≡ apt.old) }
{
    check_seats(stms.len())?;
    let instruction = read_instruction(alloc, apt)?;
    workers.show(&instruction);
    let lists = read_lists(workers, alloc, stms)?;
    Ok(Input { instruction, lists })
}

/// [`read_input`], with a run's numbers in the place of the instruction's own, by which it is read and refused.
#[tactic(auto, using(buckfleet_engine_files::proofs::Numbers::says_with))]
pub fn read_input_with<T: Workers, R: io::Read>(
    workers: &T,
    alloc: Global,
    apt: &mut R,
    stms: &mut [R],
    settings: &Settings,
) -> Result<Input, EngineFault>
    requires share { T.can_share }
    ensures seats { AreNoSeats (length stms.old) → IsErrAnd result (λ fault. fault ≡ Seats) }
    ensures some { OnOk result ((0 < length stms.old) × (length stms.old ≤ 64)) }
    ensures instruction { IfOk result (λ input.
        Says (apt_with settings.now) (R.remaining apt.old) (Ok input.instruction)) }
    ensures accepted { OnOk result (IsAccepted apt_of (R.remaining apt.old)) }
    ensures number { IfOk result (λ input. length input.lists.items ≡ length stms.old) }
    ensures lists { IfOk result (λ input.
        AreListsOf (length stms.old) (map R.remaining stms.old) input.lists.items) }
    ensures refused { IfErr result (IsFleetFault (R.remaining apt.old) (map R.remaining stms.old)) }
    ensures not_full { IfErr result (λ fault. fault ≢ Full) }
    ensures order { IfErr result (IfStopped (λ last. drop last stms.new ≡ drop last stms.old)) }
    ensures unread { IfErr result (λ fault. fault ≡ Seats → apt.new ≡ apt.old) }
{
    let Input { instruction, lists } = read_input(workers, alloc, apt, stms)?;
    Ok(Input {
        instruction: instruction.with(settings),
        lists,
    })
}

/// How many stems stand in all lists together.
pub fn number_of_stems(lists: &[Vec<Arc<Stem>>]) -> usize {
    let mut number = 0usize;
    for list in lists {
        number = number.saturating_add(list.len());
    }
    number
}
