//! The files of a trial: an instruction, stem files, and a file of targets, if one is named.
ghost use Rattle.std.specs.Prelude.{◌≡◌, ◌<◌, ◌≤◌, IfErr, IfOk, None, OnOk, Some, length, map};
ghost use Rattle.std.specs.Option.{option_map};
ghost use Rattle.std.specs.Result.{IsErrAnd};
ghost use Rattle.buckfleet_engine_files.specs.declared.fault.EngineFault.TheVariants.{Full, Seats};
ghost use Rattle.buck_fleet_round_robin.specs.Turn.{stems_in_all};
ghost use Rattle.buck_book_postings.specs.declared.posting.TheConstants.{MOST_POSTINGS};
ghost use Rattle.buckfleet_engine_input.specs.Harvest.{AreNoSeats, HaveTooMany, IsFleetFault};
ghost use Rattle.buckfleet_terms_files.specs.Reading.{IsTargetsFileFault};
ghost use Rattle.buckfleet_trial.specs.Inputs.{AnswersFiles, HasWanted, IsInputFault, SaysInput, held_with};
ghost use Rattle.buckfleet_trial.specs.Running.{in_terms};

use buck_book_postings::MOST_POSTINGS;
use buck_stem_shape::Stem;
use buckfleet_engine_files::{EngineFault, Open, Workers, open_inputs};
use buckfleet_engine_input::{Input, read_input};
use buckfleet_terms_files::{TermsFault, open_more, read_wanted};
use std::alloc::Global;
use std::io;
use std::sync::Arc;

/// The files of a trial, open.
#[derive(Drop)]
pub struct Opened<F> {
    /// The instruction file.
    pub apt: F,
    /// The stem files, one for each harvester.
    pub stms: Vec<F>,
    /// The file of targets, if there is one, with its number, from 0 for the instruction file: it is the last.
    pub targets: Option<(F, u32)>,
}

/// Opens the instruction file, then the stem files in their order, and then the file of targets, if it is named. The
/// first that can't be opened is `Read` with its number.
pub fn open_files<O: Open>(
    alloc: Global,
    opener: &mut O,
    apt: &str,
    stms: &[&str],
    targets: Option<&str>,
) -> Result<Opened<O::File>, EngineFault>
    ensures { AnswersFiles O.opens opener.old opener.new apt.now (map (λ s. s.now) stms.now)
        (option_map (λ s. s.now) targets.entry) result }
{
    let (apt, stms_opened) = open_inputs(alloc, opener, apt, stms)?;
    let targets = open_more(opener, targets, stms.len() + 1)?;
    Ok(Opened {
        apt,
        stms: stms_opened,
        targets,
    })
}

/// That a history has room for all stems.
fn check_room(lists: &[Vec<Arc<Stem>>]) -> Result<(), EngineFault>
    requires few { length lists.now ≤ 64 }
    ensures room { OnOk result (stems_in_all lists.now ≤ MOST_POSTINGS) }
    ensures full { IfErr result (λ fault. fault ≡ Full) }
    ensures many { IfErr result (λ _. MOST_POSTINGS < stems_in_all lists.now) }
{
    let mut stems: u128 = 0;
    for list in lists {
        stems += list.len() as u128;
    }
    if stems > u128::from(MOST_POSTINGS) {
        return Err(EngineFault::Full);
    }
    Ok(())
}

/// The instruction and the stems that the files have, if a history has room for these.
fn read_stems<T: Workers, R: io::Read>(
    workers: &T,
    alloc: Global,
    apt: &mut R,
    stms: &mut [R],
) -> Result<Input, EngineFault>
    requires share { T.can_share }
    ensures seats { AreNoSeats (length stms.old) → IsErrAnd result (λ fault. fault ≡ Seats) }
    ensures few { IfOk result (λ input. length input.lists.items ≤ 64) }
    ensures room { IfOk result (λ input. stems_in_all input.lists.items ≤ MOST_POSTINGS) }
    ensures says { IfOk result (λ input. SaysInput (R.remaining apt.old) (map R.remaining stms.old) None
        input.instruction input.lists.items) }
    ensures refused { IfErr result (IsFleetFault (R.remaining apt.old) (map R.remaining stms.old)) }
    ensures full { IfErr result (λ fault. fault ≡ Full → HaveTooMany (map R.remaining stms.old)) }
{
    let input = read_input(workers, alloc, apt, stms)?;
    check_room(input.lists.as_slice())?;
    Ok(input)
}

/// What a file of targets puts in the place of the targets of what other files say.
fn read_moved<R: io::Read>(
    alloc: Global,
    reader: &mut R,
    file: u32,
    input: Input,
) -> Result<Input, TermsFault>
    ensures says { IfOk result (λ now.
        HasWanted input.instruction (Some (R.remaining reader.old, file)) now.instruction) }
    ensures lists { IfOk result (λ now. now.lists.items ≡ input.lists.items) }
    ensures refused { IfErr result (IsTargetsFileFault file input.instruction (R.remaining reader.old)) }
{
    let targets = read_wanted(alloc, reader, file, &input.instruction)?;
    let instruction = match input.instruction.with_targets(alloc, targets.as_slice()) {
        Ok(instruction) => instruction,
        Err(_) => return Err(TermsFault::Run(EngineFault::Memory)),
    };
    let Input {
        instruction: _,
        lists,
    } = input;
    Ok(Input { instruction, lists })
}

/// What the files of a trial say: the instruction, with the targets of the file of targets in the place of its own, if
/// there is one, and the stems. The instruction file is read first, then the stem files, and then the file of targets;
/// each is refused, if it must be, before the next is read. `Full` if there are more stems than 1,000,000, before the
/// file of targets is read. The onlooker of the workers is shown the instruction.
pub fn read_files<T: Workers, R: io::Read + Drop>(
    workers: &T,
    alloc: Global,
    files: Opened<R>,
) -> Result<Input, TermsFault>
    requires share { T.can_share }
    ensures few { IfOk result (λ input. length input.lists.items ≤ 64) }
    ensures room { IfOk result (λ input. stems_in_all input.lists.items ≤ MOST_POSTINGS) }
    ensures says { IfOk result (λ input. SaysInput (R.remaining files.apt) (map R.remaining files.stms.items)
        (held_with R.remaining files.targets) input.instruction input.lists.items) }
    ensures refused { IfErr result (IsInputFault (R.remaining files.apt) (map R.remaining files.stms.items)
        (held_with R.remaining files.targets)) }
{
    let Opened {
        mut apt,
        mut stms,
        targets,
    } = files;
    let input = of_run(read_stems(workers, alloc, &mut apt, stms.as_mut_slice()))?;
    match targets {
        None => Ok(input),
        Some((mut reader, file)) => read_moved(alloc, &mut reader, file, input),
    }
}

/// What came of a run, with its fault as one of a run over such files.
pub fn of_run<X>(made: Result<X, EngineFault>) -> Result<X, TermsFault>
    ensures { result ≡ in_terms made }
{
    match made {
        Ok(made) => Ok(made),
        Err(fault) => Err(TermsFault::Run(fault)),
    }
}
