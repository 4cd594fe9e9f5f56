//! What is said of a fault, and the exit status.
ghost use Rattle.std.specs.Prelude.{◌≡◌, ◌∷◌, []};
ghost use Rattle.std.specs.Fmt.{decimal};
ghost use Rattle.buck_record.specs.writing.Written.{spelled};
ghost use Rattle.buckfleet_engine_files.specs.Faults.{numbered_line};
ghost use Rattle.buckfleet_engine_files.specs.Written.{IsWritten, TellsWritten};
ghost use Rattle.buckfleet_terms_files.specs.Faults.{terms_line};
ghost use Rattle.buckfleet_terms_files.specs.Telling.{TellsTerms, terms_status_after};

use crate::fault::{TermsFault, status};
use buck_record::Numbered;
use buckfleet_engine_files::{EngineFault, write_fault, write_text};
use itoa::Buffer;
use std::io;

/// Writes a number in decimal, after a space.
#[tactic(auto, using(buckfleet_engine_files::proofs::WrittenLemmas::steps))]
fn write_number<W: io::Write>(writer: &mut W, number: u64) -> Result<(), EngineFault>
    ensures { IsWritten (W.contents writer.old) (W.contents writer.new) (32 ∷ decimal number) result }
{
    let mut buffer = Buffer::new();
    write_text(writer, b" ")?;
    write_text(writer, buffer.format(number).as_bytes())
}

/// Writes numbers in decimal, each after a space.
fn write_numbers<W: io::Write>(writer: &mut W, numbers: &[u64]) -> Result<(), EngineFault>
    ensures { IsWritten (W.contents writer.old) (W.contents writer.new) (spelled numbers.now) result }
{
    for number in numbers {
        write_number(writer, *number)?;
    }
    Ok(())
}

/// Writes the line of a fault that has a number: what kind it is of, and the fault's number and fields. Memory that ran
/// out has a line of its own.
#[tactic(auto, using(buckfleet_engine_files::proofs::WrittenLemmas::unnumbered))]
fn write_line<W: io::Write, F: Numbered>(
    writer: &mut W,
    kind: &[u8],
    fault: &F,
) -> Result<(), EngineFault>
    ensures { IsWritten (W.contents writer.old) (W.contents writer.new)
        (numbered_line kind.now [] (F.numbers fault.now)) result }
{
    let numbers = fault.numbers();
    let numbers = numbers.as_slice();
    if numbers.is_empty() {
        return write_text(writer, b"memory\n");
    }
    write_text(writer, kind)?;
    write_text(writer, b" fault")?;
    write_numbers(writer, numbers)?;
    write_text(writer, b"\n")
}

/// Writes the line of a fault. False if the writer failed, after a prefix of the line.
fn write_numbered<W: io::Write, F: Numbered>(writer: &mut W, kind: &[u8], fault: &F) -> bool
    ensures { TellsWritten (W.contents writer.old) (W.contents writer.new)
        (numbered_line kind.now [] (F.numbers fault.now)) result }
{
    match write_line(writer, kind, fault) {
        Ok(()) => true,
        Err(_) => false,
    }
}

/// Writes the one line that the program says of a fault; see [`write_fault`]. It takes no memory. False if the
/// writer failed, after a prefix of the line.
pub fn write_terms_fault<W: io::Write>(writer: &mut W, fault: &TermsFault) -> bool
    ensures { TellsWritten (W.contents writer.old) (W.contents writer.new) (terms_line fault.now) result }
{
    match fault {
        TermsFault::Run(fault) => write_fault(writer, fault),
        TermsFault::Targets(fault) => write_numbered(writer, b"targets", fault),
        TermsFault::Own(fault) => write_numbered(writer, b"own", fault),
    }
}

/// Says how a run ended: nothing if it went well, and else the line of the fault. The answer is the exit status.
#[tactic(auto, using(buckfleet_engine_files::proofs::WrittenLemmas::first_told))]
pub fn conclude_terms<E: io::Write>(errors: &mut E, outcome: &Result<(), TermsFault>) -> u8
    ensures status { result ≡ terms_status_after outcome.now }
    ensures told { TellsTerms (E.contents errors.old) (E.contents errors.new) outcome.now }
{
    match outcome {
        Ok(()) => 0,
        Err(fault) => {
            let _ = write_terms_fault(errors, fault);
            status(fault)
        }
    }
}
