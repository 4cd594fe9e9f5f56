//! Writing texts and fault lines.
ghost use Rattle.std.specs.Prelude.{◌∷◌, codes};
ghost use Rattle.std.specs.Fmt.{decimal};
ghost use Rattle.buck_record.specs.writing.Written.{spelled};
ghost use Rattle.buck_record.specs.writing.Line.{line_of};
ghost use Rattle.buckfleet_engine_files.specs.Faults.{numbered_line, fault_line};
ghost use Rattle.buckfleet_engine_files.specs.Told.{check_numbers};
ghost use Rattle.buckfleet_engine_files.specs.Written.{IsWritten, TellsWritten};
ghost use Rattle.buckfleet_engine_text.specs.Text.{joined};

use crate::check_fault::CheckFault;
use crate::fault::EngineFault;
use buck_record::Numbered;
use itoa::Buffer;
use std::io;

/// Writes a text. `Write` if the writer fails or takes nothing: then a prefix of the text is written.
pub fn write_text<W: io::Write>(writer: &mut W, text: &[u8]) -> Result<(), EngineFault>
    ensures { IsWritten (W.contents writer.old) (W.contents writer.new) text.now result }
{
    let mut at = 0;
    for _ in 0..text.len() {
        if at >= text.len() {
            return Ok(());
        }
        match writer.write(&text[at..]) {
            Ok(0) | Err(_) => return Err(EngineFault::Write),
            Ok(count) => at += count,
        }
    }
    if at >= text.len() {
        Ok(())
    } else {
        Err(EngineFault::Write)
    }
}

/// Writes the pieces of a text one after the other, or a prefix of the text if the writer fails or takes nothing.
pub fn write_pieces<W: io::Write>(writer: &mut W, pieces: &[Vec<u8>]) -> Result<(), EngineFault>
    ensures { IsWritten (W.contents writer.old) (W.contents writer.new) (joined pieces.now) result }
{
    // Joined first, they would take a sixteenth of the time and as much memory again.
    for piece in pieces {
        write_text(writer, piece.as_slice())?;
    }
    Ok(())
}

/// Writes a number in decimal, after a space.
#[tactic(auto, using(crate::proofs::WrittenLemmas::steps))]
fn write_number<W: io::Write>(writer: &mut W, number: u64) -> Result<(), EngineFault>
    ensures { IsWritten (W.contents writer.old) (W.contents writer.new) (32 ∷ decimal number) result }
{
    let mut buffer = Buffer::new();
    write_text(writer, b" ")?;
    write_text(writer, buffer.format(number).as_bytes())
}

/// Writes numbers in decimal, each after a space.
fn write_numbers<W: io::Write>(writer: &mut W, numbers: &[u64]) -> Result<(), EngineFault>
    ensures { IsWritten (W.contents writer.old) (W.contents writer.new) (spelled numbers.now) result }
{
    for number in numbers {
        write_number(writer, *number)?;
    }
    Ok(())
}

/// Writes a line: words, and numbers after them.
#[tactic(auto, using(crate::proofs::WrittenLemmas::steps))]
fn write_line<W: io::Write>(
    writer: &mut W,
    words: &[u8],
    numbers: &[u64],
) -> Result<(), EngineFault>
    ensures { IsWritten (W.contents writer.old) (W.contents writer.new) (line_of words.now numbers.now) result }
{
    write_text(writer, words)?;
    write_numbers(writer, numbers)?;
    write_text(writer, b"\n")
}

/// Writes the line of a fault that has a number: what kind it is of, the number of the file if there are several,
/// and the fault's number and fields. Memory that ran out has a line of its own.
#[tactic(auto, using(crate::proofs::WrittenLemmas::unnumbered))]
fn write_numbered<W: io::Write, F: Numbered>(
    writer: &mut W,
    kind: &[u8],
    file: &[u64],
    fault: &F,
) -> Result<(), EngineFault>
    ensures { IsWritten (W.contents writer.old) (W.contents writer.new)
        (numbered_line kind.now file.now (F.numbers fault.now)) result }
{
    let numbers = fault.numbers();
    let numbers = numbers.as_slice();
    if numbers.is_empty() {
        return write_text(writer, b"memory\n");
    }
    write_text(writer, kind)?;
    write_numbers(writer, file)?;
    write_line(writer, b" fault", numbers)
}

/// Writes the line of a journal that isn't that of the stem files or of the rule.
fn write_check_line<W: io::Write>(writer: &mut W, fault: &CheckFault) -> Result<(), EngineFault>
    ensures { IsWritten (W.contents writer.old) (W.contents writer.new)
        (line_of (codes "check fault") (check_numbers fault.now)) result }
{
    match fault {
        CheckFault::Other { harvester, place } => {
            let numbers = [1, u64::from(*harvester), *place as u64];
            write_line(writer, b"check fault", &numbers)
        }
        CheckFault::Uncut { harvester, place } => {
            let numbers = [2, u64::from(*harvester), *place as u64];
            write_line(writer, b"check fault", &numbers)
        }
        CheckFault::Surplus { harvester, place } => {
            let numbers = [3, u64::from(*harvester), *place as u64];
            write_line(writer, b"check fault", &numbers)
        }
        CheckFault::Price {
            version,
            class,
            price,
            wanted,
        } => {
            let numbers = [
                4,
                u64::from(*version),
                *class as u64,
                u64::from(*price),
                *wanted,
            ];
            write_line(writer, b"check fault", &numbers)
        }
    }
}

/// Writes the line of a fault.
fn write_fault_line<W: io::Write>(writer: &mut W, fault: &EngineFault) -> Result<(), EngineFault>
    ensures { IsWritten (W.contents writer.old) (W.contents writer.new) (fault_line fault.now) result }
{
    // Word by word: a text made first would take memory, which may be what ran out.
    match fault {
        EngineFault::Read { file } => write_line(writer, b"read fault", &[u64::from(*file)]),
        EngineFault::Write => write_text(writer, b"write fault\n"),
        EngineFault::Apt(fault) => write_numbered(writer, b"apt", &[], fault),
        EngineFault::Stm { file, fault } => {
            write_numbered(writer, b"stm", &[u64::from(*file)], fault)
        }
        EngineFault::Journal(fault) => write_numbered(writer, b"journal", &[], fault),
        EngineFault::JournalOf { journal, fault } => {
            write_numbered(writer, b"journal", &[u64::from(*journal)], fault)
        }
        EngineFault::Replay(fault) => write_numbered(writer, b"replay", &[], fault),
        EngineFault::ReplayOf { journal, fault } => {
            write_numbered(writer, b"replay", &[u64::from(*journal)], fault)
        }
        EngineFault::Check(fault) => write_check_line(writer, fault),
        EngineFault::Seats => write_text(writer, b"seats\n"),
        EngineFault::Full => write_text(writer, b"full\n"),
        EngineFault::Close(fault) => write_numbered(writer, b"close", &[], fault),
        EngineFault::Memory => write_text(writer, b"memory\n"),
    }
}

/// Writes the one line that the program says of a fault: its kind and number, then its fields in the order of their
/// definition, each after a space. It takes no memory. False if the writer failed, after a prefix of the line.
pub fn write_fault<W: io::Write>(writer: &mut W, fault: &EngineFault) -> bool
    ensures { TellsWritten (W.contents writer.old) (W.contents writer.new) (fault_line fault.now) result }
{
    match write_fault_line(writer, fault) {
        Ok(()) => true,
        Err(_) => false,
    }
}
