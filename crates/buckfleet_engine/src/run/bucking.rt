//! `run_buck` and `run_bare`: from the bytes of an instruction file and a stem file to the bytes of a text.
ghost use Rattle.std.specs.Prelude.{◌≡◌, ◌≢◌, IfErr};
ghost use Rattle.std.specs.List.{before_first, after_first};
ghost use Rattle.bstr.specs.Find.{IsFirstByte, is_byte};
ghost use Rattle.buck_record.specs.Reading.{listed};
ghost use Rattle.buckfleet_engine_files.specs.declared.fault.EngineFault.TheVariants.{Write};
ghost use Rattle.buckfleet_engine_files.specs.Written.{WritesText};
ghost use Rattle.buckfleet_engine_files.specs.Reading.{IfStopped};
ghost use Rattle.buckfleet_engine.specs.run.Bucking.{is_bar, AnswersBare, AnswersBuck};
ghost use Rattle.buckfleet_engine.specs.inner.Reading.{AnswersBytes};

use bstr::ByteSlice;
use buckfleet_engine_files::{
    EngineFault, Nobody, OneThread, Onlooker, instruction_in, read_file, read_instruction,
    read_stems, stems_in, write_text,
};
use buckfleet_engine_text::buck_text;
use std::alloc::Global;
use std::io;
use std::slice::from_ref;

/// The place of the first `|`.
fn bar(input: &[u8]) -> Option<usize>
    ensures { IsFirstByte (is_byte 124) input.now result }
{
    input.find_byte(b'|')
}

/// What stands before the first `|`.
fn apt_part(input: &[u8]) -> &[u8]
    ensures { result.now ≡ before_first is_bar input.now }
{
    match bar(input) {
        None => input,
        Some(at) => &input[..at],
    }
}

/// What stands after the first `|`; nothing if there is none.
fn stm_part(input: &[u8]) -> &[u8]
    ensures { result.now ≡ after_first is_bar input.now }
{
    match bar(input) {
        None => &[],
        Some(at) => &input[at + 1..],
    }
}

/// The text of an instruction file and a stem file.
fn text_of_two<R: io::Read>(alloc: Global, apt: &mut R, stm: &mut R) -> Result<Vec<u8>, EngineFault>
    ensures answer { AnswersBuck (R.remaining apt.old) (R.remaining stm.old) (listed result) }
    ensures order { IfErr result (IfStopped (λ last. last ≡ 0 → stm.new ≡ stm.old)) }
{
    let instruction = read_instruction(alloc, apt)?;
    let stems = read_stems(&OneThread, alloc, stm, 1)?;
    Ok(buck_text(alloc, &instruction, stems.as_slice())?)
}

/// Reads an instruction file and then a stem file, and writes the text of the stems, bucked under the base prices;
/// see [`buck_text`]. Nothing is written before all of it is there.
///
/// The instruction file is file 0 and the stem file is file 1. The instruction file is refused, if it must be,
/// before the stem file is read. `Read` comes if a reader fails or a file is longer than 67,108,864 bytes, `Apt`
/// and `Stm` if the bytes of a file are refused, `Write` if the writer fails, which leaves a prefix of the text, and
/// `Memory` if an allocation failed.
pub fn run_buck<R: io::Read, W: io::Write>(
    alloc: Global,
    apt: &mut R,
    stm: &mut R,
    writer: &mut W,
) -> Result<(), EngineFault>
    // What is written is the text of the instruction and the stems that the files have; a fault is that of the first
    // file that has one, and nothing is written; a write fault leaves a prefix of the text.
    ensures run { WritesText (AnswersBuck (R.remaining apt.old) (R.remaining stm.old))
        (W.contents writer.old) (W.contents writer.new) result }
    // If the instruction file has a fault, nothing was read of the stem file.
    ensures order { IfErr result (IfStopped (λ last. last ≡ 0 → stm.new ≡ stm.old)) }
    // Only a failed write touches the writer.
    ensures untouched { IfErr result (λ fault. fault ≢ Write → writer.new ≡ writer.old) }
{
    let text = text_of_two(alloc, apt, stm)?;
    write_text(writer, text.as_slice())
}

/// The text of the two parts of an input's bytes, which an onlooker is shown.
fn text_of_parts<L: Onlooker>(
    alloc: Global,
    onlooker: &L,
    input: &[u8],
) -> Result<Vec<u8>, EngineFault>
    ensures { AnswersBytes (before_first is_bar input.now) (after_first is_bar input.now) (listed result) }
{
    let instruction = instruction_in(alloc, apt_part(input))?;
    let stems = stems_in(&OneThread, alloc, stm_part(input), 1)?;
    onlooker.read(&instruction, from_ref(&stems));
    Ok(buck_text(alloc, &instruction, stems.as_slice())?)
}

/// The text of the two parts of an input, which an onlooker is shown.
pub(crate) fn text_of_one<L: Onlooker, R: io::Read>(
    alloc: Global,
    onlooker: &L,
    reader: &mut R,
) -> Result<Vec<u8>, EngineFault>
    ensures { AnswersBare (R.remaining reader.old) (listed result) }
{
    let input = read_file(alloc, reader, 0)?;
    text_of_parts(alloc, onlooker, input.as_slice())
}

/// Reads an instruction file, one byte `|` and a stem file from one reader, and writes the text of the stems, as
/// [`run_buck`] does of two readers.
///
/// The first `|` ends the instruction; if there is none, the stem file is empty. All is read first. `Read` and
/// `Apt` are of file 0, `Stm` is of file 1.
pub fn run_bare<R: io::Read, W: io::Write>(
    alloc: Global,
    reader: &mut R,
    writer: &mut W,
) -> Result<(), EngineFault>
    // What is written is the text of the instruction and the stems that the parts of the input have; a fault is that of
    // the first part that has one, and nothing is written; a write fault leaves a prefix of the text.
    ensures run { WritesText (AnswersBare (R.remaining reader.old)) (W.contents writer.old) (W.contents writer.new)
        result }
    // Only a failed write touches the writer.
    ensures untouched { IfErr result (λ fault. fault ≢ Write → writer.new ≡ writer.old) }
{
    let text = text_of_one(alloc, &Nobody, reader)?;
    write_text(writer, text.as_slice())
}
