//! `run_appraise`: from the bytes of an instruction, journals and an owner's instruction to an appraisal.
ghost use Rattle.std.specs.Prelude.{◌≡◌, ◌≤◌, IfOk, length, map};
ghost use Rattle.buck_record.specs.Reading.{listed};
ghost use Rattle.buck_book_postings.specs.declared.posting.TheConstants.{MOST_POSTINGS};
ghost use Rattle.buck_page_figures.specs.Journals.{postings_of};
ghost use Rattle.buckfleet_engine_files.specs.Several.{AreLawful};
ghost use Rattle.buckfleet_terms_files.specs.Own.{HasShapeOf};
ghost use Rattle.buckfleet_terms_files.specs.Telling.{WritesTerms};
ghost use Rattle.buckfleet_proceeds.specs.declared.appraisal.Appraisal.{Appraisal};
ghost use Rattle.buckfleet_proceeds.specs.Appraisal.{IsAppraisal};
ghost use Rattle.buckfleet_proceeds.specs.Serving.{AnswersAppraise};
ghost use Rattle.buckfleet_proceeds.specs.Text.{appraisal_text};

use crate::appraisal::appraise;
use crate::lines::appraisal_text;
use crate::opened::Opened;
use crate::replayed::check_lawful;
use buck_apt_instruction::{Instruction, Settings};
use buck_record::Memory;
use buckfleet_engine_files::{Journals, Workers, read_several, write_text};
use buckfleet_terms_files::{TermsFault, read_own};
use std::alloc::Global;
use std::io;

/// The text of an appraisal of lawful journals.
fn text_of(alloc: Global, several: &Journals, own: Instruction) -> Result<Vec<u8>, Memory>
    requires few { length (postings_of several.now.journals.items) ≤ MOST_POSTINGS }
    requires shape { HasShapeOf several.now.instruction.value own }
    requires lawful { AreLawful several.now.instruction.value several.now.journals.items }
    ensures { IfOk result (λ text. (p : Appraisal) × IsAppraisal own (postings_of several.now.journals.items) p
        × (text.items ≡ appraisal_text several.now.instruction.value p)) }
{
    let appraisal = appraise(alloc, own, several.journals.as_slice())?;
    let text = appraisal_text(alloc, &several.instruction, &appraisal)?;
    Ok(text)
}

/// The text of an appraisal over files, or why there is none.
#[tactic(auto, using(crate::proofs::Answered::appraised))]
fn answer_of<T: Workers, R: io::Read + Drop>(
    workers: &T,
    alloc: Global,
    settings: &Settings,
    files: Opened<R>,
) -> Result<Vec<u8>, TermsFault>
    requires share { T.can_share }
    ensures { AnswersAppraise settings.now (R.remaining files.apt) (map R.remaining files.journals.items)
        (R.remaining files.own.0, files.own.1) (listed result) }
{
    let Opened {
        mut apt,
        mut journals,
        own,
    } = files;
    let (mut reader, file) = own;
    let journals = journals.as_mut_slice();
    let several = read_several(workers, alloc, &mut apt, journals, settings)?;
    let own = read_own(alloc, &mut reader, file, &several.instruction)?;
    check_lawful(workers, alloc, &several)?;
    Ok(text_of(alloc, &several, own)?)
}

/// Reads an instruction file, journals and an owner's instruction, and writes what the cuts of the journals bring under
/// that: a line of columns, and then a line for each harvester, for each assortment and for all. Nothing is written
/// before the whole text is there.
///
/// The instruction file is read first, then the journals, and then the owner's instruction; each is refused, if it must
/// be, before the next is read, as by [`read_several`](buckfleet_engine_files::read_several) and
/// [`read_own`](buckfleet_terms_files::read_own). Then each journal is replayed, and the first that isn't lawful is the
/// fault,
/// `Replay` or `ReplayOf`. `Write` if the writer fails, which leaves a prefix of the text, and `Memory` if an
/// allocation failed.
#[tactic(auto, using(crate::proofs::Stopped::terms))]
pub fn run_appraise<T: Workers, R: io::Read + Drop, W: io::Write>(
    workers: &T,
    alloc: Global,
    settings: &Settings,
    files: Opened<R>,
    out: &mut W,
) -> Result<(), TermsFault>
    requires share { T.can_share }
    ensures { WritesTerms (AnswersAppraise settings.now (R.remaining files.apt) (map R.remaining files.journals.items)
        (R.remaining files.own.0, files.own.1)) (W.contents out.old) (W.contents out.new) result }
{
    let text = answer_of(workers, alloc, settings, files)?;
    Ok(write_text(out, text.as_slice())?)
}
