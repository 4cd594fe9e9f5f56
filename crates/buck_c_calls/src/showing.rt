//! A cutting as C sees it.
ghost use Rattle.std.specs.Prelude.{◌≡◌, ◌≤◌, ℕ, All, length, slice_get, slice_index_or, Some};
ghost use Rattle.buck_stem_shape.specs.Stem.{stem_length};
ghost use Rattle.buck_value.specs.declared.log.Log.{Log};
ghost use Rattle.buck_value.specs.Allowed.{Allows, IsAllowed, class_in, top_diameter, top_of};
ghost use Rattle.buck_c_calls.specs.Shown.{IsCutUnder, ShowsCut, ShowsLog};
ghost use Rattle.buck_c_calls.specs.declared.showing.CutLog.{CutLog};

use buck_apt_instruction::{Assortment, Class};
use buck_book_postings::Entry;
use buck_stem_shape::Stem;
use buck_value::{Log, Sheet, column_of, row_of, volume_of, worth_of_piece};

/// The most logs that a stem can be cut into.
const MOST_LOGS: usize = 80;

/// A log of a cutting.
#[repr(C)]
#[derive(Clone, Copy, Drop)]
pub struct CutLog {
    /// Its worth, in millionths of the price unit.
    pub worth: u64,
    /// Start of the log, in mm from the butt.
    pub start: u32,
    /// How long it is, in mm, trim excluded.
    pub length: u32,
    /// The diameter where its length ends, in mm.
    pub top: u32,
    /// Price in force of its class, in price units per m³ or per piece; 0 to 20,000,000.
    pub price: u32,
    /// Index of its assortment in the instruction, from 0.
    pub assortment: u8,
    /// Index of its class's row, from 0.
    pub row: u8,
    /// Index of its class's column, from 0.
    pub column: u8,
}

/// A cutting, and where it stands in the book.
#[repr(C)]
#[derive(Drop)]
pub struct Cut {
    /// Worth of its logs together, in millionths of the price unit.
    pub worth: u64,
    /// Index of its posting in the history, from 0.
    pub position: u32,
    /// Which of its harvester's calls it is, from 1.
    pub number: u32,
    /// Version of the sheet that it was planned under, from 0.
    pub version: u32,
    /// Number of its logs, 0 to 80.
    pub logs_number: u32,
    /// Its logs, from the butt on; what stands behind them is as it was.
    pub logs: [CutLog; MOST_LOGS],
}

/// The diameter where the length of a log ends that lies within its stem.
fn top_of(stem: &Stem, log: &Log) -> u32
    requires { top_of log.now ≤ stem_length stem.now.samples }
    ensures { result ≡ top_diameter stem.now log.now }
{
    prove!(log.start <= stem.length());
    stem.diameter_at(log.start + log.length)
}

/// The class of a log that its assortment allows and whose top diameter this is.
#[tactic(auto, using(crate::proofs::Logs::column_is, crate::proofs::Logs::has_column, crate::proofs::Logs::column_low))]
fn class_in(assortment: &Assortment, stem: &Stem, log: &Log, top: u32) -> Class
    requires allows { (step : ℕ) × Allows step assortment.now stem.now log.now }
    requires top { top ≡ top_diameter stem.now log.now }
    ensures { result ≡ class_in (Some assortment.now) stem.now log.now }
{
    let _valid = assortment.lengths();
    match column_of(assortment, log.length) {
        Some(column) => Class {
            assortment: log.assortment,
            row: row_of(assortment, top) as u8,
            column: column as u8,
        },
        None => unreachable!(),
    }
}

/// A log that its assortment allows, as C sees it: nothing is tested again.
fn shown_in(sheet: &Sheet, assortment: &Assortment, stem: &Stem, log: &Log) -> CutLog
    requires there { slice_get sheet.now.instruction.assortments log.now.assortment ≡ Some assortment.now }
    requires allows { Allows sheet.now.instruction.«module» assortment.now stem.now log.now }
    ensures { ShowsLog sheet.now stem.now log.now result }
{
    let _valid = sheet.instruction();
    let top = top_of(stem, log);
    let class = class_in(assortment, stem, log, top);
    let price = sheet.price(class);
    CutLog {
        worth: worth_of_piece(assortment.price_kind(), price, volume_of(top, log.length)),
        start: log.start,
        length: log.length,
        top,
        price,
        assortment: class.assortment,
        row: class.row,
        column: class.column,
    }
}

/// A log of a stem as C sees it.
#[tactic(auto, using(crate::proofs::Logs::its_place, crate::proofs::Logs::is_there, crate::proofs::Logs::it_allows))]
fn shown(sheet: &Sheet, stem: &Stem, log: &Log) -> CutLog
    requires { IsAllowed sheet.now.instruction stem.now log.now }
    ensures { ShowsLog sheet.now stem.now log.now result }
{
    let assortment = &sheet.instruction().assortments()[log.assortment as usize];
    shown_in(sheet, assortment, stem, log)
}

/// Shows the logs of a cutting, one after the other.
fn show_logs(sheet: &Sheet, stem: &Stem, logs: &[Log], out: &mut [CutLog; MOST_LOGS])
    requires few { length logs.now ≤ 80 }
    requires allowed { All (IsAllowed sheet.now.instruction stem.now) logs.now }
    ensures { (k : ℕ) (g : Log) (d : CutLog) → slice_get logs.now k ≡ Some g
        → ShowsLog sheet.now stem.now g (slice_index_or out.new k d) }
{
    for k in 0..logs.len() {
        out[k] = shown(sheet, stem, &logs[k]);
    }
}

/// Shows an entry that was planned under a sheet and stands at a position.
#[tactic(auto, using(crate::proofs::Cuttings::few, crate::proofs::Cuttings::allowed))]
pub(crate) fn show(sheet: &Sheet, position: u32, entry: &Entry, cut: &mut Cut)
    requires plan { IsCutUnder sheet.now entry.now }
    ensures { ShowsCut sheet.now position entry.now cut.new }
{
    let logs = entry.cutting.logs.as_slice();
    cut.worth = entry.worth;
    cut.position = position;
    cut.number = entry.number;
    cut.version = entry.version;
    cut.logs_number = logs.len() as u32;
    show_logs(sheet, &entry.stem, logs, &mut cut.logs);
}
