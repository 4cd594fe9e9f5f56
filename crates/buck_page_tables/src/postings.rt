//! The table of postings, and that of logs.
ghost use Rattle.std.specs.Prelude.{◌≡◌, ◌<◌, length};
ghost use Rattle.buck_page_figures.specs.Shown.{IsShown};

use crate::put::{put, put_name};
use buck_book_postings::{Demand, Posting};
use buck_dp::Planner;
use buck_page_figures::{Cut, Figures, Piece, Place, cut_at, grade_free_planner};
use buck_record::{Memory, put_after};
use std::alloc::Global;

/// The length of the logs of a cut in mm, of what was cut with them in mm, and their volume in cm³.
#[derive(Clone, Copy)]
struct CutSums {
    logged: u64,
    trim: u64,
    volume: u64,
}

/// What the logs of a cut come to.
fn cut_sums(figures: &Figures<'_>, pieces: &[Piece]) -> CutSums {
    let mut sums = CutSums {
        logged: 0,
        trim: 0,
        volume: 0,
    };
    for piece in pieces {
        let trim = match figures
            .instruction
            .assortments()
            .get(piece.log.assortment as usize)
        {
            Some(assortment) => assortment.trim(),
            None => 0,
        };
        sums = CutSums {
            logged: sums.logged.saturating_add(u64::from(piece.log.length)),
            trim: sums.trim.saturating_add(u64::from(trim)),
            volume: sums.volume.saturating_add(piece.volume),
        };
    }
    sums
}

/// Puts the line of a cut, given what its stem is worth without grades.
fn put_cut(
    alloc: Global,
    out: &mut Vec<u8>,
    figures: &Figures<'_>,
    cut: &Cut<'_>,
    free: u64,
) -> Result<(), Memory> {
    let entry = cut.entry;
    let sums = cut_sums(figures, cut.pieces.as_slice());
    let call = format!(in alloc;
        "{},cut,{},{},{},",
        cut.place.at, entry.harvester, entry.number, entry.version
    )?;
    put(out, call.as_str())?;
    let stem = format!(in alloc;
        "{},{},{},",
        entry.stem.number(),
        entry.stem.species(),
        entry.stem.length()
    )?;
    put(out, stem.as_str())?;
    let logs = format!(in alloc;
        "{},{},{},{},",
        cut.pieces.len(),
        sums.logged,
        sums.trim,
        sums.volume
    )?;
    put(out, logs.as_str())?;
    let worths = format!(in alloc; "{},{},{},{free}", entry.worth, cut.at_base, cut.best)?;
    put(out, worths.as_str())
}

/// Puts the line of a demand: empty from the stem on.
fn put_demand(alloc: Global, out: &mut Vec<u8>, at: usize, demand: &Demand) -> Result<(), Memory> {
    let line = format!(in alloc;
        "{at},demand,{},{},{},,,,,,,,,,,",
        demand.harvester, demand.number, demand.version
    )?;
    put(out, line.as_str())
}

/// Puts the journal of a line as its last field.
fn put_journal(alloc: Global, out: &mut Vec<u8>, journal: usize) -> Result<(), Memory> {
    let line = format!(in alloc; ",{}\n", (journal as u64).saturating_add(1))?;
    put(out, line.as_str())
}

/// Puts the lines of the postings of a journal, given a planner for which every assortment takes every grade.
fn put_postings_of(
    alloc: Global,
    out: &mut Vec<u8>,
    figures: &Figures<'_>,
    planner: &mut Planner,
    free: &mut Planner,
    journal: usize,
) -> Result<(), Memory>
    requires shown { IsShown figures.now planner.old }
    requires exists { journal < length figures.now.journals.now }
    ensures { planner.new ≡ planner.old }
{
    let read = &figures.journals[journal];
    let postings = read.entries.as_slice();
    for at in 0..postings.len() {
        let place = Place { journal, at };
        if let Some(cut) = cut_at(alloc, figures, planner, place)? {
            let entry = cut.entry;
            let (_, worth) = free.best(alloc, &entry.stem)?;
            put_cut(alloc, out, figures, &cut, worth)?;
        }
        if let Posting::Demand(demand) = &postings[at] {
            put_demand(alloc, out, at, demand)?;
        }
        put_journal(alloc, out, journal)?;
    }
    Ok(())
}

/// The table of postings.
pub(crate) fn put_postings(
    alloc: Global,
    out: &mut Vec<u8>,
    figures: &Figures<'_>,
    planner: &mut Planner,
) -> Result<(), Memory>
    requires { IsShown figures.now planner.old }
{
    put(
        out,
        "position,kind,harvester,number,version,stem,species,length_mm,logs,logged_mm,trim_mm,volume_cm3,\
         worth_millionths,base_worth_millionths,best_base_worth_millionths,grade_free_base_worth_millionths,journal\n",
    )?;
    let mut free = grade_free_planner(alloc, figures.instruction)?;
    for journal in 0..figures.journals.len() {
        put_postings_of(alloc, out, figures, planner, &mut free, journal)?;
    }
    Ok(())
}

/// Puts numbers, each as one field more of a line.
fn put_fields(out: &mut Vec<u8>, numbers: &[u128]) -> Result<(), Memory> {
    for number in numbers {
        put_after(out, b',', *number)?;
    }
    Ok(())
}

/// Puts the line of a log, by its place among those of its cut.
fn put_log(
    alloc: Global,
    out: &mut Vec<u8>,
    cut: &Cut<'_>,
    place: usize,
    piece: &Piece,
) -> Result<(), Memory> {
    let entry = cut.entry;
    let log = &piece.log;
    let class = piece.class;
    let position = format!(in alloc; "{}", cut.place.at)?;
    put(out, position.as_str())?;
    let stem = [
        place as u128,
        u128::from(entry.harvester),
        u128::from(entry.stem.number()),
    ];
    put_fields(out, &stem)?;
    let wood = [
        u128::from(log.start),
        u128::from(log.length),
        u128::from(piece.top),
        u128::from(log.assortment),
        class.row as u128,
        class.column as u128,
        u128::from(piece.volume),
    ];
    put_fields(out, &wood)?;
    let worths = [
        u128::from(piece.price),
        u128::from(piece.worth),
        u128::from(piece.base_price),
        u128::from(piece.base_worth),
    ];
    put_fields(out, &worths)
}

/// Puts the lines of the logs of a cut.
fn put_logs_of(
    alloc: Global,
    out: &mut Vec<u8>,
    figures: &Figures<'_>,
    cut: &Cut<'_>,
) -> Result<(), Memory> {
    for (place, piece) in cut.pieces.iter().enumerate() {
        put_log(alloc, out, cut, place, piece)?;
        match figures
            .instruction
            .assortments()
            .get(piece.log.assortment as usize)
        {
            Some(assortment) => put_name(out, assortment.name())?,
            None => put_name(out, b"")?,
        }
        put_journal(alloc, out, cut.place.journal)?;
    }
    Ok(())
}

/// Puts the lines of the logs of a journal.
fn put_logs_in(
    alloc: Global,
    out: &mut Vec<u8>,
    figures: &Figures<'_>,
    planner: &mut Planner,
    journal: usize,
) -> Result<(), Memory>
    requires shown { IsShown figures.now planner.old }
    requires exists { journal < length figures.now.journals.now }
    ensures { planner.new ≡ planner.old }
{
    let read = &figures.journals[journal];
    for at in 0..read.entries.len() {
        let place = Place { journal, at };
        if let Some(cut) = cut_at(alloc, figures, planner, place)? {
            put_logs_of(alloc, out, figures, &cut)?;
        }
    }
    Ok(())
}

/// The table of logs.
pub(crate) fn put_logs(
    alloc: Global,
    out: &mut Vec<u8>,
    figures: &Figures<'_>,
    planner: &mut Planner,
) -> Result<(), Memory>
    requires { IsShown figures.now planner.old }
{
    put(
        out,
        "position,log,harvester,stem,start_mm,length_mm,top_mm,assortment,row,column,volume_cm3,price,\
         worth_millionths,base_price,base_worth_millionths,name,journal\n",
    )?;
    for journal in 0..figures.journals.len() {
        put_logs_in(alloc, out, figures, planner, journal)?;
    }
    Ok(())
}
