//! The table of classes, and that of assortments.
ghost use Rattle.std.specs.Prelude.{◌≡◌, ◌<◌, length};
ghost use Rattle.buck_apt_instruction.specs.Instruction.{classes_of};
ghost use Rattle.buck_page_figures.specs.Shown.{IsShown};

use crate::put::{Field, put, put_name};
use buck_apt_instruction::Assortment;
use buck_dp::Planner;
use buck_page_figures::{
    Figures, Part, Piece, Place, cut_at, degrees_at, number_at, part, unsteered_pieces,
};
use buck_page_text::row_of;
use buck_record::Memory;
use std::alloc::Global;

/// What the logs of a class come to.
#[derive(Clone, Copy)]
struct ClassSums {
    volume: u128,
    worth: u128,
    base_worth: u128,
    /// The volume of its logs in the best cuttings at base prices.
    unsteered_volume: u128,
}

impl ClassSums {
    /// Of no log.
    const NONE: ClassSums = ClassSums {
        volume: 0,
        worth: 0,
        base_worth: 0,
        unsteered_volume: 0,
    };

    /// These and one log more. There is no memory for as many logs as would go past 128 bits.
    fn with(self, piece: &Piece) -> ClassSums {
        ClassSums {
            volume: self.volume.saturating_add(u128::from(piece.volume)),
            worth: self.worth.saturating_add(u128::from(piece.worth)),
            base_worth: self.base_worth.saturating_add(u128::from(piece.base_worth)),
            unsteered_volume: self.unsteered_volume,
        }
    }

    /// These and one log of an unsteered cutting more.
    fn with_unsteered(self, piece: &Piece) -> ClassSums {
        ClassSums {
            unsteered_volume: self
                .unsteered_volume
                .saturating_add(u128::from(piece.volume)),
            ..self
        }
    }
}

/// Adds the logs of a cut to the sums of their classes, and those of the best cutting at base prices.
fn add_pieces(sums: &mut Vec<ClassSums>, pieces: &[Piece], unsteered: &[Piece]) {
    for piece in pieces {
        if let Some(sum) = sums.get_mut(piece.index) {
            *sum = sum.with(piece);
        }
    }
    for piece in unsteered {
        if let Some(sum) = sums.get_mut(piece.index) {
            *sum = sum.with_unsteered(piece);
        }
    }
}

/// Adds the logs of a journal to the sums of their classes.
fn add_journal(
    alloc: Global,
    sums: &mut Vec<ClassSums>,
    figures: &Figures<'_>,
    planner: &mut Planner,
    journal: usize,
) -> Result<(), Memory>
    requires shown { IsShown figures.now planner.old }
    requires exists { journal < length figures.now.journals.now }
    ensures { planner.new ≡ planner.old }
{
    let read = &figures.journals[journal];
    for at in 0..read.entries.len() {
        let place = Place { journal, at };
        if let Some(cut) = cut_at(alloc, figures, planner, place)? {
            let unsteered = unsteered_pieces(alloc, planner, &cut)?;
            add_pieces(sums, cut.pieces.as_slice(), unsteered.as_slice());
        }
    }
    Ok(())
}

/// The sums of all classes.
fn class_sums(
    alloc: Global,
    figures: &Figures<'_>,
    planner: &mut Planner,
) -> Result<Vec<ClassSums>, Memory>
    requires { IsShown figures.now planner.old }
{
    let mut sums = vec![in alloc; ClassSums::NONE; figures.instruction.classes()]?;
    for journal in 0..figures.journals.len() {
        add_journal(alloc, &mut sums, figures, planner, journal)?;
    }
    Ok(sums)
}

/// The classes of the assortment at a place, with what a table says of them.
#[derive(Drop)]
struct Classes<'a> {
    at: usize,
    assortment: &'a Assortment,
    targets: &'a [u32],
    counts: &'a [u32],
    unsteered: &'a [u32],
    prices: &'a [u32],
    sums: &'a [ClassSums],
}

/// Puts the line of the class at a place of an assortment.
fn put_class(
    alloc: Global,
    out: &mut Vec<u8>,
    classes: &Classes<'_>,
    i: usize,
) -> Result<(), Memory>
    requires { i < classes_of classes.now.assortment.now }
{
    let assortment = classes.assortment;
    let columns = assortment.lengths().len();
    let (row, column) = (i / columns, i % columns);
    let limits = row_of(assortment, row);
    let length = assortment.lengths()[column];
    let sums = match classes.sums.get(i) {
        Some(sums) => *sums,
        None => ClassSums::NONE,
    };
    let place = format!(in alloc;
        "{},{row},{column},{},{},{length},",
        classes.at, limits.from, limits.below
    )?;
    put(out, place.as_str())?;
    let numbers = format!(in alloc;
        "{},{},{},{},{},",
        number_at(classes.targets, i),
        number_at(classes.counts, i),
        number_at(classes.unsteered, i),
        assortment.prices()[i],
        number_at(classes.prices, i)
    )?;
    put(out, numbers.as_str())?;
    let totals = format!(in alloc; "{},{},{}", sums.volume, sums.worth, sums.base_worth)?;
    put(out, totals.as_str())?;
    put_name(out, assortment.name())?;
    let unsteered = format!(in alloc; ",{}\n", sums.unsteered_volume)?;
    put(out, unsteered.as_str())
}

/// The table of classes.
pub(crate) fn put_classes(
    alloc: Global,
    out: &mut Vec<u8>,
    figures: &Figures<'_>,
    planner: &mut Planner,
) -> Result<(), Memory>
    requires { IsShown figures.now planner.old }
{
    put(
        out,
        "assortment,row,column,from_mm,below_mm,length_mm,target,count,base_count,base_price,price,volume_cm3,\
         worth_millionths,base_worth_millionths,name,unsteered_volume_cm3\n",
    )?;
    let sums = class_sums(alloc, figures, planner)?;
    let instruction = figures.instruction;
    for at in 0..instruction.assortments().len() {
        let assortment = &instruction.assortments()[at];
        let classes = Classes {
            at,
            assortment,
            targets: part(instruction, figures.targets.as_slice(), at),
            counts: part(instruction, figures.counts.as_slice(), at),
            unsteered: part(instruction, figures.unsteered.as_slice(), at),
            prices: part(instruction, figures.prices, at),
            sums: part(instruction, sums.as_slice(), at),
        };
        for i in 0..assortment.classes() {
            put_class(alloc, out, &classes, i)?;
        }
    }
    Ok(())
}

/// What the logs of some classes are worth under the prices in force when each was planned.
fn worth_of(sums: &[ClassSums]) -> u128 {
    let mut worth: u128 = 0;
    for sum in sums {
        worth = worth.saturating_add(sum.worth);
    }
    worth
}

/// Puts the degrees of the assortment at a place, as cut and unsteered.
fn put_degrees_of(
    alloc: Global,
    out: &mut Vec<u8>,
    figures: &Figures<'_>,
    at: usize,
) -> Result<(), Memory>
    requires { at < length figures.now.instruction.now.assortments }
{
    let targets = figures.targets.as_slice();
    let cut = degrees_at(figures.instruction, targets, figures.counts.as_slice(), at);
    let unsteered = degrees_at(
        figures.instruction,
        targets,
        figures.unsteered.as_slice(),
        at,
    );
    let fields = format!(in alloc;
        ",{},{},{},{},{},{}",
        Field(cut.whole),
        Field(unsteered.whole),
        Field(cut.diameter),
        Field(unsteered.diameter),
        Field(cut.length),
        Field(unsteered.length)
    )?;
    put(out, fields.as_str())
}

/// Puts what the logs of the assortment at a place come to, as cut and unsteered, given what they are worth under the
/// prices in force.
fn put_parts(
    alloc: Global,
    out: &mut Vec<u8>,
    at: usize,
    parts: (&Part, &Part),
    worth: u128,
) -> Result<(), Memory> {
    let (cut, unsteered) = parts;
    let wood = format!(in alloc;
        "{at},{},{},{},{},{},{}",
        cut.logs, unsteered.logs, cut.volume, unsteered.volume, cut.logged, unsteered.logged
    )?;
    put(out, wood.as_str())?;
    let worths = format!(in alloc; ",{worth},{},{}", cut.at_base, unsteered.at_base)?;
    put(out, worths.as_str())
}

/// The table of assortments.
pub(crate) fn put_assortments(
    alloc: Global,
    out: &mut Vec<u8>,
    figures: &Figures<'_>,
    planner: &mut Planner,
) -> Result<(), Memory>
    requires { IsShown figures.now planner.old }
{
    put(
        out,
        "assortment,logs,unsteered_logs,volume_cm3,unsteered_volume_cm3,logged_mm,unsteered_logged_mm,\
         worth_millionths,base_worth_millionths,unsteered_worth_millionths,degree,unsteered_degree,diameter_degree,\
         unsteered_diameter_degree,length_degree,unsteered_length_degree,name\n",
    )?;
    let sums = class_sums(alloc, figures, planner)?;
    let instruction = figures.instruction;
    for at in 0..instruction.assortments().len() {
        let parts = (&figures.assortments[at], &figures.unsteered_assortments[at]);
        let worth = worth_of(part(instruction, sums.as_slice(), at));
        put_parts(alloc, out, at, parts, worth)?;
        put_degrees_of(alloc, out, figures, at)?;
        put_name(out, instruction.assortments()[at].name())?;
        put(out, "\n")?;
    }
    Ok(())
}
