//! The table of degrees, and that of the classes that lack logs.
ghost use Rattle.buck_page_figures.specs.Lacking.{IsLackOf};

use crate::put::{Field, put, put_name};
use buck_page_figures::{Figures, Lack, Point, degrees_in, lacking, number_at, part};
use buck_page_text::row_of;
use buck_record::Memory;
use std::alloc::Global;

/// Puts the line of an assortment at a point.
fn put_degree(
    alloc: Global,
    out: &mut Vec<u8>,
    point: &Point<'_>,
    at: usize,
    name: &[u8],
) -> Result<(), Memory> {
    let cut = degrees_in(point.degrees.as_slice(), at);
    let unsteered = degrees_in(point.unsteered.as_slice(), at);
    let line = format!(in alloc;
        "{},{},{at},{},{}",
        point.after,
        point.version,
        Field(cut.whole),
        Field(unsteered.whole)
    )?;
    put(out, line.as_str())?;
    put_name(out, name)?;
    let parts = format!(in alloc;
        ",{},{},{},{}\n",
        Field(cut.diameter),
        Field(unsteered.diameter),
        Field(cut.length),
        Field(unsteered.length)
    )?;
    put(out, parts.as_str())
}

/// The table of degrees.
pub(crate) fn put_degrees(
    alloc: Global,
    out: &mut Vec<u8>,
    figures: &Figures<'_>,
) -> Result<(), Memory> {
    put(
        out,
        "postings,version,assortment,degree,base_degree,name,diameter_degree,unsteered_diameter_degree,\
         length_degree,unsteered_length_degree\n",
    )?;
    for point in figures.points.as_slice() {
        for (at, assortment) in figures.instruction.assortments().iter().enumerate() {
            put_degree(alloc, out, point, at, assortment.name())?;
        }
    }
    Ok(())
}

/// Puts the line of a class that lacks logs.
fn put_lack(
    alloc: Global,
    out: &mut Vec<u8>,
    figures: &Figures<'_>,
    lack: &Lack,
) -> Result<(), Memory>
    requires { IsLackOf figures.now.instruction.now figures.now.targets.value.items figures.now.counts.items
        figures.now.unsteered.items lack.now }
{
    let assortment = &figures.instruction.assortments()[lack.assortment];
    let columns = assortment.lengths().len();
    let (row, column) = (lack.class / columns, lack.class % columns);
    let limits = row_of(assortment, row);
    let place = format!(in alloc;
        "{},{row},{column},{},{},{},",
        lack.assortment,
        limits.from,
        limits.below,
        assortment.lengths()[column]
    )?;
    put(out, place.as_str())?;
    let logs = format!(in alloc;
        "{},{},{},{},{},{},",
        lack.target,
        lack.count,
        lack.unsteered,
        lack.wanted_tenths(),
        lack.tenths(),
        lack.cost()
    )?;
    put(out, logs.as_str())?;
    let prices = part(figures.instruction, figures.prices, lack.assortment);
    let prices = format!(in alloc;
        "{},{}",
        assortment.prices()[lack.class],
        number_at(prices, lack.class)
    )?;
    put(out, prices.as_str())?;
    put_name(out, assortment.name())?;
    put(out, "\n")
}

/// The table of the classes that lack logs, most first.
pub(crate) fn put_lacking(
    alloc: Global,
    out: &mut Vec<u8>,
    figures: &Figures<'_>,
) -> Result<(), Memory> {
    put(
        out,
        "assortment,row,column,from_mm,below_mm,length_mm,target,count,unsteered_count,wanted_tenths,lacking_tenths,\
         degree_ten_thousandths,base_price,price,name\n",
    )?;
    let found = lacking(alloc, figures)?;
    for lack in found.as_slice() {
        put_lack(alloc, out, figures, lack)?;
    }
    Ok(())
}
