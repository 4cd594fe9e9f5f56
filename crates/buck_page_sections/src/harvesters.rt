//! What each harvester cut, and what its grades and steering cost.
use crate::list::{Group, LIST_END, open_list};
use crate::rates::{length_left, mean, mean_log, rate_of, steering_rate};
use buck_page_figures::{Figures, Free, GradeFree, Sums};
use buck_page_text::{Grouped, Millionths, half_up};
use buck_record::Memory;

/// What a cubic metre of the logs is worth at base prices, if there is any wood.
fn write_each(out: &mut String, sums: &Sums) -> Result<(), Memory> {
    if sums.volume == 0 {
        write!(out, "<td>&#8211;</td>")?;
    } else {
        let each = Millionths(half_up(sums.at_base * 1_000_000, sums.volume));
        write!(out, "<td>{each}</td>")?;
    }
    Ok(())
}

/// Writes the figures of some postings, after the head of their row.
fn write_sums(out: &mut String, sums: &Sums) -> Result<(), Memory> {
    let stems = u128::from(sums.stems);
    write!(
        out,
        "<td>{}</td><td>{}</td><td>{}</td><td>{}</td><td>{}</td><td>{}</td><td>{}</td>",
        Grouped(stems),
        Grouped(sums.logs),
        Millionths(sums.volume),
        mean(sums.volume, 1000 * stems, 3),
        mean_log(sums.logged, sums.logs),
        length_left(sums),
        Millionths(sums.at_base)
    )?;
    write_each(out, sums)?;
    Ok(write!(
        out,
        "<td>{}</td></tr>",
        Grouped(u128::from(sums.stems + sums.demands))
    )?)
}

/// Writes the section of the harvesters. Refused as `Memory` alone.
pub fn write_harvesters(out: &mut String, figures: &Figures<'_>) -> Result<(), Memory> {
    write!(
        out,
        "\n<section id=\"harvesters\"><h2>Harvesters</h2><div class=\"scroll\"><table class=\"list\"><thead><tr><th \
         scope=\"col\">Harvester</th><th scope=col>Stems</th><th scope=col>Logs</th><th scope=col>Volume, \
         m&#179;</th><th scope=col>m&#179; a stem</th><th scope=col>Mean log, m</th><th scope=col>Length left, \
         %</th><th scope=col>Worth at base</th><th scope=col>a m&#179;</th><th \
         scope=col>Postings</th></tr></thead><tbody>"
    )?;
    for own in figures.harvesters.values() {
        write!(out, "<tr><th scope=\"row\">{}</th>", own.harvester)?;
        write_sums(out, &own.sums)?;
    }
    write!(out, "<tr class=\"total\"><th scope=\"row\">All</th>")?;
    write_sums(out, &figures.total)?;
    Ok(write!(out, "{LIST_END}")?)
}

/// Writes what grades and steering cost of some postings, after the head of their row, given what their stems are worth
/// without grades.
fn write_cost(out: &mut String, sums: &Sums, free: Option<&Free>) -> Result<(), Memory> {
    let free = match free {
        Some(free) => free.worth,
        None => 0,
    };
    let grades = free.saturating_sub(sums.best);
    Ok(write!(
        out,
        "<td class=first>{}</td><td class=first><b>{}</b></td><td><b>{}</b></td><td class=first>{}</td>\
         <td class=first><b>{}</b></td><td><b>{}</b></td><td class=first>{}</td></tr>",
        Millionths(free),
        Millionths(grades),
        rate_of(grades, free),
        Millionths(sums.best),
        Millionths(sums.cost()),
        steering_rate(sums),
        Millionths(sums.at_base)
    )?)
}

/// Writes the section of what grades and steering cost. Refused as `Memory` alone.
pub fn write_costs(
    out: &mut String,
    figures: &Figures<'_>,
    free: &GradeFree,
) -> Result<(), Memory> {
    let groups = [
        Group("Worth", &["without grades"]),
        Group("Cost of grades", &["units", "in %"]),
        Group("Worth", &["unsteered"]),
        Group("Cost of steering", &["units", "in %"]),
        Group("Worth", &["as cut"]),
    ];
    write!(
        out,
        "\n<section id=\"costs\"><h2>What grades and steering cost</h2><p class=\"lead\">All at base prices, from \
         left to right: the best cuttings if every assortment took every grade, the best with the grade zones as \
         called, and the stems as cut. If grades cost one harvester much more than another in the same stand, check \
         how its grades are called.</p>"
    )?;
    open_list(out, "Harvester", groups.as_slice())?;
    for own in figures.harvesters.values() {
        write!(out, "<tr><th scope=\"row\">{}</th>", own.harvester)?;
        write_cost(out, &own.sums, free.harvesters.get(&own.harvester))?;
    }
    write!(out, "<tr class=\"total\"><th scope=\"row\">All</th>")?;
    write_cost(out, &figures.total, Some(&free.total))?;
    Ok(write!(out, "{LIST_END}")?)
}
