//! The degree of apportionment taken apart: of diameters and of lengths.
ghost use Rattle.std.specs.Prelude.{◌≡◌, ◌*◌, ◌<◌, ◌≤◌, ◌^◌, IfSome, None, drop, get_or, length, sum, take};
ghost use Rattle.buck_apt_instruction.specs.Instruction.{classes};
ghost use Rattle.buck_book_postings.specs.Degree.{degree_of, shared_of};
ghost use Rattle.buck_page_figures.specs.Degrees.{AreDegreesBy, diameter_degree_of, length_degree_of};

use crate::parts::{part, sum_of};
use buck_apt_instruction::Instruction;

/// The degrees of apportionment of an assortment, in ten-thousandths; none if nothing is wanted or nothing was cut.
#[derive(Clone, Copy, Debug, PartialEq, Eq)]
pub struct Degrees {
    /// Degree over its classes, 0 to 10,000 ten-thousandths.
    pub whole: Option<u32>,
    /// Degree over its diameter rows, each a class of its own, in ten-thousandths.
    pub diameter: Option<u32>,
    /// Mean of the rows' own degrees, each row an assortment of its own, weighted by the logs cut in it, in
    /// ten-thousandths.
    pub length: Option<u32>,
}

impl Degrees {
    /// If nothing is wanted, or nothing was cut.
    pub const NONE: Degrees = Degrees {
        whole: None,
        diameter: None,
        length: None,
    };
}

/// What is wanted of some classes, and how many logs were cut in each.
#[derive(Clone, Copy)]
struct Wish<'a> {
    targets: &'a [u32],
    counts: &'a [u32],
    ghost one_each: { length counts.now ≡ length targets.now },
    ghost few: { length targets.now ≤ 1024 },
}

impl<'a> Wish<'a> {
    /// All that is wanted.
    fn wanted(&self) -> u128
        ensures wanted { result ≡ sum self.now.targets.now }
        ensures low { result ≤ 1024 * 2 ^ 32 }
    {
        u128::from(sum_of(self.targets))
    }

    /// All that was cut.
    fn cut(&self) -> u128
        ensures cut { result ≡ sum self.now.counts.now }
        ensures low { result ≤ 1024 * 2 ^ 32 }
    {
        u128::from(sum_of(self.counts))
    }

    /// Over all classes, the lesser of what is wanted as a share of all wanted and what was cut as a share of all cut.
    fn shared(&self, wanted: u128, cut: u128) -> u128
        requires { (wanted ≤ 1024 * 2 ^ 32) × (cut ≤ 1024 * 2 ^ 32) }
        ensures { result ≡ shared_of wanted cut self.now.targets.now self.now.counts.now }
    {
        let mut all = 0;
        for i in 0..self.targets.len() {
            let by_target = u128::from(self.targets[i]) * cut;
            let by_count = u128::from(self.counts[i]) * wanted;
            all += by_target.min(by_count);
        }
        all
    }

    /// The degree of apportionment, as of an assortment of its own.
    #[tactic(auto, using(crate::proofs::RowLemmas::degree_whole))]
    fn degree(&self) -> Option<u32>
        ensures degree { result ≡ degree_of self.now.targets.now self.now.counts.now }
        ensures low { IfSome result (λ d. d ≤ 10000) }
    {
        let wanted = self.wanted();
        let cut = self.cut();
        if wanted * cut == 0 {
            return None;
        }
        Some((self.shared(wanted, cut) * 10_000 / (wanted * cut)) as u32)
    }

    /// The first row, and all that stands behind it.
    fn split(&self, columns: usize) -> (Wish<'a>, Wish<'a>)
        requires { columns ≤ length self.now.targets.now }
        ensures row_targets { result.0.targets.now ≡ take columns self.now.targets.now }
        ensures row_counts { result.0.counts.now ≡ take columns self.now.counts.now }
        ensures rest_targets { result.1.targets.now ≡ drop columns self.now.targets.now }
        ensures rest_counts { result.1.counts.now ≡ drop columns self.now.counts.now }
    {
        let (targets, more_targets) = self.targets.split_at(columns);
        let (counts, more_counts) = self.counts.split_at(columns);
        let row = Wish { targets, counts };
        let rest = Wish {
            targets: more_targets,
            counts: more_counts,
        };
        (row, rest)
    }
}

/// The degree of diameters of some classes that stand in so many rows.
fn diameter_degree(wish: Wish<'_>, rows: usize, columns: usize) -> Option<u32>
    requires long { length wish.targets.now ≡ rows * columns }
    requires few { rows ≤ 32 }
    ensures { result ≡ diameter_degree_of rows columns wish.entry.targets.now wish.entry.counts.now }
{
    let wanted = wish.wanted();
    let cut = wish.cut();
    if wanted * cut == 0 {
        return None;
    }
    let mut rest = wish;
    let mut all = 0;
    for _ in 0..rows {
        let (row, more) = rest.split(columns);
        all += (row.wanted() * cut).min(row.cut() * wanted);
        rest = more;
    }
    Some((all * 10_000 / (wanted * cut)) as u32)
}

/// The degree of lengths of some classes that stand in so many rows.
fn length_degree(wish: Wish<'_>, rows: usize, columns: usize) -> Option<u32>
    requires long { length wish.targets.now ≡ rows * columns }
    requires few { rows ≤ 32 }
    ensures { result ≡ length_degree_of rows columns wish.entry.targets.now wish.entry.counts.now }
{
    let mut rest = wish;
    let mut all = 0;
    let mut logs = 0;
    for _ in 0..rows {
        let (row, more) = rest.split(columns);
        if let Some(degree) = row.degree() {
            all += row.cut() * u128::from(degree);
            logs += row.cut();
        }
        rest = more;
    }
    if logs == 0 {
        return None;
    }
    Some((all / logs) as u32)
}

/// The degrees of the assortment at a place, given what is wanted of each class of the instruction and how many logs
/// were cut in each.
pub fn degrees_at(instruction: &Instruction, targets: &[u32], counts: &[u32], at: usize) -> Degrees
    requires exists { at < length instruction.now.assortments }
    requires targets { length targets.now ≡ classes instruction.now }
    requires counts { length counts.now ≡ classes instruction.now }
    ensures { AreDegreesBy instruction.now targets.now counts.now at result }
{
    let assortment = &instruction.assortments()[at];
    let rows = assortment.diameters().len();
    let columns = assortment.lengths().len();
    let wish = Wish {
        targets: part(instruction, targets, at),
        counts: part(instruction, counts, at),
    };
    Degrees {
        whole: wish.degree(),
        diameter: diameter_degree(wish, rows, columns),
        length: length_degree(wish, rows, columns),
    }
}

/// The degrees at a place of some; there are none past their end.
pub fn degrees_in(degrees: &[Degrees], at: usize) -> Degrees
    ensures { result ≡ get_or degrees.now at (record { whole = None; diameter = None; length = None }) }
{
    match degrees.get(at) {
        Some(degrees) => *degrees,
        None => Degrees::NONE,
    }
}
