//! What is asked of journals.
ghost use Rattle.std.specs.Prelude.{◌<◌, ◌≤◌, vec_len};

use buck_apt_instruction::Settings;
use buck_page_cells::Table;
use buck_rule::NamedRule;

/// The rule and the numbers that a journal is checked by, beside its files.
#[derive(Drop)]
pub struct CrossCheck {
    /// The rule that the prices are held against, if one is named.
    pub rule: Option<NamedRule>,
    /// The numbers that are put in the place of the instruction's own.
    pub settings: Settings,
}

/// The arguments of a check that ties a journal to stem files or a rule.
#[derive(Drop)]
pub struct CheckTask<'a> {
    /// The rule and the numbers that the journal is checked by.
    pub by: CrossCheck,
    /// The name of the instruction file.
    pub apt: &'a str,
    /// The name of the journal, and then those of the stem files, one for each harvester.
    pub files: Vec<&'a str>,
    /// How many threads may read the journal, or look for outvalued cuts, at once; if nothing is said, as many as
    /// the machine has.
    pub threads: Option<u8>,
}

/// The form in which journals are shown.
#[derive(Clone, Copy)]
pub enum Shown {
    /// The page that a mill opens.
    Page,
    /// A table for a spreadsheet.
    Table(Table),
}

/// The arguments of a run that shows journals.
#[derive(Drop)]
pub struct ViewTask<'a> {
    /// The name of the instruction file.
    pub apt: &'a str,
    /// The names of the journals, 1 to 64.
    pub journals: Vec<&'a str>,
    pub shown: Shown,
    /// The numbers that are put in the place of the instruction's own.
    pub settings: Settings,
    /// How many threads may look for outvalued cuts at once; if nothing is said, as many as the machine has.
    pub threads: Option<u8>,
    ghost number: { (0 < vec_len journals) × (vec_len journals ≤ 64) },
}

/// The arguments of an appraisal.
#[derive(Drop)]
pub struct AppraiseTask<'a> {
    /// The numbers that are put in the place of the instruction's own.
    pub settings: Settings,
    /// The name of the instruction file.
    pub apt: &'a str,
    /// The names of the journals, 1 to 64.
    pub journals: Vec<&'a str>,
    /// The name of the file of the owner's instruction.
    pub own: &'a str,
    /// How many threads may look for outvalued cuts at once; if nothing is said, as many as the machine has.
    pub threads: Option<u8>,
    ghost number: { (0 < vec_len journals) × (vec_len journals ≤ 64) },
}

/// The arguments of a comparison.
#[derive(Drop)]
pub struct CompareTask<'a> {
    /// The numbers that are put in the place of the instruction's own for the first journal.
    pub first: Settings,
    /// The numbers that are put in the place of the instruction's own for the second journal.
    pub second: Settings,
    /// The name of the instruction file.
    pub apt: &'a str,
    /// The names of the two journals.
    pub journals: [&'a str; 2],
    /// How many threads may look for outvalued cuts at once; if nothing is said, as many as the machine has.
    pub threads: Option<u8>,
}
