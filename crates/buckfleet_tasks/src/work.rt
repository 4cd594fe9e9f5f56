//! The work of a run, of whatever command.
use crate::harvests::{BuckTask, FleetTask, LiveTask};
use crate::journals::{AppraiseTask, CheckTask, CompareTask, ViewTask};
use crate::trials::{OwnedTask, SweepTask, TrialTask, TuneTask, WishesTask};
use buck_apt_instruction::Settings;

/// The task of a run: its command and the arguments.
#[derive(Drop)]
pub enum Task<'a> {
    /// Both files stand on standard input, with a `|` between them.
    Bare,
    /// The report of a journal by its instruction, in the files of these names, with these numbers in the place of the
    /// instruction's own.
    Report {
        apt: &'a str,
        journal: &'a str,
        settings: Settings,
    },
}

/// The work of a run.
#[derive(Drop)]
pub enum Work<'a> {
    /// A task that waits for nobody.
    Plain(Task<'a>),
    /// Stems are to be bucked, in several threads at once.
    Buck(BuckTask<'a>),
    /// A fleet, whose harvesters wait for one another.
    Fleet(FleetTask<'a>),
    /// A journal is to be checked, also by stem files and a rule, in several threads at once.
    Check(CheckTask<'a>),
    /// A journal is to be shown, and checked before in several threads at once.
    View(ViewTask<'a>),
    /// Stems are to be cut as they are felled.
    Live(LiveTask<'a>),
    /// Rules, periods and limits are to be compared, in several threads at once.
    Sweep(SweepTask<'a>),
    /// Rules, periods and limits are to be compared with other targets, or with orders that are drawn.
    Trial(TrialTask<'a>),
    /// The same, with what is paid under an owner's contract.
    Owned(OwnedTask<'a>),
    /// It is to be found what each target costs.
    Wishes(WishesTask<'a>),
    /// An instruction is to be tuned on stems.
    Tune(TuneTask<'a>),
    /// Journals are to be appraised under an owner's instruction.
    Appraise(AppraiseTask<'a>),
    /// Two journals are to be set side by side.
    Compare(CompareTask<'a>),
}

impl Work<'_> {
    /// Whether both files stand on standard input.
    pub fn is_bare(&self) -> bool {
        matches!(self, Work::Plain(Task::Bare))
    }
}
