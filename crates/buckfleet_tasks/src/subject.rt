//! The files that some work is about.
use crate::journals::AppraiseTask;
use crate::trials::OwnedTask;
use crate::work::{Task, Work};
use buck_apt_instruction::Settings;
use buck_rule::NamedRule;
use std::alloc::{AllocError, Global};

/// The name by which standard input is read, and standard output written.
pub const DASH: &str = "-";

/// What standard input is called where it is spoken of.
pub const INPUT: &str = "standard input";

/// The name of what follows the bar there.
const BEHIND: &str = "standard input, after the |";

/// What some work is about: its files, which have numbers from 0, and the numbers that are put in the place of the
/// instruction's own.
#[derive(Drop)]
pub struct Subject<'a> {
    /// The names of its input files, by their numbers; none if both are on standard input.
    pub names: Vec<&'a str>,
    /// How many of them come before the stem files.
    pub others: usize,
    /// Number of them that come after these.
    pub behind: usize,
    /// How many of them are journals that are shown.
    pub journals: usize,
    /// The name of the file that a journal goes into, if one is asked for.
    pub out: Option<&'a str>,
    /// Whether prices move by what is cut of the stem files.
    pub is_steered: bool,
    /// The rule that a journal is checked by, if there is one.
    pub rule: Option<NamedRule>,
    /// The numbers that replace the instruction's own, if there are any.
    pub settings: Option<&'a Settings>,
    /// The numbers that replace the instruction's own for a second journal, if it has any.
    pub second: Option<&'a Settings>,
}

impl<'a> Subject<'a> {
    /// What no file is about.
    fn bare(alloc: Global) -> Subject<'a> {
        Subject {
            names: Vec::new(alloc),
            others: 1,
            behind: 0,
            journals: 0,
            out: None,
            is_steered: false,
            rule: None,
            settings: None,
            second: None,
        }
    }

    /// What an instruction file and others are about.
    fn of_files(alloc: Global, apt: &'a str, files: &[&'a str]) -> Result<Subject<'a>, AllocError> {
        let mut subject = Subject::bare(alloc);
        subject.names.push(apt)?;
        subject.names.extend_from_slice(files)?;
        Ok(subject)
    }

    /// What stem files are about, with a file of targets after them, if there is one.
    fn of_stems(
        alloc: Global,
        apt: &'a str,
        stms: &[&'a str],
        targets: Option<&'a str>,
    ) -> Result<Subject<'a>, AllocError> {
        let mut subject = Subject::of_files(alloc, apt, stms)?;
        if let Some(targets) = targets {
            subject.names.push(targets)?;
            subject.behind = 1;
        }
        Ok(subject)
    }

    /// The same with the contract of an owner after them.
    fn of_owned(alloc: Global, task: &'a OwnedTask<'a>) -> Result<Subject<'a>, AllocError> {
        let trial = &task.trial;
        let mut subject = Subject::of_stems(
            alloc,
            trial.apt,
            trial.stms.as_slice(),
            trial.targets,
        )?;
        subject.names.push(task.own)?;
        subject.behind = subject.behind.saturating_add(1);
        Ok(subject)
    }

    /// What journals are about that are shown.
    fn of_journals(
        alloc: Global,
        apt: &'a str,
        journals: &[&'a str],
        settings: &'a Settings,
    ) -> Result<Subject<'a>, AllocError> {
        Ok(Subject {
            others: journals.len() + 1,
            journals: journals.len(),
            settings: Some(settings),
            ..Subject::of_files(alloc, apt, journals)?
        })
    }

    /// What an appraisal is about: journals, and after them the instruction of an owner.
    fn of_appraisal(alloc: Global, task: &'a AppraiseTask<'a>) -> Result<Subject<'a>, AllocError> {
        let journals = task.journals.as_slice();
        let mut subject = Subject::of_journals(alloc, task.apt, journals, &task.settings)?;
        subject.names.push(task.own)?;
        subject.others = subject.names.len();
        Ok(subject)
    }

    /// What a task is about.
    fn of_task(alloc: Global, task: &'a Task<'a>) -> Result<Subject<'a>, AllocError> {
        match task {
            Task::Bare => Ok(Subject::bare(alloc)),
            Task::Report {
                apt,
                journal,
                settings,
            } => Ok(Subject {
                others: 2,
                settings: Some(settings),
                ..Subject::of_files(alloc, *apt, &[*journal])?
            }),
        }
    }

    /// Returns what work is about: its input files in the order in which they are opened. Refused if there is no memory
    /// for their names.
    pub fn of(alloc: Global, work: &'a Work<'a>) -> Result<Subject<'a>, AllocError> {
        match work {
            Work::Plain(task) => Subject::of_task(alloc, task),
            Work::Buck(task) => Subject::of_files(alloc, task.apt, &[task.stm]),
            Work::Fleet(task) => Ok(Subject {
                out: task.journal,
                is_steered: task.rule != NamedRule::Steady,
                settings: Some(&task.settings),
                ..Subject::of_files(alloc, task.apt, task.stms.as_slice())?
            }),
            Work::Check(task) => Ok(Subject {
                others: 2,
                rule: task.by.rule,
                settings: Some(&task.by.settings),
                ..Subject::of_files(alloc, task.apt, task.files.as_slice())?
            }),
            Work::View(task) => {
                Subject::of_journals(alloc, task.apt, task.journals.as_slice(), &task.settings)
            }
            Work::Live(task) => Ok(Subject {
                out: task.journal,
                settings: Some(&task.settings),
                ..Subject::of_files(alloc, task.apt, &[])?
            }),
            Work::Sweep(task) => Subject::of_files(alloc, task.apt, task.stms.as_slice()),
            Work::Trial(task) => {
                Subject::of_stems(alloc, task.apt, task.stms.as_slice(), task.targets)
            }
            Work::Owned(task) => Subject::of_owned(alloc, task),
            Work::Wishes(task) => Ok(Subject {
                settings: Some(&task.settings),
                ..Subject::of_stems(alloc, task.apt, task.stms.as_slice(), task.targets)?
            }),
            Work::Tune(task) => Ok(Subject {
                settings: Some(&task.settings),
                ..Subject::of_stems(alloc, task.apt, task.stms.as_slice(), task.targets)?
            }),
            Work::Appraise(task) => Subject::of_appraisal(alloc, task),
            Work::Compare(task) => Ok(Subject {
                second: Some(&task.second),
                ..Subject::of_journals(alloc, task.apt, &task.journals, &task.first)?
            }),
        }
    }

    /// Returns the name of the file of a number, as it is said; that of standard input for `-` and for a number that no
    /// file has.
    pub fn name(&self, file: usize) -> &'a str {
        if self.is_bare() {
            return if file == 0 { INPUT } else { BEHIND };
        }
        match self.names.get(file) {
            Some(name) if *name == DASH => INPUT,
            Some(name) => *name,
            // Requests, whose input no word names.
            None => INPUT,
        }
    }

    /// Whether both files stand on standard input.
    pub fn is_bare(&self) -> bool {
        self.names.is_empty()
    }

    /// Whether standard input is named more than once.
    pub fn has_input_twice(&self) -> bool {
        let mut dashes = 0usize;
        for name in self.names.as_slice() {
            if *name == DASH {
                dashes = dashes.saturating_add(1);
            }
        }
        dashes > 1
    }

    /// Returns how many of the input files are stem files.
    pub fn stem_files(&self) -> usize {
        self.names
            .len()
            .saturating_sub(self.others)
            .saturating_sub(self.behind)
    }
}
