//! Why a run failed, in words, from its fault and from what was read.
use buck_apt::{AptFault, read_apt};
use buck_apt_instruction::{Instruction, Settings};
use buck_book_journal::{Journal, JournalFault, ReplayFault};
use buck_book_reader::read_journal;
use buck_record::Memory;
use buck_stem::StmFault;
use buckfleet_command_streams::{Copied, Known, LIMIT, Trouble, Troubled};
use buckfleet_engine_files::{CheckFault, EngineFault};
use buckfleet_reason::{Here, Said, Source, apt_reason, journal_reason, stm_reason};
use buckfleet_reason_replay::{
    Mispriced, Tied, Unlawful, WrongTargets, replay_reason, rule_reason,
};
use buckfleet_tasks::{DASH, INPUT, Subject};
use buckfleet_terms_files::{OwnFault, TargetsFault, TermsFault, all_numbers};
use std::alloc::Global;
use std::io::ErrorKind;
use std::sync::Arc;

/// What is known of a run that ended.
#[derive(Drop)]
pub struct Inquest<'a, A> {
    /// Has the room for what is said.
    pub alloc: Global,
    /// The files that its work was about.
    pub subject: &'a Subject<'a>,
    /// What was read of its inputs, in the order in which they were opened.
    pub copies: &'a [Copied],
    /// Why standard output couldn't be written, if it couldn't.
    pub unwritten: Option<ErrorKind>,
    /// What is known of its files beside their bytes.
    pub known: &'a A,
}

/// The name of standard output.
const OUTPUT: &str = "standard output";

/// The bytes before and after the first bar; none after it if there is no bar.
fn halves(bytes: &[u8]) -> (&[u8], Option<&[u8]>) {
    match bytes.iter().position(|b| *b == b'|') {
        Some(bar) => (&bytes[..bar], Some(&bytes[bar + 1..])),
        None => (bytes, None),
    }
}

/// An instruction, and a journal with the file that it was read from.
#[derive(Drop)]
struct History<'a> {
    instruction: Arc<Instruction>,
    source: Source<'a>,
    journal: Journal,
}

impl<'a, A: Known> Inquest<'a, A> {
    /// The bytes of the file of a number, if all of them were kept; none after a bar that isn't there.
    fn bytes(&self, file: usize) -> Option<&'a [u8]> {
        let copies = self.copies;
        if self.subject.is_bare() {
            let (before, behind) = halves(copies.first()?.bytes()?);
            return if file == 0 { Some(before) } else { behind };
        }
        copies.get(file)?.bytes()
    }

    /// The file of a number, if its bytes are there.
    fn source(&self, file: usize) -> Option<Source<'a>> {
        Some(Source::of_file(self.subject.name(file).as_bytes(), self.bytes(file)?))
    }

    /// The file of a number, by its name.
    fn here(&self, file: usize) -> Here<'a> {
        Here {
            name: self.subject.name(file).as_bytes(),
            line: None,
        }
    }

    /// Why an instruction is refused.
    fn apt_reason(&self, file: usize, fault: &AptFault) -> Said {
        self.source(file)
            .map_or(Ok(None), |source| apt_reason(self.alloc, &source, fault))
    }

    /// Why a stem file is refused.
    fn stm_reason(&self, file: usize, fault: &StmFault) -> Said {
        match self.source(file) {
            Some(source) => stm_reason(self.alloc, &source, fault),
            None if self.subject.is_bare() && self.bytes(0).is_some() => self
                .here(0)
                .say(self.alloc, "no | between the instruction and the stems"),
            None => Ok(None),
        }
    }

    /// Why a journal is refused.
    fn journal_reason(&self, file: usize, fault: &JournalFault) -> Said {
        self.source(file).map_or(
            Ok(None),
            |source| journal_reason(self.alloc, &source, fault),
        )
    }

    /// The instruction of the run, with the numbers that are put in.
    fn instruction(&self) -> Option<Instruction> {
        self.instruction_with(self.subject.settings)
    }

    /// The instruction file's, with these numbers put in, if there are any.
    fn instruction_with(&self, settings: Option<&Settings>) -> Option<Instruction> {
        let own = read_apt(self.alloc, self.bytes(0)?).ok()?;
        match settings {
            Some(settings) => Some(own.with(settings)),
            None => Some(own),
        }
    }

    /// The instruction of the run, and the journal of the file of a number. A second journal may have settings of its
    /// own.
    fn history(&self, file: usize) -> Result<Option<History<'a>>, Memory> {
        let settings = match self.subject.second {
            Some(settings) if file == 2 => Some(settings),
            _ => self.subject.settings,
        };
        let instruction = self.instruction_with(settings);
        let (Some(instruction), Some(source)) = (instruction, self.source(file)) else {
            return Ok(None);
        };
        let Ok(journal) = read_journal(self.alloc, source.bytes) else {
            return Ok(None);
        };
        Ok(Some(History {
            instruction: Arc::new(self.alloc, instruction)?,
            source,
            journal,
        }))
    }

    /// Why the journal of a file isn't lawful.
    fn replay_reason(&self, file: usize, fault: &ReplayFault) -> Said {
        let Some(history) = self.history(file)? else {
            return Ok(None);
        };
        let unlawful = Unlawful {
            source: history.source,
            instruction: &history.instruction,
            journal: &history.journal,
        };
        replay_reason(self.alloc, &unlawful, fault)
    }

    /// A journal that is compared with the stem file of a harvester; none if what was read of that isn't there.
    fn tied<'b>(&self, history: &'b History<'a>, harvester: u32) -> Option<Tied<'b>> {
        let number = (harvester as usize).saturating_add(1);
        let file = self.source(number);
        if file.is_none() && number < self.subject.names.len() {
            return None;
        }
        Some(Tied {
            source: history.source,
            journal: &history.journal,
            harvester,
            file,
            files: self.subject.stem_files(),
        })
    }

    /// Why a lawful journal isn't as asked.
    fn check_reason(&self, fault: &CheckFault) -> Said {
        let Some(history) = self.history(1)? else {
            return Ok(None);
        };
        match *fault {
            CheckFault::Other { harvester, place } => self
                .tied(&history, harvester)
                .map_or(Ok(None), |tied| tied.other(self.alloc, place)),
            CheckFault::Uncut { harvester, place } => self
                .tied(&history, harvester)
                .map_or(Ok(None), |tied| tied.uncut(self.alloc, place)),
            CheckFault::Surplus { harvester, place } => self
                .tied(&history, harvester)
                .map_or(Ok(None), |tied| tied.surplus(self.alloc, place)),
            CheckFault::Price {
                version,
                class,
                price,
                wanted,
            } => {
                let mispriced = Mispriced {
                    version,
                    class,
                    price,
                    wanted,
                };
                self.rule_reason(&history, &mispriced)
            }
        }
    }

    /// Why a journal isn't that of its rule.
    fn rule_reason(&self, history: &History<'a>, mispriced: &Mispriced) -> Said {
        let Some(rule) = self.subject.rule else {
            return Ok(None);
        };
        rule_reason(
            self.alloc,
            &history.source,
            &history.instruction,
            rule.name(),
            mispriced,
        )
    }

    /// That a file can't be read or written, and why.
    fn troubled(&self, name: &str, trouble: Trouble) -> Said {
        let troubled = Troubled {
            trouble,
            inputs: self.subject.names.as_slice(),
        };
        let here = Here {
            name: name.as_bytes(),
            line: None,
        };
        here.say(self.alloc, troubled)
    }

    /// Why a file can't be read.
    fn read_reason(&self, file: usize) -> Said {
        let trouble = match self.copies.get(file) {
            Some(copied) if copied.count() > LIMIT => Trouble::Long,
            // A folder stands in the place of an input that is closed.
            Some(_) if self.subject.name(file) == INPUT => Trouble::Other,
            Some(copied) => copied.refused.map_or(Trouble::Other, Trouble::of),
            None if file < self.subject.names.len() => {
                self.known.refused().map_or(Trouble::Other, Trouble::of)
            }
            None => Trouble::Other,
        };
        self.troubled(self.subject.name(file), trouble)
    }

    /// Why the output or the journal can't be written.
    fn write_reason(&self) -> Said {
        let out = match self.subject.out {
            Some(out) if out != DASH && self.unwritten.is_none() => out,
            _ => {
                let trouble = self.unwritten.map_or(Trouble::Other, Trouble::of);
                return self.troubled(OUTPUT, trouble);
            }
        };
        let trouble = match self.known.refused() {
            Some(kind) => Some(Trouble::of(kind)),
            None => self.known.unwritten(out, self.subject.names.as_slice()),
        };
        self.troubled(out, trouble.unwrap_or(Trouble::Other))
    }

    /// That there are too many stem files, or none.
    fn seats_reason(&self) -> Said {
        let files = self.subject.stem_files();
        Ok(Some(format!(in self.alloc; "{files} stem files, expected 1 to 64\n")?))
    }

    /// That there are too many stems, or postings.
    fn full_reason(&self) -> Said {
        if self.subject.journals > 1 {
            return Ok(Some(format!(in self.alloc; "more than 1000000 postings together\n")?));
        }
        let mut stems = 0usize;
        let first = self.subject.others;
        for file in first..first.saturating_add(self.subject.stem_files()) {
            let Some(source) = self.source(file) else {
                return Ok(None);
            };
            stems = stems.saturating_add(source.stems());
        }
        Ok(Some(format!(in self.alloc; "{stems} stems, expected at most 1000000\n")?))
    }

    /// The number of a file of targets, which comes after the stem files.
    fn targets_file(&self) -> usize {
        self.subject
            .others
            .saturating_add(self.subject.stem_files())
    }

    /// The number of the last file.
    fn last_file(&self) -> usize {
        self.subject.names.len().saturating_sub(1)
    }

    /// Why an owner's instruction, which is the last file, is refused.
    fn own_reason(&self, fault: &OwnFault) -> Said {
        let file = self.last_file();
        let here = self.here(file);
        match fault {
            OwnFault::Refused(fault) => self.apt_reason(file, fault),
            OwnFault::Whole { number, kind } => here.say(
                self.alloc,
                format_args!("item {number} {kind} differs from that of the instruction"),
            ),
            OwnFault::Part {
                number,
                kind,
                assortment,
            } => here.say(
                self.alloc,
                format_args!(
                    "item {number} {kind} of assortment {assortment} differs from that of the instruction"
                ),
            ),
        }
    }

    /// Which of the targets of a file may not be put in.
    fn wrong_targets(&self, file: usize) -> Said {
        let (Some(instruction), Some(bytes)) = (self.instruction(), self.bytes(file)) else {
            return Ok(None);
        };
        let Ok(targets) = all_numbers(self.alloc, bytes) else {
            return Ok(None);
        };
        let wrong = WrongTargets {
            instruction: &instruction,
            targets: targets.as_slice(),
        };
        self.here(file).say(self.alloc, wrong)
    }

    /// Why a file of targets is refused.
    fn targets_reason(&self, fault: &TargetsFault) -> Said {
        let file = self.targets_file();
        let here = self.here(file);
        match fault {
            TargetsFault::Count => here.say(
                self.alloc,
                "expected one list of targets (918 1) for each assortment, with a number for each class",
            ),
            TargetsFault::Head { item } => {
                here.say(
                    self.alloc,
                    format_args!("item {item} does not begin with two numbers"),
                )
            }
            TargetsFault::Digits { list, .. } => here.say(
                self.alloc,
                format_args!("list {list} of targets has a word that is not a number"),
            ),
            TargetsFault::Range { .. } | TargetsFault::Sum { .. } => self.wrong_targets(file),
            TargetsFault::Memory => Ok(None),
        }
    }

    /// What was wrong in a run that ended with this fault, in lines of text; none if that isn't known. Refused as
    /// `Memory` alone.
    pub fn reason(&self, fault: &TermsFault) -> Said {
        match fault {
            TermsFault::Run(fault) => self.run_reason(fault),
            TermsFault::Targets(fault) => self.targets_reason(fault),
            TermsFault::Own(fault) => self.own_reason(fault),
        }
    }

    /// Why a run failed by a fault that any run may have.
    fn run_reason(&self, fault: &EngineFault) -> Said {
        match fault {
            EngineFault::Read { file } => self.read_reason(*file as usize),
            EngineFault::Write => self.write_reason(),
            EngineFault::Apt(fault) => self.apt_reason(0, fault),
            EngineFault::Stm { file, fault } => self.stm_reason(*file as usize, fault),
            EngineFault::Journal(fault) => self.journal_reason(1, fault),
            EngineFault::JournalOf { journal, fault } => {
                self.journal_reason(*journal as usize, fault)
            }
            EngineFault::Replay(fault) => self.replay_reason(1, fault),
            EngineFault::ReplayOf { journal, fault } => {
                self.replay_reason(*journal as usize, fault)
            }
            EngineFault::Check(fault) => self.check_reason(fault),
            EngineFault::Seats => self.seats_reason(),
            EngineFault::Full => self.full_reason(),
            EngineFault::Close(_) | EngineFault::Memory => Ok(None),
        }
    }
}
