//! What each engine is given, what it writes, and how its runs end.
ghost use Rattle.std.specs.Prelude.{◌≤◌};

use crate::streams::{Sink, Source};
use buck_rule::{NamedRule, Rule, Standing, step};
use buckfleet_engine::{
    Settings, run_bare, run_buck, run_buck_in_parts, run_check, run_fleet_files, run_in_turn,
};
use buckfleet_engine_cross_check::{CrossCheck, run_check_with};
use buckfleet_engine_files::{EngineFault, Nobody, OneThread, SeveralThreads};
use std::alloc::Global;
use std::sync::Wait;
use std::thread::Threads;

/// The saw instruction with period 1 and limit 500, and behind the bar two stems of 4,000 mm and 250 mm.
pub const INPUT: &str = "1 2 APT~901 1 100~902 1 1~903 1 500~910 1 1~
911 1 saw~912 1 1~913 1 1~914 1 1~915 1 100 200~915 2 400~
916 1 3000 4000~917 1 400 500 600 800~918 1 1 1 1 1~
|1 2 STM~951 1 1~952 1 1~953 1 250 250 250 250 250 250 250 250 250 250 250 250 250 250 250 250 250 250 250 250
250 250 250 250 250 250 250 250 250 250 250 250 250 250 250 250 250 250 250 250 250~
951 1 2~952 1 1~953 1 250 250 250 250 250 250 250 250 250 250 250 250 250 250 250 250 250 250 250 250
250 250 250 250 250 250 250 250 250 250 250 250 250 250 250 250 250 250 250 250 250~
";

/// A stem file without stems.
pub const NO_STEMS: &str = "1 2 STM~";

/// What is cut of the two stems under the base prices.
pub const TEXT: &str = "STEM 1 4000 1 157080000
LOG 0 4000 250 1 1 157080000 saw
STEM 2 4000 1 157080000
LOG 0 4000 250 1 1 157080000 saw
TOTAL 2 2 314160000
";

/// The journal of a harvester that cuts the two stems under the step rule.
pub const JOURNAL: &str = "1 2 JRN~
971 1 400 500 600 800~
971 1 600 750 900 400~
971 1 600 750 300 400~
981 1 1 1 0~
981 2 1 1~
981 3 250 250 250 250 250 250 250 250 250 250 250 250 250 250 250 250 250 250 250 250 250 250 250 250 250 250 250 250 250 250 250 250 250 250 250 250 250 250 250 250 250~
981 4~
981 5 0 4000 0~
981 6 157080000~
981 1 1 2 1~
981 2 2 1~
981 3 250 250 250 250 250 250 250 250 250 250 250 250 250 250 250 250 250 250 250 250 250 250 250 250 250 250 250 250 250 250 250 250 250 250 250 250 250 250 250 250 250~
981 4~
981 5 0 3000 0~
981 6 132535800~
";

/// The report of that harvester.
pub const REPORT: &str = "ENTRY 0 1 1 0 1 1 157080000
ENTRY 1 1 2 1 2 1 132535800
CLASS 0 0 0 1 0 400 600
CLASS 0 0 1 1 0 500 750
CLASS 0 1 0 1 1 600 300
CLASS 0 1 1 1 1 800 400
DEGREE 0 5000 saw
TOTAL 2 2 289615800
";

/// The instruction file and the stem file of the input.
pub fn apt_and_stm() -> (&'static str, &'static str) {
    INPUT.split_once('|').unwrap_or((INPUT, ""))
}

/// An engine.
#[derive(Clone, Copy, Debug)]
pub enum Engine {
    /// Over one input.
    Bare,
    /// Over an instruction file and a stem file.
    Buck,
    /// The same in two threads.
    Parts,
    /// Over an instruction file and a journal.
    Check,
    /// Over an instruction file, a journal and a stem file, with the rule of the journal.
    Tied,
    /// Over an instruction file and two stem files, the second of which has no stems.
    Fleet,
    /// Over the same files, in turn.
    Turns,
}

pub const ENGINES: [Engine; 7] = [
    Engine::Bare,
    Engine::Buck,
    Engine::Parts,
    Engine::Check,
    Engine::Tied,
    Engine::Fleet,
    Engine::Turns,
];

impl Engine {
    /// The files that it reads; the places of those that it doesn't are empty.
    pub fn files(self) -> [&'static [u8]; 3] {
        let (apt, stm) = apt_and_stm();
        match self {
            Engine::Bare => [INPUT.as_bytes(), b"", b""],
            Engine::Buck | Engine::Parts => [apt.as_bytes(), stm.as_bytes(), b""],
            Engine::Check => [apt.as_bytes(), JOURNAL.as_bytes(), b""],
            Engine::Tied => [apt.as_bytes(), JOURNAL.as_bytes(), stm.as_bytes()],
            Engine::Fleet | Engine::Turns => {
                [apt.as_bytes(), stm.as_bytes(), NO_STEMS.as_bytes()]
            }
        }
    }

    /// How many files it reads.
    pub fn reads(self) -> usize
        ensures { result ≤ 3 }
    {
        match self {
            Engine::Bare => 1,
            Engine::Buck | Engine::Parts | Engine::Check => 2,
            Engine::Tied | Engine::Fleet | Engine::Turns => 3,
        }
    }

    /// The journal and the text that it writes.
    pub fn texts(self) -> [&'static [u8]; 2] {
        match self {
            Engine::Bare | Engine::Buck | Engine::Parts => [b"", TEXT.as_bytes()],
            Engine::Check | Engine::Tied => [b"", b"LAWFUL 2\n"],
            Engine::Fleet | Engine::Turns => [JOURNAL.as_bytes(), REPORT.as_bytes()],
        }
    }

    /// The pieces of its text that its writer is given one after the other.
    pub fn pieces(self) -> [&'static [u8]; 2] {
        let [_, text] = self.texts();
        let at = match self {
            Engine::Parts => text.len().saturating_sub(b"TOTAL 2 2 314160000\n".len()),
            _ => text.len(),
        };
        let at = at.min(text.len());
        [&text[..at], &text[at..]]
    }

    /// What a fleet writes of these files, at once or in turn.
    fn run_fleet<'a, T: Threads + Wait + Sync>(
        self,
        rt: &T,
        alloc: Global,
        apt: &mut Source<'a>,
        stms: &mut [Source<'a>; 2],
        journal: &mut Sink,
        text: &mut Sink,
    ) -> Result<(), EngineFault> {
        let rule = Rule::new(|s: &Standing| step(s));
        if matches!(self, Engine::Turns) {
            run_in_turn(alloc, apt, stms, rule, Some(journal), text)
        } else {
            run_fleet_files(rt, alloc, apt, stms, rule, Some(journal), text)
        }
    }

    /// A run over these files, into these writers of the journal and the text.
    pub fn run<T: Threads + Wait + Sync>(
        self,
        rt: &T,
        alloc: Global,
        files: [Source<'_>; 3],
        sinks: [Sink; 2],
    ) -> Ending {
        let [mut first, second, third] = files;
        let [mut journal, mut text] = sinks;
        let mut others = [second, third];
        let outcome = match self {
            Engine::Bare => run_bare(alloc, &mut first, &mut text),
            Engine::Buck => run_buck(alloc, &mut first, &mut others[0], &mut text),
            Engine::Parts => run_buck_in_parts(
                &SeveralThreads::of(rt, Some(2), &Nobody),
                alloc,
                &mut first,
                &mut others[0],
                &mut text,
            ),
            Engine::Check => run_check(alloc, &mut first, &mut others[0], &mut text),
            Engine::Tied => {
                let (postings, stms) = others.split_at_mut(1);
                let by = CrossCheck {
                    rule: Some(NamedRule::Step),
                    settings: Settings::own(),
                };
                run_check_with(
                    &OneThread,
                    alloc,
                    &by,
                    &mut first,
                    &mut postings[0],
                    stms,
                    &mut text,
                )
            }
            Engine::Fleet | Engine::Turns => {
                self.run_fleet(rt, alloc, &mut first, &mut others, &mut journal, &mut text)
            }
        };
        Ending {
            outcome,
            reads: [first.reads, others[0].reads, others[1].reads],
            journal,
            text,
        }
    }

    /// A run that reads and writes by these steps, and in which nothing fails.
    pub fn run_by<T: Threads + Wait + Sync>(self, rt: &T, alloc: Global, step: usize) -> Ending {
        let [first, second, third] = self.files();
        let files = [
            Source::of(first, step),
            Source::of(second, step),
            Source::of(third, step),
        ];
        self.run(rt, alloc, files, [Sink::of(step), Sink::of(step)])
    }
}

/// How a run ended, how often each file was read, and what was written.
#[derive(Drop)]
pub struct Ending {
    pub outcome: Result<(), EngineFault>,
    pub reads: [usize; 3],
    pub journal: Sink,
    pub text: Sink,
}

impl Ending {
    /// Whether the run ended well, and wrote these texts.
    pub fn wrote(&self, texts: [&[u8]; 2]) -> bool {
        self.outcome == Ok(()) && self.journal.bytes() == texts[0] && self.text.bytes() == texts[1]
    }

    /// Whether the run was refused by this fault, without a write.
    pub fn is_unwritten(&self, fault: EngineFault) -> bool {
        self.outcome == Err(fault) && self.journal.writes == 0 && self.text.writes == 0
    }

    /// Whether the run ended as a write fault, with so many first bytes of these texts.
    pub fn kept(&self, texts: [&[u8]; 2], lengths: [usize; 2]) -> bool {
        self.outcome == Err(EngineFault::Write)
            && texts[0].get(..lengths[0]) == Some(self.journal.bytes())
            && texts[1].get(..lengths[1]) == Some(self.text.bytes())
    }

    /// Whether another run ended alike, and wrote the same.
    pub fn is_like(&self, other: &Ending) -> bool {
        self.outcome == other.outcome
            && self.journal.bytes() == other.journal.bytes()
            && self.text.bytes() == other.text.bytes()
    }
}
