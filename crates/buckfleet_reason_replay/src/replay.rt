//! Why a journal isn't lawful.
use crate::logs::wrong_log;
use crate::posting::Who;
use crate::prices::{price_reason, sheet_reason};
use crate::targets::WrongTargets;
use buck_apt_instruction::Instruction;
use buck_book_journal::{Journal, ReplayFault};
use buck_book_postings::{Entry, MOST_POSTINGS, Posting, Walk};
use buck_book_replay::replay_in_order;
use buck_dp::{best, worth_if_admissible};
use buck_record::Memory;
use buck_value::Sheet;
use buckfleet_reason::{Quoted, Said, Source};
use std::alloc::Global;
use std::sync::Arc;

/// A journal that isn't lawful: its file, what was read from it, and its instruction.
#[derive(Clone, Copy)]
pub struct Unlawful<'a> {
    pub source: Source<'a>,
    pub instruction: &'a Arc<Instruction>,
    pub journal: &'a Journal,
}

/// Index of the item of a posting, from 0, that says whose call it is.
const CALL: usize = 0;

/// Index of the item of a demand, from 0, that has the targets.
const TARGETS: usize = 1;

/// Index of the item of a cut, from 0, that has the logs.
const LOGS: usize = 4;

/// Index of the item of a cut, from 0, that has the worth.
const WORTH: usize = 5;

impl<'a> Unlawful<'a> {
    /// The cut at a place, by its name.
    fn cut(&self, at: usize) -> Option<(Who<'a>, &'a Entry)> {
        let who = Who::of(self.journal, at)?;
        Some((who, who.cut()?))
    }

    /// The sheet of a version, if it is there.
    fn sheet(&self, alloc: Global, version: u32) -> Result<Option<Sheet>, Memory> {
        let journal = self.journal;
        let Some(prices) = journal.sheets.get(version as usize) else {
            return Ok(None);
        };
        let prices = Vec::from_slice(alloc, prices.as_slice())?;
        Ok(Sheet::with_prices(self.instruction.clone()?, version, prices).ok())
    }

    /// Says that a posting doesn't have its harvester's next number.
    fn misnumbered(&self, alloc: Global, walk: &Walk<'_>, at: usize) -> Said {
        let Some(who) = Who::of(self.journal, at) else {
            return Ok(None);
        };
        let number = match who.posting {
            Posting::Cut(entry) => entry.number,
            Posting::Demand(demand) => demand.number,
        };
        let wanted = walk.next_number(who.posting.harvester());
        let words = format_args!("number {number}, expected {wanted}");
        who.say(alloc, &self.source, CALL, words)
    }

    /// Says that a posting doesn't have the version in force.
    fn misversioned(&self, alloc: Global, walk: &Walk<'_>, at: usize) -> Said {
        let Some(who) = Who::of(self.journal, at) else {
            return Ok(None);
        };
        let version = match who.posting {
            Posting::Cut(entry) => entry.version,
            Posting::Demand(demand) => demand.version,
        };
        let wanted = walk.version();
        let words = format_args!("version {version}, expected {wanted}");
        who.say(alloc, &self.source, CALL, words)
    }

    /// Says that the logs of a cut can't be cut.
    fn miscut(&self, alloc: Global, at: usize) -> Said {
        let Some((who, entry)) = self.cut(at) else {
            return Ok(None);
        };
        match wrong_log(self.instruction, &entry.stem, entry.cutting.logs.as_slice()) {
            Some(wrong) => who.say(alloc, &self.source, LOGS, wrong),
            None => Ok(None),
        }
    }

    /// Says that a cut isn't worth what it says.
    fn misvalued(&self, alloc: Global, at: usize) -> Said {
        let Some((who, entry)) = self.cut(at) else {
            return Ok(None);
        };
        let Some(sheet) = self.sheet(alloc, entry.version)? else {
            return Ok(None);
        };
        let Some(wanted) = worth_if_admissible(&sheet, &entry.stem, &entry.cutting) else {
            return Ok(None);
        };
        let words = format_args!("worth {}, expected {wanted}", entry.worth);
        who.say(alloc, &self.source, WORTH, words)
    }

    /// Says that logs of a stem are worth more, and which.
    fn outvalued(&self, alloc: Global, at: usize) -> Said {
        let Some((who, entry)) = self.cut(at) else {
            return Ok(None);
        };
        let Some(sheet) = self.sheet(alloc, entry.version)? else {
            return Ok(None);
        };
        let (better, wanted) = best(alloc, &sheet, &entry.stem)?;
        let mut logs = String::new(alloc);
        for log in better.logs.as_slice() {
            let assortment = log.assortment;
            let found = self.instruction.assortments().get(usize::from(assortment));
            let name = Quoted(found.map_or(&[], |found| found.name()));
            write!(
                &mut logs,
                "\n  start {}, length {}, assortment {assortment} {name}",
                log.start, log.length
            )?;
        }
        let words = format_args!(
            "logs worth {}, expected these, worth {wanted}:{logs}",
            entry.worth
        );
        who.say(alloc, &self.source, LOGS, words)
    }

    /// Says that new targets may not come into force.
    fn untargeted(&self, alloc: Global, at: usize) -> Said {
        let Some(who) = Who::of(self.journal, at) else {
            return Ok(None);
        };
        let Posting::Demand(demand) = who.posting else {
            return Ok(None);
        };
        let wrong = WrongTargets {
            instruction: self.instruction,
            targets: demand.targets.as_slice(),
        };
        who.say(alloc, &self.source, TARGETS, wrong)
    }
}

/// Returns why a journal isn't lawful, in lines of text, given its fault. For an outvalued cut it shows the best one.
/// None if that isn't its fault. Refused as `Memory` alone.
pub fn replay_reason(alloc: Global, unlawful: &Unlawful<'_>, fault: &ReplayFault) -> Said {
    if let ReplayFault::Outvalued { at } = fault {
        return unlawful.outvalued(alloc, *at);
    }
    let journal = unlawful.journal;
    if journal.entries.len() > MOST_POSTINGS as usize {
        return Ok(None);
    }
    let stop = replay_in_order(alloc, unlawful.instruction, journal)?;
    let walk = &stop.walk;
    if stop.outcome != Err(*fault) {
        return Ok(None);
    }
    match *fault {
        ReplayFault::Sheet { version } => sheet_reason(alloc, unlawful, version),
        ReplayFault::Price { class, .. } => price_reason(alloc, unlawful, walk, class),
        ReplayFault::Numbering { at } => unlawful.misnumbered(alloc, walk, at),
        ReplayFault::Version { at } => unlawful.misversioned(alloc, walk, at),
        ReplayFault::Cutting { at } => unlawful.miscut(alloc, at),
        ReplayFault::Worth { at } => unlawful.misvalued(alloc, at),
        ReplayFault::Targets { at } => unlawful.untargeted(alloc, at),
        ReplayFault::Outvalued { .. } | ReplayFault::Memory => Ok(None),
    }
}
