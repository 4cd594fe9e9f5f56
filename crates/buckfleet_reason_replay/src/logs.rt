//! Logs that can't be cut from their stem.
use buck_apt_instruction::{Assortment, Instruction};
use buck_dp_own_logs::{Reason, reason_of};
use buck_stem_shape::{Stem, slots};
use buck_value::Log;
use std::fmt;

/// Numbers with these words between.
#[derive(Clone, Copy)]
struct Apart<'a, T>(&'a [T], &'static str);

impl<T: fmt::Display> fmt::Display for Apart<'_, T> {
    fn fmt<W: fmt::Write>(&self, f: &mut fmt::Formatter<W>) -> fmt::Result {
        let Apart(numbers, between) = *self;
        let mut before = "";
        for number in numbers {
            write!(f, "{before}{number}")?;
            before = between;
        }
        Ok(())
    }
}

/// A log that can't be cut at its place, and why.
#[derive(Clone, Copy)]
pub(crate) struct WrongLog<'a> {
    instruction: &'a Instruction,
    stem: &'a Stem,
    /// Its place in the cutting, counted from 1.
    place: usize,
    log: Log,
    /// Where the log before it ends.
    from: u32,
    reason: Reason,
}

/// The greatest grade.
const GREATEST: u8 = slots::GRADES.high as u8;

impl WrongLog<'_> {
    /// Where its length ends.
    fn top(&self) -> u32 {
        self.log.start.saturating_add(self.log.length)
    }

    /// Its top diameter in mm; 0 if it goes beyond its stem.
    fn diameter(&self) -> u32 {
        let top = self.top();
        if top <= self.stem.length() {
            self.stem.diameter_at(top)
        } else {
            0
        }
    }

    /// The least grade of it that its assortment doesn't take; 0 if it takes all.
    fn grade(&self, assortment: &Assortment) -> u8 {
        let mut rest = self.stem.grades_between(self.log.start, self.top());
        for grade in 1..GREATEST + 1 {
            if rest % 2 == 1 && !assortment.grades().contains(&grade) {
                return grade;
            }
            rest /= 2;
        }
        0
    }

    /// Writes what is expected of a log of this assortment.
    fn write_why<W: fmt::Write>(
        &self,
        f: &mut fmt::Formatter<W>,
        assortment: &Assortment,
    ) -> fmt::Result {
        let from = self.from;
        let module = self.instruction.module();
        let top = self.diameter();
        match self.reason {
            Reason::Order => write!(
                f,
                "expected a start from {from} on, the end of the log before"
            ),
            Reason::Assortment => Ok(()),
            Reason::Species => {
                let found = self.stem.species();
                write!(f, "species {found}, expected {}", assortment.species())
            }
            Reason::Start => write!(f, "expected a start that is a multiple of {module}"),
            Reason::Length => {
                let lengths = Apart(assortment.lengths(), " ");
                write!(f, "expected one of the lengths {lengths}")
            }
            Reason::End => {
                let end = self.top().saturating_add(assortment.trim());
                write!(f, "ends at {end}, expected at most {}", self.stem.length())
            }
            Reason::Grade => {
                let wanted = Apart(assortment.grades(), " or ");
                write!(f, "grade {}, expected {wanted}", self.grade(assortment))
            }
            Reason::Diameter => {
                let least = assortment.diameters().first().copied().unwrap_or(0);
                let most = assortment.upper().saturating_sub(1);
                write!(f, "top diameter {top}, expected {least} to {most}")
            }
            Reason::Price => write!(f, "top diameter {top}, not bought (base price 0)"),
        }
    }
}

impl fmt::Display for WrongLog<'_> {
    fn fmt<W: fmt::Write>(&self, f: &mut fmt::Formatter<W>) -> fmt::Result {
        let place = self.place;
        let Log {
            start,
            length,
            assortment,
        } = self.log;
        write!(
            f,
            "log {place} (start {start}, length {length}, assortment {assortment}): "
        )?;
        let all = self.instruction.assortments();
        match all.get(usize::from(assortment)) {
            Some(found) => self.write_why(f, found),
            None => write!(f, "expected an assortment below {}", all.len()),
        }
    }
}

/// Where a log ends, with its trim.
fn end_of(instruction: &Instruction, log: &Log) -> u32 {
    let assortment = instruction.assortments().get(usize::from(log.assortment));
    let trim = assortment.map_or(0, |found| found.trim());
    log.start.saturating_add(log.length).saturating_add(trim)
}

/// The first of some logs that can't be cut at its place. Of its reasons the last is that it starts too soon.
pub(crate) fn wrong_log<'a>(
    instruction: &'a Instruction,
    stem: &'a Stem,
    logs: &[Log],
) -> Option<WrongLog<'a>> {
    let mut from = 0;
    let mut place = 1usize;
    for log in logs {
        let reason = match reason_of(instruction, stem, 0, log) {
            None if log.start < from => Some(Reason::Order),
            reason => reason,
        };
        if let Some(reason) = reason {
            return Some(WrongLog {
                instruction,
                stem,
                place,
                log: *log,
                from,
                reason,
            });
        }
        from = end_of(instruction, log);
        place = place.saturating_add(1);
    }
    None
}
