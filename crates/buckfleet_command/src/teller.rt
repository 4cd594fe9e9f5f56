//! What is said in words of a run beside what it prints: on the errors if that is asked for, else on the screen.
use crate::refusing::refusal;
use buck_apt_instruction::Instruction;
use buckfleet_command_remarks::Screen;
use buckfleet_command_streams::Shared;
use buckfleet_engine_files::EngineFault;
use buckfleet_live::Replies;
use buckfleet_reason::Source;
use buckfleet_tasks::INPUT;
use std::alloc::Global;
use std::cell::{Cell, RefCell};
use std::io;

/// Says words where they go, to which several may turn in one run.
#[derive(Drop)]
pub(crate) struct Teller<'a, E, S, C> {
    alloc: Global,
    errors: RefCell<&'a mut E>,
    /// Whether words are asked for.
    explain: bool,
    pub(crate) screen: Option<Screen<S, C>>,
    /// How many lines of the input were answered.
    lines: Cell<usize>,
}

impl<'a, E: io::Write, S: io::Write + Copy + Drop, C: Copy + Drop> Teller<'a, E, S, C> {
    pub(crate) fn of(
        alloc: Global,
        errors: &'a mut E,
        explain: bool,
        screen: Option<Screen<S, C>>,
    ) -> Teller<'a, E, S, C> {
        Teller {
            alloc,
            errors: RefCell::new(errors),
            explain,
            screen,
            lines: Cell::new(0),
        }
    }

    /// Whether anything is said in words.
    pub(crate) fn is_told(&self) -> bool {
        self.explain || self.screen.is_some()
    }

    /// Says a text on the screen, if there is one.
    pub(crate) fn show(&self, text: &str) {
        if let Some(screen) = self.screen {
            let mut writer = screen.writer;
            let _ = writer.write_all(text.as_bytes());
        }
    }

    /// Says what was wrong.
    pub(crate) fn say(&self, text: &str) {
        if !self.explain {
            self.show(text);
        } else if let Ok(mut errors) = self.errors.try_borrow_mut() {
            let _ = errors.write_all(text.as_bytes());
        }
    }

    /// Says why the next line of the input is refused, if it is.
    pub(crate) fn hear(
        &self,
        line: &[u8],
        fits: bool,
        instruction: &Instruction,
        answer: &Result<Vec<u8>, EngineFault>,
    ) {
        let number = self.lines.get().saturating_add(1);
        self.lines.set(number);
        if !self.is_told() {
            return;
        }
        let source = Source::of_line(INPUT.as_bytes(), line, number);
        if let Ok(Some(text)) = refusal(self.alloc, &source, fits, instruction, answer) {
            self.say(text.as_str());
        }
    }
}

/// Standard output of `live`, before whose answers the reason of a refused request is said in words.
#[derive(Drop)]
pub(crate) struct Spoken<'a, 'b, 'c, 'd, W, E, S, C> {
    pub(crate) output: Shared<'a, 'b, W>,
    pub(crate) teller: &'c Teller<'d, E, S, C>,
}

impl<'a, 'b, 'c, 'd, W: io::Write, E, S, C> io::Write for Spoken<'a, 'b, 'c, 'd, W, E, S, C> {
    fn write(&mut self, buf: &[u8]) -> io::Result<usize> {
        self.output.write(buf)
    }

    fn flush(&mut self) -> io::Result<()> {
        self.output.flush()
    }
}

impl<'a, 'b, 'c, 'd, W: io::Write, E: io::Write, S: io::Write + Copy + Drop, C: Copy + Drop> Replies
    for Spoken<'a, 'b, 'c, 'd, W, E, S, C> {
    fn hear(
        &mut self,
        line: &[u8],
        fits: bool,
        instruction: &Instruction,
        answer: &Result<Vec<u8>, EngineFault>,
    ) {
        self.teller.hear(line, fits, instruction, answer);
    }
}
