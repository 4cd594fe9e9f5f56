//! A journal that is judged.
ghost use Rattle.std.specs.Prelude.{◌≡◌, ◌<◌, ◌≤◌, IfOk, IfNone, IfSome, length, map};
ghost use Rattle.buck_apt_instruction.specs.Instruction.{IsInstruction};
ghost use Rattle.buck_book_postings.specs.History.{prices_at, sheet_at};
ghost use Rattle.buck_book_journal.specs.Journal.{history_of};
ghost use Rattle.buck_book_replay.specs.inner.Sheets.{AreMade, IsMissing};

use crate::sheets::{new_sheet, prices_of};
use buck_apt_instruction::Instruction;
use buck_book_journal::Journal;
use buck_book_postings::Posting;
use buck_record::Memory;
use buck_value::Sheet;
use std::alloc::Global;
use std::marker::Model;
use std::sync::Arc;

/// A journal that is judged by an instruction, with the sheets that its first prices make.
#[derive(Drop)]
pub(crate) struct Case<'a, 'm> {
    instruction: &'a Arc<Instruction>,
    sheets: &'a [Vec<u32>],
    postings: &'a [Posting],
    made: &'m [Arc<Sheet>],
}

impl<'a, 'm> Model for Case<'a, 'm> {
    ghost use Rattle.std.specs.Prelude.{map};
    ghost use Rattle.buck_book_postings.specs.History.{HistoryParts};
    ghost use Rattle.buck_book_replay.specs.inner.Sheets.{AreMade};

    ghost Value = { HistoryParts };

    ghost view = { λ c. record {
      instruction = c.instruction.now.value;
      sheets = map (λ v. v.items) c.sheets.now;
      postings = c.postings.now;
    } };

    ghost invariant = { λ c. AreMade c.instruction.now.value (map (λ v. v.items) c.sheets.now)
        (map (λ a. a.value) c.made.now) };
}

impl<'a, 'm> Case<'a, 'm> {
    /// That of a journal, with its first sheets.
    pub(crate) fn of(
        instruction: &'a Arc<Instruction>,
        journal: &'a Journal,
        made: &'m [Arc<Sheet>],
    ) -> Case<'a, 'm>
        requires { AreMade instruction.now.value journal.now.sheets (map (λ a. a.value) made.now) }
        ensures { result ≡ history_of instruction.now.value journal.now }
    {
        Case {
            instruction,
            sheets: journal.sheets.as_slice(),
            postings: journal.entries.as_slice(),
            made,
        }
    }

    /// The instruction.
    pub(crate) fn instruction(&self) -> &'a Instruction
        ensures { result.now ≡ self.now.instruction }
    {
        self.instruction
    }

    /// The postings.
    pub(crate) fn postings(&self) -> &'a [Posting]
        ensures { result.now ≡ self.now.postings }
    {
        self.postings
    }

    /// How many sheets there are.
    pub(crate) fn sheets(&self) -> usize
        ensures { result ≡ length self.now.sheets }
    {
        self.sheets.len()
    }

    /// The prices of a version, if they are there.
    pub(crate) fn prices(&self, version: u32) -> Option<&'a [u32]>
        ensures there { IfSome result (λ prices. version < length self.now.sheets) }
        ensures prices { IfSome result (λ prices. prices.now ≡ prices_at self.now.sheets version) }
        ensures none { IfNone result (length self.now.sheets ≤ version) }
    {
        prices_of(self.sheets, version)
    }

    /// The sheet of a version, if its prices are there and make one: one of those that were made, or a new one.
    pub(crate) fn sheet(&self, alloc: Global, version: u32) -> Result<Option<Arc<Sheet>>, Memory>
        ensures sheet { IfOk result (λ o. IfSome o (λ s.
            s.value ≡ sheet_at self.now.instruction self.now.sheets version)) }
        ensures none { IfOk result (λ o. IfNone o
            (IsMissing self.now.instruction self.now.sheets version)) }
    {
        let at = version as usize;
        if at < self.made.len() {
            return Ok(Some(self.made[at].clone()?));
        }
        new_sheet(alloc, self.instruction, self.sheets, version)
    }
}
