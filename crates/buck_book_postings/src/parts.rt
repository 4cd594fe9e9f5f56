//! What a book hands out at its end.
ghost use Rattle.std.specs.Prelude.{◌≡◌, ◌≤◌, length, map};
ghost use Rattle.buck_book_postings.specs.Posting.{targets_of};
ghost use Rattle.buck_book_postings.specs.Targets.{AreTargets};
ghost use Rattle.buck_book_postings.specs.Counts.{AreClassCounts};
ghost use Rattle.buck_book_postings.specs.History.{IsLawful, in_force};
ghost use Rattle.buck_book_postings.specs.Book.{sheets_from};
ghost use Rattle.buck_book_postings.specs.declared.posting.TheConstants.{MOST_POSTINGS};

use crate::posting::Posting;
use buck_apt_instruction::Instruction;
use buck_value::Sheet;
use std::marker::Model;
use std::sync::Arc;

/// The content of a book: a lawful history, the targets in force at its end, and the number of logs cut in each class.
#[derive(Drop)]
pub struct Parts {
    pub(crate) instruction: Arc<Instruction>,
    pub(crate) sheets: Vec<Arc<Sheet>>,
    pub(crate) entries: Vec<Posting>,
    pub(crate) targets: Arc<Vec<u32>>,
    pub(crate) counts: Vec<u32>,
}

impl Model for Parts {
    ghost use Rattle.std.specs.Prelude.{map};
    ghost use Rattle.buck_book_postings.specs.History.{HistoryParts};
    ghost use Rattle.buck_book_postings.specs.inner.Parts.{KeepsParts, history_of};

    ghost Value = { HistoryParts };

    ghost view = { λ p. history_of p.instruction.value (map (λ a. a.value.prices) p.sheets.items) p.entries.items };

    ghost invariant = { λ p. KeepsParts
        (history_of p.instruction.value (map (λ a. a.value.prices) p.sheets.items) p.entries.items)
        (map (λ a. a.value) p.sheets.items) p.targets.value.items p.counts.items };
}

impl Parts {
    /// The instruction that the history is lawful for.
    pub fn instruction(&self) -> &Arc<Instruction>
        ensures { result.now.value ≡ self.now.instruction }
    {
        &self.instruction
    }

    /// The sheets, by version from 0.
    pub fn sheets(&self) -> &[Arc<Sheet>]
        ensures sheets { map (λ a. a.value) result.now ≡ sheets_from 0 self.now.instruction self.now.sheets }
        ensures lawful { IsLawful self.now }
    {
        self.sheets.as_slice()
    }

    /// The sheet of the last version.
    pub fn last_sheet(&self) -> &Arc<Sheet>
        ensures { result.now.value ≡ in_force self.now }
    {
        &self.sheets[self.sheets.len() - 1]
    }

    /// The postings, in the order of their commits, at most 1,000,000.
    pub fn entries(&self) -> &[Posting]
        ensures postings { result.now ≡ self.now.postings }
        ensures lawful { IsLawful self.now }
        ensures few { length self.now.postings ≤ MOST_POSTINGS }
    {
        self.entries.as_slice()
    }

    /// The targets in force at the end, in logs of each class: those of the last demand, else the instruction's.
    pub fn targets(&self) -> &[u32]
        ensures targets { result.now ≡ targets_of self.now.instruction self.now.postings }
        ensures valid { AreTargets self.now.instruction result.now }
    {
        self.targets.as_slice()
    }

    /// How many logs were cut in each class, assortment by assortment and row by row.
    pub fn counts(&self) -> &[u32]
        ensures { AreClassCounts self.now.instruction self.now.postings result.now }
    {
        self.counts.as_slice()
    }

    /// The postings alone.
    pub fn into_entries(self) -> Vec<Posting>
        ensures { result.items ≡ self.postings }
    {
        self.entries
    }
}
