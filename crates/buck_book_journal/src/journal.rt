//! Journals.
use buck_book_postings::Posting;
use std::marker::Model;

/// The journal of a history, as it was written: whether it is lawful is another question.
#[derive(Drop)]
pub struct Journal {
    /// Prices of each sheet, by version from 0, in price units per m³ or per piece: class by class.
    pub sheets: Vec<Vec<u32>>,
    /// The postings, in the order of their commits.
    pub entries: Vec<Posting>,
}

impl Model for Journal {
    ghost use Rattle.std.specs.Prelude.{map};
    ghost use Rattle.buck_book_journal.specs.Journal.{JournalParts};

    ghost Value = { JournalParts };

    ghost view = { λ j. record { sheets = map (λ w. w.items) j.sheets.items; entries = j.entries.items } };
}
