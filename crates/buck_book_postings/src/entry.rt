//! Entries of a history.
ghost use Rattle.std.specs.Prelude.{◌≡◌, ◌↔◌, IfOk, IsTrue};

use buck_dp::Cutting;
use buck_record::Memory;
use buck_stem_shape::Stem;
use buck_value::Log;
use std::marker::Model;
use std::sync::Arc;

/// A cut: the logs of one stem, and the prices it was planned under.
#[derive(Drop)]
pub struct Entry {
    /// Number of the harvester that cut it, 1 to 64.
    pub harvester: u32,
    /// Which of its harvester's postings it is, from 1.
    pub number: u32,
    /// The stem that was cut.
    pub stem: Arc<Stem>,
    /// Version of the sheet that it was planned under, from 0.
    pub version: u32,
    /// The logs that were cut, from the butt on.
    pub cutting: Arc<Cutting>,
    /// Worth of the logs under that sheet, in millionths of the price unit.
    pub worth: u64,
}

impl Model for Entry {
    ghost use Rattle.buck_book_postings.specs.Entry.{EntryParts};

    ghost Value = { EntryParts };

    ghost view = { λ e. record {
      harvester = e.harvester;
      number = e.number;
      stem = e.stem.value;
      version = e.version;
      logs = e.cutting.value.logs.items;
      worth = e.worth;
    } };
}

/// Whether two lists of logs are equal.
fn same_logs(these: &[Log], those: &[Log]) -> bool
    ensures { IsTrue result ↔ (these.now ≡ those.now) }
{
    these == those
}

impl Entry {
    /// A second entry of the same value, made of an equal stem and an equal cutting.
    pub fn sharing(&self, stem: Arc<Stem>, cutting: Arc<Cutting>) -> Entry
        requires stem { stem.value ≡ self.now.stem }
        requires logs { cutting.value.logs.items ≡ self.now.logs }
        ensures { result ≡ self.now }
    {
        Entry {
            harvester: self.harvester,
            number: self.number,
            stem,
            version: self.version,
            cutting,
            worth: self.worth,
        }
    }

    /// A second entry of the same value, which shares the stem and the cutting. Refused as `Memory` alone.
    pub fn clone(&self) -> Result<Entry, Memory>
        ensures { IfOk result (λ e. e ≡ self.now) }
    {
        let stem = self.stem.clone()?;
        let cutting = self.cutting.clone()?;
        Ok(self.sharing(stem, cutting))
    }

    /// Whether all parts are equal: the stem and the logs too.
    pub fn same(&self, other: &Entry) -> bool
        ensures { IsTrue result ↔ (self.now ≡ other.now) }
    {
        self.harvester == other.harvester
            && self.number == other.number
            && self.version == other.version
            && self.worth == other.worth
            && self.stem.same(&other.stem)
            && same_logs(self.cutting.logs.as_slice(), other.cutting.logs.as_slice())
    }
}
