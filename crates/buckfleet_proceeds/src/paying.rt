//! What the logs of a stem come to under an owner's instruction.
ghost use Rattle.std.specs.Prelude.{◌≡◌, ◌≤◌, List, All, length};
ghost use Rattle.buck_stem_shape.specs.Stem.{stem_length};
ghost use Rattle.buck_value.specs.declared.log.Log.{Log};
ghost use Rattle.buck_value.specs.Allowed.{top_of};
ghost use Rattle.buck_page_figures.specs.Figures.{log_volume};
ghost use Rattle.buckfleet_proceeds.specs.inner.Logs.{AreAdded, AreFew, Fits, IsPaidAlone};

use crate::paid::Paid;
use buck_stem_shape::Stem;
use buck_value::{Log, Sheet, volume_of, worth_if_allowed};

/// What a log comes to under a sheet of base prices.
fn paid_for(sheet: &Sheet, stem: &Stem, log: &Log) -> Paid
    requires within { top_of log.now ≤ stem_length stem.now.samples }
    requires long { log.now.length ≤ 30000 }
    ensures number { result.logs ≡ 1 }
    ensures cubic { result.volume ≡ log_volume stem.now log.now }
    ensures alone { IsPaidAlone sheet.now stem.now log.now result }
{
    // `length` brings that the stem is within its limits, so that the sum below fits.
    prove!(log.start <= stem.length());
    let volume = u128::from(volume_of(stem.diameter_at(log.start + log.length), log.length));
    match worth_if_allowed(sheet, stem, log) {
        Some(worth) => Paid {
            logs: 1,
            unbought: 0,
            volume,
            worth: u128::from(worth),
        },
        None => Paid {
            logs: 1,
            unbought: 1,
            volume,
            worth: 0,
        },
    }
}

/// Adds logs of a stem, each to its assortment. The answer is what they come to together.
pub(crate) fn add_logs(parts: &mut Vec<Paid>, sheet: &Sheet, stem: &Stem, logs: &[Log]) -> Paid
    requires number { length parts.old.items ≡ length sheet.now.instruction.assortments }
    requires fits { All (λ g. Fits sheet.now.instruction stem.now g) logs.now }
    requires few { length logs.now ≤ 80 }
    requires low { AreFew 80000000 parts.old.items }
    ensures number { result.logs ≡ length logs.now }
    ensures added { (bought : List Log) × AreAdded sheet.now stem.now logs.now bought parts.old.items parts.new.items
        result.unbought result.volume result.worth }
{
    let mut unbought = 0;
    let mut volume = 0;
    let mut worth = 0;
    for log in logs {
        let paid = paid_for(sheet, stem, log);
        let at = log.assortment as usize;
        parts[at] = parts[at].plus(&paid);
        unbought += paid.unbought;
        volume += paid.volume;
        worth += paid.worth;
    }
    Paid {
        logs: logs.len() as u64,
        unbought,
        volume,
        worth,
    }
}
