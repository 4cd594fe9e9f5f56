//! The choices of a stem's points, followed from the butt: the logs of the best cutting.
ghost use Rattle.std.specs.Prelude.{◌≡◌, ◌-◌, ◌*◌, ◌<◌, ◌≤◌, IfOk, length};
ghost use Rattle.buck_value.specs.Sheet.{IsSheet};
ghost use Rattle.buck_dp.specs.inner.LogTypes.{IsRank};
ghost use Rattle.buck_dp.specs.Best.{IsFirstBest, cutting_worth};
ghost use Rattle.buck_dp.specs.inner.Logs.{GroundParts, log_at};
ghost use Rattle.buck_dp.specs.inner.StemGrid.{IsCacheOf, IsPlan};

use crate::bid::HIGHEST_RANK;
use crate::ends::point_after;
use crate::planning::{Search, StemGrid};
use crate::sheet_cache::SheetCache;
use buck_value::Log;
use std::alloc::{AllocError, Global};

/// The log of a rank's log type that starts at point `i`.
#[tactic(auto, unfolding(crate::specs::inner::Logs::log_at))]
fn log_at(cache: &SheetCache, rank: u32, i: usize) -> Log
    ghost p: { GroundParts }
    requires valid { IsSheet p.sheet }
    requires cache { IsCacheOf p cache.now }
    requires rank { IsRank p.types.list.items rank }
    requires i { i * p.sheet.instruction.module ≤ 40000 }
    ensures { result ≡ log_at p rank i }
{
    let log_type = cache.types().list[(HIGHEST_RANK - rank) as usize];
    Log {
        start: i as u32 * cache.sheet().instruction().module(),
        length: log_type.length,
        assortment: log_type.assortment,
    }
}

/// The first of the best cuttings of a stem that is searched down to the butt, and its worth: a choice is the rank of
/// the log that starts at its point, 0 if none does.
pub(crate) fn follow(
    alloc: Global,
    grid: StemGrid<'_>,
    search: &Search,
) -> Result<(Vec<Log>, u64), AllocError>
    ghost p: { GroundParts }
    requires plan { IsPlan p grid search.now 0 }
    ensures first { IfOk result (λ best. IsFirstBest p.sheet p.stem best.0.items) }
    ensures worth { IfOk result (λ best. best.1 ≡ cutting_worth p.sheet p.stem best.0.items) }
{
    let choices = search.choices.as_slice();
    let mut logs = Vec::new(alloc);
    let mut i = 0;
    while i < choices.len() {
        let rank = choices[i];
        if rank == 0 {
            i += 1;
        } else {
            let log = log_at(&search.cache, rank, i);
            logs.push(log)?;
            // A trim need not be a multiple of the module, so the next log starts at the first point after the end.
            i = point_after(search.cache.sheet(), grid.stem, &log);
        }
    }
    Ok((logs, search.values[0].worth()))
}
