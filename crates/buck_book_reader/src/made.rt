//! Cuts and demands of what their items say.
ghost use Rattle.std.specs.Prelude.{◌≡◌, IfOk};
ghost use Rattle.buck_book_journal.specs.Reading.{entry_of, demand_of};

use buck_book_journal::Call;
use buck_book_postings::{Demand, Entry, Posting};
use buck_dp::Cutting;
use buck_stem_shape::Stem;
use buck_value::Log;
use std::alloc::{AllocError, Global};
use std::sync::Arc;

/// The cut of a call and its parts.
pub(crate) fn cut_of(
    alloc: Global,
    call: Call,
    stem: Stem,
    logs: Vec<Log>,
    worth: u64,
) -> Result<Posting, AllocError>
    ensures { IfOk result (λ p. p ≡ Posting.Cut (entry_of call stem logs.items worth)) }
{
    let stem = Arc::new(alloc, stem)?;
    let cutting = Arc::new(alloc, Cutting { logs })?;
    Ok(Posting::Cut(Entry {
        harvester: call.harvester,
        number: call.number,
        stem,
        version: call.version,
        cutting,
        worth,
    }))
}

/// The demand of a call and its targets.
pub(crate) fn demand_of(alloc: Global, call: Call, targets: Vec<u32>) -> Result<Posting, AllocError>
    ensures { IfOk result (λ p. p ≡ Posting.Demand (demand_of call targets.items)) }
{
    let targets = Arc::new(alloc, targets)?;
    Ok(Posting::Demand(Demand {
        harvester: call.harvester,
        number: call.number,
        version: call.version,
        targets,
    }))
}
