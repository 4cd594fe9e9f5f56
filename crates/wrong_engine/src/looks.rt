//! Wrong bodies of requests by which a stem is only looked at.
#![tactic(auto)]

ghost use Rattle.std.specs.Prelude.{◌≡◌, ◌≢◌, [], ◌∷◌, List, Some, Ok};
ghost use Rattle.buck_rule.specs.Stored.{Answers};
ghost use Rattle.buck_stem_shape.specs.Stem.{StemParts};
ghost use Rattle.buck_value.specs.declared.log.Log.{Log};
ghost use Rattle.buck_dp.specs.Best.{IsFirstBest};
ghost use Rattle.buck_dp_own_logs.specs.declared.reason.Reason.TheVariants.{Species};
ghost use Rattle.buck_dp_own_logs.specs.declared.judging.Judged.TheVariants.{Refused};
ghost use Rattle.buck_dp_own_logs.specs.Judged.{IsJudged};
ghost use Rattle.buck_book_postings.specs.History.{in_force};
ghost use Rattle.buckfleet_engine_files.specs.Faults.{memory_line};
ghost use Rattle.buckfleet_live.specs.Lines.{lines_of};
ghost use Rattle.buckfleet_live.specs.Request.{request_of};
ghost use Rattle.buckfleet_live.specs.Answers.{preview_lines};
ghost use Rattle.buckfleet_live.specs.declared.request.Asked.TheVariants.{Own, Preview};
ghost use Rattle.buckfleet_live.specs.declared.request.Request.{Request};

use buck_rule::Standing;
use buckfleet_live::Live;
use std::alloc::Global;

/// A preview posts the cut that it shows.
pub fn preview_posts<'x, F: Fn(&Standing) -> u64 + Drop>(
    alloc: Global,
    live: &mut Live<F>,
    request: &'x [u8],
    out: &mut Vec<u8>,
)
    requires answers { Answers F.Fn live.old.rule }
    requires line { lines_of request.now ≡ Some request.now ∷ [] }
    requires asked { (r : Request) × (stem : StemParts) × (request_of request.now ≡ Ok (Some r))
        × (r.asked ≡ Preview stem) }
{
    let Ok(before) = live.journal(alloc) else {
        return;
    };
    let mut input = request;
    let outcome = live.run(alloc, &mut input, out);
    let Ok(after) = live.journal(alloc) else {
        return;
    };
    if outcome.is_ok() {
        let is_changed = before.as_slice() != after.as_slice();
        prove!(!is_changed);
    }
}

/// A cutting of the operator's own is posted.
pub fn own_cutting_posts<'x, F: Fn(&Standing) -> u64 + Drop>(
    alloc: Global,
    live: &mut Live<F>,
    request: &'x [u8],
    out: &mut Vec<u8>,
)
    requires answers { Answers F.Fn live.old.rule }
    requires line { lines_of request.now ≡ Some request.now ∷ [] }
    requires asked { (r : Request) × (stem : StemParts) × (own : List Log) × (request_of request.now ≡ Ok (Some r))
        × (r.asked ≡ Own stem own) }
{
    let Ok(before) = live.journal(alloc) else {
        return;
    };
    let mut input = request;
    let outcome = live.run(alloc, &mut input, out);
    let Ok(after) = live.journal(alloc) else {
        return;
    };
    if outcome.is_ok() {
        let is_changed = before.as_slice() != after.as_slice();
        prove!(!is_changed);
    }
}

/// Another cutting is shown than the one that would be cut: no first of the best cuttings has these lines.
pub fn preview_of_another_cutting<'x, F: Fn(&Standing) -> u64 + Drop>(
    alloc: Global,
    live: &mut Live<F>,
    request: &'x [u8],
    wrong: &[u8],
)
    requires answers { Answers F.Fn live.old.rule }
    requires line { lines_of request.now ≡ Some request.now ∷ [] }
    requires asked { (r : Request) × (stem : StemParts) × (request_of request.now ≡ Ok (Some r))
        × (r.asked ≡ Preview stem)
        × ((logs : List Log) → IsFirstBest (in_force live.old.history) stem logs
        → wrong.now ≢ preview_lines (in_force live.old.history) stem logs) }
    requires memory { wrong.now ≢ memory_line }
{
    let mut input = request;
    let mut right = Vec::new(alloc);
    let outcome = live.run(alloc, &mut input, &mut right);
    if outcome.is_ok() {
        prove!(right.as_slice() != wrong);
    }
}

/// The log that can't be cut is counted from 0: it is the second.
pub fn own_log_counted_from_0<'x, F: Fn(&Standing) -> u64 + Drop>(
    alloc: Global,
    live: &mut Live<F>,
    request: &'x [u8],
)
    requires answers { Answers F.Fn live.old.rule }
    requires line { lines_of request.now ≡ Some request.now ∷ [] }
    requires asked { (r : Request) × (stem : StemParts) × (own : List Log) × (request_of request.now ≡ Ok (Some r))
        × (r.asked ≡ Own stem own) × (stem.number ≡ 7)
        × IsJudged (in_force live.old.history) stem own (Refused 1 Species) }
{
    let mut input = request;
    let mut right = Vec::new(alloc);
    let outcome = live.run(alloc, &mut input, &mut right);
    let wrong = b"OWN 7 not 1 species\n".as_slice();
    if outcome.is_ok() {
        prove!(right.as_slice() != wrong);
    }
}
