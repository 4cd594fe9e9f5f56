//! Wrong bodies of requests.
#![tactic(auto, unfolding(buck_record::specs::bytes::Record::numbers_of, buck_record::specs::bytes::Record::number_at_most, buck_record::specs::bytes::Record::item_of, buck_record::specs::bytes::Record::items_of, buck_record::specs::bytes::White::words, buck_record::specs::bytes::White::first_word, buck_record::specs::bytes::White::after_word, buck_record::specs::bytes::White::trim_start, buck_record::specs::bytes::White::trim_end, buck_record::specs::Reading::each_from, buck_record::specs::checking::Table::rest_in, buck_record::specs::checking::Rules::numbers_in, buckfleet_live::specs::Request::request_of, buckfleet_live::specs::Request::requested, buckfleet_live::specs::Request::present, buckfleet_live::specs::Request::single, buckfleet_live::specs::Request::harvester_in, buckfleet_live::specs::Request::asked_in))]

ghost use Rattle.std.specs.Prelude.{◌≡◌, ◌≢◌, [], Some, Ok};
ghost use Rattle.buck_apt_instruction.specs.Instruction.{InstructionParts};
ghost use Rattle.buck_rule.specs.Stored.{Answers};
ghost use Rattle.buck_rule.specs.declared.named.NamedRule.TheVariants.{Step};
ghost use Rattle.buck_book_postings.specs.History.{HistoryParts};
ghost use Rattle.buck_book_postings.specs.Pricing.{AreSheetsBy};
ghost use Rattle.buck_book_journal.specs.Written.{journal_text};
ghost use Rattle.buckfleet_engine_files.specs.Ruled.{FollowsRule};
ghost use Rattle.buck_book_cutter.specs.Cut.{opening};
ghost use Rattle.buckfleet_live.specs.Live.{IsLiveRun};

use buck_apt_instruction::Instruction;
use buck_rule::{Rule, Standing};
use buckfleet_engine::conclude;
use buckfleet_engine_files::{EngineFault, Make, Nobody, Open};
use buckfleet_live::{Live, LiveTask, Replies, serve_live};
use std::alloc::Global;
use std::sync::Arc;

/// A request that is refused, since the input ends within its line, changes the history.
#[tactic(auto, using(crate::proofs::Refused::cut_off))]
pub fn refused_request_changes_the_history<F: Fn(&Standing) -> u64 + Drop>(
    alloc: Global,
    live: &mut Live<F>,
    out: &mut Vec<u8>,
)
    requires answers { Answers F.Fn live.old.rule }
{
    let Ok(before) = live.journal(alloc) else {
        return;
    };
    let mut input = b"951 1 7".as_slice();
    let outcome = live.run(alloc, &mut input, out);
    let Ok(after) = live.journal(alloc) else {
        return;
    };
    if outcome.is_ok() {
        let is_changed = before.as_slice() != after.as_slice();
        prove!(!is_changed);
    }
}

/// The journal is that of another history, such as one without the last request.
pub fn journal_of_other_requests<F: Drop>(alloc: Global, live: &Live<F>, wrong: &[u8])
    requires differ { wrong.now ≢ journal_text live.now.history.sheets live.now.history.postings }
{
    if let Ok(right) = live.journal(alloc) {
        prove!(right.as_slice() != wrong);
    }
}

/// What is said elsewhere of a refused request stands among the answers.
pub fn words_among_the_answers(
    alloc: Global,
    instruction: &Instruction,
    answer: &Result<Vec<u8>, EngineFault>,
) {
    let mut right = Vec::new(alloc);
    right.hear(b"951 1 7", true, instruction, answer);
    let wrong = b"the request is cut off".as_slice();
    prove!(right.as_slice() != wrong);
}

/// The prices are in the relation, but another rule gave them: no history whose prices are the rule's answers has this
/// journal.
pub fn requests_by_another_rule<'x, F: Fn(&Standing) -> u64 + Drop>(
    alloc: Global,
    instruction: Arc<Instruction>,
    rule: Rule<F>,
    requests: &'x [u8],
    wrong: &[u8],
)
    requires answers { Answers F.Fn rule }
    requires differ { (h : HistoryParts) → AreSheetsBy F.Fn rule h → wrong.now ≢ journal_text h.sheets h.postings }
{
    let Ok(mut live) = Live::open(alloc, instruction, rule) else {
        return;
    };
    let mut input = requests;
    let mut out = Vec::<u8>::new(alloc);
    let _ = live.run(alloc, &mut input, &mut out);
    if let Ok(right) = live.journal(alloc) {
        prove!(right.as_slice() != wrong);
    }
}

/// The task asks for the rule step, and another one makes the prices: no run of these requests that ends well and whose
/// history keeps to step answers so.
pub fn task_by_another_rule<'x, O: Open + Make>(
    alloc: Global,
    task: &LiveTask<'_>,
    requests: &'x [u8],
    opener: &mut O,
    errors: &mut Vec<u8>,
    wrong: &[u8],
)
    requires rule { task.now.rule ≡ Step }
    requires other { (i : InstructionParts) (h : HistoryParts) → FollowsRule Step h
        → IsLiveRun (opening i) (Some requests.now) (Some []) (Some wrong.now) (Ok tt) h → ⊥ }
{
    let mut input = requests;
    let mut right = Vec::new(alloc);
    let outcome = serve_live(alloc, task, &Nobody, &mut input, opener, &mut right);
    let status = conclude(errors, &outcome);
    if status == 0 {
        prove!(right.as_slice() != wrong);
    }
}

/// Requests are read though the instruction is refused.
pub fn requests_read_by_no_instruction<'x, O: Open + Make>(
    alloc: Global,
    task: &LiveTask<'_>,
    requests: &'x [u8],
    opener: &mut O,
    output: &mut Vec<u8>,
    errors: &mut Vec<u8>,
) {
    let mut input = requests;
    let outcome = serve_live(alloc, task, &Nobody, &mut input, opener, output);
    let status = conclude(errors, &outcome);
    let refused = 1;
    if status == refused {
        let is_read = input.len() != requests.len();
        prove!(!is_read);
    }
}
