//! Wrong answers about a cutting that someone names.
ghost use Rattle.std.specs.Prelude.{◌≡◌, ◌<◌, [], ◌∷◌};
ghost use Rattle.buck_value.specs.Allowed.{IsAllowed, end_of, worth_of};
ghost use Rattle.buck_dp_own_logs.specs.declared.reason.Reason.TheVariants.{Species};
ghost use Rattle.buck_dp_own_logs.specs.Reasons.{Applies};

use buck_apt_instruction::Instruction;
use buck_dp_own_logs::{Judged, Reason, judge, reason_of};
use buck_stem_shape::Stem;
use buck_value::{Log, Sheet};

/// A log that starts before the one before it ends is let in.
pub fn own_cutting_with_overlap_admitted(
    sheet: &Sheet,
    stem: &Stem,
    logs: &[Log],
    first: &Log,
    second: &Log,
)
    requires logs { logs.now ≡ first.now ∷ second.now ∷ [] }
    requires overlap { second.now.start < end_of sheet.now.instruction first.now }
{
    let right = matches!(judge(sheet, stem, logs), Judged::Admissible { .. });
    let wrong = true;
    prove!(right != wrong);
}

/// A log that isn't allowed is let in.
pub fn own_cutting_of_any_logs_admitted(sheet: &Sheet, stem: &Stem, logs: &[Log], log: &Log)
    requires logs { logs.now ≡ log.now ∷ [] }
    requires not_allowed { IsAllowed sheet.now.instruction stem.now log.now → ⊥ }
{
    let right = matches!(judge(sheet, stem, logs), Judged::Admissible { .. });
    let wrong = true;
    prove!(right != wrong);
}

/// The worth of an own cutting is that of its first log alone.
pub fn own_worth_of_the_first_log(
    sheet: &Sheet,
    stem: &Stem,
    logs: &[Log],
    first: &Log,
    second: &Log,
    wrong: u64,
)
    requires logs { logs.now ≡ first.now ∷ second.now ∷ [] }
    requires dear { 0 < worth_of sheet.now stem.now second.now }
    requires first { wrong ≡ worth_of sheet.now stem.now first.now }
{
    if let Judged::Admissible { worth } = judge(sheet, stem, logs) {
        prove!(worth != wrong);
    }
}

/// The second log is reported, though the first can't be cut either.
pub fn last_log_told(sheet: &Sheet, stem: &Stem, logs: &[Log], first: &Log, second: &Log)
    requires logs { logs.now ≡ first.now ∷ second.now ∷ [] }
    requires refused { Applies sheet.now.instruction stem.now 0 first.now Species }
{
    if let Judged::Refused { log, reason: _ } = judge(sheet, stem, logs) {
        let wrong = 1;
        prove!(log != wrong);
    }
}

/// The last reason that applies is reported.
pub fn last_reason_told(instruction: &Instruction, stem: &Stem, from: u32, log: &Log)
    requires { Applies instruction.now stem.now from log.now Species }
{
    if let Some(reason) = reason_of(instruction, stem, from, log) {
        let right = reason.number();
        let wrong = Reason::Price.number();
        prove!(right != wrong);
    }
}

/// A log that starts where the one before it ends is said to overlap it.
pub fn next_log_starts_behind_the_end(instruction: &Instruction, stem: &Stem, from: u32, log: &Log)
    requires { log.now.start ≡ from }
{
    let right = reason_of(instruction, stem, from, log);
    let wrong = Some(Reason::Order);
    prove!(right != wrong);
}

/// A reason has the number of the one after it.
pub fn reasons_counted_from_0() {
    let right = Reason::Order.number();
    let wrong = 0;
    prove!(right != wrong);
}
