//! The call by which harvesters take turns, over the bytes of an instruction file and stem files.
ghost use Rattle.std.specs.Prelude.{◌≡◌, ◌<◌, Some, Err, IfOk, IfErr, map, length, sum};
ghost use Rattle.buck_apt.specs.Apt.{apt_of};
ghost use Rattle.buck_rule.specs.GivenBy.{GivesBy};
ghost use Rattle.buckfleet_tasks.specs.declared.harvests.Order.TheVariants.{InTurn};
ghost use Rattle.buckfleet_engine.specs.fleet.Running.{AnswersFleet};
ghost use Rattle.buck_c_calls.specs.Turns.{ArePut, AreRefused, AreTexts, HaveTexts, IsTurned};

use crate::book::{DONE, MISUSED, rule_of};
use crate::room::put_both;
use crate::several::{are_lengths, files_of};
use crate::telling::put_fault;
use buck_rule::{NamedRule, Rule, Standing};
use buckfleet_engine::run_in_turn;
use buckfleet_engine_files::EngineFault;
use std::alloc::Global;

/// How long two texts are that stand one after the other in the caller's room.
#[repr(C)]
#[derive(Clone, Copy, Drop)]
pub struct Texts {
    /// Length in bytes of the journal, which stands first.
    pub journal: usize,
    /// Length in bytes of the report, or of the line of a fault.
    pub report: usize,
}

/// The texts of one history.
#[derive(Drop)]
struct Turned {
    journal: Vec<u8>,
    report: Vec<u8>,
}

/// The texts of harvesters that take turns, by a closure, which answers what a named rule gives.
fn texts_by<'x, F: Fn(&Standing) -> u64 + Drop>(
    alloc: Global,
    apt: &mut &'x [u8],
    stms: &mut [&'x [u8]],
    rule: Rule<F>,
    named: NamedRule,
) -> Result<Turned, EngineFault>
    requires gives { GivesBy F.Fn rule named }
    ensures ok { IfOk result (λ texts.
        AreTexts named apt.old.now (map (λ file. file.now) stms.old) texts.journal.items texts.report.items) }
    ensures refused { IfErr result (λ fault.
        AnswersFleet apt_of InTurn (λ _. Unit {0}) (Some apt.old.now) (map Some (map (λ file. file.now) stms.old))
        (Err fault)) }
{
    let mut journal = Vec::new(alloc);
    let mut report = Vec::new(alloc);
    match run_in_turn(alloc, apt, stms, rule, Some(&mut journal), &mut report) {
        Ok(()) => Ok(Turned { journal, report }),
        // A list takes each text, unless an allocation fails.
        Err(EngineFault::Write) => Err(EngineFault::Memory),
        Err(fault) => Err(fault),
    }
}

/// The texts of harvesters that take turns by a named rule.
fn texts_of<'x>(
    alloc: Global,
    apt: &mut &'x [u8],
    stms: &mut [&'x [u8]],
    rule: NamedRule,
) -> Result<Turned, EngineFault>
    ensures ok { IfOk result (λ texts.
        AreTexts rule apt.old.now (map (λ file. file.now) stms.old) texts.journal.items texts.report.items) }
    ensures refused { IfErr result (λ fault.
        AnswersFleet apt_of InTurn (λ _. Unit {0}) (Some apt.old.now) (map Some (map (λ file. file.now) stms.old))
        (Err fault)) }
{
    let by = Rule::new(move |s: &Standing| rule.price(s));
    texts_by(alloc, apt, stms, by, rule)
}

/// The texts of the first file's instruction and the stems of the others.
fn take_turns<'x>(
    alloc: Global,
    bytes: &'x [u8],
    lengths: &[usize],
    rule: NamedRule,
) -> Result<Turned, EngineFault>
    requires some { 0 < length lengths.now }
    requires fill { sum lengths.now ≡ length bytes.now }
    ensures ok { IfOk result (λ texts. HaveTexts rule lengths.now bytes.now texts.journal.items texts.report.items) }
    ensures refused { IfErr result (AreRefused lengths.now bytes.now) }
{
    let (mut apt, stms) = bytes.split_at(lengths[0]);
    let mut stms = files_of(alloc, stms, &lengths[1..])?;
    texts_of(alloc, &mut apt, stms.as_mut_slice(), rule)
}

/// Cuts the stems of each stem file by a harvester of its own, in turn, as the program's `fleet --in-turn` does by a
/// rule: 0 steady, 1 linear, 2 step, 3 root. `files` has the bytes of the instruction file and of the stem files, one
/// after the other, and `lengths` the length of each in bytes. The journal goes to the start of `out`, and the report
/// behind it; of a fault the line alone. Their lengths go to `texts`. The answer is the program's exit status, 6 if
/// `out` is too small: then nothing else is written, or 8 if there is no such rule, no instruction file, or the
/// lengths aren't those of the bytes: then no text is put.
pub fn buckfleet_in_turn(
    alloc: Global,
    files: &[u8],
    lengths: &[usize],
    rule: u8,
    out: &mut [u8],
    texts: &mut Texts,
) -> u8
    ensures { ArePut (IsTurned rule lengths.now files.now) out.old out.new texts.new result }
{
    let Some(rule) = rule_of(rule) else {
        return put_both(&[], &[], MISUSED, out, texts);
    };
    if lengths.is_empty() {
        return put_both(&[], &[], MISUSED, out, texts);
    }
    if !are_lengths(lengths, files.len()) {
        return put_both(&[], &[], MISUSED, out, texts);
    }
    match take_turns(alloc, files, lengths, rule) {
        Ok(turned) => put_both(
            turned.journal.as_slice(),
            turned.report.as_slice(),
            DONE,
            out,
            texts,
        ),
        Err(fault) => {
            texts.journal = 0;
            put_fault(alloc, &fault, out, &mut texts.report)
        }
    }
}
