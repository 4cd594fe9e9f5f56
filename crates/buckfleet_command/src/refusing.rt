//! Why a request is refused, in words.
use buck_apt_instruction::Instruction;
use buckfleet_engine_files::EngineFault;
use buckfleet_live::{Asked, read_request};
use buckfleet_reason::{Said, Source, request_reason};
use buckfleet_reason_replay::WrongTargets;
use std::alloc::Global;

/// Why new targets may not come into force.
fn targets_refusal(alloc: Global, source: &Source<'_>, instruction: &Instruction) -> Said {
    let Ok(Some(request)) = read_request(alloc, source.bytes) else {
        return Ok(None);
    };
    let Asked::Targets(targets) = &request.asked else {
        return Ok(None);
    };
    let wrong = WrongTargets {
        instruction,
        targets: targets.as_slice(),
    };
    source.whole().say(alloc, wrong)
}

/// Why a line is refused, in a line of text, given its answer and whether it isn't too long; none if it isn't refused.
/// Refused as `Memory` alone.
pub(crate) fn refusal(
    alloc: Global,
    source: &Source<'_>,
    fits: bool,
    instruction: &Instruction,
    answer: &Result<Vec<u8>, EngineFault>,
) -> Said {
    let words = match answer {
        Ok(text) if text.starts_with(b"targets fault") => {
            return targets_refusal(alloc, source, instruction);
        }
        Err(EngineFault::Stm { fault, .. }) => return request_reason(alloc, source, fault),
        Err(EngineFault::Read { .. }) if fits => {
            "the input ends within this line, expected ~ or a line feed at its end"
        }
        Err(EngineFault::Read { .. }) => "longer than 1048576 bytes",
        Err(EngineFault::Full) => "the history has 1000000 postings, and takes no more",
        Ok(_) | Err(_) => return Ok(None),
    };
    source.whole().say(alloc, words)
}
