//! The log types of an instruction, in the order that settles ties.
ghost use Rattle.std.specs.Prelude.{IfOk, ℕ, ◌*◌, ◌≤◌, Some};
ghost use Rattle.buck_dp.specs.inner.LogTypes.{AreLogTypes, IsRank, log_type_at, HasLogTypes};

use buck_apt_instruction::Instruction;
use std::alloc::{AllocError, Global};

/// A length of an assortment of an instruction. The shorter comes before the longer, then the lower assortment before
/// the higher: the tie order, which the derived order takes from that of the fields.
#[derive(Clone, Copy, Debug, PartialEq, Eq, PartialOrd, Ord)]
pub struct LogType {
    /// Length in mm, trim excluded.
    pub length: u32,
    /// Index of the assortment in the instruction, from 0.
    pub assortment: u8,
}

/// The log types of an instruction: each length of each assortment, in order. Refused only if an allocation failed.
#[tactic(auto, using(buck_value::proofs::Stands::stands))]
pub fn log_types_of(alloc: Global, instruction: &Instruction) -> Result<Vec<LogType>, AllocError>
    ensures { IfOk result (λ types. AreLogTypes instruction.now types.items) }
{
    let mut types = Vec::new(alloc);
    let all = instruction.assortments();
    for assortment in 0..all.len() {
        for length in all[assortment].lengths() {
            types.push(LogType {
                length: *length,
                assortment: assortment as u8,
            })?;
        }
    }
    types.sort()?;
    Ok(types)
}

/// The log types of an instruction, in the tie order, and how far they reach.
#[derive(Drop)]
pub struct LogTypes {
    pub list: Vec<LogType>,
    /// Length of the shortest log type in steps of the module, rounded down.
    pub least_steps: usize,
    /// Length of the longest log type in steps of the module, rounded up.
    pub most_steps: usize,
}

/// How many steps of the module go into the shortest log type, the first, and how many cover the longest, the last.
fn steps_of(instruction: &Instruction, types: &[LogType]) -> (usize, usize)
    requires { AreLogTypes instruction.now types.now }
    ensures short { (r : ℕ) → IsRank types.now r
        → result.0 * instruction.now.module ≤ (log_type_at types.now r).length }
    ensures long { (r : ℕ) → IsRank types.now r → (log_type_at types.now r).length ≤ result.1 * instruction.now.module }
    ensures few { result.1 ≤ 4294967295 }
{
    // Every instruction has a log type; that isn't a condition here, so the first and the last are asked for.
    let number = types.len();
    if number == 0 {
        return (0, 0);
    }
    let module = instruction.module();
    let least = types[0].length / module;
    let most = types[number - 1].length.div_ceil(module);
    (least as usize, most as usize)
}

impl LogTypes {
    /// The log types of an instruction. Refused only if an allocation failed.
    pub fn of(alloc: Global, instruction: &Instruction) -> Result<LogTypes, AllocError>
        ensures { IfOk result (HasLogTypes instruction.now) }
    {
        let list = log_types_of(alloc, instruction)?;
        let (least_steps, most_steps) = steps_of(instruction, list.as_slice());
        Ok(LogTypes {
            list,
            least_steps,
            most_steps,
        })
    }
}
