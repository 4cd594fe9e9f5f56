//! What all runs of wishes share, and the runs of an instruction.
ghost use Rattle.std.specs.Prelude.{◌≡◌, ◌<◌, ◌≤◌, IfErr, IfOk, Some, length, slice_get};
ghost use Rattle.buck_apt_instruction.specs.Instruction.{AssortmentParts, classes};
ghost use Rattle.buck_book_postings.specs.Degree.{part_of};
ghost use Rattle.buck_book_postings.specs.Posting.{opening_targets};
ghost use Rattle.buckfleet_trial_sweep.specs.Runs.{IsStop};
ghost use Rattle.buckfleet_trial_wishes.specs.inner.Asking.{AreDrawnBy, AreRunsBy, IsAsking, IsRunBy};

use crate::moved::Asked;
use crate::outcome::{Outcome, Runs};
use buck_apt_instruction::Instruction;
use buck_rule::NamedRule;
use buckfleet_engine_files::EngineFault;
use buckfleet_engine_input::Input;
use buckfleet_trial::{base_worth, cut_in_order, degrees_of, least_of};
use std::alloc::Global;
use std::sync::Arc;

/// What all runs share.
#[derive(Drop)]
pub(crate) struct Asking {
    pub rule: NamedRule,
    pub instruction: Arc<Instruction>,
    pub input: Input,
    pub targets: Vec<u32>,
    /// How many logs the best cuttings at base prices have of each class.
    pub unsteered: Vec<u32>,
    /// The states at which the draws begin.
    pub starts: Vec<u64>,
}

impl Asking {
    /// The run of an instruction, in the files' own order or in that of a draw.
    pub(crate) fn run(
        &self,
        alloc: Global,
        instruction: &Arc<Instruction>,
        order: Option<u64>,
    ) -> Result<Outcome, EngineFault>
        requires asking { IsAsking self.now }
        requires classes { classes instruction.now.value ≡ classes self.now.instruction.value }
        ensures ok { IfOk result (IsRunBy self.now instruction.now.value order) }
        ensures stop { IfErr result (IsStop self.now.input.lists.items) }
    {
        let lists = self.input.lists.as_slice();
        let parts = cut_in_order(alloc, instruction, self.rule, lists, order)?;
        let targets = self.targets.as_slice();
        let degrees = degrees_of(alloc, instruction, targets, parts.counts())?;
        Ok(Outcome {
            at_base: base_worth(alloc, &parts)?,
            least: least_of(degrees.as_slice()),
            degrees,
        })
    }

    /// The runs of an instruction in the orders of some draws.
    pub(crate) fn drawn(
        &self,
        alloc: Global,
        instruction: &Arc<Instruction>,
        starts: &[u64],
    ) -> Result<Vec<Outcome>, EngineFault>
        requires asking { IsAsking self.now }
        requires classes { classes instruction.now.value ≡ classes self.now.instruction.value }
        ensures ok { IfOk result (λ drawn. AreDrawnBy self.now instruction.now.value starts.now drawn.items) }
        ensures stop { IfErr result (IsStop self.now.input.lists.items) }
    {
        let mut drawn = Vec::new(alloc);
        for start in starts {
            let one = self.run(alloc, instruction, Some(*start))?;
            drawn.push(one)?;
        }
        Ok(drawn)
    }

    /// All runs of an instruction.
    pub(crate) fn runs(
        &self,
        alloc: Global,
        instruction: &Arc<Instruction>,
    ) -> Result<Runs, EngineFault>
        requires asking { IsAsking self.now }
        requires classes { classes instruction.now.value ≡ classes self.now.instruction.value }
        ensures ok { IfOk result (AreRunsBy self.now instruction.now.value) }
        ensures stop { IfErr result (IsStop self.now.input.lists.items) }
    {
        Ok(Runs {
            own: self.run(alloc, instruction, None)?,
            drawn: self.drawn(alloc, instruction, self.starts.as_slice())?,
        })
    }

    /// How many runs there are of an instruction.
    pub(crate) fn number(&self) -> usize {
        self.starts.len().saturating_add(1)
    }

    /// What is wanted of the assortment at a place, and what it has unsteered.
    pub(crate) fn asked(&self, at: usize) -> Asked<'_>
        requires asking { IsAsking self.now }
        requires exists { at < length self.now.instruction.value.assortments }
        ensures targets { (a : AssortmentParts) → slice_get self.now.instruction.value.assortments at ≡ Some a
            → result.targets.now
            ≡ part_of self.now.instruction.value a at (opening_targets self.now.instruction.value) }
        ensures unsteered { (a : AssortmentParts) → slice_get self.now.instruction.value.assortments at ≡ Some a
            → result.unsteered.now ≡ part_of self.now.instruction.value a at self.now.unsteered.items }
    {
        Asked::of(
            &self.instruction,
            self.targets.as_slice(),
            self.unsteered.as_slice(),
            at,
        )
    }
}
