//! Bucking instructions.
ghost use Rattle.std.specs.Prelude.{◌≡◌, ◌<◌, ◌≤◌, ◌*◌, ◌↔◌, IsTrue, IfOk, All, length, map, sum_by, take, drop};
ghost use Rattle.std.specs.List.{AllByRecursion};
ghost use Rattle.buck_apt_instruction.specs.Instruction.{IsAssortment, IsInstruction, IsClass, classes, classes_of, index_of};
ghost use Rattle.buck_apt_instruction.specs.Changed.{each_with, with_assortments};
ghost use Rattle.buck_apt_instruction.specs.Grades.{grade_free};
ghost use Rattle.buck_apt_instruction.specs.Priced.{MayBePrices, with_prices};
ghost use Rattle.buck_apt_instruction.specs.Wanted.{MayBeWanted, with_targets};
ghost use Rattle.buck_apt_instruction.specs.Settings.{with_settings};
ghost use Rattle.buck_apt_instruction.specs.inner.Change.{MayChange, changed};
ghost use Rattle.buck_apt_instruction.specs.Draft.{assortment_of, instruction_of, IsReadyDraft, IsReadyFile};

use crate::assortment::{Assortment, Change};
use crate::class::Class;
use crate::draft::{Draft, FileDraft, only};
use crate::settings::Settings;
use buck_record::Memory;
use std::alloc::{AllocError, Global};
use std::marker::Model;

/// A bucking instruction: the assortments, the module on which each log starts, and how prices follow what is
/// cut. It is within the limits of the instruction file's table.
#[derive(Debug, Drop)]
pub struct Instruction {
    module: u32,
    period: u32,
    limit: u32,
    assortments: Vec<Assortment>,
}

impl Model for Instruction {
    ghost use Rattle.buck_apt_instruction.specs.Instruction.{InstructionParts, IsInstruction};

    ghost Value = { InstructionParts };

    ghost view = { λ i. record {
      «module» = i.module;
      period = i.period;
      limit = i.limit;
      assortments = i.assortments.items;
    } };

    ghost invariant = { λ i. IsInstruction (view i) };
}

/// The assortments that drafts say.
fn assortments_of(alloc: Global, drafts: Vec<Draft>) -> Result<Vec<Assortment>, AllocError>
    requires { All IsReadyDraft drafts.items }
    ensures { IfOk result (λ made. made.items ≡ map assortment_of drafts.items) }
{
    let mut made = Vec::with_capacity(alloc, drafts.len())?;
    for draft in drafts {
        made.push_reserved(Assortment::of(alloc, draft)?);
    }
    Ok(made)
}

impl Instruction {
    /// The instruction that a file's draft says.
    pub fn of(alloc: Global, file: FileDraft) -> Result<Instruction, AllocError>
        requires { IsReadyFile file }
        ensures { IfOk result (λ i. i ≡ instruction_of file) }
    {
        Ok(Instruction {
            module: only(file.module),
            period: only(file.period),
            limit: only(file.limit),
            assortments: assortments_of(alloc, file.drafts.into_vec())?,
        })
    }

    /// The module in mm, 10 to 1,000: each log starts at a multiple of it, and each length is one.
    pub fn module(&self) -> u32
        ensures module { result ≡ self.now.module }
        ensures valid { IsInstruction self.now }
    {
        self.module
    }

    /// The number of stems after which prices are recalculated, 1 to 1,000.
    pub fn period(&self) -> u32
        ensures period { result ≡ self.now.period }
        ensures valid { IsInstruction self.now }
    {
        self.period
    }

    /// How far a price may lie from its base price, in per mille of that: 0 to 1,000.
    pub fn limit(&self) -> u32
        ensures limit { result ≡ self.now.limit }
        ensures valid { IsInstruction self.now }
    {
        self.limit
    }

    /// The assortments, 1 to 16.
    pub fn assortments(&self) -> &[Assortment]
        ensures items { result.now ≡ self.now.assortments }
        ensures valid { IsInstruction self.now }
    {
        self.assortments.as_slice()
    }

    /// How many classes all assortments have, 1 to 16,384.
    pub fn classes(&self) -> usize
        ensures number { result ≡ classes self.now }
        ensures small { result ≤ 16384 }
        ensures valid { IsInstruction self.now }
    {
        classes_in(self.assortments.as_slice())
    }

    /// The index of a class among all, from 0: assortment by assortment, and row by row.
    pub fn index(&self, class: Class) -> usize
        requires { IsClass self.now class }
        ensures place { result ≡ index_of self.now class }
        ensures within { result < classes self.now }
    {
        self.place(class)
    }

    /// The index of a class among all; that it is below their number follows from this.
    fn place(&self, class: Class) -> usize
        requires { IsClass self.now class }
        ensures { result ≡ index_of self.now class }
    {
        let at = class.assortment as usize;
        let before = classes_in(&self.assortments[..at]);
        before + class.row as usize * self.assortments[at].lengths().len() + class.column as usize
    }

    /// Whether all parts are equal.
    pub fn same(&self, other: &Instruction) -> bool
        ensures { IsTrue result ↔ (self.now ≡ other.now) }
    {
        self.module == other.module
            && self.period == other.period
            && self.limit == other.limit
            && are_same(self.assortments.as_slice(), other.assortments.as_slice())
    }

    /// Copies the instruction, with lists of its own. `Memory` if an allocation failed.
    #[tactic(auto, using(crate::proofs::ChangeLemmas::copied))]
    pub fn copy(&self, alloc: Global) -> Result<Instruction, Memory>
        ensures { IfOk result (λ i. i ≡ self.now) }
    {
        self.changed(alloc, Change::Nothing, &[])
    }

    /// The instruction with these assortments in the place of its own.
    fn with_assortments(&self, assortments: Vec<Assortment>) -> Instruction
        requires { IsInstruction (with_assortments self.now assortments.items) }
        ensures { result ≡ with_assortments self.now assortments.items }
    {
        Instruction {
            module: self.module,
            period: self.period,
            limit: self.limit,
            assortments,
        }
    }

    /// The instruction with a change, for which these are the numbers of all its classes.
    #[tactic(auto, using(crate::proofs::ChangeLemmas::changes))]
    fn changed(&self, alloc: Global, change: Change, numbers: &[u32]) -> Result<Instruction, Memory>
        requires { MayChange change self.now numbers.now }
        ensures { IfOk result (λ i. i
            ≡ with_assortments self.now (each_with (changed change) numbers.now self.now.assortments)) }
    {
        let assortments = each_changed(alloc, self.assortments(), change, numbers)?;
        Ok(self.with_assortments(assortments))
    }

    /// The instruction with the given numbers in the place of its own.
    pub fn with(self, settings: &Settings) -> Instruction
        ensures { result ≡ with_settings settings.now self }
    {
        Instruction {
            period: settings.period().unwrap_or(self.period),
            limit: settings.limit().unwrap_or(self.limit),
            ..self
        }
    }

    /// Copies the instruction, with lists of its own, so that every assortment takes every grade. `Memory` if an
    /// allocation failed.
    #[tactic(auto, using(crate::proofs::ChangeLemmas::freed))]
    pub fn grade_free(&self, alloc: Global) -> Result<Instruction, Memory>
        ensures { IfOk result (λ i. i ≡ grade_free self.now) }
    {
        self.changed(alloc, Change::Grades, &[])
    }

    /// Copies the instruction, with lists of its own and other targets, one for each class, assortment by assortment
    /// and row by row. `Memory` if an allocation failed.
    pub fn with_targets(&self, alloc: Global, targets: &[u32]) -> Result<Instruction, Memory>
        requires { MayBeWanted self.now targets.now }
        ensures { IfOk result (λ i. i ≡ with_targets targets.now self.now) }
    {
        self.changed(alloc, Change::Targets, targets)
    }

    /// Copies the instruction, with lists of its own and other base prices, one for each class, assortment by
    /// assortment and row by row, each at most 10,000,000. `Memory` if an allocation failed.
    pub fn with_prices(&self, alloc: Global, prices: &[u32]) -> Result<Instruction, Memory>
        requires { MayBePrices self.now prices.now }
        ensures { IfOk result (λ i. i ≡ with_prices prices.now self.now) }
    {
        self.changed(alloc, Change::Prices, prices)
    }
}

/// How many classes some assortments have.
fn classes_in(assortments: &[Assortment]) -> usize
    requires { length assortments.now ≤ 16 }
    ensures number { result ≡ sum_by classes_of assortments.now }
    ensures small { result ≤ 1024 * length assortments.now }
{
    let mut all = 0;
    for assortment in assortments {
        all += assortment.classes();
    }
    all
}

/// Whether two lists of assortments are equal.
fn are_same(these: &[Assortment], those: &[Assortment]) -> bool
    ensures { IsTrue result ↔ (these.now ≡ those.now) }
{
    if these.len() != those.len() {
        return false;
    }
    for i in 0..these.len() {
        if !these[i].same(&those[i]) {
            return false;
        }
    }
    true
}

/// The first of some numbers and the rest; if there are fewer, all and none.
fn split(numbers: &[u32], first: usize) -> (&[u32], &[u32])
    ensures first { result.0.now ≡ take first numbers.now }
    ensures rest { result.1.now ≡ drop first numbers.now }
{
    numbers.split_at(first.min(numbers.len()))
}

/// The assortments with a change, each for as many of the numbers as it has classes: the first for the first ones.
fn each_changed(
    alloc: Global,
    assortments: &[Assortment],
    change: Change,
    numbers: &[u32],
) -> Result<Vec<Assortment>, Memory>
    requires { AllByRecursion IsAssortment (each_with (changed change) numbers.now assortments.now) }
    ensures { IfOk result (λ made. made.items ≡ each_with (changed change) numbers.now assortments.now) }
{
    let mut made = Vec::with_capacity(alloc, assortments.len())?;
    let mut rest = numbers;
    for assortment in assortments {
        let (own, more) = split(rest, assortment.classes());
        made.push_reserved(assortment.changed(alloc, change, own)?);
        rest = more;
    }
    Ok(made)
}
