//! Who looks on at a run.
use buck_apt_instruction::Instruction;
use buck_stem_shape::Stem;
use std::sync::Arc;

/// A stem, or a share of one.
pub trait HasStem {
    /// The stem itself.
    fn stem(&self) -> &Stem;
}

impl HasStem for Stem {
    fn stem(&self) -> &Stem {
        self
    }
}

impl HasStem for Arc<Stem> {
    fn stem(&self) -> &Stem {
        self.as_ref()
    }
}

/// What the threads of a run show of its work while it goes on. Nothing that a run writes depends on it.
pub trait Onlooker {
    /// All files are read, and their stems are about to be cut: the instruction, with the numbers of the run, and the
    /// stems of each stem file. A run that cuts none, or cuts them more than once, shows the instruction alone.
    fn read<S: HasStem>(&self, _instruction: &Instruction, _files: &[Vec<S>]) {}

    /// So many stems are to be cut by a fleet.
    fn cutting(&self, stems: usize);

    /// A harvester of a fleet has planned the next stem of its file, and is about to bring it to the book.
    fn planned(&self);
}

/// Nobody looks on.
#[derive(Drop)]
pub struct Nobody;

impl Onlooker for Nobody {
    fn cutting(&self, _stems: usize) {}

    fn planned(&self) {}
}

/// Observes runs while they go on, called by the threads that make them. Nothing that a table has depends on it.
pub trait RunOnlooker: Onlooker {
    /// So many runs are to be made.
    fn making(&self, runs: usize);

    /// So many of them more were made.
    fn made(&self, runs: usize);
}

impl RunOnlooker for Nobody {
    fn making(&self, _runs: usize) {}

    fn made(&self, _runs: usize) {}
}
