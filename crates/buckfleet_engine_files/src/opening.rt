//! Files by their names.
ghost use Rattle.std.specs.Prelude.{◌≡◌, ◌+◌, ℕ, List, Option, map, min};
ghost use Rattle.std.specs.Option.{option_map};
ghost use Rattle.buck_record.specs.Reading.{listed};
ghost use Rattle.buckfleet_engine_files.specs.Opening.{AnswersAll, AnswersInputs, AnswersOpening, MakesJournal, both_listed};

use crate::fault::EngineFault;
use std::alloc::Global;
use std::io;

/// Opens files by their names.
pub trait Open {
    /// A file that was opened.
    type File: io::Read + Drop;

    ghost opens: { Self → List ℕ → Option Self.File → Self → Type 0 };

    /// The file of this name, or none if it can't be opened.
    fn open(&mut self, name: &str) -> Option<Self::File>
        ensures { opens self.old name.now result self.new };
}

/// Makes files by their names.
pub trait Make {
    /// A file whose text is replaced. What stood in it stays there while nothing is written. What the first write is to
    /// write takes its place, at once if that can be: a text that is given to one write whole is there whole, or not at
    /// all.
    type Made: io::Write + Drop;

    ghost makes: { Self → List ℕ → Option Self.Made → Self → Type 0 };

    /// The file of this name, to have its text replaced; an empty one is made if there is none. None if it can't be
    /// opened or made, or is one of the files that are read or stand behind a standard stream.
    fn make(&mut self, name: &str) -> Option<Self::Made>
        ensures { makes self.old name.now result self.new };
}

/// Opens the instruction file and then the other. One that can't be opened is `Read` with its number.
pub fn open_both<O: Open>(
    opener: &mut O,
    apt: &str,
    stm: &str,
) -> Result<(O::File, O::File), EngineFault>
    ensures { AnswersOpening O.opens opener.old opener.new apt.now stm.now result }
{
    let Some(instruction) = opener.open(apt) else {
        return Err(EngineFault::Read { file: 0 });
    };
    let Some(stems) = opener.open(stm) else {
        return Err(EngineFault::Read { file: 1 });
    };
    Ok((instruction, stems))
}

/// The number of the stem file at a place: one more. A number that a fault can't hold becomes 4,294,967,295.
fn number_at(place: usize) -> u32
    ensures { result ≡ min (place + 1) 4294967295 }
{
    if place < 4_294_967_294 {
        place as u32 + 1
    } else {
        4_294_967_295
    }
}

/// Opens all stem files in order. The first that can't be opened is `Read` with its number.
fn open_all<O: Open>(
    alloc: Global,
    opener: &mut O,
    stms: &[&str],
) -> Result<Vec<O::File>, EngineFault>
    ensures { AnswersAll O.opens opener.old opener.new (map (λ s. s.now) stms.now) (listed result) }
{
    let mut files = Vec::new(alloc);
    for k in 0..stms.len() {
        match opener.open(stms[k]) {
            None => return Err(EngineFault::Read { file: number_at(k) }),
            Some(file) => files.push(file)?,
        }
    }
    Ok(files)
}

/// Opens the instruction file and then all stem files in order. The first that can't be opened is `Read` with its
/// number.
pub fn open_inputs<O: Open>(
    alloc: Global,
    opener: &mut O,
    apt: &str,
    stms: &[&str],
) -> Result<(O::File, Vec<O::File>), EngineFault>
    ensures { AnswersInputs O.opens opener.old opener.new apt.now (map (λ s. s.now) stms.now) (both_listed result) }
{
    let Some(instruction) = opener.open(apt) else {
        return Err(EngineFault::Read { file: 0 });
    };
    let stems = open_all(alloc, opener, stms)?;
    Ok((instruction, stems))
}

/// Makes the file of the journal, if one is wanted. One that can't be made is `Write`.
pub fn make_journal<M: Make>(
    maker: &mut M,
    name: Option<&str>,
) -> Result<Option<M::Made>, EngineFault>
    ensures { MakesJournal M.makes maker.old maker.new (option_map (λ s. s.now) name.entry) result }
{
    match name {
        None => Ok(None),
        Some(name) => match maker.make(name) {
            None => Err(EngineFault::Write),
            Some(made) => Ok(Some(made)),
        },
    }
}
