//! Files that are opened and read, instructions and journals that are replayed, faults with their lines, and texts that
//! are written.
#![tactic(auto)]

mod both;
mod check_fault;
mod disk;
mod fault;
mod onlooker;
mod opening;
mod reading;
mod several;
mod workers;
mod writing;

pub use both::{Both, lawful_text, read_own, read_postings, replay_both, unlawful};
pub use check_fault::CheckFault;
pub use disk::{Desk, Disk, Renewed, has_folder_input, is_standard};
pub use fault::{EngineFault, status};
pub use onlooker::{HasStem, Nobody, Onlooker, RunOnlooker};
pub use opening::{Make, Open, make_journal, open_both, open_inputs};
pub use reading::{
    instruction_in, read_file, read_instruction, read_instruction_with, read_stems, stems_in,
};
pub use several::{
    Among, Several as Journals, Unlawful as FirstUnlawful, read_several, replay_several,
    unlawful_among,
};
pub use workers::{OneThread, SeveralThreads, Workers, number_of_threads};
pub use writing::{write_fault, write_pieces, write_text};
