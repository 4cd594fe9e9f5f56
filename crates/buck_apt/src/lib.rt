//! Bucking instructions: what may be cut, at which prices, and how much of it is wanted; read from a file, and written.
#![tactic(auto)]

mod draft;
mod fault;
pub mod laws;
mod lines;
mod reading;
mod rules;
mod text;

pub use buck_apt_instruction::{
    Assortment, Class, Draft, FileDraft, ITEMS, Instruction, Memory, Settings, slots,
};
pub use fault::AptFault;
pub use reading::read_apt;
pub use text::instruction_text;
