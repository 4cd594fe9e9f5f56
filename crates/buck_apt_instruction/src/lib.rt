//! Bucking instructions: what may be cut, at which prices, and how much of it is wanted.
#![tactic(auto)]

mod assortment;
mod class;
mod described;
mod draft;
mod instruction;
mod settings;
pub mod slots;

pub use assortment::Assortment;
pub use buck_record::Memory;
pub use class::Class;
pub use described::ITEMS;
pub use draft::{Draft, FileDraft};
pub use instruction::Instruction;
pub use settings::Settings;
