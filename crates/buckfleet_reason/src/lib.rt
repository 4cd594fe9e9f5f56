//! Why a file is refused, in words: what is there, and what is expected.
//!
//! [`apt_reason`], [`stm_reason`] and [`journal_reason`] say it of the three kinds of file, and [`request_reason`] of a
//! request, from the bytes and the fault: in which line it is, of which item, and of whose. They take any bytes and any
//! fault.
//! The items of a file with their names and ranges stand in the crate of its form; those of a request alone, `REQUEST`.
#![tactic(auto)]

mod counts;
mod files;
mod form;
mod item;
mod journal;
mod numbers;
mod places;
mod placing;
mod requests;
mod rows;
mod shown;
mod source;
mod whose;

pub use files::{apt_reason, stm_reason};
pub use item::{Item, Items, Key, Word, Words};
pub use journal::journal_reason;
pub use requests::request_reason;
pub use rows::{REQUEST, key_of};
pub use shown::{Quoted, Several, Shown};
pub use source::{Here, Said, Source};
