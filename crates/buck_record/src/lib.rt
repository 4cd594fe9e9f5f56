//! Files of items: what stands between tildes, each with a number, a kind and a rest.
//!
//! [`pieces`] and [`items`] read a file, [`pieces_at`] only the items in some slots; [`numbers`], [`number`] and
//! [`wide`] read the rest of an item. [`next_in`], [`next_of`] and [`is_done`] go over a file with no list of its items,
//! [`numbers_into`] reads numbers into a list that is kept, and [`two_parts`] cuts a file for threads.
//! [`table`] looks items up by number and kind, [`check`] chains the checks of a reader that stands on this crate,
//! [`rules`] has what such readers share, [`Described`] is what is said of an item, and [`laws`] says that what is
//! written is read again. [`FormFault`] is what their faults have in common, [`Numbered`] how a fault is reported.
//! [`put_number`], [`put_after`], [`put_numbers`] and [`put_line`] write.
#![tactic(auto)]

mod bytes;
mod checking;
mod described;
mod fault;
mod form;
mod group;
mod item;
pub mod laws;
mod listed;
mod memory;
mod numbered;
mod pass;
mod slot;
mod writing;

pub use bytes::reading::{items, number, numbers, pieces, pieces_at, wide};
pub use bytes::white::is_white;
pub use checking::{check, rules, table};
pub use described::{Count, Described, Level, Order};
pub use fault::RecordFault;
pub use form::FormFault;
pub use group::Group;
pub use item::{Item, Piece};
pub use listed::Listed;
pub use memory::Memory;
pub use numbered::{FaultNumbers, Numbered};
pub use pass::cursor::{OutOfOrder, is_done, next_in, next_of};
pub use pass::kept_numbers::numbers_into;
pub use pass::parts::two_parts;
pub use slot::Slot;
pub use writing::line::{put_after, put_line, put_number, put_numbers};
