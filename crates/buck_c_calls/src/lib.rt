//! The calls of the library for other languages, as functions of this one: the crate `buck_c` exports each by its name.
//!
//! What crosses is in C's layout: bytes and numbers with their lengths, structs of numbers, and a block that a book is
//! kept in. This crate has no logic of its own: a call hands its arguments to an engine or to a kept book, and puts
//! what they answer where the caller wants it.
#![tactic(auto)]

mod asked;
mod book;
mod files;
mod journal;
mod ledger;
mod looking;
mod pages;
mod room;
mod several;
mod showing;
mod state;
mod telling;
mod trials;
mod turns;

pub use asked::{DrawnRun, DrawnRuns, Numbers, Orders, Pair, Run};
pub use book::{Terms, buckfleet_close, buckfleet_cut, buckfleet_open, buckfleet_retarget};
pub use files::{buckfleet_buck, buckfleet_check, buckfleet_report, buckfleet_version};
pub use journal::buckfleet_journal;
pub use ledger::{buckfleet_appraise, buckfleet_check_with, buckfleet_compare};
pub use looking::{Appraised, buckfleet_preview, buckfleet_price_of};
pub use pages::{buckfleet_table, buckfleet_view};
pub use showing::{Cut, CutLog};
pub use state::{
    State, buckfleet_counts, buckfleet_degree, buckfleet_prices, buckfleet_state, buckfleet_targets,
};
pub use trials::{buckfleet_sweep, buckfleet_tune, buckfleet_wishes};
pub use turns::{Texts, buckfleet_in_turn};
