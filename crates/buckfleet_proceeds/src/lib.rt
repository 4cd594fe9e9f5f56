//! What journals brought: under the contract of an owner, and beside one another.
//!
//! [`serve_appraise`] says what the cuts of journals bring under an owner's instruction, and what the best cuttings
//! under it would have brought; [`serve_compare`] sets two runs side by side. [`AppraiseTask`] and [`CompareTask`] are
//! what they are asked, [`run_appraise`] and [`run_compare`] the same over open files. [`appraise`] is the appraisal of
//! lawful journals, and [`laws`] say that no loss is below 0.
#![tactic(auto)]

mod adding;
mod appraisal;
mod appraised;
mod compared;
mod comparing;
mod figure;
pub mod laws;
mod lines;
mod opened;
mod paid;
mod paying;
mod replayed;
mod serving;

pub use appraisal::{Appraisal, appraise};
pub use appraised::run_appraise;
pub use buckfleet_tasks::{AppraiseTask, CompareTask};
pub use buckfleet_terms_files::TermsFault;
pub use comparing::run_compare;
pub use opened::Opened;
pub use paid::{Account, Paid};
pub use serving::{serve_appraise, serve_compare};
