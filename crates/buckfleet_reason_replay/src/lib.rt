//! Why a journal isn't lawful, or not that of its stem files and rule, in words: what is there, and what is expected.
//!
//! [`replay_reason`], [`rule_reason`] and the methods of [`Tied`] say it from what was read and the fault. They take
//! any journal and any fault.
#![tactic(auto)]

mod class;
mod logs;
mod posting;
mod prices;
mod replay;
mod stems;
mod targets;
mod tie;

pub use prices::{Mispriced, rule_reason};
pub use replay::{Unlawful, replay_reason};
pub use targets::WrongTargets;
pub use tie::Tied;
