//! The figures of lawful journals: what was cut, what it is worth, and what steering cost.
#![tactic(auto)]

mod account;
mod adding;
mod assorted;
mod counting;
mod course;
mod cuts;
mod degrees;
mod figures;
mod free;
mod grades;
mod greatest;
mod lack;
mod lacks;
pub mod laws;
mod making;
mod owns;
mod parts;
mod places;
mod shown;
mod sums;
mod tally;

pub use cuts::{cut_of, unsteered_pieces};
pub use degrees::{Degrees, degrees_at, degrees_in};
pub use figures::{Cut, Figures, Part, Piece, Place, Point};
pub use free::{Free, GradeFree};
pub use grades::{grade_free_of, grade_free_planner};
pub use lack::Lack;
pub use lacks::lacking;
pub use making::{MOST_POINTS, figures_of};
pub use owns::Own;
pub use parts::{number_at, part, sum_of};
pub use places::{place_of, posting_at};
pub use shown::cut_at;
pub use sums::Sums;
