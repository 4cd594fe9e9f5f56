//! Numbers and names as the words of a page, and names as the fields of a table.
#![tactic(auto)]

pub mod laws;
mod names;
mod words;

pub use names::{Apart, Name, put_quoted};
pub use words::{
    Chip, ClassText, DOT, Difference, Fixed, Grouped, Known, Length, Metres, Millionths, Percent,
    Row, Several, Signed, change_of, class_text, degree_text, difference_of, half_up, length_text,
    letter, limit_text, percent_at, permille, row_of, tens, tick_step,
};
