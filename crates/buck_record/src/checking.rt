//! What readers ask of items and numbers, and in which order.
pub mod check;
pub mod rules;
pub mod table;
