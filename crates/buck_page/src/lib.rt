//! The page that a mill opens: that of lawful journals, and that of the first one that isn't lawful.
#![tactic(auto)]

mod assortment;
mod fault;
mod whole;

pub use buck_page_sections::Files;
pub use fault::fault_page;
pub use whole::page;
