//! Laws over histories and their journals.

pub use buck_book_laws::{
    cuts_alone_are_read_as_before, histories_lie_in_range, no_item_is_skipped,
    what_is_written_is_read,
};
pub use buck_book_postings::laws::{
    ends_around_a_demand, ends_of_cuts_alone, lawful_of_cuts_alone, one_more_is_lawful,
    prefix_is_lawful,
};
pub use buck_book_replay::laws::{faults_are_unlawful, no_fault_is_lawful};
