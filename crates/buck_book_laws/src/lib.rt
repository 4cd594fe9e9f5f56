//! Laws over the text of a journal and over what it is read as.
#![tactic(auto)]

mod laws;

pub use laws::{
    cuts_alone_are_read_as_before, histories_lie_in_range, no_item_is_skipped,
    what_is_written_is_read,
};
