//! Which tables there are of journals.

/// A table: a line for each class, posting, log or assortment, for each assortment at each point of its curves, or for
/// each class that lacks logs.
#[derive(Clone, Copy, Debug, PartialEq, Eq)]
pub enum Table {
    Classes,
    Postings,
    Logs,
    Degrees,
    Assortments,
    Lacking,
}
