//! Runs of a fleet: stem files that are read to lists, cut by harvesters, and written as a journal and a report.
pub(crate) mod closed;
pub(crate) mod cutting;
pub(crate) mod running;
pub(crate) mod serving;
pub(crate) mod turning;
pub(crate) mod writing;
