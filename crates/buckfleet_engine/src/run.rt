//! Files that are opened and read, the engines over them, and whole runs of the program: all of one thread, unless
//! [`Workers`](buckfleet_engine_files::Workers) are several, and but for those in parts.
pub(crate) mod bucking;
pub(crate) mod checking;
pub(crate) mod parallel;
pub(crate) mod reporting;
pub(crate) mod serving;
