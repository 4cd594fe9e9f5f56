//! The bucker for programs in other languages: a static library with a C header, `include/buckfleet.h`.
//!
//! Each exported function is the one of that name of `buck_c_calls`, with its clauses again; its text in the header is
//! for the caller. No crate can stand on a static library, so what the calls do stands in that library, and their names
//! here.
#![tactic(auto)]

mod book;
mod files;
mod several;
