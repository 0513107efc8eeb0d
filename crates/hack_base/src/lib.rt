//! What all crates share: lists of names in one argument, paths as texts, copies of texts, notices,
//! and texts written to a writer. Its definitions say what a name, a number and a split text are.
#![tactic(auto)]

pub mod copies;
pub mod lists;
pub mod notice;
pub mod paths;
pub mod writes;
