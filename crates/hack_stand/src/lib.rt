//! Programs that replace cargo and rustup in tests: they answer from the files of a folder, and
//! record there what else they were asked.
#![tactic(auto)]

pub mod call;
pub mod stand;
