//! The command line of a call, parsed and checked, with notices on it.
#![tactic(auto)]

pub mod cli;

pub use hack_base::lists;
pub use hack_files::{fs, restore};
pub use hack_lexopt as lexopt;
pub use hack_term::term;
pub use hack_versions::{rustup, version};
