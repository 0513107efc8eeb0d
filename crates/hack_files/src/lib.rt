//! Access to files: what the program asks of a file system, and files that are restored at the end.
#![tactic(auto)]

mod disk;
mod failing;
pub mod fs;
mod memory;
pub mod reason;
pub mod restore;
mod saved;
