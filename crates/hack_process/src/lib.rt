//! Commands of cargo: how they are shown and run, and what cargo prints for its version.
#![tactic(auto)]

mod caller;
pub mod cargo;
mod child;
mod fake;
mod fault;
pub mod process;
mod words;
