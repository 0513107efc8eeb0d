//! The plan of a call: which versions its packages use, which runs a package has, all entries in
//! order, each with its command, and the numbers of a status line. The crate knows no loaded
//! workspace: a `PlanInput` and `CommandParts` hold all that matters.
#![tactic(auto)]

mod additions;
mod blocks;
mod commands;
pub mod laws;
mod line;
pub mod parts;
pub mod places;
pub mod plan;
mod prepared;
pub mod progress;
pub mod runs;
pub mod versions;
