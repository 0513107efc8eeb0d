//! Finds the sets of features that conflict, by few builds: the least sets that fail, and the
//! greatest that pass.
//!
//! A set says of each position below a number whether it is a member. `Rules` are tables that say
//! which sets may be chosen. A `Builds` tries a build with a set; nothing is assumed of its answers,
//! and each clause on what was found speaks of the runs of this search alone.
#![tactic(auto)]

pub mod builds;
pub mod fault;
pub mod found;
mod greatest;
mod known;
pub mod rules;
pub mod scripted;
mod search;
mod sets;
mod shrink;
pub mod tried;

pub use builds::Builds;
pub use fault::SearchFault;
pub use found::{Found, find_conflicts};
pub use rules::Rules;
pub use scripted::Scripted;
pub use tried::{BuildOutcome, Tried};
