//! Finds the least place from which on all places pass, by few trials: the search by halving.
//!
//! Places are numbers from 0 to a greatest one. A `Tries` tries one of them; nothing is assumed of
//! its answers, and each clause on what was found speaks of the trials of this search alone.
#![tactic(auto)]

pub mod find;
pub mod scripted;
pub mod tries;

pub use find::{Least, find_least};
pub use scripted::Scripted;
pub use tries::{TrialOutcome, Tries};
