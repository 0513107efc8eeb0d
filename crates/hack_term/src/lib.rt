//! Lines for the user, and groups of them in a log.
#![tactic(auto)]

mod log_group;
pub mod term;
