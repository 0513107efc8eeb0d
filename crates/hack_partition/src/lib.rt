//! The pieces of a plan, one for each of several machines. The crate knows no plan: places are
//! numbers.
#![tactic(auto)]

pub mod partition;
