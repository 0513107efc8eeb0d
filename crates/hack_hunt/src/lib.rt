//! The search for conflicts of a call: for each chosen package and slot the least sets of features that
//! fail, and the greatest that pass.
#![tactic(auto)]

pub mod hunt;
mod listed;
mod one;
mod order;
pub mod plan;
mod rules;
pub mod spots;
