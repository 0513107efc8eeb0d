//! Searches for the conflicts of each package: the least sets of its features that fail together.
//!
//! Which sets are built is chosen by the outcomes so far (`hack_conflicts`), and what is built for one
//! is a listed set (`hack_closures`), which becomes a place of a plan that grows. Nothing is assumed of
//! the outcomes.
#![tactic(auto)]

pub mod aim;
mod builder;
mod built;
pub mod culprits;
pub mod fault;
