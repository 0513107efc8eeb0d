//! The plan of a loaded call: which packages of the workspace it is for, which runs each of them
//! has, and the plan with its notices.
#![tactic(auto)]

mod candidates;
mod chosen;
pub mod determine;
pub mod fault;
mod found;
mod input;
pub mod kind;
mod least_places;
mod listing;
pub mod looks;
pub mod member;
mod notes;
pub mod package_rules;
pub mod packages;
pub mod parts;
mod pattern_counts;
pub mod plan;
mod plan_notes;
pub mod stable;
mod tables;
mod uses;
mod words;
