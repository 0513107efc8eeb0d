//! Searches for the oldest Rust of each package: the least version of a plan on which all its runs
//! pass.
//!
//! A version is tried by its preparations and then the package's runs of the plan at that version,
//! until one fails; which versions are tried is chosen by halving. Nothing is assumed of the
//! outcomes, and each clause on what was found speaks of the trials of this search alone.
#![tactic(auto)]

pub mod found;
mod package;
pub mod search;
pub mod trial;
mod uses;
