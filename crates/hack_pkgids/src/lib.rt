//! Package ID specifications, and what they match.
#![tactic(auto)]

pub mod pkgids;
