//! Manifests: what they say about their package and features, and the pieces that they are cut
//! into.
#![tactic(auto)]

mod fault;
mod features;
mod laws;
pub mod lookup;
pub mod manifest;
mod package;
pub mod path;
pub mod pieces;
mod places;
mod plain;
pub mod runs;
