//! The manifest of a workspace without its private crates. The text is cut into pieces; those that
//! aren't edited stay byte for byte.
#![tactic(auto)]

mod exclude;
pub mod laws;
mod members;
pub mod private_crates;
mod workspace_tree;
