//! Edits of a manifest's text: what they stand on, and the removal of its development dependencies.
//! The text is cut into pieces; those that aren't edited stay byte for byte.
#![tactic(auto)]

pub mod arrays;
mod dev_deps;
mod dev_tree;
mod fault;
pub mod key_paths;
mod laws;
mod lookup;
pub mod manifest;
mod recut;
pub mod same;
pub mod tables;
