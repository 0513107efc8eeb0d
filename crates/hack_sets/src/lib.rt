//! Sets of positions, each an increasing list: their order, how they are stored in a few bytes each,
//! and how they are listed, all of them or those that pass questions.
#![tactic(auto)]

pub mod forest;
pub mod questions;
pub mod sets;

pub use forest::{FeatureSets, Pruned};
pub use questions::{Questions, pruned};
pub use sets::{compare_sets, powerset};
