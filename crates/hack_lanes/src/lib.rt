//! Commands side by side: they are started ahead of their turn, in lanes, and told at it.
#![tactic(auto)]

mod child;
pub mod job;
pub mod lanes;
pub mod turns;
pub mod window;
