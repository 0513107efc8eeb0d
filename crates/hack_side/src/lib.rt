//! Runs side by side: the steps of a plan are handed out and told in order, and the commands of
//! runs are started ahead of their turn.
#![tactic(auto)]

pub mod judge;
mod offers;
pub mod serial;
pub mod side;
