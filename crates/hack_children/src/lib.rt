//! Starts programs of the system ahead of their turn, each in a target folder of its lane.
#![tactic(auto)]

mod captures;
pub mod children;
pub mod commands;
pub mod processors;
mod progress;
mod running;
