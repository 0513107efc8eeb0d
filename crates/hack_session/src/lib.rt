//! The steps of a plan: which there are, who performs or lists them, and what came of them.
#![tactic(auto)]

mod calls;
mod history;
mod laws;
mod lines;
mod lister;
mod perform;
mod report;
mod runner;
pub mod rustup;
mod schedule;
mod screen;
pub mod session;
mod starter;
mod step;
pub mod suspect_notes;
pub mod suspects;

pub use laws::{driven_hands_out, grown_plans_tell};
