//! What a call says of its failed runs, and of what searches found.
#![tactic(auto)]

pub mod conflict_lines;
mod explain;
pub mod findings;
pub mod noted;
pub mod remarks;
pub mod report;
