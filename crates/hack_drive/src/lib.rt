//! What a call runs: its plan, handed out to a runner, or a search; and the notices on it.
#![tactic(auto)]

pub mod drive;
pub mod notices;
