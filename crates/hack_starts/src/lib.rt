//! Who starts commands ahead of their turn: the system, or a caller that starts none.
#![tactic(auto)]

pub mod serial;
pub mod starts;
