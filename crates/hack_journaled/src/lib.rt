//! A whole call over files with a journal.
#![tactic(auto)]

pub mod journaled;
