//! Files that can be restored wherever the program ends: a journal keeps what an edit replaces.
#![tactic(auto)]

pub mod apart;
pub mod contents;
pub mod cuts;
pub mod entries;
pub mod journal;
pub mod journaled;
mod keeping;
pub mod laws;
mod notes;
pub mod place;
pub mod recover;
pub mod rows;
pub mod strangers;
pub mod unkept;
