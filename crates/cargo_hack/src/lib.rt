//! cargo-hack as a library: everything that its crates export, under one name. Modules have the
//! names that they have in cargo-hack, if they exist there; each item is documented in its own
//! crate.
#![tactic(auto)]

pub mod conflicts;
pub mod features;
pub mod journal;
pub mod manifest;
pub mod msrv;
pub mod plan;
pub mod powerset_list;
pub mod run;
pub mod rustup;
pub mod suspects;

pub use hack_base::{notice, paths};
pub use hack_children::{children, commands, processors};
pub use hack_load::{cargo, context, metadata, process};
pub use hack_partition::partition;
pub use hack_session::session;
pub use hack_starts::starts;
pub use hack_words::{cli, fs, lexopt, lists, restore, term, version};
