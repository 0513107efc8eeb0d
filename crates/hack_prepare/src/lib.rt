//! Manifests that are edited before the runs of a call, and restored at its end.
#![tactic(auto)]

mod edits;
mod fault;
mod lockfile;
pub mod manifest;
mod members;
mod prepare;
mod replace;
mod root;
mod told;
mod wanted;
