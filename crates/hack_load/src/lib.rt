//! What is loaded for one call: the features of packages that sets are made of, and the current
//! package.
#![tactic(auto)]

mod answers;
pub mod cargo;
mod cargo_version;
pub mod context;
mod fault;
pub mod features;
mod loaded;
mod located;
mod members;
mod name;
pub mod process;

pub use hack_manifest::manifest;
pub use hack_metadata::metadata;
