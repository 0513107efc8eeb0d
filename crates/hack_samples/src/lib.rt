//! Covering samples: in place of all listed sets, a few of them that show each pattern of a few
//! candidates, each on or off, that some listed set shows.
//!
//! A set says of each position below a number whether it is a member. An `Allowed` answers which
//! sets are allowed; a listed set is an allowed one that has a member of each required group. A
//! candidate has a row for each of its names, with the positions that enable the name: the
//! candidate is on in a set that has a member of each of its rows, and off in any other set.
#![tactic(auto)]

pub mod allowed;
mod cover;
mod demands;
pub mod fault;
mod greedy;
mod guide;
mod lean;
mod order;
mod patterns;
mod search;
pub mod sets;

pub use allowed::Allowed;
pub use cover::sample;
pub use fault::SampleFault;
pub use sets::Setting;
