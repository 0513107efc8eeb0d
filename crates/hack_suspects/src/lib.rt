//! Suspects: once a package has run with a covering sample of its sets, the small patterns that
//! explain which of its runs failed.
//!
//! A pattern says of some candidates that they are on, and of some that they are off. A suspect is
//! a pattern that some failed run shows and no passed run, and of which no smaller part is such a
//! pattern.
#![tactic(auto)]

mod choices;
mod counts;
mod laws;
mod patterns;
pub mod suspect;
mod uses;

pub use counts::{count_failed, count_showing};
pub use laws::{finds_faults, suspects_tell_the_failed};
pub use suspect::{RunOutcome, SuspectFault, suspects};
pub use uses::sort_by_use;
