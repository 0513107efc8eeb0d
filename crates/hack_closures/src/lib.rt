//! The rules by which a search for conflicts chooses sets, made from those by which a feature
//! powerset lists sets, and which listed set is built for a set that the search chooses.
//!
//! The search knows positions, what each of them enables, and sets that have all that their members
//! enable. The positions are those of the candidates that a listed set may have, and one of all
//! features.
#![tactic(auto)]

mod build;
pub mod closures;
mod enabling;
mod excluding;
mod greatest;
mod marks;
mod needed;

pub use build::Build;
pub use closures::Closures;
