//! The command line of `cargo hack`, parsed into `Args`.

mod args;
mod coloring;
mod edits;
mod env;
mod laws;
mod notes;
mod parse;
mod start;

pub use args::Args;
pub use coloring::coloring_asked;
pub use edits::Edits;
pub use env::Env;
pub use hack_features::Feature;
pub use hack_options::{Help, Opt};
pub use hack_rules::fault::{Beside, CliFault};
pub use hack_rules::uses::{CutFault, OwnedFlag, WorkspaceBehavior};
pub use laws::outcome_is_one;
pub use parse::Parsed;
pub use start::wants_rustup;
