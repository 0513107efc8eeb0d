//! The uses of options on a command line, or the first parse error; what uses give to options, and
//! pass on to cargo.

mod behavior;
mod cut;
mod fault;
mod known;
mod passed;
mod seen;

pub use behavior::WorkspaceBehavior;
pub use cut::{Cuts, Print, Use, all_uses};
pub use fault::{CutFault, OwnedFlag};
pub use passed::leading;
pub use seen::{count, given, subcommand, value, values};
