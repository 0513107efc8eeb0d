//! Which small patterns of candidates only failed runs show, and the notices on them.

pub use hack_session::suspect_notes::suspect_notes;
pub use hack_session::suspects::{Explained, Part};
pub use hack_suspects::{
    RunOutcome, SuspectFault, count_failed, count_showing, finds_faults, sort_by_use, suspects,
    suspects_tell_the_failed,
};
