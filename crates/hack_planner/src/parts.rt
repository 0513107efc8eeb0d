//! Parts of which a plan is made, for searches that make their own.

pub use crate::candidates::candidates;
pub use crate::found::{all_of, options, rules_of};
pub use crate::plan::chosen_list;
pub use crate::tables::notes_of;
pub use crate::words::{call_words, given_path};
