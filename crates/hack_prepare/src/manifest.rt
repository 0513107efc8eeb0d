//! The edits of a call, and why they can't be made.

pub use crate::fault::PrepareFault;
pub use crate::prepare::{finish, prepare};
