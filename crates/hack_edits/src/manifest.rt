//! The removal of development dependencies, and why a manifest isn't edited.

pub use crate::dev_deps::remove_dev_deps;
pub use crate::fault::EditFault;
pub use crate::laws::nothing_left;
