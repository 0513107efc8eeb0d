//! What cargo prints when it is asked for its version, and package ID specifications.

pub use hack_metadata::cargo::{SpecFault, match_pkg_spec};
pub use hack_process::cargo::{host, version};
