//! The oldest Rust of each package: the least version of a plan on which all its runs pass.

pub use hack_bisect::{Least, Tries, find_least};
pub use hack_msrv::found::Found;
pub use hack_msrv::search::find_versions;
pub use hack_msrv::trial::Came;
pub use hack_side::judge::Judge;
