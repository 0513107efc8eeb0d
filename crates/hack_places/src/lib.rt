//! Where a call's workspace is, and what an interrupted call may have left there: the folder, its
//! repository, the journal, the lockfile and its copy.
#![tactic(auto)]

pub mod journal;
pub mod look;
pub mod places;
pub mod repository;
pub mod workspace;
