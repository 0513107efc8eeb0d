//! The conflicts of a package: the least sets of its features that fail.

pub use hack_closures::{Build, Closures};
pub use hack_conflicts::{BuildOutcome, Builds, Found, Rules, SearchFault, find_conflicts};
pub use hack_culprits::aim::Aim;
pub use hack_culprits::culprits::find_culprits;
pub use hack_culprits::fault::CulpritsFault;
pub use hack_hunt::hunt::{Hunted, hunt_all};
pub use hack_hunt::plan::{SearchPlan, search_plan_of};
