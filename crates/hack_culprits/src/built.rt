//! What was built for a package and a slot.

ghost use Rattle.std.specs.Prelude.{◌≡◌, ◌≢◌, All, Bool, Contains, IfOk, MatchBool, MatchOption};
ghost use Rattle.hack_plan.specs.AddedRuns.{added_run};
ghost use Rattle.hack_culprits.specs.Built.{run_for};
ghost use Rattle.hack_culprits.specs.Internal.{made_in};

use hack_closures::Build;
use hack_conflicts::BuildOutcome;
use hack_plan::runs::Added;
use std::alloc::{AllocError, Global};

/// What was built, and how its run ended.
#[derive(Drop)]
pub(crate) struct Built {
    pub build: Build,
    pub outcome: BuildOutcome,
}

/// How the run of this build ended, if it was built.
pub(crate) fn outcome_of(built: &[Built], build: &Build) -> Option<BuildOutcome>
    ensures { (plain : Bool) → MatchOption result
        (All (λ m. m.run ≢ run_for plain build.now) (made_in plain built.now))
        (λ outcome. Contains (made_in plain built.now)
        (record { run = run_for plain build.now; outcome = outcome })) }
{
    for one in built {
        if is_same(&one.build, build) {
            return Some(one.outcome);
        }
    }
    None
}

/// Whether two builds are the same.
fn is_same(one: &Build, other: &Build) -> bool
    ensures { (plain : Bool) → MatchBool result (run_for plain one.now ≡ run_for plain other.now)
        (run_for plain one.now ≢ run_for plain other.now) }
{
    match (one, other) {
        (Build::Set(set), Build::Set(other)) => set.as_slice() == other.as_slice(),
        (Build::NoFeatures, Build::NoFeatures) | (Build::AllFeatures, Build::AllFeatures) => true,
        _ => false,
    }
}

/// The run of a build, for a plan. The run without features is a plain one where the package has none.
pub(crate) fn run_of(alloc: Global, build: &Build, plain: bool) -> Result<Added, AllocError>
    ensures { IfOk result (λ run. added_run run ≡ run_for plain build.now) }
{
    match build {
        Build::NoFeatures if plain => Ok(Added::Plain),
        Build::NoFeatures => Ok(Added::NoDefaultFeatures),
        Build::AllFeatures => Ok(Added::AllFeatures),
        Build::Set(set) => Ok(Added::Features(Vec::from_slice(alloc, set.as_slice())?)),
    }
}
