//! The searches of all packages, for each slot.

ghost use Rattle.std.specs.Prelude.{◌≡◌, All, Contains, None, length, map};
ghost use Rattle.hack_load.specs.ContextView.{context_view};
ghost use Rattle.hack_metadata.specs.RecordViews.{place_at};
ghost use Rattle.hack_plan.specs.Commands.{slots_in};
ghost use Rattle.hack_hunt.specs.Hunts.{RanHunts, came_of, left_of as are_left, spots_of};
ghost use Rattle.hack_hunt.specs.Searched.{CanGrow};

use crate::one::hunt_one;
use crate::spots::spots;
use hack_closures::Build;
use hack_culprits::fault::CulpritsFault;
use hack_load::context::Context;
use hack_metadata::metadata::PackageId;
use hack_plan::plan::Plan;
use hack_side::judge::Judge;
use std::alloc::Global;

/// What was found of a package, for a slot.
#[derive(Drop)]
pub struct Hunted {
    /// The slot, as an index into the targets.
    pub slot: usize,
    /// The package, as an index into the plan's.
    pub member: usize,
    /// Whether all that may be built is a plain run, which has the package's own default features.
    pub plain: bool,
    /// What was built for the least sets that fail.
    pub conflicts: Vec<Build>,
    /// What was built for the greatest sets that pass.
    pub passing: Vec<Build>,
    /// What was built for a set that failed though no conflict is known inside it. Only a search that
    /// isn't complete has one.
    pub unfinished: Option<Build>,
    /// Whether each set that may be chosen has a conflict inside it, or lies inside one that passed.
    pub complete: bool,
}

/// Searches among the sets of each package, slot after slot. At most `most_runs` runs are built in all,
/// if that is given.
///
/// # Errors
///
/// Those of the first search that was cut short, with which all ends.
pub fn hunt_all<R: Judge>(
    alloc: Global,
    cx: &Context,
    ids: &[PackageId],
    most_runs: Option<usize>,
    plan: &mut Plan,
    runner: &mut R,
) -> Result<Vec<Hunted>, CulpritsFault>
    requires ids { All (λ id. Contains (context_view cx.now).metadata.workspace_members id.index)
        ids.now }
    requires grows { CanGrow (length ids.now) plan.old }

    // Each package is searched in each slot, one after another, by its rules; the plan grows by just
    // the runs that the searches build, and these are handed out, in order. After an error the search
    // that was cut short is the last one. It is `Ended` just where a run was broken, after which none
    // was built. What is told of a search was run and ended so, and is in the order of a powerset.
    ensures { RanHunts R.ran R.ended (context_view cx.now) most_runs
        (spots_of (map place_at ids.now) (slots_in plan.old.call None)) (came_of result)
        plan.old plan.new runner.old runner.new }
{
    let spots = spots(alloc, ids, plan.slots())?;
    let mut found = Vec::new(alloc);
    for spot in &spots {
        let left = left_of(most_runs, plan.len());
        let one = hunt_one(alloc, cx, *spot, left, plan, runner)?;
        found.push(one)?;
    }
    Ok(found)
}

/// How many of the runs that are allowed are left after so many.
fn left_of(most_runs: Option<usize>, built: usize) -> Option<usize>
    ensures { result ≡ are_left most_runs built }
{
    match most_runs {
        Some(most) => Some(most.saturating_sub(built)),
        None => None,
    }
}
