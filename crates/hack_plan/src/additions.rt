//! The parts of a plan that grow: the runs of its packages, and its last version.

ghost use Rattle.std.specs.Prelude.{◌≡◌, ◌<◌, ◌-◌, IfOk, OnOk, length, map};
ghost use Rattle.hack_plan.specs.AddedRuns.{added_run};
ghost use Rattle.hack_plan.specs.View.{plan_package_view};
ghost use Rattle.hack_plan.specs.Growth.{count_at, with_changed, with_one_run};
ghost use Rattle.hack_plan.specs.InternalRuns.{HasRoomAt, with_end};

use crate::parts::{PlanPackage, PlanVersion};
use crate::runs::Added;
use std::alloc::AllocError;

/// Makes room for one run more of the package at an index, and returns how many it has.
pub(crate) fn reserve_run(packages: &mut Vec<PlanPackage>, at: usize) -> Result<usize, AllocError>
    requires { at < length packages.old.items }
    ensures same { map plan_package_view packages.new.items
        ≡ map plan_package_view packages.old.items }
    ensures room { OnOk result (HasRoomAt packages.new.items at) }
    ensures rank { IfOk result (λ rank.
        rank ≡ count_at (map plan_package_view packages.old.items) at) }
{
    let member = &mut packages[at];
    member.runs.reserve()?;
    Ok(member.runs.len())
}

/// Appends a run to those of the package at an index, where there is room for it.
pub(crate) fn add_run(packages: &mut Vec<PlanPackage>, at: usize, run: Added)
    requires { HasRoomAt packages.old.items at }
    ensures { map plan_package_view packages.new.items ≡ with_changed
        (with_one_run (added_run run)) (map plan_package_view packages.old.items) at }
{
    packages[at].runs.add(run).unwrap();
}

/// Makes the last version end at a place.
pub(crate) fn end_last(versions: &mut Vec<PlanVersion>, end: usize)
    ensures { versions.new.items
        ≡ with_changed (with_end end) versions.old.items (length versions.old.items - 1) }
{
    if let Some(last) = versions.last_mut() {
        last.end = end;
    }
}
