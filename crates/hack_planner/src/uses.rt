//! Which of the chosen packages use a version. The others have no place in the plan, so no set of their
//! features is made.

ghost use Rattle.std.specs.Prelude.{◌≡◌, ◌↔◌, All, IfOk, IsTrue, map};
ghost use Rattle.hack_load.specs.Contexts.{ContextRecord};
ghost use Rattle.hack_metadata.specs.RecordViews.{place_at};
ghost use Rattle.hack_plan.specs.Inputs.{AreVersionsOf};
ghost use Rattle.hack_planner.specs.Calls.{IsInputOf};
ghost use Rattle.hack_planner.specs.InternalUses.{InGroups, InSome, IsRight, id_of};

use hack_metadata::metadata::PackageId;
use hack_plan::versions::{PlanInput, Versions};
use hack_versions::rustup::VersionGroup;
use std::alloc::{AllocError, Global};

/// A chosen package.
#[derive(Clone, Copy)]
pub(crate) struct Chosen {
    pub id: PackageId,
    /// Whether it uses a version. Without a range each package does.
    pub is_used: bool,
}

/// The chosen packages, each with whether it uses a version.
pub(crate) fn with_uses(
    alloc: Global,
    ids: &[PackageId],
    input: &PlanInput,
    versions: &Versions,
) -> Result<Vec<Chosen>, AllocError>
    requires { AreVersionsOf input.now versions.now }
    ensures same { IfOk result (λ chosen. map id_of chosen.items ≡ map place_at ids.now) }
    ensures right { (cx : ContextRecord) → IsInputOf cx (map place_at ids.now) input.now
        → IfOk result (λ chosen. All (IsRight cx input.now versions.now.stable) chosen.items) }
{
    let mut chosen = Vec::with_capacity(alloc, ids.len())?;
    for id in ids {
        let is_used = is_used(input, versions, chosen.len());
        chosen.push(Chosen { id: *id, is_used })?;
    }
    Ok(chosen)
}

/// Whether the package at an index into the chosen ones uses a version.
fn is_used(input: &PlanInput, versions: &Versions, place: usize) -> bool
    ensures { IsTrue result ↔ InGroups input.now.range versions.now.groups.items place }
{
    match input.range {
        Some(_) => one_has(versions.groups.as_slice(), place),
        None => true,
    }
}

/// Whether one of the versions has the package.
fn one_has(groups: &[VersionGroup], place: usize) -> bool
    ensures { IsTrue result ↔ InSome groups.now place }
{
    groups.iter().any(|group| group.packages.contains(&place))
}
