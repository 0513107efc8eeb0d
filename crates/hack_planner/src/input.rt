//! The input of a plan's versions and places, from what was loaded.

ghost use Rattle.std.specs.Prelude.{◌≡◌, ◌⊎◌, ◌↔◌, All, Contains, IfOk, IfErr, IsTrue, map};
ghost use Rattle.hack_metadata.specs.RecordViews.{place_at};
ghost use Rattle.hack_load.specs.ContextView.{context_view};
ghost use Rattle.hack_load.specs.Contexts.{rust_version_at};
ghost use Rattle.hack_rules.specs.declared.uses.behavior.WorkspaceBehavior.TheVariants.{Cargo};
ghost use Rattle.std.specs.List.{AllZip};
ghost use Rattle.hack_planner.specs.Calls.{IsOwn, IsBadOwn, IsMember, IsInputOf, HasBadOwn};
ghost use Rattle.hack_planner.specs.Internal.{IsOwnFault};

use crate::fault::{PlanFault, of_version};
use hack_load::context::Context;
use hack_metadata::metadata::PackageId;
use hack_plan::versions::PlanInput;
use hack_versions::rustup::PackageVersion;
use hack_versions::version::{Version, VersionFault};
use hack_words::cli::WorkspaceBehavior;
use std::alloc::Global;

/// The own version of a chosen package, which is read only where a range of versions is given.
fn own_version(alloc: Global, cx: &Context, id: PackageId) -> Result<Option<Version>, VersionFault>
    requires { Contains (context_view cx.now).metadata.workspace_members id.index }
    ensures ok { IfOk result (IsOwn (context_view cx.now).args.version_range
        (rust_version_at (context_view cx.now) id.index)) }
    ensures never { IfOk result (λ _. (e : VersionFault)
        → ¬ IsBadOwn (context_view cx.now).args.version_range
        (rust_version_at (context_view cx.now) id.index) e) }
    ensures err { IfErr result (λ e. (e ≡ VersionFault.Memory)
        ⊎ IsBadOwn (context_view cx.now).args.version_range
        (rust_version_at (context_view cx.now) id.index) e) }
{
    if cx.args().version_range.is_none() {
        return Ok(None);
    }
    match cx.rust_version(id) {
        Some(text) => match Version::parse(alloc, text) {
            Ok(version) => Ok(Some(version)),
            Err(fault) => Err(fault),
        },
        None => Ok(None),
    }
}

/// A chosen package, with its own version.
fn member(alloc: Global, cx: &Context, id: PackageId) -> Result<PackageVersion, VersionFault>
    requires { Contains (context_view cx.now).metadata.workspace_members id.index }
    ensures ok { IfOk result (IsMember (context_view cx.now) id.index) }
    ensures never { IfOk result (λ _. (e : VersionFault)
        → ¬ IsBadOwn (context_view cx.now).args.version_range
        (rust_version_at (context_view cx.now) id.index) e) }
    ensures err { IfErr result (λ e. (e ≡ VersionFault.Memory)
        ⊎ IsBadOwn (context_view cx.now).args.version_range
        (rust_version_at (context_view cx.now) id.index) e) }
{
    let rust_version = own_version(alloc, cx, id)?;
    Ok(PackageVersion {
        name: String::from_str(alloc, cx.packages(id).name.as_str())?,
        rust_version,
    })
}

/// The chosen packages, in order.
fn members(alloc: Global, cx: &Context, ids: &[PackageId]) -> Result<Vec<PackageVersion>, PlanFault>
    requires { All (λ id. Contains (context_view cx.now).metadata.workspace_members id.index)
        ids.now }
    ensures ok { IfOk result (λ members.
        AllZip (IsMember (context_view cx.now)) (map place_at ids.now) members.items) }
    ensures never { IfOk result (λ _. (e : VersionFault)
        → ¬ HasBadOwn (context_view cx.now) (map place_at ids.now) e) }
    ensures err { IfErr result (λ e. (e ≡ PlanFault.Memory)
        ⊎ IsOwnFault (context_view cx.now) (map place_at ids.now) e) }
{
    let mut members = Vec::with_capacity(alloc, ids.len())?;
    for id in ids {
        match member(alloc, cx, *id) {
            Ok(member) => members.push(member)?,
            Err(fault) => return Err(of_version(fault)),
        }
    }
    Ok(members)
}

/// The input of a plan's versions and places.
pub(crate) fn input(alloc: Global, cx: &Context, ids: &[PackageId]) -> Result<PlanInput, PlanFault>
    requires { All (λ id. Contains (context_view cx.now).metadata.workspace_members id.index)
        ids.now }
    ensures ok { IfOk result (IsInputOf (context_view cx.now) (map place_at ids.now)) }
    ensures never { IfOk result (λ _. (e : VersionFault)
        → ¬ HasBadOwn (context_view cx.now) (map place_at ids.now) e) }
    ensures err { IfErr result (λ e. (e ≡ PlanFault.Memory)
        ⊎ IsOwnFault (context_view cx.now) (map place_at ids.now) e) }
{
    let packages = match members(alloc, cx, ids) {
        Ok(packages) => packages,
        Err(fault) => return Err(fault),
    };
    let args = cx.args();
    Ok(PlanInput {
        range: args.version_range,
        step: args.version_step,
        as_cargo: is_cargo(args.workspace_behavior),
        targets: args.target.len(),
        cargo_minor: cx.cargo_minor(),
        packages,
    })
}

/// Whether one run is for all packages.
fn is_cargo(behavior: WorkspaceBehavior) -> bool
    ensures { IsTrue result ↔ (behavior ≡ Cargo) }
{
    behavior == WorkspaceBehavior::Cargo
}
