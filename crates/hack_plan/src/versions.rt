//! The input of a plan, and the versions that its packages use. Numbers of runs aren't needed here,
//! so that a bad range is refused before any set of features is made.

ghost use Rattle.std.specs.Prelude.{◌≡◌, ◌≢◌, ◌⊎◌, ◌↔◌, IfOk, IfErr, IsTrue, IsSome, IfSome};
ghost use Rattle.std.specs.Prelude.{Contains, map};
ghost use Rattle.hack_versions.specs.RangeSteps.{NeedsStable};
ghost use Rattle.hack_versions.specs.VersionUses.{own_of};
ghost use Rattle.hack_base.specs.Notes.{note_of};
ghost use Rattle.hack_plan.specs.Inputs.{HaveTwo, AreVersions, AreVersionsOf, AreNotices};
ghost use Rattle.hack_plan.specs.Inputs.{IsVersionsFault};
ghost use Rattle.hack_versions.specs.declared.group.PackageVersion.{PackageVersion as Member};

use hack_base::notice::Notice;
use hack_versions::rustup::{
    PackageVersion, RangeFault, VersionGroup, group_by_version, version_range,
};
use hack_versions::version::{Version, VersionRange};
use std::alloc::{AllocError, Global};

/// The input of a plan, except for the numbers of runs.
#[derive(Drop)]
pub struct PlanInput {
    /// The range of `--version-range` or `--rust-version`.
    pub range: Option<VersionRange>,
    /// The step of `--version-step`.
    pub step: u16,
    /// Whether one run is for all packages, as under `--workspace-behavior=cargo`.
    pub as_cargo: bool,
    /// The number of different targets.
    pub targets: usize,
    /// Cargo's own minor version, 0 where it isn't known.
    pub cargo_minor: u32,
    /// The chosen packages, in order.
    pub packages: Vec<PackageVersion>,
}

/// The versions that the packages of an input use.
#[derive(Drop)]
pub struct Versions {
    /// The version of the toolchain `stable`, where one was asked for.
    pub stable: Option<Version>,
    /// Each version with its packages; none without a range.
    pub groups: Vec<VersionGroup>,
}

impl Versions {
    /// The versions, with notices on patch numbers in the range and on packages that it skips.
    /// `stable` is the version of the toolchain `stable`.
    pub fn new(
        alloc: Global,
        input: &PlanInput,
        stable: Option<Version>,
    ) -> Result<(Versions, Vec<Notice>), RangeFault>
        requires { IfSome input.now.range (λ range. NeedsStable range → IsSome stable) }
        ensures ok { IfOk result (λ answer. AreVersionsOf input.now answer.0) }
        ensures stable { IfOk result (λ answer. answer.0.stable ≡ stable) }
        ensures notices { IfOk result (λ answer. AreNotices input.now.range input.now stable
            (map note_of answer.1.items)) }
        ensures never { IfOk result (λ _. (e : RangeFault)
            → ¬ IsVersionsFault input.now.range input.now stable e) }
        ensures err { IfErr result (λ e. (e ≡ RangeFault.Memory)
            ⊎ IsVersionsFault input.now.range input.now stable e) }
    {
        match input.range {
            None => Ok((
                Versions {
                    stable,
                    groups: Vec::new(alloc),
                },
                Vec::new(alloc),
            )),
            Some(range) => in_range(alloc, input, range, stable),
        }
    }
}

/// The versions of a range.
fn in_range(
    alloc: Global,
    input: &PlanInput,
    range: VersionRange,
    stable: Option<Version>,
) -> Result<(Versions, Vec<Notice>), RangeFault>
    requires some { input.now.range ≡ Some range }
    requires stable { NeedsStable range → IsSome stable }
    ensures ok { IfOk result (λ answer. AreVersions (Some range) input.now answer.0.stable
        answer.0.groups.items) }
    ensures stable { IfOk result (λ answer. answer.0.stable ≡ stable) }
    ensures notices { IfOk result (λ answer. AreNotices (Some range) input.now stable
        (map note_of answer.1.items)) }
    ensures never { IfOk result (λ _. (e : RangeFault)
        → ¬ IsVersionsFault (Some range) input.now stable e) }
    ensures err { IfErr result (λ e. (e ≡ RangeFault.Memory)
        ⊎ IsVersionsFault (Some range) input.now stable e) }
{
    let owns = owns_of(alloc, &input.packages)?;
    let (steps, mut notices) = version_range(alloc, range, input.step, &owns, stable)?;
    if input.as_cargo && have_two(&input.packages) {
        return Err(RangeFault::SingleMsrv);
    }
    let (groups, mut skips) = match group_by_version(alloc, range, &steps, &input.packages) {
        Ok(answer) => answer,
        Err(fault) => return Err(fault),
    };
    notices.append(&mut skips)?;
    Ok((Versions { stable, groups }, notices))
}

/// The own versions as the manifests give them.
fn owns_of(alloc: Global, packages: &[PackageVersion]) -> Result<Vec<Option<Version>>, AllocError>
    ensures { IfOk result (λ owns. owns.items ≡ map (λ member. member.rust_version) packages.now) }
{
    packages
        .iter()
        .map(|member| member.rust_version)
        .collect(alloc)
}

/// A package's own version: its `rust-version` without the patch number.
fn own(member: &PackageVersion) -> Option<Version>
    ensures { result ≡ own_of member.now }
{
    member.rust_version.map(|version| version.strip_patch())
}

fn is_other(member: &PackageVersion, head: &PackageVersion) -> bool
    ensures { IsTrue result ↔ own_of member.now ≢ own_of head.now }
{
    own(member) != own(head)
}

/// Whether some package's own version differs from this one's.
fn differs(packages: &[PackageVersion], head: &PackageVersion) -> bool
    ensures { IsTrue result ↔ ((member : Member) × Contains packages.now member
        × (own_of member ≢ own_of head.now)) }
{
    for member in packages {
        if is_other(member, head) {
            return true;
        }
    }
    false
}

/// Whether two packages have different own versions.
fn have_two(packages: &[PackageVersion]) -> bool
    ensures { IsTrue result ↔ HaveTwo packages.now }
{
    match packages.first() {
        Some(head) => differs(packages, head),
        None => false,
    }
}
