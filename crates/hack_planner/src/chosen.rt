//! The chosen packages, as a plan needs them.

ghost use Rattle.std.specs.Prelude.{◌≡◌, ◌⊎◌, [], All, Contains, IfErr, IfOk, IsTrue, None, Some};
ghost use Rattle.std.specs.Prelude.{false, map, true};
ghost use Rattle.std.specs.List.{AllZip, flat_map};
ghost use Rattle.hack_base.specs.Notes.{note_of};
ghost use Rattle.hack_features.specs.Feature.{groups_of};
ghost use Rattle.hack_load.specs.ContextView.{context_view};
ghost use Rattle.hack_metadata.specs.RecordViews.{package_view};
ghost use Rattle.hack_plan.specs.Inputs.{AreVersionsOf};
ghost use Rattle.hack_plan.specs.RunsView.{runs_in};
ghost use Rattle.hack_plan.specs.View.{plan_package_view};
ghost use Rattle.hack_samples.specs.Sets.{rows_of};
ghost use Rattle.hack_planner.specs.Calls.{candidate_notes_at};
ghost use Rattle.hack_planner.specs.Internal.{SaysNoSample, HasRunsFault};
ghost use Rattle.hack_planner.specs.InternalLeastPlaces.{AreOver, HasAtLeast, HasRunsAtLeast};
ghost use Rattle.hack_planner.specs.InternalLeastPlaces.{IsOver};
ghost use Rattle.hack_planner.specs.InternalUses.{IsCoveredAs, IsPlannedAs, id_of};
ghost use Rattle.hack_planner.specs.Kinds.{AreCovering, AreRunSettings, package_choice};
ghost use Rattle.hack_planner.specs.KindsView.{IsKind, IsRunsFault, candidates_in, runs_of};
ghost use Rattle.hack_planner.specs.PackageRules.{rules_in};

use crate::fault::{PlanFault, RunsFault};
use crate::kind::{Kind, kind_of};
use crate::least_places::Limit;
use crate::package_rules::PackageRules;
use crate::tables::notes_of;
use crate::uses::Chosen;
use crate::words::given_path;
use hack_base::copies::copies;
use hack_base::notice::Notice;
use hack_features::Feature;
use hack_load::context::Context;
use hack_load::features::Features;
use hack_load::process::features_for;
use hack_metadata::metadata::Package;
use hack_plan::parts::PlanPackage;
use hack_plan::runs::Runs;
use hack_plan::versions::{PlanInput, Versions};
use std::alloc::{AllocError, Global};

/// The candidates and the runs of a kind.
fn parts_of(alloc: Global, kind: Kind) -> Result<(Vec<Feature>, Runs), AllocError>
    ensures candidates { IfOk result (λ parts. groups_of parts.0.items ≡ candidates_in kind) }
    ensures runs { IfOk result (λ parts. runs_in parts.1 ≡ runs_of kind) }
{
    match kind {
        Kind::Normal => Ok((Vec::new(alloc), Runs::plain(alloc)?)),
        Kind::Each { candidates, runs } => Ok((candidates, runs)),
        Kind::Powerset { candidates, runs } => Ok((candidates, runs)),
    }
}

/// How a chosen package runs, and with a strength the rows of its runs. Where it isn't used it gets a
/// plain run, for which the plan has no place.
fn kind_for(
    alloc: Global,
    asked: &PackageRules,
    one: Chosen,
    pkg: &Package,
    features: &Features,
    limit: Limit<'_>,
) -> Result<Result<(Kind, Vec<Vec<bool>>), usize>, RunsFault>
    requires { AreVersionsOf limit.input.now limit.versions.now }
    ensures kind { IsTrue one.is_used → IfOk result (λ listed. IfOk listed (λ made.
        IsKind (rules_in asked.now) (package_view pkg.now) features.now made.0)) }
    ensures covered { IsTrue one.is_used → IfOk result (λ listed. IfOk listed (λ made.
        asked.now.feature_powerset ≡ true → asked.now.strength ≡ None
        → AreCovering (rules_in asked.now) (package_view pkg.now) features.now (runs_of made.0))) }
    ensures settings { IsTrue one.is_used → IfOk result (λ listed. IfOk listed (λ made.
        AreRunSettings asked.now.strength
        (package_choice (rules_in asked.now) (package_view pkg.now) features.now)
        (runs_of made.0) (rows_of made.1.items))) }
    ensures unused { one.is_used ≡ false → IfOk result (λ listed. IfOk listed (λ made.
        (made.0 ≡ Kind.Normal) × (rows_of made.1.items ≡ []))) }
    ensures over { IfOk result (λ listed. IfErr listed (λ least. IsTrue one.is_used
        × HasRunsAtLeast (rules_in asked.now) (package_view pkg.now) features.now least
        × IsOver (Some limit.entry) least)) }
    ensures err { IfErr result (λ e. (e ≡ RunsFault.Memory) ⊎ (IsTrue one.is_used
        × IsRunsFault (rules_in asked.now) (package_view pkg.now) features.now e)) }
{
    if one.is_used {
        return kind_of(alloc, asked, pkg, features, Some(limit));
    }
    Ok(Ok((Kind::Normal, Vec::new(alloc))))
}

/// A chosen package, with the notices on its features; or how many runs it has at least, if they are
/// too many beside those of the packages before.
fn chosen_package(
    alloc: Global,
    cx: &Context,
    one: Chosen,
    single: bool,
    limit: Limit<'_>,
) -> Result<Result<(PlanPackage, Vec<Notice>), usize>, PlanFault>
    requires member { Contains (context_view cx.now).metadata.workspace_members one.id.index }
    requires versions { AreVersionsOf limit.input.now limit.versions.now }
    ensures ok { IfOk result (λ listed. IfOk listed (λ answer.
        IsPlannedAs (context_view cx.now) one (plan_package_view answer.0))) }
    ensures coverage { IfOk result (λ listed. IfOk listed (λ answer.
        IsCoveredAs (context_view cx.now) one (plan_package_view answer.0))) }
    ensures notes { IfOk result (λ listed. IfOk listed (λ answer. map note_of answer.1.items
        ≡ candidate_notes_at (context_view cx.now) single one.id.index)) }
    ensures over { IfOk result (λ listed. IfErr listed (λ least.
        HasAtLeast (context_view cx.now) one least × IsOver (Some limit.entry) least)) }
    ensures err { IfErr result (λ e. (e ≡ PlanFault.Memory)
        ⊎ (IsTrue one.is_used × SaysNoSample (context_view cx.now) one.id.index e)) }
{
    let features = cx.pkg_features(one.id);
    let pkg = cx.packages(one.id);
    let args = cx.args();
    let asked = PackageRules::of(alloc, cx, pkg, features)?;
    let (kind, settings) = match kind_for(alloc, &asked, one, pkg, features, limit) {
        Ok(Ok(made)) => made,
        Ok(Err(least)) => return Ok(Err(least)),
        Err(RunsFault::Memory) => return Err(PlanFault::Memory),
        Err(RunsFault::TooManyQuestions(tally)) => {
            let name = String::from_str(alloc, pkg.name.as_str())?;
            return Err(PlanFault::TooManyQuestions(name, tally));
        }
    };
    let notices = notes_of(alloc, args, &asked, pkg, features, single)?;
    let (candidates, runs) = parts_of(alloc, kind)?;
    let (given, _) = features_for(alloc, cx, one.id)?;
    let features = copies(alloc, given.as_slice())?;
    let hidden = args.no_manifest_path;
    let planned = PlanPackage {
        name: String::from_str(alloc, pkg.name.as_str())?,
        manifest_path: given_path(alloc, hidden, cx.current_dir(), Some(pkg))?,
        features,
        candidates,
        runs,
        settings,
    };
    Ok(Ok((planned, notices)))
}

/// The chosen packages, in order, with the notices on their features. `single` says whether a
/// single one remains after exclusions. Where the runs of a package are too many beside those before,
/// they are only counted, and the call is refused in the end.
pub(crate) fn chosen_packages(
    alloc: Global,
    cx: &Context,
    chosen: &[Chosen],
    input: &PlanInput,
    versions: &Versions,
    single: bool,
) -> Result<(Vec<PlanPackage>, Vec<Notice>), PlanFault>
    requires members { All (λ one. Contains (context_view cx.now).metadata.workspace_members
        one.id.index) chosen.now }
    requires versions { AreVersionsOf input.now versions.now }
    ensures ok { IfOk result (λ answer. AllZip (IsPlannedAs (context_view cx.now))
        chosen.now (map plan_package_view answer.0.items)) }
    ensures coverage { IfOk result (λ answer. AllZip (IsCoveredAs (context_view cx.now))
        chosen.now (map plan_package_view answer.0.items)) }
    ensures notes { IfOk result (λ answer. map note_of answer.1.items
        ≡ flat_map (candidate_notes_at (context_view cx.now) single) (map id_of chosen.now)) }
    ensures err { IfErr result (λ e. (e ≡ PlanFault.Memory)
        ⊎ (HasRunsFault (context_view cx.now) chosen.now e ⊎ ((e ≡ PlanFault.TooManyRuns)
        × AreOver (context_view cx.now) chosen.now input.now versions.now.stable))) }
{
    let mut packages = Vec::with_capacity(alloc, chosen.len())?;
    let mut notices = Vec::new(alloc);
    let mut counts = Vec::with_capacity(alloc, chosen.len())?;
    let mut fits = true;
    for one in chosen {
        let limit = Limit {
            input,
            versions,
            counts: counts.as_slice(),
        };
        let (package, mut told) = match chosen_package(alloc, cx, *one, single, limit) {
            Ok(Ok(answer)) => answer,
            Ok(Err(least)) => {
                counts.push(least)?;
                fits = false;
                continue;
            }
            Err(fault) => return Err(fault),
        };
        counts.push(package.runs.len())?;
        packages.push(package)?;
        notices.append(&mut told)?;
    }
    if !fits {
        return Err(PlanFault::TooManyRuns);
    }
    Ok((packages, notices))
}
