//! The search of one package, for one slot.

ghost use Rattle.std.specs.Prelude.{◌≡◌, All, Contains, IfErr, IfOk, None, Option, true, ℕ};
ghost use Rattle.hack_closures.specs.View.{search_of};
ghost use Rattle.hack_conflicts.specs.Rules.{IsChoice, IsPreorder};
ghost use Rattle.hack_conflicts.specs.Runs.{Finding, IsFinding, finding_of};
ghost use Rattle.hack_conflicts.specs.Sets.{rows_of};
ghost use Rattle.hack_culprits.specs.Built.{HasRoom, IsCutShort, RanHunt};
ghost use Rattle.hack_features.specs.Feature.{groups_of};
ghost use Rattle.hack_features.specs.View.{choice_of};
ghost use Rattle.hack_load.specs.ContextView.{context_view};
ghost use Rattle.hack_load.specs.declared.features.Features.{Features as Loaded};
ghost use Rattle.hack_metadata.specs.RecordViews.{package_view};
ghost use Rattle.hack_planner.specs.Candidates.{candidates as are_candidates};
ghost use Rattle.hack_planner.specs.Kinds.{package_choice};
ghost use Rattle.hack_planner.specs.PackageRules.{rules_in};
ghost use Rattle.hack_hunt.specs.Internal.{EndsAmong, EndsSearched, RanAmong, RanSearched};
ghost use Rattle.hack_hunt.specs.Hunts.{AreBuiltFor, EndsAt, IsToldAs, IsUnfinishedAs, RanHuntAt};
ghost use Rattle.hack_hunt.specs.Hunts.{WereRun, searched};
ghost use Rattle.hack_hunt.specs.SpotView.{spot_view};

use crate::hunt::Hunted;
use crate::listed::is_plain;
use crate::order::sort_builds;
use crate::rules::{Ends, ends_for, rules_without_depth};
use crate::spots::Spot;
use hack_closures::{Build, Closures};
use hack_conflicts::Found;
use hack_culprits::aim::Aim;
use hack_culprits::culprits::find_culprits;
use hack_culprits::fault::CulpritsFault;
use hack_features::{Feature, Rules};
use hack_load::context::Context;
use hack_load::features::Features;
use hack_metadata::metadata::Package;
use hack_plan::plan::Plan;
use hack_planner::package_rules::PackageRules;
use hack_planner::parts::{all_of, candidates, rules_of};
use hack_side::judge::Judge;
use std::alloc::{AllocError, Global};

/// Searches among the sets of a package.
pub(crate) fn hunt_one<R: Judge>(
    alloc: Global,
    cx: &Context,
    spot: Spot,
    most_runs: Option<usize>,
    plan: &mut Plan,
    runner: &mut R,
) -> Result<Hunted, CulpritsFault>
    requires id { Contains (context_view cx.now).metadata.workspace_members spot.id.index }
    requires room { HasRoom spot.member plan.old }
    ensures hunted { IfOk result (λ hunted. RanHuntAt R.ran R.ended (context_view cx.now)
        (spot_view spot) most_runs hunted plan.old plan.new runner.old runner.new) }
    ensures fault { IfErr result (λ why. EndsAt R.ran R.ended (context_view cx.now)
        (spot_view spot) most_runs why plan.old plan.new runner.old runner.new) }
{
    let features = cx.pkg_features(spot.id);
    let pkg = cx.packages(spot.id);
    let unbound = rules_without_depth(alloc, cx, pkg, features)?;
    let candidates = candidates(alloc, &unbound, features)?;
    hunt_rules(
        alloc,
        spot,
        &unbound,
        pkg,
        features,
        &candidates,
        most_runs,
        plan,
        runner,
    )
}

/// Searches among the sets of these candidates of a package, or does its plain run.
fn hunt_rules<R: Judge>(
    alloc: Global,
    spot: Spot,
    asked: &PackageRules,
    pkg: &Package,
    features: &Features,
    candidates: &[Feature],
    most_runs: Option<usize>,
    plan: &mut Plan,
    runner: &mut R,
) -> Result<Hunted, CulpritsFault>
    requires depth { (rules_in asked.now).depth ≡ None }
    requires known { groups_of candidates.now ≡ are_candidates (rules_in asked.now) features.now }
    requires room { HasRoom spot.member plan.old }
    ensures hunted { IfOk result (λ hunted. RanSearched R.ran R.ended (rules_in asked.now)
        (package_view pkg.now) features.now (spot_view spot) most_runs hunted
        plan.old plan.new runner.old runner.new) }
    ensures fault { IfErr result (λ why. EndsSearched R.ran R.ended (rules_in asked.now)
        (package_view pkg.now) features.now (spot_view spot) most_runs why
        plan.old plan.new runner.old runner.new) }
{
    let all = all_of(alloc, candidates)?;
    let rules = rules_of(alloc, asked, pkg, all.as_slice())?;
    let plain = is_plain(alloc, asked, features, &rules)?;
    let ends = ends_for(asked, features, plain);
    if plain {
        hunt_plain(alloc, spot, asked, pkg, ends, most_runs, plan, runner)
    } else {
        hunt_among(alloc, spot, &rules, ends, most_runs, plan, runner)
    }
}

/// Does the plain run of a package: a search without candidates and at-least-one groups.
fn hunt_plain<R: Judge>(
    alloc: Global,
    spot: Spot,
    asked: &PackageRules,
    pkg: &Package,
    ends: Ends,
    most_runs: Option<usize>,
    plan: &mut Plan,
    runner: &mut R,
) -> Result<Hunted, CulpritsFault>
    requires depth { (rules_in asked.now).depth ≡ None }
    requires room { HasRoom spot.member plan.old }
    ensures hunted { (features : Loaded) → IfOk result (λ hunted. RanAmong R.ran R.ended
        (searched true (package_choice (rules_in asked.now) (package_view pkg.now) features)) ends
        (spot_view spot) most_runs hunted plan.old plan.new runner.old runner.new) }
    ensures fault { (features : Loaded) → IfErr result (λ why. EndsAmong R.ran R.ended
        (searched true (package_choice (rules_in asked.now) (package_view pkg.now) features)) ends
        (spot_view spot) most_runs why plan.old plan.new runner.old runner.new) }
{
    let exclusive = asked.exclusive.as_slice();
    let rules = Rules::new(alloc, &[], None, &[], exclusive, &pkg.features, &[])?;
    hunt_among(alloc, spot, &rules, ends, most_runs, plan, runner)
}

/// Searches among the sets that these rules list, and the runs at their ends.
fn hunt_among<R: Judge>(
    alloc: Global,
    spot: Spot,
    rules: &Rules<'_>,
    ends: Ends,
    most_runs: Option<usize>,
    plan: &mut Plan,
    runner: &mut R,
) -> Result<Hunted, CulpritsFault>
    requires depth { (choice_of rules.now).depth ≡ None }
    requires room { HasRoom spot.member plan.old }
    ensures hunted { IfOk result (λ hunted. RanAmong R.ran R.ended (choice_of rules.now) ends
        (spot_view spot) most_runs hunted plan.old plan.new runner.old runner.new) }
    ensures fault { IfErr result (λ why. EndsAmong R.ran R.ended (choice_of rules.now) ends
        (spot_view spot) most_runs why plan.old plan.new runner.old runner.new) }
{
    let closures = Closures::new(alloc, rules, ends.empty, ends.all)?;
    let aim = Aim {
        closures: &closures,
        slot: spot.slot,
        member: spot.member,
        plain: ends.plain,
    };
    hunt_aim(alloc, aim, most_runs, plan, runner)
}

/// Searches among the sets of a package, by its rules.
fn hunt_aim<R: Judge>(
    alloc: Global,
    aim: Aim<'_>,
    most_runs: Option<usize>,
    plan: &mut Plan,
    runner: &mut R,
) -> Result<Hunted, CulpritsFault>
    requires room { HasRoom aim.member plan.old }
    requires order { IsPreorder (search_of aim.closures.now) }
    ensures hunted { IfOk result (λ hunted. (finding : Finding)
        × (hunt : RanHunt R.ran R.ended aim.entry most_runs finding plan.old plan.new
        runner.old runner.new) × IsToldAs aim.entry finding hunted
        × WereRun aim.entry hunt.made hunted) }
    ensures fault { IfErr result (λ why. IsCutShort R.ran R.ended aim.entry most_runs why
        plan.old plan.new runner.old runner.new) }
{
    let found = find_culprits(alloc, aim, most_runs, plan, runner)?;
    match told(alloc, aim, &found) {
        Ok(hunted) => Ok(hunted),
        Err(_) => Err(CulpritsFault::Memory),
    }
}

/// What is reported of what a search found.
fn told(alloc: Global, aim: Aim<'_>, found: &Found) -> Result<Hunted, AllocError>
    requires { (most : Option ℕ)
        × IsFinding (search_of aim.closures.now) most (finding_of found.now) }
    ensures { IfOk result (IsToldAs aim.entry (finding_of found.now)) }
{
    let closures = aim.closures;
    Ok(Hunted {
        slot: aim.slot,
        member: aim.member,
        plain: aim.plain,
        conflicts: builds_of(alloc, closures, found.conflicts.as_slice())?,
        passing: builds_of(alloc, closures, found.passing.as_slice())?,
        unfinished: unfinished_in(alloc, closures, found)?,
        complete: found.complete,
    })
}

/// What was built for the set that a search left unfinished.
fn unfinished_in(
    alloc: Global,
    closures: &Closures<'_>,
    found: &Found,
) -> Result<Option<Build>, AllocError>
    requires { (most : Option ℕ)
        × IsFinding (search_of closures.now) most (finding_of found.now) }
    ensures { IfOk result (IsUnfinishedAs closures.now (finding_of found.now)) }
{
    match found.unfinished() {
        Some(place) => {
            let set = found.runs[place].set.as_slice();
            Ok(Some(closures.build_of(alloc, set)?))
        }
        None => Ok(None),
    }
}

/// What was built for each of the sets, which may be chosen, in the order of a powerset.
fn builds_of(
    alloc: Global,
    closures: &Closures<'_>,
    sets: &[Vec<bool>],
) -> Result<Vec<Build>, AllocError>
    ensures { IfOk result (λ builds.
        All (IsChoice (search_of closures.now)) (rows_of sets.now)
        → AreBuiltFor closures.now (rows_of sets.now) builds.items) }
{
    let mut builds = Vec::with_capacity(alloc, sets.len())?;
    for set in sets {
        builds.push(closures.build_of(alloc, set.as_slice())?)?;
    }
    sort_builds(&mut builds)?;
    Ok(builds)
}
