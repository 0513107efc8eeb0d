//! The plan with which a search for conflicts begins: the chosen packages without runs, which the
//! search adds.

ghost use Rattle.std.specs.Prelude.{◌≡◌, ◌⊎◌, All, Contains, IfErr, IfOk, IsSome, length, map, true};
ghost use Rattle.std.specs.List.{AllZip, flat_map};
ghost use Rattle.hack_base.specs.Notes.{note_of};
ghost use Rattle.hack_load.specs.ContextView.{context_view};
ghost use Rattle.hack_metadata.specs.RecordViews.{place_at};
ghost use Rattle.hack_plan.specs.View.{call_view, plan_package_view};
ghost use Rattle.hack_planner.specs.Calls.{candidate_notes_at};
ghost use Rattle.hack_planner.specs.CallPlan.{IsPackagesCause};
ghost use Rattle.hack_hunt.specs.Hunts.{spots_of};
ghost use Rattle.hack_hunt.specs.Searched.{left_out_notes};
ghost use Rattle.hack_hunt.specs.Searched.{CanGrow, IsSearchPlan, IsSearchPlanOf, IsSearchedPackage};

use crate::spots::spots;
use hack_base::copies::copies;
use hack_base::notice::Notice;
use hack_load::context::Context;
use hack_load::process::features_for;
use hack_metadata::metadata::PackageId;
use hack_plan::parts::{CommandParts, PlanPackage};
use hack_plan::plan::Plan;
use hack_plan::runs::Runs;
use hack_planner::fault::PlanFault;
use hack_planner::package_rules::PackageRules;
use hack_planner::parts::{call_words, candidates, chosen_list, given_path, notes_of};
use std::alloc::{AllocError, Global};

/// What a search for conflicts begins with.
#[derive(Drop)]
pub struct SearchPlan {
    /// The plan without a place, whose packages have no run.
    pub plan: Plan,
    /// The packages, in the plan's order.
    pub ids: Vec<PackageId>,
    pub notices: Vec<Notice>,
}

/// The plan with which a search for conflicts begins; without a subcommand it has no package. `rustup`
/// is the program to run as rustup.
///
/// # Errors
///
/// Those of `plan_of` on the chosen packages and on tables of rules.
pub fn search_plan_of(alloc: Global, cx: &Context, rustup: &str) -> Result<SearchPlan, PlanFault>
    ensures ok { IfOk result (λ made. IsSearchPlanOf (context_view cx.now).args.subcommand
        (context_view cx.now) rustup.now made.plan (map place_at made.ids.items)
        (map note_of made.notices.items)) }
    ensures members { IfOk result (λ made.
        All (λ id. Contains (context_view cx.now).metadata.workspace_members id.index)
        made.ids.items) }
    ensures grows { IfOk result (λ made. CanGrow (length made.ids.items) made.plan) }
    ensures err { IfErr result (λ e. (e ≡ PlanFault.Memory)
        ⊎ (IsSome (context_view cx.now).args.subcommand
        × IsPackagesCause (context_view cx.now) e)) }
{
    let mut words = call_words(alloc, cx, rustup)?;
    words.grows = true;
    if cx.args().subcommand.is_none() {
        return Ok(SearchPlan {
            plan: Plan::without_places(alloc, words, Vec::new(alloc))?,
            ids: Vec::new(alloc),
            notices: Vec::new(alloc),
        });
    }
    search_plan_by(alloc, cx, words)
}

/// The plan of a call with a subcommand, whose commands have these parts.
fn search_plan_by(alloc: Global, cx: &Context, words: CommandParts) -> Result<SearchPlan, PlanFault>
    requires { (call_view words).grows ≡ true }
    ensures ok { IfOk result (λ made. IsSearchPlan (context_view cx.now) (call_view words)
        made.plan (map place_at made.ids.items) (map note_of made.notices.items)) }
    ensures members { IfOk result (λ made.
        All (λ id. Contains (context_view cx.now).metadata.workspace_members id.index)
        made.ids.items) }
    ensures grows { IfOk result (λ made. CanGrow (length made.ids.items) made.plan) }
    ensures err { IfErr result (λ e. (e ≡ PlanFault.Memory)
        ⊎ IsPackagesCause (context_view cx.now) e) }
{
    let (list, mut notices) = chosen_list(alloc, cx)?;
    let ids = list.ids;
    let (packages, mut on_features) = searched_packages(alloc, cx, ids.as_slice(), list.is_single)?;
    notices.append(&mut on_features)?;
    let plan = Plan::without_places(alloc, words, packages)?;
    let mut on_runs = left_out(alloc, cx, ids.as_slice(), plan.slots())?;
    notices.append(&mut on_runs)?;
    Ok(SearchPlan { plan, ids, notices })
}

/// The notices on features that the runs of packages don't get, for each slot and package.
fn left_out(
    alloc: Global,
    cx: &Context,
    ids: &[PackageId],
    slots: usize,
) -> Result<Vec<Notice>, AllocError>
    requires { All (λ id. Contains (context_view cx.now).metadata.workspace_members id.index)
        ids.now }
    ensures { IfOk result (λ notices. map note_of notices.items
        ≡ left_out_notes (context_view cx.now) (spots_of (map place_at ids.now) slots)) }
{
    let mut notices = Vec::new(alloc);
    for spot in &spots(alloc, ids, slots)? {
        let (_, mut told) = features_for(alloc, cx, spot.id)?;
        notices.append(&mut told)?;
    }
    Ok(notices)
}

/// The packages, in order, with the notices on their features. `single` says whether a single one
/// remains after exclusions.
fn searched_packages(
    alloc: Global,
    cx: &Context,
    ids: &[PackageId],
    single: bool,
) -> Result<(Vec<PlanPackage>, Vec<Notice>), PlanFault>
    requires { All (λ id. Contains (context_view cx.now).metadata.workspace_members id.index)
        ids.now }
    ensures ok { IfOk result (λ answer. AllZip (IsSearchedPackage (context_view cx.now))
        (map place_at ids.now) (map plan_package_view answer.0.items)) }
    ensures notes { IfOk result (λ answer. map note_of answer.1.items
        ≡ flat_map (candidate_notes_at (context_view cx.now) single) (map place_at ids.now)) }
    ensures err { IfErr result (λ e. e ≡ PlanFault.Memory) }
{
    let mut packages = Vec::with_capacity(alloc, ids.len())?;
    let mut notices = Vec::new(alloc);
    for id in ids {
        let (package, mut told) = searched_package(alloc, cx, *id, single)?;
        packages.push(package)?;
        notices.append(&mut told)?;
    }
    Ok((packages, notices))
}

/// A package without a run, with the notices on its features.
fn searched_package(
    alloc: Global,
    cx: &Context,
    id: PackageId,
    single: bool,
) -> Result<(PlanPackage, Vec<Notice>), PlanFault>
    requires { Contains (context_view cx.now).metadata.workspace_members id.index }
    ensures ok { IfOk result (λ answer.
        IsSearchedPackage (context_view cx.now) id.index (plan_package_view answer.0)) }
    ensures notes { IfOk result (λ answer. map note_of answer.1.items
        ≡ candidate_notes_at (context_view cx.now) single id.index) }
    ensures err { IfErr result (λ e. e ≡ PlanFault.Memory) }
{
    let features = cx.pkg_features(id);
    let pkg = cx.packages(id);
    let args = cx.args();
    let asked = PackageRules::of(alloc, cx, pkg, features)?;
    let notices = notes_of(alloc, args, &asked, pkg, features, single)?;
    let candidates = candidates(alloc, &asked, features)?;
    let (given, _) = features_for(alloc, cx, id)?;
    let features = copies(alloc, given.as_slice())?;
    let planned = PlanPackage {
        name: String::from_str(alloc, pkg.name.as_str())?,
        manifest_path: given_path(alloc, args.no_manifest_path, cx.current_dir(), Some(pkg))?,
        features,
        candidates,
        runs: Runs::none(alloc)?,
        settings: Vec::new(alloc),
    };
    Ok((planned, notices))
}
