//! The plan of a call: what is run, in order, given what was loaded.

ghost use Rattle.std.specs.Prelude.{◌≡◌, ◌≢◌, ◌⊎◌, ◌++◌, All, Contains, IfOk, IfErr, IfSome, IsSome, map};
ghost use Rattle.std.specs.Prelude.{List, ℕ, None, true};
ghost use Rattle.hack_metadata.specs.RecordViews.{place_at};
ghost use Rattle.hack_load.specs.ContextView.{context_view};
ghost use Rattle.hack_planner.specs.ContextMembers.{AreChosen, IsChoiceFault};
ghost use Rattle.hack_base.specs.Notes.{note_of};
ghost use Rattle.hack_versions.specs.RangeSteps.{NeedsStable};
ghost use Rattle.hack_rules.specs.declared.uses.behavior.WorkspaceBehavior.TheVariants.{Cargo};
ghost use Rattle.hack_plan.specs.Inputs.{AreVersionsOf, AreNotices, IsVersionsFault};
ghost use Rattle.hack_plan.specs.View.{call_view};
ghost use Rattle.hack_planner.specs.Calls.{AreFirstNotes, call_of, table_fault, workspace_notes};
ghost use Rattle.hack_planner.specs.CoveredSets.{AreCovered};
ghost use Rattle.hack_planner.specs.CallPlan.{IsPlan, IsCause, IsPlanOf, IsCauseOf, latest_of};
ghost use Rattle.hack_planner.specs.CallPlan.{IsPackagesCause, IsSureCause, IsSureCauseOf};
ghost use Rattle.hack_planner.specs.Internal.{SaysRangeRefused};
ghost use Rattle.hack_planner.specs.Powersets.{HavePowersets};
ghost use Rattle.hack_planner.specs.Samples.{HaveSamples, ArePatternsHeld};

use crate::chosen::chosen_packages;
use crate::determine::determine_package_list;
use crate::fault::{PackagesFault, PlanFault, of_packages, of_places, of_range};
use crate::input::input;
use crate::packages::PackageList;
use crate::plan_notes::left_out;
use crate::stable::Stable;
use crate::tables::{check_tables, workspace_notes};
use crate::uses::with_uses;
use crate::words::call_words;
use hack_base::notice::Notice;
use hack_load::context::Context;
use hack_plan::parts::CommandParts;
pub use hack_plan::plan::Plan;
use hack_plan::versions::{PlanInput, Versions};
use hack_versions::rustup::RangeFault;
use hack_versions::version::Version;
use std::alloc::{AllocError, Global};

/// The plan of a call, and its notices. `rustup` is the program to run as rustup. `stable` is asked
/// for where the range needs it.
pub fn plan_of(
    alloc: Global,
    cx: &Context,
    rustup: &str,
    stable: Stable,
) -> Result<(Plan, Vec<Notice>), PlanFault>
    requires { IsSome (context_view cx.now).args.subcommand
        → IfSome (context_view cx.now).args.version_range (λ range. NeedsStable range
        → stable ≢ Stable.Unasked) }
    ensures ok { IfOk result (λ answer. IsPlanOf (context_view cx.now).args.subcommand stable
        (context_view cx.now) rustup.now answer.0 (map note_of answer.1.items)) }

    // Under a powerset each set of a package's candidates that has to be covered has a place.
    ensures covered { IfOk (latest_of stable) (λ latest.
        IsSome (context_view cx.now).args.subcommand
        → (context_view cx.now).args.feature_powerset ≡ true
        → ¬ ((context_view cx.now).args.workspace_behavior ≡ Cargo)
        → IfOk result (λ answer. AreCovered (context_view cx.now) latest answer.0)) }

    // Under a powerset the sets of the runs of each chosen package that uses a version and has no
    // strength are exactly the listed ones, each once.
    ensures powersets { IfOk (latest_of stable) (λ latest.
        IsSome (context_view cx.now).args.subcommand
        → (context_view cx.now).args.feature_powerset ≡ true
        → IfOk result (λ answer. HavePowersets (context_view cx.now) latest answer.0)) }

    // With a strength they are a sample of these: each of its sets is listed, and none is there
    // twice; and each pattern of at most so many candidates that some listed set shows is shown.
    ensures samples { IfOk (latest_of stable) (λ latest.
        IsSome (context_view cx.now).args.subcommand
        → (context_view cx.now).args.feature_powerset ≡ true
        → IfOk result (λ answer. HaveSamples (context_view cx.now) latest answer.0)) }

    // Each such pattern has a place, for each package, each version that it uses and each slot.
    ensures patterns { IfOk (latest_of stable) (λ latest.
        IsSome (context_view cx.now).args.subcommand
        → (context_view cx.now).args.feature_powerset ≡ true
        → ¬ ((context_view cx.now).args.workspace_behavior ≡ Cargo)
        → IfOk result (λ answer. ArePatternsHeld (context_view cx.now) latest answer.0)) }

    // Where a plan is returned no cause holds: the call is refused exactly where one does. (With a
    // strength the number of runs is that of the sample that was found.)
    ensures never { IfOk result (λ _. (e : PlanFault)
        → ¬ IsSureCauseOf (context_view cx.now).args.subcommand stable (context_view cx.now) e) }
    ensures err { IfErr result (λ e. (e ≡ PlanFault.Memory)
        ⊎ IsCauseOf (context_view cx.now).args.subcommand stable (context_view cx.now) e) }
{
    let words = call_words(alloc, cx, rustup)?;
    if cx.args().subcommand.is_none() {
        return Ok((Plan::empty(alloc, words), Vec::new(alloc)));
    }
    match stable.latest() {
        Ok(latest) => plan_by(alloc, cx, words, latest),
        Err(fault) => Err(fault),
    }
}

/// The plan of a call with a subcommand.
fn plan_by(
    alloc: Global,
    cx: &Context,
    words: CommandParts,
    latest: Option<Version>,
) -> Result<(Plan, Vec<Notice>), PlanFault>
    requires { IfSome (context_view cx.now).args.version_range (λ range. NeedsStable range
        → IsSome latest) }
    ensures ok { (rustup : List ℕ) → call_view words ≡ call_of (context_view cx.now) rustup
        → IfOk result (λ answer. IsPlan (context_view cx.now) rustup latest answer.0
        (map note_of answer.1.items)) }
    ensures covered { (rustup : List ℕ) → call_view words ≡ call_of (context_view cx.now) rustup
        → (context_view cx.now).args.feature_powerset ≡ true
        → ¬ ((context_view cx.now).args.workspace_behavior ≡ Cargo)
        → IfOk result (λ answer. AreCovered (context_view cx.now) latest answer.0) }
    ensures never { IfOk result (λ _. (e : PlanFault)
        → ¬ IsSureCause (context_view cx.now) latest e) }
    ensures err { IfErr result (λ e. (e ≡ PlanFault.Memory)
        ⊎ IsCause (context_view cx.now) latest e) }
{
    let (list, mut notices) = chosen_list(alloc, cx)?;
    let input = input(alloc, cx, list.ids.as_slice())?;
    let (versions, mut on_range) = versions_of(alloc, &input, latest)?;
    let ids = list.ids.as_slice();
    let uses = with_uses(alloc, ids, &input, &versions)?;
    let chosen = uses.as_slice();
    let single = list.is_single;
    let (packages, mut on_features) = match chosen_packages(
        alloc, cx, chosen, &input, &versions, single,
    ) {
        Ok(answer) => answer,
        Err(fault) => return Err(fault),
    };
    let mut on_left_out = left_out(alloc, cx, ids, &input, &versions)?;
    let plan = match Plan::of_input(alloc, words, packages, &input, &versions) {
        Ok(plan) => plan,
        Err(fault) => return Err(of_places(fault)),
    };
    notices.append(&mut on_features)?;
    notices.append(&mut on_range)?;
    notices.append(&mut on_left_out)?;
    Ok((plan, notices))
}

/// The chosen packages, of whose tables of rules none has a fault.
pub fn chosen_list(alloc: Global, cx: &Context) -> Result<(PackageList, Vec<Notice>), PlanFault>
    ensures ok { IfOk result (λ answer. AreChosen (context_view cx.now)
        (map place_at answer.0.ids.items)) }
    ensures notes { IfOk result (λ answer. AreFirstNotes (context_view cx.now)
        answer.0.is_single (map note_of answer.1.items)) }
    ensures members { IfOk result (λ answer.
        All (λ id. Contains (context_view cx.now).metadata.workspace_members id.index)
        answer.0.ids.items) }
    ensures tables { IfOk result (λ answer. table_fault (context_view cx.now)
        (map place_at answer.0.ids.items) ≡ None) }
    ensures never { IfOk result (λ _. (e : PackagesFault)
        → ¬ IsChoiceFault (context_view cx.now) e) }
    ensures err { IfErr result (λ e. (e ≡ PlanFault.Memory)
        ⊎ IsPackagesCause (context_view cx.now) e) }
{
    match determine_package_list(alloc, cx) {
        Ok(answer) => match check_tables(alloc, cx, answer.0.ids.as_slice()) {
            Ok(()) => Ok(with_workspace_notes(alloc, cx, answer)?),
            Err(fault) => Err(fault),
        },
        Err(fault) => Err(of_packages(fault)),
    }
}

/// The packages, and the notices with those on the workspace's tables behind them.
fn with_workspace_notes(
    alloc: Global,
    cx: &Context,
    answer: (PackageList, Vec<Notice>),
) -> Result<(PackageList, Vec<Notice>), AllocError>
    ensures list { IfOk result (λ made. made.0 ≡ answer.0) }
    ensures notes { IfOk result (λ made. map note_of made.1.items
        ≡ map note_of answer.1.items ++ workspace_notes (context_view cx.now)) }
{
    let (list, mut notices) = answer;
    let mut on_tables = workspace_notes(alloc, cx)?;
    notices.append(&mut on_tables)?;
    Ok((list, notices))
}

/// The versions of an input.
fn versions_of(
    alloc: Global,
    input: &PlanInput,
    latest: Option<Version>,
) -> Result<(Versions, Vec<Notice>), PlanFault>
    requires { IfSome input.now.range (λ range. NeedsStable range → IsSome latest) }
    ensures ok { IfOk result (λ answer. AreVersionsOf input.now answer.0) }
    ensures stable { IfOk result (λ answer. answer.0.stable ≡ latest) }
    ensures notices { IfOk result (λ answer. AreNotices input.now.range input.now latest
        (map note_of answer.1.items)) }
    ensures never { IfOk result (λ _. (e : RangeFault)
        → ¬ IsVersionsFault input.now.range input.now latest e) }
    ensures err { IfErr result (λ e. (e ≡ PlanFault.Memory)
        ⊎ SaysRangeRefused input.now latest e) }
{
    match Versions::new(alloc, input, latest) {
        Ok(answer) => Ok(answer),
        Err(fault) => Err(of_range(fault)),
    }
}
