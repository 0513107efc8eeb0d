//! A trial of a version: its preparations, and then the runs of a package, until one fails.

ghost use Rattle.std.specs.Prelude.{◌≡◌, ◌∷◌, [], List, MatchBool, filter, map, true};
ghost use Rattle.hack_plan.specs.declared.parts.Preparation.{Preparation as Prepared};
ghost use Rattle.hack_session.specs.Histories.{passed_step};
ghost use Rattle.hack_session.specs.declared.step.Handed.{Handed};
ghost use Rattle.hack_msrv.specs.Trials.{ComesTo, StopsAt, failed_step, places_of, trial_steps};
ghost use Rattle.hack_msrv.specs.Trials.{is_of as of_package};

use crate::uses::is_of;
use hack_plan::parts::{PlanVersion, Preparation};
use hack_plan::plan::Plan;
use hack_session::session::{Outcome, Runner, Step};
use hack_side::judge::Judge;

/// What came of a trial.
#[derive(Clone, Copy, Debug, PartialEq, Eq)]
pub enum Came {
    Passed,
    /// The run at this place of the plan failed.
    Failed(usize),
    /// A preparation failed, or the call is at its end for another reason.
    Broken,
}

/// Tries a version for the package.
pub(crate) fn try_version<R: Judge>(
    plan: &Plan,
    member: usize,
    version: &PlanVersion,
    runner: &mut R,
) -> Came
    ensures { (handed : List Handed) × R.ran plan.now handed runner.old runner.new
        × ComesTo (R.ended runner.new) (trial_steps plan.now member version.now) handed result }
{
    if !prepare_all(plan, version.preparations.as_slice(), runner) {
        return Came::Broken;
    }
    run_all(plan, member, version, runner)
}

/// Performs preparations up to the first that fails, and returns whether all passed.
fn prepare_all<R: Runner>(plan: &Plan, preparations: &[Preparation], runner: &mut R) -> bool
    ensures { (handed : List Handed) × R.ran plan.now handed runner.old runner.new
        × MatchBool result (handed ≡ map passed_step (map Step.Prepare preparations.now))
        ((one : Prepared) × StopsAt (map Step.Prepare preparations.now) handed
        (Step.Prepare one)) }
{
    for preparation in preparations {
        match runner.step(plan, Step::Prepare(*preparation)) {
            Outcome::Passed => {}
            Outcome::Failed => return false,
        }
    }
    true
}

/// Performs the package's runs of the version up to the first that fails.
fn run_all<R: Judge>(plan: &Plan, member: usize, version: &PlanVersion, runner: &mut R) -> Came
    ensures { (handed : List Handed) × R.ran plan.now handed runner.old runner.new
        × ComesTo (R.ended runner.new) (map Step.Run (places_of plan.now member version.now))
        handed result }
{
    for place in version.first..version.end {
        if !run_at(plan, member, place, runner) {
            return failed_at(place, runner);
        }
    }
    Came::Passed
}

/// Performs the run at a place of the package, and returns whether it passed. Places of others
/// pass.
fn run_at<R: Runner>(plan: &Plan, member: usize, place: usize, runner: &mut R) -> bool
    ensures { (handed : List Handed) × R.ran plan.now handed runner.old runner.new
        × MatchBool result
        (handed ≡ map passed_step (map Step.Run (filter (of_package plan.now member) (place ∷ []))))
        ((of_package plan.now member place ≡ true)
        × (handed ≡ failed_step (Step.Run place) ∷ [])) }
{
    if !is_of(plan, member, place) {
        return true;
    }
    match runner.step(plan, Step::Run(place)) {
        Outcome::Passed => true,
        Outcome::Failed => false,
    }
}

/// What came of a trial in which the run at this place failed.
fn failed_at<R: Judge>(place: usize, runner: &R) -> Came
    ensures { MatchBool (R.ended runner.now) (result ≡ Came.Broken) (result ≡ Came.Failed place) }
{
    if runner.has_ended() {
        Came::Broken
    } else {
        Came::Failed(place)
    }
}
