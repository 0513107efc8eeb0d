//! The search for the least version of one package.

ghost use Rattle.std.specs.Prelude.{◌≡◌, ◌-◌, List, MatchOption, Some, length, slice_get, ℕ};
ghost use Rattle.hack_msrv.specs.Internal.{HasVersion, found_of, kept, nowhere_of};
ghost use Rattle.hack_msrv.specs.Searches.{IsFound, outcome_of, uses_of};
ghost use Rattle.hack_msrv.specs.Trials.{AreTrials, Trial};

use crate::found::Found;
use crate::trial::{Came, try_version};
use hack_bisect::{Least, TrialOutcome, Tries, find_least};
use hack_plan::parts::PlanVersion;
use hack_plan::plan::Plan;
use hack_side::judge::Judge;

/// Searches for the least version of a package. Nothing is run where it uses no version.
pub(crate) fn find_version<R: Judge>(
    plan: &Plan,
    member: usize,
    uses: &[usize],
    runner: &mut R,
) -> Found
    requires { uses.now ≡ uses_of plan.now member }
    ensures { (trials : List Trial)
        × AreTrials R.ran R.ended plan.now member trials runner.old runner.new
        × IsFound (uses_of plan.now member) trials result }
{
    let Some(greatest) = uses.len().checked_sub(1) else {
        return Found::Untried;
    };
    let used = Used { plan, member, uses };
    let mut trier = Trier {
        used,
        runner,
        failed: None,
    };
    let least = find_least(greatest, &mut trier);
    found(uses, least, trier.failed)
}

/// What a search among these versions says by its answer, after which this is the place whose run
/// failed last.
fn found(uses: &[usize], least: Least, failed: Option<usize>) -> Found
    ensures { result ≡ found_of uses.now least failed }
{
    match least {
        Least::At(place) => match uses.get(place) {
            Some(version) => Found::Least {
                version: *version,
                failed,
            },
            None => Found::Broken,
        },
        Least::Nowhere => nowhere(uses, failed),
        Least::Broken => Found::Broken,
    }
}

/// What a search says in which the greatest version failed.
fn nowhere(uses: &[usize], failed: Option<usize>) -> Found
    ensures { result ≡ nowhere_of (slice_get uses.now (length uses.now - 1)) failed }
{
    match uses.last() {
        Some(version) => match failed {
            Some(failed) => Found::Nowhere {
                version: *version,
                failed,
            },
            None => Found::Broken,
        },
        None => Found::Broken,
    }
}

/// The versions of a plan that a package uses.
#[derive(Clone, Copy)]
struct Used<'a> {
    plan: &'a Plan,
    member: usize,
    /// Indices into the plan's versions.
    uses: &'a [usize],
}

impl<'a> Used<'a> {
    /// The version at an index among them.
    fn version(self, place: usize) -> Option<&'a PlanVersion>
        ensures { MatchOption result (¬ HasVersion self.entry.plan.now self.entry.uses.now place)
            (λ version. (index : ℕ) × (slice_get self.entry.uses.now place ≡ Some index)
            × (slice_get self.entry.plan.now.versions index ≡ Some version.now)) }
    {
        let index = *self.uses.get(place)?;
        self.plan.versions().get(index)
    }
}

/// Tries the versions that a package uses.
#[derive(Drop)]
struct Trier<'a, R: Judge> {
    used: Used<'a>,
    runner: &'a mut R,
    /// The place whose run failed last.
    failed: Option<usize>,
}

impl<R: Judge> Tries for Trier<'_, R> {
    ghost use Rattle.std.proofs.Common.{◌∙◌, refl, subst};
    ghost use Rattle.hack_msrv.specs.Internal.{MayTry};
    ghost use Rattle.hack_msrv.specs.JoinedTrials.{tries_none, tries_more};

    ghost tried = { λ trials a b. (a.runner.ghost_name ≡ b.runner.ghost_name)
        × (b.used ≡ a.used)
        × MayTry R.ran R.ended a.used.plan.now a.used.member a.used.uses.now trials a.failed
        b.failed a.runner.now b.runner.now };

    ghost tried_none = { λ a. (
      refl,
      refl,
      tries_none R.ran R.ended a.used.plan.now a.used.member
          a.used.uses.now a.failed a.runner.now,
    ) };

    ghost tried_more = { λ trials more a b c p q. (
      p.0 ∙ q.0,
      q.1 ∙ p.1,
      tries_more R.ran R.ended a.used.plan.now a.used.member a.used.uses.now trials more a.failed
          b.failed c.failed a.runner.now b.runner.now c.runner.now p.2
          (subst (λ u. MayTry R.ran R.ended u.plan.now u.member u.uses.now more b.failed c.failed
          b.runner.now c.runner.now) p.1 q.2),
    ) };

    fn try_at(&mut self, place: usize) -> TrialOutcome {
        // An index without a version is never asked for.
        let Some(version) = self.used.version(place) else {
            return TrialOutcome::Broken;
        };
        let came = try_version(self.used.plan, self.used.member, version, self.runner);
        self.failed = last_failed(came, self.failed);
        outcome(came)
    }
}

/// The place whose run failed last, after a trial.
fn last_failed(came: Came, before: Option<usize>) -> Option<usize>
    ensures { result ≡ kept came before }
{
    match came {
        Came::Failed(place) => Some(place),
        Came::Passed | Came::Broken => before,
    }
}

/// What the search is told of a trial.
fn outcome(came: Came) -> TrialOutcome
    ensures { result ≡ outcome_of came }
{
    match came {
        Came::Passed => TrialOutcome::Passed,
        Came::Failed(_) => TrialOutcome::Failed,
        Came::Broken => TrialOutcome::Broken,
    }
}
