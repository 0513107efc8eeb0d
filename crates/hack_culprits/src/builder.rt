//! Who builds the sets that a search asks for.

ghost use Rattle.std.specs.Prelude.{◌≡◌, ◌≢◌, ◌<◌, ◌∷◌, [], All, Bool, List, MatchBool, length};
ghost use Rattle.hack_closures.specs.View.{search_of};
ghost use Rattle.hack_conflicts.specs.Rules.{IsChoice};
ghost use Rattle.hack_plan.specs.Runs.{PackageRun};
ghost use Rattle.hack_plan.specs.View.{PlanView};
ghost use Rattle.hack_culprits.specs.Built.{IsRunFor, Tells, run_for, step_at};
ghost use Rattle.hack_culprits.specs.Internal.{BuildsOne, IsReady, made_in, told_of};
ghost use Rattle.hack_culprits.specs.InternalView.{IsSameBuilder};

use crate::aim::Aim;
use crate::built::{Built, outcome_of, run_of};
use crate::fault::CulpritsFault;
use hack_closures::Build;
use hack_conflicts::{BuildOutcome, Builds};
use hack_plan::plan::Plan;
use hack_session::session::{Outcome as Ended, Step};
use hack_side::judge::Judge;
use std::alloc::Global;

/// Builds sets of a package by runs of a plan that grows.
#[derive(Drop)]
pub(crate) struct Builder<'a, R: Judge> {
    pub alloc: Global,
    pub aim: Aim<'a>,
    pub plan: &'a mut Plan,
    pub runner: &'a mut R,
    /// What was built for the package and the slot so far.
    pub built: &'a mut Vec<Built>,
    /// Why the last set wasn't built, or its run cut short.
    pub fault: Option<CulpritsFault>,
}

impl<R: Judge> Builder<'_, R> {
    /// Builds a set, unless what stands for it was built before.
    fn try_set(&mut self, set: &[bool]) -> Result<BuildOutcome, CulpritsFault>
        ensures same { IsSameBuilder self.old self.new }
        ensures built { IsReady self.old.aim self.old.plan.now
            → IsChoice (search_of self.old.aim.closures.now) set.now
            → BuildsOne R.ran R.ended self.old.aim set.now result
            (made_in self.old.aim.plain self.old.built.now.items)
            (made_in self.old.aim.plain self.new.built.now.items)
            self.old.plan.now self.new.plan.now self.old.runner.now self.new.runner.now }
    {
        let build = self.aim.closures.build_of(self.alloc, set)?;
        match outcome_of(self.built.as_slice(), &build) {
            Some(outcome) => told(outcome),
            None => self.run(build),
        }
    }

    /// Appends what is to be built to the plan, and runs it.
    fn run(&mut self, build: Build) -> Result<BuildOutcome, CulpritsFault>
        ensures same { IsSameBuilder self.old self.new }
        ensures built { (set : List Bool) → IsReady self.old.aim self.old.plan.now
            → IsRunFor self.old.aim set (run_for self.old.aim.plain build)
            → All (λ m. m.run ≢ run_for self.old.aim.plain build)
            (made_in self.old.aim.plain self.old.built.now.items)
            → BuildsOne R.ran R.ended self.old.aim set result
            (made_in self.old.aim.plain self.old.built.now.items)
            (made_in self.old.aim.plain self.new.built.now.items)
            self.old.plan.now self.new.plan.now self.old.runner.now self.new.runner.now }
    {
        if !self.can_grow() {
            // The plan of a search has a version, and its packages.
            return Err(CulpritsFault::Memory);
        }
        self.built.reserve(1)?;
        let run = run_of(self.alloc, &build, self.aim.plain)?;
        let place = self.plan.grow(self.aim.slot, self.aim.member, run)?;
        let outcome = step(self.plan, place, self.runner);
        self.built.push(Built { build, outcome }).unwrap();
        told(outcome)
    }

    /// Whether runs of the package can be added to the plan.
    fn can_grow(&self) -> bool
        ensures { MatchBool result ((0 < length self.now.plan.now.versions)
            × (self.now.aim.member < length self.now.plan.now.packages))
            ((plan : PlanView) → self.now.plan.now ≡ plan → ¬ IsReady self.now.aim plan) }
    {
        !self.plan.versions().is_empty() && self.aim.member < self.plan.packages().len()
    }
}

/// Performs the run at a place of the plan.
fn step<R: Judge>(plan: &Plan, place: usize, runner: &mut R) -> BuildOutcome
    requires { place < length plan.now.entries }
    ensures ran { (run : PackageRun) → R.ran plan.now
        (step_at place (record { run = run; outcome = result }) ∷ []) runner.old runner.new }
    ensures tells { Tells (R.ended runner.new) result }
{
    match runner.step(plan, Step::Run(place)) {
        Ended::Passed => BuildOutcome::Passed,
        Ended::Failed if runner.has_ended() => BuildOutcome::Broken,
        Ended::Failed => BuildOutcome::Failed,
    }
}

/// What a search is told of a run that ended so: nothing of a broken one.
fn told(outcome: BuildOutcome) -> Result<BuildOutcome, CulpritsFault>
    ensures { result ≡ told_of outcome }
{
    match outcome {
        BuildOutcome::Passed | BuildOutcome::Failed => Ok(outcome),
        BuildOutcome::Broken => Err(CulpritsFault::Ended),
    }
}

impl<R: Judge> Builds for Builder<'_, R> {
    ghost use Rattle.std.proofs.Common.{◌∙◌, refl, subst};
    ghost use Rattle.hack_culprits.specs.Internal.{MayBuild};
    ghost use Rattle.hack_culprits.specs.JoinedBuilds.{builds_more, builds_none};

    ghost ran = { λ asked a b. (a.runner.ghost_name ≡ b.runner.ghost_name)
        × (a.plan.ghost_name ≡ b.plan.ghost_name) × (b.aim ≡ a.aim)
        × MayBuild R.ran R.ended a.aim asked (made_in a.aim.plain a.built.now.items)
        (made_in a.aim.plain b.built.now.items) a.fault b.fault a.plan.now b.plan.now a.runner.now
        b.runner.now };

    ghost ran_none = { λ a. (
      refl,
      refl,
      refl,
      builds_none R.ran R.ended a.aim (made_in a.aim.plain a.built.now.items) a.fault a.plan.now
          a.runner.now,
    ) };

    ghost ran_more = { λ asked more a b c p q. (
      p.0 ∙ q.0,
      p.1 ∙ q.1,
      q.2 ∙ p.2,
      builds_more R.ran R.ended R.ran_grown a.aim asked more
          (made_in a.aim.plain a.built.now.items) (made_in a.aim.plain b.built.now.items)
          (made_in a.aim.plain c.built.now.items) a.fault b.fault c.fault a.plan.now b.plan.now
          c.plan.now a.runner.now b.runner.now c.runner.now p.3
          (subst (λ aim. MayBuild R.ran R.ended aim more (made_in aim.plain b.built.now.items)
          (made_in aim.plain c.built.now.items) b.fault c.fault b.plan.now c.plan.now b.runner.now
          c.runner.now) p.2 q.3),
    ) };

    fn build(&mut self, set: &[bool]) -> BuildOutcome {
        match self.try_set(set) {
            Ok(outcome) => outcome,
            Err(fault) => {
                self.fault = Some(fault);
                BuildOutcome::Broken
            }
        }
    }
}
