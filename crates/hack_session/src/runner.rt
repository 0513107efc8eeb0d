//! Who performs the steps of a session, and the loop that hands them out.

ghost use Rattle.std.specs.Prelude.{◌≡◌, ◌∷◌, ◌++◌, [], List, None, All, IfOk, OnErr, length, map};
ghost use Rattle.hack_plan.specs.View.{PlanView};
ghost use Rattle.hack_session.specs.declared.step.Handed.{Handed as HandedStep};
ghost use Rattle.hack_session.specs.Handouts.{HandsOut};
ghost use Rattle.hack_session.specs.Histories.{HasPassed, IsHistory, IsSameCourse, IsStepOf};
ghost use Rattle.hack_session.specs.Histories.{next_of, passed_step};
ghost use Rattle.hack_session.specs.Schedules.{IsSchedule};

use crate::session::Session;
use crate::step::{Outcome, Step};
use hack_partition::partition::Partition;
use hack_plan::plan::Plan;
use std::alloc::{AllocError, Global};

/// Performs steps.
pub trait Runner {
    /// A relation of the runner before and after these steps of the plan, which ended with these
    /// outcomes, in this order.
    ghost ran: { PlanView → List HandedStep → Self → Self → Type 0 };

    /// Performs a step of the plan. A step for which memory is refused has failed.
    fn step(&mut self, plan: &Plan, step: Step) -> Outcome
        requires { IsStepOf plan.now step }
        ensures { ran plan.now (record { step = step; outcome = result } ∷ []) self.old self.new };

    /// Without a step the relation holds of each runner and itself.
    ghost ran_none: { (plan : PlanView) (a : Self) → ran plan [] a a };

    /// The relations of some steps and of more steps after them give that of all.
    ghost ran_more: { (plan : PlanView) (steps more : List HandedStep) (a b c : Self)
        → ran plan steps a b → ran plan more b c → ran plan (steps ++ more) a c };
}

/// Hands out the steps of a session to its end, and records what came of each.
pub fn drive<R: Runner>(session: Session, runner: &mut R) -> Session
    ensures complete { next_of result ≡ None }
    ensures history { IsHistory result }
    ensures same { IsSameCourse result session }
    ensures ran { (more : List HandedStep) × (result.handed ≡ session.handed ++ more)
        × R.ran session.plan more runner.old runner.new }
{
    let mut session = session;
    while let Some(step) = session.next() {
        let outcome = runner.step(session.plan(), step);
        session.done(outcome);
    }
    // This call promises that what was handed out is one history of the plan.
    let _ = session.handed();
    session
}

/// Makes the session of a plan and a piece, and runs it to its end.
pub fn drive_plan<R: Runner>(
    alloc: Global,
    plan: Plan,
    partition: Option<Partition>,
    keep_going: bool,
    runner: &mut R,
) -> Result<Session, AllocError>
    ensures plan { IfOk result (λ s. s.plan ≡ plan) }
    ensures keep_going { IfOk result (λ s. s.keep_going ≡ keep_going) }
    ensures schedule { IfOk result (λ s. IsSchedule partition plan s.schedule) }
    ensures complete { IfOk result (λ s. next_of s ≡ None) }
    ensures history { IfOk result IsHistory }

    // The runner was handed just these steps, in order.
    ensures ran { IfOk result (λ s. R.ran plan s.handed runner.old runner.new) }

    // Where memory is refused, nothing was handed out.
    ensures refused { OnErr result (runner.new ≡ runner.old) }

    // The runs handed out are the chosen piece of the plan, in order, each place once, until a
    // preparation fails, a run fails and runs don't go on, or the piece ends.
    ensures hands_out { IfOk result (HandsOut partition (length plan.entries)) }

    // Where each step passed, the whole schedule was handed out.
    ensures whole { IfOk result (λ s. All HasPassed s.handed → s.handed
        ≡ map passed_step s.schedule) }
{
    let session = Session::new(alloc, plan, partition, keep_going)?;
    Ok(drive(session, runner))
}
