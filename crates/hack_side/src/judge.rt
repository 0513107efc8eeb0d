//! Who says whether a search may go on after a run failed.

ghost use Rattle.std.specs.Prelude.{◌≡◌, Bool, List, true};
ghost use Rattle.hack_plan.specs.Growth.{IsGrown};
ghost use Rattle.hack_plan.specs.Plans.{AreRunsOfPackages};
ghost use Rattle.hack_plan.specs.View.{PlanView};
ghost use Rattle.hack_session.specs.GrownSteps.{AreRuns, done_grown};
ghost use Rattle.hack_session.specs.StepEffects.{state};
ghost use Rattle.hack_session.specs.StepOutput.{manner_of, streams};
ghost use Rattle.hack_session.specs.declared.step.Handed.{Handed};
ghost use Rattle.hack_side.specs.Beside.{does_grown};
ghost use Rattle.hack_side.specs.Ends.{has_ended, is_end as ends};

use crate::serial::Serial;
use hack_base::writes::Sink;
use hack_lanes::turns::Turns;
use hack_process::process::{Caller, ProcessFault};
use hack_session::session::{Runner, Starter};

/// A runner that says whether a failed run is one of its package, so that a search may go on.
pub trait Judge: Runner {
    /// The runner's call is at its end.
    ghost ended: { Self → Bool };

    /// Whether the call is at its end, since something else than a command failed: memory was
    /// refused, or a program couldn't be started.
    fn has_ended(&self) -> bool
        ensures { result ≡ ended self.now };

    /// What runs did on a plan that grows they did on what it has become.
    ghost ran_grown: { (old new : PlanView) (steps : List Handed) (a b : Self) → IsGrown old new
        → old.call.grows ≡ true → AreRunsOfPackages old.packages old.entries → AreRuns steps
        → Self.ran old steps a b → Self.ran new steps a b };
}

impl<C: Caller, O: Sink, E: Sink> Judge for Starter<'_, C, O, E> {
    ghost ended = { λ a. has_ended a.fault.now a.refused };

    fn has_ended(&self) -> bool {
        self.refused > 0 || is_end(&*self.fault)
    }

    ghost ran_grown = { λ old new steps a b grown grows runs are p. (
      p.0,
      p.1,
      p.2,
      p.3,
      p.4,
      p.5,
      p.6,
      p.7,
      p.8,
      done_grown old new grown grows C.tells a.keep_going (manner_of a.log_group a.term.now) runs
          steps (state (C.calls a.caller.now)
          (streams O.Sink E.Sink a.out.now a.err.now)
          a.fault.now a.term.now.error a.refused)
          (state (C.calls b.caller.now)
          (streams O.Sink E.Sink b.out.now b.err.now)
          b.fault.now b.term.now.error b.refused) are p.9,
    ) };
}

impl<L: Turns, O: Sink, E: Sink> Judge for Serial<'_, L, O, E> {
    ghost ended = { λ a. has_ended a.starter.fault.now a.starter.refused };

    fn has_ended(&self) -> bool {
        self.starter.has_ended()
    }

    ghost ran_grown = { λ old new steps a b grown grows runs are p. (
      p.0,
      p.1,
      does_grown L.tells L.calls O.Sink E.Sink old new steps a.starter b.starter grown grows runs
          are p.2,
    ) };
}

/// Whether the error that was kept is another than that a command failed.
fn is_end(fault: &Option<ProcessFault>) -> bool
    ensures { result ≡ ends fault.now }
{
    match fault {
        None | Some(ProcessFault::Failed(_)) => false,
        Some(_) => true,
    }
}
