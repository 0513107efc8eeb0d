//! Who performs steps one after another, and starts nothing ahead.

ghost use Rattle.std.proofs.Common.{refl};
ghost use Rattle.hack_side.specs.Beside.{DoesSteps, does_more, does_none};
ghost use Rattle.hack_side.specs.JoinedRuns.{serially_more};
ghost use Rattle.hack_side.specs.Turns.{RunsSerially};

use hack_base::writes::Sink;
use hack_lanes::turns::Turns;
use hack_plan::plan::Plan;
use hack_session::session::{Outcome, Runner, Starter, Step};

/// Performs steps by a starter at whose caller places have turns, and starts nothing ahead: a search
/// chooses the next run by what came of this one.
#[derive(Drop)]
pub struct Serial<'a, L: Turns, O: Sink, E: Sink> {
    pub starter: Starter<'a, L, O, E>,
}

impl<L: Turns, O: Sink, E: Sink> Runner for Serial<'_, L, O, E> {
    ghost ran = { λ plan steps a b. L.stays a.starter.caller.now b.starter.caller.now
        × RunsSerially L.did steps (L.scene a.starter.caller.now) (L.scene b.starter.caller.now)
        × DoesSteps L.tells L.calls O.Sink E.Sink plan steps a.starter b.starter };

    ghost ran_none = { λ plan a. (
      L.stays_none a.starter.caller.now,
      refl,
      does_none L.tells L.calls O.Sink E.Sink plan a.starter,
    ) };

    ghost ran_more = { λ plan steps more a b c p q. (
      L.stays_more a.starter.caller.now b.starter.caller.now c.starter.caller.now p.0 q.0,
      serially_more L.did steps more (L.scene a.starter.caller.now)
          (L.scene b.starter.caller.now) (L.scene c.starter.caller.now) p.1 q.1,
      does_more L.tells L.calls O.Sink E.Sink plan steps more a.starter b.starter c.starter
          p.2 q.2,
    ) };

    fn step(&mut self, plan: &Plan, step: Step) -> Outcome {
        self.starter.caller.take_turn();
        let outcome = self.starter.step(plan, step);
        self.starter.caller.take_turn();
        outcome
    }
}
