//! Who performs the steps of a plan and starts runs ahead.

ghost use Rattle.std.specs.Prelude.{◌≡◌};
ghost use Rattle.std.proofs.Common.{◌∙◌, refl};
ghost use Rattle.hack_side.specs.Beside.{DoesSteps, does_more, does_none};
ghost use Rattle.hack_side.specs.JoinedRuns.{runs_more};
ghost use Rattle.hack_side.specs.Turns.{IsAtTurn, IsTurnFor, RunsAll};

use crate::offers::Outlook;
use hack_base::writes::Sink;
use hack_lanes::turns::Turns;
use hack_partition::partition::Partition;
use hack_plan::plan::Plan;
use hack_session::session::{Outcome, Runner, Starter, Step};
use std::alloc::Global;

/// Performs steps by a starter at whose caller places have turns: at the step of a run its command
/// and those behind it may be started.
#[derive(Drop)]
pub struct Side<'a, L: Turns, O: Sink, E: Sink> {
    pub starter: Starter<'a, L, O, E>,
    /// The chosen piece of the plan: no other place is started.
    pub piece: Option<Partition>,
}

/// Gives a run's place its turn, where several run at once.
fn give_turn<L: Turns>(
    alloc: Global,
    plan: &Plan,
    piece: Option<Partition>,
    step: Step,
    lanes: &mut L,
)
    ensures fits { IsTurnFor piece plan.now step (L.scene lanes.new).turn }
    ensures scene { IsAtTurn (L.scene lanes.old) (L.scene lanes.new) }
    ensures calls { L.calls lanes.new ≡ L.calls lanes.old }
    ensures stays { L.stays lanes.old lanes.new }
{
    match step {
        Step::Run(place) => give_run_turn(alloc, plan, piece, place, lanes),
        Step::Prepare(_) | Step::Skip(_) => lanes.take_turn(),
    }
}

/// Gives a run's place its turn, where several run at once.
fn give_run_turn<L: Turns>(
    alloc: Global,
    plan: &Plan,
    piece: Option<Partition>,
    place: usize,
    lanes: &mut L,
)
    ensures fits { IsTurnFor piece plan.now (Step.Run place) (L.scene lanes.new).turn }
    ensures scene { IsAtTurn (L.scene lanes.old) (L.scene lanes.new) }
    ensures calls { L.calls lanes.new ≡ L.calls lanes.old }
    ensures stays { L.stays lanes.old lanes.new }
{
    if lanes.width() <= 1 {
        lanes.take_turn();
        return;
    }
    let outlook = Outlook {
        piece,
        place,
        last: lanes.last(),
        room: lanes.room(),
    };
    let offers = outlook.offers(alloc, plan);
    lanes.give_turn(place, offers);
}

impl<L: Turns, O: Sink, E: Sink> Runner for Side<'_, L, O, E> {
    ghost ran = { λ plan steps a b. (b.piece ≡ a.piece)
        × L.stays a.starter.caller.now b.starter.caller.now
        × RunsAll L.did a.piece plan steps (L.scene a.starter.caller.now)
        (L.scene b.starter.caller.now)
        × DoesSteps L.tells L.calls O.Sink E.Sink plan steps a.starter b.starter };

    ghost ran_none = { λ plan a. (
      refl,
      L.stays_none a.starter.caller.now,
      refl,
      does_none L.tells L.calls O.Sink E.Sink plan a.starter,
    ) };

    ghost ran_more = { λ plan steps more a b c p q. (
      q.0 ∙ p.0,
      L.stays_more a.starter.caller.now b.starter.caller.now c.starter.caller.now p.1 q.1,
      runs_more L.did a.piece b.piece plan steps more (L.scene a.starter.caller.now)
          (L.scene b.starter.caller.now) (L.scene c.starter.caller.now) p.0 p.2 q.2,
      does_more L.tells L.calls O.Sink E.Sink plan steps more a.starter b.starter c.starter
          p.3 q.3,
    ) };

    fn step(&mut self, plan: &Plan, step: Step) -> Outcome {
        give_turn(
            self.starter.alloc,
            plan,
            self.piece,
            step,
            self.starter.caller,
        );
        let outcome = self.starter.step(plan, step);
        self.starter.caller.take_turn();
        outcome
    }
}
