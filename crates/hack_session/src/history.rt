//! The steps that were handed out, with their outcomes.

ghost use Rattle.std.specs.Prelude.{◌≡◌};
ghost use Rattle.std.specs.Iterator.{YieldsFirst, item_count};
ghost use Rattle.hack_session.specs.Cursors.{with_outcomes};
ghost use Rattle.hack_session.specs.Schedules.{all_steps};

use crate::schedule::Cursor;
use crate::step::{Handed, Outcome};
use hack_partition::partition::Partition;
use hack_plan::plan::Plan;
use std::marker::Model;

/// The steps that a session handed out, in order, each with its outcome. It takes no memory: the
/// steps are found as they are asked for.
#[derive(Drop)]
pub struct History<'a> {
    plan: &'a Plan,
    piece: Option<Partition>,
    cursor: Cursor,
    /// The outcomes of the steps that are left.
    outcomes: &'a [Outcome],
}

impl<'a> Model for History<'a> {
    ghost use Rattle.std.specs.Prelude.{List};
    ghost use Rattle.hack_session.specs.declared.step.Handed.{Handed};
    ghost use Rattle.hack_session.specs.Cursors.{steps_left, with_outcomes};

    ghost Value = { List Handed };

    ghost view = { λ h. with_outcomes (steps_left h.piece h.plan.now h.cursor) h.outcomes.now };
}

impl<'a> History<'a> {
    /// The first steps of a plan and a piece, with these outcomes.
    pub(crate) fn new(
        plan: &'a Plan,
        piece: Option<Partition>,
        outcomes: &'a [Outcome],
    ) -> History<'a>
        ensures { result ≡ with_outcomes (all_steps piece plan.now) outcomes.now }
    {
        History {
            plan,
            piece,
            cursor: Cursor::start(),
            outcomes,
        }
    }
}

impl<'a> Iterator for History<'a> {
    type Item = Handed;

    ghost next_gives = { YieldsFirst (λ h. h) };

    ghost remaining = { item_count (λ h. h) };

    fn next(&mut self) -> Option<Handed> {
        let (outcome, outcomes) = self.outcomes.split_first()?;
        let step = self.cursor.next(self.plan, self.piece)?;
        self.outcomes = outcomes;
        Some(Handed {
            step,
            outcome: *outcome,
        })
    }
}
