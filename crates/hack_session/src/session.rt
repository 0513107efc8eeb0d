//! The steps of a plan, handed out one by one, with what came of each.

ghost use Rattle.std.specs.Prelude.{◌≡◌, [], IfOk, IfSome, IsSome};
ghost use Rattle.hack_session.specs.Histories.{IsHistory, IsStepOf, Hands, next_of};
ghost use Rattle.hack_session.specs.Schedules.{IsSchedule};

pub use crate::history::History;
pub use crate::lines::{LineFault, Lines};
pub use crate::lister::Lister;
pub use crate::report::KeepGoing;
pub use crate::runner::{Runner, drive, drive_plan};
pub use crate::schedule::is_chosen;
use crate::schedule::{Cursor, count_steps};
pub use crate::screen::{Screen, Status};
pub use crate::starter::Starter;
pub use crate::step::{Handed, Outcome, Step};
use hack_partition::partition::Partition;
pub use hack_plan::parts::Preparation;
use hack_plan::plan::Plan;
use std::alloc::{AllocError, Global};
use std::marker::Model;

/// A plan that is under way: which of its steps were handed out, and what came of them. Once a
/// session is made, handing out its steps takes no more memory.
#[derive(Drop)]
pub struct Session {
    plan: Plan,
    piece: Option<Partition>,
    cursor: Cursor,
    /// One for each step that was handed out.
    outcomes: Vec<Outcome>,
    keep_going: bool,
    stopped: bool,
}

impl Model for Session {
    ghost use Rattle.std.specs.Prelude.{◌≤◌, length, vec_capacity};
    ghost use Rattle.hack_session.specs.Histories.{Course};
    ghost use Rattle.hack_session.specs.Schedules.{all_steps};
    ghost use Rattle.hack_session.specs.Cursors.{IsOnItsWay, course_of};

    ghost Value = { Course };

    ghost view = { λ s. course_of s.piece s.plan s.outcomes.items s.keep_going };

    ghost invariant = { λ s. (length (all_steps s.piece s.plan) ≤ vec_capacity s.outcomes)
        × IsOnItsWay s.piece s.plan s.cursor s.outcomes.items s.keep_going s.stopped };
}

impl Session {
    /// Makes the session of a plan. Where a piece is chosen, only the runs in it are run.
    pub fn new(
        alloc: Global,
        plan: Plan,
        partition: Option<Partition>,
        keep_going: bool,
    ) -> Result<Session, AllocError>
        ensures plan { IfOk result (λ s. s.plan ≡ plan) }
        ensures schedule { IfOk result (λ s. IsSchedule partition plan s.schedule) }
        ensures handed { IfOk result (λ s. s.handed ≡ []) }
        ensures keep_going { IfOk result (λ s. s.keep_going ≡ keep_going) }
    {
        let Some(count) = count_steps(&plan) else {
            return Err(AllocError);
        };
        let outcomes = Vec::with_capacity(alloc, count)?;
        Ok(Session {
            plan,
            piece: partition,
            cursor: Cursor::start(),
            outcomes,
            keep_going,
            stopped: false,
        })
    }

    /// Returns the next step; none where one stopped the session, or all were handed out.
    pub fn next(&self) -> Option<Step>
        ensures next { result ≡ next_of self.now }
        ensures of { IfSome result (IsStepOf self.now.plan) }
    {
        if self.stopped {
            return None;
        }
        let mut cursor = self.cursor;
        cursor.next(&self.plan, self.piece)
    }

    /// Records how the next step ended.
    pub fn done(&mut self, outcome: Outcome)
        requires { IsSome (next_of self.old) }
        ensures { Hands self.old outcome self.new }
    {
        let step = self.cursor.next(&self.plan, self.piece).unwrap();
        let handed = Handed { step, outcome };
        self.stopped = handed.stops(self.keep_going);
        self.outcomes.push(outcome).unwrap();
    }

    /// Returns the steps that were handed out, with their outcomes.
    pub fn handed(&self) -> History<'_>
        ensures value { result ≡ self.now.handed }
        ensures history { IsHistory self.now }
    {
        History::new(&self.plan, self.piece, self.outcomes.as_slice())
    }

    /// Returns whether runs go on after a failed one.
    pub fn keep_going(&self) -> bool
        ensures { result ≡ self.now.keep_going }
    {
        self.keep_going
    }

    /// The plan.
    pub fn plan(&self) -> &Plan
        ensures { result.now ≡ self.now.plan }
    {
        &self.plan
    }
}
