//! A command that was started.

ghost use Rattle.std.specs.Prelude.{◌≡◌, IfOk, IsTrue, MatchBool, false, nat_eq};
ghost use Rattle.hack_base.specs.Names.{names_of};
ghost use Rattle.hack_process.specs.Calls.{asked_call};
ghost use Rattle.hack_lanes.specs.Views.{offer_of, pending_of};
ghost use Rattle.hack_lanes.specs.Lanes.{leaves as leaves_lane};

use crate::job::Job;
use hack_base::copies::copies;
use std::alloc::{AllocError, Global};

/// A command that was started in a lane, and isn't told yet.
#[derive(Drop)]
pub(crate) struct Child {
    pub(crate) place: usize,
    pub(crate) lane: usize,
    /// Whether it has been seen to have ended.
    pub(crate) over: bool,
    pub(crate) program: String,
    pub(crate) words: Vec<String>,
}

impl Child {
    /// The child of a command that starts in a lane.
    pub(crate) fn new(alloc: Global, lane: usize, job: &Job) -> Result<Child, AllocError>
        ensures { IfOk result (λ child. pending_of child ≡ record {
          place = job.now.place;
          lane = lane;
          asked = (offer_of job.now).asked;
          over = false;
        }) }
    {
        Ok(Child {
            place: job.place,
            lane,
            over: false,
            program: String::from_str(alloc, job.program.as_str())?,
            words: copies(alloc, &job.words)?,
        })
    }

    /// Whether it isn't in this lane any more.
    pub(crate) fn leaves(&self, lane: usize) -> bool
        ensures { result ≡ leaves_lane lane (pending_of self.now) }
    {
        self.over || self.lane != lane
    }

    /// Whether it is the command of a place.
    pub(crate) fn is_at(&self, place: usize) -> bool
        ensures { result ≡ nat_eq (pending_of self.now).place place }
    {
        self.place == place
    }

    /// Whether it is the command of a program and its arguments at a place.
    pub(crate) fn is_of(&self, place: usize, program: &str, words: &[String]) -> bool
        ensures { MatchBool result ((self.now.place ≡ place)
            × ((pending_of self.now).asked ≡ asked_call program.now words.now false))
            (Unit {0}) }
    {
        self.place == place && self.program.as_str() == program && are_same(&self.words, words)
    }
}

/// Whether both have the same texts.
fn are_same(some: &[String], others: &[String]) -> bool
    ensures { IsTrue result → names_of some.now ≡ names_of others.now }
{
    some == others
}
