//! A tester in memory.

ghost use Rattle.hack_bisect.specs.Scripts.{AreAnswers};
ghost use Rattle.hack_bisect.specs.ScriptLaws.{answers_none, answers_more};

use crate::tries::{TrialOutcome, Tries};

/// The places of its trials that end in each way.
#[derive(Clone, Copy, Debug, PartialEq, Eq)]
pub struct Scripted {
    /// Places from this one on pass, and those below it fail.
    pub least: usize,
    /// But a trial of this place is broken.
    pub broken: Option<usize>,
}

impl Tries for Scripted {
    ghost tried = { AreAnswers };

    fn try_at(&mut self, place: usize) -> TrialOutcome {
        if self.broken == Some(place) {
            return TrialOutcome::Broken;
        }
        if place < self.least {
            return TrialOutcome::Failed;
        }
        TrialOutcome::Passed
    }

    ghost tried_none = { answers_none };

    ghost tried_more = { answers_more };
}
