//! A builder in memory.

ghost use Rattle.hack_conflicts.specs.Scripts.{AreAnswers};
ghost use Rattle.hack_conflicts.specs.ScriptLaws.{answers_none, answers_more};

use crate::builds::Builds;
use crate::sets::has_inside;
use crate::tried::BuildOutcome;

/// The sets of its builds that end in each way, unless one of an earlier line lies inside the set.
#[derive(Drop)]
pub struct Scripted {
    /// A build with a set inside which one of these lies is broken.
    pub broken: Vec<Vec<bool>>,
    /// It passes.
    pub passing: Vec<Vec<bool>>,
    /// It fails. All other builds pass.
    pub failing: Vec<Vec<bool>>,
}

impl Builds for Scripted {
    ghost ran = { AreAnswers };

    fn build(&mut self, set: &[bool]) -> BuildOutcome {
        if has_inside(self.broken.as_slice(), set) {
            return BuildOutcome::Broken;
        }
        if has_inside(self.passing.as_slice(), set) {
            return BuildOutcome::Passed;
        }
        if has_inside(self.failing.as_slice(), set) {
            return BuildOutcome::Failed;
        }
        BuildOutcome::Passed
    }

    ghost ran_none = { answers_none };

    ghost ran_more = { answers_more };
}
