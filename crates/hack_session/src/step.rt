//! A step of a session, and how it ended.

ghost use Rattle.std.specs.Prelude.{◌≡◌};
ghost use Rattle.hack_session.specs.Histories.{stops};

use hack_plan::parts::Preparation;

/// A step of a session. Places and versions are those of its plan, from 0.
#[derive(Clone, Copy, Debug, PartialEq, Eq)]
pub enum Step {
    /// Before a version's places.
    Prepare(Preparation),
    /// A place outside the chosen piece, at which nothing is run.
    Skip(usize),
    /// The run at a place.
    Run(usize),
}

/// How a step ended.
#[derive(Clone, Copy, Debug, PartialEq, Eq)]
pub enum Outcome {
    Passed,
    Failed,
}

/// A step that was handed out, and how it ended.
#[derive(Clone, Copy, Debug, PartialEq, Eq)]
pub struct Handed {
    pub step: Step,
    pub outcome: Outcome,
}

impl Handed {
    /// Returns whether no more steps are handed out after this one. A skipped place never stops.
    pub fn stops(&self, keep_going: bool) -> bool
        ensures { result ≡ stops keep_going self.now }
    {
        match self.outcome {
            Outcome::Passed => false,
            Outcome::Failed => match self.step {
                Step::Prepare(_) => true,
                Step::Run(_) => !keep_going,
                Step::Skip(_) => false,
            },
        }
    }
}
