//! What a search knows from its runs.

ghost use Rattle.std.specs.Prelude.{◌≡◌, ◌<◌, ◌≤◌, ◌+◌, ◌++◌, ◌∷◌, ◌↔◌, [], List, Bool, cond};
ghost use Rattle.std.specs.Prelude.{length, IsTrue, IfOk, IfErr, OnOk, OnErr};
ghost use Rattle.std.specs.List.{slice_index_or};
ghost use Rattle.hack_conflicts.specs.Runs.{Run, runs_in, IsPassed, IsSpent};
ghost use Rattle.hack_conflicts.specs.declared.tried.BuildOutcome.TheVariants.{Passed, Failed};
ghost use Rattle.hack_conflicts.specs.declared.tried.BuildOutcome.TheVariants.{Broken as BrokenRun};
ghost use Rattle.hack_conflicts.specs.Internal.{IsSound, IsNext, IsGoing, Grows, IsEnd, told};

use crate::builds::Builds;
use crate::fault::End;
use crate::rules::Rules;
use crate::sets::is_within;
use crate::tried::{BuildOutcome, Tried};
use std::alloc::{AllocError, Global};

/// What a search knows.
#[derive(Drop)]
pub(crate) struct Known {
    /// The runs so far.
    pub runs: Vec<Tried>,
    /// Sets that failed, of which each part that may be chosen lies inside one that passed.
    pub conflicts: Vec<Vec<bool>>,
    /// Sets that passed, and weren't tried to make a conflict smaller.
    pub passing: Vec<Vec<bool>>,
}

/// Whether so many runs are all that are allowed.
fn is_spent(most: Option<usize>, runs: usize) -> bool
    ensures { IsTrue result ↔ IsSpent most runs }
{
    match most {
        Some(most) => most <= runs,
        None => false,
    }
}

/// The set of the run at the place, none past the last.
pub(crate) fn set_of(runs: &[Tried], place: usize) -> &[bool]
    ensures { result.now ≡ (slice_index_or (runs_in runs.now) place
        (record { set = []; outcome = BrokenRun })).set }
{
    match runs.get(place) {
        Some(run) => run.set.as_slice(),
        None => &[],
    }
}

/// How the run at the place ended.
pub(crate) fn outcome_of(runs: &[Tried], place: usize) -> BuildOutcome
    ensures { result ≡ (slice_index_or (runs_in runs.now) place
        (record { set = []; outcome = BrokenRun })).outcome }
{
    match runs.get(place) {
        Some(run) => run.outcome,
        None => BuildOutcome::Broken,
    }
}

/// Whether the run at the place passed.
pub(crate) fn has_passed(runs: &[Tried], place: usize) -> bool
    ensures { IsTrue result ↔ ((slice_index_or (runs_in runs.now) place
        (record { set = []; outcome = BrokenRun })).outcome ≡ Passed) }
{
    match outcome_of(runs, place) {
        BuildOutcome::Passed => true,
        _ => false,
    }
}

/// Whether the set lies inside one that passed.
pub(crate) fn is_passed(runs: &[Tried], set: &[bool]) -> bool
    ensures { IsTrue result ↔ IsPassed (runs_in runs.now) set.now }
{
    for place in 0..runs.len() {
        if has_passed(runs, place) && is_within(set, set_of(runs, place)) {
            return true;
        }
    }
    false
}

impl Known {
    /// Nothing.
    pub(crate) fn nothing(alloc: Global) -> Known
        ensures runs { result.runs.items ≡ [] }
        ensures conflicts { result.conflicts.items ≡ [] }
        ensures passing { result.passing.items ≡ [] }
    {
        Known {
            runs: Vec::new(alloc),
            conflicts: Vec::new(alloc),
            passing: Vec::new(alloc),
        }
    }

    /// Records a run with the set, as a broken one.
    fn begin(&mut self, alloc: Global, set: &[bool]) -> Result<(), AllocError>
        ensures runs { OnOk result (told self.new
            ≡ told self.old ++ record { set = set.now; outcome = BrokenRun } ∷ []) }
        ensures err { OnErr result (told self.new ≡ told self.old) }
        ensures same_conflicts { self.new.conflicts ≡ self.old.conflicts }
        ensures same_passing { self.new.passing ≡ self.old.passing }
    {
        let set = Vec::from_slice(alloc, set)?;
        self.runs.push(Tried {
            set,
            outcome: BuildOutcome::Broken,
        })?;
        Ok(())
    }

    /// Records how the last run ended.
    fn finish(&mut self, outcome: BuildOutcome)
        ensures runs { (front : List Run) (set : List Bool)
            → told self.old ≡ front ++ record { set = set; outcome = BrokenRun } ∷ []
            → told self.new ≡ front ++ record { set = set; outcome = outcome } ∷ [] }
        ensures same_conflicts { self.new.conflicts ≡ self.old.conflicts }
        ensures same_passing { self.new.passing ≡ self.old.passing }
    {
        if let Some(last) = self.runs.last_mut() {
            last.outcome = outcome;
        }
    }
}

/// Tries a build with the set, unless all runs that are allowed were tried.
pub(crate) fn ask<B: Builds>(
    alloc: Global,
    most: Option<usize>,
    known: &mut Known,
    set: &[bool],
    builder: &mut B,
) -> Result<bool, End>
    ensures sound { (r : Rules) → IsSound r most known.old → IsNext r known.old set.now
        → IsSound r most known.new }
    ensures grows { Grows known.old known.new }
    ensures ran { (start : B) → B.ran (told known.old) start builder.old
        → B.ran (told known.new) start builder.new }
    ensures told { IfOk result (λ passed. told known.new
        ≡ told known.old ++ record { set = set.now; outcome = cond passed Passed Failed } ∷ []) }
    ensures going { IfOk result (λ passed. IsGoing known.old → IsGoing known.new) }
    ensures same_conflicts { known.new.conflicts ≡ known.old.conflicts }
    ensures same_passing { known.new.passing ≡ known.old.passing }
    ensures few { length known.new.runs.items ≤ length known.old.runs.items + 1 }
    ensures ends { IfErr result (λ end. (r : Rules) → IsNext r known.old set.now
        → IsEnd r most known.new end) }
{
    if is_spent(most, known.runs.len()) {
        return Err(End::Spent);
    }
    known.begin(alloc, set)?;
    let outcome = builder.build(set);
    known.finish(outcome);
    match outcome {
        BuildOutcome::Passed => Ok(true),
        BuildOutcome::Failed => Ok(false),
        BuildOutcome::Broken => Err(End::Broken),
    }
}
